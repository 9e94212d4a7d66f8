//! How a symbol is found in a body by its name, without a table.
ghost use Rattle.std.specs.Prelude.{◌≡◌, ◌+◌, ◌≤◌, Some, None, true, false, IsSome, length};
ghost use Rattle.plir_core.specs.declared.ptr.IRNode.{IRNode as AnyNode};
ghost use Rattle.plir_core.specs.ContextView.{IsLive};
ghost use Rattle.plir_builtin.specs.Symbols.{body, find_named, scan, symbols_in, symbols_of};

use crate::symbols::{is_symbol, symbol_name};
use crate::table_body::body_of;
use plir_core::laws::{first_child_is_front, next_is_behind};
use plir_core::{BasicBlock, Context, IRNode, Operation, Ptr};
use plir_data::{Identifier, OpSet};

/// Whether an operation is a symbol with a name.
fn is_symbol_named<D: OpSet>(ctx: &Context<D>, op: Ptr<Operation>, name: &Identifier) -> bool
    requires { IsLive ctx.now (AnyNode.Operation op) }
    ensures yes { result ≡ true → find_named name.now (symbols_of D.is_symbol ctx.now op) ≡ Some op }
    ensures no { result ≡ false → find_named name.now (symbols_of D.is_symbol ctx.now op) ≡ None }
{
    if !is_symbol(ctx, op) {
        return false;
    }
    match symbol_name(ctx, op) {
        Some(own) => name == own,
        None => false,
    }
}

/// The first symbol in a block that has a name.
fn find_in_block<D: OpSet>(
    ctx: &Context<D>,
    block: Ptr<BasicBlock>,
    name: &Identifier,
) -> Option<Ptr<Operation>>
    requires { IsLive ctx.now (AnyNode.BasicBlock block) }
    ensures { result ≡ find_named name.now (symbols_in D.is_symbol ctx.now (Some (AnyNode.BasicBlock block))) }
{
    ctx.stands();
    first_child_is_front(ctx, IRNode::BasicBlock(block));
    let mut at = block.get_head(ctx);
    'ops: while let Some(op) = at {
        next_is_behind(ctx, IRNode::Operation(op));
        if is_symbol_named(ctx, op, name) {
            return Some(op);
        }
        at = op.get_next(ctx);
    }
    None
}

/// A number, and one more where an operation is a symbol.
fn count_op<D: OpSet>(ctx: &Context<D>, op: Ptr<Operation>, before: usize) -> usize
    requires { IsLive ctx.now (AnyNode.Operation op) }
    ensures { result ≤ before + length (symbols_of D.is_symbol ctx.now op) }
{
    if is_symbol(ctx, op) {
        before.saturating_add(1)
    } else {
        before
    }
}

/// How many symbols stand in a block, or fewer: for so many names a table makes room.
pub(crate) fn count_symbols<D: OpSet>(ctx: &Context<D>, block: Ptr<BasicBlock>) -> usize
    requires { IsLive ctx.now (AnyNode.BasicBlock block) }
    ensures { result ≤ length (symbols_in D.is_symbol ctx.now (Some (AnyNode.BasicBlock block))) }
{
    ctx.stands();
    first_child_is_front(ctx, IRNode::BasicBlock(block));
    let mut count: usize = 0;
    let mut at = block.get_head(ctx);
    'ops: while let Some(op) = at {
        next_is_behind(ctx, IRNode::Operation(op));
        count = count_op(ctx, op, count);
        at = op.get_next(ctx);
    }
    count
}

/// The first symbol in the body of an operation that has a name.
pub(crate) fn find_symbol<D: OpSet>(
    ctx: &Context<D>,
    op: Ptr<Operation>,
    name: &Identifier,
) -> Option<Ptr<Operation>>
    requires live { IsLive ctx.now (AnyNode.Operation op) }
    requires at_body { IsSome (body ctx.now op) }
    ensures { result ≡ scan D.is_symbol ctx.now op name.now }
{
    find_in_block(ctx, body_of(ctx, op), name)
}
