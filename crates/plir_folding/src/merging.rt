//! Merging of constants: of those in a block that are of the same integer, the first one is used alone.
ghost use Rattle.std.specs.Prelude.{◌≡◌, ◌≢◌, ◌↔◌, false, [], option_map, IfOk, OnErr, OnOk};
ghost use Rattle.plir_core.specs.declared.ptr.IRNode.{IRNode as AnyNode};
ghost use Rattle.plir_core.specs.Forest.{look};
ghost use Rattle.plir_core.specs.ContextView.{IsLive, children, op_at};
ghost use Rattle.plir_core.specs.WellFormed.{IsWellFormed};
ghost use Rattle.plir_walk.specs.Lawful.{Lawful};
ghost use Rattle.plir_folding.specs.Worth.{integer_of};
ghost use Rattle.plir_folding.specs.Merged.{typed_constant, AreFirstAlone, IsMerged};
ghost use Rattle.plir_folding.specs.Merging.{AreListed, AreMergesBelow, IsNoted, IsScanned};

use crate::reading::constant_in;
use plir_core::laws::{first_child_is_front, next_is_behind};
use plir_core::{BasicBlock, Context, IRNode, Operation, Ptr, Value};
use plir_data::{IntegerAttr, Memory, OpSet};
use plir_walk::WALKCONFIG_PREORDER_FORWARD;
use plir_walk::interruptible::immutable::walk_op;
use plir_walk::interruptible::{WalkResult, walk_advance, walk_break};
use plir_walk::laws::lawful_changes;
use std::alloc::Global;
use std::collections::HashMap;
use std::ops::ControlFlow;

// The result of a constant that is used, whose uses are to become uses of another one's.
#[derive(Clone, Copy)]
struct Merge {
    from: Value,
    into: Value,
}

// The integer that an operation is a constant of, if it has one result, of that integer's type.
fn typed_constant<D: OpSet>(ctx: &Context<D>, op: Ptr<Operation>) -> Option<IntegerAttr>
    requires { IsLive ctx.now (AnyNode.Operation op) }
    ensures { option_map integer_of result ≡ typed_constant (op_at ctx.now op) }
{
    let Some(integer) = constant_in(ctx, op) else {
        return None;
    };
    if op.get_num_results(ctx) != 1 || op.get_type(ctx, 0) != integer.get_type().into() {
        return None;
    }
    Some(integer)
}

// Notes the next operation of a block: it is the first constant of its integer there, or lists that its uses are to
// become uses of the first one, or there is nothing to be done.
fn note<D: OpSet>(
    ctx: &Context<D>,
    firsts: &mut HashMap<IntegerAttr, Value>,
    merges: &mut Vec<Merge>,
    op: Ptr<Operation>,
) -> Result<(), Memory>
    requires { IsLive ctx.now (AnyNode.Operation op) }
    ensures { OnOk result (IsNoted ctx.now op firsts.old merges.old.items firsts.new merges.new.items) }
{
    let Some(integer) = typed_constant(ctx, op) else {
        return Ok(());
    };
    let result = op.get_result(ctx, 0);
    let Some(first) = firsts.get(&integer).copied() else {
        firsts.insert(integer, result)?;
        return Ok(());
    };
    if result.has_uses(ctx) {
        merges.push(Merge {
            from: result,
            into: first,
        })?;
    }
    Ok(())
}

// Lists what is to be merged in a block.
fn list_block<D: OpSet>(
    alloc: Global,
    ctx: &Context<D>,
    merges: &mut Vec<Merge>,
    block: Ptr<BasicBlock>,
) -> Result<(), Memory>
    requires { IsLive ctx.now (AnyNode.BasicBlock block) }
    ensures { OnOk result (AreListed ctx.now (children ctx.now (AnyNode.BasicBlock block)) merges.old.items
        merges.new.items) }
{
    ctx.stands();
    first_child_is_front(ctx, IRNode::BasicBlock(block));
    let mut firsts = HashMap::new(alloc);
    let mut at = block.get_head(ctx);
    'ops: while let Some(op) = at {
        next_is_behind(ctx, IRNode::Operation(op));
        at = op.get_next(ctx);
        note(ctx, &mut firsts, merges, op)?;
    }
    Ok(())
}

// Lists what is to be merged at a node: in a block, that is; elsewhere nothing is. Breaks the walk off for want of
// memory.
fn list_node<D: OpSet>(
    alloc: Global,
    ctx: &Context<D>,
    merges: &mut Vec<Merge>,
    node: IRNode,
) -> WalkResult<Memory>
    requires { IsLive ctx.now node }
    ensures { IsScanned ctx.now merges.old.items node result merges.new.items }
{
    match node {
        IRNode::Operation(_) => walk_advance(),
        IRNode::Region(_) => walk_advance(),
        IRNode::BasicBlock(block) => match list_block(alloc, ctx, merges, block) {
            Ok(()) => walk_advance(),
            Err(refused) => walk_break(refused),
        },
    }
}

// Lists what is to be merged in the blocks below a root.
fn list_merges<D: OpSet>(
    alloc: Global,
    ctx: &Context<D>,
    root: Ptr<Operation>,
) -> Result<Vec<Merge>, Memory>
    requires { IsLive ctx.now (AnyNode.Operation root) }
    ensures { IfOk result (λ merges. AreMergesBelow ctx.now (AnyNode.Operation root) merges.items) }
{
    ctx.stands();
    let mut merges = Vec::new(alloc);
    let list = |c: &Context<D>, m: &mut Vec<Merge>, n: IRNode| -> WalkResult<Memory>
        requires { IsLive c.now n }
        ensures { IsScanned c.now m.old.items n result m.new.items }
    { list_node(alloc, c, m, n) };
    match walk_op(ctx, &mut merges, &WALKCONFIG_PREORDER_FORWARD, root, list) {
        ControlFlow::Continue(_) => Ok(merges),
        ControlFlow::Break(refused) => Err(refused),
    }
}

// Merges what is listed. Each result that is merged into another one is used no more.
fn merge_all<D: OpSet>(ctx: &mut Context<D>, root: Ptr<Operation>, merges: &[Merge])
    requires { AreMergesBelow ctx.old (AnyNode.Operation root) merges.now }
    ensures merged { IsMerged ctx.old (AnyNode.Operation root) ctx.new }
    ensures alone { AreFirstAlone ctx.new (AnyNode.Operation root) }
    ensures told { merges.now ≢ [] → ctx.new ≢ ctx.old }
    ensures lawful { Lawful (look ctx.old) (AnyNode.Operation root) (look ctx.new) }
    ensures whole { IsWellFormed D.attr_handles ctx.new }
{
    lawful_changes::<D>();
    ctx.stands();
    'merges: for merge in merges {
        merge.from.replace_all_uses_with(ctx, merge.into);
    }
}

/// Merges constants of the same integer in each block below an operation: whatever uses the result of one of them uses
/// that of the first one in the block afterwards, wherever the user stands. A constant counts here where it has one
/// result, which is of its integer's type; two are of the same integer where type, width and bits are the same.
/// Operands alone change. No operation comes or goes or moves: the later constants stay where they are, without a use,
/// and dead code elimination takes them. Since the first constant of a block stands before the others there, an
/// operand that came behind its constant still does. Answers whether any operand has changed.
///
/// The tree is walked once, with a hash map for each block, and a replacement looks at the users of the one value.
///
/// # Errors
///
/// [`Memory`] where there is none to list what is to be merged; then nothing has changed.
pub fn merge_constants<D: OpSet>(
    alloc: Global,
    ctx: &mut Context<D>,
    root: Ptr<Operation>,
) -> Result<bool, Memory>
    requires { IsLive ctx.old (AnyNode.Operation root) }
    ensures merged { OnOk result (IsMerged ctx.old (AnyNode.Operation root) ctx.new) }
    ensures alone { OnOk result (AreFirstAlone ctx.new (AnyNode.Operation root)) }
    ensures told { IfOk result (λ changed. (changed ≡ false) ↔ (ctx.new ≡ ctx.old)) }
    ensures err { OnErr result (ctx.new ≡ ctx.old) }
    ensures lawful { Lawful (look ctx.old) (AnyNode.Operation root) (look ctx.new) }
    ensures whole { IsWellFormed D.attr_handles ctx.new }
{
    lawful_changes::<D>();
    ctx.stands();
    let merges = list_merges(alloc, ctx, root)?;
    if merges.is_empty() {
        return Ok(false);
    }
    merge_all(ctx, root, &merges);
    Ok(true)
}
