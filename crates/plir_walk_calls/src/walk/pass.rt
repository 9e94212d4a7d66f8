//! A small pass, as a user would write one: it makes a module with a function and an own operation in it, reshapes it
//! in a walk, and reads, stores, verifies and prints an attribute. What a call has promised is tested nowhere again.
ghost use Rattle.std.specs.Prelude.{IfOk, IsSome, codes};
ghost use Rattle.plir_data.specs.Dictionary.{dict_get};
ghost use Rattle.plir_core.specs.ContextView.{IsAncestor, IsLive, attributes_of};
ghost use Rattle.plir_core.specs.declared.ptr.IRNode.{IRNode as AnyNode};
ghost use Rattle.plir_core.specs.Forest.{look};
ghost use Rattle.plir_walk.specs.Lawful.{Lawful};

use crate::walk::changes::NOT_DONE;
use plir_attr_text::{print_attr, read_attr};
use plir_core::laws::{child_at, growth, op_edits_keep_the_rest};
use plir_core::{BasicBlock, Context, IRNode, NodeErr, Operation, Ptr, Region};
use plir_data::{Identifier, Memory, OpKind, OpSet};
use plir_walk::interruptible::mutable::walk_op;
use plir_walk::interruptible::{WalkResult, walk_advance, walk_break};
use plir_walk::laws::lawful_changes;
use plir_walk::{CallLimit, NodeLinks, WALKCONFIG_PREORDER_FORWARD};
use std::alloc::Global;

/// A module with a function in it, and in that an operation of one of the user's own kinds.
pub fn module_with_function<D: OpSet>(
    alloc: Global,
    ctx: &mut Context<D>,
    own: D::Kind,
) -> Result<Ptr<Operation>, NodeErr>
    ensures { IfOk result (λ op. IsLive ctx.new (AnyNode.Operation op)) }
{
    let (op, region) = alone(alloc, ctx, OpKind::Module)?;
    let block = fill(alloc, ctx, region)?;
    let entry = append(alloc, ctx, OpKind::Func, block)?;
    append(alloc, ctx, OpKind::Own(own), entry)?;
    Ok(op)
}

// A new operation with one region, in no block.
fn alone<D: OpSet>(
    alloc: Global,
    ctx: &mut Context<D>,
    kind: OpKind<D::Kind>,
) -> Result<(Ptr<Operation>, Ptr<Region>), NodeErr>
    ensures op_live { IfOk result (λ x. IsLive ctx.new (AnyNode.Operation x.0)) }
    ensures region_live { IfOk result (λ x. IsLive ctx.new (AnyNode.Region x.1)) }
{
    let results = Vec::new(alloc);
    let operands = Vec::new(alloc);
    let successors = Vec::new(alloc);
    let op = Operation::new(alloc, ctx, kind, results, operands, successors, 1)?;
    let region = op.get_region(ctx, 0);
    Ok((op, region))
}

// A new block at the end of a region.
fn fill<D: OpSet>(
    alloc: Global,
    ctx: &mut Context<D>,
    region: Ptr<Region>,
) -> Result<Ptr<BasicBlock>, NodeErr>
    requires { IsLive ctx.old (AnyNode.Region region) }
    ensures live { IfOk result (λ block. IsLive ctx.new (AnyNode.BasicBlock block)) }
    ensures kept { (n : AnyNode) → IsLive ctx.old n → IsLive ctx.new n }
    ensures lawful { (n : AnyNode) → IsAncestor ctx.old n (AnyNode.Region region) →
        Lawful (look ctx.old) n (look ctx.new) }
{
    lawful_changes::<D>();
    ctx.forest();
    let block = BasicBlock::new(alloc, ctx, None, Vec::new(alloc))?;
    block.insert_at_back(ctx, region);
    Ok(block)
}

// A new operation at the end of a block, with one region, which holds the block that is answered.
fn append<D: OpSet>(
    alloc: Global,
    ctx: &mut Context<D>,
    kind: OpKind<D::Kind>,
    block: Ptr<BasicBlock>,
) -> Result<Ptr<BasicBlock>, NodeErr>
    requires { IsLive ctx.old (AnyNode.BasicBlock block) }
    ensures live { IfOk result (λ entry. IsLive ctx.new (AnyNode.BasicBlock entry)) }
    ensures kept { (n : AnyNode) → IsLive ctx.old n → IsLive ctx.new n }
    ensures lawful { Lawful (look ctx.old) (AnyNode.BasicBlock block) (look ctx.new) }
{
    lawful_changes::<D>();
    ctx.forest();
    growth(ctx);
    let results = Vec::new(alloc);
    let operands = Vec::new(alloc);
    let successors = Vec::new(alloc);
    let op = Operation::new(alloc, ctx, kind, results, operands, successors, 1)?;
    let region = op.get_region(ctx, 0);
    op.insert_at_back(ctx, block);
    child_at(ctx, IRNode::Operation(op), IRNode::Region(region), 0);
    fill(alloc, ctx, region)
}

// Gives a region to an operation.
fn add_region<D: OpSet>(ctx: &mut Context<D>, op: Ptr<Operation>) -> Result<(), NodeErr>
    requires { IsLive ctx.old (AnyNode.Operation op) }
    ensures { Lawful (look ctx.old) (AnyNode.Operation op) (look ctx.new) }
{
    lawful_changes::<D>();
    ctx.forest();
    let _region = Operation::add_region(op, ctx)?;
    Ok(())
}

// Erases the last operation of a block, if there is one and nothing outside it uses it, and puts a new function in its
// place.
fn replace_last<D: OpSet>(
    alloc: Global,
    ctx: &mut Context<D>,
    block: Ptr<BasicBlock>,
) -> Result<(), NodeErr>
    requires { IsLive ctx.old (AnyNode.BasicBlock block) }
    ensures { Lawful (look ctx.old) (AnyNode.BasicBlock block) (look ctx.new) }
{
    lawful_changes::<D>();
    ctx.forest();
    let Some(last) = block.get_tail(ctx) else {
        return Ok(());
    };
    if !IRNode::Operation(last).is_unused_outside(ctx) {
        return Ok(());
    }
    Operation::erase(last, ctx);
    append(alloc, ctx, OpKind::Func, block).map(|_entry| ())
}

// Notes a node; gives a region to it if it is an operation, and has its last operation replaced if it is a block.
fn visit<D: OpSet>(
    alloc: Global,
    ctx: &mut Context<D>,
    called: &mut Vec<IRNode>,
    node: IRNode,
) -> WalkResult<u32>
    requires { IsLive ctx.old node }
    ensures { Lawful (look ctx.old) node (look ctx.new) }
{
    lawful_changes::<D>();
    if called.push(node).is_err() {
        return walk_break(NOT_DONE);
    }
    let done = match node {
        IRNode::Operation(op) => add_region(ctx, op),
        IRNode::BasicBlock(block) => replace_last(alloc, ctx, block),
        IRNode::Region(_) => Ok(()),
    };
    match done {
        Ok(()) => walk_advance(),
        Err(_) => walk_break(NOT_DONE),
    }
}

/// Walks a module by a callback that gives a region to each operation, and in each block has the last operation
/// replaced.
pub fn reshape<D: OpSet>(
    alloc: Global,
    ctx: &mut Context<D>,
    root: Ptr<Operation>,
    called: &mut Vec<IRNode>,
) -> Result<WalkResult<u32>, CallLimit>
    requires { IsLive ctx.old (AnyNode.Operation root) }
{
    let follow = |ctx: &mut Context<D>, called: &mut Vec<IRNode>, node: IRNode| -> WalkResult<u32>
        requires { IsLive ctx.old node }
        ensures { Lawful (look ctx.old) node (look ctx.new) }
    { visit(alloc, ctx, called, node) };
    walk_op(ctx, called, &WALKCONFIG_PREORDER_FORWARD, root, 100, follow)
}

/// Reads an attribute from a text, puts it under `note` on an operation, finds it there, verifies it and prints it:
/// `None` where the text is refused, the attribute isn't valid, or memory is wanting.
pub fn note<D: OpSet>(
    alloc: Global,
    ctx: &mut Context<D>,
    op: Ptr<Operation>,
    text: &str,
) -> Option<String>
    requires { IsLive ctx.old (AnyNode.Operation op) }
    ensures { IsLive ctx.new (AnyNode.Operation op) }
{
    let Ok(attr) = read_attr(alloc, ctx, text) else {
        return None;
    };
    let Ok(key) = Identifier::try_new(alloc, "note") else {
        return None;
    };
    op_edits_keep_the_rest(ctx, op);
    match op.set_attr(ctx, key, attr) {
        Ok(()) => print_note(alloc, ctx, op),
        Err(Memory) => None,
    }
}

// Verifies the attribute under `note`, and prints it.
fn print_note<D: OpSet>(alloc: Global, ctx: &Context<D>, op: Ptr<Operation>) -> Option<String>
    requires live { IsLive ctx.now (AnyNode.Operation op) }
    requires noted { IsSome (dict_get (attributes_of ctx.now op) (codes "note")) }
{
    let attr = op.attributes(ctx).get("note").unwrap();
    attr.verify(alloc, ctx).ok()?;
    print_attr(alloc, ctx, attr).ok()
}
