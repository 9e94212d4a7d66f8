//! Erasing the names of a tree, if it has any.
ghost use Rattle.std.specs.Prelude.{◌≡◌, ◌≢◌, false, true, is_some};
ghost use Rattle.plir_data.specs.AttrSeen.{attr_view};
ghost use Rattle.plir_core.specs.ContextView.{IsLive};
ghost use Rattle.plir_core.specs.declared.ptr.IRNode.{IRNode as AnyNode};
ghost use Rattle.plir_walk.specs.GivenNames.{names_of};
ghost use Rattle.plir_walk.specs.Unnamed.{IsUnnamed};
ghost use Rattle.plir_driver.specs.Named.{HasNamed, IsLookedAt, IsNamedNowhere, has_names, is_named};
ghost use Rattle.plir_driver.specs.PassEnds.{IsEnd};

use crate::pass_end::PassEnd;
use plir_core::{Context, IRNode, Operation, Ptr};
use plir_data::keys::ATTR_KEY_GIVEN_NAMES;
use plir_data::{AttrObj, AttributeDict, OpSet};
use plir_walk::WALKCONFIG_PREORDER_FORWARD;
use plir_walk::given_names::erase_given_names;
use plir_walk::interruptible::immutable::walk_op;
use plir_walk::interruptible::{WalkResult, walk_advance, walk_break};
use std::ops::ControlFlow;

// Whether an attribute has names.
fn are_names<D: OpSet>(attribute: &AttrObj<D>) -> bool
    ensures { result ≡ is_some (names_of (attr_view attribute.now)) }
{
    match attribute {
        AttrObj::GivenNames(_) => true,
        _ => false,
    }
}

// Whether names stand among attributes, under their key.
fn has_names<D: OpSet>(attributes: &AttributeDict<D>) -> bool
    ensures { result ≡ has_names attributes.now }
{
    match attributes.get(ATTR_KEY_GIVEN_NAMES) {
        None => false,
        Some(attribute) => are_names(attribute),
    }
}

// Whether a node bears names.
fn is_named<D: OpSet>(ctx: &Context<D>, node: IRNode) -> bool
    requires { IsLive ctx.now node }
    ensures { result ≡ is_named ctx.now node }
{
    match node {
        IRNode::Operation(op) => has_names(op.attributes(ctx)),
        IRNode::BasicBlock(block) => has_names(block.attributes(ctx)) || block.label(ctx).is_some(),
        IRNode::Region(_) => false,
    }
}

// Breaks a walk off at a node that bears names.
fn look_at<D: OpSet>(ctx: &Context<D>, node: IRNode) -> WalkResult<()>
    requires { IsLive ctx.now node }
    ensures { IsLookedAt ctx.now node result }
{
    if is_named(ctx, node) {
        walk_break(())
    } else {
        walk_advance()
    }
}

// Whether a node of a tree bears names.
fn any_named<D: OpSet>(ctx: &Context<D>, root: Ptr<Operation>) -> bool
    requires { IsLive ctx.now (AnyNode.Operation root) }
    ensures some { result ≡ true → HasNamed ctx.now (AnyNode.Operation root) }
    ensures none { result ≡ false → IsNamedNowhere ctx.now (AnyNode.Operation root) }
{
    ctx.stands();
    let look = |c: &Context<D>, _state: &mut (), n: IRNode| -> WalkResult<()>
        requires { IsLive c.now n }
        ensures { IsLookedAt c.now n result }
    { look_at(c, n) };
    match walk_op(ctx, &mut (), &WALKCONFIG_PREORDER_FORWARD, root, look) {
        ControlFlow::Break(()) => true,
        ControlFlow::Continue(_) => false,
    }
}

/// Takes the names of results and arguments and the labels of blocks out of a tree, if there are any.
pub fn erase_names<D: OpSet>(ctx: &mut Context<D>, root: Ptr<Operation>) -> PassEnd
    requires { IsLive ctx.old (AnyNode.Operation root) }
    ensures unnamed { IsUnnamed ctx.old ctx.new (AnyNode.Operation root) }
    ensures end { IsEnd ctx.old ctx.new result }
    ensures exact { result ≡ PassEnd.Changed → ctx.new ≢ ctx.old }
{
    if any_named(ctx, root) {
        erase_given_names(ctx, root);
        return PassEnd::Changed;
    }
    PassEnd::Unchanged
}
