//! Whether the operations of a tree use only what they can name.
ghost use Rattle.std.specs.Prelude.{◌≡◌, ◌↔◌, All, IfSome, IsTrue, MatchOption};
ghost use Rattle.plir_core.specs.ContextView.{IsLive, IsValueLive, children, entity_node, kind_of, operands_of};
ghost use Rattle.plir_core.specs.ContextView.{successors_of};
ghost use Rattle.plir_core.specs.declared.ptr.IRNode.{IRNode as AnyNode};
ghost use Rattle.plir_walk.specs.Tree.{IsUnder};
ghost use Rattle.plir_roundtrip.specs.Obstacles.{IsBodyTold, IsFarOperand, IsFarSuccessor, IsSameBody, as_isolated};
ghost use Rattle.plir_roundtrip.specs.UsesWithin.{IsBeside, IsWithinReach, is_kind_isolated};

use plir_core::{BasicBlock, Context, DefiningEntity, IRNode, Operation, Ptr, Value};
use plir_data::OpKind;
use plir_read_own::ReadSet;

/// Which isolated operation of a tree is the innermost one around a node.
#[derive(Clone, Copy)]
pub enum Body {
    /// None: the node is of the tree, and no isolated operation of the tree stands around it.
    Whole,
    /// This one, where it is of the tree; else the node is not of the tree either.
    Of(Ptr<Operation>),
    /// None: the node is not of the tree.
    Outside,
}

// Whether names in the regions of an operation mean nothing that stands outside.
fn is_isolated<D: ReadSet>(ctx: &Context<D>, op: Ptr<Operation>) -> bool
    requires { IsLive ctx.now (AnyNode.Operation op) }
    ensures { result ≡ is_kind_isolated D.is_isolated (kind_of ctx.now op) }
{
    match op.kind(ctx) {
        OpKind::Module => true,
        OpKind::Func => true,
        OpKind::Constant => false,
        OpKind::ForwardRef => false,
        OpKind::Own(kind) => D::is_isolated(kind),
    }
}

// The operation at a node, if there is one and it is isolated.
fn isolated_at<D: ReadSet>(ctx: &Context<D>, node: Option<IRNode>) -> Option<Ptr<Operation>>
    requires { IfSome node (IsLive ctx.now) }
    ensures { result ≡ as_isolated D.is_isolated ctx.now node }
{
    match node {
        Some(IRNode::Operation(op)) => { if is_isolated(ctx, op) { Some(op) } else { None } }
        Some(IRNode::Region(_)) => None,
        Some(IRNode::BasicBlock(_)) => None,
        None => None,
    }
}

// Whether a node is this operation.
fn is_op(node: IRNode, op: Ptr<Operation>) -> bool
    ensures { IsTrue result ↔ (node ≡ AnyNode.Operation op) }
{
    match node {
        IRNode::Operation(other) => other == op,
        IRNode::Region(_) => false,
        IRNode::BasicBlock(_) => false,
    }
}

// Which isolated operation is the innermost one around a node, by a climb from the node to that operation or to the
// root of the tree.
fn body_around<D: ReadSet>(ctx: &Context<D>, root: Ptr<Operation>, node: IRNode) -> Body
    requires { IsLive ctx.now node }
    ensures { IsBodyTold D.is_isolated ctx.now (AnyNode.Operation root) node result }
{
    ctx.stands();
    let mut at = Some(node);
    'up: while let Some(inner) = at {
        if is_op(inner, root) {
            return Body::Whole;
        }
        let over = inner.parent(ctx);
        if let Some(op) = isolated_at(ctx, over) {
            return Body::Of(op);
        }
        at = over;
    }
    Body::Outside
}

// Whether two nodes have the same innermost isolated operation of the tree around them.
fn is_same_body(a: Body, b: Body) -> bool
    ensures { IsTrue result ↔ IsSameBody a b }
{
    match a {
        Body::Whole => matches!(b, Body::Whole),
        Body::Of(op) => match b {
            Body::Of(other) => op == other,
            Body::Whole => false,
            Body::Outside => false,
        },
        Body::Outside => false,
    }
}

// The node that a value comes from.
fn node_of(value: Value) -> IRNode
    ensures { result ≡ entity_node value.entity }
{
    match value.defining_entity() {
        DefiningEntity::Op(op) => IRNode::Operation(op),
        DefiningEntity::Block(block) => IRNode::BasicBlock(block),
    }
}

// Whether an operation of the tree, in this body, can name a value.
fn is_within_reach<D: ReadSet>(
    ctx: &Context<D>,
    root: Ptr<Operation>,
    op: Ptr<Operation>,
    body: Body,
    value: Value,
) -> bool
    requires live { IsValueLive ctx.now value }
    requires under { IsUnder (children ctx.now) (AnyNode.Operation root) (AnyNode.Operation op) }
    requires told { IsBodyTold D.is_isolated ctx.now (AnyNode.Operation root) (AnyNode.Operation op) body }
    ensures { IsTrue result ↔ IsWithinReach D.is_isolated ctx.now (AnyNode.Operation root) op value }
{
    ctx.stands();
    is_same_body(body, body_around(ctx, root, node_of(value)))
}

/// The place of the first operand that an operation of the tree cannot name, if there is one.
pub(crate) fn far_operand<D: ReadSet>(
    ctx: &Context<D>,
    root: Ptr<Operation>,
    op: Ptr<Operation>,
) -> Option<usize>
    requires live { IsLive ctx.now (AnyNode.Operation op) }
    requires under { IsUnder (children ctx.now) (AnyNode.Operation root) (AnyNode.Operation op) }
    ensures { MatchOption result
        (All (IsWithinReach D.is_isolated ctx.now (AnyNode.Operation root) op) (operands_of ctx.now op))
        (IsFarOperand D.is_isolated ctx.now (AnyNode.Operation root) op) }
{
    let body = body_around(ctx, root, IRNode::Operation(op));
    'operands: for place in 0..op.get_num_operands(ctx) {
        if !is_within_reach(ctx, root, op, body, op.get_operand(ctx, place)) {
            return Some(place);
        }
    }
    None
}

// Whether an operation of the tree can name a block.
fn is_beside<D: ReadSet>(
    ctx: &Context<D>,
    root: Ptr<Operation>,
    op: Ptr<Operation>,
    block: Ptr<BasicBlock>,
) -> bool
    requires live { IsLive ctx.now (AnyNode.Operation op) }
    requires block { IsLive ctx.now (AnyNode.BasicBlock block) }
    requires under { IsUnder (children ctx.now) (AnyNode.Operation root) (AnyNode.Operation op) }
    ensures { IsTrue result ↔ IsBeside ctx.now (AnyNode.Operation root) op block }
{
    ctx.stands();
    if op == root {
        return false;
    }
    let Some(region) = op.get_parent_region(ctx) else {
        return false;
    };
    match block.get_parent_region(ctx) {
        Some(other) => other == region,
        None => false,
    }
}

/// The place of the first successor that an operation of the tree cannot name, if there is one.
pub(crate) fn far_successor<D: ReadSet>(
    ctx: &Context<D>,
    root: Ptr<Operation>,
    op: Ptr<Operation>,
) -> Option<usize>
    requires live { IsLive ctx.now (AnyNode.Operation op) }
    requires under { IsUnder (children ctx.now) (AnyNode.Operation root) (AnyNode.Operation op) }
    ensures { MatchOption result
        (All (IsBeside ctx.now (AnyNode.Operation root) op) (successors_of ctx.now op))
        (IsFarSuccessor ctx.now (AnyNode.Operation root) op) }
{
    'successors: for place in 0..op.get_num_successors(ctx) {
        if !is_beside(ctx, root, op, op.get_successor(ctx, place)) {
            return Some(place);
        }
    }
    None
}
