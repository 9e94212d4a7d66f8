//! Whether an operation of one's own kind, or one of any kind, can be read, whatever stands below it.
ghost use Rattle.std.specs.Prelude.{◌≡◌, ◌↔◌, ◌<◌, ◌^◌, All, IsErr, IsTrue, Some};
ghost use Rattle.plir_core.specs.declared.ptr.IRNode.{IRNode as AnyNode};
ghost use Rattle.plir_core.specs.ContextView.{IsLive, kind_of, label_of, operands_of, successors_of};
ghost use Rattle.plir_attr_text.specs.Writable.{IsNameOrMark};
ghost use Rattle.plir_read.specs.OpReading.{op_kind};
ghost use Rattle.plir_read_ir.specs.IrGrammar.{own_kind};
ghost use Rattle.plir_roundtrip.specs.IrReadable.{IsId, IsIrOpReadable, IsOwnReadable, IsUseReadable};
ghost use Rattle.plir_roundtrip.specs.Obstacles.{AreTypesReadable, IsIrNodeReadable, IsKindNamed};
ghost use Rattle.plir_roundtrip.specs.Obstacles.{IsNodeCounted, IsNodeNamed, IsUnreadAs};

use crate::entries::are_entries_readable;
use crate::nodes::{is_block_readable, is_op_readable};
use crate::obstacle::Obstacle;
use crate::values::{are_values_readable, is_name_or_none, is_value_readable, num_values};
use plir_core::{Context, DefiningEntity, IRNode, Operation, Ptr};
use plir_data::{OpKind, is_identifier};
use plir_read_own::ReadSet;

// Whether a text is an id: two names with a point between them.
fn is_id(id: &str) -> bool
    ensures { IsTrue result ↔ IsId id.now }
{
    match id.split_once('.') {
        Some((dialect, name)) => is_identifier(dialect) && is_identifier(name),
        None => false,
    }
}

// Whether an id is that of no builtin operation.
#[tactic(auto, unfolding(plir_read::specs::OpReading::op_kind))]
fn is_own_id(id: &str) -> bool
    ensures { IsTrue result ↔ IsErr (op_kind id.now) }
{
    if id == "builtin.module" {
        return false;
    }
    if id == "builtin.func" {
        return false;
    }
    if id == "builtin.constant" {
        return false;
    }
    id != "builtin.forward_ref"
}

// Whether the id of a kind is one, and names that kind in texts.
fn is_kind_found<D: ReadSet>(kind: D::Kind) -> bool
    ensures { IsTrue result ↔ (IsId (D.kind_id kind) × (own_kind D.find_kind (D.kind_id kind) ≡ Some kind)) }
{
    let id = D::kind_id(kind);
    let is_found = D::find_kind(id.as_bytes()).is_some();
    is_id(id) && is_own_id(id) && is_found
}

// Whether what an operation uses has builtin types, and names that are identifiers, if any.
fn are_operands_readable<D: ReadSet>(ctx: &Context<D>, op: Ptr<Operation>) -> bool
    requires { IsLive ctx.now (AnyNode.Operation op) }
    ensures { IsTrue result ↔ All (IsUseReadable D.OpSet D.find_kind ctx.now) (operands_of ctx.now op) }
{
    'operands: for place in 0..op.get_num_operands(ctx) {
        let value = op.get_operand(ctx, place);
        if !is_value_readable(ctx, value.defining_entity(), value.index()) {
            return false;
        }
    }
    true
}

// Whether the labels of an operation's successors are identifiers, if any. They are always.
fn are_successors_labelled<D: ReadSet>(ctx: &Context<D>, op: Ptr<Operation>) -> bool
    requires { IsLive ctx.now (AnyNode.Operation op) }
    ensures { IsTrue result ↔ All (λ b. IsNameOrMark (label_of ctx.now b)) (successors_of ctx.now op) }
{
    'successors: for place in 0..op.get_num_successors(ctx) {
        if !is_name_or_none(op.get_successor(ctx, place).label(ctx)) {
            return false;
        }
    }
    true
}

// Whether an operation of one's own kind can be read.
fn is_own_readable<D: ReadSet>(ctx: &Context<D>, kind: D::Kind, op: Ptr<Operation>) -> bool
    requires { IsLive ctx.now (AnyNode.Operation op) }
    ensures { IsTrue result ↔ IsOwnReadable D.OpSet D.find_kind ctx.now kind op }
{
    let are_entries = are_entries_readable(ctx, op.attributes(ctx));
    let are_results = are_values_readable(ctx, DefiningEntity::Op(op));
    let are_uses = are_operands_readable(ctx, op) && are_successors_labelled(ctx, op);
    is_kind_found::<D>(kind) && are_entries && are_results && are_uses
}

// Whether an operation of any kind can be read.
fn is_ir_op_readable<D: ReadSet>(ctx: &Context<D>, op: Ptr<Operation>) -> bool
    requires { IsLive ctx.now (AnyNode.Operation op) }
    ensures { IsTrue result ↔ IsIrOpReadable D.OpSet D.find_kind ctx.now op }
{
    match op.kind(ctx) {
        OpKind::Own(kind) => is_own_readable(ctx, kind, op),
        OpKind::Module => is_op_readable(ctx, op),
        OpKind::Func => is_op_readable(ctx, op),
        OpKind::Constant => is_op_readable(ctx, op),
        OpKind::ForwardRef => is_op_readable(ctx, op),
    }
}

/// Whether a node of any kind can be read, whatever stands below it. Nothing is asked of a region.
pub(crate) fn is_ir_node_readable<D: ReadSet>(ctx: &Context<D>, node: IRNode) -> bool
    requires { IsLive ctx.now node }
    ensures { IsTrue result ↔ IsIrNodeReadable D.OpSet D.find_kind ctx.now node }
{
    match node {
        IRNode::Operation(op) => is_ir_op_readable(ctx, op),
        IRNode::Region(_) => true,
        IRNode::BasicBlock(block) => is_block_readable(ctx, block),
    }
}

/// How many results or arguments a node has: a number that can be counted.
pub(crate) fn count<D: ReadSet>(ctx: &Context<D>, node: IRNode) -> usize
    requires { IsLive ctx.now node }
    ensures { IsNodeCounted D.OpSet D.find_kind ctx.now node }
{
    match node {
        IRNode::Operation(op) => num_values(ctx, DefiningEntity::Op(op)),
        IRNode::Region(_) => 0,
        IRNode::BasicBlock(block) => num_values(ctx, DefiningEntity::Block(block)),
    }
}

// Whether texts name the kind of an operation.
fn is_kind_named<D: ReadSet>(ctx: &Context<D>, op: Ptr<Operation>) -> bool
    requires { IsLive ctx.now (AnyNode.Operation op) }
    ensures { IsTrue result ↔ IsKindNamed D.OpSet D.find_kind ctx.now (kind_of ctx.now op) }
{
    match op.kind(ctx) {
        OpKind::Own(kind) => is_kind_found::<D>(kind),
        OpKind::Module => true,
        OpKind::Func => true,
        OpKind::Constant => true,
        OpKind::ForwardRef => false,
    }
}

// The same of the operation at a node. Nothing is asked of a region and of a block.
fn is_node_named<D: ReadSet>(ctx: &Context<D>, node: IRNode) -> bool
    requires { IsLive ctx.now node }
    ensures { IsTrue result ↔ IsNodeNamed D.OpSet D.find_kind ctx.now node }
{
    match node {
        IRNode::Operation(op) => is_kind_named(ctx, op),
        IRNode::Region(_) => true,
        IRNode::BasicBlock(_) => true,
    }
}

// Whether the results or arguments of a node can be read.
fn are_types_readable<D: ReadSet>(ctx: &Context<D>, node: IRNode) -> bool
    requires { IsLive ctx.now node }
    ensures { IsTrue result ↔ AreTypesReadable D.OpSet D.find_kind ctx.now node }
{
    match node {
        IRNode::Operation(op) => are_values_readable(ctx, DefiningEntity::Op(op)),
        IRNode::Region(_) => true,
        IRNode::BasicBlock(block) => are_values_readable(ctx, DefiningEntity::Block(block)),
    }
}

/// Why a node cannot be read that cannot.
pub(crate) fn obstacle_at<D: ReadSet>(ctx: &Context<D>, node: IRNode) -> Obstacle
    requires live { IsLive ctx.now node }
    requires unread { IsIrNodeReadable D.OpSet D.find_kind ctx.now node → ⊥ }
    ensures { IsUnreadAs D.OpSet D.find_kind ctx.now node result }
{
    if !is_node_named(ctx, node) {
        return Obstacle::Kind(node);
    }
    if !are_types_readable(ctx, node) {
        return Obstacle::Types(node);
    }
    Obstacle::Content(node)
}
