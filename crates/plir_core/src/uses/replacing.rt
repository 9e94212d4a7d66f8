//! The call that puts a value in place of another one everywhere.
ghost use Rattle.std.specs.Prelude.{◌≡◌, ◌<◌, length, map};
ghost use Rattle.plir_store.specs.Table.{content_at};
ghost use Rattle.plir_core.specs.Changes.{with_op_edit, op_edited};
ghost use Rattle.plir_core.specs.Replaced.{replaced, op_replaced, with_uses_replaced};
ghost use Rattle.plir_core.specs.Rewired.{IsRewired};
ghost use Rattle.plir_core.specs.ContextView.{IsLive, IsValueLive};
ghost use Rattle.plir_core.specs.WellFormed.{IsWellFormed};
ghost use Rattle.plir_core.specs.declared.ptr.IRNode.{IRNode};

use crate::context::Context;
use crate::ptr::{IRNode, Operation, Ptr};
use crate::value::Value;
use plir_data::OpSet;

// What stands at a place once `other` has come in place of `value`, where `at` stood.
fn in_place_of(at: Value, value: Value, other: Value) -> Value
    ensures { result ≡ replaced value other at }
{
    if at == value { other } else { at }
}

// Puts a value in place of another one among some values.
fn replace_among(values: &mut Vec<Value>, value: Value, other: Value)
    ensures { values.new.items ≡ map (replaced value other) values.old.items }
{
    for place in 0..values.len() {
        values[place] = in_place_of(values[place], value, other);
    }
}

// Puts a value in place of another one among the operands of an operation.
fn replace_in_op<D: OpSet>(ctx: &mut Context<D>, op: Ptr<Operation>, value: Value, other: Value)
    requires live { IsLive ctx.old (IRNode.Operation op) }
    requires value_live { IsValueLive ctx.old other }
    ensures after { ctx.new ≡ with_op_edit ctx.old op (op_replaced value other) }
{
    ctx.uses.lower_op(ctx.nodes.op(op));
    replace_among(&mut ctx.nodes.op_mut(op).operands, value, other);
    ctx.uses.raise_again(ctx.nodes.op(op), other, op);
}

// The same in a slot, if there is an operation in it that has the value.
fn replace_in_slot<D: OpSet>(ctx: &mut Context<D>, slot: u32, value: Value, other: Value)
    requires below { slot < length ctx.old.nodes.ops.slots }
    requires value_live { IsValueLive ctx.old other }
    ensures after { ctx.new ≡ op_edited ctx.old slot (op_replaced value other) (content_at ctx.old.nodes.ops slot) }
{
    if !ctx.is_operand_in_slot(value, slot) {
        return;
    }
    match ctx.nodes.op_in_slot(slot) {
        None => {}
        Some(op) => replace_in_op(ctx, op, value, other),
    }
}

// The same, where there may be no such slot. What is left to be replaced then is what was.
fn replace_there<D: OpSet>(ctx: &mut Context<D>, slot: u32, value: Value, other: Value)
    requires { IsValueLive ctx.old other }
    ensures rest { with_uses_replaced ctx.new value other ≡ with_uses_replaced ctx.old value other }
    ensures live { IsValueLive ctx.new other }
{
    if slot >= ctx.nodes.num_op_slots() {
        return;
    }
    replace_in_slot(ctx, slot, value, other);
}

// Puts a value in place of another one in some slots, one after the other, until nothing uses it. What is left to be
// replaced then is what was.
fn replace_between<D: OpSet>(ctx: &mut Context<D>, first: u32, end: u32, value: Value, other: Value)
    requires { IsValueLive ctx.old other }
    ensures rest { with_uses_replaced ctx.new value other ≡ with_uses_replaced ctx.old value other }
    ensures live { IsValueLive ctx.new other }
{
    let node = value.defining_entity().node();
    for slot in first..end {
        if ctx.is_known_unused(node) {
            return;
        }
        replace_there(ctx, slot, value, other);
    }
}

// Puts a value in place of another one in the operations that are noted as its users, until nothing uses it. What is
// left to be replaced then is what was.
fn replace_noted<D: OpSet>(ctx: &mut Context<D>, value: Value, other: Value)
    requires { IsValueLive ctx.old other }
    ensures rest { with_uses_replaced ctx.new value other ≡ with_uses_replaced ctx.old value other }
    ensures live { IsValueLive ctx.new other }
{
    let node = value.defining_entity().node();
    let mut at = ctx.uses.first_user(node);
    for _entry in 0..ctx.uses.num_noted() {
        if ctx.is_known_unused(node) {
            return;
        }
        let Some((slot, next)) = ctx.uses.user(at) else {
            return;
        };
        replace_there(ctx, slot, value, other);
        at = next;
    }
}

// Has the users of all nodes noted, where they are not any more.
fn note_again<D: OpSet>(ctx: &mut Context<D>)
    ensures { ctx.new ≡ ctx.old }
{
    ctx.uses.note_again(&ctx.nodes);
}

// Leaves no user of a node noted that nothing uses.
fn clear_unused<D: OpSet>(ctx: &mut Context<D>, node: IRNode)
    ensures { ctx.new ≡ ctx.old }
{
    if ctx.is_known_unused(node) {
        ctx.uses.clear_users(node);
    }
}

// Puts a value in place of the only result of an operation, from its slot on, and then before it, until nothing uses
// it. What is left to be replaced then is what was.
fn replace_near<D: OpSet>(ctx: &mut Context<D>, value: Value, other: Value)
    requires { IsValueLive ctx.old other }
    ensures rest { with_uses_replaced ctx.new value other ≡ with_uses_replaced ctx.old value other }
    ensures live { IsValueLive ctx.new other }
{
    if value == other || !ctx.is_only_result(value) {
        return;
    }
    let slot = value.defining_entity().slot();
    let end = ctx.nodes.num_op_slots();
    replace_between(ctx, slot, end, value, other);
    replace_between(ctx, 0, slot, value, other);
}

// Puts a value in place of another one in all operations, if any uses it.
fn replace_in_all<D: OpSet>(ctx: &mut Context<D>, value: Value, other: Value)
    requires { IsValueLive ctx.old other }
    ensures { ctx.new ≡ with_uses_replaced ctx.old value other }
{
    if ctx.is_known_without_uses(value) {
        return;
    }
    for slot in 0..ctx.nodes.num_op_slots() {
        replace_in_slot(ctx, slot, value, other);
    }
}

impl Value {
    /// Puts another value in place of this one, wherever it is an operand of a live operation. All else stays as it is:
    /// the same nodes stand where they stood, with their types, attributes and successors. After it nothing uses this
    /// value, unless the other one is this one; so an operation each of whose results was replaced, and which has no
    /// regions, can be erased (`laws::unused_results_can_be_erased`). This looks at the operations that use values of
    /// its operation or block or branch to that block. Only where these are not known, as where memory for that was
    /// refused, or where they do not account for all that is counted, it looks at all operations.
    pub fn replace_all_uses_with<D: OpSet>(self, ctx: &mut Context<D>, other: Value)
        requires other_live { IsValueLive ctx.old other }
        ensures after { ctx.new ≡ with_uses_replaced ctx.old self other }
        ensures rewired { IsRewired ctx.old ctx.new self other }
        ensures whole { IsWellFormed D.attr_handles ctx.new }
    {
        prove!(other.is_live(ctx), "the other value is not live");
        note_again(ctx);
        replace_noted(ctx, self, other);
        replace_near(ctx, self, other);
        replace_in_all(ctx, self, other);
        clear_unused(ctx, self.defining_entity().node());
        let _types = &ctx.types;
    }
}
