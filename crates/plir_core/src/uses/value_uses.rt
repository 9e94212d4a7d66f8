//! Whether values are used, and how often.
ghost use Rattle.std.specs.Prelude.{◌≡◌, ◌<◌, ◌-◌, ◌^◌, ◌↔◌, IsTrue, IfSome, Contains, length, min};
ghost use Rattle.plir_core.specs.ContextView.{IsLive, operands_of, entity_node};
ghost use Rattle.plir_core.specs.Stored.{seat_of};
ghost use Rattle.plir_core.specs.Uses.{uses_of};
ghost use Rattle.plir_core.specs.WellFormed.{IsWellFormed};
ghost use Rattle.plir_core.specs.ValueUses.{IsOperandAt, HasUses, times_in, uses_in_slot, num_uses_of};
ghost use Rattle.plir_core.specs.declared.ptr.IRNode.{IRNode};

use crate::context::Context;
use crate::ptr::{Operation, Ptr};
use crate::value::{DefiningEntity, Value};
use plir_data::OpSet;

// Whether a value is one of some values.
fn is_among(values: &[Value], value: Value) -> bool
    ensures { IsTrue result ↔ Contains values.now value }
{
    for other in values {
        if *other == value {
            return true;
        }
    }
    false
}

// How many of some values are a value.
fn count_among(values: &[Value], value: Value) -> usize
    ensures { result ≡ times_in value values.now }
{
    let mut count = 0;
    for other in values {
        if *other == value {
            count += 1;
        }
    }
    count
}

impl<D: OpSet> Context<D> {
    // Whether a value is an operand of an operation.
    fn has_operand(&self, op: Ptr<Operation>, value: Value) -> bool
        requires { IsLive self.now (IRNode.Operation op) }
        ensures { IsTrue result ↔ Contains (operands_of self.now op) value }
    {
        let data = self.nodes.op(op);
        is_among(&data.operands, value)
    }

    /// Whether a value is an operand of the operation in a slot, if there is one.
    pub(crate) fn is_operand_in_slot(&self, value: Value, slot: u32) -> bool
        requires { slot < length self.now.nodes.ops.slots }
        ensures { IsTrue result ↔ IsOperandAt self.now value slot }
    {
        match self.nodes.op_in_slot(slot) {
            None => false,
            Some(op) => self.has_operand(op, value),
        }
    }

    // Whether a value is an operand of a live operation, by a look at all of them.
    fn is_used_by_any(&self, value: Value) -> bool
        ensures { IsTrue result ↔ HasUses self.now value }
    {
        for slot in 0..self.nodes.num_op_slots() {
            if self.is_operand_in_slot(value, slot) {
                return true;
            }
        }
        false
    }

    // How many operands of an operation are a value.
    fn num_uses_by(&self, op: Ptr<Operation>, value: Value) -> usize
        requires { IsLive self.now (IRNode.Operation op) }
        ensures { result ≡ times_in value (operands_of self.now op) }
    {
        let data = self.nodes.op(op);
        count_among(&data.operands, value)
    }

    // How many operands of the operation in a slot, if there is one, are a value.
    pub(crate) fn num_uses_in_slot(&self, value: Value, slot: u32) -> usize
        requires { slot < length self.now.nodes.ops.slots }
        ensures { result ≡ uses_in_slot self.now value slot }
    {
        match self.nodes.op_in_slot(slot) {
            None => 0,
            Some(op) => self.num_uses_by(op, value),
        }
    }

    // How many operands of live operations are a value, by a look at all of them.
    fn num_uses_by_all(&self, value: Value) -> usize
        ensures { result ≡ min (num_uses_of self.now value) (2 ^ 64 - 1) }
    {
        let mut count: usize = 0;
        for slot in 0..self.nodes.num_op_slots() {
            count = count.saturating_add(self.num_uses_in_slot(value, slot));
        }
        count
    }
}

impl<D: OpSet> Context<D> {
    /// Whether a value is the only one of a live operation, so that what uses the operation uses the value.
    pub(crate) fn is_only_result(&self, value: Value) -> bool
        ensures { IsTrue result → uses_of self.now.nodes.ops (seat_of (entity_node value.entity)) ≡ num_uses_of
            self.now value }
    {
        let _types = &self.types;
        match value.defining_entity() {
            DefiningEntity::Op(op) => value.is_live(self) && op.get_num_results(self) == 1,
            DefiningEntity::Block(_) => false,
        }
    }

    // How often a value is used, if a count says so: that of its operation, if it is the only result, and any that is
    // 0.
    fn counted_uses(&self, value: Value) -> Option<u32>
        ensures { IfSome result (λ n. n ≡ num_uses_of self.now value) }
    {
        let count = self.known_uses(value.defining_entity().node())?;
        if count == 0 {
            return Some(0);
        }
        if self.is_only_result(value) {
            return Some(count);
        }
        None
    }

    /// How often a value is used, if a count says so, or those that are noted as users.
    pub(crate) fn known_num_uses(&self, value: Value) -> Option<usize>
        ensures { IfSome result (λ n. n ≡ num_uses_of self.now value) }
    {
        match self.counted_uses(value) {
            Some(count) => Some(count as usize),
            None => self.num_noted_uses(value),
        }
    }

    /// Whether a value is known to be used by nothing.
    pub(crate) fn is_known_without_uses(&self, value: Value) -> bool
        ensures { IsTrue result → HasUses self.now value → ⊥ }
    {
        match self.known_num_uses(value) {
            Some(count) => count == 0,
            None => false,
        }
    }
}

impl Value {
    /// Whether the value is an operand of a live operation. If it is the only result of an operation, or no value of
    /// its operation or block is used and that block is no successor, this looks at a count alone; else at the
    /// operations that use values of its operation or block or branch to that block. Only where these are not known,
    /// as where memory for that was refused, or where they do not account for all that is counted, it looks at all
    /// operations.
    pub fn has_uses<D: OpSet>(self, ctx: &Context<D>) -> bool
        ensures value { IsTrue result ↔ HasUses ctx.now self }
        ensures whole { IsWellFormed D.attr_handles ctx.now }
    {
        let _types = &ctx.types;
        match ctx.known_num_uses(self) {
            Some(count) => count > 0,
            None => ctx.is_used_by_any(self),
        }
    }

    /// How many operands of live operations are the value: an operation that has it twice counts twice. The answer is
    /// at most `usize::MAX`, and no machine holds so many operands. If it is the only result of an operation, or no
    /// value of its operation or block is used and that block is no successor, this looks at a count alone; else at the
    /// operations that use values of its operation or block or branch to that block. Only where these are not known,
    /// as where memory for that was refused, or where they do not account for all that is counted, it looks at all
    /// operations.
    pub fn num_uses<D: OpSet>(self, ctx: &Context<D>) -> usize
        ensures value { result ≡ min (num_uses_of ctx.now self) (2 ^ 64 - 1) }
        ensures whole { IsWellFormed D.attr_handles ctx.now }
    {
        let _types = &ctx.types;
        match ctx.known_num_uses(self) {
            Some(count) => count,
            None => ctx.num_uses_by_all(self),
        }
    }
}
