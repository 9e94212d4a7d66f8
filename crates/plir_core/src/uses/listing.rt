//! The places where a value or a block is used, as a list.
ghost use Rattle.std.specs.Prelude.{◌≡◌, ◌<◌, ◌++◌, [], IfOk, IfSome, OnOk, length};
ghost use Rattle.plir_core.specs.ListedUses.{AreListed, block_uses, joined, used_in, use_if, used_node, uses_from, value_uses};
ghost use Rattle.plir_core.specs.SameValue.{same_ptr, same_value};
ghost use Rattle.plir_core.specs.WellFormed.{IsWellFormed};

use crate::context::Context;
use crate::ptr::{BasicBlock, IRNode, Operation, Ptr};
use crate::uses::Use;
use crate::value::Value;
use plir_data::OpSet;
use std::alloc::{AllocError, Global};
use std::marker::PhantomData;

/// What is used: a value as an operand, or a block as a successor.
#[derive(Clone, Copy)]
pub(crate) enum Used {
    Operand(Value),
    Successor(Ptr<BasicBlock>),
}

// How far a list of uses has come: no slot before the end is looked at any more.
#[derive(Clone, Copy)]
struct Come {
    end: u32,
    seen: usize,
}

impl Used {
    // The node whose uses are counted with its own.
    fn node(self) -> IRNode
        ensures { result ≡ used_node self }
    {
        match self {
            Used::Operand(value) => value.defining_entity().node(),
            Used::Successor(block) => IRNode::BasicBlock(block),
        }
    }
}

// Lists a place of an operation, if it is one.
fn list_place<T>(
    uses: &mut Vec<Use<T>>,
    is: bool,
    op: Ptr<Operation>,
    index: usize,
) -> Result<(), AllocError>
    ensures { OnOk result (uses.new.items ≡ uses.old.items ++ use_if is op index) }
{
    if is {
        uses.push(Use {
            op,
            index,
            kind: PhantomData,
        })?;
    }
    Ok(())
}

// Whether two values are the same.
fn is_value(at: Value, value: Value) -> bool
    ensures { result ≡ same_value at value }
{
    at == value
}

// Whether two pointers are the same.
fn is_block(at: Ptr<BasicBlock>, block: Ptr<BasicBlock>) -> bool
    ensures { result ≡ same_ptr at block }
{
    at == block
}

// Lists the places of an operation where a value is its operand.
fn list_operands<T>(
    uses: &mut Vec<Use<T>>,
    value: Value,
    op: Ptr<Operation>,
    operands: &[Value],
) -> Result<(), AllocError>
    ensures { OnOk result (uses.new.items ≡ uses.old.items ++ uses_from (λ x. same_value x value) op 0 operands.now) }
{
    for place in 0..operands.len() {
        list_place(uses, is_value(operands[place], value), op, place)?;
    }
    Ok(())
}

// Lists the places of an operation where a block is its successor.
fn list_successors<T>(
    uses: &mut Vec<Use<T>>,
    block: Ptr<BasicBlock>,
    op: Ptr<Operation>,
    successors: &[Ptr<BasicBlock>],
) -> Result<(), AllocError>
    ensures { OnOk result (uses.new.items ≡ uses.old.items ++ uses_from (λ x. same_ptr x block) op 0 successors.now) }
{
    for place in 0..successors.len() {
        list_place(uses, is_block(successors[place], block), op, place)?;
    }
    Ok(())
}

impl<D: OpSet> Context<D> {
    // Lists the places where the operation in a slot, if there is one, uses it.
    fn list_uses_in<T>(
        &self,
        uses: &mut Vec<Use<T>>,
        used: Used,
        slot: u32,
    ) -> Result<(), AllocError>
        requires { slot < length self.now.nodes.ops.slots }
        ensures { OnOk result (uses.new.items ≡ uses.old.items ++ used_in self.now used slot) }
    {
        let Some(op) = self.nodes.op_in_slot(slot) else {
            return Ok(());
        };
        let data = self.nodes.op(op);
        match used {
            Used::Operand(value) => list_operands(uses, value, op, &data.operands),
            Used::Successor(block) => list_successors(uses, block, op, data.successors.as_slice()),
        }
    }

    // The places where it is used, by a look at all operations.
    fn uses_by_all<T>(&self, alloc: Global, used: Used) -> Result<Vec<Use<T>>, AllocError>
        ensures { IfOk result (λ us. us.items ≡ joined (used_in self.now used) (length self.now.nodes.ops.slots)) }
    {
        let mut uses = Vec::new(alloc);
        for slot in 0..self.nodes.num_op_slots() {
            self.list_uses_in(&mut uses, used, slot)?;
        }
        Ok(uses)
    }

    // Lists the places in one slot more, which is passed over if it comes before the end or there is none such. None
    // where there is no number for how often its node is used.
    fn list_more<T>(
        &self,
        uses: &mut Vec<Use<T>>,
        used: Used,
        come: Come,
        slot: u32,
    ) -> Result<Option<Come>, AllocError>
        requires { AreListed self.now used come.end come.seen uses.old.items }
        ensures { IfOk result (λ r. IfSome r (λ x. AreListed self.now used x.end x.seen uses.new.items)) }
    {
        if slot < come.end || slot >= self.nodes.num_op_slots() {
            return Ok(Some(come));
        }
        let Some(count) = self.num_node_uses_in_slot(used.node(), slot) else {
            return Ok(None);
        };
        let Some(seen) = come.seen.checked_add(count) else {
            return Ok(None);
        };
        self.list_uses_in(uses, used, slot)?;
        Ok(Some(Come {
            end: slot + 1,
            seen,
        }))
    }

    // Lists the places in some slots, of which each is to come before those behind it.
    fn list_noted<T>(
        &self,
        uses: &mut Vec<Use<T>>,
        used: Used,
        slots: &[u32],
    ) -> Result<Option<Come>, AllocError>
        requires { uses.old.items ≡ [] }
        ensures { IfOk result (λ r. IfSome r (λ x. AreListed self.now used x.end x.seen uses.new.items)) }
    {
        let mut come = Come { end: 0, seen: 0 };
        for slot in slots {
            let Some(next) = self.list_more(uses, used, come, *slot)? else {
                return Ok(None);
            };
            come = next;
        }
        Ok(Some(come))
    }

    // The places where it is used, where the operations that are noted as users of its node are all that there are:
    // they use that as often as the count says that it is used in all.
    fn uses_by_noted<T>(&self, alloc: Global, used: Used) -> Result<Option<Vec<Use<T>>>, AllocError>
        ensures { IfOk result (λ r. IfSome r
            (λ us. us.items ≡ joined (used_in self.now used) (length self.now.nodes.ops.slots))) }
    {
        let Some(all) = self.known_uses(used.node()) else {
            return Ok(None);
        };
        let mut uses = Vec::new(alloc);
        let slots = self.uses.users(used.node());
        let Some(come) = self.list_noted(&mut uses, used, &slots)? else {
            return Ok(None);
        };
        if come.seen == all as usize {
            Ok(Some(uses))
        } else {
            Ok(None)
        }
    }

    // The places where it is used.
    fn uses_of<T>(&self, alloc: Global, used: Used) -> Result<Vec<Use<T>>, AllocError>
        ensures { IfOk result (λ us. us.items ≡ joined (used_in self.now used) (length self.now.nodes.ops.slots)) }
    {
        match self.uses_by_noted(alloc, used)? {
            Some(uses) => Ok(uses),
            None => self.uses_by_all(alloc, used),
        }
    }
}

impl Value {
    /// The places where the value is an operand of a live operation, each once: those of an operation in their order,
    /// and operations in the order of their slots, which is no order of the tree. This looks at the operations that use
    /// values of its operation or block or branch to that block. Only where these are not known, as where memory for
    /// that was refused, or where they do not account for all that is counted, it looks at all operations.
    ///
    /// # Errors
    ///
    /// Memory for the list was refused.
    pub fn uses<D: OpSet>(
        self,
        alloc: Global,
        ctx: &Context<D>,
    ) -> Result<Vec<Use<Value>>, AllocError>
        ensures uses { IfOk result (λ us. us.items ≡ value_uses ctx.now self) }
        ensures whole { IsWellFormed D.attr_handles ctx.now }
    {
        let _types = &ctx.types;
        ctx.uses_of::<Value>(alloc, Used::Operand(self))
    }
}

impl Ptr<BasicBlock> {
    /// The places where the block is a successor of a live operation, each once: those of an operation in their order,
    /// and operations in the order of their slots, which is no order of the tree. It costs as [`Value::uses`] does.
    ///
    /// # Errors
    ///
    /// Memory for the list was refused.
    pub fn uses<D: OpSet>(
        self,
        alloc: Global,
        ctx: &Context<D>,
    ) -> Result<Vec<Use<Ptr<BasicBlock>>>, AllocError>
        ensures uses { IfOk result (λ us. us.items ≡ block_uses ctx.now self) }
        ensures whole { IsWellFormed D.attr_handles ctx.now }
    {
        let _types = &ctx.types;
        ctx.uses_of::<Ptr<BasicBlock>>(alloc, Used::Successor(self))
    }
}
