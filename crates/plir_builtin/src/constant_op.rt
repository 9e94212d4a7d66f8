//! Constants.
ghost use Rattle.std.specs.Prelude.{◌≡◌, ◌↔◌, true, Some, OnOk, OnErr, IfErr, IfOk, IfSome, IsSome};
ghost use Rattle.std.specs.Prelude.{◌<◌, ◌+◌, Err, IsErr, IsOk};
ghost use Rattle.plir_store.specs.Table.{next_slot};
ghost use Rattle.plir_data.specs.declared.op_set.OpKind.{OpKind as AnyKind};
ghost use Rattle.plir_data.specs.AttrCalls.{attr_type};
ghost use Rattle.plir_data.specs.AttrLive.{IsAttrLive};
ghost use Rattle.plir_data.specs.AttrSeen.{attr_view};
ghost use Rattle.plir_core.specs.Changes.{SameLive};
ghost use Rattle.plir_core.specs.Made.{IsMade};
ghost use Rattle.plir_core.specs.Nodes.{ptr_at};
ghost use Rattle.plir_core.specs.Room.{IsFullForOp};
ghost use Rattle.plir_core.specs.ContextView.{IsLive, given_out, kind_of, limit, num_live};
ghost use Rattle.plir_core.specs.WellFormed.{IsWellFormed};
ghost use Rattle.plir_core.specs.declared.ptr.IRNode.{IRNode as AnyNode};
ghost use Rattle.plir_builtin.specs.BuiltinOps.{HasConstantValue, IsNewConstant, value_of};
ghost use Rattle.plir_builtin.specs.OpRules.{HasConstantRules};
ghost use Rattle.plir_builtin.specs.OpRefusals.{IsConstantOpRefusal};
ghost use Rattle.plir_builtin.specs.ConstantFaults.{IsConstantFault, ReportsMismatch, ReportsUntyped};
ghost use Rattle.plir_iface.specs.Counts.{HasNResults};
ghost use Rattle.plir_iface.specs.Verdict.{IsRefusalMemoryAside};
ghost use Rattle.plir_data.specs.Types.{IsLive as IsTypeLive};

use crate::ATTR_KEY_CONSTANT_VALUE;
use crate::op_making::{one_type, valued};
use crate::op_verify_err::{OpVerifyErr, reported};
use plir_core::{Context, NodeErr, Operation, Ptr};
use plir_data::{AttrObj, OpKind, OpSet, TypeHandle, VerifyErr, type_text};
use plir_iface::{NOpdsInterface, OneResultInterface, Op, refusal};
use std::alloc::Global;
use thiserror::Error;

/// How a constant breaks its rule.
#[derive(Drop, PartialEq, Eq, Debug, Error)]
pub enum ConstantOpVerifyErr {
    /// No attribute stands under the key.
    #[error("ConstantOp does not have a value attribute")]
    MissingValue,
    /// The attribute has no type; its id.
    #[error("ConstantOp's value attribute {0} does not implement TypedAttrInterface")]
    ValueNotTyped(String),
    /// The attribute's type is not the result's; the texts of both.
    #[error("The value attribute is of type {0}, but the constant is of type {1}")]
    ResultTypeMismatch(String, String),
}

/// A constant: an attribute that has a type, and one result of that type.
#[derive(Clone, Copy)]
pub struct ConstantOp {
    op: Ptr<Operation>,
}

impl ConstantOp {
    /// A new constant of a value that has a type (`AttrObj::typed` is the test), in no block. `TooManyNodes` comes only
    /// where there is no room for it, before the call and behind it. After a refusal no live node has changed.
    pub fn new<D: OpSet>(
        alloc: Global,
        ctx: &mut Context<D>,
        value: AttrObj<D>,
    ) -> Result<ConstantOp, NodeErr>
        requires live { IsAttrLive D.attr_handles ctx.old.types (attr_view value) }
        requires typed { IsSome (attr_type D.attr_type (attr_view value)) }
        ensures made { IfOk result (λ c. IsMade ctx.old.nodes ctx.new.nodes (AnyNode.Operation c.op)) }
        ensures pointer { IfOk result (λ c. c.op ≡ ptr_at ctx.new.nodes.ops (next_slot ctx.old.nodes.ops)) }
        ensures tree { IfOk result (λ c. IsNewConstant D.attr_type ctx.new c.op (attr_view value)) }
        ensures types { ctx.new.types ≡ ctx.old.types }
        ensures given { (n : AnyNode) → given_out ctx.old n ≡ true → given_out ctx.new n ≡ true }
        ensures err { OnErr result (SameLive ctx.old ctx.new) }
        ensures too_many { limit ctx.old < num_live ctx.old + 1 → IsErr result }
        ensures too_many_only { result ≡ Err NodeErr.TooManyNodes → IsFullForOp ctx.old.nodes 0 }
        ensures crowded { result ≡ Err NodeErr.TooManyNodes → IsFullForOp ctx.new.nodes 0 }
        ensures whole { IsWellFormed D.attr_handles ctx.new }
    {
        ctx.stands();
        let ty = value.typed().unwrap();
        let result_types = one_type(alloc, ty)?;
        let attributes = valued(alloc, value)?;
        let operands = Vec::new(alloc);
        let successors = Vec::new(alloc);
        let op = Operation::with_attributes(
            ctx,
            OpKind::Constant,
            result_types,
            operands,
            successors,
            attributes,
            0,
        )?;
        Ok(ConstantOp { op })
    }

    /// The operation, without the op set to be named.
    pub fn operation(self) -> Ptr<Operation>
        ensures { result ≡ self.op }
    {
        self.op
    }

    /// The operation as a constant, if it is one.
    pub fn from_operation<D: OpSet>(ctx: &Context<D>, op: Ptr<Operation>) -> Option<ConstantOp>
        requires { IsLive ctx.now (AnyNode.Operation op) }
        ensures found { IsSome result ↔ (kind_of ctx.now op ≡ Some AnyKind.Constant) }
        ensures same { IfSome result (λ c. c.op ≡ op) }
    {
        match op.kind(ctx) {
            OpKind::Constant => Some(ConstantOp { op }),
            _ => None,
        }
    }
}

impl ConstantOp {
    /// The value.
    pub fn get_value<'a, D: OpSet + 'a>(&self, ctx: &'a Context<D>) -> &'a AttrObj<D>
        requires live { IsLive ctx.now (AnyNode.Operation self.now.op) }
        requires rule { HasConstantValue D.attr_type ctx.now self.now.op }
        ensures value { value_of ctx.now self.now.op ≡ Some (attr_view result.now) }
        ensures whole { IsWellFormed D.attr_handles ctx.now }
    {
        ctx.stands();
        let attributes = self.op.attributes(ctx);
        attributes.get(ATTR_KEY_CONSTANT_VALUE).unwrap()
    }

    /// Accepts exactly where a value stands under [`crate::ATTR_KEY_CONSTANT_VALUE`], it has a type, and that is the
    /// type of the one result. Else it reports what is wrong first, in this order. `Memory` comes only where a value is
    /// there and is refused: its refusal has texts.
    pub fn verify<D: OpSet>(
        &self,
        alloc: Global,
        ctx: &Context<D>,
    ) -> Result<(), VerifyErr<ConstantOpVerifyErr>>
        requires live { IsLive ctx.now (AnyNode.Operation self.now.op) }
        requires one_result { HasNResults 1 ctx.now self.now.op }
        ensures ok { OnOk result (HasConstantValue D.attr_type ctx.now self.now.op) }
        ensures accepted { HasConstantValue D.attr_type ctx.now self.now.op → IsOk result }
        ensures refused { IfErr result (IsRefusalMemoryAside ctx.now self.now.op
            (IsConstantFault D.attr_id D.attr_type D.type_id D.type_body_text ctx.now self.now.op)) }
        ensures memory { result ≡ Err VerifyErr.Memory → IsSome (value_of ctx.now self.now.op) }
        ensures whole { IsWellFormed D.attr_handles ctx.now }
    {
        ctx.stands();
        let Some(value) = self.op.attributes(ctx).get(ATTR_KEY_CONSTANT_VALUE) else {
            return Err(refusal(ctx, self.op, ConstantOpVerifyErr::MissingValue));
        };
        let Some(given) = value.typed() else {
            return Err(untyped(alloc, ctx, self.op, value));
        };
        let wanted = self.op.get_type(ctx, 0);
        if given == wanted {
            return Ok(());
        }
        Err(mismatched(alloc, ctx, self.op, given, wanted))
    }
}

// The refusal of a value without a type.
fn untyped<D: OpSet>(
    alloc: Global,
    ctx: &Context<D>,
    op: Ptr<Operation>,
    value: &AttrObj<D>,
) -> VerifyErr<ConstantOpVerifyErr>
    requires { IsLive ctx.now (AnyNode.Operation op) }
    ensures reported { IsRefusalMemoryAside ctx.now op (ReportsUntyped D.attr_id (attr_view value.now)) result }
    ensures whole { IsWellFormed D.attr_handles ctx.now }
{
    ctx.stands();
    match String::from_str(alloc, value.get_attr_id()) {
        Ok(id) => refusal(ctx, op, ConstantOpVerifyErr::ValueNotTyped(id)),
        Err(_) => VerifyErr::Memory,
    }
}

// The refusal of a value of another type than the result's.
fn mismatched<D: OpSet>(
    alloc: Global,
    ctx: &Context<D>,
    op: Ptr<Operation>,
    given: TypeHandle,
    wanted: TypeHandle,
) -> VerifyErr<ConstantOpVerifyErr>
    requires live { IsLive ctx.now (AnyNode.Operation op) }
    requires given_live { IsTypeLive ctx.now.types given }
    requires wanted_live { IsTypeLive ctx.now.types wanted }
    ensures reported { IsRefusalMemoryAside ctx.now op (ReportsMismatch D.type_id D.type_body_text ctx.now.types given
        wanted) result }
    ensures whole { IsWellFormed D.attr_handles ctx.now }
{
    ctx.stands();
    let Ok(given) = type_text(alloc, ctx, given) else {
        return VerifyErr::Memory;
    };
    let Ok(wanted) = type_text(alloc, ctx, wanted) else {
        return VerifyErr::Memory;
    };
    refusal(
        ctx,
        op,
        ConstantOpVerifyErr::ResultTypeMismatch(given, wanted),
    )
}

impl<D: OpSet> Op<D> for ConstantOp {
    ghost pointer = { λ c. c.op };

    fn get_operation(&self) -> Ptr<Operation> {
        self.op
    }
}

impl<D: OpSet> NOpdsInterface<D, 0> for ConstantOp {}

impl<D: OpSet> OneResultInterface<D> for ConstantOp {}

impl ConstantOp {
    /// Accepts exactly where the rules of all interfaces that a constant declares hold, and its own, memory aside: no
    /// operand, one result, and a value of the result's type. Else reports the refusal of the first, in this order.
    pub fn verify_interfaces<D: OpSet>(
        &self,
        alloc: Global,
        ctx: &Context<D>,
    ) -> Result<(), VerifyErr<OpVerifyErr<D::Err>>>
        requires { IsLive ctx.now (AnyNode.Operation self.now.op) }
        ensures ok { OnOk result (HasConstantRules D.attr_type ctx.now self.now.op) }
        ensures refused { IfErr result (IsConstantOpRefusal ctx.now self.now.op D.attr_id D.attr_type D.type_id
            D.type_body_text) }
        ensures whole { IsWellFormed D.attr_handles ctx.now }
    {
        ctx.stands();
        reported(NOpdsInterface::<D, 0>::verify(self, ctx))?;
        reported(OneResultInterface::<D>::verify(self, ctx))?;
        reported(self.verify(alloc, ctx))
    }
}
