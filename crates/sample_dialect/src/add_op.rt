//! Sums.
ghost use Rattle.std.specs.Prelude.{◌≡◌, ◌↔◌, ℕ, [], ◌∷◌, Some, OnErr, IfOk, IfSome, IsSome};
ghost use Rattle.plir_data.specs.declared.op_set.OpKind.TheVariants.{Own};
ghost use Rattle.plir_core.specs.Changes.{SameLive};
ghost use Rattle.plir_core.specs.Contents.{op_view};
ghost use Rattle.plir_core.specs.Made.{IsMade};
ghost use Rattle.plir_core.specs.ContextView.{IsLive, IsValueLive, kind_of, op_at, type_of_value};
ghost use Rattle.plir_core.specs.declared.ptr.IRNode.{IRNode as AnyNode};
ghost use Rattle.sample_dialect.specs.declared.kinds.SampleKind.TheVariants as K;

use crate::kinds::{SampleKind, SampleSet};
use plir_core::{Context, NodeErr, Operation, Ptr, Value};
use plir_data::OpKind;
use plir_iface::{
    NOpdsInterface, NResultsInterface, OneResultInterface, Op, SameOperandsAndResultType,
    SameOperandsType, SameResultsType,
};
use std::alloc::Global;

/// A sum of two values of one type.
#[derive(Clone, Copy)]
pub struct AddOp {
    op: Ptr<Operation>,
}

impl AddOp {
    /// A new sum, of the type of its left operand, in no block.
    pub fn new(
        alloc: Global,
        ctx: &mut Context<SampleSet>,
        left: Value,
        right: Value,
    ) -> Result<AddOp, NodeErr>
        requires left_live { IsValueLive ctx.old left }
        requires right_live { IsValueLive ctx.old right }
        ensures made { IfOk result (λ sum. IsMade ctx.old.nodes ctx.new.nodes (AnyNode.Operation sum.op)) }
        ensures held { IfOk result (λ sum. (ty : ℕ) → type_of_value ctx.old left ≡ Some ty →
            op_at ctx.new sum.op ≡ Some (op_view (Own K.Add) (ty ∷ []) (left ∷ right ∷ []) [] [])) }
        ensures types { ctx.new.types ≡ ctx.old.types }
        ensures refused { OnErr result (SameLive ctx.old ctx.new) }
    {
        let mut types = Vec::new(alloc);
        types.push(left.get_type(ctx))?;
        let mut operands = Vec::new(alloc);
        operands.push(left)?;
        operands.push(right)?;
        let blocks = Vec::new(alloc);
        let kind = OpKind::Own(SampleKind::Add);
        let op = Operation::new(alloc, ctx, kind, types, operands, blocks, 0)?;
        Ok(AddOp { op })
    }

    // An operation as a sum, whether it is one or not.
    pub(crate) fn at(op: Ptr<Operation>) -> AddOp
        ensures { result.op ≡ op }
    {
        AddOp { op }
    }

    /// The operation, without the op set to be named.
    pub fn operation(self) -> Ptr<Operation>
        ensures { result ≡ self.op }
    {
        self.op
    }

    /// The operation as a sum, if it is one.
    pub fn from_operation(ctx: &Context<SampleSet>, op: Ptr<Operation>) -> Option<AddOp>
        requires { IsLive ctx.now (AnyNode.Operation op) }
        ensures found { IsSome result ↔ (kind_of ctx.now op ≡ Some (Own K.Add)) }
        ensures same { IfSome result (λ sum. sum.op ≡ op) }
    {
        match op.kind(ctx) {
            OpKind::Own(SampleKind::Add) => Some(AddOp { op }),
            _ => None,
        }
    }
}

impl Op<SampleSet> for AddOp {
    ghost pointer = { λ sum. sum.op };

    fn get_operation(&self) -> Ptr<Operation> {
        self.op
    }
}

impl NOpdsInterface<SampleSet, 2> for AddOp {}

impl NResultsInterface<SampleSet, 1> for AddOp {}

impl OneResultInterface<SampleSet> for AddOp {}

impl SameOperandsType<SampleSet> for AddOp {}

impl SameResultsType<SampleSet> for AddOp {}

impl SameOperandsAndResultType<SampleSet> for AddOp {}
