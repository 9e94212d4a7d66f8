//! Calls of a value and of a name.
use crate::flow::refusing::Refusing;
use plir_core::{Context, Operation, Ptr};
use plir_data::{Identifier, Memory, OpSet, VerifyErr};
use plir_flow::{CallOpCallable, CallOpInterface};
use plir_iface::Op;
use std::alloc::Global;
use std::ops::Range;

/// A call of its first operand, with the others as arguments.
#[derive(Clone, Copy)]
pub struct ValueCall {
    pub op: Ptr<Operation>,
}

impl<D: OpSet> Op<D> for ValueCall {
    ghost pointer = { λ o. o.op };

    fn get_operation(&self) -> Ptr<Operation> {
        self.op
    }
}

impl<D: Refusing> CallOpInterface<D> for ValueCall {
    ghost use Rattle.std.specs.Prelude.{◌<◌, length, slice_index_or};
    ghost use Rattle.plir_core.specs.ContextView.{operands_of};
    ghost use Rattle.plir_iface.specs.Counts.{result_at};
    ghost use Rattle.plir_flow.specs.declared.calls.CallOpCallable.TheVariants.{Indirect};

    ghost has_call_layout = { λ o s. 0 < length (operands_of s o.op) };

    ghost refuses_call_layout = { λ _ _ _. Unit {0} };

    ghost called = { λ o s. Indirect (slice_index_or (operands_of s o.op) 0 (result_at o.op 0)) };

    ghost arguments = { λ o s. (1, length (operands_of s o.op)) };

    // A refusal takes memory here, for a text that isn't used.
    fn verify_call_layout(&self, alloc: Global, ctx: &Context<D>) -> Result<(), VerifyErr<D::Err>> {
        if self.op.get_num_operands(ctx) > 0 {
            return Ok(());
        }
        if String::from_str(alloc, "not marked").is_err() {
            return Err(VerifyErr::Memory);
        }
        Err(VerifyErr::Refused {
            loc: self.op.loc(ctx),
            err: D::refusal(),
        })
    }

    fn callee(&self, _alloc: Global, ctx: &Context<D>) -> Result<CallOpCallable, Memory> {
        Ok(CallOpCallable::Indirect(self.op.get_operand(ctx, 0)))
    }

    fn arg_range(&self, ctx: &Context<D>) -> Range<usize> {
        1..self.op.get_num_operands(ctx)
    }
}

/// A call of the function `f`, with all operands as arguments.
#[derive(Clone, Copy)]
pub struct NamedCall {
    pub op: Ptr<Operation>,
}

impl<D: OpSet> Op<D> for NamedCall {
    ghost pointer = { λ o. o.op };

    fn get_operation(&self) -> Ptr<Operation> {
        self.op
    }
}

impl<D: OpSet> CallOpInterface<D> for NamedCall {
    ghost use Rattle.std.specs.Prelude.{length, codes};
    ghost use Rattle.plir_core.specs.ContextView.{operands_of};
    ghost use Rattle.plir_flow.specs.declared.calls.CallOpCallable.TheVariants.{Direct};

    ghost has_call_layout = { λ _ _. Unit {0} };

    ghost refuses_call_layout = { λ _ _ _. Unit {0} };

    ghost called = { λ _ _. Direct (codes "f") };

    ghost arguments = { λ o s. (0, length (operands_of s o.op)) };

    fn verify_call_layout(
        &self,
        _alloc: Global,
        _ctx: &Context<D>,
    ) -> Result<(), VerifyErr<D::Err>> {
        Ok(())
    }

    fn callee(&self, alloc: Global, _ctx: &Context<D>) -> Result<CallOpCallable, Memory> {
        match Identifier::try_new(alloc, "f") {
            Ok(name) => Ok(CallOpCallable::Direct(name)),
            Err(_) => Err(Memory),
        }
    }

    fn arg_range(&self, ctx: &Context<D>) -> Range<usize> {
        0..self.op.get_num_operands(ctx)
    }
}
