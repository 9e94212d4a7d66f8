//! Calls of functions by their names.
use crate::kinds::{FlowKind, FlowSet, WrongLayout, callee_name};
use plir_core::{Context, Operation, Ptr};
use plir_data::{Memory, OpKind, VerifyErr};
use plir_flow::{CallOpCallable, CallOpInterface};
use plir_flow_sets::{CallSet, ToldCall};
use plir_iface::Op;
use std::alloc::Global;
use std::ops::Range;

/// A call of the function whose name stands under [`crate::kinds::ATTR_KEY_CALLEE`], with all its operands.
#[derive(Clone, Copy)]
pub struct NamedCall {
    /// The operation.
    pub op: Ptr<Operation>,
}

impl Op<FlowSet> for NamedCall {
    ghost pointer = { λ o. o.op };

    fn get_operation(&self) -> Ptr<Operation> {
        self.op
    }
}

impl CallOpInterface<FlowSet> for NamedCall {
    ghost use Rattle.flow_dialect.specs.FlowCalls.{IsNamedCall, named_arguments, named_callee};

    ghost has_call_layout = { λ o s. IsNamedCall s o.op };

    ghost refuses_call_layout = { λ _ _ _. Unit {0} };

    ghost called = { λ o s. named_callee s o.op };

    ghost arguments = { λ o s. named_arguments s o.op };

    fn verify_call_layout(
        &self,
        _alloc: Global,
        ctx: &Context<FlowSet>,
    ) -> Result<(), VerifyErr<WrongLayout>> {
        let is_call = matches!(self.op.kind(ctx), OpKind::Own(FlowKind::Call));
        if is_call && callee_name(ctx, self.op).is_some() {
            return Ok(());
        }
        Err(VerifyErr::Refused {
            loc: self.op.loc(ctx),
            err: WrongLayout,
        })
    }

    fn callee(&self, alloc: Global, ctx: &Context<FlowSet>) -> Result<CallOpCallable, Memory> {
        match callee_name(ctx, self.op) {
            Some(name) => Ok(CallOpCallable::Direct(name.try_clone(alloc)?)),
            None => unreachable!(),
        }
    }

    fn arg_range(&self, ctx: &Context<FlowSet>) -> Range<usize> {
        0..self.op.get_num_operands(ctx)
    }
}

impl ToldCall<FlowSet> for NamedCall {
    ghost use Rattle.flow_dialect.specs.FlowLaws.{named_call_told};

    ghost call_told = { λ o s layout. named_call_told s o.op layout };
}
