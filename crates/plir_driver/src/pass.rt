//! What a pass is.
ghost use Rattle.std.specs.Prelude.{IfErr, IfOk, OnOk};
ghost use Rattle.plir_core.specs.ContextView.{ContextView, IsLive};
ghost use Rattle.plir_core.specs.declared.ptr.IRNode.{IRNode as AnyNode};
ghost use Rattle.plir_core.specs.declared.ptr.Operation.{Operation as OperationKind};
ghost use Rattle.plir_core.specs.declared.ptr.Ptr.{Ptr as AnyPtr};
ghost use Rattle.plir_driver.specs.declared.pass_err.PassErr.{PassErr as AnyPassErr};
ghost use Rattle.plir_driver.specs.PassEnds.{IsEnd};

use crate::pass_end::PassEnd;
use crate::pass_err::PassErr;
use plir_core::{Context, Operation, Ptr};
use plir_data::OpSet;
use plir_pipelines::Offered;
use std::alloc::Global;

/// A pass over the operations of an op set `D`, as a value: [`opt_main`](crate::opt_main) offers it as its
/// [`Offered`](plir_pipelines::Offered) says. What a program over passes promises is made of what each of them promises
/// here.
pub trait Pass<D: OpSet>: Offered {
    // What one run of it over an operation leaves: the operation, the context before the run and the one after it.
    ghost has_passed: { Self → AnyPtr OperationKind → ContextView D.Kind D.Attr D.Ty → ContextView D.Kind D.Attr D.Ty
        → Type 0 };

    // When a run may stop, and with which error: the operation, the context before the run, the error.
    ghost may_stop: { Self → AnyPtr OperationKind → ContextView D.Kind D.Attr D.Ty → AnyPassErr → Type 0 };

    /// Runs it over an operation and all below it, and says whether anything has changed; a pass that can't tell says
    /// that something has. The operation is there afterwards.
    ///
    /// # Errors
    ///
    /// As the pass says; what was done until then stays done.
    fn run(
        self,
        alloc: Global,
        ctx: &mut Context<D>,
        root: Ptr<Operation>,
    ) -> Result<PassEnd, PassErr>
        requires { IsLive ctx.old (AnyNode.Operation root) }
        ensures live { IsLive ctx.new (AnyNode.Operation root) }
        ensures passed { OnOk result (has_passed self root ctx.old ctx.new) }
        ensures end { IfOk result (IsEnd ctx.old ctx.new) }
        ensures stopped { IfErr result (may_stop self root ctx.old) };
}
