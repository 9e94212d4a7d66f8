//! A pass of one of two kinds.
use crate::pass::Pass;
use crate::pass_end::PassEnd;
use crate::pass_err::PassErr;
use plir_core::{Context, Operation, Ptr};
use plir_data::OpSet;
use plir_pipelines::OneOf;
use std::alloc::Global;

/// As the pass's kind says.
impl<D: OpSet, P: Pass<D>, Q: Pass<D>> Pass<D> for OneOf<P, Q> {
    ghost use Rattle.plir_driver.specs.OneOfPasses.{HasPassedByKind, MayStopByKind};

    ghost has_passed = { HasPassedByKind P.has_passed Q.has_passed };

    ghost may_stop = { MayStopByKind P.may_stop Q.may_stop };

    fn run(
        self,
        alloc: Global,
        ctx: &mut Context<D>,
        root: Ptr<Operation>,
    ) -> Result<PassEnd, PassErr> {
        match self {
            OneOf::First(pass) => pass.run(alloc, ctx, root),
            OneOf::Second(pass) => pass.run(alloc, ctx, root),
        }
    }
}
