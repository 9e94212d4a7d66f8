//! Operations that are converted.
ghost use Rattle.std.specs.Prelude.{◌≡◌, IsTrue, OnOk, length};
ghost use Rattle.plir_core.specs.ContextView.{IsLive, children, result_types_of};
ghost use Rattle.plir_core.specs.declared.ptr.IRNode.{IRNode as AnyNode};
ghost use Rattle.plir_passes.specs.Rewritten.{IsReplaced};
ghost use Rattle.plir_bench.specs.Illegal.{is_reference};

use crate::kinds::{BenchKind, BenchSet};
use crate::stop::Stop;
use plir_core::{BasicBlock, Context, Operation, Ptr};
use plir_data::OpKind;
use plir_passes::laws::replacements;
use plir_passes::{Conversion, convert, put_before, replace_op};
use std::alloc::Global;

// Replaces each forward reference by a constant without a value.
#[derive(Drop)]
struct Resolve {
    alloc: Global,
}

// Whether an operation has one result and no region.
fn is_plain(ctx: &Context<BenchSet>, op: Ptr<Operation>) -> bool
    requires { IsLive ctx.now (AnyNode.Operation op) }
    ensures results { IsTrue result → length (result_types_of ctx.now op) ≡ 1 }
    ensures regions { IsTrue result → length (children ctx.now (AnyNode.Operation op)) ≡ 0 }
{
    op.get_num_results(ctx) == 1 && op.num_regions(ctx) == 0
}

impl Conversion<BenchSet> for Resolve {
    type Err = Stop;

    ghost illegal = { λ _. is_reference };

    // On Ok the operation was replaced.
    ghost rewrites = { λ _ s block op answer t. OnOk answer (IsReplaced s t block op) };

    fn is_illegal(&self, kind: OpKind<BenchKind>) -> bool
        ensures { result ≡ is_reference kind }
    {
        matches!(kind, OpKind::ForwardRef)
    }

    fn rewrite(
        &self,
        ctx: &mut Context<BenchSet>,
        _block: Ptr<BasicBlock>,
        op: Ptr<Operation>,
    ) -> Result<(), Stop> {
        replacements::<BenchSet>();
        ctx.stands();
        if !is_plain(ctx, op) {
            return Err(Stop::Refused);
        }
        let ty = op.get_type(ctx, 0);
        let constant = put_before(self.alloc, ctx, op, OpKind::Constant, ty, &[])?;
        replace_op(ctx, op, constant);
        Ok(())
    }
}

/// Replaces each forward reference below an operation by a constant.
pub fn convert_references(
    alloc: Global,
    ctx: &mut Context<BenchSet>,
    root: Ptr<Operation>,
) -> Result<(), Stop>
    requires { IsLive ctx.old (AnyNode.Operation root) }
{
    let resolve = Resolve { alloc };
    convert(ctx, &resolve, root)
}
