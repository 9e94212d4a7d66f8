//! What the dialect's operations call and hand back, and where they go on.
ghost use Rattle.std.specs.Prelude.{◌≡◌, option_map};
ghost use Rattle.plir_core.specs.ContextView.{IsLive, attributes_of};
ghost use Rattle.plir_core.specs.declared.ptr.IRNode.{IRNode as AnyNode};
ghost use Rattle.sample_dialect.specs.Flow.{callee_in};

use crate::kinds::SampleKind;
use plir_builtin::name_in;
use plir_core::{Context, Operation, Ptr};
use plir_data::{Identifier, Memory, OpSet};
use plir_flow::RegionEdge;
use plir_flow_sets::{BranchKind, Call, CallKind, Callee, RegionEdgeKind};
use std::alloc::Global;
use std::ops::Range;

/// The key that the name of what is called stands under.
pub const ATTR_KEY_CALLEE: &'static str = "callee";

/// The name of what a call calls, if one stands under [`ATTR_KEY_CALLEE`].
pub fn callee<D: OpSet>(ctx: &Context<D>, op: Ptr<Operation>) -> Option<&Identifier>
    requires { IsLive ctx.now (AnyNode.Operation op) }
    ensures { option_map (λ n. n.now) result ≡ callee_in (attributes_of ctx.now op) }
{
    name_in(op.attributes(ctx).get(ATTR_KEY_CALLEE)?)
}

impl<D: OpSet> CallKind<D> for SampleKind {
    ghost use Rattle.sample_dialect.specs.Flow.{call_of, returned_of};

    ghost call = { call_of };

    ghost returned = { returned_of };

    fn call(self, ctx: &Context<D>, op: Ptr<Operation>) -> Option<Call<'_>> {
        let arguments = 0..op.get_num_operands(ctx);
        match self {
            SampleKind::Call => {
                let name = callee(ctx, op)?;
                Some(Call {
                    callee: Callee::Direct(name),
                    arguments,
                })
            }
            _ => None,
        }
    }

    fn returned_range(self, ctx: &Context<D>, op: Ptr<Operation>) -> Option<Range<usize>> {
        match self {
            SampleKind::Return => Some(0..op.get_num_operands(ctx)),
            _ => None,
        }
    }
}

impl<D: OpSet> BranchKind<D> for SampleKind {
    ghost use Rattle.sample_dialect.specs.Flow.{forwards_of};

    ghost forwards = { λ kind _. forwards_of kind };

    fn forwarded_range(
        self,
        ctx: &Context<D>,
        op: Ptr<Operation>,
        _successor: usize,
    ) -> Option<Range<usize>> {
        let operands = op.get_num_operands(ctx);
        match self {
            SampleKind::Branch => Some(0..operands),
            SampleKind::CondBranch if operands > 0 => Some(1..operands),
            _ => None,
        }
    }
}

/// No operation of the dialect has regions.
impl<D: OpSet> RegionEdgeKind<D> for SampleKind {
    ghost use Rattle.std.specs.Prelude.{None};

    ghost edges = { λ _ _ _. None };

    fn region_edges(
        self,
        _alloc: Global,
        _ctx: &Context<D>,
        _op: Ptr<Operation>,
    ) -> Result<Option<Vec<RegionEdge>>, Memory> {
        Ok(None)
    }
}
