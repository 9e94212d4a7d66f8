//! A loop: an operation with one region, and one in it that ends the region and hands a value on.
ghost use Rattle.std.specs.Prelude.{◌↔◌, ◌≡◌, ◌∷◌, [], IsTrue, IfOk};
ghost use Rattle.plir_core.specs.ContextView.{IsLive};
ghost use Rattle.plir_core.specs.declared.ptr.IRNode.{IRNode as AnyNode};
ghost use Rattle.plir_flow_calls.specs.Loops.{AreNested, IsLoop};

use crate::flow::refusing::Refusing;
use plir_core::{BasicBlock, Context, Operation, Ptr, Region, Use, Value};
use plir_data::{Memory, OpSet, VerifyErr};
use plir_flow::{RegionBranchOpInterface, RegionBranchPoint, RegionEdge, RegionSuccessor};
use plir_iface::Op;
use std::alloc::Global;

/// A loop. Its first operand flows into its region, as the first argument of the body; the first operand of the
/// operation that ends the body flows out of it, as its first result.
#[derive(Clone, Copy)]
pub struct Loop {
    pub op: Ptr<Operation>,
    pub region: Ptr<Region>,
    pub body: Ptr<BasicBlock>,
    pub end: Ptr<Operation>,
}

impl<D: OpSet> Op<D> for Loop {
    ghost pointer = { λ o. o.op };

    fn get_operation(&self) -> Ptr<Operation> {
        self.op
    }
}

impl Loop {
    // Whether its parts stand in one another.
    fn is_nested<D: OpSet>(self, ctx: &Context<D>) -> bool
        ensures { IsTrue result ↔ AreNested ctx.now self.op self.region self.body self.end }
    {
        self.region.is_live(ctx)
            && self.body.is_live(ctx)
            && self.end.is_live(ctx)
            && self.region.get_parent_op(ctx) == Some(self.op)
            && self.body.get_parent_region(ctx) == Some(self.region)
            && self.end.get_parent_block(ctx) == Some(self.body)
    }

    // Whether it is a loop.
    fn is_loop<D: OpSet>(self, ctx: &Context<D>) -> bool
        requires { IsLive ctx.now (AnyNode.Operation self.op) }
        ensures { IsTrue result ↔ IsLoop ctx.now self.op self.region self.body self.end }
    {
        self.is_nested(ctx)
            && 0 < self.op.get_num_operands(ctx)
            && 0 < self.op.get_num_results(ctx)
            && 0 < self.body.get_num_arguments(ctx)
            && 0 < self.end.get_num_operands(ctx)
    }
}

// An edge on which one operand flows, and some are read.
fn edge(
    alloc: Global,
    from: RegionBranchPoint,
    to: RegionSuccessor,
    flow: (Use<Value>, Value),
    reads: Vec<Use<Value>>,
) -> Result<RegionEdge, Memory>
    ensures { IfOk result (λ e. e ≡ record { from = from; to = to; flows = flow ∷ []; reads = reads.items }) }
{
    let mut flows = Vec::new(alloc);
    flows.push(flow)?;
    Ok(RegionEdge {
        from,
        to,
        flows,
        reads,
    })
}

impl<D: Refusing> RegionBranchOpInterface<D> for Loop {
    ghost use Rattle.plir_flow_calls.specs.Loops.{IsLoop, loop_edges};

    ghost has_edges_layout = { λ o s. IsLoop s o.op o.region o.body o.end };

    ghost refuses_edges_layout = { λ _ _ _. Unit {0} };

    ghost edges = { λ o _. loop_edges o.op o.region o.body o.end };

    fn verify_region_edges_layout(
        &self,
        _alloc: Global,
        ctx: &Context<D>,
    ) -> Result<(), VerifyErr<D::Err>> {
        if self.is_loop(ctx) {
            return Ok(());
        }
        Err(VerifyErr::Refused {
            loc: self.op.loc(ctx),
            err: D::refusal(),
        })
    }

    fn region_edges(&self, alloc: Global, ctx: &Context<D>) -> Result<Vec<RegionEdge>, Memory> {
        let operand = Use::new(self.op, 0);
        let argument = self.body.get_argument(ctx, 0);
        let handed_on = Use::new(self.end, 0);
        let result = self.op.get_result(ctx, 0);
        let region = RegionSuccessor::Region(self.region);
        let end = RegionBranchPoint::Terminator(self.end);
        let mut reads = Vec::new(alloc);
        reads.push(operand)?;
        let none = Vec::new(alloc);
        let mut edges = Vec::new(alloc);
        let parent = RegionBranchPoint::Parent;
        edges.push(edge(alloc, parent, region, (operand, argument), reads)?)?;
        edges.push(edge(
            alloc,
            end,
            RegionSuccessor::After,
            (handed_on, result),
            none,
        )?)?;
        Ok(edges)
    }
}
