//! Scopes, whose parts are read from the context.
ghost use Rattle.std.specs.Prelude.{◌≡◌, IfOk, IfSome, option_map};
ghost use Rattle.plir_core.specs.declared.ptr.IRNode.{IRNode as AnyNode};
ghost use Rattle.plir_core.specs.ContextView.{IsLive};
ghost use Rattle.plir_flow.specs.RegionEdges.{AreEdgesLive};
ghost use Rattle.flow_dialect.specs.Scopes.{edges_through, scope_edges};

use crate::kinds::{FlowKind, FlowSet, WrongLayout};
use plir_core::{Context, Operation, Ptr, Region, Use, Value};
use plir_data::{Memory, OpKind, OpSet, VerifyErr};
use plir_flow::{RegionBranchOpInterface, RegionBranchPoint, RegionEdge, RegionSuccessor};
use plir_flow_sets::{RegionEdgeKind, ToldRegionEdges};
use plir_iface::Op;
use std::alloc::Global;

/// A scope. Its first operand flows into its region, as the first argument of the body, which is the region's first
/// block; the last operation of the body passes control on behind the scope.
#[derive(Clone, Copy)]
pub struct Scope {
    /// The operation.
    pub op: Ptr<Operation>,
}

// The region of a scope, the argument that its operand flows into, and what ends its body.
#[derive(Clone, Copy)]
struct ScopeParts {
    region: Ptr<Region>,
    argument: Value,
    end: Ptr<Operation>,
}

impl<D: OpSet> Op<D> for Scope {
    ghost pointer = { λ o. o.op };

    fn get_operation(&self) -> Ptr<Operation> {
        self.op
    }
}

impl Scope {
    // Its parts, where all are there, and it has an operand, and the body an argument.
    fn parts<D: OpSet>(self, ctx: &Context<D>) -> Option<ScopeParts>
        requires { IsLive ctx.now (AnyNode.Operation self.op) }
        ensures edges { option_map (λ p. edges_through self.op p.region p.argument p.end) result ≡
            scope_edges ctx.now self.op }
        ensures live { IfSome (scope_edges ctx.now self.op) (AreEdgesLive ctx.now) }
    {
        let region = self.op.first_region(ctx)?;
        let body = region.get_head(ctx)?;
        let end = body.get_tail(ctx)?;
        if self.op.get_num_operands(ctx) == 0 || body.get_num_arguments(ctx) == 0 {
            return None;
        }
        let argument = body.get_argument(ctx, 0);
        Some(ScopeParts {
            region,
            argument,
            end,
        })
    }

    // Its edges.
    fn edges(self, alloc: Global, parts: ScopeParts) -> Result<Vec<RegionEdge>, Memory>
        ensures { IfOk result (λ es. es.items ≡ edges_through self.op parts.region parts.argument parts.end) }
    {
        let mut flows = Vec::new(alloc);
        flows.push((Use::new(self.op, 0), parts.argument))?;
        let mut edges = Vec::new(alloc);
        edges.push(RegionEdge {
            from: RegionBranchPoint::Parent,
            to: RegionSuccessor::Region(parts.region),
            flows,
            reads: Vec::new(alloc),
        })?;
        edges.push(RegionEdge {
            from: RegionBranchPoint::Terminator(parts.end),
            to: RegionSuccessor::After,
            flows: Vec::new(alloc),
            reads: Vec::new(alloc),
        })?;
        Ok(edges)
    }
}

impl<D: OpSet> RegionEdgeKind<D> for FlowKind {
    ghost use Rattle.flow_dialect.specs.Scopes.{edges_of};

    ghost edges = { edges_of };

    fn region_edges(
        self,
        alloc: Global,
        ctx: &Context<D>,
        op: Ptr<Operation>,
    ) -> Result<Option<Vec<RegionEdge>>, Memory> {
        let scope = Scope { op };
        let parts = match self {
            FlowKind::Scope => scope.parts(ctx),
            _ => None,
        };
        match parts {
            Some(parts) => Ok(Some(scope.edges(alloc, parts)?)),
            None => Ok(None),
        }
    }
}

impl RegionBranchOpInterface<FlowSet> for Scope {
    ghost use Rattle.flow_dialect.specs.Scopes.{IsScope, edges_or_none};

    ghost has_edges_layout = { λ o s. IsScope s o.op };

    ghost refuses_edges_layout = { λ _ _ _. Unit {0} };

    ghost edges = { λ o s. edges_or_none s o.op };

    fn verify_region_edges_layout(
        &self,
        _alloc: Global,
        ctx: &Context<FlowSet>,
    ) -> Result<(), VerifyErr<WrongLayout>> {
        let is_scope = matches!(self.op.kind(ctx), OpKind::Own(FlowKind::Scope));
        if is_scope && self.parts(ctx).is_some() {
            return Ok(());
        }
        Err(VerifyErr::Refused {
            loc: self.op.loc(ctx),
            err: WrongLayout,
        })
    }

    fn region_edges(
        &self,
        alloc: Global,
        ctx: &Context<FlowSet>,
    ) -> Result<Vec<RegionEdge>, Memory> {
        match self.parts(ctx) {
            Some(parts) => self.edges(alloc, parts),
            None => unreachable!(),
        }
    }
}

impl ToldRegionEdges<FlowSet> for Scope {
    ghost use Rattle.flow_dialect.specs.FlowLaws.{scope_told};

    ghost edges_told = { λ o s layout. scope_told s o.op layout };
}
