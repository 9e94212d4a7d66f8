//! How the rule of region edges is refused.
ghost use Rattle.std.specs.Prelude.{◌≡◌, IfErr, OnOk};
ghost use Rattle.plir_core.specs.declared.ptr.IRNode.{IRNode};
ghost use Rattle.plir_core.specs.ContextView.{IsLive};
ghost use Rattle.plir_core.specs.WellFormed.{IsWellFormed};
ghost use Rattle.plir_iface.specs.Verdict.{IsRefusalMemoryAside};
ghost use Rattle.plir_flow.specs.RegionEdges.{AreEdgesLive};
ghost use Rattle.plir_flow.specs.RegionRule.{HasEdgeRule, IsOfTypes, ReportsFault, ReportsEdgeFault, in_edges};
ghost use Rattle.plir_flow.specs.EdgeVerdicts.{NamesLive};

use crate::edge_ends::RegionEdge;
use crate::edge_rule::find_fault;
use crate::region_edge_errors::{EdgeFault, RegionBranchOpInterfaceVerifyErr};
use plir_core::{Context, Operation, Ptr};
use plir_data::{OpSet, VerifyErr, type_text};
use plir_iface::refusal;
use std::alloc::Global;

// The refusal that reports a fault. Memory is wanted for the texts of types alone.
fn report<D: OpSet>(
    alloc: Global,
    ctx: &Context<D>,
    op: Ptr<Operation>,
    fault: EdgeFault,
) -> VerifyErr<RegionBranchOpInterfaceVerifyErr<D::Err>>
    requires live { IsLive ctx.now (IRNode.Operation op) }
    requires names_live { NamesLive ctx.now fault }
    ensures reported { IsRefusalMemoryAside ctx.now op (ReportsFault D.type_id D.type_body_text ctx.now fault) result }
    ensures memory { result ≡ VerifyErr.Memory → IsOfTypes fault }
    ensures whole { IsWellFormed D.attr_handles ctx.now }
{
    ctx.stands();
    let err = match fault {
        EdgeFault::OtherReceivers => RegionBranchOpInterfaceVerifyErr::ReceiverSetMismatch,
        EdgeFault::ForeignTerminator => RegionBranchOpInterfaceVerifyErr::InvalidTerminator,
        EdgeFault::ForeignRead => RegionBranchOpInterfaceVerifyErr::ReadNotOpOrSourceOperand,
        EdgeFault::ForeignRegion => RegionBranchOpInterfaceVerifyErr::ForeignRegionSuccessor,
        EdgeFault::ForeignOperand => RegionBranchOpInterfaceVerifyErr::OperandNotAtBranchPoint,
        EdgeFault::NoArgument => RegionBranchOpInterfaceVerifyErr::ReceiverNotRegionArgument,
        EdgeFault::NoResult => RegionBranchOpInterfaceVerifyErr::ReceiverNotResult,
        EdgeFault::ReceivedTwice => RegionBranchOpInterfaceVerifyErr::DuplicateReceiver,
        EdgeFault::OtherType(given, wanted) => {
            let Ok(operand) = type_text(alloc, ctx, given) else {
                return VerifyErr::Memory;
            };
            let Ok(receiver) = type_text(alloc, ctx, wanted) else {
                return VerifyErr::Memory;
            };
            RegionBranchOpInterfaceVerifyErr::FlowTypeMismatch { operand, receiver }
        }
    };
    refusal(ctx, op, err)
}

/// Accepts exactly where the edges of an operation have their rule, and else reports the point that they break first.
pub(crate) fn verify_edges<D: OpSet>(
    alloc: Global,
    ctx: &Context<D>,
    op: Ptr<Operation>,
    edges: &[RegionEdge],
) -> Result<(), VerifyErr<RegionBranchOpInterfaceVerifyErr<D::Err>>>
    requires live { IsLive ctx.now (IRNode.Operation op) }
    requires edges_live { AreEdgesLive ctx.now edges.now }
    ensures ok { OnOk result (HasEdgeRule D.is_terminator ctx.now op edges.now) }
    ensures refused { IfErr result (IsRefusalMemoryAside ctx.now op
        (ReportsEdgeFault D.type_id D.type_body_text ctx.now D.is_terminator op edges.now)) }
    ensures whole { IsWellFormed D.attr_handles ctx.now }
{
    ctx.stands();
    match find_fault(alloc, ctx, op, edges) {
        Err(_) => Err(VerifyErr::Memory),
        Ok(None) => Ok(()),
        Ok(Some(fault)) => Err(report(alloc, ctx, op, fault)),
    }
}

/// The refusal of a layout as that of region edges, at the same location.
pub(crate) fn as_edges_layout<E>(
    refused: VerifyErr<E>,
) -> VerifyErr<RegionBranchOpInterfaceVerifyErr<E>>
    ensures { result ≡ in_edges refused }
{
    match refused {
        VerifyErr::Refused { loc, err } => VerifyErr::Refused {
            loc,
            err: RegionBranchOpInterfaceVerifyErr::Layout(err),
        },
        VerifyErr::Memory => VerifyErr::Memory,
    }
}
