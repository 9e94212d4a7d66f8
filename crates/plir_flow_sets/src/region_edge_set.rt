//! Along which edges control passes between an operation and its regions.
ghost use Rattle.std.specs.Prelude.{◌≡◌, IfOk, IfSome, List, Option, option_map};
ghost use Rattle.plir_core.specs.declared.ptr.IRNode.{IRNode as AnyNode};
ghost use Rattle.plir_core.specs.declared.ptr.Operation.{Operation as OperationKind};
ghost use Rattle.plir_core.specs.declared.ptr.Ptr.{Ptr as AnyPtr};
ghost use Rattle.plir_core.specs.ContextView.{ContextView, IsLive};
ghost use Rattle.plir_flow.specs.RegionEdges.{AreEdgesLive, EdgeView};

use plir_core::{Context, Operation, Ptr};
use plir_data::{KindSet, Memory, NoMeaning, OpKind, OpSet, OwnKind};
use plir_flow::RegionEdge;
use std::alloc::Global;

/// An op set that tells along which edges control passes between an operation and its regions. They are read from the
/// context, as the regions and what ends them are no part of what an operation holds.
pub trait RegionEdgeSet: OpSet {
    // The edges.
    ghost edges: { ContextView Self.Kind Self.Attr Self.Ty → AnyPtr OperationKind → Option (List EdgeView) };

    /// The edges along which control passes into the regions of an operation, between them and out of them; none, where
    /// the operation doesn't pass control to its regions, or they don't stand as its kind wants them.
    fn region_edges(
        alloc: Global,
        ctx: &Context<Self>,
        op: Ptr<Operation>,
    ) -> Result<Option<Vec<RegionEdge>>, Memory>
        requires { IsLive ctx.now (AnyNode.Operation op) }
        ensures value { IfOk result (λ r. option_map (λ es. es.items) r ≡ edges ctx.now op) }
        ensures live { IfSome (edges ctx.now op) (AreEdgesLive ctx.now) };
}

/// Own kinds of operations that tell the edges of these, in an op set `D` that they are part of: the op set of such
/// kinds alone, [`KindSet`], then tells them. Kinds that don't look at attributes of that set say it for each `D`.
pub trait RegionEdgeKind<D: OpSet>: OwnKind {
    // The edges of an operation of the kind.
    ghost edges: { Self → ContextView D.Kind D.Attr D.Ty → AnyPtr OperationKind → Option (List EdgeView) };

    /// The edges along which control passes into the regions of an operation of the kind, between them and out of them;
    /// none, where it doesn't pass control to its regions, or they don't stand as the kind wants them.
    fn region_edges(
        self,
        alloc: Global,
        ctx: &Context<D>,
        op: Ptr<Operation>,
    ) -> Result<Option<Vec<RegionEdge>>, Memory>
        requires { IsLive ctx.now (AnyNode.Operation op) }
        ensures value { IfOk result (λ r. option_map (λ es. es.items) r ≡ edges self ctx.now op) }
        ensures live { IfSome (edges self ctx.now op) (AreEdgesLive ctx.now) };
}

/// No builtin operation passes control to its regions along known edges.
impl<D: OpSet> RegionEdgeKind<D> for NoMeaning {
    ghost use Rattle.std.specs.Prelude.{None};

    ghost edges = { λ _ _ _. None };

    fn region_edges(
        self,
        _alloc: Global,
        _ctx: &Context<D>,
        _op: Ptr<Operation>,
    ) -> Result<Option<Vec<RegionEdge>>, Memory> {
        Ok(None)
    }
}

/// As the operation's kind says.
impl<K: RegionEdgeKind<KindSet<K>>> RegionEdgeSet for KindSet<K> {
    ghost use Rattle.plir_flow_sets.specs.Told.{told_by_kind};

    ghost edges = { told_by_kind K.edges };

    fn region_edges(
        alloc: Global,
        ctx: &Context<Self>,
        op: Ptr<Operation>,
    ) -> Result<Option<Vec<RegionEdge>>, Memory> {
        match op.kind(ctx) {
            OpKind::Own(kind) => kind.region_edges(alloc, ctx, op),
            _ => Ok(None),
        }
    }
}
