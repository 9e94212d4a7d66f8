//! What operations of own kinds call, what they branch with, and along which edges they pass control to their regions.
use crate::dialect::Dialect;
use crate::one_of::OneOf;
use crate::own_attr::OwnAttr;
use crate::own_type::OwnType;
use plir_core::{Context, Operation, Ptr};
use plir_data::{Memory, OpKind, OpSet};
use plir_flow::RegionEdge;
use plir_flow_sets::{
    BranchKind, BranchSet, Call, CallKind, CallSet, RegionEdgeKind, RegionEdgeSet,
};
use std::alloc::Global;
use std::ops::Range;

/// As the operation's kind says.
impl<K: CallKind<Dialect<K, A, T>>, A: OwnAttr, T: OwnType> CallSet for Dialect<K, A, T> {
    ghost use Rattle.plir_flow_sets.specs.Told.{by_own_kind};

    ghost call = { by_own_kind K.call };

    ghost returned = { by_own_kind K.returned };

    fn call(ctx: &Context<Self>, op: Ptr<Operation>) -> Option<Call<'_>> {
        match op.kind(ctx) {
            OpKind::Own(kind) => kind.call(ctx, op),
            _ => None,
        }
    }

    fn returned_range(ctx: &Context<Self>, op: Ptr<Operation>) -> Option<Range<usize>> {
        match op.kind(ctx) {
            OpKind::Own(kind) => kind.returned_range(ctx, op),
            _ => None,
        }
    }
}

/// As the operation's kind says.
impl<K: BranchKind<Dialect<K, A, T>>, A: OwnAttr, T: OwnType> BranchSet for Dialect<K, A, T> {
    ghost use Rattle.plir_flow_sets.specs.Told.{by_own_kind};

    ghost forwards = { λ i. by_own_kind (λ k. K.forwards k i) };

    fn forwarded_range(
        ctx: &Context<Self>,
        op: Ptr<Operation>,
        successor: usize,
    ) -> Option<Range<usize>> {
        match op.kind(ctx) {
            OpKind::Own(kind) => kind.forwarded_range(ctx, op, successor),
            _ => None,
        }
    }
}

/// As the operation's kind says.
impl<K: RegionEdgeKind<Dialect<K, A, T>>, A: OwnAttr, T: OwnType> RegionEdgeSet
    for Dialect<K, A, T> {
    ghost use Rattle.plir_flow_sets.specs.Told.{told_by_kind};

    ghost edges = { told_by_kind K.edges };

    fn region_edges(
        alloc: Global,
        ctx: &Context<Self>,
        op: Ptr<Operation>,
    ) -> Result<Option<Vec<RegionEdge>>, Memory> {
        match op.kind(ctx) {
            OpKind::Own(kind) => kind.region_edges(alloc, ctx, op),
            _ => Ok(None),
        }
    }
}

/// As the kind's side says.
impl<D: OpSet, A: CallKind<D>, B: CallKind<D>> CallKind<D> for OneOf<A, B> {
    ghost use Rattle.plir_dialect.specs.Sides.{at_side};

    ghost call = { at_side A.call B.call };

    ghost returned = { at_side A.returned B.returned };

    fn call(self, ctx: &Context<D>, op: Ptr<Operation>) -> Option<Call<'_>> {
        match self {
            OneOf::First(kind) => kind.call(ctx, op),
            OneOf::Second(kind) => kind.call(ctx, op),
        }
    }

    fn returned_range(self, ctx: &Context<D>, op: Ptr<Operation>) -> Option<Range<usize>> {
        match self {
            OneOf::First(kind) => kind.returned_range(ctx, op),
            OneOf::Second(kind) => kind.returned_range(ctx, op),
        }
    }
}

/// As the kind's side says.
impl<D: OpSet, A: BranchKind<D>, B: BranchKind<D>> BranchKind<D> for OneOf<A, B> {
    ghost use Rattle.plir_dialect.specs.Sides.{at_side};

    ghost forwards = { at_side A.forwards B.forwards };

    fn forwarded_range(
        self,
        ctx: &Context<D>,
        op: Ptr<Operation>,
        successor: usize,
    ) -> Option<Range<usize>> {
        match self {
            OneOf::First(kind) => kind.forwarded_range(ctx, op, successor),
            OneOf::Second(kind) => kind.forwarded_range(ctx, op, successor),
        }
    }
}

/// As the kind's side says.
impl<D: OpSet, A: RegionEdgeKind<D>, B: RegionEdgeKind<D>> RegionEdgeKind<D> for OneOf<A, B> {
    ghost use Rattle.plir_dialect.specs.Sides.{at_side};

    ghost edges = { at_side A.edges B.edges };

    fn region_edges(
        self,
        alloc: Global,
        ctx: &Context<D>,
        op: Ptr<Operation>,
    ) -> Result<Option<Vec<RegionEdge>>, Memory> {
        match self {
            OneOf::First(kind) => kind.region_edges(alloc, ctx, op),
            OneOf::Second(kind) => kind.region_edges(alloc, ctx, op),
        }
    }
}
