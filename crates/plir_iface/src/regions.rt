//! Interfaces of operations by their regions.
ghost use Rattle.std.specs.Prelude.{◌≡◌, ◌↔◌, Some, Ok, IsOk, IfErr, IfSome, slice_get, option_map};
ghost use Rattle.plir_store.specs.Members.{head};
ghost use Rattle.plir_core.specs.ContextView.{IsLive};
ghost use Rattle.plir_core.specs.WellFormed.{IsWellFormed};
ghost use Rattle.plir_core.specs.declared.ptr.IRNode.{IRNode};
ghost use Rattle.plir_iface.specs.Counts.{regions_of, HasNRegions, HasAtMostNRegions};
ghost use Rattle.plir_iface.specs.CountRefusals.{IsNRegionsRefusal, IsAtMostNRegionsRefusal};

use crate::counts::{AtMostNRegionVerifyErr, NRegionsVerifyErr};
use crate::op::Op;
use crate::verdict::accept_if;
use plir_core::{Context, LessThanN, Ptr, Region};
use plir_data::{Memory, OpSet, VerifyErr};

/// Operations that have `N` regions.
pub trait NRegionsInterface<D: OpSet, const N: usize>: Op<D> {
    /// Accepts exactly where the operation has `N` regions.
    final fn verify(&self, ctx: &Context<D>) -> Result<(), VerifyErr<NRegionsVerifyErr>>
        requires { IsLive ctx.now (IRNode.Operation (Self.pointer self.now)) }
        ensures ok { IsOk result ↔ HasNRegions N ctx.now (Self.pointer self.now) }
        ensures refused { IfErr result (IsNRegionsRefusal N ctx.now (Self.pointer self.now)) }
        ensures whole { IsWellFormed D.attr_handles ctx.now }
    {
        let op = self.get_operation();
        let found = op.num_regions(ctx);
        accept_if(ctx, op, found == N, NRegionsVerifyErr(N, found))
    }

    /// The region at an index.
    final fn get_region_i(&self, ctx: &Context<D>, i: LessThanN<N>) -> Ptr<Region>
        requires live { IsLive ctx.now (IRNode.Operation (Self.pointer self.now)) }
        requires rule { HasNRegions N ctx.now (Self.pointer self.now) }
        ensures value { slice_get (regions_of ctx.now (Self.pointer self.now)) i.entry ≡ Some (IRNode.Region result) }
        ensures live { IsLive ctx.now (IRNode.Region result) }
        ensures whole { IsWellFormed D.attr_handles ctx.now }
    {
        self.get_operation().get_region(ctx, i.i())
    }
}

/// Operations that have one region.
pub trait OneRegionInterface<D: OpSet>: Op<D> {
    /// Accepts exactly where the operation has one region.
    final fn verify(&self, ctx: &Context<D>) -> Result<(), VerifyErr<NRegionsVerifyErr>>
        requires { IsLive ctx.now (IRNode.Operation (Self.pointer self.now)) }
        ensures ok { IsOk result ↔ HasNRegions 1 ctx.now (Self.pointer self.now) }
        ensures refused { IfErr result (IsNRegionsRefusal 1 ctx.now (Self.pointer self.now)) }
        ensures whole { IsWellFormed D.attr_handles ctx.now }
    {
        let op = self.get_operation();
        let found = op.num_regions(ctx);
        accept_if(ctx, op, found == 1, NRegionsVerifyErr(1, found))
    }

    /// The region.
    final fn get_region(&self, ctx: &Context<D>) -> Ptr<Region>
        requires live { IsLive ctx.now (IRNode.Operation (Self.pointer self.now)) }
        requires rule { HasNRegions 1 ctx.now (Self.pointer self.now) }
        ensures value { slice_get (regions_of ctx.now (Self.pointer self.now)) 0 ≡ Some (IRNode.Region result) }
        ensures live { IsLive ctx.now (IRNode.Region result) }
        ensures whole { IsWellFormed D.attr_handles ctx.now }
    {
        self.get_operation().get_region(ctx, 0)
    }
}

/// Operations that have at most `N` regions.
pub trait AtMostNRegionsInterface<D: OpSet, const N: usize>: Op<D> {
    /// Accepts exactly where the operation has at most `N` regions.
    final fn verify(&self, ctx: &Context<D>) -> Result<(), VerifyErr<AtMostNRegionVerifyErr>>
        requires { IsLive ctx.now (IRNode.Operation (Self.pointer self.now)) }
        ensures ok { IsOk result ↔ HasAtMostNRegions N ctx.now (Self.pointer self.now) }
        ensures refused { IfErr result (IsAtMostNRegionsRefusal N ctx.now (Self.pointer self.now)) }
        ensures whole { IsWellFormed D.attr_handles ctx.now }
    {
        let op = self.get_operation();
        let found = op.num_regions(ctx);
        accept_if(ctx, op, found <= N, AtMostNRegionVerifyErr(N, found))
    }
}

/// Operations that have at most one region.
pub trait AtMostOneRegionInterface<D: OpSet>: AtMostNRegionsInterface<D, 1> {
    /// Accepts always: that there is no other region is the rule of [`AtMostNRegionsInterface`].
    final fn verify(&self, _ctx: &Context<D>) -> Result<(), Memory>
        ensures { result ≡ Ok tt }
    {
        Ok(())
    }

    /// The region, if there is one.
    final fn get_region(&self, ctx: &Context<D>) -> Option<Ptr<Region>>
        requires { IsLive ctx.now (IRNode.Operation (Self.pointer self.now)) }
        ensures value { option_map IRNode.Region result ≡ head (regions_of ctx.now (Self.pointer self.now)) }
        ensures live { IfSome result (λ r. IsLive ctx.now (IRNode.Region r)) }
        ensures whole { IsWellFormed D.attr_handles ctx.now }
    {
        self.get_operation().first_region(ctx)
    }
}
