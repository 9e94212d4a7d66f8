//! Structs of operations that implement an interface of flow, and answer what their op set tells.
ghost use Rattle.std.specs.Prelude.{◌≡◌, Some};
ghost use Rattle.plir_core.specs.ContextView.{ContextView};
ghost use Rattle.plir_flow_sets.specs.Branches.{IsToldBranch};
ghost use Rattle.plir_flow_sets.specs.Calls.{IsToldCall};

use crate::branch_set::BranchSet;
use crate::call_set::CallSet;
use crate::region_edge_set::RegionEdgeSet;
use plir_core::Context;
use plir_flow::{BranchOpInterface, CallOpInterface, RegionBranchOpInterface};

/// Calls whose op set tells what their interface says.
pub trait ToldCall<D: CallSet>: CallOpInterface<D> {
    // Where the layout is right, the set tells what is called, and with which operands.
    ghost call_told: { (o : Self) (s : ContextView D.Kind D.Attr D.Ty) → Self.has_call_layout o s →
        IsToldCall D.call s (Self.pointer o) (Self.called o s) (Self.arguments o s) };

    /// Is called for what it gives, and does nothing: where the layout is right, the op set tells what the interface
    /// says.
    final fn call_is_told(&self, ctx: &Context<D>)
        requires { Self.has_call_layout self.now ctx.now }
        ensures { IsToldCall D.call ctx.now (Self.pointer self.now) (Self.called self.now ctx.now)
            (Self.arguments self.now ctx.now) }
    {}
}

/// Branches whose op set tells what their interface says.
pub trait ToldBranch<D: BranchSet>: BranchOpInterface<D> {
    // Where the layout is right, the set tells which operands each successor gets.
    ghost branch_told: { (o : Self) (s : ContextView D.Kind D.Attr D.Ty) → Self.has_layout o s →
        IsToldBranch D.forwards s (Self.pointer o) (Self.forwards o s) };

    /// Is called for what it gives, and does nothing: where the layout is right, the op set tells what the interface
    /// says.
    final fn branch_is_told(&self, ctx: &Context<D>)
        requires { Self.has_layout self.now ctx.now }
        ensures { IsToldBranch D.forwards ctx.now (Self.pointer self.now) (Self.forwards self.now ctx.now) }
    {}
}

/// Operations whose op set tells the edges that their interface says.
pub trait ToldRegionEdges<D: RegionEdgeSet>: RegionBranchOpInterface<D> {
    // Where the layout is right, the set tells these edges.
    ghost edges_told: { (o : Self) (s : ContextView D.Kind D.Attr D.Ty) → Self.has_edges_layout o s →
        D.edges s (Self.pointer o) ≡ Some (Self.edges o s) };

    /// Is called for what it gives, and does nothing: where the layout is right, the op set tells what the interface
    /// says.
    final fn edges_are_told(&self, ctx: &Context<D>)
        requires { Self.has_edges_layout self.now ctx.now }
        ensures { D.edges ctx.now (Self.pointer self.now) ≡ Some (Self.edges self.now ctx.now) }
    {}
}
