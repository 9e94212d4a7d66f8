//! Interfaces that say of operations what kind of thing they are.
ghost use Rattle.std.specs.Prelude.{◌≡◌, ◌↔◌, ℕ, Ok, IsTrue};

use crate::blocks::SingleBlockRegionInterface;
use crate::op::Op;
use plir_core::Context;
use plir_data::{Memory, OpSet};

/// How the operations in a region follow one another.
#[derive(Clone, Copy, PartialEq, Eq, Debug)]
pub enum RegionKind {
    /// In any order: a value may be used before it is defined.
    Graph,
    /// In the order of control: a value is defined before it is used.
    SSACFG,
}

/// Operations that say of what kind their regions are.
pub trait RegionKindInterface<D: OpSet>: Op<D> {
    ghost use Rattle.plir_iface.specs.declared.kinds.RegionKind.{RegionKind};

    // The kind of the region at an index.
    ghost region_kind: { Self → ℕ → RegionKind };

    /// The kind of the region at an index.
    fn get_region_kind(&self, region: usize) -> RegionKind
        ensures { result ≡ region_kind self.now region };

    /// Whether values of the region at an index must be defined before they are used.
    final fn has_ssa_dominance(&self, region: usize) -> bool
        ensures { IsTrue result ↔ (region_kind self.now region ≡ RegionKind.SSACFG) }
    {
        matches!(self.get_region_kind(region), RegionKind::SSACFG)
    }

    /// Accepts always.
    final fn verify(&self, _ctx: &Context<D>) -> Result<(), Memory>
        ensures { result ≡ Ok tt }
    {
        Ok(())
    }
}

/// Operations that end their block.
pub trait IsTerminatorInterface<D: OpSet>: Op<D> {
    /// Accepts always.
    final fn verify(&self, _ctx: &Context<D>) -> Result<(), Memory>
        ensures { result ≡ Ok tt }
    {
        Ok(())
    }
}

/// Operations whose regions have one block each, which need not end with a terminator.
pub trait NoTerminatorInterface<D: OpSet>: SingleBlockRegionInterface<D> {
    /// Accepts always.
    final fn verify(&self, _ctx: &Context<D>) -> Result<(), Memory>
        ensures { result ≡ Ok tt }
    {
        Ok(())
    }
}

/// Operations whose regions use no value that is defined outside of them.
pub trait IsolatedFromAboveInterface<D: OpSet>: Op<D> {
    /// Accepts always.
    final fn verify(&self, _ctx: &Context<D>) -> Result<(), Memory>
        ensures { result ≡ Ok tt }
    {
        Ok(())
    }
}
