//! Two dialects of one kind each, joined: one returns, the other jumps.
use plir_core::{Context, Operation, Ptr};
use plir_data::{Memory, NeverRefused, OpSet, OwnKind};
use plir_dialect::{Dialect, Joined, Joining};
use plir_flow::RegionEdge;
use plir_flow_sets::{BranchKind, Call, CallKind, RegionEdgeKind};
use std::alloc::Global;
use std::ops::Range;

/// The kind of operations that hand their operands back.
#[derive(Clone, Copy, PartialEq, Eq, Debug)]
pub struct ReturnKind;

/// The kind of operations that pass their operands to each of their successors.
#[derive(Clone, Copy, PartialEq, Eq, Debug)]
pub struct JumpKind;

/// The pair of the two dialects.
pub struct ReturnsAndJumps;

/// The op set of both.
pub type Flow = Joined<ReturnsAndJumps>;

impl OwnKind for ReturnKind {
    ghost use Rattle.std.specs.Prelude.{true, false, codes};

    type Err = NeverRefused;

    ghost is_terminator = { λ _. true };

    ghost is_symbol = { λ _. false };

    ghost is_symbol_table = { λ _. false };

    ghost is_symbol_user = { λ _. false };

    ghost id = { λ _. codes "returns.return" };

    fn is_terminator(self) -> bool {
        true
    }

    fn is_symbol(self) -> bool {
        false
    }

    fn is_symbol_table(self) -> bool {
        false
    }

    fn is_symbol_user(self) -> bool {
        false
    }

    fn id(self) -> &'static str {
        "returns.return"
    }
}

impl OwnKind for JumpKind {
    ghost use Rattle.std.specs.Prelude.{true, false, codes};

    type Err = NeverRefused;

    ghost is_terminator = { λ _. true };

    ghost is_symbol = { λ _. false };

    ghost is_symbol_table = { λ _. false };

    ghost is_symbol_user = { λ _. false };

    ghost id = { λ _. codes "jumps.jump" };

    fn is_terminator(self) -> bool {
        true
    }

    fn is_symbol(self) -> bool {
        false
    }

    fn is_symbol_table(self) -> bool {
        false
    }

    fn is_symbol_user(self) -> bool {
        false
    }

    fn id(self) -> &'static str {
        "jumps.jump"
    }
}

impl<D: OpSet> CallKind<D> for ReturnKind {
    ghost use Rattle.std.specs.Prelude.{Some, None, length};

    ghost call = { λ _ _. None };

    ghost returned = { λ _ held. Some (0, length held.operands) };

    fn call(self, _ctx: &Context<D>, _op: Ptr<Operation>) -> Option<Call<'_>> {
        None
    }

    fn returned_range(self, ctx: &Context<D>, op: Ptr<Operation>) -> Option<Range<usize>> {
        Some(0..op.get_num_operands(ctx))
    }
}

impl<D: OpSet> CallKind<D> for JumpKind {
    ghost use Rattle.std.specs.Prelude.{None};

    ghost call = { λ _ _. None };

    ghost returned = { λ _ _. None };

    fn call(self, _ctx: &Context<D>, _op: Ptr<Operation>) -> Option<Call<'_>> {
        None
    }

    fn returned_range(self, _ctx: &Context<D>, _op: Ptr<Operation>) -> Option<Range<usize>> {
        None
    }
}

impl<D: OpSet> BranchKind<D> for ReturnKind {
    ghost use Rattle.std.specs.Prelude.{None};

    ghost forwards = { λ _ _ _. None };

    fn forwarded_range(
        self,
        _ctx: &Context<D>,
        _op: Ptr<Operation>,
        _successor: usize,
    ) -> Option<Range<usize>> {
        None
    }
}

impl<D: OpSet> BranchKind<D> for JumpKind {
    ghost use Rattle.std.specs.Prelude.{Some, length};

    ghost forwards = { λ _ _ held. Some (0, length held.operands) };

    fn forwarded_range(
        self,
        ctx: &Context<D>,
        op: Ptr<Operation>,
        _successor: usize,
    ) -> Option<Range<usize>> {
        Some(0..op.get_num_operands(ctx))
    }
}

impl<D: OpSet> RegionEdgeKind<D> for ReturnKind {
    ghost use Rattle.std.specs.Prelude.{None};

    ghost edges = { λ _ _ _. None };

    fn region_edges(
        self,
        _alloc: Global,
        _ctx: &Context<D>,
        _op: Ptr<Operation>,
    ) -> Result<Option<Vec<RegionEdge>>, Memory> {
        Ok(None)
    }
}

impl<D: OpSet> RegionEdgeKind<D> for JumpKind {
    ghost use Rattle.std.specs.Prelude.{None};

    ghost edges = { λ _ _ _. None };

    fn region_edges(
        self,
        _alloc: Global,
        _ctx: &Context<D>,
        _op: Ptr<Operation>,
    ) -> Result<Option<Vec<RegionEdge>>, Memory> {
        Ok(None)
    }
}

impl Joining for ReturnsAndJumps {
    ghost use Rattle.std.proofs.Common.{rules};

    type First = Dialect<ReturnKind>;

    type Second = Dialect<JumpKind>;

    ghost kind_ids_differ = { λ k l e. Prim.search rules };

    ghost attr_ids_differ = { λ a b e. e };

    ghost type_ids_differ = { λ t u e. e };
}
