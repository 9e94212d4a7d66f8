//! The kinds of operations that the benchmark has of its own, and the op set of them.
use plir_core::{Context, Operation, Ptr};
use plir_data::{Identifier, IntegerAttr, KindSet, Memory, NeverRefused, OwnKind};
use plir_folding::{FoldKind, IdentityKind, Side, is_zero, wrapping_sum};
use plir_passes::EffectKind;
use plir_symbols::{SymbolNameKind, is_marked_private, names_held, num_names_held};
use std::alloc::Global;

/// The kinds of operations that the benchmark has of its own.
#[derive(Clone, Copy)]
pub enum BenchKind {
    /// Adds two integers.
    Sum,
    /// Calls the function of the name under [`ATTR_KEY_CALLEE`](crate::flow::ATTR_KEY_CALLEE), with all its operands.
    Call,
    /// Hands its operands back to the call.
    Return,
}

/// The builtin operations, and those of the benchmark.
pub type BenchSet = KindSet<BenchKind>;

impl OwnKind for BenchKind {
    ghost use Rattle.std.specs.Prelude.{false};
    ghost use Rattle.plir_bench.specs.Kinds.{ends_block, id_of};

    type Err = NeverRefused;

    ghost is_terminator = { ends_block };

    ghost is_symbol = { λ _. false };

    ghost is_symbol_table = { λ _. false };

    ghost is_symbol_user = { λ _. false };

    ghost id = { id_of };

    fn is_terminator(self) -> bool {
        matches!(self, BenchKind::Return)
    }

    fn is_symbol(self) -> bool {
        false
    }

    fn is_symbol_table(self) -> bool {
        false
    }

    fn is_symbol_user(self) -> bool {
        false
    }

    fn id(self) -> &'static str {
        match self {
            BenchKind::Sum => "bench.sum",
            BenchKind::Call => "bench.call",
            BenchKind::Return => "bench.return",
        }
    }
}

impl EffectKind for BenchKind {
    ghost use Rattle.plir_bench.specs.Kinds.{has_effect};

    ghost has_effect = { has_effect };

    fn has_effect(self) -> bool {
        !matches!(self, BenchKind::Sum)
    }
}

impl FoldKind for BenchKind {
    ghost use Rattle.plir_bench.specs.Kinds.{fold_of};

    ghost fold = { fold_of };

    fn fold(self, left: &IntegerAttr, right: &IntegerAttr) -> Option<IntegerAttr> {
        match self {
            BenchKind::Sum => wrapping_sum(left, right),
            _ => None,
        }
    }
}

impl IdentityKind for BenchKind {
    ghost use Rattle.plir_bench.specs.Kinds.{identity_of};

    ghost is_identity = { λ kind _. identity_of kind };

    fn is_identity(self, _side: Side, constant: &IntegerAttr) -> bool {
        match self {
            BenchKind::Sum => is_zero(constant),
            _ => false,
        }
    }
}

impl SymbolNameKind<BenchSet> for BenchKind {
    ghost use Rattle.plir_symbols.specs.BuiltinNames.{is_marked_private, names_held};

    ghost names_used = { names_held };

    ghost is_private = { is_marked_private };

    fn num_used_names(ctx: &Context<BenchSet>, op: Ptr<Operation>) -> usize {
        num_names_held(ctx, op)
    }

    fn used_names(
        alloc: Global,
        ctx: &Context<BenchSet>,
        op: Ptr<Operation>,
    ) -> Result<Vec<&Identifier>, Memory> {
        names_held(alloc, ctx, op)
    }

    fn is_private(ctx: &Context<BenchSet>, op: Ptr<Operation>) -> bool {
        is_marked_private(ctx, op)
    }
}
