//! An own kind of operations that use names as the builtin ones do.
use plir_core::{Context, Operation, Ptr};
use plir_data::{Identifier, KindSet, Memory, NeverRefused, OwnKind};
use plir_symbols::{SymbolNameKind, is_marked_private, names_held, num_names_held};
use std::alloc::Global;

/// The kind.
#[derive(Clone, Copy, PartialEq, Eq, Debug)]
pub struct HoldingKind;

impl OwnKind for HoldingKind {
    ghost use Rattle.std.specs.Prelude.{codes, false};

    type Err = NeverRefused;

    ghost is_terminator = { λ _. false };

    ghost is_symbol = { λ _. false };

    ghost is_symbol_table = { λ _. false };

    ghost is_symbol_user = { λ _. false };

    ghost id = { λ _. codes "holding.use" };

    fn is_terminator(self) -> bool {
        false
    }

    fn is_symbol(self) -> bool {
        false
    }

    fn is_symbol_table(self) -> bool {
        false
    }

    fn is_symbol_user(self) -> bool {
        false
    }

    fn id(self) -> &'static str {
        "holding.use"
    }
}

impl SymbolNameKind<KindSet<HoldingKind>> for HoldingKind {
    ghost use Rattle.plir_symbols.specs.BuiltinNames.{is_marked_private, names_held};

    ghost names_used = { names_held };

    ghost is_private = { is_marked_private };

    fn num_used_names(ctx: &Context<KindSet<HoldingKind>>, op: Ptr<Operation>) -> usize {
        num_names_held(ctx, op)
    }

    fn used_names(
        alloc: Global,
        ctx: &Context<KindSet<HoldingKind>>,
        op: Ptr<Operation>,
    ) -> Result<Vec<&Identifier>, Memory> {
        names_held(alloc, ctx, op)
    }

    fn is_private(ctx: &Context<KindSet<HoldingKind>>, op: Ptr<Operation>) -> bool {
        is_marked_private(ctx, op)
    }
}
