//! What passes, the verifier of trees and a program over the dialect ask of its kinds.
use crate::flow::callee;
use crate::kinds::{SampleErr, SampleKind, SampleSet};
use crate::rules::{goes_on, is_sum};
use plir_builtin::{SymbolTableCollection, SymbolUses};
use plir_core::{Context, Operation, Ptr};
use plir_data::{Identifier, IntegerAttr, Memory, OpKind, VerifyErr};
use plir_folding::{FoldKind, IdentityKind, Side, is_zero, wrapping_sum};
use plir_iface::accept_if;
use plir_passes::EffectKind;
use plir_symbols::{SymbolNameKind, is_marked_private, names_held, num_names_held};
use plir_verify::VerifyKind;
use std::alloc::Global;

impl EffectKind for SampleKind {
    ghost use Rattle.sample_dialect.specs.Answers.{has_effect};

    ghost has_effect = { has_effect };

    fn has_effect(self) -> bool {
        matches!(self, SampleKind::Show | SampleKind::Call)
    }
}

impl FoldKind for SampleKind {
    ghost use Rattle.sample_dialect.specs.Answers.{fold_of};

    ghost fold = { fold_of };

    fn fold(self, left: &IntegerAttr, right: &IntegerAttr) -> Option<IntegerAttr> {
        match self {
            SampleKind::Add => wrapping_sum(left, right),
            _ => None,
        }
    }
}

/// A sum of a value and 0 is that value.
impl IdentityKind for SampleKind {
    ghost use Rattle.sample_dialect.specs.Answers.{identity_of};

    ghost is_identity = { identity_of };

    fn is_identity(self, _side: Side, constant: &IntegerAttr) -> bool {
        match self {
            SampleKind::Add => is_zero(constant),
            _ => false,
        }
    }
}

/// The verifier of tables asks nothing of the dialect's operations.
impl SymbolUses<SampleSet> for SampleKind {
    ghost use Rattle.std.specs.Prelude.{⊤};

    ghost uses_hold = { λ _ _. ⊤ };

    ghost use_refusal = { λ _ _ _ _. ⊥ };

    fn verify_symbol_uses(
        _ctx: &Context<SampleSet>,
        _op: Ptr<Operation>,
        _tables: &mut SymbolTableCollection,
    ) -> Result<(), VerifyErr<SampleErr>> {
        Ok(())
    }
}

/// Each operation stands as its kind wants it.
impl VerifyKind<SampleSet> for SampleKind {
    ghost use Rattle.std.specs.Prelude.{◌≡◌, Some};
    ghost use Rattle.plir_core.specs.ContextView.{location_of};
    ghost use Rattle.sample_dialect.specs.Rules.{IsRight};

    ghost rule = { IsRight };

    ghost rule_refusal = { λ s op loc _. location_of s op ≡ Some loc };

    fn verify_op(
        _alloc: Global,
        ctx: &Context<SampleSet>,
        op: Ptr<Operation>,
    ) -> Result<(), VerifyErr<SampleErr>> {
        let OpKind::Own(kind) = op.kind(ctx) else {
            return Ok(());
        };
        match kind {
            SampleKind::Add => accept_if(ctx, op, is_sum(ctx, op), SampleErr::NotASum),
            SampleKind::Call => accept_if(ctx, op, callee(ctx, op).is_some(), SampleErr::NoCallee),
            SampleKind::Branch => {
                accept_if(ctx, op, goes_on(ctx, op, 1, 0), SampleErr::WrongBranch)
            }
            SampleKind::CondBranch => {
                accept_if(ctx, op, goes_on(ctx, op, 2, 1), SampleErr::WrongBranch)
            }
            SampleKind::Show | SampleKind::Return => Ok(()),
        }
    }
}

/// Its operations use names, and are private, as builtin ones.
impl SymbolNameKind<SampleSet> for SampleKind {
    ghost use Rattle.plir_symbols.specs.BuiltinNames.{is_marked_private, names_held};

    ghost names_used = { names_held };

    ghost is_private = { is_marked_private };

    fn num_used_names(ctx: &Context<SampleSet>, op: Ptr<Operation>) -> usize {
        num_names_held(ctx, op)
    }

    fn used_names(
        alloc: Global,
        ctx: &Context<SampleSet>,
        op: Ptr<Operation>,
    ) -> Result<Vec<&Identifier>, Memory> {
        names_held(alloc, ctx, op)
    }

    fn is_private(ctx: &Context<SampleSet>, op: Ptr<Operation>) -> bool {
        is_marked_private(ctx, op)
    }
}
