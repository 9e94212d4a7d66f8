//! A dialect of kinds alone: views of values, and names.
use plir_builtin::SymbolTableCollection;
use plir_core::{Context, Operation, Ptr};
use plir_data::{IntegerAttr, OpSet, OwnKind, VerifyErr};
use plir_dialect::{Dialect, NamesAsBuiltin, OwnRules, OwnUses};
use plir_folding::FoldKind;
use plir_passes::EffectKind;
use std::alloc::Global;
use thiserror::Error;

/// The kinds.
#[derive(Clone, Copy, PartialEq, Eq, Debug)]
pub enum ViewKind {
    /// Shows a value.
    Show,
    /// Stands for a value.
    Same,
    /// Names what stands elsewhere.
    Name,
}

/// Why an operation is wrong.
#[derive(Clone, Copy, PartialEq, Eq, Debug, Error)]
pub enum ViewErr {
    /// One that shows a value has not one operand.
    #[error("shows not one value")]
    NotOneValue,
    /// One that names what stands elsewhere has an operand.
    #[error("names with a value")]
    NamesWithValue,
}

/// The dialect.
pub type View = Dialect<ViewKind>;

impl OwnKind for ViewKind {
    ghost use Rattle.std.specs.Prelude.{false};
    ghost use Rattle.plir_dialect_tests.specs.View.{id_of, is_name};

    type Err = ViewErr;

    ghost is_terminator = { λ _. false };

    ghost is_symbol = { λ _. false };

    ghost is_symbol_table = { λ _. false };

    ghost is_symbol_user = { is_name };

    ghost id = { id_of };

    fn is_terminator(self) -> bool {
        false
    }

    fn is_symbol(self) -> bool {
        false
    }

    fn is_symbol_table(self) -> bool {
        false
    }

    fn is_symbol_user(self) -> bool {
        matches!(self, ViewKind::Name)
    }

    fn id(self) -> &'static str {
        match self {
            ViewKind::Show => "view.show",
            ViewKind::Same => "view.same",
            ViewKind::Name => "view.name",
        }
    }
}

impl EffectKind for ViewKind {
    ghost use Rattle.plir_dialect_tests.specs.View.{has_effect as has_effect_of};

    ghost has_effect = { has_effect_of };

    fn has_effect(self) -> bool {
        !matches!(self, ViewKind::Same)
    }
}

impl FoldKind for ViewKind {
    ghost use Rattle.std.specs.Prelude.{None};

    ghost fold = { λ _ _ _. None };

    fn fold(self, _left: &IntegerAttr, _right: &IntegerAttr) -> Option<IntegerAttr> {
        None
    }
}

impl<D: OpSet> OwnUses<D> for ViewKind {
    ghost use Rattle.std.specs.Prelude.{◌≡◌, Some};
    ghost use Rattle.plir_core.specs.ContextView.{location_of};
    ghost use Rattle.plir_dialect_tests.specs.View.{AreUsesRight};

    ghost uses_hold = { AreUsesRight };

    ghost use_refusal = { λ _ s op loc _. location_of s op ≡ Some loc };

    fn verify_symbol_uses(
        self,
        ctx: &Context<D>,
        op: Ptr<Operation>,
        _tables: &mut SymbolTableCollection,
    ) -> Result<(), VerifyErr<ViewErr>> {
        match self {
            ViewKind::Name if op.get_num_operands(ctx) != 0 => Err(VerifyErr::Refused {
                loc: op.loc(ctx),
                err: ViewErr::NamesWithValue,
            }),
            _ => Ok(()),
        }
    }
}

impl NamesAsBuiltin for ViewKind {}

impl<D: OpSet> OwnRules<D> for ViewKind {
    ghost use Rattle.std.specs.Prelude.{◌≡◌, Some};
    ghost use Rattle.plir_core.specs.ContextView.{location_of};
    ghost use Rattle.plir_dialect_tests.specs.View.{IsRight};

    ghost rule = { IsRight };

    ghost rule_refusal = { λ _ s op loc _. location_of s op ≡ Some loc };

    fn verify_op(
        self,
        _alloc: Global,
        ctx: &Context<D>,
        op: Ptr<Operation>,
    ) -> Result<(), VerifyErr<ViewErr>> {
        match self {
            ViewKind::Show if op.get_num_operands(ctx) != 1 => Err(VerifyErr::Refused {
                loc: op.loc(ctx),
                err: ViewErr::NotOneValue,
            }),
            _ => Ok(()),
        }
    }
}
