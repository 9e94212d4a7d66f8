//! Laws of passes.
ghost use Rattle.plir_core.specs.ContextView.{ContextView};
ghost use Rattle.plir_core.specs.WellFormed.{IsWellFormed};
ghost use Rattle.plir_builtin.specs.Table.{Tables};
ghost use Rattle.plir_agreement.specs.Lasts.{ConversionsLast, DeadCodeLasts, SymbolsStay};

use plir_builtin::laws::stayed_tables_agree;
use plir_data::OpSet;
use plir_passes::{Conversion, EffectSet};
use plir_walk::laws::lawful_changes;

/// Tables that agreed agree after dead operations were erased, where no symbol may go: each kind of symbols of the op
/// set has an effect, or ends a block.
pub fn dead_code_keeps_agreement<D: EffectSet>()
    ensures { SymbolsStay D.is_symbol D.has_effect D.is_terminator → (c : Tables)
        (s t : ContextView D.Kind D.Attr D.Ty) → IsWellFormed D.attr_handles s → IsWellFormed D.attr_handles t →
        DeadCodeLasts D.is_symbol D.is_symbol_table c s t D.has_effect D.is_terminator }
{
    lawful_changes::<D>();
    stayed_tables_agree::<D>();
}

/// Tables that agreed agree after a conversion, done or refused, where they do after each call of its `rewrite`.
pub fn conversions_keep_agreement<D: OpSet, C: Conversion<D>>(conversion: &C)
    ensures { (c : Tables) → ConversionsLast D.is_symbol D.is_symbol_table (C.illegal conversion.now)
        (C.rewrites conversion.now) c }
{}
