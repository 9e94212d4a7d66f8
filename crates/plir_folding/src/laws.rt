//! What callers of folding may reason with: functions without effect, whose contracts are laws.
ghost use Rattle.plir_core.specs.declared.ptr.IRNode.{IRNode as AnyNode};
ghost use Rattle.plir_core.specs.ContextView.{ContextView};
ghost use Rattle.plir_core.specs.WellFormed.{IsWellFormed};
ghost use Rattle.plir_builtin.specs.Agree.{AreGivenOut};
ghost use Rattle.plir_builtin.specs.Lasting.{StayTables};
ghost use Rattle.plir_builtin.specs.Table.{Tables};
ghost use Rattle.plir_folding.specs.Folded.{IsFolded};
ghost use Rattle.plir_folding.specs.Identities.{ArePassed};
ghost use Rattle.plir_folding.specs.Merged.{IsMerged};

use crate::fold_set::FoldSet;
use crate::identity_set::IdentitySet;
use plir_walk::laws::lawful_changes;

/// Folding leaves each symbol table the table that it was: so a collection that agrees before agrees behind it, by
/// [`plir_builtin::laws::stayed_tables_agree`].
pub fn folding_keeps_tables<D: FoldSet>()
    ensures { (s t : ContextView D.Kind D.Attr D.Ty) (tables : Tables) → IsWellFormed D.attr_handles s →
        IsWellFormed D.attr_handles t → IsFolded D.fold s t → AreGivenOut s tables →
        StayTables D.is_symbol D.is_symbol_table s t tables }
{
    lawful_changes::<D>();
}

/// Merging of constants leaves nothing to be folded where folding of values has left nothing: where no result of an
/// operation below a node was used that stands for another value, none is.
pub fn merging_keeps_passed<D: IdentitySet>()
    ensures { (s t : ContextView D.Kind D.Attr D.Ty) (r n : AnyNode) → IsWellFormed D.attr_handles s → IsMerged s r t →
        ArePassed D.is_identity s n → ArePassed D.is_identity t n }
{
    lawful_changes::<D>();
}
