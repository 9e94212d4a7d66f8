//! Laws of node calls and of readers.
ghost use Rattle.plir_core.specs.ContextView.{ContextView};
ghost use Rattle.plir_core.specs.WellFormed.{IsWellFormed};
ghost use Rattle.plir_core.specs.declared.ptr.Operation.{Operation as OperationKind};
ghost use Rattle.plir_core.specs.declared.ptr.Ptr.{Ptr as AnyPtr};
ghost use Rattle.plir_builtin.specs.Table.{Tables};
ghost use Rattle.plir_agreement.specs.Lasts.{EditsLast, IsNoSymbol, MovesLast, OthersKeepName, RefusedReadsLast};

use plir_builtin::laws::stayed_tables_agree;
use plir_data::OpSet;
use plir_walk::laws::lawful_changes;

/// Tables that agreed agree after an edit of what an operation holds that leaves its kind and its name as a symbol, as
/// of its operands, its location, or an attribute under another key; after an edit of what a block holds; and where one
/// value has come in place of another. The premises are what the calls say of it, by
/// [`plir_core::laws::op_edits_keep_the_rest`] and [`plir_core::laws::block_edits_keep_the_rest`].
pub fn edits_keep_agreement<D: OpSet>()
    ensures edits { (c : Tables) (s t : ContextView D.Kind D.Attr D.Ty) → IsWellFormed D.attr_handles s →
        IsWellFormed D.attr_handles t → EditsLast D.is_symbol D.is_symbol_table c s t }
    ensures others { OthersKeepName D.Kind D.Attr }
{
    lawful_changes::<D>();
    stayed_tables_agree::<D>();
}

/// Tables that agreed agree after an operation that is no symbol was put into a block, taken out of one, moved, or
/// erased with all below it. The premises are the clauses of the calls.
pub fn moves_keep_agreement<D: OpSet>()
    ensures { (c : Tables) (s t : ContextView D.Kind D.Attr D.Ty) (p : AnyPtr OperationKind) →
        IsWellFormed D.attr_handles s → IsWellFormed D.attr_handles t → IsNoSymbol D.is_symbol s p →
        MovesLast D.is_symbol D.is_symbol_table c s t p }
{
    lawful_changes::<D>();
    stayed_tables_agree::<D>();
}

/// Tables that agreed, and are cached for live operations, agree after a text was refused: what was live is as it was.
/// Of a text that was read [`plir_builtin::laws::new_nodes_keep_agreement`] says the same.
pub fn refused_reads_keep_agreement<D: OpSet>()
    ensures { (c : Tables) (s t : ContextView D.Kind D.Attr D.Ty) → IsWellFormed D.attr_handles s →
        IsWellFormed D.attr_handles t → RefusedReadsLast D.is_symbol D.is_symbol_table c s t }
{
    lawful_changes::<D>();
    stayed_tables_agree::<D>();
}
