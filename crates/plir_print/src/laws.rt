//! Laws of the texts of operations: each function does nothing, and its contract is the law.
ghost use Rattle.plir_core.specs.ContextView.{ContextView};
ghost use Rattle.plir_core.specs.WellFormed.{IsWellFormed};
ghost use Rattle.plir_print.specs.WholeText.{TextsAreWhole};

use plir_core::laws::contexts_stand;
use plir_data::OpSet;

/// The text of an operation leaves out no level: it is what stands before its regions and the texts of all its regions,
/// the text of a region has those of all its blocks, and the text of a block those of all its operations.
///
/// `print_op` tells its text by a word that goes down to some number of levels. Who wants to know that something stands
/// in that text, however deep, goes down by these equations, a level at a time; that a context is whole is told by each
/// call that was handed it, as by `print_op`.
pub fn texts_leave_out_no_level<D: OpSet>()
    ensures { (s : ContextView D.Kind D.Attr D.Ty) → IsWellFormed D.attr_handles s → TextsAreWhole D.OpSet s }
{
    contexts_stand::<D>();
}
