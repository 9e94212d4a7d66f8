//! Laws of pictures: each function does nothing, and its contract is the law.
ghost use Rattle.plir_core.specs.ContextView.{ContextView};
ghost use Rattle.plir_core.specs.WellFormed.{IsWellFormed};
ghost use Rattle.plir_pictures.specs.Nested.{IsNestedWhole};

use plir_core::laws::contexts_stand;
use plir_data::OpSet;

/// A picture leaves out no level: what is drawn of a node is what opens it, what is drawn of all its children, and what
/// closes it.
///
/// [`draw`](crate::draw) and [`draw_calls`](crate::draw_calls) tell their texts by a word that goes down to some number
/// of levels. Who wants to know that something is drawn, however deep, goes down by this equation, a level at a time.
pub fn pictures_leave_out_no_level<D: OpSet>()
    ensures { (s : ContextView D.Kind D.Attr D.Ty) → IsWellFormed D.attr_handles s → IsNestedWhole s }
{
    contexts_stand::<D>();
}
