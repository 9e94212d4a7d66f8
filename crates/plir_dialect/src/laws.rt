//! Laws of dialects that are joined. Each is called for what it gives, and does nothing.

ghost use Rattle.plir_dialect.specs.Sides.{IdsTellSides, at_side};

use crate::joined::Joining;

/// Things of one id are of one dialect, if they have a meaning at all: so the id in a text tells which of two dialects
/// that are joined it is of.
pub fn ids_tell_sides<J: Joining>()
    ensures kinds { IdsTellSides (at_side J.First.Kinds.id J.Second.Kinds.id) }
    ensures attributes { IdsTellSides (at_side J.First.Attrs.id J.Second.Attrs.id) }
    ensures types { IdsTellSides (at_side J.First.Types.id J.Second.Types.id) }
{}
