//! Laws of texts.

ghost use Rattle.std.specs.Prelude.{◌≡◌, ℕ, List};
ghost use Rattle.plir_data.specs.{AttrSeen.attr_view, Types.TypeView, Types.IsTypeTable};
ghost use Rattle.plir_attr_text.specs.{AttrReadBack.IsReadBack, Terms.TypeTerm, TypeGrammar.IsText};
ghost use Rattle.plir_attr_text.specs.{TypeGrammar.TypeWithin, Names.Names, TextLaws.IsOfOneAttr, TextLaws.TextStands};

use crate::fault::ReadErr;
use plir_data::laws::dictionary_is_that_of_its_entries;
use plir_data::{AttrObj, OpSet};

/// A text stands for one type at most.
pub fn text_stands_for_one_type()
    ensures { (m n : ℕ) (bytes : List ℕ) (t u : TypeTerm) → IsText (TypeWithin m) bytes t →
        IsText (TypeWithin n) bytes u → t ≡ u }
{}

/// A type that is written is named by one handle of a table at most.
pub fn written_type_has_one_handle<D: OpSet>()
    ensures { (types : List (TypeView D.Ty)) → IsTypeTable D.type_handles types → (t : TypeTerm) (h k : ℕ) →
        Names types h t → Names types k t → h ≡ k }
{}

/// A text stands for one attribute at most.
pub fn text_stands_for_one_attribute<D: OpSet>()
    ensures { IsOfOneAttr D.Attr D.type_handles }
{}

/// The text of an attribute stands for it, with as many levels as it has, also in a table that has grown on.
pub fn text_stands_for_its_attribute<D: OpSet>()
    ensures { TextStands D.attr_id D.attr_text D.type_id D.type_body_text D.type_handles }
{
    dictionary_is_that_of_its_entries::<D>();
}

/// The text of an attribute is read back as an equal one.
///
/// `text` is what `print_attr` answered for `attr`, with a type table `printed`, and `read` is what `read_attr`
/// answered to that text, with a table `old` that types may have come into since; it left the table `new`. So `read` is
/// an attribute equal to `attr`, or memory was refused. `is_writable` and `is_within_levels` are the tests of what is
/// asked of `attr`.
pub fn attr_is_read_back<D: OpSet>(
    attr: &AttrObj<D>,
    text: &str,
    read: &Result<AttrObj<D>, ReadErr>,
)
    ensures { IsReadBack D.attr_id D.attr_text D.type_id D.type_body_text D.attr_handles D.type_handles
        (attr_view attr.now) text.now read.now }
{
    dictionary_is_that_of_its_entries::<D>();
}
