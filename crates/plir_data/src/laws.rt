//! Laws of dictionaries and types. Each is the contract of a public function.

ghost use Rattle.std.specs.Prelude.{◌≡◌, ◌↔◌, IsTrue, List};
ghost use Rattle.std.specs.List.{fold};
ghost use Rattle.plir_data.specs.AttrHash.{entries_words};
ghost use Rattle.plir_data.specs.AttrView.{AttrView, entries_of};
ghost use Rattle.plir_data.specs.Laws.{OrderIsNotSeen, IsDictOfItself, IsMadeOfTrees, AreLiveByEntries};
ghost use Rattle.plir_data.specs.Laws.{AreLiveByItems};
ghost use Rattle.plir_data.specs.Types.{TypeView, IsTypeTable};

use crate::attributes::DictAttr;
use crate::op_set::OpSet;
use std::hash::{Hash, Hasher};

/// The order in which pairs of different keys are put isn't seen in the dictionary.
pub fn order_of_insertion_is_not_seen<V>()
    ensures { OrderIsNotSeen V }
{}

/// Dictionaries are equal exactly if they have the same entries, and equal ones hash alike: each
/// hasher is fed the entries of its dictionary, and where these are equal and the hashers begin
/// alike, they end alike.
pub fn equal_dictionaries_hash_alike<D: OpSet, H: Hasher>(
    one: &DictAttr<D>,
    other: &DictAttr<D>,
    first: &mut H,
    second: &mut H,
) -> bool
    ensures equal { IsTrue result ↔ (one.now ≡ other.now) }
    ensures alike { IsTrue result → first.old ≡ second.old → first.new ≡ second.new }
    ensures one_fed { first.new ≡ fold H.write first.old (entries_words D.Attr.hash_input (entries_of one.now)) }
    ensures other_fed { second.new ≡ fold H.write second.old (entries_words D.Attr.hash_input (entries_of other.now)) }
{
    one.hash(first);
    other.hash(second);
    one == other
}

/// A dictionary of attributes is that of its own entries, put one after the other.
pub fn dictionary_is_that_of_its_entries<D: OpSet>()
    ensures { IsDictOfItself (AttrView D.Attr) }
{}

/// A dictionary is live as an attribute exactly where the attributes in it are: one wants it where a dictionary that is
/// tested as a part of an attribute is handed to what asks its entries, or the other way round.
pub fn dictionaries_are_live_by_their_entries<D: OpSet>()
    ensures { (types : List (TypeView D.Ty)) → AreLiveByEntries D.attr_handles types }
{}

/// A list is live as an attribute exactly where the attributes in it are: one wants it at what is taken out of a list.
pub fn lists_are_live_by_their_items<D: OpSet>()
    ensures { (types : List (TypeView D.Ty)) → AreLiveByItems D.attr_handles types }
{}

/// The tree of a handle is that of its type, over the trees of the handles that the type holds.
pub fn tree_of_a_handle<D: OpSet>()
    ensures { (types : List (TypeView D.Ty)) → IsTypeTable D.type_handles types → IsMadeOfTrees types }
{}
