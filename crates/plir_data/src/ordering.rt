//! Entries of a dictionary to be, in the order of their keys.

ghost use Rattle.std.specs.Prelude.{◌≡◌, IfOk, OnOk};
ghost use Rattle.plir_data.specs.AttrSeen.{attr_view};
ghost use Rattle.plir_data.specs.DictSeen.{pairs_view};
ghost use Rattle.plir_data.specs.Dictionary.{dict_of, dict_put};

use crate::attributes::AttrObj;
use crate::identifier::Identifier;
use crate::memory::Memory;
use crate::op_set::OpSet;
use std::alloc::Global;
use std::collections::BTreeMap;

// Puts an attribute under a key, in place of what was there.
fn put_entry<D: OpSet>(
    map: &mut BTreeMap<Identifier, AttrObj<D>>,
    key: Identifier,
    value: AttrObj<D>,
) -> Result<(), Memory>
    ensures { OnOk result (pairs_view map.new.entries ≡ dict_put (pairs_view map.old.entries) key (attr_view value)) }
{
    let _old = map.insert(key, value)?;
    Ok(())
}

// Entries by their keys; of a key that comes again the last.
fn by_keys<D: OpSet>(
    alloc: Global,
    entries: Vec<(Identifier, AttrObj<D>)>,
) -> Result<BTreeMap<Identifier, AttrObj<D>>, Memory>
    ensures { IfOk result (λ m. pairs_view m.entries ≡ dict_of (pairs_view entries.items)) }
{
    let mut map = BTreeMap::new(alloc);
    'entries: for (key, value) in entries {
        put_entry(&mut map, key, value)?;
    }
    Ok(map)
}

// Entries that make the same dictionary, in ascending order of their keys.
fn sorted<D: OpSet>(
    alloc: Global,
    entries: Vec<(Identifier, AttrObj<D>)>,
) -> Result<Vec<(Identifier, AttrObj<D>)>, Memory>
    ensures { IfOk result (λ es. dict_of (pairs_view es.items) ≡ dict_of (pairs_view entries.items)) }
{
    let map = by_keys(alloc, entries)?;
    let mut sorted = Vec::new(alloc);
    'entries: for entry in map {
        sorted.push(entry)?;
    }
    Ok(sorted)
}

/// Entries that make the same dictionary, in ascending order of their keys; where they ascend already, these. So the
/// dictionary takes each behind those that it has.
pub(crate) fn in_order<D: OpSet>(
    alloc: Global,
    entries: Vec<(Identifier, AttrObj<D>)>,
) -> Result<Vec<(Identifier, AttrObj<D>)>, Memory>
    ensures { IfOk result (λ es. dict_of (pairs_view es.items) ≡ dict_of (pairs_view entries.items)) }
{
    for at in 1..entries.len() {
        if entries[at].0 <= entries[at - 1].0 {
            return sorted(alloc, entries);
        }
    }
    Ok(entries)
}
