//! Attributes under keys.

ghost use Rattle.std.specs.Prelude.{◌≡◌, ◌↔◌, ℕ, List, [], Option, Some, None, OnOk, OnErr, IfOk, IfErr, IfSome};
ghost use Rattle.std.specs.Prelude.{IsTrue, length, option_map};
ghost use Rattle.plir_data.specs.AttrLive.{IsLiveWith};
ghost use Rattle.plir_data.specs.AttrSeen.{attr_view};
ghost use Rattle.plir_data.specs.DictSeen.{pairs_view};
ghost use Rattle.plir_data.specs.Dictionary.{dict_get, dict_put, dict_without, IsDictionary};

use crate::attributes::AttrObj;
use crate::entries::Entries;
use crate::identifier::Identifier;
use crate::memory::Memory;
use crate::op_set::OpSet;
use crate::places::{insert_at, place_of, put_at};
use std::alloc::Global;
use std::marker::Model;

/// Attributes under keys, in ascending order of the keys' bytes.
#[cycle(attr)]
#[derive(Drop)]
#[derive_where(Debug)]
pub struct AttributeDict<D: OpSet> {
    pub(crate) entries: Vec<(Identifier, AttrObj<D>)>,
}

impl<D: OpSet> Model for AttributeDict<D> {
    ghost use Rattle.std.specs.Prelude.{List, ℕ, map};
    ghost use Rattle.std.proofs.Common.{arith};
    ghost use Rattle.std.specs.Coded.{coded_list, coded×, coded_ℕ};
    ghost use Rattle.plir_data.specs.AttrView.{AttrView};
    ghost use Rattle.plir_data.specs.AttrCode.{attr_code};

    ghost Value = { List (List ℕ × AttrView D.Attr) };

    ghost coded = { coded_list (coded× (coded_list coded_ℕ) (attr_code D.Attr.code)) };

    ghost use Rattle.plir_data.specs.AttrDepth.{entries_bulk};
    ghost use Rattle.plir_data.specs.DictSeen.{pairs_view};
    ghost use Rattle.plir_data.specs.Dictionary.{IsDictionary};

    ghost view = { λ d. pairs_view d.entries.items };

    ghost invariant = { λ d. IsDictionary (pairs_view d.entries.items) };

    ghost size = { entries_bulk };

    ghost use Rattle.plir_data.specs.AttrFalls.{deep_le, entries_weight};

    ghost size_decreases = { λ a h. omega (
      arith,
      entries_weight _ (deep_le D.OpSet D.Attr.PartialEq D.Attr.Hash D.Attr.Debug D.Ty.PartialEq D.Ty.Hash D.Ty.Debug
          D.Err.Debug D.Err.Display) a.entries,
    ) };
}

impl<D: OpSet> AttributeDict<D> {
    ghost use Rattle.std.specs.Borrow.{sem};
    ghost use Rattle.plir_data.specs.EntryLent.{LendsEntry};

    /// No attributes.
    pub fn new(alloc: Global) -> AttributeDict<D>
        ensures { result ≡ [] }
    {
        AttributeDict {
            entries: Vec::new(alloc),
        }
    }

    /// The number of attributes.
    pub fn len(&self) -> usize
        ensures { result ≡ length self.now }
    {
        self.entries.len()
    }

    /// Whether there are no attributes.
    pub fn is_empty(&self) -> bool
        ensures { IsTrue result ↔ (self.now ≡ []) }
    {
        self.entries.is_empty()
    }

    /// The attribute under a key.
    pub fn get(&self, key: &str) -> Option<&AttrObj<D>>
        ensures value { option_map (λ a. attr_view a.now) result ≡ dict_get self.now key.now }
        ensures live { IfSome result (λ a. IsLiveWith D.Ty self.now (attr_view a.now)) }
    {
        match place_of(&self.entries, key) {
            Ok(at) => Some(&self.entries[at].1),
            Err(_) => None,
        }
    }

    /// The attribute under a key, to be changed.
    pub fn get_mut(&mut self, key: &str) -> Option<&mut AttrObj<D>>
        ensures* writes_back { sem 𝓛 (LendsEntry D.row D.Kind.row D.Attr.row D.Ty.row D.Err.row D.OpSet D.Attr.Hash
            D.Attr.Debug D.Ty.Hash D.Ty.Debug D.Err.Debug D.Err.Display self.entry key.now result) }
        ensures value { option_map (λ a. attr_view a.now) result ≡ dict_get self.old key.now }
        ensures live { IfSome result (λ a. IsLiveWith D.Ty self.old (attr_view a.now)) }
    {
        let at = match place_of(&self.entries, key) {
            Ok(at) => at,
            Err(_) => return None,
        };
        let entry = self.entries.get_mut(at)?;
        Some(&mut entry.1)
    }

    /// Puts an attribute under a key, in place of what was there.
    pub fn insert(&mut self, key: Identifier, value: AttrObj<D>) -> Result<(), Memory>
        ensures ok { OnOk result (self.new ≡ dict_put self.old key (attr_view value)) }
        ensures err { OnErr result (self.new ≡ self.old) }
    {
        match place_of(&self.entries, key.as_str()) {
            Ok(at) => {
                let _old = put_at(&mut self.entries, at, value);
                Ok(())
            }
            Err(at) => insert_at(&mut self.entries, at, key, value),
        }
    }

    /// Puts an attribute in place of the one under a key, and answers that one. Where there is none, the new one comes
    /// back and nothing has changed.
    pub fn replace(&mut self, key: &str, value: AttrObj<D>) -> Result<AttrObj<D>, AttrObj<D>>
        ensures found { IfOk result (λ a. dict_get self.old key.now ≡ Some (attr_view a)) }
        ensures put { OnOk result (self.new ≡ dict_put self.old key.now (attr_view value)) }
        ensures absent { OnErr result (dict_get self.old key.now ≡ None) }
        ensures handed_back { IfErr result (λ a. a ≡ value) }
        ensures same { OnErr result (self.new ≡ self.old) }
        ensures live { IfOk result (λ a. IsLiveWith D.Ty self.old (attr_view a)) }
    {
        match place_of(&self.entries, key) {
            Ok(at) => Ok(put_at(&mut self.entries, at, value)),
            Err(_) => Err(value),
        }
    }

    /// Takes the attribute under a key out.
    pub fn remove(&mut self, key: &str) -> Option<AttrObj<D>>
        ensures taken { option_map (λ a. attr_view a) result ≡ dict_get self.old key.now }
        ensures left { self.new ≡ dict_without self.old key.now }
        ensures live { IfSome result (λ a. IsLiveWith D.Ty self.old (attr_view a)) }
    {
        match place_of(&self.entries, key) {
            Ok(at) => Some(self.entries.remove(at).1),
            Err(_) => None,
        }
    }

    /// The keys with their attributes, in ascending order of the keys' bytes.
    pub fn iter(&self) -> Entries<'_, D>
        ensures entries { pairs_view result ≡ self.now }
        ensures whole { IsDictionary self.now }
    {
        Entries {
            left: &self.entries,
        }
    }
}
