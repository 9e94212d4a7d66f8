//! Attributes: values that operations and blocks carry under keys. Here those that are lists or dictionaries, and the
//! enum of all.

ghost use Rattle.std.specs.Prelude.{◌≡◌, ℕ, List, [], Option, IfOk, IfSome, OnOk, OnErr, option_map, map};
ghost use Rattle.plir_data.specs.AttrLive.{IsLiveWith};
ghost use Rattle.plir_data.specs.AttrSeen.{attr_view};
ghost use Rattle.plir_data.specs.Dictionary.{dict_get, dict_put, dict_without, dict_of};

use crate::attribute_dict::AttributeDict;
use crate::identifier::Identifier;
use crate::memory::Memory;
use crate::op_set::OpSet;
use crate::ordering::in_order;
use crate::plain_attrs::{BoolAttr, IntegerAttr, TypeAttr, UnitAttr};
use crate::text_attrs::{IdentifierAttr, StringAttr};
use std::alloc::Global;
use std::hash::{Hash, Hasher};
use std::marker::Model;

/// Attributes under keys. How deep attributes may stand in one another is said at [`VecAttr`].
#[cycle(attr)]
#[derive(Drop)]
#[derive_where(Debug)]
pub struct DictAttr<D: OpSet>(pub AttributeDict<D>);

impl<D: OpSet> Model for DictAttr<D> {
    ghost use Rattle.std.specs.Prelude.{List, ℕ, ◌+◌};
    ghost use Rattle.std.proofs.Common.{arith};
    ghost use Rattle.std.specs.Coded.{coded_list, coded×, coded_ℕ};
    ghost use Rattle.plir_data.specs.AttrView.{AttrView};
    ghost use Rattle.plir_data.specs.AttrCode.{attr_code};

    ghost Value = { List (List ℕ × AttrView D.Attr) };

    ghost coded = { coded_list (coded× (coded_list coded_ℕ) (attr_code D.Attr.code)) };

    ghost use Rattle.plir_data.specs.AttrDepth.{entries_bulk};

    ghost view = { λ d. d.0 };

    ghost size = { λ es. entries_bulk es + 1 };

    ghost size_decreases = { λ a h. omega arith };
}

impl<D: OpSet> DictAttr<D> {
    ghost use Rattle.std.specs.Borrow.{sem};
    ghost use Rattle.plir_data.specs.EntryLent.{LendsDictEntry};

    /// The dictionary of these pairs; of a key that comes again the last counts.
    pub fn new(alloc: Global, pairs: Vec<(Identifier, AttrObj<D>)>) -> Result<DictAttr<D>, Memory>
        ensures { IfOk result (λ d. d ≡ dict_of (map (λ p. (p.0, attr_view p.1)) pairs.items)) }
    {
        let mut dict = AttributeDict::new(alloc);
        for (key, value) in in_order(alloc, pairs)? {
            dict.insert(key, value)?;
        }
        Ok(DictAttr(dict))
    }

    /// Puts an attribute under a key, in place of what was there.
    pub fn insert(
        &mut self,
        alloc: Global,
        key: &Identifier,
        value: AttrObj<D>,
    ) -> Result<(), Memory>
        ensures ok { OnOk result (self.new ≡ dict_put self.old key.now (attr_view value)) }
        ensures err { OnErr result (self.new ≡ self.old) }
    {
        let key = key.try_clone(alloc)?;
        self.0.insert(key, value)
    }

    /// Takes the attribute under a key out.
    pub fn remove(&mut self, key: &Identifier)
        ensures { self.new ≡ dict_without self.old key.now }
    {
        let _taken = self.0.remove(key.as_str());
    }

    /// The attribute under a key.
    pub fn lookup(&self, key: &Identifier) -> Option<&AttrObj<D>>
        ensures value { option_map (λ a. attr_view a.now) result ≡ dict_get self.now key.now }
        ensures live { IfSome result (λ a. IsLiveWith D.Ty self.now (attr_view a.now)) }
    {
        self.0.get(key.as_str())
    }

    /// The attribute under a key, to be changed.
    pub fn lookup_mut(&mut self, key: &Identifier) -> Option<&mut AttrObj<D>>
        ensures* writes_back { sem 𝓛 (LendsDictEntry D.row D.Kind.row D.Attr.row D.Ty.row D.Err.row D.OpSet D.Attr.Hash
            D.Attr.Debug D.Ty.Hash D.Ty.Debug D.Err.Debug D.Err.Display self.entry key.now result) }
        ensures value { option_map (λ a. attr_view a.now) result ≡ dict_get self.old key.now }
        ensures live { IfSome result (λ a. IsLiveWith D.Ty self.old (attr_view a.now)) }
    {
        self.0.get_mut(key.as_str())
    }
}

/// A list of attributes.
///
/// Attributes that stand in one another are let go, copied, compared, hashed, printed and verified by calls within
/// calls, so a program's stack bounds their depth: 5,000 levels are safe in a stack of 8 MB, and 20,000 overflow it,
/// which ends the program.
#[cycle(attr)]
#[derive(Drop)]
#[derive_where(Debug)]
pub struct VecAttr<D: OpSet>(pub Vec<AttrObj<D>>);

impl<D: OpSet> Model for VecAttr<D> {
    ghost use Rattle.std.specs.Prelude.{List, map};
    ghost use Rattle.std.proofs.Common.{arith};
    ghost use Rattle.std.specs.Coded.{coded_list};
    ghost use Rattle.plir_data.specs.AttrView.{AttrView};
    ghost use Rattle.plir_data.specs.AttrCode.{attr_code};

    ghost Value = { List (AttrView D.Attr) };

    ghost coded = { coded_list (attr_code D.Attr.code) };

    ghost use Rattle.plir_data.specs.AttrDepth.{items_bulk};
    ghost use Rattle.plir_data.specs.AttrSeen.{attr_view};

    ghost view = { λ v. map attr_view v.0.items };

    ghost size = { items_bulk };

    ghost use Rattle.plir_data.specs.AttrFalls.{deep_le, most_items};

    ghost size_decreases = { λ a h. omega (
      arith,
      most_items _ (deep_le D.OpSet D.Attr.PartialEq D.Attr.Hash D.Attr.Debug D.Ty.PartialEq D.Ty.Hash D.Ty.Debug
          D.Err.Debug D.Err.Display) a.0.items,
    ) };
}

impl<D: OpSet> VecAttr<D> {
    /// The list of these attributes.
    pub fn new(value: Vec<AttrObj<D>>) -> VecAttr<D>
        ensures { result ≡ map attr_view value.items }
    {
        VecAttr(value)
    }
}

/// The sizes of the segments of an operation's operands.
#[derive(Debug, Drop)]
pub struct OperandSegmentSizesAttr(pub Vec<u32>);

impl Model for OperandSegmentSizesAttr {
    ghost use Rattle.std.specs.Prelude.{List, ℕ};

    ghost Value = { List ℕ };

    ghost view = { λ s. s.0.items };
}

impl OperandSegmentSizesAttr {
    /// An equal attribute.
    pub fn try_clone(&self, alloc: Global) -> Result<OperandSegmentSizesAttr, Memory>
        ensures { IfOk result (λ a. a ≡ self.now) }
    {
        Ok(OperandSegmentSizesAttr(self.0.as_slice().to_vec(alloc)?))
    }
}

impl PartialEq for OperandSegmentSizesAttr {
    ghost use Rattle.std.specs.Prelude.{nat_eq};
    ghost use Rattle.std.specs.Cmp as Cmp;
    ghost use Rattle.std.specs.Cmp.Lexicographic.{pointwise, nat_list_eq_equiv};

    ghost eq = { pointwise nat_eq };

    ghost laws = { Cmp.partial_equiv_from_equiv nat_list_eq_equiv };

    fn eq(&self, other: &Self) -> bool {
        self.0.as_slice() == other.0.as_slice()
    }
}

impl Eq for OperandSegmentSizesAttr {
    ghost use Rattle.std.specs.Cmp.Lexicographic.{nat_list_eq_equiv};

    ghost laws = { nat_list_eq_equiv };
}

impl Hash for OperandSegmentSizesAttr {
    ghost use Rattle.std.specs.Hash as fed;
    ghost use Rattle.std.specs.Cmp.Rules.{hashing};
    ghost use Rattle.std.proofs.Common.{rules};

    ghost hash_input = { fed.slice fed.u32 };

    ghost respects_eq = { Prim.search (hashing, rules) };

    fn hash<H: Hasher>(&self, state: &mut H) {
        self.0.as_slice().hash(state);
    }
}

/// The names that were given to an operation's results or a block's arguments; some may be unset.
#[derive(Debug, Drop)]
pub struct GivenNamesAttr {
    names: Vec<Option<Identifier>>,
}

impl Model for GivenNamesAttr {
    ghost use Rattle.std.specs.Prelude.{List, ℕ, Option};

    ghost Value = { List (Option (List ℕ)) };

    ghost view = { λ g. g.names.items };
}

impl GivenNamesAttr {
    ghost use Rattle.std.specs.Borrow.{sem};
    ghost use Rattle.plir_data.specs.NamesLent.{LendsNames};

    /// No names. The list that grows later takes its memory from this allocator.
    pub fn new(alloc: Global) -> GivenNamesAttr
        ensures { result ≡ [] }
    {
        GivenNamesAttr {
            names: Vec::new(alloc),
        }
    }

    /// The attribute of these names.
    pub fn from_names(names: Vec<Option<Identifier>>) -> GivenNamesAttr
        ensures { result ≡ names.items }
    {
        GivenNamesAttr { names }
    }

    /// The names.
    pub fn names(&self) -> &[Option<Identifier>]
        ensures { result.now ≡ self.now }
    {
        self.names.as_slice()
    }

    /// The names, to be changed.
    pub fn names_mut(&mut self) -> &mut Vec<Option<Identifier>>
        ensures* writes_back { sem 𝓛 (LendsNames self.entry result) }
        ensures names { result.now.items ≡ self.old }
    {
        &mut self.names
    }

    /// An equal attribute.
    pub fn try_clone(&self, alloc: Global) -> Result<GivenNamesAttr, Memory>
        ensures { IfOk result (λ a. a ≡ self.now) }
    {
        let mut names = Vec::with_capacity(alloc, self.names.len())?;
        for name in &self.names {
            names.push(copied_name(alloc, name)?)?;
        }
        Ok(GivenNamesAttr { names })
    }
}

fn copied_name(alloc: Global, name: &Option<Identifier>) -> Result<Option<Identifier>, Memory>
    ensures { IfOk result (λ n. n ≡ name.now) }
{
    match name {
        Some(name) => Ok(Some(name.try_clone(alloc)?)),
        None => Ok(None),
    }
}

impl PartialEq for GivenNamesAttr {
    ghost use Rattle.std.specs.Prelude.{nat_eq};
    ghost use Rattle.std.specs.Option.{option_eq};
    ghost use Rattle.std.specs.Cmp.Lexicographic.{pointwise};
    ghost use Rattle.std.specs.Cmp.Rules.{comparing};
    ghost use Rattle.std.proofs.Common.{rules};

    ghost eq = { pointwise (option_eq (pointwise nat_eq)) };

    ghost laws = { Prim.search (comparing, rules) };

    fn eq(&self, other: &Self) -> bool {
        self.names.as_slice() == other.names.as_slice()
    }
}

impl Eq for GivenNamesAttr {
    ghost use Rattle.std.specs.Cmp.Rules.{comparing};
    ghost use Rattle.std.proofs.Common.{rules};

    ghost laws = { Prim.search (comparing, rules) };
}

impl Hash for GivenNamesAttr {
    ghost use Rattle.std.specs.Hash as fed;
    ghost use Rattle.std.proofs.Common.{ap};
    ghost use Rattle.plir_data.specs.AttrLaws.{same_names};

    ghost hash_input = { fed.slice (fed.option fed.str) };

    ghost respects_eq = { λ x y e. ap (fed.slice (fed.option fed.str)) (same_names x y e) };

    fn hash<H: Hasher>(&self, state: &mut H) {
        self.names.as_slice().hash(state);
    }
}

/// An attribute.
///
/// One that holds others at more than 5,000 levels may overflow the stack as it is let go, copied, compared, hashed,
/// printed or verified, as [`VecAttr`] says.
#[cycle(attr)]
#[derive(Drop)]
#[derive_where(Debug)]
pub enum AttrObj<D: OpSet> {
    Identifier(IdentifierAttr),
    String(StringAttr),
    Bool(BoolAttr),
    Integer(IntegerAttr),
    Dict(DictAttr<D>),
    Vec(VecAttr<D>),
    Unit(UnitAttr),
    Type(TypeAttr),
    OperandSegmentSizes(OperandSegmentSizesAttr),
    GivenNames(GivenNamesAttr),
    /// One of the user's own.
    Own(D::Attr),
}
