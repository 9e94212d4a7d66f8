//! Attributes that are texts.

ghost use Rattle.std.specs.Prelude.{◌≡◌, IfOk, string_bytes};

use crate::identifier::Identifier;
use crate::memory::Memory;
use std::alloc::Global;
use std::convert::AsStr;
use std::hash::{Hash, Hasher};
use std::marker::Model;

/// A name.
#[derive(PartialEq, Eq, Hash, Debug, Drop)]
pub struct IdentifierAttr(Identifier);

impl IdentifierAttr {
    /// The attribute of an identifier.
    pub fn new(value: Identifier) -> IdentifierAttr
        ensures { result.0 ≡ value }
    {
        IdentifierAttr(value)
    }

    /// An equal attribute.
    pub fn try_clone(&self, alloc: Global) -> Result<IdentifierAttr, Memory>
        ensures { IfOk result (λ a. a ≡ self.now) }
    {
        Ok(IdentifierAttr(self.0.try_clone(alloc)?))
    }
}

impl AsRef<Identifier> for IdentifierAttr {
    fn as_ref(&self) -> &Identifier
        ensures { result.now ≡ self.now.0 }
    {
        &self.0
    }
}

impl From<Identifier> for IdentifierAttr {
    ghost from_gives = { λ i a. a.0 ≡ i };

    fn from(value: Identifier) -> IdentifierAttr {
        IdentifierAttr(value)
    }
}

impl From<IdentifierAttr> for Identifier {
    ghost from_gives = { λ a i. i ≡ a.0 };

    fn from(value: IdentifierAttr) -> Identifier {
        value.0
    }
}

/// A text.
#[derive(Debug, Drop)]
pub struct StringAttr(String);

impl Model for StringAttr {
    ghost use Rattle.std.specs.Prelude.{List, ℕ, string_bytes};

    ghost Value = { List ℕ };

    ghost view = { λ s. string_bytes s.0 };
}

impl StringAttr {
    /// The attribute of a text.
    pub fn new(value: String) -> StringAttr
        ensures { result ≡ string_bytes value }
    {
        StringAttr(value)
    }

    /// The attribute of a text, which is copied.
    pub fn try_from_str(alloc: Global, value: &str) -> Result<StringAttr, Memory>
        ensures { IfOk result (λ a. a ≡ value.now) }
    {
        Ok(StringAttr(String::from_str(alloc, value)?))
    }

    /// The text.
    pub fn as_str(&self) -> &str
        ensures { result.now ≡ self.now }
    {
        self.0.as_str()
    }

    /// An equal attribute.
    pub fn try_clone(&self, alloc: Global) -> Result<StringAttr, Memory>
        ensures { IfOk result (λ a. a ≡ self.now) }
    {
        StringAttr::try_from_str(alloc, self.0.as_str())
    }
}

impl AsStr for StringAttr {
    ghost text = { λ a. a };

    fn as_str(&self) -> &str {
        self.0.as_str()
    }
}

impl From<String> for StringAttr {
    ghost from_gives = { λ s a. a ≡ string_bytes s };

    fn from(value: String) -> StringAttr {
        StringAttr(value)
    }
}

impl From<StringAttr> for String {
    ghost from_gives = { λ a s. string_bytes s ≡ a };

    fn from(value: StringAttr) -> String {
        value.0
    }
}

impl PartialEq for StringAttr {
    ghost use Rattle.std.specs.Prelude.{nat_eq};
    ghost use Rattle.std.specs.Cmp as Cmp;
    ghost use Rattle.std.specs.Cmp.Lexicographic.{pointwise, nat_list_eq_equiv};

    ghost eq = { pointwise nat_eq };

    ghost laws = { Cmp.partial_equiv_from_equiv nat_list_eq_equiv };

    fn eq(&self, other: &Self) -> bool {
        self.0.as_str() == other.0.as_str()
    }
}

impl Eq for StringAttr {
    ghost use Rattle.std.specs.Cmp.Lexicographic.{nat_list_eq_equiv};

    ghost laws = { nat_list_eq_equiv };
}

impl Hash for StringAttr {
    ghost use Rattle.std.specs.Hash as fed;
    ghost use Rattle.std.specs.Cmp.Rules.{hashing};
    ghost use Rattle.std.proofs.Common.{rules};

    ghost hash_input = { fed.str };

    ghost respects_eq = { Prim.search (hashing, rules) };

    fn hash<H: Hasher>(&self, state: &mut H) {
        self.0.as_str().hash(state);
    }
}
