//! Names of symbols, keys of attributes, labels.

ghost use Rattle.std.specs.Prelude.{◌≡◌, ◌<◌, ◌↔◌, ◌≢◌, Err, IfOk, OnOk, OnErr, IsOk, IsTrue, true, ◌||◌, Some};
ghost use Rattle.std.specs.Prelude.{length, nat_eq};
ghost use Rattle.plir_data.specs.Identifier.{is_identifier, all_in_identifier, is_letter, is_digit};
ghost use Rattle.plir_data.specs.Inline.{IsInPlace, text_of};

use crate::memory::Memory;
use std::alloc::Global;
use std::cmp::Ordering;
use std::fmt::{self, Debug, Formatter, Write};
use std::hash::{Hash, Hasher};
use std::marker::Model;
use thiserror::Error;

// How many bytes of a text may stand in the identifier itself.
const MOST_INLINE: usize = 22;

// A text: up to 22 bytes by themselves with their number, and more in memory of their own.
#[derive(Drop)]
enum Text {
    Inline(u8, [u8; MOST_INLINE]),
    Apart(Box<String>),
}

/// A name: an ASCII letter or `_`, and then letters, digits and `_`. One of up to 22 characters takes no memory of its
/// own.
pub struct Identifier {
    text: Text,
}

// By hand, so that to let a name go is one call, however its text is held.
impl Drop for Identifier {
    fn drop(self) {
        let Identifier { text: _text } = self;
    }
}

impl Model for Identifier {
    ghost use Rattle.std.specs.Prelude.{◌≡◌, List, ℕ, true};
    ghost use Rattle.plir_data.specs.Identifier.{is_identifier};
    ghost use Rattle.plir_data.specs.Inline.{IsInPlace, text_of};

    ghost Value = { List ℕ };

    ghost view = { λ i. text_of i.text };

    ghost invariant = { λ i. (is_identifier (text_of i.text) ≡ true) × IsInPlace i.text };
}

/// Why a text was not made an identifier.
#[derive(Clone, Copy, PartialEq, Eq, Debug, Error)]
pub enum IdentifierErr {
    /// The text is no identifier.
    #[error("not an identifier: a letter or `_` comes first, then letters, digits and `_`")]
    Malformed,
    /// The copy of the text could not be made.
    #[error("out of memory")]
    Memory,
}

fn is_letter(byte: u8) -> bool
    ensures { result ≡ is_letter byte }
{
    matches!(byte, b'a'..=b'z' | b'A'..=b'Z' | b'_')
}

fn is_in_identifier(byte: u8) -> bool
    ensures { result ≡ (is_letter byte || is_digit byte) }
{
    is_letter(byte) || matches!(byte, b'0'..=b'9')
}

fn are_in_identifier(bytes: &[u8]) -> bool
    ensures { result ≡ all_in_identifier bytes.now }
{
    bytes.iter().all(|&byte| is_in_identifier(byte))
}

/// Whether a text is an identifier.
pub fn is_identifier(text: &str) -> bool
    ensures { result ≡ is_identifier text.now }
{
    match text.as_bytes() {
        [] => false,
        [first, rest @ ..] => is_letter(*first) && are_in_identifier(rest),
    }
}

// The text of a string, in memory of its own.
fn apart(alloc: Global, text: &str) -> Result<Text, Memory>
    requires long { 22 < length text.now }
    ensures text { IfOk result (λ t. text_of t ≡ text.now) }
    ensures held { IfOk result IsInPlace }
{
    let copy = String::from_str(alloc, text)?;
    Ok(Text::Apart(Box::new(alloc, copy)?))
}

// The text of a string, where its length says.
fn copy_of(alloc: Global, text: &str) -> Result<Text, Memory>
    ensures text { IfOk result (λ t. text_of t ≡ text.now) }
    ensures held { IfOk result IsInPlace }
    ensures long { OnErr result (22 < length text.now) }
{
    let bytes = text.as_bytes();
    if bytes.len() > MOST_INLINE {
        return apart(alloc, text);
    }
    let mut inline = [0; MOST_INLINE];
    inline[..bytes.len()].copy_from_slice(bytes);
    Ok(Text::Inline(bytes.len() as u8, inline))
}

impl Identifier {
    /// The identifier of a text; `Malformed` exactly where the text is none, and `Memory` only where it has more than
    /// 22 characters.
    pub fn try_new(alloc: Global, text: &str) -> Result<Identifier, IdentifierErr>
        ensures made { IfOk result (λ i. i ≡ text.now) }
        ensures malformed { (result ≡ Err IdentifierErr.Malformed) ↔ (is_identifier text.now ≢ true) }
        ensures long { result ≡ Err IdentifierErr.Memory → 22 < length text.now }
    {
        if !is_identifier(text) {
            return Err(IdentifierErr::Malformed);
        }
        match copy_of(alloc, text) {
            Ok(text) => Ok(Identifier { text }),
            Err(Memory) => Err(IdentifierErr::Memory),
        }
    }

    /// The characters.
    pub fn as_str(&self) -> &str
        ensures text { result.now ≡ self.now }
        ensures formed { is_identifier self.now ≡ true }
    {
        match &self.text {
            Text::Inline(len, bytes) => unsafe {
                str::from_utf8_unchecked(&bytes[..*len as usize])
            },
            Text::Apart(text) => text.as_str(),
        }
    }

    /// An equal identifier. It is refused only where it has more than 22 characters.
    pub fn try_clone(&self, alloc: Global) -> Result<Identifier, Memory>
        ensures equal { IfOk result (λ i. i ≡ self.now) }
        ensures long { OnErr result (22 < length self.now) }
    {
        match &self.text {
            Text::Inline(len, bytes) => Ok(Identifier {
                text: Text::Inline(*len, *bytes),
            }),
            Text::Apart(text) => Ok(Identifier {
                text: apart(alloc, text.as_str())?,
            }),
        }
    }
}

impl Debug for Identifier {
    fn fmt<W: Write>(&self, f: &mut Formatter<W>) -> fmt::Result {
        f.debug_struct("Identifier")
            .field("text", &self.as_str())
            .finish()
    }
}

impl PartialEq for Identifier {
    ghost use Rattle.std.specs.Prelude.{nat_eq};
    ghost use Rattle.std.specs.Cmp as Cmp;
    ghost use Rattle.std.specs.Cmp.Lexicographic.{pointwise, nat_list_eq_equiv};

    ghost eq = { pointwise nat_eq };

    ghost laws = { Cmp.partial_equiv_from_equiv nat_list_eq_equiv };

    fn eq(&self, other: &Self) -> bool {
        self.as_str() == other.as_str()
    }
}

impl Eq for Identifier {
    ghost use Rattle.std.specs.Cmp.Lexicographic.{nat_list_eq_equiv};

    ghost laws = { nat_list_eq_equiv };
}

impl PartialOrd for Identifier {
    ghost use Rattle.std.specs.Prelude.{Some};
    ghost use Rattle.std.specs.Ordering.{nat_cmp};
    ghost use Rattle.std.specs.Cmp.Lexicographic.{slice_cmp, texts_po};

    ghost partial_cmp = { λ x y. Some (slice_cmp nat_cmp x y) };

    ghost laws = { texts_po };

    fn partial_cmp(&self, other: &Self) -> Option<Ordering> {
        Some(self.cmp(other))
    }
}

impl Ord for Identifier {
    ghost use Rattle.std.specs.Prelude.{refl};
    ghost use Rattle.std.specs.Ordering.{nat_cmp};
    ghost use Rattle.std.specs.Cmp.Lexicographic.{slice_cmp, nat_list_cmp_total, texts_ties};

    ghost cmp = { slice_cmp nat_cmp };

    ghost total = { nat_list_cmp_total };

    ghost matches_partial_cmp = { λ x y. refl };

    ghost matches_eq = { texts_ties };

    fn cmp(&self, other: &Self) -> Ordering {
        self.as_str().cmp(other.as_str())
    }
}

impl Hash for Identifier {
    ghost use Rattle.std.specs.Hash as fed;
    ghost use Rattle.std.specs.Cmp.Rules.{hashing};
    ghost use Rattle.std.proofs.Common.{rules};

    ghost hash_input = { fed.str };

    ghost respects_eq = { Prim.search (hashing, rules) };

    fn hash<H: Hasher>(&self, state: &mut H) {
        self.as_str().hash(state);
    }
}
