//! Places in a source text, and the refusals of verifiers.
ghost use Rattle.std.specs.Prelude.{◌≡◌};
ghost use Rattle.plir_data.specs.CallSites.{inlined_at, place_of};

use crate::memory::Memory;
use std::error::Error as StdError;
use thiserror::Error;

/// Where something stands in a source text.
#[derive(Clone, Copy, PartialEq, Eq, Hash, Debug)]
pub enum Location {
    /// No place is known.
    Unknown,
    /// A place in a text, both numbers counted from 1.
    SrcPos {
        line: u32,
        column: u32,
    },
    /// A place in a text, of which a copy stands in place of a call, and the place of that call.
    CallSite {
        line: u32,
        column: u32,
        call_line: u32,
        call_column: u32,
    },
}

impl Location {
    // Where something was written, as line and column, if that is known.
    fn place(self) -> Option<(u32, u32)>
        ensures { result ≡ place_of self }
    {
        match self {
            Location::Unknown => None,
            Location::SrcPos { line, column } => Some((line, column)),
            Location::CallSite { line, column, .. } => Some((line, column)),
        }
    }

    /// The location of a copy of what is here, where the copy stands in place of a call: the place at which it was
    /// written, and that at which the call was written. Where either is not known, the location as it is.
    pub fn inlined_at(self, call: Location) -> Location
        ensures { result ≡ inlined_at self call }
    {
        match (self.place(), call.place()) {
            (Some((line, column)), Some((call_line, call_column))) => {
                Location::CallSite {
                    line,
                    column,
                    call_line,
                    call_column,
                }
            }
            _ => self,
        }
    }
}

/// Why a verifier did not accept.
#[derive(PartialEq, Eq, Drop, Debug, Error)]
#[error_bound(E: StdError)]
pub enum VerifyErr<E> {
    /// A rule is broken: where, and which. The text is that of the rule's own error.
    #[error("{err}")]
    Refused { loc: Location, err: E },
    /// The text of the refusal could not be made.
    #[error("out of memory")]
    Memory,
}

impl<E> From<Memory> for VerifyErr<E> {
    ghost use Rattle.std.specs.Prelude.{◌≡◌};
    ghost use Rattle.plir_data.specs.declared.location.VerifyErr.TheVariants as Variants;

    ghost from_gives = { λ _ e. e ≡ Variants.Memory };

    fn from(_refused: Memory) -> VerifyErr<E> {
        VerifyErr::Memory
    }
}
