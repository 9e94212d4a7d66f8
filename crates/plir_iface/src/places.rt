//! Indices of a list that a rule is about.
ghost use Rattle.std.specs.Prelude.{◌≡◌, IfOk, IfErr};
ghost use Rattle.plir_iface.specs.Places.{IsCountable, IsSpan, NeedsMore, signed};

use crate::index_range::{IndexRange, resolve_index_range};

/// Indices of a list, from 0.
#[derive(Clone, Copy)]
pub enum Places {
    /// One index.
    At(usize),
    /// The indices from the first to the last, which is counted from the list's end if it is negative.
    Within(u32, i32),
}

/// The indices from `start` on and before `end`.
#[derive(Clone, Copy)]
pub struct Span {
    pub start: usize,
    pub end: usize,
}

impl Places {
    /// The indices from `m` to the one that `n` stands for, as the signed number of its 32 bits.
    pub(crate) fn within(m: u32, n: u32) -> Places
        ensures { result ≡ Places.Within m (signed n) }
    {
        Places::Within(m, n.cast_signed())
    }

    /// These indices in a list of `len` entities, or how many entities are needed, if that is more than `len`.
    pub(crate) fn resolve(self, len: usize) -> Result<Span, usize>
        requires { IsCountable self }
        ensures ok { IfOk result (IsSpan self len) }
        ensures err { IfErr result (NeedsMore self len) }
    {
        match self {
            Places::At(n) => {
                if len <= n {
                    return Err(n + 1);
                }
                Ok(Span {
                    start: n,
                    end: n + 1,
                })
            }
            Places::Within(m, n) => match resolve_index_range(m, n, len) {
                IndexRange::TooFewEntities(needed) => Err(needed),
                IndexRange::Empty => Ok(Span { start: 0, end: 0 }),
                IndexRange::Range { start, end } => Ok(Span {
                    start,
                    end: end + 1,
                }),
            },
        }
    }
}
