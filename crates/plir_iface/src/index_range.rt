//! Ranges of indices in a list, of which the last may be counted from its end.
ghost use Rattle.plir_iface.specs.IndexRange.{IsIndexRange};

/// What a range of indices is in a list of some length.
#[derive(Clone, Copy, PartialEq, Eq, Debug)]
pub enum IndexRange {
    /// The indices from `start` to `end`, both of them in it.
    Range { start: usize, end: usize },
    /// No index.
    Empty,
    /// The list is too short: so many entities are needed.
    TooFewEntities(usize),
}

/// The range of indices from `m` to `n` in a list of `len` entities. A negative `n` counts from the end of the list: -1
/// is its last entity.
pub fn resolve_index_range(m: u32, n: i32, len: usize) -> IndexRange
    ensures { IsIndexRange m n len result }
{
    let end = if n >= 0 {
        let end = n.unsigned_abs() as usize;
        if len <= end {
            return IndexRange::TooFewEntities(end + 1);
        }
        end
    } else {
        let from_end = n.unsigned_abs() as usize;
        if from_end > len {
            return IndexRange::Empty;
        }
        len - from_end
    };
    let start = m as usize;
    if start > end {
        return IndexRange::Empty;
    }
    IndexRange::Range { start, end }
}
