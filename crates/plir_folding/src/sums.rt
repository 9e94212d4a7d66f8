//! Sums of integers.
ghost use Rattle.std.specs.Prelude.{◌≡◌, option_map};
ghost use Rattle.plir_folding.specs.Worth.{integer_of};
ghost use Rattle.plir_folding.specs.Sums.{is_zero, wrapping_sum};

use plir_data::{APInt, IntegerAttr};

/// What an operation that adds makes of two integers: their sum modulo two to the width, where they are of one type and
/// one width; none, where their types or widths differ. Takes no memory.
pub fn wrapping_sum(left: &IntegerAttr, right: &IntegerAttr) -> Option<IntegerAttr>
    ensures { option_map integer_of result ≡ wrapping_sum (integer_of left.now) (integer_of right.now) }
{
    let (one, other) = (left.value(), right.value());
    if left.get_type() != right.get_type() || one.bw() != other.bw() {
        return None;
    }
    let sum = one.to_u64().wrapping_add(other.to_u64());
    let value = APInt::from_u64(sum, one.bw()).unwrap();
    Some(IntegerAttr::new(left.get_type(), value))
}

/// Whether an integer is 0: what it is added to, or subtracted from, stays the same.
pub fn is_zero(integer: &IntegerAttr) -> bool
    ensures { result ≡ is_zero (integer_of integer.now) }
{
    integer.value().to_u64() == 0
}
