//! The parts that printed texts share, for the texts of your own types and attributes too. Each puts something
//! behind what is there. Where memory is refused, the text is as it was.

ghost use Rattle.std.specs.Prelude.{◌≡◌, OnErr, OnOk, string_bytes};
ghost use Rattle.plir_data.specs.TextParts.{Puts, before};
ghost use Rattle.plir_data.specs.TypeText.{integer_text, letters};

use crate::ap_int::put_decimal;
use crate::memory::Memory;
use crate::types::{IntegerType, Signedness};

/// Puts a text.
pub fn put(out: &mut String, text: &str) -> Result<(), Memory>
    ensures ok { OnOk result (Puts out.old out.new text.now) }
    ensures err { OnErr result (string_bytes out.new ≡ string_bytes out.old) }
{
    out.push_str(text)?;
    Ok(())
}

/// Puts what stands between things, as a comma and a space, before all but the first.
pub fn put_between(out: &mut String, is_first: bool, between: &str) -> Result<(), Memory>
    ensures ok { OnOk result (Puts out.old out.new (before is_first between.now)) }
    ensures err { OnErr result (string_bytes out.new ≡ string_bytes out.old) }
{
    if is_first { Ok(()) } else { put(out, between) }
}

/// Puts an integer type without its id, as `si32`.
pub fn put_integer_text(out: &mut String, ty: &IntegerType) -> Result<(), Memory>
    ensures ok { OnOk result (Puts out.old out.new (integer_text ty.now.signedness ty.now.width)) }
    ensures err { OnErr result (string_bytes out.new ≡ string_bytes out.old) }
{
    let mut whole = String::new(*out.allocator());
    put(&mut whole, letters_of(ty.signedness()))?;
    put_decimal(&mut whole, u128::from(ty.width()))?;
    put(out, &whole)
}

// What stands before the width of an integer type.
fn letters_of(signedness: Signedness) -> &'static str
    ensures { result.now ≡ letters signedness }
{
    match signedness {
        Signedness::Signed => "si",
        Signedness::Unsigned => "ui",
        Signedness::Signless => "i",
    }
}
