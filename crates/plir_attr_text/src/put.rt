//! The parts of a printed text.

ghost use Rattle.std.specs.Prelude.{◌≡◌, ◌<◌, ◌++◌, OnOk, codes, ◌∷◌, []};
ghost use Rattle.std.specs.Fmt.{decimal};
ghost use Rattle.plir_attr_text.specs.AttrGrammar.{truth};
ghost use Rattle.plir_attr_text.specs.Written.{hex_digit, hex, is_control, escape, escape_char, escaped, quotation};
ghost use Rattle.plir_attr_text.specs.Written.{name_or_mark};
ghost use Rattle.plir_data.specs.TextParts.{Puts, parted};

use plir_data::put::{put, put_between};
use plir_data::{
    BoolAttr, GivenNamesAttr, Identifier, IdentifierAttr, Memory, OperandSegmentSizesAttr,
    StringAttr,
};

fn put_truth(out: &mut String, value: bool) -> Result<(), Memory>
    ensures { OnOk result (Puts out.old out.new (truth value)) }
{
    if value {
        put(out, "true")
    } else {
        put(out, "false")
    }
}

fn put_number(out: &mut String, n: u32) -> Result<(), Memory>
    ensures { OnOk result (Puts out.old out.new (decimal n)) }
{
    write!(out, "{n}")?;
    Ok(())
}

// Sizes of segments, with a comma and a space between them.
fn put_sizes(out: &mut String, sizes: &[u32]) -> Result<(), Memory>
    ensures { OnOk result (Puts out.old out.new (parted (codes ", ") decimal sizes.now)) }
{
    let mut is_first = true;
    'sizes: for size in sizes {
        put_between(out, is_first, ", ")?;
        put_number(out, *size)?;
        is_first = false;
    }
    Ok(())
}

// A given name, or `?`.
fn put_name(out: &mut String, name: &Option<Identifier>) -> Result<(), Memory>
    ensures { OnOk result (Puts out.old out.new (name_or_mark name.now)) }
{
    match name {
        Some(name) => put(out, name.as_str()),
        None => put(out, "?"),
    }
}

// Given names, with a comma and a space between them.
fn put_names(out: &mut String, names: &[Option<Identifier>]) -> Result<(), Memory>
    ensures { OnOk result (Puts out.old out.new (parted (codes ", ") name_or_mark names.now)) }
{
    let mut is_first = true;
    'names: for name in names {
        put_between(out, is_first, ", ")?;
        put_name(out, name)?;
        is_first = false;
    }
    Ok(())
}

// A character below 128.
fn put_byte(out: &mut String, byte: u8) -> Result<(), Memory>
    requires { byte < 128 }
    ensures { OnOk result (Puts out.old out.new (byte ∷ [])) }
{
    out.push(char::from(byte))?;
    Ok(())
}

fn hex_digit(n: u8) -> u8
    requires { n < 16 }
    ensures { result ≡ hex_digit n }
{
    if n < 10 { b'0' + n } else { b'a' - 10 + n }
}

// A number in hexadecimal digits, without leading zeros.
fn put_hex(out: &mut String, n: u8) -> Result<(), Memory>
    ensures { OnOk result (Puts out.old out.new (hex n)) }
{
    if n >= 16 {
        put_byte(out, hex_digit(n / 16))?;
        put_byte(out, hex_digit(n % 16))?;
    } else {
        put_byte(out, hex_digit(n))?;
    }
    Ok(())
}

// A control character by its number.
fn put_code(out: &mut String, byte: u8) -> Result<(), Memory>
    ensures { OnOk result (Puts out.old out.new (codes "\\u{" ++ (hex byte ++ codes "}"))) }
{
    put(out, "\\u{")?;
    put_hex(out, byte)?;
    put(out, "}")?;
    Ok(())
}

// A character below 128 of a string.
fn put_escape(out: &mut String, byte: u8) -> Result<(), Memory>
    requires { byte < 128 }
    ensures { OnOk result (Puts out.old out.new (escape byte)) }
{
    if byte == b'"' {
        put(out, "\\\"")
    } else if byte == b'\\' {
        put(out, "\\\\")
    } else if byte == b'\n' {
        put(out, "\\n")
    } else if byte == b'\t' {
        put(out, "\\t")
    } else if byte == b'\r' {
        put(out, "\\r")
    } else if byte == 0 {
        put(out, "\\0")
    } else if byte < 32 || byte == 127 {
        put_code(out, byte)
    } else {
        put_byte(out, byte)
    }
}

// A character of a string.
fn put_char(out: &mut String, c: char) -> Result<(), Memory>
    ensures { OnOk result (Puts out.old out.new (escape_char c)) }
{
    let code = u32::from(c);
    if code < 128 {
        put_escape(out, code as u8)?;
    } else {
        out.push(c)?;
    }
    Ok(())
}

// What stands between the quotes of a string.
fn put_escaped(out: &mut String, text: &str) -> Result<(), Memory>
    ensures { OnOk result (Puts out.old out.new (escaped text.now)) }
{
    'chars: for c in text.chars() {
        put_char(out, c)?;
    }
    Ok(())
}

// A string with its quotes.
fn put_quotation(out: &mut String, text: &str) -> Result<(), Memory>
    ensures { OnOk result (Puts out.old out.new (quotation text.now)) }
{
    put(out, "\"")?;
    put_escaped(out, text)?;
    put(out, "\"")?;
    Ok(())
}

// An identifier as an attribute.
pub fn put_identifier(out: &mut String, value: &IdentifierAttr) -> Result<(), Memory>
    ensures { OnOk result (Puts out.old out.new (codes "builtin.identifier " ++ value.now.0)) }
{
    put(out, "builtin.identifier ")?;
    put(out, value.as_ref().as_str())?;
    Ok(())
}

// A string as an attribute.
pub fn put_string(out: &mut String, value: &StringAttr) -> Result<(), Memory>
    ensures { OnOk result (Puts out.old out.new (codes "builtin.string " ++ quotation value.now)) }
{
    put(out, "builtin.string ")?;
    put_quotation(out, value.as_str())?;
    Ok(())
}

// A truth value as an attribute.
pub fn put_bool(out: &mut String, value: BoolAttr) -> Result<(), Memory>
    ensures { OnOk result (Puts out.old out.new (codes "builtin.bool " ++ truth value.0)) }
{
    put(out, "builtin.bool ")?;
    put_truth(out, bool::from(value))?;
    Ok(())
}

// Sizes of segments as an attribute.
pub fn put_segments(out: &mut String, value: &OperandSegmentSizesAttr) -> Result<(), Memory>
    ensures { OnOk result (Puts out.old out.new (codes "builtin.operand_segment_sizes [" ++
        (parted (codes ", ") decimal value.now ++ codes "]"))) }
{
    put(out, "builtin.operand_segment_sizes [")?;
    put_sizes(out, value.0.as_slice())?;
    put(out, "]")?;
    Ok(())
}

// Given names as an attribute.
pub fn put_given_names(out: &mut String, value: &GivenNamesAttr) -> Result<(), Memory>
    ensures { OnOk result (Puts out.old out.new (codes "builtin.given_names [" ++
        (parted (codes ", ") name_or_mark value.now ++ codes "]"))) }
{
    put(out, "builtin.given_names [")?;
    put_names(out, value.names())?;
    put(out, "]")?;
    Ok(())
}
