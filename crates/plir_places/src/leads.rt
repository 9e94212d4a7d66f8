//! What stands in front of a place in a text, as far as it tells whether an operation begins there.
ghost use Rattle.std.specs.Prelude.{◌≡◌};
ghost use Rattle.plir_places.specs.Leads.{begins_op, is_blank, is_in_name, lead_past, past_close, past_colon};
ghost use Rattle.plir_places.specs.Leads.{past_open, past_other, past_sign, past_word, quoted_past};

// What stands in front of a place in a text, blanks aside.
#[derive(Clone, Copy)]
pub enum Lead {
    // Nothing, or a `;`: an operation comes.
    Due,
    // A `^`.
    Caret,
    // A `^` and a name, or the front of one.
    Label,
    // The front of a block's head, behind its first `(`.
    Head,
    // The same, and its last character is a `)`.
    Closed,
    // The head of a block: an operation comes, if the block has one.
    Behind,
    // The front of a string.
    Quoted,
    // The same, and a `\`.
    Escaped,
    // Anything else.
    Inside,
}

// Whether a byte is white space.
fn is_blank(byte: u8) -> bool
    ensures { result ≡ is_blank byte }
{
    byte == b' ' || byte == b'\t' || byte == b'\n' || byte == b'\r'
}

// Whether a byte may stand in a name.
fn is_in_name(byte: u8) -> bool
    ensures { result ≡ is_in_name byte }
{
    matches!(byte, b'a'..=b'z' | b'A'..=b'Z' | b'0'..=b'9' | b'_')
}

// Whether an operation begins with a byte.
pub fn begins_op(lead: Lead, byte: u8) -> bool
    ensures { result ≡ begins_op lead byte }
{
    match lead {
        Lead::Due => !is_blank(byte),
        Lead::Behind => !is_blank(byte) && byte != b'^' && byte != b'}',
        _ => false,
    }
}

// Behind a `(`.
fn past_open(lead: Lead) -> Lead
    ensures { result ≡ past_open lead }
{
    match lead {
        Lead::Label | Lead::Head | Lead::Closed => Lead::Head,
        _ => Lead::Inside,
    }
}

// Behind a `)`.
fn past_close(lead: Lead) -> Lead
    ensures { result ≡ past_close lead }
{
    match lead {
        Lead::Head | Lead::Closed => Lead::Closed,
        _ => Lead::Inside,
    }
}

// Behind a `:`, which ends a block's head where a `)` stands before it.
fn past_colon(lead: Lead) -> Lead
    ensures { result ≡ past_colon lead }
{
    match lead {
        Lead::Head => Lead::Head,
        Lead::Closed => Lead::Behind,
        _ => Lead::Inside,
    }
}

// Behind a byte of a name.
fn past_word(lead: Lead) -> Lead
    ensures { result ≡ past_word lead }
{
    match lead {
        Lead::Caret | Lead::Label => Lead::Label,
        Lead::Head | Lead::Closed => Lead::Head,
        _ => Lead::Inside,
    }
}

// Behind any other byte.
fn past_other(lead: Lead) -> Lead
    ensures { result ≡ past_other lead }
{
    match lead {
        Lead::Head | Lead::Closed => Lead::Head,
        _ => Lead::Inside,
    }
}

// Behind a byte that is no blank, outside strings.
fn past_sign(lead: Lead, byte: u8) -> Lead
    ensures { result ≡ past_sign lead byte }
{
    if byte == b'"' {
        Lead::Quoted
    } else if byte == b';' {
        Lead::Due
    } else if byte == b'^' {
        Lead::Caret
    } else if byte == b'(' {
        past_open(lead)
    } else if byte == b')' {
        past_close(lead)
    } else if byte == b':' {
        past_colon(lead)
    } else if is_in_name(byte) {
        past_word(lead)
    } else {
        past_other(lead)
    }
}

// Behind a byte of a string.
fn quoted_past(byte: u8) -> Lead
    ensures { result ≡ quoted_past byte }
{
    if byte == b'"' {
        Lead::Inside
    } else if byte == b'\\' {
        Lead::Escaped
    } else {
        Lead::Quoted
    }
}

// What stands in front of the next place, behind a byte.
pub fn lead_past(lead: Lead, byte: u8) -> Lead
    ensures { result ≡ lead_past lead byte }
{
    match lead {
        Lead::Quoted => quoted_past(byte),
        Lead::Escaped => Lead::Quoted,
        _ => {
            if is_blank(byte) {
                lead
            } else {
                past_sign(lead, byte)
            }
        }
    }
}
