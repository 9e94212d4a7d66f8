//! Texts as labels have them: HTML, in which some characters are written by marks.
ghost use Rattle.std.specs.Prelude.{◌≡◌, ◌<◌, OnOk};
ghost use Rattle.plir_data.specs.TextParts.{Puts};
ghost use Rattle.plir_pictures.specs.Labels.{label_text, mark_of, mark_of_char};

use plir_data::Memory;
use plir_data::put::put;

// Puts a character below 128.
fn put_mark(out: &mut String, byte: u8) -> Result<(), Memory>
    requires { byte < 128 }
    ensures { OnOk result (Puts out.old out.new (mark_of byte)) }
{
    if byte == b'&' {
        put(out, "&amp;")
    } else if byte == b'<' {
        put(out, "&lt;")
    } else if byte == b'>' {
        put(out, "&gt;")
    } else if byte == b'\n' {
        put(out, "<br/>")
    } else {
        out.push(char::from(byte))?;
        Ok(())
    }
}

// Puts a character.
fn put_char(out: &mut String, c: char) -> Result<(), Memory>
    ensures { OnOk result (Puts out.old out.new (mark_of_char c)) }
{
    let code = u32::from(c);
    if code < 128 {
        put_mark(out, code as u8)?;
    } else {
        out.push(c)?;
    }
    Ok(())
}

/// Puts a text as a label has it.
pub(crate) fn put_label(out: &mut String, text: &str) -> Result<(), Memory>
    ensures { OnOk result (Puts out.old out.new (label_text text.now)) }
{
    'chars: for c in text.chars() {
        put_char(out, c)?;
    }
    Ok(())
}
