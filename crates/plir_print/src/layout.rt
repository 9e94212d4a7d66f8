//! New lines, and how far in they begin.
ghost use Rattle.std.specs.Prelude.{◌*◌, OnOk, replicate};
ghost use Rattle.plir_data.specs.TextParts.{Puts};
ghost use Rattle.plir_print.specs.OpText.{line};

use plir_data::Memory;
use plir_data::put::put;

// Puts so many times 64 spaces.
fn put_wide_spaces(out: &mut String, times: usize) -> Result<(), Memory>
    ensures { OnOk result (Puts out.old out.new (replicate (64 * times) 32)) }
{
    'times: for _time in 0..times {
        put(
            out,
            "                                                                ",
        )?;
    }
    Ok(())
}

/// Puts a new line, as far in as so many columns.
pub(crate) fn put_line(out: &mut String, columns: usize) -> Result<(), Memory>
    ensures { OnOk result (Puts out.old out.new (line columns)) }
{
    put(out, "\n")?;
    put_wide_spaces(out, columns / 64)?;
    'columns: for _column in 0..columns % 64 {
        put(out, " ")?;
    }
    Ok(())
}
