//! Where a fault stands.

ghost use Rattle.std.specs.Prelude.{◌≡◌, ◌⊎◌};
ghost use Rattle.plir_attr_text.specs.declared.fault.Stop.TheVariants.{OutOfMemory, Crowded};
ghost use Rattle.plir_attr_text.specs.{Reading.Gives, Reading.Reads, Reading.IsAnswerOf, Reading.fault_of};
ghost use Rattle.plir_attr_text.specs.{Wholes.end_at};

use crate::fault::{Fault, ReadErr, Stop};
use crate::tokens::past_blank;

// The end of the text, behind white space.
#[tactic(auto, unfolding(crate::specs::Wholes::end_at))]
pub fn read_end(bytes: &[u8]) -> Result<(), Stop>
    ensures { Gives (λ u. u) result (end_at bytes.now) }
{
    let rest = past_blank(bytes);
    if !rest.is_empty() {
        return Err(Stop::At(Fault::Unexpected, rest.len()));
    }
    Ok(())
}

// What was read, where only white space stands behind it.
pub fn ended<T: Drop>(read: T, rest: &[u8]) -> Result<T, Stop>
    ensures { Reads (λ x u. x ≡ read) result (end_at rest.now) }
{
    read_end(rest)?;
    Ok(read)
}

// A fault that is none of the text.
fn nowhere(fault: Fault) -> ReadErr
    ensures { result ≡ record { line = 0; column = 0; fault = fault } }
{
    ReadErr {
        line: 0,
        column: 0,
        fault,
    }
}

// Why a text was not read, and where.
pub fn placed(bytes: &[u8], stop: Stop) -> ReadErr
    ensures fault { result.fault ≡ fault_of stop }
    ensures nowhere { (stop ≡ OutOfMemory) ⊎ (stop ≡ Crowded) → (result.line ≡ 0) × (result.column ≡ 0) }
{
    match stop {
        Stop::OutOfMemory => nowhere(Fault::Memory),
        Stop::Crowded => nowhere(Fault::TooManyNodes),
        Stop::At(fault, left) => {
            let (line, column) = place(&bytes[..bytes.len() - left.min(bytes.len())]);
            ReadErr {
                line,
                column,
                fault,
            }
        }
    }
}

// What was read, or why it was not, and where.
pub fn with_place<T>(bytes: &[u8], read: Result<T, Stop>) -> Result<T, ReadErr>
    ensures { IsAnswerOf read result }
{
    match read {
        Ok(read) => Ok(read),
        Err(stop) => Err(placed(bytes, stop)),
    }
}

// The line and the column behind these bytes.
fn place(before: &[u8]) -> (usize, usize) {
    let mut line = 1;
    let mut column = 1;
    for byte in before {
        if *byte == b'\n' {
            line += 1;
            column = 1;
        } else if *byte < 128 || *byte >= 192 {
            column += 1;
        }
    }
    (line, column)
}
