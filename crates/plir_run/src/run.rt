//! A script from a reader to a writer.
ghost use Rattle.plir_run.specs.Agreement.{TablesAgree};

use crate::lines::Lines;
use crate::script::Script;
use crate::stop::Stop;
use plir_data::{BuiltinSet, OpSet};
use std::alloc::Global;
use std::io::{self, BufReader, BufWriter, Read, Write};

/// The status of a script that was run to its end.
const DONE: u8 = 0;

/// The status of a script that stopped before its end.
const STOPPED: u8 = 1;

/// Runs the script that a reader gives, a command a line, and writes what the commands print.
///
/// Answers 0 where all lines were carried out. Else the status is 1, and the last line that is written says why:
/// `line K: refused` for a line that is no command, or that can't be done; `line K: out of memory`, where K is 0 before
/// a line is read; `read failed`. Where the writer fails nothing more is written.
pub fn run_script<R: Read + Drop, W: Write + Drop>(alloc: Global, reader: R, mut writer: W) -> u8 {
    let Ok(mut lines) = open_lines(alloc, reader) else {
        return report(&mut writer, Stop::OutOfMemory, 0);
    };
    let Ok(mut buffered) = BufWriter::new(alloc, &mut writer) else {
        return report(&mut writer, Stop::OutOfMemory, 0);
    };
    let mut script = Script::new(alloc);
    let end = run_lines(&mut script, &mut lines, &mut buffered);
    let status = match end {
        Ok(()) => DONE,
        Err(stop) => report(&mut buffered, stop, lines.number()),
    };
    match buffered.flush() {
        Ok(()) => status,
        Err(_) => STOPPED,
    }
}

fn open_lines<R: Read + Drop>(alloc: Global, reader: R) -> io::Result<Lines<BufReader<R>>> {
    let reader = BufReader::new(alloc, reader)?;
    Ok(Lines::new(alloc, reader)?)
}

// The reader is asked for more lines as long as there are any.
fn run_lines<R: Read + Drop, W: Write>(
    script: &mut Script,
    lines: &mut Lines<R>,
    writer: &mut W,
) -> Result<(), Stop>
    requires agree { TablesAgree ⟦<BuiltinSet as OpSet>⟧ script.old.ctx script.old.tables }
{
    for _ in 0..u64::MAX {
        match lines.next_line()? {
            None => return Ok(()),
            Some(line) => script.run_line(line, writer)?,
        }
    }
    Ok(())
}

// Says why a script stopped, as far as the writer takes it.
fn report<W: Write>(writer: &mut W, stop: Stop, number: u64) -> u8 {
    let _ = match stop {
        Stop::Refused => writeln!(writer, "line {number}: refused"),
        Stop::OutOfMemory => writeln!(writer, "line {number}: out of memory"),
        Stop::ReadFailed => writeln!(writer, "read failed"),
        Stop::WriteFailed => Ok(()),
    };
    STOPPED
}
