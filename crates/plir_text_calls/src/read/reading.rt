//! The calls that read operations.
use plir_attr_text::{Fault, ReadErr};
use plir_data::OpSet;
use plir_print::{is_printable, print_op};
use plir_read::read_op;
use plir_scripts::{Bench, Line, Stop, nested_text, put_fault, put_folded, unfold};

/// `read TEXT`: reads an operation, writes its name and, behind it, the text that it is printed as, or the fault.
pub fn read<D: OpSet>(bench: &mut Bench<D>, line: Line<'_>) -> Result<(), Stop> {
    let text = unfold(bench.alloc, line.text)?;
    bench.made.ops.reserve(1)?;
    let op = match read_op(bench.alloc, &mut bench.ctx, text.as_str()) {
        Ok(op) => op,
        Err(found) => return put_fault(&mut bench.answer, found),
    };
    bench.made.ops.push(op)?;
    bench.made.put_op(&mut bench.answer, Some(op));
    if !is_printable(&bench.ctx, op) {
        return Err(Stop::Refused);
    }
    let printed = print_op(bench.alloc, &bench.ctx, op)?;
    bench.answer.put(" ");
    put_folded(&mut bench.answer, printed.as_str());
    Ok(())
}

/// `nested COUNT HEAD | BEFORE | MIDDLE | BEHIND`: reads the head, so many times what is before, the middle, and so
/// many times what is behind. Writes `read`, or the fault.
pub fn read_nested<D: OpSet>(bench: &mut Bench<D>, line: Line<'_>) -> Result<(), Stop> {
    let text = nested_text(bench.alloc, line)?;
    match read_op(bench.alloc, &mut bench.ctx, text.as_str()) {
        Ok(_) => {
            bench.answer.put("read");
            Ok(())
        }
        Err(found) => put_fault(&mut bench.answer, found),
    }
}

/// `beginnings TEXT`: reads each proper beginning of a text, and writes the first that is read or has another fault
/// than `Unexpected`, or `unexpected` where there is none.
pub fn read_beginnings<D: OpSet>(bench: &mut Bench<D>, line: Line<'_>) -> Result<(), Stop> {
    for count in 0..line.text.len() {
        let front = line.text.get(..count).ok_or(Stop::Refused)?;
        if !is_unexpected(read_op(bench.alloc, &mut bench.ctx, front).err()) {
            bench.answer.put(front);
            return Ok(());
        }
    }
    bench.answer.put("unexpected");
    Ok(())
}

fn is_unexpected(found: Option<ReadErr>) -> bool {
    match found {
        Some(found) => found.fault == Fault::Unexpected,
        None => false,
    }
}
