//! The calls that read and print.
ghost use Rattle.plir_data.specs.AttrLive.{IsAttrLive};
ghost use Rattle.plir_data.specs.AttrSeen.{attr_view};

use plir_attr_text::{Fault, ReadErr, read_attr, read_function_type, read_integer_type, read_type};
use plir_data::{AttrObj, OpSet, TypeHandle};
use plir_scripts::{
    Bench, Line, Stop, nested_text, number, put_attr, put_fault, put_type_name, unfold,
};

/// `fault forward-ref` or `fault results WANTED FOUND`: writes the text of the fault.
pub fn show_fault<D: OpSet>(bench: &mut Bench<D>, line: Line<'_>) -> Result<(), Stop> {
    let fault = match line.first {
        "forward-ref" => Fault::ForwardRefOpExistenceErr,
        "results" => Fault::NResultsVerifyErr(number(line.second)?, number(line.third)?),
        _ => return Err(Stop::Refused),
    };
    bench.answer.put_shown(&fault);
    Ok(())
}

/// `read-type TEXT`, `read-integer TEXT` or `read-function TEXT`: writes the name of the type.
pub fn read<D: OpSet>(bench: &mut Bench<D>, line: Line<'_>) -> Result<(), Stop> {
    let text = unfold(bench.alloc, line.text)?;
    bench.made.types.reserve(1)?;
    match type_of(bench, line.command, text.as_str()) {
        Ok(handle) => put_type_name(&mut bench.made, &mut bench.answer, handle),
        Err(fault) => put_fault(&mut bench.answer, fault),
    }
}

// The type of a text, as a command reads it.
fn type_of<D: OpSet>(
    bench: &mut Bench<D>,
    command: &str,
    text: &str,
) -> Result<TypeHandle, ReadErr> {
    match command {
        "read-integer" => read_integer_type(&mut bench.ctx, text),
        "read-function" => read_function_type(bench.alloc, &mut bench.ctx, text),
        _ => read_type(bench.alloc, &mut bench.ctx, text),
    }
}

/// `attr TEXT` or `verify TEXT`: reads an attribute and writes its text, or whether it is valid.
pub fn ask_attr<D: OpSet>(bench: &mut Bench<D>, line: Line<'_>) -> Result<(), Stop> {
    let text = unfold(bench.alloc, line.text)?;
    match read_attr(bench.alloc, &mut bench.ctx, text.as_str()) {
        Ok(attr) => {
            put_asked(bench, line.command, &attr);
            Ok(())
        }
        Err(fault) => put_fault(&mut bench.answer, fault),
    }
}

// Writes the text of an attribute, or whether it is valid.
fn put_asked<D: OpSet>(bench: &mut Bench<D>, command: &str, attr: &AttrObj<D>)
    requires { IsAttrLive D.attr_handles bench.old.ctx.types (attr_view attr.now) }
{
    if command == "attr" {
        return put_attr(bench.alloc, &bench.ctx, &mut bench.answer, attr);
    }
    match attr.verify(bench.alloc, &bench.ctx) {
        Ok(()) => bench.answer.put("ok"),
        Err(refusal) => bench.answer.put_shown(&refusal),
    }
}

/// `typed-attr TEXT`: reads an attribute and writes the name of its type, or `none`.
pub fn ask_type<D: OpSet>(bench: &mut Bench<D>, line: Line<'_>) -> Result<(), Stop> {
    let text = unfold(bench.alloc, line.text)?;
    bench.made.types.reserve(1)?;
    match read_attr(bench.alloc, &mut bench.ctx, text.as_str())?.typed() {
        Some(handle) => put_type_name(&mut bench.made, &mut bench.answer, handle),
        None => {
            bench.answer.put("none");
            Ok(())
        }
    }
}

/// `nested-attr COUNT HEAD | BEFORE | MIDDLE | BEHIND` or `nested-type ..`: reads the head, so many times what is
/// before, the middle, and so many times what is behind. Writes `read`, or the fault.
pub fn read_nested<D: OpSet>(bench: &mut Bench<D>, line: Line<'_>) -> Result<(), Stop> {
    let text = nested_text(bench.alloc, line)?;
    match fault_of(bench, line.command == "nested-attr", text.as_str()) {
        None => {
            bench.answer.put("read");
            Ok(())
        }
        Some(fault) => put_fault(&mut bench.answer, fault),
    }
}

// The fault of a text, if it isn't read.
fn fault_of<D: OpSet>(bench: &mut Bench<D>, is_attr: bool, text: &str) -> Option<ReadErr> {
    if is_attr {
        fault_of_attr(bench, text)
    } else {
        read_type(bench.alloc, &mut bench.ctx, text).err()
    }
}

fn fault_of_attr<D: OpSet>(bench: &mut Bench<D>, text: &str) -> Option<ReadErr> {
    read_attr(bench.alloc, &mut bench.ctx, text).err()
}

/// `beginnings-attr TEXT` or `beginnings-type TEXT`: reads each proper beginning of a text, and writes the first that
/// is read or has another fault than `Unexpected`, or `unexpected` where there is none.
pub fn read_beginnings<D: OpSet>(bench: &mut Bench<D>, line: Line<'_>) -> Result<(), Stop> {
    let is_attr = line.command == "beginnings-attr";
    for count in 0..line.text.len() {
        let front = line.text.get(..count).ok_or(Stop::Refused)?;
        match fault_of(bench, is_attr, front) {
            Some(found) if found.fault == Fault::Unexpected => {}
            _ => {
                bench.answer.put(front);
                return Ok(());
            }
        }
    }
    bench.answer.put("unexpected");
    Ok(())
}
