//! The calls that ask what stands against reading an operation back from its text, and that copy one by its text.
use crate::roundtrip::copying::{CopyErr, copy_beside};
use plir_attr_text::Fault;
use plir_core::{IRNode, Operation, Ptr};
use plir_data::OpSet;
use plir_print::{is_printable, print_op};
use plir_read_ir::IrFault;
use plir_read_own::ReadSet;
use plir_roundtrip::{Obstacle, ir_obstacle};
use plir_scripts::{Answer, Bench, Line, Made, Stop, put_folded};

/// `obstacle OP`: writes what stands against reading the operation back from its text, or `none`.
pub fn ask_obstacle<D: ReadSet>(bench: &mut Bench<D>, line: Line<'_>) -> Result<(), Stop> {
    let op = bench.made.op(&bench.ctx, line.first)?;
    match ir_obstacle(&bench.ctx, op) {
        Some(obstacle) => put_obstacle(&bench.made, &mut bench.answer, obstacle),
        None => bench.answer.put("none"),
    }
    Ok(())
}

// Writes `kind of NODE`, `types of NODE`, `content of NODE`, `levels`, `operand PLACE of OP` or `successor PLACE of
// OP`.
fn put_obstacle(made: &Made, answer: &mut Answer, obstacle: Obstacle) {
    match obstacle {
        Obstacle::Kind(node) => put_of(made, answer, "kind", node),
        Obstacle::Types(node) => put_of(made, answer, "types", node),
        Obstacle::Content(node) => put_of(made, answer, "content", node),
        Obstacle::Levels => answer.put("levels"),
        Obstacle::Operand(op, place) => put_use(made, answer, "operand ", op, place),
        Obstacle::Successor(op, place) => put_use(made, answer, "successor ", op, place),
    }
}

fn put_of(made: &Made, answer: &mut Answer, what: &str, node: IRNode) {
    answer.put(what);
    answer.put(" of");
    made.put_node(answer, node);
}

fn put_use(made: &Made, answer: &mut Answer, what: &str, op: Ptr<Operation>, place: usize) {
    answer.put(what);
    answer.put_number(place);
    answer.put(" of");
    made.put_op(answer, Some(op));
}

/// `copy OP`: copies the operation by its text, and writes the copy's name, or what stands against that.
pub fn copy<D: ReadSet>(bench: &mut Bench<D>, line: Line<'_>) -> Result<(), Stop> {
    let op = bench.made.op(&bench.ctx, line.first)?;
    bench.made.ops.reserve(1)?;
    match copy_beside(bench.alloc, &mut bench.ctx, op) {
        Ok(copy) => {
            bench.made.ops.push(copy)?;
            bench.made.put_op(&mut bench.answer, Some(copy));
        }
        Err(CopyErr::Obstacle(obstacle)) => {
            put_obstacle(&bench.made, &mut bench.answer, obstacle);
        }
        Err(CopyErr::Wanting(found)) => return Err(stop_of(found.fault)),
    }
    Ok(())
}

// Why a line is not carried out, where a copy is not made for this.
fn stop_of(fault: IrFault) -> Stop {
    match fault {
        IrFault::Text(Fault::Memory) => Stop::Memory,
        IrFault::Text(Fault::TooManyNodes) => Stop::TooManyNodes,
        _ => Stop::Refused,
    }
}

/// `printed OP`: writes the text of the operation.
pub fn put_printed<D: OpSet>(bench: &mut Bench<D>, line: Line<'_>) -> Result<(), Stop> {
    let op = bench.made.op(&bench.ctx, line.first)?;
    if !is_printable(&bench.ctx, op) {
        return Err(Stop::Refused);
    }
    let printed = print_op(bench.alloc, &bench.ctx, op)?;
    put_folded(&mut bench.answer, printed.as_str());
    Ok(())
}
