//! The scripts of interfaces, with their answers.
use crate::iface::any_op::AnyOp;
use crate::iface::appending::append;
use crate::iface::asking::{ask_counted, ask_freely, ask_regions};
use crate::iface::verifying::{verify_counts, verify_places, verify_types};
use plir_data::OpSet;
use plir_iface::{IndexRange, resolve_index_range};
use plir_scripts::{
    Bench, Layer, Line, Mismatch, NodeCalls, SampleSet, ScriptSet, Stop, number, play,
};
use std::alloc::Global;

/// The calls of this crate, and those on nodes: `counts OP INTERFACE`, `of-types OP INTERFACE` and `places OP
/// INTERFACE` verify, `counted OP ACCESSOR`, `regions OP ACCESSOR` and `free OP ACCESSOR` ask, and `append OP OTHER`
/// puts an operation into the body. `resolve M N LENGTH` asks for a range of places.
struct InterfaceCalls;

impl<D: ScriptSet> Layer<D> for InterfaceCalls {
    fn run(bench: &mut Bench<D>, line: Line<'_>) -> Result<(), Stop> {
        match line.command {
            "resolve" => resolve(bench, line),
            "append" => append(bench, line),
            "counts" | "of-types" | "places" => verify(bench, line),
            "counted" | "regions" | "free" => ask(bench, line),
            _ => NodeCalls::run(bench, line),
        }
    }
}

// What stands behind the operation of a line: the name of an interface, or of an accessor.
fn name_in<'a>(line: Line<'a>) -> &'a str {
    let (_, name) = line.text.split_once(' ').unwrap_or((line.text, ""));
    name
}

// Verifies an operation by an interface.
fn verify<D: ScriptSet>(bench: &mut Bench<D>, line: Line<'_>) -> Result<(), Stop> {
    let op = bench.made.op(&bench.ctx, line.first)?;
    let (ctx, answer, op, name) = (&bench.ctx, &mut bench.answer, AnyOp { op }, name_in(line));
    match line.command {
        "counts" => verify_counts(ctx, answer, &op, name),
        "of-types" => verify_types(bench.alloc, ctx, answer, &op, name),
        _ => verify_places(ctx, answer, &op, name),
    }
}

// Asks an operation by an accessor.
fn ask<D: ScriptSet>(bench: &mut Bench<D>, line: Line<'_>) -> Result<(), Stop> {
    let op = bench.made.op(&bench.ctx, line.first)?;
    let (ctx, made, answer) = (&bench.ctx, &bench.made, &mut bench.answer);
    let (op, name) = (AnyOp { op }, name_in(line));
    match line.command {
        "counted" => ask_counted(ctx, made, answer, &op, name),
        "regions" => ask_regions(ctx, made, answer, &op, name),
        _ => ask_freely(ctx, made, answer, &op, name),
    }
}

// Answers which places `resolve M N LENGTH` says.
fn resolve<D: OpSet>(bench: &mut Bench<D>, line: Line<'_>) -> Result<(), Stop> {
    let (Ok(first), Ok(last)) = (line.first.parse::<u32>(), line.second.parse::<i32>()) else {
        return Err(Stop::Refused);
    };
    let answer = &mut bench.answer;
    match resolve_index_range(first, last, number(line.third)?) {
        IndexRange::Range { start, end } => {
            answer.put_number(start);
            answer.put(" to ");
            answer.put_number(end);
        }
        IndexRange::Empty => answer.put("empty"),
        IndexRange::TooFewEntities(wanted) => {
            answer.put("fewer than ");
            answer.put_number(wanted);
        }
    }
    Ok(())
}

/// Plays a script of interfaces in a context with room for so many nodes.
///
/// # Errors
///
/// The first line whose answer is another one.
pub fn play_in(alloc: Global, max_nodes: u32, script: &str) -> Result<(), Mismatch> {
    play::<SampleSet, InterfaceCalls>(alloc, max_nodes, script)
}
