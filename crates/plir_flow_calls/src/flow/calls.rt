//! The scripts of segments, branches and calls, with their answers.
ghost use Rattle.std.specs.Prelude.{◌≡◌};

use crate::flow::branching::{call_branch, call_counted};
use crate::flow::call_ops::{NamedCall, ValueCall};
use crate::flow::calling::call;
use crate::flow::cond_branch::CondBranch;
use crate::flow::editing::edit;
use crate::flow::grouped::Grouped;
use crate::flow::grouping::{
    ask_all, ask_segment, ask_size, expected_of, flatten, set_sizes, verify, verify_types,
};
use crate::flow::refusing::Refusing;
use crate::flow::switch::Switch;
use plir_core::{Operation, Ptr};
use plir_data::OpSet;
use plir_scripts::{
    Bench, Layer, Line, Mismatch, NodeCalls, SampleSet, ScriptSet, Stop, number, play,
};
use std::alloc::Global;

/// The calls on segments, and those on nodes.
struct SegmentCalls;

impl<D: ScriptSet> Layer<D> for SegmentCalls {
    fn run(bench: &mut Bench<D>, line: Line<'_>) -> Result<(), Stop> {
        match line.command {
            "flatten" => flatten(bench, line),
            "verify" => verify_counted(bench, line),
            "segment-types" => verify_segment_types(bench, line),
            "sizes" | "push" | "into" | "pop" | "from" => change_segments(bench, line),
            "segments" | "held" | "size" | "segment" => ask_segments(bench, line),
            _ => NodeCalls::run(bench, line),
        }
    }
}

// Verifies the segments of an operation, so many where the line says it.
fn verify_counted<D: OpSet>(bench: &mut Bench<D>, line: Line<'_>) -> Result<(), Stop> {
    let op = bench.made.op(&bench.ctx, line.first)?;
    let expected = expected_of(line.second)?;
    verify(&bench.ctx, &mut bench.answer, &Grouped { op, expected })
}

// Verifies the types of the segments of an operation by a rule.
fn verify_segment_types<D: OpSet>(bench: &mut Bench<D>, line: Line<'_>) -> Result<(), Stop> {
    let op = bench.made.op(&bench.ctx, line.first)?;
    let (_, rule) = line.text.split_once(' ').unwrap_or((line.text, ""));
    verify_types(
        bench.alloc,
        &bench.ctx,
        &mut bench.answer,
        &segments_of(op),
        rule,
    )
}

// Changes the segments of an operation.
fn change_segments<D: OpSet>(bench: &mut Bench<D>, line: Line<'_>) -> Result<(), Stop> {
    let op = segments_of(bench.made.op(&bench.ctx, line.first)?);
    match line.command {
        "sizes" => set_sizes(bench, &op, line),
        _ => edit(&mut bench.ctx, &bench.made, &mut bench.answer, &op, line),
    }
}

// Asks for the segments of an operation.
fn ask_segments<D: OpSet>(bench: &mut Bench<D>, line: Line<'_>) -> Result<(), Stop> {
    let op = segments_of(bench.made.op(&bench.ctx, line.first)?);
    let (alloc, ctx, made, answer) = (bench.alloc, &bench.ctx, &bench.made, &mut bench.answer);
    match line.command {
        "size" => ask_size(ctx, answer, &op, number(line.second)?),
        "segment" => ask_segment(alloc, ctx, made, answer, &op, number(line.second)?),
        _ => ask_all(ctx, made, answer, &op, line.command),
    }
}

// An operation with any number of segments.
fn segments_of(op: Ptr<Operation>) -> Grouped
    ensures { result.op ≡ op }
{
    Grouped { op, expected: None }
}

/// The calls on branches, and those on segments.
struct BranchCalls;

impl<D: Refusing> Layer<D> for BranchCalls {
    fn run(bench: &mut Bench<D>, line: Line<'_>) -> Result<(), Stop> {
        if !matches!(
            line.command,
            "branch" | "successor" | "forwarded" | "add" | "drop" | "reset"
        ) {
            return SegmentCalls::run(bench, line);
        }
        let op = bench.made.op(&bench.ctx, line.first)?;
        call_counted(bench, &CondBranch { op }, line)
    }
}

/// The calls on switches, and those on segments.
struct SwitchCalls;

impl<D: Refusing> Layer<D> for SwitchCalls {
    fn run(bench: &mut Bench<D>, line: Line<'_>) -> Result<(), Stop> {
        if !matches!(
            line.command,
            "switch" | "forwarded" | "add" | "drop" | "reset"
        ) {
            return SegmentCalls::run(bench, line);
        }
        let op = bench.made.op(&bench.ctx, line.first)?;
        call_branch(bench, &Switch { op }, line)
    }
}

/// The calls on calls, and those on nodes. The kind of a call is `name`, or else that of a value.
struct CallCalls;

impl<D: Refusing> Layer<D> for CallCalls {
    fn run(bench: &mut Bench<D>, line: Line<'_>) -> Result<(), Stop> {
        if !matches!(
            line.command,
            "layout" | "call" | "args" | "callee-type" | "set-callee"
        ) {
            return NodeCalls::run(bench, line);
        }
        let op = bench.made.op(&bench.ctx, line.first)?;
        if line.second == "name" {
            call(bench, &NamedCall { op }, line)
        } else {
            call(bench, &ValueCall { op }, line)
        }
    }
}

/// Plays a script of calls on segments in a context with room for so many nodes.
///
/// # Errors
///
/// The first line whose answer is another one.
pub fn play_segments(alloc: Global, max_nodes: u32, script: &str) -> Result<(), Mismatch> {
    play::<SampleSet, SegmentCalls>(alloc, max_nodes, script)
}

/// Plays a script of calls on branches in a context with room for so many nodes.
///
/// # Errors
///
/// The first line whose answer is another one.
pub fn play_branches(alloc: Global, max_nodes: u32, script: &str) -> Result<(), Mismatch> {
    play::<SampleSet, BranchCalls>(alloc, max_nodes, script)
}

/// Plays a script of calls on switches in a context with room for so many nodes.
///
/// # Errors
///
/// The first line whose answer is another one.
pub fn play_switches(alloc: Global, max_nodes: u32, script: &str) -> Result<(), Mismatch> {
    play::<SampleSet, SwitchCalls>(alloc, max_nodes, script)
}

/// Plays a script of calls on calls in a context with room for so many nodes.
///
/// # Errors
///
/// The first line whose answer is another one.
pub fn play_calls(alloc: Global, max_nodes: u32, script: &str) -> Result<(), Mismatch> {
    play::<SampleSet, CallCalls>(alloc, max_nodes, script)
}
