//! The scripts of region edges, with their answers.
use crate::flow::edge_reading::{edges_of, region_of};
use crate::flow::edged::Edged;
use crate::flow::edging::{ask_edges, put_same, verify_loop};
use crate::flow::looping::Loop;
use crate::flow::refusing::Refusing;
use plir_scripts::{Bench, Layer, Line, Mismatch, NodeCalls, SampleSet, Stop, play, split_word};
use std::alloc::Global;

/// The calls on region edges, and those on nodes. `edges OP QUESTION NAME | EDGE; EDGE` asks of an operation with these
/// edges.
struct EdgeCalls;

impl<D: Refusing> Layer<D> for EdgeCalls {
    fn run(bench: &mut Bench<D>, line: Line<'_>) -> Result<(), Stop> {
        if line.command == "loop" {
            return ask_loop(bench, line);
        }
        if line.command != "edges" {
            return NodeCalls::run(bench, line);
        }
        let (alloc, ctx, made, answer) = (bench.alloc, &bench.ctx, &bench.made, &mut bench.answer);
        let op = made.op(ctx, line.first)?;
        let (_, written) = line.text.split_once(" | ").ok_or(Stop::Refused)?;
        let edges = edges_of(alloc, ctx, made, written)?;
        if line.second == "same" {
            return put_same(alloc, answer, &edges);
        }
        let any = Edged { op, edges: &edges };
        ask_edges(alloc, ctx, made, answer, &any, line)
    }
}

// The loop of an operation, its region, the region's block and the operation that ends that.
fn ask_loop<D: Refusing>(bench: &mut Bench<D>, line: Line<'_>) -> Result<(), Stop> {
    let (ctx, made, answer) = (&bench.ctx, &bench.made, &mut bench.answer);
    let (_, end) = split_word(line.tail);
    let any = Loop {
        op: made.op(ctx, line.first)?,
        region: region_of(made, line.second)?,
        body: made.block(ctx, line.third)?,
        end: made.op(ctx, end)?,
    };
    verify_loop(bench.alloc, ctx, made, answer, &any)
}

/// Plays a script of calls on region edges in a context with room for so many nodes.
///
/// # Errors
///
/// The first line whose answer is another one.
pub fn play_edges(alloc: Global, max_nodes: u32, script: &str) -> Result<(), Mismatch> {
    play::<SampleSet, EdgeCalls>(alloc, max_nodes, script)
}
