//! The scripts of arguments of blocks, with their answers.
use crate::arguments::kinds::EndSet;
use crate::inliner::name_new;
use plir_arguments::{BranchEditSet, can_drop_argument, drop_argument, drop_unused_arguments};
use plir_core::NodeErr;
use plir_scripts::{Bench, Layer, Line, Mismatch, NodeCalls, Stop, number, play};
use std::alloc::Global;

// How many new blocks get names at most without asking for memory.
const MAX_NEW: usize = 100;

/// The calls of this crate, and those on nodes.
struct ArgumentCalls;

impl Layer<EndSet> for ArgumentCalls {
    fn run(bench: &mut Bench<EndSet>, line: Line<'_>) -> Result<(), Stop> {
        match line.command {
            "drop-argument" => drop(bench, line),
            "drop-arguments-below" | "drop-all-arguments-below" => drop_below(bench, line),
            _ => NodeCalls::run(bench, line),
        }
    }
}

// `drop-argument BLOCK PLACE` drops an argument, if it can. The block that comes has a name of its own.
fn drop<D: BranchEditSet>(bench: &mut Bench<D>, line: Line<'_>) -> Result<(), Stop> {
    let block = bench.made.block(&bench.ctx, line.first)?;
    let place = number(line.second)?;
    if place >= block.get_num_arguments(&bench.ctx) {
        return Err(Stop::Refused);
    }
    if !can_drop_argument(bench.alloc, &bench.ctx, block, place)? {
        return Err(Stop::Refused);
    }
    bench.made.blocks.reserve(1)?;
    let made = drop_argument(bench.alloc, &mut bench.ctx, block, place)?;
    bench.made.blocks.push(made)?;
    bench.made.put_block(&mut bench.answer, Some(made));
    Ok(())
}

// `drop-arguments-below ROOT` drops all arguments below an operation that can be, and writes whether there was any;
// `drop-all-arguments-below ROOT` writes only that it ended. That one is made once more where memory was refused, since
// what was dropped until then stays so. The blocks that came have names of their own from then on, in the order in
// which they stand.
fn drop_below<D: BranchEditSet>(bench: &mut Bench<D>, line: Line<'_>) -> Result<(), Stop> {
    let root = bench.made.op(&bench.ctx, line.first)?;
    bench.made.blocks.reserve(MAX_NEW)?;
    let mut end = drop_unused_arguments(bench.alloc, &mut bench.ctx, root);
    let is_all = line.command == "drop-all-arguments-below";
    if is_all && matches!(end, Err(NodeErr::Memory)) {
        end = drop_unused_arguments(bench.alloc, &mut bench.ctx, root);
    }
    name_new(&bench.ctx, &mut bench.made, root)?;
    let any = end?;
    bench.answer.put(if is_all {
        "all"
    } else if any {
        "some"
    } else {
        "none"
    });
    Ok(())
}

/// Plays a script of arguments that are dropped in a context with room for so many nodes.
///
/// # Errors
///
/// The first line whose answer is another one.
pub fn play_in(alloc: Global, max_nodes: u32, script: &str) -> Result<(), Mismatch> {
    play::<EndSet, ArgumentCalls>(alloc, max_nodes, script)
}
