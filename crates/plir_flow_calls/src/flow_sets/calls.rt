//! The scripts.
ghost use Rattle.plir_core.specs.ContextView.{IsLive};
ghost use Rattle.plir_core.specs.declared.ptr.IRNode.{IRNode as AnyNode};

use crate::flow_sets::asking::{ask_call, ask_edges, ask_forwarded, ask_returned, ask_sites};
use crate::flow_sets::structs;
use flow_dialect::cond_branch::CondBranch;
use flow_dialect::kinds::FlowSet;
use flow_dialect::named_call::NamedCall;
use flow_dialect::scope::Scope;
use plir_data::OperandSegmentSizesAttr;
use plir_flow::OperandSegmentInterface;
use plir_scripts::{Bench, Layer, Line, Mismatch, NodeCalls, Stop, play, split_word};
use std::alloc::Global;

/// The questions to the set and to the structs, and the calls on nodes.
struct FlowCalls;

impl Layer<FlowSet> for FlowCalls {
    fn run(bench: &mut Bench<FlowSet>, line: Line<'_>) -> Result<(), Stop> {
        match line.command {
            "call" | "returned" | "forwarded" | "sites" | "edges" => ask_set(bench, line),
            "as-call" | "as-branch" | "as-scope" | "add" | "drop" | "sizes" => {
                ask_struct(bench, line)
            }
            _ => NodeCalls::run(bench, line),
        }
    }
}

// The questions to the set.
fn ask_set(bench: &mut Bench<FlowSet>, line: Line<'_>) -> Result<(), Stop> {
    let op = bench.made.op(&bench.ctx, line.first)?;
    match line.command {
        "call" => ask_call(bench, op),
        "forwarded" => ask_forwarded(bench, op, line),
        "sites" => ask_sites(bench, op, line),
        "edges" => ask_edges(bench, op),
        _ => {
            ask_returned(bench, op);
            Ok(())
        }
    }
}

// The questions to structs of an operation.
fn ask_struct(bench: &mut Bench<FlowSet>, line: Line<'_>) -> Result<(), Stop> {
    let op = bench.made.op(&bench.ctx, line.first)?;
    match line.command {
        "as-call" => structs::ask_call(bench, &NamedCall { op }),
        "as-branch" => structs::ask_branch(bench, &CondBranch { op }, line),
        "as-scope" => structs::ask_scope(bench, &Scope { op }),
        "sizes" => set_sizes(bench, &CondBranch { op }, line),
        _ => structs::edit_branch(bench, &CondBranch { op }, line),
    }
}

// `sizes OP SIZES` says how many operands stand in each segment.
fn set_sizes(bench: &mut Bench<FlowSet>, branch: &CondBranch, line: Line<'_>) -> Result<(), Stop>
    requires { IsLive bench.old.ctx (AnyNode.Operation branch.now.op) }
{
    let mut sizes = Vec::new(bench.alloc);
    let (_, words) = split_word(line.text);
    for word in words.split_whitespace() {
        let Ok(size) = word.parse::<u32>() else {
            return Err(Stop::Refused);
        };
        sizes.push(size)?;
    }
    branch.set_operand_segment_sizes(bench.alloc, &mut bench.ctx, OperandSegmentSizesAttr(sizes))?;
    Ok(())
}

/// Plays a script of questions to a set and to structs in a context with room for so many nodes.
///
/// # Errors
///
/// The first line whose answer is another one.
pub fn play_in(alloc: Global, max_nodes: u32, script: &str) -> Result<(), Mismatch> {
    play::<FlowSet, FlowCalls>(alloc, max_nodes, script)
}
