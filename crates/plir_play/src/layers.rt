//! The layers, each by its name.
use crate::script::Script;
use plir_scripts::{Mismatch, NodeCalls, SampleSet, play};
use std::alloc::Global;

/// Plays a script by the calls of its layer; none where there is no such layer.
pub fn play_script(alloc: Global, script: &Script<'_>) -> Option<Result<(), Mismatch>> {
    let (nodes, lines) = (script.max_nodes, script.lines);
    let played = match script.layer {
        "core" => play::<SampleSet, NodeCalls>(alloc, nodes, lines),
        "data" => plir_low_calls::data::play_in(alloc, nodes, lines),
        "attr_text" => plir_low_calls::attr_text::play_in(alloc, nodes, lines),
        "walk" => plir_walk_calls::walk::play_in(alloc, nodes, lines),
        "iface" => plir_low_calls::iface::play_in(alloc, nodes, lines),
        "copies" => plir_walk_calls::copies::play_in(alloc, nodes, lines),
        "inline" => plir_walk_calls::inline::play_in(alloc, nodes, lines),
        "arguments" => plir_inliner_calls::arguments::play_in(alloc, nodes, lines),
        "passes" => plir_passes_calls::passes::play_in(alloc, nodes, lines),
        _ => return play_flow(alloc, script),
    };
    Some(played)
}

// The same for the layers on the flow of control.
fn play_flow(alloc: Global, script: &Script<'_>) -> Option<Result<(), Mismatch>> {
    let (nodes, lines) = (script.max_nodes, script.lines);
    let played = match script.layer {
        "segments" => plir_flow_calls::flow::play_segments(alloc, nodes, lines),
        "branches" => plir_flow_calls::flow::play_branches(alloc, nodes, lines),
        "switches" => plir_flow_calls::flow::play_switches(alloc, nodes, lines),
        "calls" => plir_flow_calls::flow::play_calls(alloc, nodes, lines),
        "edges" => plir_flow_calls::flow::play_edges(alloc, nodes, lines),
        "flow_sets" => plir_flow_calls::flow_sets::play_in(alloc, nodes, lines),
        "inliner" => plir_inliner_calls::inliner::play_in(alloc, nodes, lines),
        _ => return play_builtin(alloc, script),
    };
    Some(played)
}

// The same for the layers on builtin operations and their texts.
fn play_builtin(alloc: Global, script: &Script<'_>) -> Option<Result<(), Mismatch>> {
    let (nodes, lines) = (script.max_nodes, script.lines);
    let played = match script.layer {
        "builtin" => plir_builtin_calls::builtin::play_in(alloc, nodes, lines),
        "builtin_own" => plir_builtin_calls::builtin::play_own(alloc, nodes, lines),
        "verify" => plir_builtin_calls::verify::play_in(alloc, nodes, lines),
        "symbols" => plir_passes_calls::symbols::play_in(alloc, nodes, lines),
        "symbols_holding" => plir_passes_calls::symbols::play_holding(alloc, nodes, lines),
        "folding" => plir_passes_calls::folding::play_in(alloc, nodes, lines),
        "print" => plir_text_calls::print::play_in(alloc, nodes, lines),
        "print_own" => plir_text_calls::print::play_own(alloc, nodes, lines),
        "read" => plir_text_calls::read::play_in(alloc, nodes, lines),
        "roundtrip" => plir_text_calls::roundtrip::play_in(alloc, nodes, lines),
        _ => return None,
    };
    Some(played)
}
