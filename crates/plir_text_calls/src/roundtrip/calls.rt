//! The scripts of operations that can be read back, and of those that cannot.
use crate::roundtrip::obstacles::{ask_obstacle, copy, put_printed};
use crate::roundtrip::readable::{make_own_type, read_nested, readable, set_own};
use crate::roundtrip::reading_back::module_is_read_back;
use crate::roundtrip::text_set::TextSet;
use plir_data::OpSet;
use plir_read_own::ReadSet;
use plir_scripts::{Bench, Layer, Line, Mismatch, NodeCalls, OwnSet, Stop, play};
use std::alloc::Global;

/// What a line asks for.
#[derive(Clone, Copy)]
enum Call {
    /// `readable`: whether an operation is read back from its text.
    Readable,
    /// `nested`: the same of many levels.
    ReadNested,
    /// `own`: an attribute of the user's own.
    SetOwn,
    /// `own-type`: a type of the user's own.
    MakeOwnType,
    /// `obstacle`: what stands against reading an operation back.
    AskObstacle,
    /// `copy`: a copy by a text.
    Copy,
    /// `printed`: the text of an operation.
    PutPrinted,
    /// `read-back`: whether a module is read back.
    ReadBack,
    /// A call on nodes.
    OnNodes,
}

impl Call {
    // What this word asks for.
    fn of(word: &str) -> Call {
        match word {
            "readable" => Call::Readable,
            "nested" => Call::ReadNested,
            "own" => Call::SetOwn,
            "own-type" => Call::MakeOwnType,
            "obstacle" => Call::AskObstacle,
            "copy" => Call::Copy,
            "printed" => Call::PutPrinted,
            "read-back" => Call::ReadBack,
            _ => Call::OnNodes,
        }
    }
}

/// The calls of these tests, and those on nodes.
struct ReadableCalls;

impl<D: OwnSet + ReadSet> Layer<D> for ReadableCalls {
    fn run(bench: &mut Bench<D>, line: Line<'_>) -> Result<(), Stop> {
        match Call::of(line.command) {
            Call::Readable => readable(bench, line),
            Call::ReadNested => read_nested(bench, line),
            Call::SetOwn => set_own(bench, line),
            Call::MakeOwnType => make_own_type(bench),
            Call::AskObstacle => ask_obstacle(bench, line),
            Call::Copy => copy(bench, line),
            Call::PutPrinted => put_printed(bench, line),
            Call::ReadBack => read_back(bench),
            Call::OnNodes => NodeCalls::run(bench, line),
        }
    }
}

// Answers whether a module is read back.
fn read_back<D: OpSet>(bench: &mut Bench<D>) -> Result<(), Stop> {
    let is_read_back = module_is_read_back(bench.alloc)?;
    bench.answer.put_truth(is_read_back);
    Ok(())
}

/// Plays a script of operations that are read back in a context with room for so many nodes.
///
/// # Errors
///
/// The first line whose answer is another one.
pub fn play_in(alloc: Global, max_nodes: u32, script: &str) -> Result<(), Mismatch> {
    play::<TextSet, ReadableCalls>(alloc, max_nodes, script)
}
