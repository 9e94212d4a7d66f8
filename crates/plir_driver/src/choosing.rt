//! What a command line asks for.
ghost use Rattle.std.specs.Prelude.{◌≡◌, IfErr, IfOk};
ghost use Rattle.clap.specs.Matches.{first_value, found_of};
ghost use Rattle.plir_command.specs.Chosen.{IsChoiceErr, IsChosen};

use crate::choices::{Choices, Form, Reports, Tests};
use clap::ArgMatches;
use plir_command::{Chosen, choose_passes};
use plir_pipelines::words::{
    CALL_GRAPH, CHECK, LOCATIONS, PASS_PIPELINE, PRINT_AFTER_ALL, PRINT_BEFORE, STATS, TIMING,
    TRACE_WALK, VERIFY, VERIFY_DIAGNOSTICS, VIEW, VIEW_USES, WALK,
};
use plir_pipelines::{Flag, Offered, PipelineErr};
use plir_walk::{Direction, Order};
use std::alloc::Global;

// The walk whose calls are listed, by the words that name it.
fn trace_of(words: &str) -> Form {
    let (order, direction) = match words {
        "post,fwd" => (Order::PostOrder, Direction::Forward),
        "pre,rev" => (Order::PreOrder, Direction::Reverse),
        "post,rev" => (Order::PostOrder, Direction::Reverse),
        _ => (Order::PreOrder, Direction::Forward),
    };
    Form::Trace { order, direction }
}

// How the operation is to be printed.
fn asked_form(matches: &ArgMatches<'_>) -> Form {
    if let Some(words) = matches.get_str(TRACE_WALK) {
        trace_of(words)
    } else if matches.get_flag(WALK) {
        Form::Walk
    } else if matches.get_flag(LOCATIONS) {
        Form::Locations
    } else if matches.get_flag(VIEW_USES) {
        Form::View { uses: true }
    } else if matches.get_flag(VIEW) {
        Form::View { uses: false }
    } else if matches.get_flag(CALL_GRAPH) {
        Form::CallGraph
    } else {
        Form::Text
    }
}

// All that is asked for, with the passes.
fn with_passes<P>(matches: &ArgMatches<'_>, chosen: Chosen<P>) -> Choices<P>
    ensures passes { result.passes ≡ chosen.passes }
    ensures before { result.reports.before ≡ chosen.before }
{
    let Chosen { passes, before } = chosen;
    Choices {
        verify: matches.get_flag(VERIFY),
        passes,
        form: asked_form(matches),
        reports: Reports {
            before,
            after_all: matches.get_flag(PRINT_AFTER_ALL),
            stats: matches.get_flag(STATS),
            timing: matches.get_flag(TIMING),
        },
        tests: Tests {
            diagnostics: matches.get_flag(VERIFY_DIAGNOSTICS),
            checks: matches.get_flag(CHECK),
        },
    }
}

/// What a command line asks for, of the passes that are offered, whose options have the names of some flags.
///
/// # Errors
///
/// As [`choose_passes`].
pub fn choose<'a, P: Offered>(
    alloc: Global,
    matches: &ArgMatches<'a>,
    offered: &[P],
    flags: &'a [Flag],
) -> Result<Choices<P>, PipelineErr<'a>>
    ensures chosen { IfOk result (λ c. IsChosen P.pass_name P.pass_options P.with_option
        (first_value (found_of matches.now)) flags.entry.now offered.now
        (first_value (found_of matches.now) PASS_PIPELINE.now) (first_value (found_of matches.now) PRINT_BEFORE.now)
        c.passes.items c.reports.before.items) }
    ensures refused { IfErr result (IsChoiceErr P.pass_name P.pass_options P.with_option
        (first_value (found_of matches.now)) flags.entry.now offered.now
        (first_value (found_of matches.now) PASS_PIPELINE.now)
        (first_value (found_of matches.now) PRINT_BEFORE.now)) }
{
    match choose_passes(alloc, matches, offered, flags) {
        Ok(chosen) => Ok(with_passes(matches, chosen)),
        Err(error) => Err(error),
    }
}
