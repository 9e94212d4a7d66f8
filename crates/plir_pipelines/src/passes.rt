//! Passes by their names, with what their options are given.
ghost use Rattle.std.specs.Prelude.{◌≡◌, IfErr, IfOk, IfSome};
ghost use Rattle.std.specs.Str.{bytes_eq};
ghost use Rattle.plir_pipelines.specs.Passes.{AreNamed, AreNamesRefused, IsNamed, IsNameRefused, IsPipeline};
ghost use Rattle.plir_pipelines.specs.Passes.{IsPipelineRefused, bearer};

use crate::offered::Offered;
use crate::options::set_all;
use crate::pass_option::PassOption;
use crate::pipeline::read_pipeline;
use crate::step::{Step, StepErr};
use std::alloc::{AllocError, AllocFailed, Global};
use thiserror::Error;

/// Why a text names no passes.
#[derive(Clone, Copy, Debug, Drop, Error)]
pub enum PipelineErr<'a> {
    /// The text is not written as a pipeline is.
    #[error("{err}")]
    Malformed {
        err: StepErr<'a>,
    },
    /// What stands where a pass has to is no pass's name.
    #[error("'{name}' is the name of no pass")]
    NoPass {
        name: &'a str,
    },
    /// What is given a number is no option of the pass.
    #[error("'{name}' is no option of the pass '{pass}'")]
    NoOption {
        pass: &'static str,
        name: &'a str,
    },
    /// An option is given a number that it can't be given.
    #[error("the option '{}' of the pass '{pass}' is from {} to {}, and not {number}", .option.name, .option.least, .option.most)]
    OutOfRange {
        pass: &'static str,
        option: PassOption,
        number: u64,
    },
    /// A growth was refused.
    #[error("out of memory")]
    OutOfMemory,
}

impl<'a> From<StepErr<'a>> for PipelineErr<'a> {
    ghost use Rattle.std.specs.Prelude.{◌≡◌};
    ghost use Rattle.plir_pipelines.specs.Passes.{of_step};

    ghost from_gives = { λ e r. r ≡ of_step e };

    fn from(error: StepErr<'a>) -> Self {
        match error {
            StepErr::OutOfMemory => PipelineErr::OutOfMemory,
            err => PipelineErr::Malformed { err },
        }
    }
}

impl From<AllocError> for PipelineErr<'_> {
    ghost use Rattle.std.specs.Prelude.{◌≡◌};
    ghost use Rattle.plir_pipelines.specs.declared.passes.PipelineErr.TheVariants as Variants;

    ghost from_gives = { λ _ e. e ≡ Variants.OutOfMemory };

    fn from(_error: AllocError) -> Self {
        PipelineErr::OutOfMemory
    }
}

impl<T: Drop> From<AllocFailed<T>> for PipelineErr<'_> {
    ghost use Rattle.std.specs.Prelude.{◌≡◌};
    ghost use Rattle.plir_pipelines.specs.declared.passes.PipelineErr.TheVariants as Variants;

    ghost from_gives = { λ _ e. e ≡ Variants.OutOfMemory };

    fn from(_error: AllocFailed<T>) -> Self {
        PipelineErr::OutOfMemory
    }
}

// Whether a pass bears a name.
fn bears<P: Offered>(pass: P, name: &str) -> bool
    ensures { result ≡ bytes_eq (P.pass_name pass) name.now }
{
    pass.name() == name
}

/// The first of some passes that bears a name.
pub fn pass_of<P: Offered>(offered: &[P], name: &str) -> Option<P>
    ensures first { result ≡ bearer P.pass_name offered.now name.now }
    ensures named { IfSome result (λ p. P.pass_name p ≡ name.now) }
{
    for pass in offered {
        if bears(*pass, name) {
            return Some(*pass);
        }
    }
    None
}

// The pass that a step names, with what its options are given.
fn pass_in<'a, P: Offered>(offered: &[P], step: &Step<'a>) -> Result<P, PipelineErr<'a>>
    ensures named { IfOk result (IsNamed P.pass_name P.pass_options P.with_option offered.now step.now) }
    ensures refused { IfErr result (IsNameRefused P.pass_name P.pass_options P.with_option offered.now step.now) }
{
    let name = step.name;
    match pass_of(offered, name) {
        Some(pass) => set_all(pass, step.settings.as_slice()),
        None => Err(PipelineErr::NoPass { name }),
    }
}

// The passes that steps name, in their order.
fn passes_in<'a, P: Offered>(
    alloc: Global,
    offered: &[P],
    steps: &[Step<'a>],
) -> Result<Vec<P>, PipelineErr<'a>>
    ensures named { IfOk result (λ v.
        AreNamed P.pass_name P.pass_options P.with_option offered.now steps.now v.items) }
    ensures refused { IfErr result (AreNamesRefused P.pass_name P.pass_options P.with_option offered.now steps.now) }
{
    let mut passes = Vec::new(alloc);
    for step in steps {
        passes.push(pass_in(offered, step)?)?;
    }
    Ok(passes)
}

/// The passes that a text names, in their order, of those that are offered, as [`read_pipeline`] reads it: names stand
/// between its commas, with white space around them or none, and behind a name may stand, in braces, options of the
/// pass with their numbers, as `sweep{rounds=2}`. An option that is given none is as it is in the pass that is offered.
///
/// # Errors
///
/// As [`read_pipeline`], and else the first of its passes that is none of those that are offered, or of whose options
/// one is none of the pass, or can't be given its number; or memory was wanting.
pub fn passes_named<'a, P: Offered>(
    alloc: Global,
    offered: &[P],
    text: &'a str,
) -> Result<Vec<P>, PipelineErr<'a>>
    ensures named { IfOk result (λ v.
        IsPipeline P.pass_name P.pass_options P.with_option offered.now text.entry.now v.items) }
    ensures refused { IfErr result
        (IsPipelineRefused P.pass_name P.pass_options P.with_option offered.now text.entry.now) }
{
    let steps = read_pipeline(alloc, text)?;
    passes_in(alloc, offered, steps.as_slice())
}
