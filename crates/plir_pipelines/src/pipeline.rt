//! Passes by their names, each with what its options are given: `symbol-dce,inline{budget=100}`.
ghost use Rattle.std.specs.Prelude.{◌≡◌, ◌++◌, ◌∷◌, [], IfErr, IfOk, map};
ghost use Rattle.plir_pipelines.specs.Pipelines.{AreSteps, AreStepsRefused, IsOpen, IsStep, IsStepRefused, words_of};

use crate::settings::read_settings;
use crate::step::{Step, StepErr};
use std::alloc::{AllocError, Global};

// What stands in braces behind a name, up to the end of the step.
fn inside<'a>(step: &'a str, rest: &'a str) -> Result<&'a str, StepErr<'a>>
    ensures closed { IfOk result (λ r. rest.entry.now ≡ r.now ++ 125 ∷ []) }
    ensures unclosed { IfErr result (λ e. (e ≡ StepErr.Unclosed step.entry) × IsOpen rest.entry.now) }
{
    match rest.strip_suffix('}') {
        Some(inside) => Ok(inside),
        None => Err(StepErr::Unclosed { step }),
    }
}

// The pass that a word names, and what its options are given.
fn read_step<'a>(alloc: Global, word: &'a str) -> Result<Step<'a>, StepErr<'a>>
    ensures read { IfOk result (IsStep word.entry.now) }
    ensures refused { IfErr result (IsStepRefused word.entry.now) }
{
    let step = word.trim_ascii();
    match step.split_once('{') {
        None => Ok(Step {
            name: step,
            settings: Vec::new(alloc),
        }),
        Some((front, rest)) => {
            let settings = read_settings(alloc, inside(step, rest)?)?;
            Ok(Step {
                name: front.trim_ascii(),
                settings,
            })
        }
    }
}

// The steps that words are, in their order.
fn steps_in<'a>(alloc: Global, words: &[&'a str]) -> Result<Vec<Step<'a>>, StepErr<'a>>
    ensures read { IfOk result (λ v. AreSteps (map (λ w. w.now) words.now) v.items) }
    ensures refused { IfErr result (AreStepsRefused (map (λ w. w.now) words.now)) }
{
    let mut steps = Vec::new(alloc);
    for word in words {
        steps.push(read_step(alloc, word)?)?;
    }
    Ok(steps)
}

// What stands between the commas of a text.
fn words_of<'a>(alloc: Global, text: &'a str) -> Result<Vec<&'a str>, AllocError>
    ensures { IfOk result (λ v. map (λ w. w.now) v.items ≡ words_of text.entry.now) }
{
    text.split(',').collect(alloc)
}

/// The passes that a text names, in their order, each with what its options are given. Passes stand between its commas,
/// with white space around them or none; behind the name of one there may stand, in braces, its options with their
/// numbers, with blanks between them. Which passes and options there are is another's to know: a name is what stands
/// where one has to, also where that is empty.
///
/// # Errors
///
/// The first pass whose brace isn't closed at its end, or whose options aren't written so, or one of them twice; or
/// memory was wanting.
pub fn read_pipeline<'a>(alloc: Global, text: &'a str) -> Result<Vec<Step<'a>>, StepErr<'a>>
    ensures read { IfOk result (λ v. AreSteps (words_of text.entry.now) v.items) }
    ensures refused { IfErr result (AreStepsRefused (words_of text.entry.now)) }
{
    let words = words_of(alloc, text)?;
    steps_in(alloc, words.as_slice())
}
