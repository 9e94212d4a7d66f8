//! What a pipeline is made of.
use std::alloc::{AllocError, AllocFailed};
use thiserror::Error;

/// An option of a pass, and the number that it is given.
#[derive(Clone, Copy, Debug)]
pub struct Setting<'a> {
    /// The option's name, as it is written.
    pub name: &'a str,
    /// The number.
    pub value: u64,
}

/// A pass as a pipeline names it, and what its options are given.
#[derive(Debug, Drop)]
pub struct Step<'a> {
    /// The pass's name, as it is written.
    pub name: &'a str,
    /// What its options are given, in the order in which that is written: no option is twice.
    pub settings: Vec<Setting<'a>>,
}

/// Why a text is no pipeline.
#[derive(Clone, Copy, Debug, Drop, Error)]
pub enum StepErr<'a> {
    /// A brace is opened behind a name, and what it opens doesn't end with the pass.
    #[error("'{step}' has no '}}' at its end")]
    Unclosed { step: &'a str },
    /// What stands between the braces is no option with a number.
    #[error("'{word}' is no option with a number, as NAME=NUMBER")]
    NoSetting { word: &'a str },
    /// An option is given what is no number from 0 to 18446744073709551615.
    #[error("'{number}' is no number for the option '{name}'")]
    NoNumber { name: &'a str, number: &'a str },
    /// An option is given two numbers.
    #[error("the option '{name}' is given twice")]
    Twice { name: &'a str },
    /// A growth was refused.
    #[error("out of memory")]
    OutOfMemory,
}

impl From<AllocError> for StepErr<'_> {
    ghost use Rattle.std.specs.Prelude.{◌≡◌};
    ghost use Rattle.plir_pipelines.specs.declared.step.StepErr.TheVariants as Variants;

    ghost from_gives = { λ _ e. e ≡ Variants.OutOfMemory };

    fn from(_error: AllocError) -> Self {
        StepErr::OutOfMemory
    }
}

impl<T: Drop> From<AllocFailed<T>> for StepErr<'_> {
    ghost use Rattle.std.specs.Prelude.{◌≡◌};
    ghost use Rattle.plir_pipelines.specs.declared.step.StepErr.TheVariants as Variants;

    ghost from_gives = { λ _ e. e ≡ Variants.OutOfMemory };

    fn from(_error: AllocFailed<T>) -> Self {
        StepErr::OutOfMemory
    }
}
