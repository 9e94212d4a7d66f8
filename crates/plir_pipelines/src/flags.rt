//! The options of passes as options of a command line: `--NAME-OPTION NUMBER`.
ghost use Rattle.std.specs.Prelude.{◌≡◌, ◌++◌, IfErr, IfOk, OnOk, Some, codes, map, slice_get, string_bytes};
ghost use Rattle.plir_pipelines.specs.Flags.{AreConfigured, IsConfigureRefused, IsConfigured, IsFlagRefused};
ghost use Rattle.plir_pipelines.specs.Flags.{IsNumberGiven, IsNumberRefused, flag_name, flags_in, flags_of_pass};
ghost use Rattle.plir_pipelines.specs.Flags.{given_for};
ghost use Rattle.plir_pipelines.specs.Options.{rule_of};

use crate::offered::Offered;
use crate::options::set_at;
use crate::pass_option::PassOption;
use crate::passes::PipelineErr;
use crate::settings::read_number;
use crate::step::StepErr;
use std::alloc::{AllocError, Global};

/// An option of a command line for one of a pass.
#[derive(Drop)]
pub struct Flag {
    /// Its name: that of the pass, a dash, and that of the pass's option.
    pub text: String,
    /// What help says of it.
    pub help: String,
}

/// An option of a command line that is given a number.
#[derive(Clone, Copy, Debug)]
pub struct Given<'a> {
    /// Its name.
    pub flag: &'a str,
    /// The number, as it is written.
    pub number: &'a str,
}

// The name of the option of a command line for one of a pass.
fn flag_text(alloc: Global, pass: &str, option: &str) -> Result<String, AllocError>
    ensures { IfOk result (λ t. string_bytes t ≡ flag_name pass.now option.now) }
{
    format!(in alloc; "{pass}-{option}")
}

// That option.
fn flag_of(alloc: Global, pass: &str, option: PassOption) -> Result<Flag, AllocError>
    ensures { IfOk result (λ f. string_bytes f.text ≡ flag_name pass.now option.name.now) }
{
    let PassOption {
        name,
        help,
        least,
        most,
        default,
    } = option;
    Ok(Flag {
        text: flag_text(alloc, pass, name)?,
        help: format!(in alloc;
            "Option of {pass}: {help}, from {least} to {most} [default: {default}]"
        )?,
    })
}

// Puts those of a pass behind others.
fn put_flags<P: Offered>(alloc: Global, flags: &mut Vec<Flag>, pass: P) -> Result<(), AllocError>
    ensures { OnOk result (map (λ f. string_bytes f.text) flags.new.items ≡
        map (λ f. string_bytes f.text) flags.old.items ++ flags_of_pass (P.pass_name pass) (P.pass_options pass)) }
{
    let name = pass.name();
    for option in pass.options() {
        flags.push(flag_of(alloc, name, *option)?)?;
    }
    Ok(())
}

/// Those of some passes, in their order.
pub fn flags_of<P: Offered>(alloc: Global, passes: &[P]) -> Result<Vec<Flag>, AllocError>
    ensures { IfOk result (λ v. map (λ f. string_bytes f.text) v.items ≡
        flags_in P.pass_name P.pass_options passes.now) }
{
    let mut flags = Vec::new(alloc);
    for pass in passes {
        put_flags(alloc, &mut flags, *pass)?;
    }
    Ok(flags)
}

// What an option of a command line is given, if it is.
fn given_for<'a>(given: &[Given<'a>], flag: &str) -> Option<Given<'a>>
    ensures { result ≡ given_for given.now flag.now }
{
    given.iter().copied().find(|it| it.flag == flag)
}

// The number that an option of a pass is given; its own, where it is given none.
fn number_given<'a>(
    alloc: Global,
    given: &[Given<'a>],
    pass: &str,
    option: PassOption,
) -> Result<u64, PipelineErr<'a>>
    ensures given { IfOk result (IsNumberGiven given.now pass.now (rule_of option)) }
    ensures refused { IfErr result (IsNumberRefused given.now pass.now (rule_of option)) }
{
    let flag = flag_text(alloc, pass, option.name)?;
    match given_for(given, flag.as_str()) {
        None => Ok(option.default),
        Some(Given { flag, number }) => match read_number(number) {
            Some(number) => Ok(number),
            None => Err(PipelineErr::Malformed {
                err: StepErr::NoNumber { name: flag, number },
            }),
        },
    }
}

// A pass with its options as a command line gives them.
fn configured_one<'a, P: Offered>(
    alloc: Global,
    given: &[Given<'a>],
    pass: P,
) -> Result<P, PipelineErr<'a>>
    ensures configured { IfOk result (IsConfigured P.pass_name P.pass_options P.with_option given.now pass) }
    ensures refused { IfErr result (IsFlagRefused P.pass_name P.pass_options given.now pass) }
{
    let name = pass.name();
    let options = pass.options();
    let mut configured = pass;
    for (place, option) in options.iter().enumerate() {
        let number = number_given(alloc, given, name, *option)?;
        configured = set_at(configured, place, *option, number)?;
    }
    Ok(configured)
}

/// Passes with their options as a command line gives them, and each option that it gives none with its own number.
///
/// # Errors
///
/// One that is given what is no number, or that can't be given its number; or memory was wanting.
pub fn configured<'a, P: Offered>(
    alloc: Global,
    given: &[Given<'a>],
    offered: &[P],
) -> Result<Vec<P>, PipelineErr<'a>>
    ensures configured { IfOk result (λ v.
        AreConfigured P.pass_name P.pass_options P.with_option given.now offered.now v.items) }
    ensures refused { IfErr result (IsConfigureRefused P.pass_name P.pass_options given.now offered.now) }
{
    let mut passes = Vec::new(alloc);
    for pass in offered {
        passes.push(configured_one(alloc, given, *pass)?)?;
    }
    Ok(passes)
}
