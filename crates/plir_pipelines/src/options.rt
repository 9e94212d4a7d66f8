//! Passes whose options are given numbers.
ghost use Rattle.std.specs.Prelude.{◌≡◌, IfErr, IfOk, Some, map, slice_get};
ghost use Rattle.plir_pipelines.specs.Options.{Allows, AreSet, AreSetRefused, IsOfNumber, IsOutOfRange, IsSet};
ghost use Rattle.plir_pipelines.specs.Options.{IsSettingRefused, place_of, rule_of};

use crate::offered::Offered;
use crate::pass_option::PassOption;
use crate::passes::PipelineErr;
use crate::step::Setting;

// The place of the first option of a name.
fn place_of(options: &[PassOption], name: &str) -> Option<usize>
    ensures { result ≡ place_of (map rule_of options.now) name.now }
{
    options.iter().position(|option| option.name == name)
}

/// A pass with its option at a place given a number.
///
/// # Errors
///
/// `OutOfRange` where the option can't be given it.
pub(crate) fn set_at<'a, P: Offered>(
    pass: P,
    place: usize,
    option: PassOption,
    number: u64,
) -> Result<P, PipelineErr<'a>>
    requires { slice_get (P.pass_options pass) place ≡ Some (rule_of option) }
    ensures set { IfOk result (λ q. Allows (rule_of option) number × (q ≡ P.with_option pass place number)) }
    ensures named { IfOk result (λ q. P.pass_name q ≡ P.pass_name pass) }
    ensures same { IfOk result (λ q. P.pass_options q ≡ P.pass_options pass) }
    ensures refused { IfErr result (λ e. IsOutOfRange P.pass_name P.pass_options P.with_option pass place e ×
        IsOfNumber number e) }
{
    if option.least <= number && number <= option.most {
        return Ok(pass.with(place, number));
    }
    Err(PipelineErr::OutOfRange {
        pass: pass.name(),
        option,
        number,
    })
}

// A pass with the option that a setting names given its number.
fn set<'a, P: Offered>(pass: P, setting: Setting<'a>) -> Result<P, PipelineErr<'a>>
    ensures set { IfOk result (IsSet P.pass_name P.pass_options P.with_option setting.entry pass) }
    ensures refused { IfErr result (IsSettingRefused P.pass_name P.pass_options P.with_option setting.entry pass) }
{
    let options = pass.options();
    match place_of(options, setting.name) {
        Some(place) => set_at(pass, place, options[place], setting.value),
        None => Err(PipelineErr::NoOption {
            pass: pass.name(),
            name: setting.name,
        }),
    }
}

/// A pass with the options that settings name given their numbers, one after another.
///
/// # Errors
///
/// The first setting that names no option of the pass, or one that can't be given its number.
pub fn set_all<'a, P: Offered>(pass: P, settings: &[Setting<'a>]) -> Result<P, PipelineErr<'a>>
    ensures set { IfOk result (AreSet P.pass_name P.pass_options P.with_option settings.now pass) }
    ensures refused { IfErr result (AreSetRefused P.pass_name P.pass_options P.with_option settings.now pass) }
{
    let mut pass = pass;
    for setting in settings {
        pass = set(pass, *setting)?;
    }
    Ok(pass)
}
