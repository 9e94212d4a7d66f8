//! What a command line says of a pass.
ghost use Rattle.std.specs.Prelude.{◌≡◌, ℕ, List, map};
ghost use Rattle.plir_pipelines.specs.Options.{OptionRule, rule_of};

use crate::pass_option::PassOption;

/// A pass, as a command line offers it: by its name, with a line of help, and with options that are given numbers.
pub trait Offered: Copy {
    // Its name.
    ghost pass_name: { Self → List ℕ };

    // Its options, each with the numbers that it can be given.
    ghost pass_options: { Self → List OptionRule };

    // What it is once the option at a place is given a number.
    ghost with_option: { Self → ℕ → ℕ → Self };

    /// The name under which a command line asks for it: a small letter, and then small letters, digits and dashes.
    fn name(self) -> &'static str
        ensures { result.now ≡ pass_name self };

    /// What it does, in a line, as `--help` shows it.
    fn help(self) -> &'static str;

    /// Its options: each is given a number in a pipeline, as in `NAME{OPTION=NUMBER}`, or by `--NAME-OPTION NUMBER`. A
    /// pass without any answers `&[]`.
    fn options(self) -> &'static [PassOption]
        ensures { map rule_of result.now ≡ pass_options self };

    /// The pass, with the option at a place among [`options`](Offered::options), from 0, given a number. A pass without
    /// any answers itself.
    fn with(self, place: usize, number: u64) -> Self
        ensures given { result ≡ with_option self place number }
        ensures named { pass_name result ≡ pass_name self }
        ensures same { pass_options result ≡ pass_options self };
}
