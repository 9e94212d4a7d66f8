//! How a test says to run a program.
ghost use Rattle.std.specs.Prelude.{◌≡◌, option_map};
ghost use Rattle.plir_checks.specs.Lines.{lines_of};
ghost use Rattle.plir_checks.specs.Lines.{lines_of};
ghost use Rattle.plir_checks.specs.Running.{run_in};

use crate::lines::{said, split_line};

/// What the words of a run stand behind.
const RUN: &str = "RUN:";

/// What stands behind `RUN:` in the first comment that begins with it, without the blanks around it.
pub fn read_run(text: &str) -> Option<&str>
    ensures { option_map (λ r. r.now) result ≡ run_in (lines_of text.now) }
{
    let mut rest = text;
    loop {
        let (line, behind) = split_line(rest);
        if let Some(words) = said(line, RUN) {
            return Some(words);
        }
        match behind {
            None => return None,
            Some(others) => rest = others,
        }
    }
}
