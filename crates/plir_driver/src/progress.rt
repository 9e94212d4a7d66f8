//! What is told of long work while it goes on.
use std::io::{self, IsTerminal};
use std::time::{Clock, Duration};

// From how many bytes on the work on a text is long.
const LONG: usize = 1_000_000;

/// Who is told which work begins.
pub trait Watch {
    /// Work of this name begins.
    fn begin(&self, work: &str);
}

/// The last line of a program's terminal, in which long work has its name while it goes on. Where the standard error is
/// no terminal, or the work isn't long, nothing is told.
#[derive(Drop)]
pub struct Progress<'a> {
    rt: &'a HostRuntime,
    is_shown: bool,
}

impl<'a> Progress<'a> {
    /// For the work on a text of so many bytes.
    pub fn new(rt: &'a HostRuntime, bytes: usize) -> Progress<'a> {
        let is_shown = bytes >= LONG && rt.stderr().is_terminal();
        Progress { rt, is_shown }
    }

    /// Takes back what is told.
    pub fn clear(&self) {
        self.show("");
    }

    // Puts a text in place of what stands in the line. (Where it can't be put, the work goes on all the same.)
    fn show(&self, text: &str) {
        if self.is_shown {
            let _ = eprint!(self.rt; "\r\x1b[K{text}");
        }
    }
}

impl Watch for Progress<'_> {
    fn begin(&self, work: &str) {
        self.show(work);
    }
}

impl Clock for Progress<'_> {
    fn monotonic(&self) -> io::Result<Duration> {
        self.rt.monotonic()
    }

    fn since_1970(&self) -> io::Result<Duration> {
        self.rt.since_1970()
    }
}
