//! What options passes have.

/// An option of a pass, which is given a number.
#[derive(Clone, Copy, Debug)]
pub struct PassOption {
    /// Its name: a small letter, and then small letters, digits and dashes.
    pub name: &'static str,
    /// What it is for, as `--help` shows it.
    pub help: &'static str,
    /// The least number that it can be given.
    pub least: u64,
    /// The greatest one.
    pub most: u64,
    /// The number that it has where it is given none.
    pub default: u64,
}
