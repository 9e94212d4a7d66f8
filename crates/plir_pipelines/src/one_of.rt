//! A pass of one of two kinds.
use crate::offered::Offered;
use crate::pass_option::PassOption;

/// A pass of one of two kinds, as those of the library and those of a program's own: so that the program offers both.
#[derive(Clone, Copy, Debug, PartialEq, Eq)]
pub enum OneOf<P, Q> {
    /// Of the first kind.
    First(P),
    /// Of the second kind.
    Second(Q),
}

/// As the pass's kind says.
impl<P: Offered, Q: Offered> Offered for OneOf<P, Q> {
    ghost use Rattle.plir_pipelines.specs.OneOfPasses.{name_by_kind, options_by_kind, with_by_kind};

    ghost pass_name = { name_by_kind P.pass_name Q.pass_name };

    ghost pass_options = { options_by_kind P.pass_options Q.pass_options };

    ghost with_option = { with_by_kind P.with_option Q.with_option };

    fn name(self) -> &'static str {
        match self {
            OneOf::First(pass) => pass.name(),
            OneOf::Second(pass) => pass.name(),
        }
    }

    fn help(self) -> &'static str {
        match self {
            OneOf::First(pass) => pass.help(),
            OneOf::Second(pass) => pass.help(),
        }
    }

    fn options(self) -> &'static [PassOption] {
        match self {
            OneOf::First(pass) => pass.options(),
            OneOf::Second(pass) => pass.options(),
        }
    }

    fn with(self, place: usize, number: u64) -> Self {
        match self {
            OneOf::First(pass) => OneOf::First(pass.with(place, number)),
            OneOf::Second(pass) => OneOf::Second(pass.with(place, number)),
        }
    }
}
