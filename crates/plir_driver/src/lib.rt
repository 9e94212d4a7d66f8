// SPDX-License-Identifier: Apache-2.0
//! A program over the operations of an op set and some passes over them, in one call: it reads the text of one
//! operation, verifies it, runs passes over it, and prints it: as a text, as a list of nodes, as a graph or as a call
//! graph. Passes are values of a trait: those of the library and those of one's own, and what the program promises is
//! made of what each of them promises. So a pass is tried on a text of any dialect by a program of a few lines.
#![tactic(auto)]

pub mod choices;
mod choosing;
mod counts;
mod dumps;
mod excerpt;
mod handling;
mod judging;
mod library;
mod listing;
mod locating;
mod log;
mod names;
mod one_of_pass;
mod output;
mod parts;
mod pass;
mod pass_end;
mod pass_err;
mod progress;
mod running;
mod source;
pub mod stop;
mod telling;
mod text_reader;
mod timing;
mod tracing;
pub mod transform;

pub use judging::{TestErr, judge};
pub use library::LibraryPass;
pub use log::Log;
pub use parts::{MARK, Part, parts_of};
pub use pass::Pass;
pub use pass_end::{PassEnd, end_of_erasures};
pub use pass_err::PassErr;
pub use plir_command::About;
pub use plir_pipelines::{
    FlagErr, OWN_WORDS, OfferErr, Offered, OneOf, PassOption, PipelineErr, check_flags,
    check_offer, passes_named,
};
pub use progress::{Progress, Watch};
pub use running::opt_main;
pub use text_reader::{BuiltinTexts, OwnTexts, TextReader};
