// SPDX-License-Identifier: Apache-2.0
//! What a program over passes reads and writes as texts: pipelines, which name passes and give their options numbers,
//! the options of a command line that passes need, and the table that tells how long each pass took. Nothing of it
//! knows what a pass does.
#![tactic(auto)]

mod flags;
mod offer;
mod offered;
mod one_of;
mod options;
mod pass_option;
mod passes;
mod pipeline;
mod settings;
mod step;
mod times;
pub mod words;

pub use flags::{Flag, Given, configured, flags_of};
pub use offer::{FlagErr, OfferErr, check_flags, check_offer};
pub use offered::Offered;
pub use one_of::OneOf;
pub use options::set_all;
pub use pass_option::PassOption;
pub use passes::{PipelineErr, pass_of, passes_named};
pub use pipeline::read_pipeline;
pub use settings::{read_number, read_setting, read_settings};
pub use step::{Setting, Step, StepErr};
pub use times::{PassTime, put_times};
pub use words::OWN_WORDS;
