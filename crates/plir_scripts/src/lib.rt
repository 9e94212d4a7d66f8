// SPDX-License-Identifier: Apache-2.0
//! An interpreter of scripts, for tests. A line of a script is a call on nodes that earlier lines have made, and its
//! answer.
//!
//! A script is a text, with lines `CALL => ANSWER`; a line with no ` => ` has an empty answer. A call is a command and
//! its words, parted by single spaces. Nodes are named in the order in which the script has made them: `o0` is the
//! first operation, `r0` the first region, `b0` the first block, `t0` the first type, `o0.1` the second result of `o0`
//! and `b0.1` the second argument of `b0`. A call whose condition doesn't hold is answered by `refused`.
//! Between the lines `refuse` and `grant` all memory is refused, if a library is preloaded that does so.
#![tactic(auto)]

mod answer;
mod asking;
mod bench;
mod contents;
mod in_context;
mod line;
mod linking;
mod made;
mod making;
mod node_call;
mod own_set;
mod question;
mod refusing;
mod sample_set;
mod script_set;
mod showing;
mod stop;
mod texts;
mod written;

pub use answer::Answer;
pub use bench::{Bench, Layer, Mismatch, NodeCalls, play};
pub use in_context::{InContext, in_new_context};
pub use line::{Line, number, split_word};
pub use made::Made;
pub use making::{label_of, put_type_name};
pub use own_set::OwnSet;
pub use refusing::{grant_memory, refuse_memory};
pub use sample_set::{NotMarked, SampleAttr, SampleKind, SampleSet, SampleType};
pub use script_set::{ScriptKind, ScriptSet};
pub use showing::put_attr;
pub use stop::Stop;
pub use texts::{nested_text, put_fault, put_folded, unfold};
pub use written::value_of;
