// SPDX-License-Identifier: Apache-2.0
//! The context: operations, regions and blocks, the values between them, and the calls that read and change them.
#![tactic(auto)]

mod arena;
mod context;
mod editing;
mod erasing;
mod held;
mod insertion_point;
mod interface;
pub mod laws;
mod less_than;
mod links;
mod new_nodes;
mod node;
mod placing;
mod ptr;
mod splicing;
mod uses;
mod value;

pub use arena::making::NodeErr;
pub use context::Context;
pub use insertion_point::OpInsertionPoint;
pub use interface::{Interface, kind_impls, op_impls};
pub use less_than::LessThanN;
pub use ptr::{BasicBlock, IRNode, Operation, Ptr, Region};
pub use uses::Use;
pub use value::{DefiningEntity, Value};
