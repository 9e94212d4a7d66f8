// SPDX-License-Identifier: Apache-2.0
//! Verifying a tree: each operation by the verifier of its kind, builtin or own, and each attribute that it holds.
#![tactic(auto)]

mod holding;
mod kinds;
mod tree;
mod tree_err;
mod verify_set;

pub use tree::verify_tree;
pub use tree_err::TreeVerifyErr;
pub use verify_set::{VerifyKind, VerifySet};
