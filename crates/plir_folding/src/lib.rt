// SPDX-License-Identifier: Apache-2.0
//! Folding: operands that are worth a constant become constants, and operands that stand for a value become that value.
#![tactic(auto)]

mod fold_set;
mod folding;
mod identities;
mod identity_set;
pub mod laws;
mod merging;
mod reading;
mod sums;
mod values;
mod worklist;

pub use fold_set::{FoldKind, FoldSet};
pub use folding::fold_constants;
pub use identity_set::{IdentityKind, IdentitySet, Side};
pub use merging::merge_constants;
pub use sums::{is_zero, wrapping_sum};
pub use values::fold_values;
