// SPDX-License-Identifier: Apache-2.0
//! Arguments of blocks that nothing uses: a block is made anew without one.
#![tactic(auto)]

mod blocks;
mod branch_edit_set;
mod branching;
mod dropping;
mod dropping_all;
mod finding;
mod giving;
mod listing;
mod names;
mod placing;
mod testing;
mod waiting;

pub use branch_edit_set::{BranchEditKind, BranchEditSet};
pub use dropping::drop_argument;
pub use dropping_all::drop_unused_arguments;
pub use testing::can_drop_argument;
