// SPDX-License-Identifier: Apache-2.0
//! Copies: maps that say what stands in place of values and blocks, and the copying of operations under them.
#![tactic(auto)]

mod blocks;
mod copying;
mod liveness;
mod reading;
mod room;
mod trees;
mod value_map;

pub use blocks::clone_block_into;
pub use copying::clone_op_into;
pub use liveness::images_stay_live;
pub use room::room_is_used_up;
pub use trees::{clone_block_tree_into, clone_tree_into};
pub use value_map::ValueMap;
