// SPDX-License-Identifier: Apache-2.0
//! The law of the round trip: what is printed and read back is the same tree.
#![tactic(auto)]

mod below;
mod entries;
mod ir_readable;
pub mod laws;
mod nodes;
mod obstacle;
mod op_levels;
mod own;
mod part_levels;
mod reach;
mod readable;
mod uses;
mod values;

pub use ir_readable::ir_obstacle;
pub use obstacle::Obstacle;
pub use readable::is_readable;
