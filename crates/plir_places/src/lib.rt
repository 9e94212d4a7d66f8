// SPDX-License-Identifier: Apache-2.0
//! Where the operations of a tree stand in the text that they were read from: a text is gone through, byte for byte,
//! and the operations of the tree get the places at which one begins there.
#![tactic(auto)]

mod leads;
mod placing;
mod spots;
mod starts;

pub use placing::place_operations;
pub use starts::op_places;
