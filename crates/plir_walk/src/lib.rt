// SPDX-License-Identifier: Apache-2.0
//! Walks over the tree of operations, regions and blocks: which nodes a callback is called at, in which order, and how
//! a call stops the walk or leaves out what is below its node.
#![tactic(auto)]

pub mod config;
mod cursor;
mod erase_names;
pub mod given_names;
pub mod interruptible;
pub mod laws;
pub mod limit;
pub mod links;
mod name_list;
mod names_attr;
pub mod operations;
pub mod uninterruptible;

pub use config::{
    Direction, Order, WALKCONFIG_POSTORDER_FORWARD, WALKCONFIG_POSTORDER_REVERSE,
    WALKCONFIG_PREORDER_FORWARD, WALKCONFIG_PREORDER_REVERSE, WalkConfig,
};
pub use limit::CallLimit;
pub use links::{NodeLinks, TypedNode};
pub use names_attr::{GivenNamesErr, GivenNamesIncorrect};
pub use plir_core::IRNode;
pub use plir_data::keys::ATTR_KEY_GIVEN_NAMES;
