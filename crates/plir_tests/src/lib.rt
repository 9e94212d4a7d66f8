// SPDX-License-Identifier: Apache-2.0
//! Tests of the crates up to `plir_core`, a module for each, in a crate of their own: a crate that holds its tests is
//! proved twice, once with them.
#![tactic(auto)]

#[cfg(test)]
mod checks;
#[cfg(test)]
mod data;
pub mod holder_set;
#[cfg(test)]
mod names;
#[cfg(test)]
mod nodes;
#[cfg(test)]
mod store;
