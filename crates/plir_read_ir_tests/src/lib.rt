// SPDX-License-Identifier: Apache-2.0
//! Tests of `plir_read_own` and `plir_read_ir`, in a crate of their own, since a crate that holds its tests is proved
//! twice, once with them.
#![tactic(auto)]

#[cfg(test)]
mod headers;
pub mod kinds;
#[cfg(test)]
mod tests;
