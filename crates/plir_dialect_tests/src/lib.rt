// SPDX-License-Identifier: Apache-2.0
//! Kinds of two crates in one op set: sums of `joined_dialects`, and views of this crate.
#![tactic(auto)]

pub mod joined;
#[cfg(test)]
mod tests;
pub mod view;
