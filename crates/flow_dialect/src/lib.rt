// SPDX-License-Identifier: Apache-2.0
//! A dialect whose operations call, return, branch and pass control to a region, as a crate of its own would have it.
#![tactic(auto)]

pub mod cond_branch;
pub mod kinds;
pub mod named_call;
pub mod scope;
mod words;
