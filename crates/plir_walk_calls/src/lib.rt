// SPDX-License-Identifier: Apache-2.0
//! The calls of scripts on walks and given names, copies and inlining, a module for each layer, and how such a script
//! is played.
#![tactic(auto)]

pub mod copies;
pub mod inline;
mod new_names;
pub mod walk;
