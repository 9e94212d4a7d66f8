// SPDX-License-Identifier: Apache-2.0
//! The calls of scripts on the flow of control, a module for each layer, and how such a script is played.
#![tactic(auto)]

pub mod flow;
pub mod flow_sets;
