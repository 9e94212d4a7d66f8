// SPDX-License-Identifier: Apache-2.0
//! The calls of scripts on builtin operations and their verifiers, a module for each layer, and how such a script is
//! played.
#![tactic(auto)]

pub mod builtin;
pub mod verify;
