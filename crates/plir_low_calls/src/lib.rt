// SPDX-License-Identifier: Apache-2.0
//! The calls of scripts on types and attributes, their texts, and interfaces, a module for each layer, and how such a
//! script is played.
#![tactic(auto)]

pub mod attr_text;
pub mod data;
pub mod iface;
