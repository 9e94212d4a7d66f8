// SPDX-License-Identifier: Apache-2.0
//! What a context keeps its nodes in: values in numbered slots under versions, doubly linked lists of numbered
//! children, and lists of a fixed length.
#![tactic(auto)]

pub mod chains;
pub mod few;
mod hop;
pub mod slots;
