// SPDX-License-Identifier: Apache-2.0
//! Pictures of operations, in DOT: regions as clusters, nested as they are, blocks as boxes with their operations in
//! rows, arrows for where control goes on, and for what uses what; and call graphs, with a cluster for each module.
//! Each picture is a text that is told by one definition over the tree, and takes time linear in that text.
#![tactic(auto)]

mod arrows;
mod boxes;
mod calls;
mod clusters;
mod ends;
mod figure;
mod fronts;
mod graph;
mod labels;
pub mod laws;
mod nodes;
mod seats;

pub use calls::draw_calls;
pub use graph::draw;
pub use nodes::put_node;
