// SPDX-License-Identifier: Apache-2.0
//! What an op set tells of how control and values flow: which operations call, return and branch, with which operands,
//! and along which edges control passes between their regions.
#![tactic(auto)]

mod branch_set;
mod call_set;
mod region_edge_set;
mod searching;
mod told_ops;

pub use branch_set::{BranchKind, BranchSet};
pub use call_set::{Call, CallKind, CallSet, Callee};
pub use region_edge_set::{RegionEdgeKind, RegionEdgeSet};
pub use searching::call_sites;
pub use told_ops::{ToldBranch, ToldCall, ToldRegionEdges};
