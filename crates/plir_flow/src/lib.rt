// SPDX-License-Identifier: Apache-2.0
//! How control and values flow between operations: operands in segments, branches, calls and edges between regions.
#![tactic(auto)]

mod branch_errors;
mod branches;
mod calls;
mod edge_ends;
mod edge_lists;
mod edge_parts;
mod edge_refusals;
mod edge_rule;
mod flow_lists;
mod forwarding;
mod hops;
pub mod laws;
mod once;
mod operand_ranges;
mod receiver_sets;
mod region_branches;
mod region_edge_errors;
mod segment_edits;
mod segment_sizes;
mod segment_types;
mod segments;

pub use branch_errors::{BranchOpInterfaceVerifyErr, NSuccsVerifyErr};
pub use branches::{BranchOpInterface, NSuccsInterface, OneSuccInterface};
pub use calls::{ATTR_KEY_CALLEE_TYPE, CallOpCallable, CallOpInterface, CallOpInterfaceErr};
pub use edge_ends::{RegionBranchPoint, RegionEdge, RegionSuccessor};
pub use region_branches::RegionBranchOpInterface;
pub use region_edge_errors::RegionBranchOpInterfaceVerifyErr;
pub use segment_sizes::ATTR_KEY_OPERAND_SEGMENT_SIZES;
pub use segment_types::{SegmentNImplsTy, SegmentNOfType, SegmentNOfTypeError};
pub use segments::{OperandSegmentInterface, OperandSegmentInterfaceVerifyErr};
