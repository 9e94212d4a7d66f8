// SPDX-License-Identifier: Apache-2.0
//! The texts of operations and of edges between regions.
#![tactic(auto)]

mod children;
mod dictionaries;
mod edges;
mod fronts;
mod header_attrs;
mod headers;
pub mod laws;
mod layout;
mod names;
mod ops;
mod printable;
mod values;

pub use dictionaries::is_shown;
pub use edges::print_edge;
pub use header_attrs::{find_value, has_header};
pub use ops::print_op;
pub use printable::is_printable;
