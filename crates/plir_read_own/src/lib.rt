// SPDX-License-Identifier: Apache-2.0
//! The reader of what stands in the text of an own operation before its regions.
#![tactic(auto)]

pub mod headers;
pub mod openings;
mod read_set;
pub mod signatures;
pub mod uses;

pub use headers::{OwnHeader, read_own_header};
pub use read_set::{ReadKind, ReadSet};
pub use signatures::OwnSignature;
pub use uses::OwnUses;
