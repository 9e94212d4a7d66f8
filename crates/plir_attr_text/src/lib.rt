// SPDX-License-Identifier: Apache-2.0
//! Texts of types and attributes: readers and printers.
#![tactic(auto)]

pub mod attr_words;
pub mod attrs;
pub mod fault;
pub mod laws;
mod levels;
pub mod place;
mod print_attrs;
mod put;
mod read_attrs;
pub mod read_types;
mod strings;
pub mod tokens;
pub mod types;
pub mod words;
mod writable;

pub use fault::{Fault, ReadErr};
pub use levels::is_within_levels;
pub use print_attrs::print_attr;
pub use read_attrs::read_attr;
pub use read_types::{read_function_type, read_integer_type, read_type};
pub use writable::is_writable;
