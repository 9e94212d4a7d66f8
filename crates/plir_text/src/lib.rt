// SPDX-License-Identifier: Apache-2.0
//! All texts: types, attributes, operations and edges between regions, printed and read; the tests whether a thing can
//! be printed or read back, and the laws of texts. A program that prints or reads lists this crate.
#![tactic(auto)]

pub mod laws;

pub use plir_attr_text::{
    Fault, ReadErr, is_within_levels, is_writable, print_attr, read_attr, read_function_type,
    read_integer_type, read_type,
};
pub use plir_print::{has_header, is_printable, print_edge, print_op};
pub use plir_read::read_op;
pub use plir_roundtrip::is_readable;
