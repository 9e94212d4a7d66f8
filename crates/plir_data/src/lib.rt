// SPDX-License-Identifier: Apache-2.0
//! The data that an IR is made of: names, places, types and attributes, and the set of a user's own.
#![tactic(auto)]

mod ap_int;
mod attr_clone;
mod attr_eq;
mod attr_hash;
mod attr_interfaces;
mod attr_verify;
mod attribute_dict;
mod attributes;
mod entries;
mod hashed;
mod identifier;
pub mod keys;
mod kind_set;
pub mod laws;
mod liveness;
mod location;
mod memory;
mod op_set;
mod ordering;
mod own_text;
mod places;
mod plain_attrs;
pub mod put;
mod text_attrs;
mod type_store;
mod type_table;
mod type_texts;
mod typed_handle;
mod types;

pub use ap_int::APInt;
pub use attr_interfaces::{OutlinedAttr, PrintOnceAttr, Typed, TypedAttrInterface};
pub use attr_verify::{AttrVerifyErr, IntegerAttrBitwidthErr};
pub use attribute_dict::AttributeDict;
pub use attributes::{AttrObj, DictAttr, GivenNamesAttr, OperandSegmentSizesAttr, VecAttr};
pub use entries::Entries;
pub use identifier::{Identifier, IdentifierErr, is_identifier};
pub use kind_set::{BuiltinSet, KindSet, NeverRefused, NoMeaning, OwnKind};
pub use location::{Location, VerifyErr};
pub use memory::Memory;
pub use op_set::{OpKind, OpSet};
pub use own_text::{OwnPart, OwnText};
pub use plain_attrs::{BoolAttr, IntegerAttr, TypeAttr, UnitAttr};
pub use text_attrs::{IdentifierAttr, StringAttr};
pub use type_store::TypeStore;
pub use type_table::TypeTable;
pub use type_texts::{put_own_text, type_text};
pub use typed_handle::{FunctionTypeMark, MarkName, TypeInterfaceMark, TypeMark, TypedHandle};
pub use types::{
    FunctionType, FunctionTypeInterface, IntegerType, Signedness, TypeHandle, TypeObj, TypeSig,
    UnitType,
};
