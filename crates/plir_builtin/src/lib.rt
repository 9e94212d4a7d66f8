// SPDX-License-Identifier: Apache-2.0
//! The builtin dialect: symbols, the tables that look them up by their names, the verifier of tables, and the four
//! operations.
#![tactic(auto)]

mod applying;
mod collection;
mod constant_op;
mod forward_ref_op;
mod func_op;
mod inserting;
pub mod laws;
mod lookup;
mod materializable;
mod module_op;
mod nearest;
mod op_making;
mod op_verify_err;
mod reading;
mod scanning;
mod symbol_edits;
mod symbol_op;
mod symbol_table;
mod symbol_table_err;
mod symbol_table_op;
mod symbol_user_op;
mod symbol_users;
mod symbols;
mod table_body;
mod table_links;
mod walking;

pub use collection::SymbolTableCollection;
pub use constant_op::{ConstantOp, ConstantOpVerifyErr};
pub use forward_ref_op::{ForwardRefOp, ForwardRefOpExistenceErr};
pub use func_op::{FuncOp, FuncOpTypeErr, find_func_type};
pub use materializable::MaterializableAttr;
pub use module_op::ModuleOp;
pub use nearest::nearest_symbol_table;
pub use op_making::{named, new_with_block, put_under};
pub use op_verify_err::{OpVerifyErr, reported};
pub use plir_data::keys::{ATTR_KEY_BUILTIN_FUNC_TYPE, ATTR_KEY_CONSTANT_VALUE, ATTR_KEY_SYM_NAME};
pub use symbol_edits::{SymbolEdit, SymbolEditErr};
pub use symbol_op::SymbolOpInterface;
pub use symbol_table::SymbolTable;
pub use symbol_table_err::SymbolTableErr;
pub use symbol_table_op::{SymbolTableInterface, SymbolTableInterfaceErr};
pub use symbol_user_op::SymbolUserOpInterface;
pub use symbol_users::{SymbolUserSet, SymbolUses};
pub use symbols::{SymbolOpInterfaceErr, is_symbol, name_in, symbol_name};
pub use table_body::body_of;
pub use table_links::TableLinks;
pub use walking::{SymbolTableWalkerCallback, walk_symbol_table};
