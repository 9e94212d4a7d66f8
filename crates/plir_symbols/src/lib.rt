// SPDX-License-Identifier: Apache-2.0
//! Passes over symbols: those that nothing uses are erased, and the graph of who uses which is made.
#![tactic(auto)]

mod builtin_names;
mod call_edges;
mod calling;
mod chains;
mod dead_symbols;
mod reached;
mod reaching;
mod symbol_names;

pub use builtin_names::{ATTR_KEY_SYM_VISIBILITY, is_marked_private, names_held, num_names_held};
pub use call_edges::{CallEdge, CallGraph};
pub use calling::call_graph;
pub use dead_symbols::eliminate_dead_symbols;
pub use symbol_names::{SymbolNameKind, SymbolNames};
