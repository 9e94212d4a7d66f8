// SPDX-License-Identifier: Apache-2.0
//! Op sets of small parts: kinds of operations, attributes and types of one's own, each of which says what its own
//! values tell; two such sets in one; and what passes ask of them.
#![tactic(auto)]

mod dialect;
mod effects;
mod flows;
mod folds;
mod joined;
pub mod laws;
mod live_types;
mod one_of;
mod own_attr;
mod own_names;
mod own_rules;
mod own_type;
mod own_uses;
mod verdicts;

pub use dialect::{Dialect, DialectErr};
pub use joined::{Joined, Joining, Parts};
pub use live_types::LiveTypes;
pub use one_of::OneOf;
pub use own_attr::OwnAttr;
pub use own_names::{NamesAsBuiltin, OwnNames};
pub use own_rules::{NoRules, OwnRules};
pub use own_type::OwnType;
pub use own_uses::{NoUses, OwnUses};
