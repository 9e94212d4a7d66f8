// SPDX-License-Identifier: Apache-2.0
//! Callers of the laws of `plir_agreement` and of the laws that it stands beside: functions that carry the agreement of
//! cached tables over a call, each by its law and in the call's own words.
#![tactic(auto)]

mod carrying;

pub use carrying::{append, erase, fold, lower, read, relocate, replace_uses, sweep};
