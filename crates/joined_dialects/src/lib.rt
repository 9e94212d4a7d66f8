// SPDX-License-Identifier: Apache-2.0
//! Three dialects over `plir_dialect`, each as a crate of its own would have it, joined in one op set.
#![tactic(auto)]

pub mod batch_op;
pub mod both;
pub mod flow;
pub mod my;
pub mod note;
pub mod toy;
