//! What is done with trees of operations of both crates. Each is generic in the set, and one function alone does it over
//! the joined one, whose parts are all written out in a proof.
use super::kinds::HasBoth;
use super::names::find_name;
use super::passes::{fold_sum, sweep_dead};
use super::verdicts::verify_wrong;
use crate::joined::Both;
use plir_core::Context;
use plir_folding::FoldSet;
use plir_passes::EffectSet;
use plir_scripts::{InContext, Stop, in_new_context};
use plir_symbols::SymbolNames;
use plir_verify::VerifySet;
use std::alloc::Global;

/// What is done with a tree in a new context.
#[derive(Clone, Copy)]
pub enum Task {
    /// What is dead of either crate is swept.
    Sweep,
    /// A sum of constants is folded.
    Fold,
    /// What an operation names is found.
    Name,
    /// Wrong operations of each crate are verified.
    Verify,
}

/// Does it.
#[derive(Drop)]
struct Does {
    alloc: Global,
    task: Task,
}

impl<D: EffectSet + FoldSet + SymbolNames + VerifySet + HasBoth> InContext<D> for Does {
    type Answer = Result<String, Stop>;

    // What is told of it.
    fn run(self, ctx: &mut Context<D>) -> Result<String, Stop> {
        match self.task {
            Task::Sweep => sweep_dead(self.alloc, ctx),
            Task::Fold => fold_sum(self.alloc, ctx),
            Task::Name => find_name(self.alloc, ctx),
            Task::Verify => verify_wrong(self.alloc, ctx),
        }
    }
}

/// Does it in a new context of the joined set, and answers what is told of it.
pub fn do_in_both(alloc: Global, task: Task) -> Result<String, Stop> {
    in_new_context::<Both, _>(alloc, Does { alloc, task })
}
