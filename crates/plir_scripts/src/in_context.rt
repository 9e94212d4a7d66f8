//! New contexts that are lent.
use plir_core::Context;
use plir_data::OpSet;
use std::alloc::Global;

/// Something that is done with a context.
pub trait InContext<D: OpSet> {
    /// What is answered.
    type Answer;

    /// Does it.
    fn run(self, ctx: &mut Context<D>) -> Self::Answer;
}

/// Does something with a new context. A function that owns a context takes long to prove, and so does a crate that lets
/// one go: tests have theirs lent by this function, as scripts have.
pub fn in_new_context<D: OpSet, T: InContext<D>>(alloc: Global, task: T) -> T::Answer {
    task.run(&mut Context::new(alloc))
}
