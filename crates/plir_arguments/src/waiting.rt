//! The blocks of a tree, and those of them that have to be looked at.
ghost use Rattle.std.specs.Prelude.{◌≡◌, ◌<◌, IfOk, IfSome, length, slice_set};
ghost use Rattle.plir_core.specs.declared.ptr.IRNode.{IRNode as AnyNode};
ghost use Rattle.plir_core.specs.ContextView.{IsLive};
ghost use Rattle.plir_arguments.specs.Listed.{AreBlocksBelow};

use crate::listing::blocks_below;
use plir_core::{BasicBlock, Context, Operation, Ptr};
use plir_data::{Memory, OpSet};
use std::alloc::Global;
use std::collections::HashMap;

/// Blocks, each at a place of a list, where it is replaced by the one that comes for it; and the places of those that
/// wait to be looked at: the one that was put last is taken first. A block may wait more than once.
#[derive(Drop)]
pub(crate) struct Blocks {
    pub(crate) list: Vec<Ptr<BasicBlock>>,
    places: HashMap<Ptr<BasicBlock>, usize>,
    waiting: Vec<usize>,
}

impl Blocks {
    // No block is known, and none waits.
    fn new(alloc: Global, list: Vec<Ptr<BasicBlock>>) -> Blocks
        ensures { result.list ≡ list }
    {
        Blocks {
            list,
            places: HashMap::new(alloc),
            waiting: Vec::new(alloc),
        }
    }

    /// The blocks below an operation, all of which wait.
    pub(crate) fn below<D: OpSet>(
        alloc: Global,
        ctx: &Context<D>,
        root: Ptr<Operation>,
    ) -> Result<Blocks, Memory>
        requires { IsLive ctx.now (AnyNode.Operation root) }
        ensures { IfOk result (λ blocks. AreBlocksBelow ctx.now root blocks.list.items) }
    {
        let list = blocks_below(alloc, ctx, root)?;
        let mut blocks = Blocks::new(alloc, list);
        blocks.put_all()?;
        Ok(blocks)
    }

    // Lets all blocks wait, the first of them to be taken last.
    fn put_all(&mut self) -> Result<(), Memory>
        ensures { self.new.list ≡ self.old.list }
    {
        for at in 0..self.list.len() {
            let block = self.list[at];
            self.put_at(at, block)?;
        }
        Ok(())
    }

    // Lets the block wait that stands at a place.
    fn put_at(&mut self, at: usize, block: Ptr<BasicBlock>) -> Result<(), Memory>
        ensures { self.new.list ≡ self.old.list }
    {
        self.places.insert(block, at)?;
        self.waiting.push(at)?;
        Ok(())
    }

    /// Lets a block wait once more, if it is listed.
    pub(crate) fn put_again(&mut self, block: Ptr<BasicBlock>) -> Result<(), Memory>
        ensures { self.new.list ≡ self.old.list }
    {
        if let Some(at) = self.places.get(&block) {
            self.waiting.push(*at)?;
        }
        Ok(())
    }

    /// Puts a block in place of the one at a place, and lets it wait. If memory is refused it stands there, but may not
    /// wait.
    pub(crate) fn replace(&mut self, at: usize, block: Ptr<BasicBlock>) -> Result<(), Memory>
        requires { at < length self.old.list.items }
        ensures { self.new.list.items ≡ slice_set self.old.list.items at block }
    {
        self.list[at] = block;
        self.put_at(at, block)
    }

    /// Takes the place of the block that was put last, if one waits.
    pub(crate) fn take(&mut self) -> Option<usize>
        ensures list { self.new.list ≡ self.old.list }
        ensures below { IfSome result (λ at. at < length self.old.list.items) }
        ensures fewer { IfSome result (λ at. length self.new.waiting.items < length self.old.waiting.items) }
    {
        let at = self.waiting.pop()?;
        if at < self.list.len() { Some(at) } else { None }
    }
}
