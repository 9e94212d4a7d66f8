//! What is known of bodies while nothing changes.
ghost use Rattle.std.specs.Prelude.{◌≡◌, IfOk, OnOk};
ghost use Rattle.std.specs.HashMap.{get};
ghost use Rattle.plir_core.specs.declared.ptr.IRNode.{IRNode as AnyNode};
ghost use Rattle.plir_core.specs.declared.ptr.Operation.{Operation as OperationKind};
ghost use Rattle.plir_core.specs.ContextView.{ContextView, IsLive};
ghost use Rattle.plir_inliner.specs.Known.{AreRight, IsTold, ptr_eq};

use crate::plain::plain_cost;
use plir_core::{BasicBlock, Context, Ptr};
use plir_data::Memory;
use plir_flow_sets::CallSet;
use std::alloc::Global;
use std::collections::HashMap;

/// Of each block that was asked for, what its copy costs, if it is plain: so each body is looked at once while nothing
/// changes.
#[derive(Drop)]
pub(crate) struct Bodies {
    told: HashMap<Ptr<BasicBlock>, Option<usize>>,
    /// Whether one that was looked at is not plain.
    pub(crate) is_any_refused: bool,
}

impl Bodies {
    /// None.
    pub(crate) fn new<D: CallSet>(alloc: Global, ctx: &Context<D>) -> Bodies
        ensures { AreRight D.is_symbol D.call D.returned ctx.now result }
    {
        ctx.stands();
        Bodies {
            told: HashMap::new(alloc),
            is_any_refused: false,
        }
    }

    // What is told of a block, if it was asked for.
    fn find(&self, block: Ptr<BasicBlock>) -> Option<Option<usize>>
        ensures { result ≡ get ptr_eq self.now.told block }
    {
        self.told.get(&block).copied()
    }

    // Keeps what is told of a block.
    fn keep<D: CallSet>(
        &mut self,
        ctx: &Context<D>,
        block: Ptr<BasicBlock>,
        told: Option<usize>,
    ) -> Result<(), Memory>
        requires { IsTold D.is_symbol D.call D.returned ctx.now block told }
        ensures { AreRight D.is_symbol D.call D.returned ctx.now self.old →
            OnOk result (AreRight D.is_symbol D.call D.returned ctx.now self.new) }
    {
        ctx.stands();
        let is_refused = told.is_none();
        self.is_any_refused |= is_refused;
        self.told.insert(block, told)?;
        Ok(())
    }

    /// What a copy of a block costs, if the block is plain.
    pub(crate) fn cost<D: CallSet>(
        &mut self,
        alloc: Global,
        ctx: &Context<D>,
        block: Ptr<BasicBlock>,
    ) -> Result<Option<usize>, Memory>
        requires live { IsLive ctx.now (AnyNode.BasicBlock block) }
        requires right { AreRight D.is_symbol D.call D.returned ctx.now self.old }
        ensures told { IfOk result (IsTold D.is_symbol D.call D.returned ctx.now block) }
        ensures right { OnOk result (AreRight D.is_symbol D.call D.returned ctx.now self.new) }
    {
        if let Some(told) = self.find(block) {
            return Ok(told);
        }
        let told = plain_cost(alloc, ctx, block)?;
        self.keep(ctx, block, told)?;
        Ok(told)
    }
}
