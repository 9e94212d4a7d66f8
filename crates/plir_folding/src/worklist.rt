//! Operations that wait to be folded, each behind those that make its operands.
ghost use Rattle.std.specs.Prelude.{◌≡◌, ◌++◌, [], None, IfOk, OnOk, option_to_list};
ghost use Rattle.plir_core.specs.declared.ptr.IRNode.{IRNode as AnyNode};
ghost use Rattle.plir_core.specs.Forest.{look, IsBelow};
ghost use Rattle.plir_core.specs.ContextView.{IsLive, IsValueLive};
ghost use Rattle.plir_folding.specs.Worklists.{AreOf, IsListedAt, IsPrepared, IsPut, WaitMore};

use crate::reading::maker_of;
use plir_core::{Context, IRNode, Operation, Ptr, Value};
use plir_data::{Memory, OpSet};
use plir_walk::WALKCONFIG_POSTORDER_REVERSE;
use plir_walk::interruptible::{WalkResult, walk_advance, walk_break};
use plir_walk::operations::immutable::walk_ops;
use std::alloc::Global;
use std::collections::HashSet;
use std::ops::ControlFlow;

/// What waits to be done.
#[derive(Clone, Copy)]
pub(crate) enum Step {
    /// An operation is to be prepared, if it is listed.
    Prepare(Ptr<Operation>),
    /// The operands of an operation are to be folded.
    Fold(Ptr<Operation>),
}

/// Operations that are listed, which are still to be prepared, and what waits to be done: what was put last is done
/// first.
#[derive(Drop)]
pub(crate) struct Worklist {
    listed: HashSet<Ptr<Operation>>,
    waiting: Vec<Step>,
}

impl Worklist {
    /// None is listed, and nothing waits.
    fn new(alloc: Global) -> Worklist
        ensures listed { result.listed.keys ≡ [] }
        ensures waiting { result.waiting.items ≡ [] }
    {
        Worklist {
            listed: HashSet::new(alloc),
            waiting: Vec::new(alloc),
        }
    }

    /// Lists an operation, and lets it wait to be prepared.
    fn put(&mut self, op: Ptr<Operation>) -> Result<(), Memory>
        ensures { OnOk result (IsPut op self.old self.new) }
    {
        self.listed.insert(op)?;
        self.waiting.push(Step::Prepare(op))?;
        Ok(())
    }

    /// Takes what was put last, if anything waits.
    pub(crate) fn take(&mut self) -> Option<Step>
        ensures listed { self.new.listed.keys ≡ self.old.listed.keys }
        ensures waiting { self.old.waiting.items ≡ self.new.waiting.items ++ option_to_list result }
        ensures none { result ≡ None → self.old.waiting.items ≡ [] }
    {
        self.waiting.pop()
    }

    /// Prepares an operation, if it is listed: it waits to be folded, and those listed ones that make its operands wait
    /// to be prepared before that. It is listed no more.
    pub(crate) fn prepare<D: OpSet>(
        &mut self,
        ctx: &Context<D>,
        op: Ptr<Operation>,
    ) -> Result<(), Memory>
        requires { IsLive ctx.now (AnyNode.Operation op) }
        ensures { OnOk result (IsPrepared self.old self.new) }
    {
        if !self.listed.remove(&op) {
            return Ok(());
        }
        self.waiting.push(Step::Fold(op))?;
        for place in 0..op.get_num_operands(ctx) {
            self.put_maker(ctx, op.get_operand(ctx, place))?;
        }
        Ok(())
    }

    // Lets the operation wait that makes a value, if it is listed.
    fn put_maker<D: OpSet>(&mut self, ctx: &Context<D>, value: Value) -> Result<(), Memory>
        requires { IsValueLive ctx.now value }
        ensures { OnOk result (WaitMore 1 self.old self.new) }
    {
        let Some(maker) = maker_of(ctx, value) else {
            return Ok(());
        };
        if self.listed.contains(&maker) {
            self.waiting.push(Step::Prepare(maker))?;
        }
        Ok(())
    }
}

// Lists an operation that has operands and is not the root; or breaks the walk off for want of memory.
fn list_at<D: OpSet>(
    ctx: &Context<D>,
    root: Ptr<Operation>,
    list: &mut Worklist,
    op: Ptr<Operation>,
) -> WalkResult<Memory>
    requires { IsLive ctx.now (AnyNode.Operation op) }
    ensures { IsListedAt root list.old op result list.new }
{
    if op == root {
        return walk_advance();
    }
    if op.get_num_operands(ctx) == 0 {
        return walk_advance();
    }
    match list.put(op) {
        Ok(()) => walk_advance(),
        Err(refused) => walk_break(refused),
    }
}

/// Lists the operations below a root that have operands. All of them wait to be prepared, the first one first.
pub(crate) fn list_below<D: OpSet>(
    alloc: Global,
    ctx: &Context<D>,
    root: Ptr<Operation>,
) -> Result<Worklist, Memory>
    requires { IsLive ctx.now (AnyNode.Operation root) }
    ensures { IfOk result (AreOf (λ p. IsBelow (look ctx.now) (AnyNode.Operation root) (AnyNode.Operation p))) }
{
    ctx.stands();
    let mut list = Worklist::new(alloc);
    let list_op = |c: &Context<D>, l: &mut Worklist, p: Ptr<Operation>| -> WalkResult<Memory>
        requires { IsLive c.now (AnyNode.Operation p) }
        ensures { IsListedAt root l.old p result l.new }
    { list_at(c, root, l, p) };
    match walk_ops(
        ctx,
        &mut list,
        &WALKCONFIG_POSTORDER_REVERSE,
        IRNode::Operation(root),
        list_op,
    ) {
        ControlFlow::Continue(_) => Ok(list),
        ControlFlow::Break(refused) => Err(refused),
    }
}
