//! Rounds: calls are inlined in their order, until none is left that can be.
ghost use Rattle.std.specs.Prelude.{◌≡◌, ◌+◌, ◌<◌, ◌≤◌, ◌^◌, IfErr, IfOk, IsTrue, OnErr, OnOk, false, true};
ghost use Rattle.plir_core.specs.declared.ptr.IRNode.{IRNode as AnyNode};
ghost use Rattle.plir_core.specs.ContextView.{IsLive};
ghost use Rattle.plir_core.specs.WellFormed.{IsWellFormed};
ghost use Rattle.plir_inliner.specs.Known.{AgreeStill, AreSure, SureStill};
ghost use Rattle.plir_inliner.specs.Rounds.{IsRoundEnd};
ghost use Rattle.plir_inliner.specs.Steps.{IsBelow, IsCutShort, IsOverBudget, IsPart, IsReady, NoneLeft};

use crate::bodies::Bodies;
use crate::candidates::{Step, first_step, step_at};
use crate::errors::InlineErr;
use crate::listing::calls_below;
use crate::order::{Turn, in_turn};
use crate::tally::Tally;
use plir_builtin::SymbolTableCollection;
use plir_builtin::laws::stayed_tables_agree;
use plir_core::laws::contexts_stand;
use plir_core::{Context, IRNode, Operation, Ptr};
use plir_data::Memory;
use plir_flow_sets::CallSet;
use plir_inline::inline_block;
use std::alloc::Global;
use std::collections::HashSet;

// Takes a step, and its cost off what is left; or answers that it costs more.
fn take<D: CallSet>(
    alloc: Global,
    ctx: &mut Context<D>,
    root: Ptr<Operation>,
    step: Step,
    tally: &mut Tally,
) -> Result<bool, InlineErr>
    requires root_live { IsLive ctx.old (AnyNode.Operation root) }
    requires ready { IsReady D.is_symbol D.is_symbol_table D.call D.returned root ctx.old step }
    requires fits { tally.old.calls + tally.old.left < 2 ^ 64 }
    ensures fits { OnOk result (tally.new.calls + tally.new.left ≤ tally.old.calls + tally.old.left) }
    ensures part { OnOk result (IsPart D.is_symbol D.is_symbol_table D.call D.returned root ctx.old ctx.new tally.old
        tally.new) }
    ensures over { IfOk result (λ r. r ≡ true → IsOverBudget D.is_symbol D.is_symbol_table D.call D.returned root
        ctx.new tally.new.left) }
    ensures less { IfOk result (λ r. r ≡ false → tally.new.left < tally.old.left) }
    ensures err { IfErr result (IsCutShort D.is_symbol D.is_symbol_table D.call D.returned root ctx.old ctx.new
        tally.old.left) }
    ensures sure_still { OnOk result (SureStill D.is_symbol D.is_symbol_table ctx.old ctx.new) }
    ensures agree_still { OnErr result (AgreeStill D.is_symbol D.is_symbol_table ctx.old ctx.new) }
    ensures root_live { IsLive ctx.new (AnyNode.Operation root) }
    ensures whole { IsWellFormed D.attr_handles ctx.new }
{
    ctx.stands();
    contexts_stand::<D>();
    stayed_tables_agree::<D>();
    if step.cost > tally.left {
        return Ok(true);
    }
    inline_block(alloc, ctx, step.call, step.block)?;
    tally.left -= step.cost;
    tally.calls += 1;
    Ok(false)
}

// Whether an operation is live, and stands below a root.
fn stands_below<D: CallSet>(ctx: &Context<D>, root: Ptr<Operation>, op: Ptr<Operation>) -> bool
    requires { IsLive ctx.now (AnyNode.Operation root) }
    ensures live { IsTrue result → IsLive ctx.now (AnyNode.Operation op) }
    ensures below { IsTrue result → IsBelow ctx.now root op }
{
    ctx.stands();
    if op == root {
        return false;
    }
    if !op.is_live(ctx) {
        return false;
    }
    IRNode::Operation(root).is_ancestor(ctx, IRNode::Operation(op))
}

// Functions that are shut for the rest of a round: the body of each was looked at, and is not plain, so no other call
// of it is tried.
#[derive(Drop)]
struct Shut {
    functions: HashSet<Ptr<Operation>>,
}

impl Shut {
    fn new(alloc: Global) -> Shut {
        Shut {
            functions: HashSet::new(alloc),
        }
    }

    fn has(&self, function: Ptr<Operation>) -> bool {
        self.functions.contains(&function)
    }

    fn put(&mut self, function: Ptr<Operation>) -> Result<(), Memory> {
        self.functions.insert(function)?;
        Ok(())
    }
}

// Inlines the call of a turn, if it can be. Answers whether that costs more than is left. Where the body of its
// function is not plain, the function is shut.
fn try_turn<D: CallSet>(
    alloc: Global,
    ctx: &mut Context<D>,
    tables: &mut SymbolTableCollection,
    root: Ptr<Operation>,
    turn: Turn,
    shut: &mut Shut,
    tally: &mut Tally,
) -> Result<bool, InlineErr>
    requires root_live { IsLive ctx.old (AnyNode.Operation root) }
    requires sure { AreSure D.is_symbol D.is_symbol_table ctx.old tables.old }
    requires fits { tally.old.calls + tally.old.left < 2 ^ 64 }
    ensures fits { OnOk result (tally.new.calls + tally.new.left ≤ tally.old.calls + tally.old.left) }
    ensures part { OnOk result (IsPart D.is_symbol D.is_symbol_table D.call D.returned root ctx.old ctx.new tally.old
        tally.new) }
    ensures over { IfOk result (λ r. r ≡ true → IsOverBudget D.is_symbol D.is_symbol_table D.call D.returned root
        ctx.new tally.new.left) }
    ensures err { IfErr result (IsCutShort D.is_symbol D.is_symbol_table D.call D.returned root ctx.old ctx.new
        tally.old.left) }
    ensures sure { OnOk result (AreSure D.is_symbol D.is_symbol_table ctx.new tables.new) }
    ensures sure_still { OnOk result (SureStill D.is_symbol D.is_symbol_table ctx.old ctx.new) }
    ensures agree_still { OnErr result (AgreeStill D.is_symbol D.is_symbol_table ctx.old ctx.new) }
    ensures root_live { IsLive ctx.new (AnyNode.Operation root) }
    ensures whole { IsWellFormed D.attr_handles ctx.new }
{
    ctx.stands();
    if shut.has(turn.function) {
        return Ok(false);
    }
    if !stands_below(ctx, root, turn.call) {
        return Ok(false);
    }
    let mut bodies = Bodies::new(alloc, ctx);
    if let Some(step) = step_at(alloc, ctx, tables, &mut bodies, turn.call)? {
        return take(alloc, ctx, root, step, tally);
    }
    if bodies.is_any_refused {
        shut.put(turn.function)?;
    }
    Ok(false)
}

// Inlines the call of each turn, if it can be. Answers whether one costs more than is left, and ends there.
fn try_turns<D: CallSet>(
    alloc: Global,
    ctx: &mut Context<D>,
    tables: &mut SymbolTableCollection,
    root: Ptr<Operation>,
    turns: &[Turn],
    tally: &mut Tally,
) -> Result<bool, InlineErr>
    requires root_live { IsLive ctx.old (AnyNode.Operation root) }
    requires sure { AreSure D.is_symbol D.is_symbol_table ctx.old tables.old }
    requires fits { tally.old.calls + tally.old.left < 2 ^ 64 }
    ensures fits { OnOk result (tally.new.calls + tally.new.left ≤ tally.old.calls + tally.old.left) }
    ensures part { OnOk result (IsPart D.is_symbol D.is_symbol_table D.call D.returned root ctx.old ctx.new tally.old
        tally.new) }
    ensures over { IfOk result (λ r. r ≡ true → IsOverBudget D.is_symbol D.is_symbol_table D.call D.returned root
        ctx.new tally.new.left) }
    ensures err { IfErr result (IsCutShort D.is_symbol D.is_symbol_table D.call D.returned root ctx.old ctx.new
        tally.old.left) }
    ensures sure { OnOk result (AreSure D.is_symbol D.is_symbol_table ctx.new tables.new) }
    ensures sure_still { OnOk result (SureStill D.is_symbol D.is_symbol_table ctx.old ctx.new) }
    ensures agree_still { OnErr result (AgreeStill D.is_symbol D.is_symbol_table ctx.old ctx.new) }
    ensures root_live { IsLive ctx.new (AnyNode.Operation root) }
    ensures whole { IsWellFormed D.attr_handles ctx.new }
{
    ctx.stands();
    let mut shut = Shut::new(alloc);
    for turn in turns {
        if try_turn(alloc, ctx, tables, root, *turn, &mut shut, tally)? {
            return Ok(true);
        }
    }
    Ok(false)
}

// How a round has ended.
#[derive(Clone, Copy)]
enum Round {
    // No call is left that can be inlined.
    NoneLeft,
    // At a call that costs more than is left.
    OverBudget,
    // After one was inlined at least.
    Again,
}

// Inlines the first call that can be, and then each one in its turn.
fn inline_round<D: CallSet>(
    alloc: Global,
    ctx: &mut Context<D>,
    tables: &mut SymbolTableCollection,
    root: Ptr<Operation>,
    tally: &mut Tally,
) -> Result<Round, InlineErr>
    requires root_live { IsLive ctx.old (AnyNode.Operation root) }
    requires sure { AreSure D.is_symbol D.is_symbol_table ctx.old tables.old }
    requires fits { tally.old.calls + tally.old.left < 2 ^ 64 }
    ensures fits { OnOk result (tally.new.calls + tally.new.left ≤ tally.old.calls + tally.old.left) }
    ensures part { OnOk result (IsPart D.is_symbol D.is_symbol_table D.call D.returned root ctx.old ctx.new tally.old
        tally.new) }
    ensures ended { IfOk result (IsRoundEnd D.is_symbol D.is_symbol_table D.call D.returned root ctx.new
        tally.old.left tally.new.left) }
    ensures err { IfErr result (IsCutShort D.is_symbol D.is_symbol_table D.call D.returned root ctx.old ctx.new
        tally.old.left) }
    ensures sure { OnOk result (AreSure D.is_symbol D.is_symbol_table ctx.new tables.new) }
    ensures sure_still { OnOk result (SureStill D.is_symbol D.is_symbol_table ctx.old ctx.new) }
    ensures agree_still { OnErr result (AgreeStill D.is_symbol D.is_symbol_table ctx.old ctx.new) }
    ensures root_live { IsLive ctx.new (AnyNode.Operation root) }
    ensures whole { IsWellFormed D.attr_handles ctx.new }
{
    ctx.stands();
    let calls = calls_below(alloc, ctx, root)?;
    let Some(first) = first_step(alloc, ctx, tables, root, &calls)? else {
        return Ok(Round::NoneLeft);
    };
    let turns = in_turn(alloc, ctx, tables, root, &calls)?;
    if take(alloc, ctx, root, first, tally)? {
        return Ok(Round::OverBudget);
    }
    if try_turns(alloc, ctx, tables, root, &turns, tally)? {
        return Ok(Round::OverBudget);
    }
    Ok(Round::Again)
}

/// Inlines calls under a root until none is left that can be. Answers whether one is left that costs more than is left
/// of the budget.
pub(crate) fn inline_all<D: CallSet>(
    alloc: Global,
    ctx: &mut Context<D>,
    tables: &mut SymbolTableCollection,
    root: Ptr<Operation>,
    tally: &mut Tally,
) -> Result<bool, InlineErr>
    requires root_live { IsLive ctx.old (AnyNode.Operation root) }
    requires sure { AreSure D.is_symbol D.is_symbol_table ctx.old tables.old }
    requires fits { tally.old.calls + tally.old.left < 2 ^ 64 }
    ensures fits { OnOk result (tally.new.calls + tally.new.left ≤ tally.old.calls + tally.old.left) }
    ensures part { OnOk result (IsPart D.is_symbol D.is_symbol_table D.call D.returned root ctx.old ctx.new tally.old
        tally.new) }
    ensures over { IfOk result (λ r. r ≡ true → IsOverBudget D.is_symbol D.is_symbol_table D.call D.returned root
        ctx.new tally.new.left) }
    ensures none_left { IfOk result (λ r. r ≡ false → NoneLeft D.is_symbol D.is_symbol_table D.call D.returned root
        ctx.new) }
    ensures err { IfErr result (IsCutShort D.is_symbol D.is_symbol_table D.call D.returned root ctx.old ctx.new
        tally.old.left) }
    ensures sure { OnOk result (AreSure D.is_symbol D.is_symbol_table ctx.new tables.new) }
    ensures sure_still { OnOk result (SureStill D.is_symbol D.is_symbol_table ctx.old ctx.new) }
    ensures agree_still { OnErr result (AgreeStill D.is_symbol D.is_symbol_table ctx.old ctx.new) }
    ensures root_live { IsLive ctx.new (AnyNode.Operation root) }
    ensures whole { IsWellFormed D.attr_handles ctx.new }
{
    ctx.stands();
    'rounds: loop {
        match inline_round(alloc, ctx, tables, root, tally)? {
            Round::NoneLeft => return Ok(false),
            Round::OverBudget => return Ok(true),
            Round::Again => {}
        }
    }
}
