//! An order for calls: those of functions that hold no other call come first, and then those of functions whose calls
//! have come before.
ghost use Rattle.std.specs.Prelude.{IfErr};
ghost use Rattle.plir_core.specs.declared.ptr.IRNode.{IRNode as AnyNode};
ghost use Rattle.plir_core.specs.declared.ptr.Operation.{Operation as OperationKind};
ghost use Rattle.plir_core.specs.declared.ptr.Ptr.{Ptr as AnyPtr};
ghost use Rattle.plir_core.specs.ContextView.{IsLive};
ghost use Rattle.plir_store.specs.Members.{Has};
ghost use Rattle.plir_inliner.specs.Known.{AreSure};
ghost use Rattle.plir_inliner.specs.Meaning.{IsAnyRefusal};

use crate::errors::InlineErr;
use crate::meaning::callee_of;
use plir_builtin::SymbolTableCollection;
use plir_core::{Context, Operation, Ptr};
use plir_data::{Memory, OpKind, OpSet};
use plir_flow_sets::CallSet;
use std::alloc::Global;
use std::collections::HashMap;

/// A call whose turn has come, and the function that it calls.
#[derive(Clone, Copy)]
pub(crate) struct Turn {
    pub(crate) call: Ptr<Operation>,
    pub(crate) function: Ptr<Operation>,
}

// Calls that wait for their turn. A call's turn comes once no call waits in the function that it calls.
#[derive(Drop)]
struct Waiting {
    // The calls, in any order, and what each of them means.
    calls: Vec<Ptr<Operation>>,
    callees: Vec<Option<Ptr<Operation>>>,
    // Of each function how many calls wait in it, but for those in a function below it.
    within: HashMap<Ptr<Operation>, usize>,
    // Of each function the place of the last call of it, and of each call the place of the one before it of the same
    // function.
    last: HashMap<Ptr<Operation>, usize>,
    before: Vec<Option<usize>>,
    // The calls whose turn has come, in order.
    turns: Vec<Turn>,
}

impl Waiting {
    fn new(alloc: Global) -> Waiting {
        Waiting {
            calls: Vec::new(alloc),
            callees: Vec::new(alloc),
            within: HashMap::new(alloc),
            last: HashMap::new(alloc),
            before: Vec::new(alloc),
            turns: Vec::new(alloc),
        }
    }

    // Whether no call waits in a function.
    fn is_free(&self, function: Ptr<Operation>) -> bool {
        match self.within.get(&function) {
            Some(number) => *number == 0,
            None => true,
        }
    }

    // One call more waits in a function.
    fn add_within(&mut self, function: Ptr<Operation>) -> Result<(), Memory> {
        let number = match self.within.get(&function) {
            Some(number) => *number,
            None => 0,
        };
        self.within.insert(function, number.saturating_add(1))?;
        Ok(())
    }

    // One call less waits in a function.
    fn take_within(&mut self, function: Ptr<Operation>) -> Result<(), Memory> {
        let number = match self.within.get(&function) {
            Some(number) => *number,
            None => 0,
        };
        self.within.insert(function, number.saturating_sub(1))?;
        Ok(())
    }

    // Adds a call of a function, or of none that is known.
    fn put(&mut self, call: Ptr<Operation>, callee: Option<Ptr<Operation>>) -> Result<(), Memory> {
        let place = self.calls.len();
        self.calls.push(call)?;
        self.callees.push(callee)?;
        let before = match callee {
            Some(function) => self.last.insert(function, place)?,
            None => None,
        };
        self.before.push(before)?;
        Ok(())
    }

    // The turn of all calls of functions comes in which no call waits.
    fn start(&mut self) -> Result<(), Memory> {
        for place in 0..self.calls.len() {
            if place >= self.callees.len() {
                return Ok(());
            }
            if let Some(function) = self.callees[place] {
                if self.is_free(function) {
                    let call = self.calls[place];
                    self.turns.push(Turn { call, function })?;
                }
            }
        }
        Ok(())
    }

    // The turn of all calls of a function comes.
    fn give_turns(&mut self, function: Ptr<Operation>) -> Result<(), Memory> {
        let mut at = self.last.get(&function).copied();
        for _i in 0..self.calls.len() {
            let Some(place) = at else {
                return Ok(());
            };
            if place >= self.calls.len() || place >= self.before.len() {
                return Ok(());
            }
            let call = self.calls[place];
            self.turns.push(Turn { call, function })?;
            at = self.before[place];
        }
        Ok(())
    }
}

// Whether an operation is a function.
fn is_function<D: OpSet>(ctx: &Context<D>, op: Ptr<Operation>) -> bool
    requires { IsLive ctx.now (AnyNode.Operation op) }
{
    matches!(op.kind(ctx), OpKind::Func)
}

// The nearest function above an operation.
fn function_above<D: OpSet>(ctx: &Context<D>, op: Ptr<Operation>) -> Option<Ptr<Operation>>
    requires { IsLive ctx.now (AnyNode.Operation op) }
{
    ctx.stands();
    let first = op.get_parent_op(ctx);
    let mut at = first;
    'up: while let Some(above) = at {
        if is_function(ctx, above) {
            return Some(above);
        }
        at = above.get_parent_op(ctx);
    }
    None
}

// One call more waits in the nearest function above a call.
fn wait_above<D: OpSet>(
    ctx: &Context<D>,
    waiting: &mut Waiting,
    call: Ptr<Operation>,
) -> Result<(), Memory>
    requires { IsLive ctx.now (AnyNode.Operation call) }
{
    match function_above(ctx, call) {
        Some(function) => waiting.add_within(function),
        None => Ok(()),
    }
}

// One call less waits in the nearest function above a call. Where none is left there, the turn of all its calls comes.
fn free_above<D: OpSet>(
    ctx: &Context<D>,
    waiting: &mut Waiting,
    call: Ptr<Operation>,
) -> Result<(), Memory>
    requires { IsLive ctx.now (AnyNode.Operation call) }
{
    let Some(function) = function_above(ctx, call) else {
        return Ok(());
    };
    waiting.take_within(function)?;
    if waiting.is_free(function) {
        waiting.give_turns(function)?;
    }
    Ok(())
}

// Adds calls other than the root, each with the function that it means.
fn put_all<D: CallSet>(
    ctx: &Context<D>,
    tables: &mut SymbolTableCollection,
    waiting: &mut Waiting,
    root: Ptr<Operation>,
    calls: &[Ptr<Operation>],
) -> Result<(), InlineErr>
    requires live { (p : AnyPtr OperationKind) → Has calls.now p → IsLive ctx.now (AnyNode.Operation p) }
    requires sure { AreSure D.is_symbol D.is_symbol_table ctx.now tables.old }
    ensures sure { AreSure D.is_symbol D.is_symbol_table ctx.now tables.new }
    ensures refused { IfErr result (IsAnyRefusal D.is_symbol D.is_symbol_table D.call ctx.now root calls.now) }
{
    for call in calls {
        if *call == root {
            continue;
        }
        let callee = callee_of(ctx, tables, *call)?;
        waiting.put(*call, callee)?;
        wait_above(ctx, waiting, *call)?;
    }
    Ok(())
}

// Gives all calls their turn, as far as one comes.
fn take_turns<D: OpSet>(ctx: &Context<D>, waiting: &mut Waiting) -> Result<(), Memory> {
    waiting.start()?;
    for i in 0..waiting.calls.len() {
        if i >= waiting.turns.len() {
            return Ok(());
        }
        let call = waiting.turns[i].call;
        if call.is_live(ctx) {
            free_above(ctx, waiting, call)?;
        }
    }
    Ok(())
}

/// Calls in an order in which each function's own calls come before the calls of it, without those that call
/// themselves by way of others, and those of functions that hold such a call. It is no more than a good order: who goes
/// by it tests each call.
pub(crate) fn in_turn<D: CallSet>(
    alloc: Global,
    ctx: &Context<D>,
    tables: &mut SymbolTableCollection,
    root: Ptr<Operation>,
    calls: &[Ptr<Operation>],
) -> Result<Vec<Turn>, InlineErr>
    requires live { (p : AnyPtr OperationKind) → Has calls.now p → IsLive ctx.now (AnyNode.Operation p) }
    requires sure { AreSure D.is_symbol D.is_symbol_table ctx.now tables.old }
    ensures sure { AreSure D.is_symbol D.is_symbol_table ctx.now tables.new }
    ensures refused { IfErr result (IsAnyRefusal D.is_symbol D.is_symbol_table D.call ctx.now root calls.now) }
{
    let mut waiting = Waiting::new(alloc);
    put_all(ctx, tables, &mut waiting, root, calls)?;
    take_turns(ctx, &mut waiting)?;
    Ok(waiting.turns)
}
