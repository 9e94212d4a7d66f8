//! The pass.
ghost use Rattle.std.specs.Prelude.{IfErr, IfOk};
ghost use Rattle.plir_core.specs.declared.ptr.IRNode.{IRNode as AnyNode};
ghost use Rattle.plir_core.specs.ContextView.{IsLive};
ghost use Rattle.plir_core.specs.WellFormed.{IsWellFormed};
ghost use Rattle.plir_inliner.specs.Known.{AgreeStill};
ghost use Rattle.plir_inliner.specs.Steps.{IsCutShort, IsInlining};

use crate::errors::InlineErr;
use crate::rounds::inline_all;
use crate::tally::{Inlining, Tally};
use plir_builtin::SymbolTableCollection;
use plir_builtin::laws::no_tables_agree;
use plir_core::{Context, Operation, Ptr};
use plir_flow_sets::CallSet;
use std::alloc::Global;

/// Inlines the calls below a root, callees first, until none is left that can be, or the next one costs more than is
/// left of a budget: how many operations may be copied in all, the last one of each body counted. A call can be inlined
/// that passes all of its operands to the function of a name, by which the nearest table at or above it means a
/// function of one block; that block has to end with its only return, of all operands, and below it no function is
/// called by its name and no symbol stands. So what reaches itself is left, and so is a function as long as it has
/// calls by names. Tables of the caller that agreed, and were cached for what was given out, agree afterwards.
///
/// # Errors
///
/// [`InlineErr::TooManyNodes`] only where a call can be inlined and there is no room for the copy; [`InlineErr::Table`]
/// where the nearest table of a call is refused, as [`plir_builtin::SymbolTable::new`] does; [`InlineErr::Memory`].
/// Calls that were inlined until then stay inlined, and all else is as it was.
pub fn inline_calls<D: CallSet>(
    alloc: Global,
    ctx: &mut Context<D>,
    root: Ptr<Operation>,
    budget: usize,
) -> Result<Inlining, InlineErr>
    requires { IsLive ctx.old (AnyNode.Operation root) }
    ensures ok { IfOk result (IsInlining D.is_symbol D.is_symbol_table D.call D.returned root ctx.old ctx.new budget) }
    ensures err { IfErr result (IsCutShort D.is_symbol D.is_symbol_table D.call D.returned root ctx.old ctx.new
        budget) }
    ensures agree { AgreeStill D.is_symbol D.is_symbol_table ctx.old ctx.new }
    ensures whole { IsWellFormed D.attr_handles ctx.new }
{
    ctx.stands();
    no_tables_agree(ctx);
    let mut tables = SymbolTableCollection::new(alloc);
    let mut tally = Tally {
        calls: 0,
        left: budget,
    };
    let stopped = inline_all(alloc, ctx, &mut tables, root, &mut tally)?;
    Ok(Inlining {
        calls: tally.calls,
        copied: budget - tally.left,
        stopped,
    })
}
