//! Inlining, as a pass.
ghost use Rattle.std.specs.Prelude.{◌≡◌, ◌↔◌, [], ◌∷◌, IfErr, IfOk, OnOk, codes};
ghost use Rattle.plir_core.specs.ContextView.{IsLive};
ghost use Rattle.plir_core.specs.declared.ptr.IRNode.{IRNode as AnyNode};
ghost use Rattle.plir_driver.specs.PassEnds.{IsEnd};
ghost use Rattle.plir_value_passes.specs.Inlined.{IsInlineStop, IsInlinedWithin, budget_rule, of_inliner};

use plir_core::{Context, Operation, Ptr};
use plir_driver::{Offered, Pass, PassEnd, PassErr, PassOption};
use plir_flow_sets::CallSet;
use plir_inliner::{InlineErr, Inlining, inline_calls};
use std::alloc::Global;

/// `inline`: puts copies of the bodies of functions in place of their calls, callees first, as [`inline_calls`] does,
/// until no call is left that can be inlined, or the next one costs more than is left of the budget.
#[derive(Clone, Copy, Debug, PartialEq, Eq)]
pub struct InlinePass {
    /// How many operations may be copied in one run.
    pub budget: u64,
}

const OPTIONS: [PassOption; 1] = [PassOption {
    name: "budget",
    help: "how many operations may be copied",
    least: 0,
    most: 1_000_000_000,
    default: 1000,
}];

impl InlinePass {
    /// The pass with the budget that it has where it is given none.
    pub const DEFAULT: InlinePass = InlinePass { budget: 1000 };
}

impl Offered for InlinePass {
    ghost pass_name = { λ _. codes "inline" };

    ghost pass_options = { λ _. budget_rule ∷ [] };

    ghost with_option = { λ _ _ n. record { budget = n } };

    fn name(self) -> &'static str {
        "inline"
    }

    fn help(self) -> &'static str {
        "Pass: put copies of the bodies of functions in place of their calls"
    }

    fn options(self) -> &'static [PassOption] {
        &OPTIONS
    }

    fn with(self, _place: usize, number: u64) -> Self {
        InlinePass { budget: number }
    }
}

// What the inliner reports, as a pass reports it.
fn told(err: InlineErr) -> PassErr
    ensures { result ≡ of_inliner err }
{
    match err {
        InlineErr::Memory => PassErr::OutOfMemory,
        InlineErr::TooManyNodes => PassErr::TooManyNodes,
        InlineErr::Table(err) => PassErr::NoTable { err },
    }
}

// What the pass says at its end.
fn end_of(done: Inlining) -> PassEnd
    ensures { done.calls ≡ 0 ↔ (result ≡ PassEnd.Unchanged) }
{
    if done.calls == 0 {
        PassEnd::Unchanged
    } else {
        PassEnd::Changed
    }
}

// Inlines calls below an operation, within a budget.
fn inline_within<D: CallSet>(
    alloc: Global,
    ctx: &mut Context<D>,
    root: Ptr<Operation>,
    budget: u64,
) -> Result<PassEnd, PassErr>
    requires { IsLive ctx.old (AnyNode.Operation root) }
    ensures live { IsLive ctx.new (AnyNode.Operation root) }
    ensures inlined { OnOk result (IsInlinedWithin D.is_symbol D.is_symbol_table D.call D.returned budget root ctx.old
        ctx.new) }
    ensures end { IfOk result (IsEnd ctx.old ctx.new) }
    ensures stopped { IfErr result (IsInlineStop D.is_symbol D.is_symbol_table D.call D.returned budget root ctx.old) }
{
    match inline_calls(alloc, ctx, root, budget as usize) {
        Ok(done) => Ok(end_of(done)),
        Err(err) => Err(told(err)),
    }
}

impl<D: CallSet> Pass<D> for InlinePass {
    ghost has_passed = { λ pass. IsInlinedWithin D.is_symbol D.is_symbol_table D.call D.returned pass.budget };

    ghost may_stop = { λ pass. IsInlineStop D.is_symbol D.is_symbol_table D.call D.returned pass.budget };

    fn run(
        self,
        alloc: Global,
        ctx: &mut Context<D>,
        root: Ptr<Operation>,
    ) -> Result<PassEnd, PassErr> {
        inline_within(alloc, ctx, root, self.budget)
    }
}
