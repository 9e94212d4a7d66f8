//! A pass as one writes it outside, with an option.
ghost use Rattle.std.specs.Prelude.{◌≡◌, [], ◌∷◌, IfErr, IfOk, OnOk, codes};
ghost use Rattle.plir_core.specs.ContextView.{IsLive};
ghost use Rattle.plir_core.specs.declared.ptr.IRNode.{IRNode as AnyNode};
ghost use Rattle.plir_driver.specs.declared.pass_err.PassErr.TheVariants as Errors;
ghost use Rattle.plir_driver.specs.PassEnds.{IsEnd};
ghost use Rattle.sample_opt.specs.Rounds.{AreSwept, rounds_rule};

use dce::{EffectSet, sweep};
use plir_core::{Context, Operation, Ptr};
use plir_driver::{Offered, Pass, PassEnd, PassErr, PassOption, end_of_erasures};
use plir_walk::laws::{erasures_thin, lawful_changes};
use std::alloc::Global;

/// `sweep`: erases dead operations, as the function of that name does, so many times: what an operation in another block
/// used may be dead once that one is gone.
#[derive(Clone, Copy, Debug)]
pub struct SweepPass {
    /// How many times.
    pub rounds: u64,
}

const OPTIONS: [PassOption; 1] = [PassOption {
    name: "rounds",
    help: "how many times to sweep",
    least: 1,
    most: 100,
    default: 1,
}];

impl Offered for SweepPass {
    ghost pass_name = { λ _. codes "sweep" };

    ghost pass_options = { λ _. rounds_rule ∷ [] };

    ghost with_option = { λ _ _ n. record { rounds = n } };

    fn name(self) -> &'static str {
        "sweep"
    }

    fn help(self) -> &'static str {
        "Pass: erase operations without regions that have no effect and whose results nothing uses"
    }

    fn options(self) -> &'static [PassOption] {
        &OPTIONS
    }

    fn with(self, _place: usize, number: u64) -> Self {
        SweepPass { rounds: number }
    }
}

// Sweeps so many times.
fn sweep_rounds<D: EffectSet>(
    ctx: &mut Context<D>,
    root: Ptr<Operation>,
    rounds: u64,
) -> Result<PassEnd, PassErr>
    requires { IsLive ctx.old (AnyNode.Operation root) }
    ensures live { IsLive ctx.new (AnyNode.Operation root) }
    ensures swept { OnOk result (AreSwept D.has_effect D.is_terminator (AnyNode.Operation root) rounds ctx.old ctx.new) }
    ensures end { IfOk result (IsEnd ctx.old ctx.new) }
    ensures stopped { IfErr result (λ e. e ≡ Errors.TooManyNodes) }
{
    lawful_changes::<D>();
    erasures_thin(ctx);
    ctx.stands();
    let live_before = ctx.num_live();
    for _ in 0..rounds {
        if sweep(ctx, root).is_err() {
            return Err(PassErr::TooManyNodes);
        }
    }
    Ok(end_of_erasures(ctx, live_before))
}

impl<D: EffectSet> Pass<D> for SweepPass {
    ghost has_passed = { λ pass root. AreSwept D.has_effect D.is_terminator (AnyNode.Operation root) pass.rounds };

    // There are more nodes than a walk may visit.
    ghost may_stop = { λ _ _ _ e. e ≡ Errors.TooManyNodes };

    fn run(
        self,
        _alloc: Global,
        ctx: &mut Context<D>,
        root: Ptr<Operation>,
    ) -> Result<PassEnd, PassErr> {
        sweep_rounds(ctx, root, self.rounds)
    }
}
