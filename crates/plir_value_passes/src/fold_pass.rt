//! Folding, as a pass.
ghost use Rattle.std.specs.Prelude.{◌≡◌, ◌↔◌, [], codes, false, IfErr, IfOk, OnOk};
ghost use Rattle.plir_core.specs.ContextView.{IsLive};
ghost use Rattle.plir_core.specs.declared.ptr.IRNode.{IRNode as AnyNode};
ghost use Rattle.plir_driver.specs.PassEnds.{IsEnd};
ghost use Rattle.plir_value_passes.specs.Folded.{AreFolded, IsFoldStop};

use plir_core::{Context, NodeErr, Operation, Ptr};
use plir_driver::{Offered, Pass, PassEnd, PassErr, PassOption};
use plir_folding::laws::merging_keeps_passed;
use plir_folding::{FoldSet, IdentitySet, fold_constants, fold_values, merge_constants};
use plir_walk::laws::lawful_changes;
use std::alloc::Global;

/// `fold`: puts constants in place of operands that are worth one, as [`fold_constants`] does, and then values in place
/// of results that stand for them, as [`fold_values`] does, each until none is left; at last it has each block use one
/// constant of each integer, as [`merge_constants`] does.
#[derive(Clone, Copy, Debug, PartialEq, Eq)]
pub struct FoldPass;

impl Offered for FoldPass {
    ghost pass_name = { λ _. codes "fold" };

    ghost pass_options = { λ _. [] };

    ghost with_option = { λ pass _ _. pass };

    fn name(self) -> &'static str {
        "fold"
    }

    fn help(self) -> &'static str {
        "Pass: put constants, and other values, in place of operands that are known to be these"
    }

    fn options(self) -> &'static [PassOption] {
        &[]
    }

    fn with(self, _place: usize, _number: u64) -> Self {
        self
    }
}

// What a pass ends with that has changed something, or nothing.
fn fold_end(any: bool) -> PassEnd
    ensures { (any ≡ false) ↔ (result ≡ PassEnd.Unchanged) }
{
    if any {
        PassEnd::Changed
    } else {
        PassEnd::Unchanged
    }
}

// Folds constants, and then values, and merges constants.
fn fold_all<D: FoldSet + IdentitySet>(
    alloc: Global,
    ctx: &mut Context<D>,
    root: Ptr<Operation>,
) -> Result<PassEnd, PassErr>
    requires { IsLive ctx.old (AnyNode.Operation root) }
    ensures live { IsLive ctx.new (AnyNode.Operation root) }
    ensures folded { OnOk result (AreFolded D.fold D.is_identity root ctx.old ctx.new) }
    ensures end { IfOk result (IsEnd ctx.old ctx.new) }
    ensures stopped { IfErr result (IsFoldStop D.fold ctx.old) }
{
    lawful_changes::<D>();
    ctx.stands();
    let constants = match fold_constants(alloc, ctx, root) {
        Ok(any) => any,
        Err(NodeErr::TooManyNodes) => return Err(PassErr::TooManyNodes),
        Err(NodeErr::Memory) => return Err(PassErr::OutOfMemory),
    };
    ctx.stands();
    let values = fold_values(alloc, ctx, root)?;
    merging_keeps_passed::<D>();
    let merged = merge_constants(alloc, ctx, root)?;
    Ok(fold_end(constants || values || merged))
}

impl<D: FoldSet + IdentitySet> Pass<D> for FoldPass {
    ghost has_passed = { λ _. AreFolded D.fold D.is_identity };

    // There is no room for a constant, or memory is wanting.
    ghost may_stop = { λ _ _. IsFoldStop D.fold };

    fn run(
        self,
        alloc: Global,
        ctx: &mut Context<D>,
        root: Ptr<Operation>,
    ) -> Result<PassEnd, PassErr> {
        fold_all(alloc, ctx, root)
    }
}
