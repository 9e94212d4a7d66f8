//! The interface of operations that branch to other blocks.
ghost use Rattle.std.specs.Prelude.{◌≡◌, ◌↔◌, ◌<◌, ◌≤◌, ◌+◌, ◌-◌, ◌^◌, ℕ};
ghost use Rattle.std.specs.Prelude.{◌⊎◌, Some, Err, All, IsOk, IfOk, IfErr, OnOk, OnErr, length, slice_get};
ghost use Rattle.plir_core.specs.declared.ptr.IRNode.{IRNode};
ghost use Rattle.plir_core.specs.ContextView.{IsLive, IsValueLive, operands_of, successors_of};
ghost use Rattle.plir_core.specs.WellFormed.{IsWellFormed};
ghost use Rattle.plir_flow.specs.Layout.{IsLayoutRefusal};
ghost use Rattle.plir_flow.specs.Branches.{num_successors, HasNSuccs, IsNSuccsRefusal, KeepsSizes, operands_within};
ghost use Rattle.plir_flow.specs.Branches.{HasBranchRule, IsBranchRuleRefusal, IsForwardedMore, IsForwardedLess};
ghost use Rattle.plir_flow.specs.Branches.{DifferInTypes, IsOperandReplaced};

use crate::branch_errors::{BranchOpInterfaceVerifyErr, NSuccsVerifyErr};
use crate::forwarding::{as_layout, find_first_mismatch, report};
use crate::operand_ranges::operands_in;
use plir_core::{BasicBlock, Context, LessThanN, Ptr, Value};
use plir_data::{Memory, OpSet, VerifyErr};
use plir_iface::{IsTerminatorInterface, Op, accept_if};
use std::alloc::Global;
use std::ops::Range;

/// Operations that end their block and branch to other ones, their successors. To each successor they forward operands
/// in a row, one for each argument of the block.
///
/// What an implementer says of its operation holds by its layout: that its operands stand as it wants them. The check
/// of the layout accepts exactly where a predicate of the context and the operation holds, memory aside, and the ranges
/// of operands that are forwarded are a function of these two.
pub trait BranchOpInterface<D: OpSet>: IsTerminatorInterface<D> {
    ghost use Rattle.std.specs.Prelude.{List};
    ghost use Rattle.plir_core.specs.ContextView.{ContextView};
    ghost use Rattle.plir_flow.specs.Branches.{Range as Places};

    // The operands stand as the operation wants them, and what a refusal reports where they don't.
    ghost has_layout: { Self → ContextView D.Kind D.Attr D.Ty → Type 0 };

    ghost refuses_layout: { Self → ContextView D.Kind D.Attr D.Ty → D.Err → Type 0 };

    // Where the check of the layout may want memory, as for the text of its refusal.
    ghost layout_wants_memory: { Self → ContextView D.Kind D.Attr D.Ty → Type 0 };

    // The keys of the attributes that describe the layout, as that of the sizes of segments, where they are kept: what
    // stands under these changes as values are added and taken out, and what stands under any other key doesn't.
    ghost layout_keys: { Self → List (List ℕ) };

    // The indices of the operands that are forwarded to a successor.
    ghost forwards: { Self → ContextView D.Kind D.Attr D.Ty → ℕ → Places };

    /// Accepts exactly where the operands stand as the operation wants them.
    fn verify_successor_operand_layout(
        &self,
        alloc: Global,
        ctx: &Context<D>,
    ) -> Result<(), VerifyErr<D::Err>>
        requires { IsLive ctx.now (IRNode.Operation (Self.pointer self.now)) }
        ensures ok { OnOk result (has_layout self.now ctx.now) }
        ensures refused { IfErr result (IsLayoutRefusal (has_layout self.now) (refuses_layout self.now) ctx.now
            (Self.pointer self.now)) }
        ensures memory { result ≡ Err VerifyErr.Memory → layout_wants_memory self.now ctx.now };

    /// The indices of the operands that are forwarded to a successor, from 0; they are among the operands.
    fn successor_operand_range(&self, ctx: &Context<D>, succ: usize) -> Range<usize>
        requires live { IsLive ctx.now (IRNode.Operation (Self.pointer self.now)) }
        requires layout { has_layout self.now ctx.now }
        requires below { succ < num_successors ctx.now (Self.pointer self.now) }
        ensures start { result.start ≡ (forwards self.now ctx.now succ).0 }
        ensures end { result.end ≡ (forwards self.now ctx.now succ).1 }
        ensures ordered { result.start ≤ result.end }
        ensures inside { result.end ≤ length (operands_of ctx.now (Self.pointer self.now)) };

    /// Forwards one more value to a successor, from 0, behind those that it gets, and answers its index among them.
    /// Where sizes of segments are kept, it has to get fewer than 4294967295. After a refusal all is as before.
    fn add_successor_operand(
        &self,
        ctx: &mut Context<D>,
        succ: usize,
        operand: Value,
    ) -> Result<usize, Memory>
        requires live { IsLive ctx.old (IRNode.Operation (Self.pointer self.now)) }
        requires layout { has_layout self.now ctx.old }
        requires below { succ < num_successors ctx.old (Self.pointer self.now) }
        requires room { KeepsSizes (layout_keys self.now) →
            length (operands_within ctx.old (Self.pointer self.now) (forwards self.now ctx.old succ)) < 2 ^ 32 - 1 }
        requires operand_live { IsValueLive ctx.old operand }
        ensures index { IfOk result (λ i. i ≡ length (operands_within ctx.old (Self.pointer self.now)
            (forwards self.now ctx.old succ))) }
        ensures ok { OnOk result (IsForwardedMore (layout_keys self.now) (forwards self.now) ctx.old ctx.new
            (Self.pointer self.now) succ operand) }
        ensures layout { OnOk result (has_layout self.now ctx.new) }
        ensures err { OnErr result (ctx.new ≡ ctx.old) }
        ensures whole { IsWellFormed D.attr_handles ctx.new };

    /// Takes the value for the argument at an index of a successor, from 0, out; those behind it move down.
    fn remove_successor_operand(&self, ctx: &mut Context<D>, succ: usize, arg: usize) -> Value
        requires live { IsLive ctx.old (IRNode.Operation (Self.pointer self.now)) }
        requires layout { has_layout self.now ctx.old }
        requires below { succ < num_successors ctx.old (Self.pointer self.now) }
        requires within { arg < length (operands_within ctx.old (Self.pointer self.now)
            (forwards self.now ctx.old succ)) }
        ensures value { slice_get (operands_within ctx.old (Self.pointer self.now) (forwards self.now ctx.old succ))
            arg ≡ Some result }
        ensures after { IsForwardedLess (layout_keys self.now) (forwards self.now) ctx.old ctx.new
            (Self.pointer self.now) succ arg }
        ensures layout { has_layout self.now ctx.new }
        ensures whole { IsWellFormed D.attr_handles ctx.new };

    /// The operands that are forwarded to a successor, from 0.
    final fn successor_operands(
        &self,
        alloc: Global,
        ctx: &Context<D>,
        succ: usize,
    ) -> Result<Vec<Value>, Memory>
        requires live { IsLive ctx.now (IRNode.Operation (Self.pointer self.now)) }
        requires layout { has_layout self.now ctx.now }
        requires below { succ < num_successors ctx.now (Self.pointer self.now) }
        ensures value { IfOk result (λ vs. vs.items ≡ operands_within ctx.now (Self.pointer self.now)
            (forwards self.now ctx.now succ)) }
        ensures live { IfOk result (λ vs. All (IsValueLive ctx.now) vs.items) }
        ensures whole { IsWellFormed D.attr_handles ctx.now }
    {
        let range = self.successor_operand_range(ctx, succ);
        operands_in(alloc, ctx, self.get_operation(), range)
    }

    /// Forwards another value in place of the one for the argument at an index of a successor, from 0.
    final fn set_successor_operand(
        &self,
        ctx: &mut Context<D>,
        succ: usize,
        arg: usize,
        operand: Value,
    )
        requires live { IsLive ctx.old (IRNode.Operation (Self.pointer self.now)) }
        requires layout { has_layout self.now ctx.old }
        requires below { succ < num_successors ctx.old (Self.pointer self.now) }
        requires within { (forwards self.now ctx.old succ).0 + arg < (forwards self.now ctx.old succ).1 }
        requires operand_live { IsValueLive ctx.old operand }
        ensures after { IsOperandReplaced ctx.old ctx.new (Self.pointer self.now)
            ((forwards self.now ctx.old succ).0 + arg) operand }
        ensures whole { IsWellFormed D.attr_handles ctx.new }
    {
        let op = self.get_operation();
        let _count = op.get_num_operands(ctx);
        let range = self.successor_operand_range(ctx, succ);
        op.replace_operand(ctx, range.start + arg, operand);
    }

    /// Accepts exactly where the operands stand as the operation wants them, and each successor gets values of the
    /// types of its arguments. Else it reports the refusal of the layout, or how the first successor doesn't. `Memory`
    /// comes only where the check of the layout may want it, or for the texts of two types.
    final fn verify(
        &self,
        alloc: Global,
        ctx: &Context<D>,
    ) -> Result<(), VerifyErr<BranchOpInterfaceVerifyErr<D::Err>>>
        requires { IsLive ctx.now (IRNode.Operation (Self.pointer self.now)) }
        ensures ok { OnOk result (HasBranchRule (has_layout self.now ctx.now) ctx.now (Self.pointer self.now)
            (forwards self.now ctx.now)) }
        ensures refused { IfErr result (IsBranchRuleRefusal D.OpSet (has_layout self.now) (refuses_layout self.now)
            (forwards self.now) ctx.now (Self.pointer self.now)) }
        ensures memory { result ≡ Err VerifyErr.Memory → layout_wants_memory self.now ctx.now ⊎
            DifferInTypes ctx.now (Self.pointer self.now) (forwards self.now ctx.now) }
        ensures whole { IsWellFormed D.attr_handles ctx.now }
    {
        let op = self.get_operation();
        let _live = op.is_live(ctx);
        match self.verify_successor_operand_layout(alloc, ctx) {
            Err(refused) => Err(as_layout(refused)),
            Ok(()) => match find_first_mismatch(ctx, self) {
                None => Ok(()),
                Some(mismatch) => Err(report(alloc, ctx, op, mismatch)),
            },
        }
    }
}

/// Branches that have `N` successors.
pub trait NSuccsInterface<D: OpSet, const N: usize>: BranchOpInterface<D> {
    /// Accepts exactly where the operation has `N` successors.
    final fn verify(&self, ctx: &Context<D>) -> Result<(), VerifyErr<NSuccsVerifyErr>>
        requires { IsLive ctx.now (IRNode.Operation (Self.pointer self.now)) }
        ensures ok { IsOk result ↔ HasNSuccs N ctx.now (Self.pointer self.now) }
        ensures refused { IfErr result (IsNSuccsRefusal N ctx.now (Self.pointer self.now)) }
        ensures whole { IsWellFormed D.attr_handles ctx.now }
    {
        let op = self.get_operation();
        let found = op.get_num_successors(ctx);
        accept_if(ctx, op, found == N, NSuccsVerifyErr(N, found))
    }

    /// The successor at an index.
    final fn get_successor_i(&self, ctx: &Context<D>, i: LessThanN<N>) -> Ptr<BasicBlock>
        requires live { IsLive ctx.now (IRNode.Operation (Self.pointer self.now)) }
        requires rule { HasNSuccs N ctx.now (Self.pointer self.now) }
        ensures value { slice_get (successors_of ctx.now (Self.pointer self.now)) i.entry ≡ Some result }
        ensures live { IsLive ctx.now (IRNode.BasicBlock result) }
        ensures whole { IsWellFormed D.attr_handles ctx.now }
    {
        self.get_operation().get_successor(ctx, i.i())
    }
}

/// Branches that have one successor.
pub trait OneSuccInterface<D: OpSet>: BranchOpInterface<D> {
    /// Accepts exactly where the operation has one successor.
    final fn verify(&self, ctx: &Context<D>) -> Result<(), VerifyErr<NSuccsVerifyErr>>
        requires { IsLive ctx.now (IRNode.Operation (Self.pointer self.now)) }
        ensures ok { IsOk result ↔ HasNSuccs 1 ctx.now (Self.pointer self.now) }
        ensures refused { IfErr result (IsNSuccsRefusal 1 ctx.now (Self.pointer self.now)) }
        ensures whole { IsWellFormed D.attr_handles ctx.now }
    {
        let op = self.get_operation();
        let found = op.get_num_successors(ctx);
        accept_if(ctx, op, found == 1, NSuccsVerifyErr(1, found))
    }

    /// The successor.
    final fn get_successor(&self, ctx: &Context<D>) -> Ptr<BasicBlock>
        requires live { IsLive ctx.now (IRNode.Operation (Self.pointer self.now)) }
        requires rule { HasNSuccs 1 ctx.now (Self.pointer self.now) }
        ensures value { slice_get (successors_of ctx.now (Self.pointer self.now)) 0 ≡ Some result }
        ensures live { IsLive ctx.now (IRNode.BasicBlock result) }
        ensures whole { IsWellFormed D.attr_handles ctx.now }
    {
        self.get_operation().get_successor(ctx, 0)
    }
}
