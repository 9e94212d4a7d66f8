//! Where operations branch to, and with which operands.
ghost use Rattle.std.specs.Prelude.{◌≡◌, ◌<◌, ℕ, IfSome, Option, Some, length, option_map, slice_get};
ghost use Rattle.plir_core.specs.declared.ptr.IRNode.{IRNode as AnyNode};
ghost use Rattle.plir_core.specs.Contents.{OpView};
ghost use Rattle.plir_core.specs.ContextView.{IsLive, IsValueLive};
ghost use Rattle.plir_flow.specs.Branches.{Range as Places, num_successors};
ghost use Rattle.plir_flow_sets.specs.Branches.{forwarded_to};
ghost use Rattle.plir_flow_sets.specs.Told.{IsAmongOperands, places_of, told_of};

use plir_core::{Context, Operation, Ptr, Value};
use plir_data::{KindSet, NoMeaning, OpKind, OpSet, OwnKind};
use std::ops::Range;

/// An op set that tells which operands an operation forwards to each of its successors, one for each argument of the
/// block, by what the operation holds: what is done to other operations and to blocks changes none of it. Of one that
/// doesn't hold what its kind wants it may tell none.
pub trait BranchSet: OpSet {
    // The places of the operands that are forwarded to a successor.
    ghost forwards: { ℕ → OpView Self.Kind Self.Attr → Option Places };

    /// Which of its operands an operation forwards to a successor, from 0; none, where it is no branch.
    fn forwarded_range(
        ctx: &Context<Self>,
        op: Ptr<Operation>,
        successor: usize,
    ) -> Option<Range<usize>>
        requires live { IsLive ctx.now (AnyNode.Operation op) }
        requires below { successor < num_successors ctx.now op }
        ensures value { option_map places_of result ≡ told_of (forwards successor) ctx.now op }
        ensures inside { IfSome result (λ r. IsAmongOperands ctx.now op (places_of r)) };

    /// How many values a successor, from 0, gets; it gets none from what is no branch.
    final fn num_forwarded(ctx: &Context<Self>, op: Ptr<Operation>, successor: usize) -> usize
        requires live { IsLive ctx.now (AnyNode.Operation op) }
        requires below { successor < num_successors ctx.now op }
        ensures { result ≡ length (forwarded_to forwards ctx.now op successor) }
    {
        match Self::forwarded_range(ctx, op, successor) {
            Some(range) => range.end - range.start,
            None => 0,
        }
    }

    /// The value that a successor, from 0, gets for the argument at a place.
    final fn forwarded(
        ctx: &Context<Self>,
        op: Ptr<Operation>,
        successor: usize,
        place: usize,
    ) -> Value
        requires live { IsLive ctx.now (AnyNode.Operation op) }
        requires below { successor < num_successors ctx.now op }
        requires within { place < length (forwarded_to forwards ctx.now op successor) }
        ensures value { slice_get (forwarded_to forwards ctx.now op successor) place ≡ Some result }
        ensures live { IsValueLive ctx.now result }
    {
        let _count = op.get_num_operands(ctx);
        match Self::forwarded_range(ctx, op, successor) {
            Some(range) => op.get_operand(ctx, range.start + place),
            None => unreachable!(),
        }
    }
}

/// Own kinds of operations that tell what these forward to their successors, in an op set `D` that they are part of, by
/// what each operation holds: the op set of such kinds alone, [`KindSet`], then tells it. Kinds that don't look at
/// attributes of that set say it for each `D`.
pub trait BranchKind<D: OpSet>: OwnKind {
    // The places of the operands that an operation of the kind forwards to a successor.
    ghost forwards: { Self → ℕ → OpView D.Kind D.Attr → Option Places };

    /// Which of its operands an operation of the kind forwards to a successor, from 0; none, where it is no branch.
    fn forwarded_range(
        self,
        ctx: &Context<D>,
        op: Ptr<Operation>,
        successor: usize,
    ) -> Option<Range<usize>>
        requires live { IsLive ctx.now (AnyNode.Operation op) }
        requires below { successor < num_successors ctx.now op }
        ensures value { option_map places_of result ≡ told_of (forwards self successor) ctx.now op }
        ensures inside { IfSome result (λ r. IsAmongOperands ctx.now op (places_of r)) };
}

/// No builtin operation branches.
impl<D: OpSet> BranchKind<D> for NoMeaning {
    ghost use Rattle.std.specs.Prelude.{None};

    ghost forwards = { λ _ _ _. None };

    fn forwarded_range(
        self,
        _ctx: &Context<D>,
        _op: Ptr<Operation>,
        _successor: usize,
    ) -> Option<Range<usize>> {
        None
    }
}

/// As the operation's kind says.
impl<K: BranchKind<KindSet<K>>> BranchSet for KindSet<K> {
    ghost use Rattle.plir_flow_sets.specs.Told.{by_own_kind};

    ghost forwards = { λ i. by_own_kind (λ k. K.forwards k i) };

    fn forwarded_range(
        ctx: &Context<Self>,
        op: Ptr<Operation>,
        successor: usize,
    ) -> Option<Range<usize>> {
        match op.kind(ctx) {
            OpKind::Own(kind) => kind.forwarded_range(ctx, op, successor),
            _ => None,
        }
    }
}
