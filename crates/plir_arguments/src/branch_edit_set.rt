//! Which operands may be taken out of operations that branch.
ghost use Rattle.std.specs.Prelude.{◌≡◌, ◌<◌, ℕ, Bool, List, length, true};
ghost use Rattle.plir_core.specs.declared.ptr.IRNode.{IRNode as AnyNode};
ghost use Rattle.plir_core.specs.Contents.{OpView};
ghost use Rattle.plir_core.specs.ContextView.{IsLive};
ghost use Rattle.plir_core.specs.WellFormed.{IsWellFormed};
ghost use Rattle.plir_flow.specs.Branches.{num_successors};
ghost use Rattle.plir_flow_sets.specs.Branches.{forwarded_to};
ghost use Rattle.plir_arguments.specs.Removed.{ForwardsLess, IsOpChanged, is_told};

use plir_core::{Context, Operation, Ptr};
use plir_data::{KindSet, OpKind, OpSet};
use plir_flow_sets::{BranchKind, BranchSet};

/// An op set whose operations can come to forward one value less to a successor. Which of them can is told by what the
/// operation holds.
pub trait BranchEditSet: BranchSet {
    // Whether a value that an operation forwards to a successor may be taken out of it.
    ghost removes: { ℕ → OpView Self.Kind Self.Attr → Bool };

    // The keys of the attributes that describe how operands stand, as that of the sizes of segments.
    ghost layout_keys: { List (List ℕ) };

    /// Whether a value that an operation forwards to a successor, from 0, may be taken out of it.
    fn can_remove_forwarded(ctx: &Context<Self>, op: Ptr<Operation>, successor: usize) -> bool
        requires live { IsLive ctx.now (AnyNode.Operation op) }
        requires below { successor < num_successors ctx.now op }
        ensures { result ≡ is_told (removes successor) ctx.now op };

    /// Takes the value for the argument at a place of a successor, from 0, out of an operation; those behind it move
    /// down, and the other successors get what they got.
    fn remove_forwarded(ctx: &mut Context<Self>, op: Ptr<Operation>, successor: usize, place: usize)
        requires live { IsLive ctx.old (AnyNode.Operation op) }
        requires below { successor < num_successors ctx.old op }
        requires removes { is_told (removes successor) ctx.old op ≡ true }
        requires within { place < length (forwarded_to Self.forwards ctx.old op successor) }
        ensures less { IsOpChanged ctx.old ctx.new op (ForwardsLess layout_keys Self.forwards successor place) }
        ensures whole { IsWellFormed Self.attr_handles ctx.new };
}

/// Own kinds of operations that tell whether these can forward one value less, in an op set `D` that they are part of,
/// and have them do so: the op set of such kinds alone, [`KindSet`], then tells it.
pub trait BranchEditKind<D: OpSet>: BranchKind<D> {
    // Whether a value that an operation of the kind forwards to a successor may be taken out of it.
    ghost removes: { Self → ℕ → OpView D.Kind D.Attr → Bool };

    // The keys of the attributes that describe how operands stand.
    ghost layout_keys: { List (List ℕ) };

    /// Whether a value that an operation of the kind forwards to a successor, from 0, may be taken out of it.
    fn can_remove_forwarded(self, ctx: &Context<D>, op: Ptr<Operation>, successor: usize) -> bool
        requires live { IsLive ctx.now (AnyNode.Operation op) }
        requires below { successor < num_successors ctx.now op }
        ensures { result ≡ is_told (removes self successor) ctx.now op };

    /// Takes the value for the argument at a place of a successor, from 0, out of an operation of the kind; those
    /// behind it move down, and the other successors get what they got.
    fn remove_forwarded(
        self,
        ctx: &mut Context<D>,
        op: Ptr<Operation>,
        successor: usize,
        place: usize,
    )
        requires live { IsLive ctx.old (AnyNode.Operation op) }
        requires below { successor < num_successors ctx.old op }
        requires removes { is_told (removes self successor) ctx.old op ≡ true }
        requires within { place < length (forwarded_to (Self.forwards self) ctx.old op successor) }
        ensures less { IsOpChanged ctx.old ctx.new op
            (ForwardsLess layout_keys (Self.forwards self) successor place) }
        ensures whole { IsWellFormed D.attr_handles ctx.new };
}

/// As the operation's kind says.
impl<K: BranchEditKind<KindSet<K>>> BranchEditSet for KindSet<K> {
    ghost use Rattle.plir_arguments.specs.Removed.{test_by_own_kind};

    ghost removes = { λ i. test_by_own_kind (λ k. K.removes k i) };

    ghost layout_keys = { K.layout_keys };

    fn can_remove_forwarded(ctx: &Context<Self>, op: Ptr<Operation>, successor: usize) -> bool {
        match op.kind(ctx) {
            OpKind::Own(kind) => kind.can_remove_forwarded(ctx, op, successor),
            _ => false,
        }
    }

    fn remove_forwarded(
        ctx: &mut Context<Self>,
        op: Ptr<Operation>,
        successor: usize,
        place: usize,
    ) {
        match op.kind(ctx) {
            OpKind::Own(kind) => kind.remove_forwarded(ctx, op, successor, place),
            _ => unreachable!(),
        }
    }
}
