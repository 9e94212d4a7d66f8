//! What the joined set tells.
ghost use Rattle.std.specs.Prelude.{IfOk};
ghost use Rattle.plir_core.specs.ContextView.{IsLive};
ghost use Rattle.plir_core.specs.declared.ptr.IRNode.{IRNode as AnyNode};

use joined_dialects::flow::{Flow, JumpKind, ReturnKind};
use plir_core::{BasicBlock, Context, NodeErr, Operation, Ptr};
use plir_data::{OpKind, OpSet};
use plir_dialect::OneOf;
use plir_flow_sets::{BranchSet, CallSet, RegionEdgeSet};
use plir_scripts::{InContext, in_new_context};
use std::alloc::Global;

/// What a set tells of an operation.
#[derive(Clone, Copy, PartialEq, Eq, Debug)]
struct Told {
    calls: bool,
    returns: bool,
    branches: bool,
    has_edges: bool,
}

// A new operation of a kind, with a new block as its successor.
fn make<D: OpSet>(
    alloc: Global,
    ctx: &mut Context<D>,
    kind: D::Kind,
) -> Result<Ptr<Operation>, NodeErr>
    ensures { IfOk result (λ op. IsLive ctx.new (AnyNode.Operation op)) }
{
    let block = BasicBlock::new(alloc, ctx, None, Vec::new(alloc))?;
    let mut successors = Vec::new(alloc);
    successors.push(block)?;
    let kind = OpKind::Own(kind);
    Operation::new(
        alloc,
        ctx,
        kind,
        Vec::new(alloc),
        Vec::new(alloc),
        successors,
        0,
    )
}

// What the set tells of an operation.
fn tell<D: CallSet + BranchSet + RegionEdgeSet>(
    alloc: Global,
    ctx: &Context<D>,
    op: Ptr<Operation>,
) -> Result<Told, NodeErr>
    requires { IsLive ctx.now (AnyNode.Operation op) }
{
    let branches = op.get_num_successors(ctx) > 0 && D::forwarded_range(ctx, op, 0).is_some();
    Ok(Told {
        calls: D::call(ctx, op).is_some(),
        returns: D::returned_range(ctx, op).is_some(),
        branches,
        has_edges: D::region_edges(alloc, ctx, op)?.is_some(),
    })
}

// What is told of a new operation of a kind.
fn tell_new<D: CallSet + BranchSet + RegionEdgeSet>(
    alloc: Global,
    ctx: &mut Context<D>,
    kind: D::Kind,
) -> Result<Told, NodeErr> {
    let op = make(alloc, ctx, kind)?;
    tell(alloc, ctx, op)
}

/// An op set with a kind that returns and one that branches.
trait HasJumps: OpSet {
    /// The kind that returns.
    fn returns() -> Self::Kind;

    /// The kind that branches.
    fn jumps() -> Self::Kind;
}

impl HasJumps for Flow {
    fn returns() -> Self::Kind {
        OneOf::First(ReturnKind)
    }

    fn jumps() -> Self::Kind {
        OneOf::Second(JumpKind)
    }
}

/// Asks what is told of an operation of each dialect.
#[derive(Drop)]
struct AsksBoth {
    alloc: Global,
}

impl<D: CallSet + BranchSet + RegionEdgeSet + HasJumps> InContext<D> for AsksBoth {
    type Answer = Result<(Told, Told), NodeErr>;

    fn run(self, ctx: &mut Context<D>) -> Result<(Told, Told), NodeErr> {
        let first = tell_new(self.alloc, ctx, D::returns())?;
        let second = tell_new(self.alloc, ctx, D::jumps())?;
        Ok((first, second))
    }
}

#[test]
fn a_joined_set_tells_what_each_side_tells(rt: HostRuntime) -> Result<(), NodeErr> {
    let (first, second) = in_new_context::<Flow, _>(rt.alloc(), AsksBoth { alloc: rt.alloc() })?;
    let neither = Told {
        calls: false,
        returns: false,
        branches: false,
        has_edges: false,
    };
    let returns = Told {
        returns: true,
        ..neither
    };
    let branches = Told {
        branches: true,
        ..neither
    };
    assert!(rt; first == returns);
    assert!(rt; second == branches);
    Ok(())
}
