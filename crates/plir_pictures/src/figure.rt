//! Texts that are nested as a tree, put by one loop over links.
ghost use Rattle.std.specs.Prelude.{◌≡◌, ◌++◌, ℕ, IfOk, List, OnOk, Some, string_bytes, true, false};
ghost use Rattle.plir_core.specs.declared.ptr.IRNode.{IRNode as AnyNode};
ghost use Rattle.plir_core.specs.ContextView.{ContextView, IsLive};
ghost use Rattle.plir_core.specs.Standing.{IsStanding};
ghost use Rattle.plir_data.specs.TextParts.{Puts};
ghost use Rattle.plir_pictures.specs.Nested.{nested};
ghost use Rattle.plir_pictures.specs.Steps.{Steps};

use plir_core::laws::{contexts_stand, next_is_behind};
use plir_core::{Context, IRNode, Operation, Ptr};
use plir_data::{Memory, OpSet};
use plir_walk::NodeLinks;
use std::alloc::Global;

/// What is drawn of the nodes of a tree: of each a text in front of those of its children, and one behind them.
pub(crate) trait Figure<D: OpSet> {
    // What opens a node.
    ghost opens: { Self → ContextView D.Kind D.Attr D.Ty → AnyNode → List ℕ };

    // What closes it.
    ghost closes: { Self → ContextView D.Kind D.Attr D.Ty → AnyNode → List ℕ };

    /// Puts what opens a node.
    fn put_opening(
        &self,
        out: &mut String,
        alloc: Global,
        ctx: &Context<D>,
        node: IRNode,
    ) -> Result<(), Memory>
        requires { IsLive ctx.now node }
        ensures { OnOk result (Puts out.old out.new (opens self.now ctx.now node)) };

    /// Puts what closes a node.
    fn put_closing(&self, out: &mut String, ctx: &Context<D>, node: IRNode) -> Result<(), Memory>
        requires { IsLive ctx.now node }
        ensures { OnOk result (Puts out.old out.new (closes self.now ctx.now node)) };
}

/// Nothing is done: this tells a proof what the context keeps of its nodes.
pub(crate) fn stands<D: OpSet>(ctx: &Context<D>)
    ensures { IsStanding ctx.now }
{
    contexts_stand::<D>();
    ctx.stands();
}

// Puts what opens a node, and goes on to its first child, or to its end.
fn enter<D: OpSet, F: Figure<D>>(
    out: &mut String,
    alloc: Global,
    ctx: &Context<D>,
    figure: &F,
    node: IRNode,
) -> Result<(IRNode, bool), Memory>
    requires { IsLive ctx.now node }
    ensures { IfOk result (λ c. (root : AnyNode) → Steps ctx.now (F.opens figure.now ctx.now)
        (F.closes figure.now ctx.now) root (string_bytes out.old) (node, true) (string_bytes out.new) (Some c)) }
{
    stands(ctx);
    figure.put_opening(out, alloc, ctx, node)?;
    match ctx.first_child(node) {
        Some(child) => Ok((child, true)),
        None => Ok((node, false)),
    }
}

// Goes on from a node that is closed and is not the root: to the next node under the same one, or to the end of that.
fn go_on<D: OpSet>(ctx: &Context<D>, node: IRNode) -> Option<(IRNode, bool)>
    requires { IsLive ctx.now node }
    ensures { (opens closes : AnyNode → List ℕ) (root : AnyNode) (old new : List ℕ) → (node ≡ root → ⊥) →
        new ≡ old ++ closes node → Steps ctx.now opens closes root old (node, false) new result }
{
    stands(ctx);
    next_is_behind(ctx, node);
    let Some(over) = ctx.parent(node) else {
        return None;
    };
    match node.next_sibling(ctx) {
        Some(next) => Some((next, true)),
        None => Some((over, false)),
    }
}

// Puts what closes a node, and goes on from there. None, if it is the root.
fn leave<D: OpSet, F: Figure<D>>(
    out: &mut String,
    ctx: &Context<D>,
    figure: &F,
    root: IRNode,
    node: IRNode,
) -> Result<Option<(IRNode, bool)>, Memory>
    requires { IsLive ctx.now node }
    ensures { IfOk result (Steps ctx.now (F.opens figure.now ctx.now) (F.closes figure.now ctx.now) root
        (string_bytes out.old) (node, false) (string_bytes out.new)) }
{
    stands(ctx);
    figure.put_closing(out, ctx, node)?;
    if node == root {
        Ok(None)
    } else {
        Ok(go_on(ctx, node))
    }
}

// Puts what stands where the loop has come to, and goes on from there.
fn step<D: OpSet, F: Figure<D>>(
    out: &mut String,
    alloc: Global,
    ctx: &Context<D>,
    figure: &F,
    root: IRNode,
    at: (IRNode, bool),
) -> Result<Option<(IRNode, bool)>, Memory>
    requires { IsLive ctx.now at.0 }
    ensures { IfOk result (Steps ctx.now (F.opens figure.now ctx.now) (F.closes figure.now ctx.now) root
        (string_bytes out.old) at (string_bytes out.new)) }
{
    let (node, entering) = at;
    if entering {
        Ok(Some(enter(out, alloc, ctx, figure, node)?))
    } else {
        leave(out, ctx, figure, root, node)
    }
}

/// Puts what is drawn of an operation and all below it.
pub(crate) fn put_nested<D: OpSet, F: Figure<D>>(
    out: &mut String,
    alloc: Global,
    ctx: &Context<D>,
    figure: &F,
    op: Ptr<Operation>,
) -> Result<(), Memory>
    requires { IsLive ctx.now (AnyNode.Operation op) }
    ensures { OnOk result (Puts out.old out.new (nested ctx.now (F.opens figure.now ctx.now)
        (F.closes figure.now ctx.now) (AnyNode.Operation op))) }
{
    stands(ctx);
    let root = IRNode::Operation(op);
    let mut at = (root, true);
    'steps: loop {
        match step(out, alloc, ctx, figure, root, at)? {
            Some(next) => at = next,
            None => return Ok(()),
        }
    }
}
