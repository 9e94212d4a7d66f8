//! The arrows of a graph.
ghost use Rattle.std.specs.Prelude.{◌≡◌, OnOk};
ghost use Rattle.plir_core.specs.ContextView.{IsLive, IsValueLive};
ghost use Rattle.plir_core.specs.declared.ptr.IRNode.{IRNode as AnyNode};
ghost use Rattle.plir_data.specs.TextParts.{Puts};
ghost use Rattle.plir_pictures.specs.Arrows.{flow_arrow, flow_arrows, op_arrows, region_arrow, use_arrow, use_arrows};

use crate::figure::Figure;
use crate::seats::{put_origin, put_seat};
use plir_core::{BasicBlock, Context, IRNode, Operation, Ptr, Region, Value};
use plir_data::put::put;
use plir_data::{Memory, OpSet};
use plir_walk::NodeLinks;
use std::alloc::Global;
use std::fmt::Write;

/// The arrows that are drawn of the nodes of a graph.
#[derive(Clone, Copy, Debug)]
pub(crate) struct Arrows {
    /// Whether those from values to what uses them are.
    pub uses: bool,
}

// Puts the arrow from an operation to one of its successors.
fn put_flow<D: OpSet>(
    out: &mut String,
    ctx: &Context<D>,
    op: Ptr<Operation>,
    block: Ptr<BasicBlock>,
) -> Result<(), Memory>
    requires { IsLive ctx.now (AnyNode.Operation op) }
    ensures { OnOk result (Puts out.old out.new (flow_arrow ctx.now op block)) }
{
    put(out, "  ")?;
    put_seat(out, ctx, IRNode::Operation(op))?;
    write!(out, ":s -> {block}:top:n;\n")?;
    Ok(())
}

// Puts the arrows from an operation to its successors, in their order.
fn put_flows<D: OpSet>(out: &mut String, ctx: &Context<D>, op: Ptr<Operation>) -> Result<(), Memory>
    requires { IsLive ctx.now (AnyNode.Operation op) }
    ensures { OnOk result (Puts out.old out.new (flow_arrows ctx.now op)) }
{
    'successors: for place in 0..op.get_num_successors(ctx) {
        put_flow(out, ctx, op, op.get_successor(ctx, place))?;
    }
    Ok(())
}

// Puts the arrow from where a value comes from to an operation that uses it.
fn put_use<D: OpSet>(
    out: &mut String,
    ctx: &Context<D>,
    op: Ptr<Operation>,
    value: Value,
) -> Result<(), Memory>
    requires live { IsLive ctx.now (AnyNode.Operation op) }
    requires value { IsValueLive ctx.now value }
    ensures { OnOk result (Puts out.old out.new (use_arrow ctx.now op value)) }
{
    let user = IRNode::Operation(op);
    put(out, "  ")?;
    put_origin(out, ctx, value)?;
    put(out, ":e -> ")?;
    put_seat(out, ctx, user)?;
    put(out, ":e [style=dashed, constraint=false];\n")?;
    Ok(())
}

// Puts the arrows to an operation from where its operands come from, in their order.
fn put_uses<D: OpSet>(out: &mut String, ctx: &Context<D>, op: Ptr<Operation>) -> Result<(), Memory>
    requires { IsLive ctx.now (AnyNode.Operation op) }
    ensures { OnOk result (Puts out.old out.new (use_arrows ctx.now op)) }
{
    'operands: for place in 0..op.get_num_operands(ctx) {
        put_use(out, ctx, op, op.get_operand(ctx, place))?;
    }
    Ok(())
}

// Puts the arrows of an operation.
fn put_op_arrows<D: OpSet>(
    out: &mut String,
    ctx: &Context<D>,
    uses: bool,
    op: Ptr<Operation>,
) -> Result<(), Memory>
    requires { IsLive ctx.now (AnyNode.Operation op) }
    ensures { OnOk result (Puts out.old out.new (op_arrows ctx.now uses op)) }
{
    put_flows(out, ctx, op)?;
    if uses {
        put_uses(out, ctx, op)?;
    }
    Ok(())
}

// Puts the line from an operation to one of its regions, which ends at the first block there.
fn put_region_arrow<D: OpSet>(
    out: &mut String,
    ctx: &Context<D>,
    region: Ptr<Region>,
) -> Result<(), Memory>
    requires { IsLive ctx.now (AnyNode.Region region) }
    ensures { OnOk result (Puts out.old out.new (region_arrow ctx.now region)) }
{
    let node = IRNode::Region(region);
    let Some(over) = node.parent(ctx) else {
        return Ok(());
    };
    let Some(first) = ctx.first_child(node) else {
        return Ok(());
    };
    put(out, "  ")?;
    put_seat(out, ctx, over)?;
    write!(
        out,
        " -> {first} [style=dotted, dir=none, lhead=cluster_{region}];\n"
    )?;
    Ok(())
}

impl<D: OpSet> Figure<D> for Arrows {
    ghost use Rattle.std.specs.Prelude.{[]};
    ghost use Rattle.plir_pictures.specs.Arrows.{arrows_of};

    ghost opens = { λ a s n. arrows_of s a.uses n };

    ghost closes = { λ _ _ _. [] };

    fn put_opening(
        &self,
        out: &mut String,
        _alloc: Global,
        ctx: &Context<D>,
        node: IRNode,
    ) -> Result<(), Memory> {
        match node {
            IRNode::Operation(op) => put_op_arrows(out, ctx, self.uses, op),
            IRNode::Region(region) => put_region_arrow(out, ctx, region),
            IRNode::BasicBlock(_) => Ok(()),
        }
    }

    fn put_closing(
        &self,
        _out: &mut String,
        _ctx: &Context<D>,
        _node: IRNode,
    ) -> Result<(), Memory> {
        Ok(())
    }
}
