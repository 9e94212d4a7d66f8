//! Where arrows begin and end.
ghost use Rattle.std.specs.Prelude.{◌≡◌, OnOk};
ghost use Rattle.plir_core.specs.ContextView.{IsLive, IsValueLive};
ghost use Rattle.plir_data.specs.TextParts.{Puts};
ghost use Rattle.plir_pictures.specs.Seats.{home, origin, seat};

use plir_core::{Context, DefiningEntity, IRNode, Value};
use plir_data::{Memory, OpSet};
use std::fmt::Write;

/// The node in whose box a node is drawn: what stands right above it, or itself.
pub(crate) fn home<D: OpSet>(ctx: &Context<D>, node: IRNode) -> IRNode
    requires { IsLive ctx.now node }
    ensures { result ≡ home ctx.now node }
{
    match node.parent(ctx) {
        Some(over) => over,
        None => node,
    }
}

/// Puts where the row of an operation is: its box, and the port in it.
pub(crate) fn put_seat<D: OpSet>(
    out: &mut String,
    ctx: &Context<D>,
    node: IRNode,
) -> Result<(), Memory>
    requires { IsLive ctx.now node }
    ensures { OnOk result (Puts out.old out.new (seat ctx.now node)) }
{
    let home = home(ctx, node);
    write!(out, "{home}:{node}")?;
    Ok(())
}

/// Puts where a value comes from: the row of an operation, or the head of a block's box.
pub(crate) fn put_origin<D: OpSet>(
    out: &mut String,
    ctx: &Context<D>,
    value: Value,
) -> Result<(), Memory>
    requires { IsValueLive ctx.now value }
    ensures { OnOk result (Puts out.old out.new (origin ctx.now value)) }
{
    match value.defining_entity() {
        DefiningEntity::Op(op) => put_seat(out, ctx, IRNode::Operation(op)),
        DefiningEntity::Block(block) => {
            write!(out, "{block}:top")?;
            Ok(())
        }
    }
}
