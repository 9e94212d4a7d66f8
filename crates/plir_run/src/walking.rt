//! How a walk is printed.
ghost use Rattle.std.specs.Prelude.{◌≡◌, true, length};
ghost use Rattle.plir_core.specs.ContextView.{IsLive, children};
ghost use Rattle.plir_builtin.specs.TableWalks.{is_table_at};

use crate::naming::{name_of, owner_of};
use crate::stop::Stop;
use crate::writing::print_line;
use plir_builtin::walk_symbol_table;
use plir_core::{Context, IRNode, Interface, Operation, Ptr, op_impls};
use plir_data::BuiltinSet;
use plir_walk::interruptible::immutable::walk_op;
use plir_walk::interruptible::{WalkResult, walk_advance, walk_break};
use plir_walk::{Direction, Order, WalkConfig};
use std::io::{self, Write};
use std::ops::ControlFlow;

/// Writes a line for each node under the root, in the order of a walk, and then `advance`.
pub fn print_walk<W: Write>(
    ctx: &Context<BuiltinSet>,
    root: Ptr<Operation>,
    pair: (Order, Direction),
    writer: &mut W,
) -> Result<(), Stop>
    requires { IsLive ctx.now (IRNode.Operation root) }
{
    let config = WalkConfig {
        regions_in_op: pair,
        ops_in_block: pair,
        blocks_in_region: pair,
    };
    let visit = |ctx: &Context<BuiltinSet>, writer: &mut W, node: IRNode| -> WalkResult<()>
        requires { IsLive ctx.now node }
    {
        match print_node(ctx, node, writer) {
            Ok(()) => walk_advance(),
            Err(_) => walk_break(()),
        }
    };
    let end = walk_op(ctx, writer, &config, root, visit);
    print_end(end, writer)
}

/// Writes a line for each operation that a walk of the table of an operation calls at, and then `advance`.
pub fn print_symbols<W: Write>(
    ctx: &Context<BuiltinSet>,
    table: Ptr<Operation>,
    writer: &mut W,
) -> Result<(), Stop>
    requires { IsLive ctx.now (IRNode.Operation table) }
{
    if !op_impls(ctx, table, Interface::SymbolTable) || table.num_regions(ctx) != 1 {
        return Err(Stop::Refused);
    }
    let visit = |ctx: &Context<BuiltinSet>, writer: &mut W, op: Ptr<Operation>| -> WalkResult<()>
        requires { IsLive ctx.now (IRNode.Operation op) }
    {
        match print_node(ctx, IRNode::Operation(op), writer) {
            Ok(()) => walk_advance(),
            Err(_) => walk_break(()),
        }
    };
    let end = walk_symbol_table(table, ctx, writer, visit);
    print_end(end, writer)
}

// Writes `advance` where a walk went to its end; it breaks only where a line can't be written.
fn print_end<W: Write>(end: WalkResult<()>, writer: &mut W) -> Result<(), Stop> {
    match end {
        ControlFlow::Break(()) => Err(Stop::WriteFailed),
        ControlFlow::Continue(_) => print_line(writer, "advance"),
    }
}

// `op N`, `region of N` or `block of N`, where N is the name of the operation that the node is, or stands in.
fn print_node<W: Write>(ctx: &Context<BuiltinSet>, node: IRNode, writer: &mut W) -> io::Result<()>
    requires { IsLive ctx.now node }
{
    let what = match node {
        IRNode::Operation(_) => "op",
        IRNode::Region(_) => "region of",
        IRNode::BasicBlock(_) => "block of",
    };
    let name = match owner_of(ctx, node) {
        None => "",
        Some(op) => name_of(ctx, op).unwrap_or(""),
    };
    writeln!(writer, "{what} {name}")
}
