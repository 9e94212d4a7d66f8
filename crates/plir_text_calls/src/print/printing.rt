//! The calls that print.
ghost use Rattle.std.specs.Prelude.{◌↔◌, IsTrue};
ghost use Rattle.plir_flow.specs.RegionEdges.{IsPointLive};
ghost use Rattle.plir_print.specs.EdgeText.{HasPointHeader};

use crate::print::edges::edge_of;
use plir_core::Context;
use plir_data::OpSet;
use plir_flow::RegionBranchPoint;
use plir_print::{has_header, is_printable, print_edge, print_op};
use plir_scripts::{Bench, Line, Stop, number};

/// Writes a line of the text of an operation, between bars: `line OP PLACE`, the first at place 1, or `none`.
pub fn print_line<D: OpSet>(bench: &mut Bench<D>, line: Line<'_>) -> Result<(), Stop> {
    let (alloc, ctx, answer) = (bench.alloc, &bench.ctx, &mut bench.answer);
    let op = bench.made.op(ctx, line.first)?;
    let place = number(line.second)?;
    if place == 0 || !is_printable(ctx, op) {
        return Err(Stop::Refused);
    }
    let text = print_op(alloc, ctx, op)?;
    match text.split('\n').nth(place - 1) {
        None => answer.put("none"),
        Some(part) => {
            answer.put("|");
            answer.put(part);
            answer.put("|");
        }
    }
    Ok(())
}

// Whether the operation that an edge starts at has the attributes that its header shows.
fn has_point_header<D: OpSet>(ctx: &Context<D>, point: RegionBranchPoint) -> bool
    requires { IsPointLive ctx.now point }
    ensures { IsTrue result ↔ HasPointHeader ctx.now point }
{
    match point {
        RegionBranchPoint::Parent => true,
        RegionBranchPoint::Terminator(op) => has_header(ctx, op),
    }
}

/// Writes the text of an edge: `edge FROM TO FLOWS READS`.
pub fn print_edge_of<D: OpSet>(bench: &mut Bench<D>, line: Line<'_>) -> Result<(), Stop> {
    let (alloc, ctx, answer) = (bench.alloc, &bench.ctx, &mut bench.answer);
    let edge = edge_of(alloc, ctx, &bench.made, line.text)?;
    if !has_point_header(ctx, edge.from) {
        return Err(Stop::Refused);
    }
    answer.put_made(print_edge(alloc, ctx, &edge));
    Ok(())
}
