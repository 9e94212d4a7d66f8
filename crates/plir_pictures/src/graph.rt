//! A graph of a tree, in DOT.
ghost use Rattle.std.specs.Prelude.{◌≡◌, IfOk, string_bytes};
ghost use Rattle.plir_core.specs.ContextView.{IsLive};
ghost use Rattle.plir_core.specs.declared.ptr.IRNode.{IRNode as AnyNode};
ghost use Rattle.plir_pictures.specs.Graph.{graph};

use crate::arrows::Arrows;
use crate::boxes::put_op_box;
use crate::clusters::Clusters;
use crate::figure::put_nested;
use plir_core::{Context, Operation, Ptr};
use plir_data::put::put;
use plir_data::{Memory, OpSet};
use std::alloc::Global;

/// The graph in DOT of an operation and all below it. The operation is a box; each region is a cluster, in that of the
/// region around it; and each block is a box in the cluster of its region, with a row for each of its operations, which
/// shows the operation's text, or its name, if it has regions. An arrow leads from the row of an operation to each of
/// its successors, a dotted line to each of its regions that has a block, and, if `uses` are asked for, a dashed arrow
/// to the row of each operation from where each of its operands comes from.
pub fn draw<D: OpSet>(
    alloc: Global,
    ctx: &Context<D>,
    root: Ptr<Operation>,
    uses: bool,
) -> Result<String, Memory>
    requires { IsLive ctx.now (AnyNode.Operation root) }
    ensures { IfOk result (λ t. string_bytes t ≡ graph D.OpSet ctx.now uses root) }
{
    let mut text = String::from_str(
        alloc,
        "digraph plir {\n  compound=true;\n  fontname=monospace;\n  node [shape=plain, fontname=monospace];\n",
    )?;
    put_op_box(&mut text, alloc, ctx, root)?;
    put_nested(&mut text, alloc, ctx, &Clusters, root)?;
    put_nested(&mut text, alloc, ctx, &Arrows { uses }, root)?;
    put(&mut text, "}\n")?;
    Ok(text)
}
