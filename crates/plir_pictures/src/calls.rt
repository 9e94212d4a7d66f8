//! The call graph of a tree, in DOT.
ghost use Rattle.std.specs.Prelude.{◌≡◌, ◌++◌, [], cond, IfErr, IfOk, OnOk, string_bytes};
ghost use Rattle.std.specs.FinMap as map;
ghost use Rattle.std.specs.List.{flat_map};
ghost use Rattle.plir_core.specs.ContextView.{IsLive};
ghost use Rattle.plir_core.specs.declared.ptr.IRNode.{IRNode as AnyNode};
ghost use Rattle.plir_data.specs.TextParts.{Puts};
ghost use Rattle.plir_symbols.specs.CallGraph.{IsGraphRefusal};
ghost use Rattle.plir_pictures.specs.DrawnCalls.{IsDrawn, arrow, call_box, has_box, is_table, name_label, table_front};
ghost use Rattle.plir_pictures.specs.Ends.{has_end};

use crate::ends::Ends;
use crate::figure::{Figure, put_nested};
use crate::labels::put_label;
use crate::nodes::put_node;
use plir_builtin::laws::no_tables_agree;
use plir_builtin::{SymbolTableCollection, SymbolTableErr, is_symbol};
use plir_core::{Context, IRNode, Interface, Operation, Ptr, kind_impls};
use plir_data::put::put;
use plir_data::{Memory, OpSet};
use plir_symbols::{CallEdge, SymbolNames, call_graph};
use std::alloc::Global;
use std::fmt::Write;

// Whether an operation is a symbol table.
fn is_table<D: OpSet>(ctx: &Context<D>, op: Ptr<Operation>) -> bool
    requires { IsLive ctx.now (AnyNode.Operation op) }
    ensures { result ≡ is_table D.is_symbol_table ctx.now op }
{
    kind_impls::<D>(op.kind(ctx), Interface::SymbolTable)
}

// Whether an operation has a box: it uses a name, or is a symbol and no symbol table, or an arrow ends at it.
fn has_box<D: SymbolNames>(ctx: &Context<D>, ends: &Ends, op: Ptr<Operation>) -> bool
    requires { IsLive ctx.now (AnyNode.Operation op) }
    ensures { result ≡ has_box D.OpSet D.names_used ctx.now (has_end ends.now) op }
{
    if D::num_used_names(ctx, op) > 0 {
        return true;
    }
    (is_symbol(ctx, op) && !is_table(ctx, op)) || ends.has(op)
}

// Puts the name of an operation, as a label.
fn put_name<D: OpSet>(
    out: &mut String,
    alloc: Global,
    ctx: &Context<D>,
    op: Ptr<Operation>,
) -> Result<(), Memory>
    requires { IsLive ctx.now (AnyNode.Operation op) }
    ensures { OnOk result (Puts out.old out.new (name_label D.kind_id ctx.now op)) }
{
    let mut name = String::new(alloc);
    put_node(&mut name, ctx, IRNode::Operation(op))?;
    put(out, "label=<")?;
    put_label(out, name.as_str())?;
    put(out, ">")
}

// Puts the box of an operation.
fn put_box<D: OpSet>(
    out: &mut String,
    alloc: Global,
    ctx: &Context<D>,
    op: Ptr<Operation>,
) -> Result<(), Memory>
    requires { IsLive ctx.now (AnyNode.Operation op) }
    ensures { OnOk result (Puts out.old out.new (call_box D.kind_id ctx.now op)) }
{
    put(out, "  ")?;
    write!(out, "{op}")?;
    put(out, " [")?;
    put_name(out, alloc, ctx, op)?;
    put(out, "];\n")?;
    Ok(())
}

// Puts what opens the cluster of a symbol table.
fn put_table_front<D: OpSet>(
    out: &mut String,
    alloc: Global,
    ctx: &Context<D>,
    op: Ptr<Operation>,
) -> Result<(), Memory>
    requires { IsLive ctx.now (AnyNode.Operation op) }
    ensures { OnOk result (Puts out.old out.new (table_front D.kind_id ctx.now op)) }
{
    put(out, "  subgraph cluster_")?;
    write!(out, "{op}")?;
    put(out, " {\n  ")?;
    put_name(out, alloc, ctx, op)?;
    put(out, ";\n")?;
    Ok(())
}

// Puts what is drawn of an operation in front of what stands in it.
fn put_op_front<D: SymbolNames>(
    out: &mut String,
    alloc: Global,
    ctx: &Context<D>,
    ends: &Ends,
    op: Ptr<Operation>,
) -> Result<(), Memory>
    requires { IsLive ctx.now (AnyNode.Operation op) }
    ensures { OnOk result (Puts out.old out.new
        (cond (is_table D.is_symbol_table ctx.now op) (table_front D.kind_id ctx.now op) [] ++
        cond (has_box D.OpSet D.names_used ctx.now (has_end ends.now) op) (call_box D.kind_id ctx.now op) [])) }
{
    if is_table(ctx, op) {
        put_table_front(out, alloc, ctx, op)?;
    }
    if has_box(ctx, ends, op) {
        put_box(out, alloc, ctx, op)?;
    }
    Ok(())
}

impl<D: SymbolNames> Figure<D> for Ends {
    ghost use Rattle.plir_pictures.specs.DrawnCalls.{call_end, call_front};
    ghost use Rattle.plir_pictures.specs.Ends.{has_end as ends_at};

    ghost opens = { λ ends s n. call_front D.OpSet D.names_used s (ends_at ends) n };

    ghost closes = { λ _ s n. call_end D.is_symbol_table s n };

    fn put_opening(
        &self,
        out: &mut String,
        alloc: Global,
        ctx: &Context<D>,
        node: IRNode,
    ) -> Result<(), Memory> {
        match node {
            IRNode::Operation(op) => put_op_front(out, alloc, ctx, self, op),
            IRNode::Region(_) => Ok(()),
            IRNode::BasicBlock(_) => Ok(()),
        }
    }

    fn put_closing(&self, out: &mut String, ctx: &Context<D>, node: IRNode) -> Result<(), Memory> {
        match node {
            IRNode::Operation(op) => {
                if is_table(ctx, op) {
                    put(out, "  }\n")
                } else {
                    Ok(())
                }
            }
            IRNode::Region(_) => Ok(()),
            IRNode::BasicBlock(_) => Ok(()),
        }
    }
}

// Puts the arrow of an edge.
fn put_arrow(out: &mut String, edge: &CallEdge) -> Result<(), Memory>
    ensures { OnOk result (Puts out.old out.new (arrow edge.now)) }
{
    let user = edge.user;
    write!(out, "  {user} -> ")?;
    match edge.symbol {
        Some(symbol) => {
            write!(out, "{symbol};\n")?;
            Ok(())
        }
        None => put(out, "nothing;\n"),
    }
}

// Puts the arrows of edges.
fn put_arrows(out: &mut String, edges: &[CallEdge]) -> Result<(), Memory>
    ensures { OnOk result (Puts out.old out.new (flat_map arrow edges.now)) }
{
    for edge in edges {
        put_arrow(out, edge)?;
    }
    Ok(())
}

/// The call graph in DOT of an operation and all below it: a cluster for each symbol table, in that of the one around
/// it; a box for each function, for each other operation that uses a name, and for each other one that is used, in the
/// cluster that it stands in; and for each name that one of them uses an arrow to what bears it in its nearest table,
/// or to `nothing`.
///
/// # Errors
///
/// As [`call_graph`].
pub fn draw_calls<D: SymbolNames>(
    alloc: Global,
    ctx: &Context<D>,
    root: Ptr<Operation>,
) -> Result<String, SymbolTableErr>
    requires { IsLive ctx.now (AnyNode.Operation root) }
    ensures drawn { IfOk result (λ t. IsDrawn D.OpSet D.names_used ctx.now root (string_bytes t)) }
    ensures refused { IfErr result (IsGraphRefusal D.is_symbol D.is_symbol_table D.names_used ctx.now root map.empty) }
{
    let mut tables = SymbolTableCollection::new(alloc);
    no_tables_agree(ctx);
    let graph = call_graph(alloc, ctx, &mut tables, root)?;
    let edges = graph.edges();
    let ends = Ends::of(alloc, edges)?;
    let mut text = String::from_str(alloc, "digraph calls {\n  node [shape=box];\n")?;
    put_nested(&mut text, alloc, ctx, &ends, root)?;
    put_arrows(&mut text, edges)?;
    put(&mut text, "}\n")?;
    Ok(text)
}
