//! How a node is named: `op1v1 builtin.module @main`, `region1v1`, `block1v1`.
ghost use Rattle.std.specs.Prelude.{◌≡◌, ◌++◌, OnOk, string_bytes};
ghost use Rattle.plir_core.specs.ContextView.{IsLive};
ghost use Rattle.plir_core.specs.declared.ptr.IRNode.{IRNode as AnyNode};
ghost use Rattle.plir_iface.specs.Ids.{op_id};
ghost use Rattle.plir_pictures.specs.NodeNames.{node_name, op_words};

use plir_builtin::symbol_name;
use plir_core::{Context, IRNode, Operation, Ptr};
use plir_data::{OpKind, OpSet};
use std::alloc::AllocError;

// The id of a kind of operations, as `dialect.name`.
fn id_of<D: OpSet>(kind: OpKind<D::Kind>) -> &'static str
    ensures { result.now ≡ op_id D.kind_id kind }
{
    match kind {
        OpKind::Module => "builtin.module",
        OpKind::Func => "builtin.func",
        OpKind::Constant => "builtin.constant",
        OpKind::ForwardRef => "builtin.forward_ref",
        OpKind::Own(own) => D::kind_id(own),
    }
}

/// Puts the name of a node: its kind, its slot's number and version, and of an operation its id, and its name as a
/// symbol, if it has one.
pub fn put_node<D: OpSet>(
    out: &mut String,
    ctx: &Context<D>,
    node: IRNode,
) -> Result<(), AllocError>
    requires { IsLive ctx.now node }
    ensures { OnOk result (string_bytes out.new ≡ string_bytes out.old ++ node_name D.kind_id ctx.now node) }
{
    write!(out, "{node}")?;
    match node {
        IRNode::Operation(op) => put_op(out, ctx, op),
        IRNode::Region(_) | IRNode::BasicBlock(_) => Ok(()),
    }
}

// Puts the id of an operation, and its name as a symbol, if it has one.
fn put_op<D: OpSet>(
    out: &mut String,
    ctx: &Context<D>,
    op: Ptr<Operation>,
) -> Result<(), AllocError>
    requires { IsLive ctx.now (AnyNode.Operation op) }
    ensures { OnOk result (string_bytes out.new ≡ string_bytes out.old ++ op_words D.kind_id ctx.now op) }
{
    let id = id_of::<D>(op.kind(ctx));
    write!(out, " {id}")?;
    if let Some(name) = symbol_name(ctx, op) {
        let name = name.as_str();
        write!(out, " @{name}")?;
    }
    Ok(())
}
