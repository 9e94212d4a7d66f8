//! The names of a script's operations.
ghost use Rattle.std.specs.Prelude.{IfSome};
ghost use Rattle.plir_core.specs.ContextView.{IsLive};

use plir_builtin::ATTR_KEY_SYM_NAME;
use plir_core::{Context, IRNode, Operation, Ptr};
use plir_data::{AttrObj, BuiltinSet};

/// The operation that a node is, or stands in.
pub fn owner_of(ctx: &Context<BuiltinSet>, node: IRNode) -> Option<Ptr<Operation>>
    requires { IsLive ctx.now node }
    ensures { IfSome result (λ op. IsLive ctx.now (IRNode.Operation op)) }
{
    match node {
        IRNode::Operation(op) => Some(op),
        IRNode::Region(region) => region.get_parent_op(ctx),
        IRNode::BasicBlock(block) => block.get_parent_op(ctx),
    }
}

/// The name of an operation, if it has one.
pub fn name_of(ctx: &Context<BuiltinSet>, op: Ptr<Operation>) -> Option<&str>
    requires { IsLive ctx.now (IRNode.Operation op) }
{
    match op.attributes(ctx).get(ATTR_KEY_SYM_NAME)? {
        AttrObj::Identifier(name) => Some(name.as_ref().as_str()),
        _ => None,
    }
}
