//! Erasing all names under an operation.
ghost use Rattle.std.specs.Prelude.{◌≡◌};
ghost use Rattle.plir_core.specs.ContextView.{IsLive, entity_node};
ghost use Rattle.plir_core.specs.declared.ptr.IRNode.{IRNode as AnyNode};
ghost use Rattle.plir_walk.specs.GivenNames.{with_attributes};
ghost use Rattle.plir_walk.specs.Unnamed.{IsUnnamed, unnamed, without_names};

use crate::config::WALKCONFIG_PREORDER_FORWARD;
use crate::names_attr::{has_other, remove_attr};
use crate::uninterruptible::mutable::walk_op;
use plir_core::laws::contexts_stand;
use plir_core::{Context, DefiningEntity, IRNode, Operation, Ptr};
use plir_data::OpSet;

// Takes the names of an operation or a block out; an attribute of another kind stays.
fn unname_entity<D: OpSet>(ctx: &mut Context<D>, entity: DefiningEntity)
    requires { IsLive ctx.old (entity_node entity) }
    ensures live { IsLive ctx.new (entity_node entity) }
    ensures after { ctx.new ≡ with_attributes ctx.old entity unnamed }
{
    if !has_other(ctx, entity) {
        remove_attr(ctx, entity);
    }
}

// Takes the names of a node out, and the label of a block.
fn unname<D: OpSet>(ctx: &mut Context<D>, node: IRNode)
    requires { IsLive ctx.old node }
    ensures { ctx.new ≡ without_names ctx.old node }
{
    match node {
        IRNode::Operation(op) => unname_entity(ctx, DefiningEntity::Op(op)),
        IRNode::BasicBlock(block) => {
            unname_entity(ctx, DefiningEntity::Block(block));
            block.set_label(ctx, None);
        }
        IRNode::Region(_) => {}
    }
}

/// Takes the names of results and arguments out of an operation and of all operations and blocks below it, and the
/// labels of those blocks. An attribute of another kind under the key of names stays, and so does all else. Takes no
/// memory.
pub fn erase_given_names<D: OpSet>(ctx: &mut Context<D>, op: Ptr<Operation>)
    requires { IsLive ctx.old (AnyNode.Operation op) }
    ensures { IsUnnamed ctx.old ctx.new (AnyNode.Operation op) }
{
    contexts_stand::<D>();
    let _at_most_the_limit = ctx.num_live();
    let unname_node = |ctx: &mut Context<D>, _state: &mut (), node: IRNode|
        requires { IsLive ctx.old node }
        ensures { ctx.new ≡ without_names ctx.old node }
    {
        unname(ctx, node);
    };
    let config = WALKCONFIG_PREORDER_FORWARD;
    let _to_its_end = walk_op(ctx, &mut (), &config, op, u64::from(u32::MAX), unname_node);
}
