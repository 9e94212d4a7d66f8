//! Laws of contexts: each function does nothing, and its contract is the law.
ghost use Rattle.std.specs.Prelude.{◌≡◌, ◌⊎◌, [], ◌∷◌, ◌++◌, ◌+◌, All, List, Option, Some, reverse, slice_get};
ghost use Rattle.std.specs.Prelude.{option_map};
ghost use Rattle.plir_store.specs.{Members.head};
ghost use Rattle.plir_core.specs.{Above.Reaches, Changes.with_op_edit, Changes.with_block_edit, Contents.OpView};
ghost use Rattle.plir_core.specs.{Contents.BlockView, Erase.IsErased, Erase.LosesOneChild, Grown.Growth};
ghost use Rattle.plir_core.specs.{Lasting.StandsBesideAfter, Made.IsMade, Measures.depth, Results.HasNoUsedResult};
ghost use Rattle.plir_core.specs.{Standing.IsStanding, Unused.IsUnusedOutside, WellFormed.IsWellFormed};
ghost use Rattle.plir_core.specs.{declared.ptr.IRNode.IRNode as AnyNode};
ghost use Rattle.plir_core.specs.{declared.ptr.Operation.Operation as OperationKind, declared.ptr.Ptr.Ptr as AnyPtr};
ghost use Rattle.plir_core.specs.{declared.ptr.Region.Region as RegionKind};
ghost use Rattle.plir_core.specs.ContextView.{ContextView, IsLive, children, parent_of, IsIndexed, first_child};
ghost use Rattle.plir_core.specs.ContextView.{last_child, next_sibling, prev_sibling};
ghost use Rattle.plir_core.specs.Held.{IsOpEdited, IsBlockEdited, OpEditsJoin, OpEditsAgree, BlockEditsJoin};
ghost use Rattle.plir_core.specs.Held.{BlockEditsAgree};

use crate::context::Context;
use crate::ptr::{BasicBlock, IRNode, Operation, Ptr};
use plir_data::OpSet;

/// What is known of the child of a node at a place, from 0.
pub fn child_at<D: OpSet>(ctx: &Context<D>, over: IRNode, child: IRNode, place: usize)
    requires { slice_get (children ctx.now over) place ≡ Some child }
    ensures live { IsLive ctx.now child }
    ensures parent { parent_of ctx.now child ≡ Some over }
    ensures deeper { depth ctx.now child ≡ depth ctx.now over + 1 }
    ensures next { next_sibling ctx.now child ≡ slice_get (children ctx.now over) (place + 1) }
{
    ctx.stands();
}

/// The first child of a node is the one at the place 0.
pub fn first_child_is_front<D: OpSet>(ctx: &Context<D>, over: IRNode)
    ensures place { first_child ctx.now over ≡ slice_get (children ctx.now over) 0 }
    ensures front { first_child ctx.now over ≡ head (children ctx.now over) }
{
    let _types = &ctx.types;
}

/// What follows a child of a node is the first of what stands behind it.
pub fn next_is_behind<D: OpSet>(ctx: &Context<D>, child: IRNode)
    ensures { (over : AnyNode) (xs ys : List AnyNode) → children ctx.now over ≡ xs ++ child ∷ ys →
        next_sibling ctx.now child ≡ head ys }
{
    ctx.stands();
}

/// The last child of a node is the first of its children in reverse.
pub fn last_child_is_back<D: OpSet>(ctx: &Context<D>, over: IRNode)
    ensures { last_child ctx.now over ≡ head (reverse (children ctx.now over)) }
{
    let _types = &ctx.types;
}

/// What stands right before a child of a node is the last of what stands before it.
pub fn prev_is_before<D: OpSet>(ctx: &Context<D>, child: IRNode)
    ensures { (over : AnyNode) (xs ys : List AnyNode) → children ctx.now over ≡ xs ++ child ∷ ys →
        prev_sibling ctx.now child ≡ head (reverse xs) }
{
    ctx.stands();
}

/// Nothing stands below a node without children: who climbs to it began there.
pub fn nothing_stands_below_a_leaf<D: OpSet>(ctx: &Context<D>, leaf: IRNode)
    requires { children ctx.now leaf ≡ [] }
    ensures { (n : AnyNode) → Reaches (parent_of ctx.now) n leaf → n ≡ leaf }
{
    ctx.stands();
}

/// A live region stands in an operation: there is no region that stands alone.
pub fn regions_stand_in_operations<D: OpSet>(ctx: &Context<D>)
    ensures { (r : AnyPtr RegionKind) → IsLive ctx.now (AnyNode.Region r) →
        (p : AnyPtr OperationKind) × (parent_of ctx.now (AnyNode.Region r) ≡ Some (AnyNode.Operation p)) }
{
    ctx.stands();
}

/// After an erasure each node that stays has the children that it had before, in their order, but for the node that was
/// erased. It is called before the erasure; `after` is what that leaves, as its clause `tree` says.
pub fn erasure_takes_one_child<D: OpSet>(ctx: &Context<D>)
    ensures { (after : ContextView D.Kind D.Attr D.Ty) (gone : AnyNode) → IsErased ctx.now.nodes after.nodes gone →
        LosesOneChild ctx.now.nodes after.nodes gone }
{
    ctx.stands();
}

/// What stands right before or right after an operation is another one, and it stays where the operation is erased: a
/// loop over the operations of a block may ask for it, erase the operation, and go on from there. It is called before
/// the erasure; `after` is what that leaves, as its clause `tree` says, and `beside` is what `get_prev` or `get_next`
/// answered.
pub fn neighbours_outlast_an_erasure<D: OpSet>(ctx: &Context<D>, op: Ptr<Operation>)
    ensures prev { (beside : Option (AnyPtr OperationKind)) (after : ContextView D.Kind D.Attr D.Ty) →
        option_map AnyNode.Operation beside ≡ prev_sibling ctx.now (AnyNode.Operation op) →
        IsErased ctx.now.nodes after.nodes (AnyNode.Operation op) → StandsBesideAfter ctx.now after op beside }
    ensures next { (beside : Option (AnyPtr OperationKind)) (after : ContextView D.Kind D.Attr D.Ty) →
        option_map AnyNode.Operation beside ≡ next_sibling ctx.now (AnyNode.Operation op) →
        IsErased ctx.now.nodes after.nodes (AnyNode.Operation op) → StandsBesideAfter ctx.now after op beside }
{
    ctx.stands();
}

/// Two nodes are the same or not: a proof goes by these cases.
pub fn nodes_are_told_apart()
    ensures { (a b : AnyNode) → (a ≡ b) ⊎ (a ≡ b → ⊥) }
{}

/// An edit of what an operation holds changes nothing else.
pub fn op_edits_keep_the_rest<D: OpSet>(ctx: &Context<D>, op: Ptr<Operation>)
    requires { IsLive ctx.now (AnyNode.Operation op) }
    ensures { (f : OpView D.Kind D.Attr → OpView D.Kind D.Attr) → IsOpEdited ctx.now (with_op_edit ctx.now op f) op f }
{
    ctx.stands();
}

/// Two edits of what an operation holds are one: the second of what the first made. An edit is what it makes of what
/// the operation holds.
pub fn op_edits_join<D: OpSet>(ctx: &Context<D>, op: Ptr<Operation>)
    ensures join { OpEditsJoin ctx.now op }
    ensures same { OpEditsAgree ctx.now op }
{
    ctx.stands();
}

/// An edit of what a block holds changes nothing else.
pub fn block_edits_keep_the_rest<D: OpSet>(ctx: &Context<D>, block: Ptr<BasicBlock>)
    requires { IsLive ctx.now (AnyNode.BasicBlock block) }
    ensures { (f : BlockView D.Attr → BlockView D.Attr) →
        IsBlockEdited ctx.now (with_block_edit ctx.now block f) block f }
{
    ctx.stands();
}

/// Two edits of what a block holds are one: the second of what the first made. An edit is what it makes of what the
/// block holds.
pub fn block_edits_join<D: OpSet>(ctx: &Context<D>, block: Ptr<BasicBlock>)
    ensures join { BlockEditsJoin ctx.now block }
    ensures same { BlockEditsAgree ctx.now block }
{
    ctx.stands();
}

/// What was made is used by nothing outside it: a refusal in the midst of a larger make can erase it.
pub fn what_was_made_is_unused<D: OpSet>(ctx: &Context<D>)
    ensures { (made : ContextView D.Kind D.Attr D.Ty) (root : AnyNode) → IsMade ctx.now.nodes made.nodes root →
        IsUnusedOutside made root }
{
    ctx.stands();
}

/// An operation can be erased whose results nothing uses, as after `Value::replace_all_uses_with` for each of them, and
/// in whose regions nothing is used from outside them, as where it has none: that is what `Operation::erase` asks for.
/// It is called before the erasure.
pub fn unused_results_can_be_erased<D: OpSet>(ctx: &Context<D>, op: Ptr<Operation>)
    ensures { HasNoUsedResult ctx.now op → All (IsUnusedOutside ctx.now) (children ctx.now (AnyNode.Operation op)) →
        IsUnusedOutside ctx.now (AnyNode.Operation op) }
{
    ctx.stands();
}

/// How trees grow from a context on: what is made and put below a node, what is made in many steps, and what is made
/// and erased again.
pub fn growth<D: OpSet>(ctx: &Context<D>)
    ensures { Growth ctx.now.nodes }
{
    ctx.stands();
}

/// The index of a pointer that was given out is its slot and 1.
pub fn index_is_slot_and_one<D: OpSet>(ctx: &Context<D>)
    ensures { IsIndexed ctx.now }
{
    ctx.stands();
}

/// What every context keeps of the nodes that stand in it, in the words of children and parents.
pub fn contexts_stand<D: OpSet>()
    ensures { (s : ContextView D.Kind D.Attr D.Ty) → IsWellFormed D.attr_handles s → IsStanding s }
{}
