//! Copies of trees: of an operation, or of a block, with all that stands below it.
ghost use Rattle.std.specs.Prelude.{◌≡◌, ◌<◌, ◌∷◌, [], Err, IfOk, OnErr, OnOk, Some, length, slice_get, true};
ghost use Rattle.plir_core.specs.Changes.{SameLive};
ghost use Rattle.plir_core.specs.ContextView.{ContextView, IsLive, block_at, children, given_out, op_at};
ghost use Rattle.plir_core.specs.Erase.{IsErased};
ghost use Rattle.plir_core.specs.Grown.{IsGrown};
ghost use Rattle.plir_core.specs.Held.{IsOpEdited};
ghost use Rattle.plir_core.specs.Made.{IsMade};
ghost use Rattle.plir_core.specs.Unused.{IsUnusedOutside};
ghost use Rattle.plir_core.specs.WellFormed.{IsWellFormed};
ghost use Rattle.plir_core.specs.declared.ptr.BasicBlock.{BasicBlock as BlockKind};
ghost use Rattle.plir_core.specs.declared.ptr.IRNode.{IRNode as AnyNode};
ghost use Rattle.plir_core.specs.declared.ptr.Operation.{Operation as OperationKind};
ghost use Rattle.plir_core.specs.declared.ptr.Ptr.{Ptr as AnyPtr};
ghost use Rattle.plir_core.specs.declared.ptr.Region.{Region as RegionKind};
ghost use Rattle.plir_core.specs.Room.{HaveCome, IsFullFor, no_node, one_block, one_op, one_region};
ghost use Rattle.plir_store.specs.Members.{Distinct, Has};
ghost use Rattle.plir_copies.specs.Images.{AreImagesLive, images, no_images, over};
ghost use Rattle.plir_copies.specs.Copied.{located_in, with_successors_in};
ghost use Rattle.plir_copies.specs.Room.{count_of, one_like};
ghost use Rattle.plir_copies.specs.Room.{tree_count};
ghost use Rattle.plir_copies.specs.Trees.{IsCopyOfTree};
ghost use Rattle.plir_copies.specs.Twins.{AreChanged, AreChildrenCopied, AreOfOneKind, CanStandAlone, CanStandUnder};
ghost use Rattle.plir_copies.specs.Twins.{HoldsAs, IsAddedLast, IsCopying, copies_of, with_twin, with_twins};
ghost use Rattle.plir_copies.specs.declared.trees.Twin.{Twin as AnyTwin};

use crate::blocks::{copy_block, map_arguments};
use crate::copying::{change_operands, copy_bare, map_results};
use crate::value_map::ValueMap;
use plir_core::laws::{
    contexts_stand, first_child_is_front, growth, next_is_behind, nothing_stands_below_a_leaf,
    op_edits_keep_the_rest, what_was_made_is_unused,
};
use plir_core::{BasicBlock, Context, IRNode, NodeErr, Operation, Ptr, Region};
use plir_data::{Memory, OpSet};
use std::alloc::Global;

/// A node and its copy.
#[derive(Clone, Copy)]
pub(crate) struct Twin {
    pub(crate) node: IRNode,
    pub(crate) copy: IRNode,
}

// An operation without regions, in no block, that holds what another one holds.
fn copy_op<D: OpSet>(
    alloc: Global,
    ctx: &mut Context<D>,
    op: Ptr<Operation>,
) -> Result<Ptr<Operation>, NodeErr>
    requires { IsLive ctx.old (AnyNode.Operation op) }
    ensures made { IfOk result (λ p. IsMade ctx.old.nodes ctx.new.nodes (AnyNode.Operation p)) }
    ensures held { IfOk result (λ p. op_at ctx.new p ≡ op_at ctx.old op) }
    ensures leaf { IfOk result (λ p. children ctx.new (AnyNode.Operation p) ≡ []) }
    ensures full { result ≡ Err NodeErr.TooManyNodes → IsFullFor ctx.old.nodes one_op }
    ensures come { OnOk result (HaveCome ctx.old.nodes ctx.new.nodes one_op) }
    ensures types { ctx.new.types ≡ ctx.old.types }
    ensures given { (n : AnyNode) → given_out ctx.old n ≡ true → given_out ctx.new n ≡ true }
    ensures err { OnErr result (SameLive ctx.old ctx.new) }
    ensures whole { IsWellFormed D.attr_handles ctx.new }
{
    let nothing = ValueMap::new(alloc);
    let copy = copy_bare(alloc, ctx, &nothing, op)?;
    Ok(copy)
}

// A copy of an operation, without what stands below it, at the end of a block.
fn copy_op_to<D: OpSet>(
    alloc: Global,
    ctx: &mut Context<D>,
    op: Ptr<Operation>,
    block: Ptr<BasicBlock>,
) -> Result<Ptr<Operation>, NodeErr>
    requires live { IsLive ctx.old (AnyNode.Operation op) }
    requires block_live { IsLive ctx.old (AnyNode.BasicBlock block) }
    ensures added { IfOk result (λ p. IsAddedLast ctx.old.nodes ctx.new.nodes (AnyNode.BasicBlock block)
        (AnyNode.Operation p)) }
    ensures holds { IfOk result (λ p. op_at ctx.new p ≡ op_at ctx.old op) }
    ensures full { result ≡ Err NodeErr.TooManyNodes → IsFullFor ctx.old.nodes one_op }
    ensures come { OnOk result (HaveCome ctx.old.nodes ctx.new.nodes one_op) }
    ensures types { ctx.new.types ≡ ctx.old.types }
    ensures grown { IsGrown ctx.old.nodes ctx.new.nodes (AnyNode.BasicBlock block) }
    ensures whole { IsWellFormed D.attr_handles ctx.new }
{
    ctx.stands();
    growth(ctx);
    let copy = copy_op(alloc, ctx, op)?;
    nothing_stands_below_a_leaf(ctx, IRNode::Operation(copy));
    copy.insert_at_back(ctx, block);
    Ok(copy)
}

// A copy of a block, without what stands below it, at the end of a region.
fn copy_block_to<D: OpSet>(
    alloc: Global,
    ctx: &mut Context<D>,
    block: Ptr<BasicBlock>,
    region: Ptr<Region>,
) -> Result<Ptr<BasicBlock>, NodeErr>
    requires live { IsLive ctx.old (AnyNode.BasicBlock block) }
    requires region_live { IsLive ctx.old (AnyNode.Region region) }
    ensures added { IfOk result (λ b. IsAddedLast ctx.old.nodes ctx.new.nodes (AnyNode.Region region)
        (AnyNode.BasicBlock b)) }
    ensures holds { IfOk result (λ b. block_at ctx.new b ≡ block_at ctx.old block) }
    ensures full { result ≡ Err NodeErr.TooManyNodes → IsFullFor ctx.old.nodes one_block }
    ensures come { OnOk result (HaveCome ctx.old.nodes ctx.new.nodes one_block) }
    ensures types { ctx.new.types ≡ ctx.old.types }
    ensures grown { IsGrown ctx.old.nodes ctx.new.nodes (AnyNode.Region region) }
    ensures whole { IsWellFormed D.attr_handles ctx.new }
{
    ctx.stands();
    growth(ctx);
    let copy = copy_block(alloc, ctx, block)?;
    nothing_stands_below_a_leaf(ctx, IRNode::BasicBlock(copy));
    copy.insert_at_back(ctx, region);
    Ok(copy)
}

// A new region of an operation, the last one.
fn add_region_to<D: OpSet>(ctx: &mut Context<D>, op: Ptr<Operation>) -> Result<Ptr<Region>, NodeErr>
    requires { IsLive ctx.old (AnyNode.Operation op) }
    ensures added { IfOk result (λ r. IsAddedLast ctx.old.nodes ctx.new.nodes (AnyNode.Operation op)
        (AnyNode.Region r)) }
    ensures full { result ≡ Err NodeErr.TooManyNodes → IsFullFor ctx.old.nodes one_region }
    ensures come { OnOk result (HaveCome ctx.old.nodes ctx.new.nodes one_region) }
    ensures types { ctx.new.types ≡ ctx.old.types }
    ensures grown { IsGrown ctx.old.nodes ctx.new.nodes (AnyNode.Operation op) }
    ensures whole { IsWellFormed D.attr_handles ctx.new }
{
    ctx.stands();
    growth(ctx);
    let region = Operation::add_region(op, ctx)?;
    Ok(region)
}

// The block that a node is under which an operation can stand.
fn as_block(node: IRNode) -> Ptr<BasicBlock>
    requires { (p : AnyPtr OperationKind) × CanStandUnder (AnyNode.Operation p) node }
    ensures { node ≡ AnyNode.BasicBlock result }
{
    match node {
        IRNode::BasicBlock(block) => block,
        IRNode::Operation(_) => unreachable!(),
        IRNode::Region(_) => unreachable!(),
    }
}

// The region that a node is under which a block can stand.
fn as_region(node: IRNode) -> Ptr<Region>
    requires { (b : AnyPtr BlockKind) × CanStandUnder (AnyNode.BasicBlock b) node }
    ensures { node ≡ AnyNode.Region result }
{
    match node {
        IRNode::Region(region) => region,
        IRNode::Operation(_) => unreachable!(),
        IRNode::BasicBlock(_) => unreachable!(),
    }
}

// The operation that a node is under which a region can stand.
fn as_op(node: IRNode) -> Ptr<Operation>
    requires { (r : AnyPtr RegionKind) × CanStandUnder (AnyNode.Region r) node }
    ensures { node ≡ AnyNode.Operation result }
{
    match node {
        IRNode::Operation(op) => op,
        IRNode::Region(_) => unreachable!(),
        IRNode::BasicBlock(_) => unreachable!(),
    }
}

// A node without children that holds what another one holds, the last child of a node that it can stand under.
fn copy_child<D: OpSet>(
    alloc: Global,
    ctx: &mut Context<D>,
    child: IRNode,
    over: IRNode,
) -> Result<IRNode, NodeErr>
    requires live { IsLive ctx.old child }
    requires over_live { IsLive ctx.old over }
    requires fits { CanStandUnder child over }
    ensures added { IfOk result (λ n. IsAddedLast ctx.old.nodes ctx.new.nodes over n) }
    ensures holds { IfOk result (λ n. HoldsAs ctx.old ctx.new child n) }
    ensures full { result ≡ Err NodeErr.TooManyNodes → IsFullFor ctx.old.nodes (one_like child) }
    ensures come { OnOk result (HaveCome ctx.old.nodes ctx.new.nodes (one_like child)) }
    ensures types { ctx.new.types ≡ ctx.old.types }
    ensures grown { IsGrown ctx.old.nodes ctx.new.nodes over }
    ensures whole { IsWellFormed D.attr_handles ctx.new }
{
    match child {
        IRNode::Operation(op) => {
            let copy = copy_op_to(alloc, ctx, op, as_block(over))?;
            Ok(IRNode::Operation(copy))
        }
        IRNode::BasicBlock(block) => {
            let copy = copy_block_to(alloc, ctx, block, as_region(over))?;
            Ok(IRNode::BasicBlock(copy))
        }
        IRNode::Region(_) => {
            let copy = add_region_to(ctx, as_op(over))?;
            Ok(IRNode::Region(copy))
        }
    }
}

// Copies the children of a node, in their order, below the copy of the node, which has none yet.
fn copy_children<D: OpSet>(
    alloc: Global,
    ctx: &mut Context<D>,
    twins: &mut Vec<Twin>,
    node: IRNode,
    copy: IRNode,
) -> Result<(), NodeErr>
    requires live { IsLive ctx.old node }
    requires copy_live { IsLive ctx.old copy }
    requires kind { AreOfOneKind node copy }
    requires apart { node ≡ copy → ⊥ }
    requires leaf { children ctx.old copy ≡ [] }
    ensures ok { OnOk result (AreChildrenCopied ctx.old ctx.new node copy twins.old.items twins.new.items) }
    ensures full { result ≡ Err NodeErr.TooManyNodes → IsFullFor ctx.old.nodes (count_of (children ctx.old node)) }
    ensures come { OnOk result (HaveCome ctx.old.nodes ctx.new.nodes (count_of (children ctx.old node))) }
    ensures types { ctx.new.types ≡ ctx.old.types }
    ensures grown { IsGrown ctx.old.nodes ctx.new.nodes copy }
    ensures whole { IsWellFormed D.attr_handles ctx.new }
{
    ctx.stands();
    contexts_stand::<D>();
    growth(ctx);
    first_child_is_front(ctx, node);
    let mut next = node.first_child(ctx);
    'children: while let Some(child) = next {
        let made = copy_child(alloc, ctx, child, copy)?;
        let twin = Twin {
            node: child,
            copy: made,
        };
        twins.push(twin)?;
        next_is_behind(ctx, child);
        next = child.next_sibling(ctx);
    }
    Ok(())
}

// The node with its copy at a place of a list.
fn twin_at(twins: &[Twin], place: usize) -> Twin
    requires { place < length twins.now }
    ensures { slice_get twins.now place ≡ Some result }
{
    twins[place]
}

// Copies all that stands below a node whose copy is the one node listed, and lists each node with its copy.
fn copy_below<D: OpSet>(
    alloc: Global,
    ctx: &mut Context<D>,
    twins: &mut Vec<Twin>,
) -> Result<(), NodeErr>
    requires { (s : ContextView D.Kind D.Attr D.Ty) × (root : AnyNode) × (copy : AnyNode) ×
        IsCopying s ctx.old root copy [] twins.old.items }
    ensures ok { OnOk result ((s : ContextView D.Kind D.Attr D.Ty) → (root copy : AnyNode) →
        IsCopying s ctx.old root copy [] twins.old.items →
        IsCopying s ctx.new root copy twins.new.items []) }
    ensures made { (s : ContextView D.Kind D.Attr D.Ty) → (root copy : AnyNode) →
        IsCopying s ctx.old root copy [] twins.old.items → IsMade s.nodes ctx.new.nodes copy }
    ensures full { result ≡ Err NodeErr.TooManyNodes → (s : ContextView D.Kind D.Attr D.Ty) →
        (root copy : AnyNode) → IsCopying s ctx.old root copy [] twins.old.items →
        IsFullFor s.nodes (tree_count s.nodes root) }
    ensures types { ctx.new.types ≡ ctx.old.types }
    ensures whole { IsWellFormed D.attr_handles ctx.new }
{
    ctx.stands();
    contexts_stand::<D>();
    let mut done = 0;
    'nodes: while done < twins.len() {
        let twin = twin_at(twins.as_slice(), done);
        copy_children(alloc, ctx, twins, twin.node, twin.copy)?;
        done += 1;
    }
    Ok(())
}

// Puts the copy of a block and its arguments, or the results of the copy of an operation, in place of what it copies.
fn map_twin<D: OpSet>(ctx: &Context<D>, map: &mut ValueMap, twin: Twin) -> Result<(), Memory>
    requires live { IsLive ctx.now twin.node }
    requires copy_live { IsLive ctx.now twin.copy }
    requires same { HoldsAs ctx.now ctx.now twin.node twin.copy }
    ensures { OnOk result (images map.new ≡ with_twin ctx.now (images map.old) twin.node twin.copy) }
{
    match (twin.node, twin.copy) {
        (IRNode::Operation(op), IRNode::Operation(copy)) => map_results(ctx, map, op, copy),
        (IRNode::BasicBlock(block), IRNode::BasicBlock(copy)) => {
            map_arguments(ctx, map, block, copy)?;
            map.map_block(block, copy)
        }
        _ => Ok(()),
    }
}

// The same for each of a list of nodes with their copies.
fn map_twins<D: OpSet>(ctx: &Context<D>, map: &mut ValueMap, twins: &[Twin]) -> Result<(), Memory>
    requires live { (w : AnyTwin) → Has twins.now w → IsLive ctx.now w.node }
    requires copy_live { (w : AnyTwin) → Has twins.now w → IsLive ctx.now w.copy }
    requires same { (w : AnyTwin) → Has twins.now w → HoldsAs ctx.now ctx.now w.node w.copy }
    ensures { OnOk result (images map.new ≡ with_twins ctx.now (images map.old) twins.now) }
{
    for i in 0..twins.len() {
        let twin = twin_at(twins, i);
        map_twin(ctx, map, twin)?;
    }
    Ok(())
}

// Puts in place of each successor of an operation what stands in its place in a map.
fn change_successors<D: OpSet>(ctx: &mut Context<D>, map: &ValueMap, op: Ptr<Operation>)
    requires live { IsLive ctx.old (AnyNode.Operation op) }
    requires images_live { AreImagesLive ctx.old (images map.now) }
    ensures edited { IsOpEdited ctx.old ctx.new op (with_successors_in (images map.now)) }
    ensures none_come { HaveCome ctx.old.nodes ctx.new.nodes no_node }
    ensures whole { IsWellFormed D.attr_handles ctx.new }
{
    ctx.stands();
    for i in 0..op.get_num_successors(ctx) {
        op_edits_keep_the_rest(ctx, op);
        let successor = op.get_successor(ctx, i);
        op.set_successor(ctx, i, map.block(successor));
    }
}

// Gives an operation the location of a copy that stands in place of the call of a map.
fn change_location<D: OpSet>(ctx: &mut Context<D>, map: &ValueMap, op: Ptr<Operation>)
    requires { IsLive ctx.old (AnyNode.Operation op) }
    ensures edited { IsOpEdited ctx.old ctx.new op (located_in (images map.now)) }
    ensures none_come { HaveCome ctx.old.nodes ctx.new.nodes no_node }
    ensures whole { IsWellFormed D.attr_handles ctx.new }
{
    op_edits_keep_the_rest(ctx, op);
    let location = op.loc(ctx);
    op.set_loc(ctx, location.inlined_at(map.call()));
}

// Puts in place of the operands and successors of a node, if it is an operation, what stands in their place in a map,
// and gives it the location of a copy that stands in place of the map's call.
fn change_copy<D: OpSet>(ctx: &mut Context<D>, map: &ValueMap, node: IRNode)
    requires live { IsLive ctx.old node }
    requires images_live { AreImagesLive ctx.old (images map.now) }
    ensures changed { AreChanged ctx.old ctx.new (images map.now) (node ∷ []) }
    ensures images_live { AreImagesLive ctx.new (images map.now) }
    ensures whole { IsWellFormed D.attr_handles ctx.new }
{
    ctx.stands();
    match node {
        IRNode::Operation(op) => {
            change_operands(ctx, map, op);
            change_successors(ctx, map, op);
            change_location(ctx, map, op);
        }
        IRNode::BasicBlock(_) => {}
        IRNode::Region(_) => {}
    }
}

// The same for each copy of a list.
fn change_copies<D: OpSet>(ctx: &mut Context<D>, map: &ValueMap, twins: &[Twin])
    requires live { (w : AnyTwin) → Has twins.now w → IsLive ctx.old w.copy }
    requires once { Distinct (copies_of twins.now) }
    requires images_live { AreImagesLive ctx.old (images map.now) }
    ensures changed { AreChanged ctx.old ctx.new (images map.now) (copies_of twins.now) }
    ensures images_live { AreImagesLive ctx.new (images map.now) }
    ensures whole { IsWellFormed D.attr_handles ctx.new }
{
    ctx.stands();
    for i in 0..twins.len() {
        let twin = twin_at(twins, i);
        change_copy(ctx, map, twin.copy);
    }
}

// A node without children, under nothing, that holds what an operation or a block holds.
fn copy_root<D: OpSet>(alloc: Global, ctx: &mut Context<D>, node: IRNode) -> Result<IRNode, NodeErr>
    requires live { IsLive ctx.old node }
    requires kind { CanStandAlone node }
    ensures made { IfOk result (λ n. IsMade ctx.old.nodes ctx.new.nodes n) }
    ensures holds { IfOk result (λ n. HoldsAs ctx.old ctx.new node n) }
    ensures leaf { IfOk result (λ n. children ctx.new n ≡ []) }
    ensures kind { IfOk result (AreOfOneKind node) }
    ensures full { result ≡ Err NodeErr.TooManyNodes → IsFullFor ctx.old.nodes (one_like node) }
    ensures come { OnOk result (HaveCome ctx.old.nodes ctx.new.nodes (one_like node)) }
    ensures types { ctx.new.types ≡ ctx.old.types }
    ensures given { (n : AnyNode) → given_out ctx.old n ≡ true → given_out ctx.new n ≡ true }
    ensures err { OnErr result (SameLive ctx.old ctx.new) }
    ensures whole { IsWellFormed D.attr_handles ctx.new }
{
    match node {
        IRNode::Operation(op) => {
            let copy = copy_op(alloc, ctx, op)?;
            Ok(IRNode::Operation(copy))
        }
        IRNode::BasicBlock(block) => {
            let copy = copy_block(alloc, ctx, block)?;
            Ok(IRNode::BasicBlock(copy))
        }
        IRNode::Region(_) => unreachable!(),
    }
}

// Erases an operation or a block with all below it.
fn erase_copy<D: OpSet>(ctx: &mut Context<D>, copy: IRNode)
    requires live { IsLive ctx.old copy }
    requires kind { CanStandAlone copy }
    requires unused { IsUnusedOutside ctx.old copy }
    ensures tree { IsErased ctx.old.nodes ctx.new.nodes copy }
    ensures types { ctx.new.types ≡ ctx.old.types }
    ensures whole { IsWellFormed D.attr_handles ctx.new }
{
    match copy {
        IRNode::Operation(op) => Operation::erase(op, ctx),
        IRNode::BasicBlock(block) => BasicBlock::erase(block, ctx),
        IRNode::Region(_) => unreachable!(),
    }
}

// Copies all that stands below a node below its copy, and puts what results, arguments and blocks have become into a
// map, or leaves the map as it is. Answers each node with its copy.
fn copy_and_map<D: OpSet>(
    alloc: Global,
    ctx: &mut Context<D>,
    map: &mut ValueMap,
    root: Twin,
) -> Result<Vec<Twin>, NodeErr>
    requires { (s : ContextView D.Kind D.Attr D.Ty) × IsCopying s ctx.old root.node root.copy [] (root ∷ []) }
    ensures ok { IfOk result (λ ws. (s : ContextView D.Kind D.Attr D.Ty) →
        IsCopying s ctx.old root.node root.copy [] (root ∷ []) →
        IsCopying s ctx.new root.node root.copy ws.items []) }
    ensures mapped { IfOk result (λ ws. images map.new ≡ over (with_twins ctx.new no_images ws.items)
        (images map.old)) }
    ensures made { (s : ContextView D.Kind D.Attr D.Ty) → IsCopying s ctx.old root.node root.copy [] (root ∷ []) →
        IsMade s.nodes ctx.new.nodes root.copy }
    ensures full { result ≡ Err NodeErr.TooManyNodes → (s : ContextView D.Kind D.Attr D.Ty) →
        IsCopying s ctx.old root.node root.copy [] (root ∷ []) → IsFullFor s.nodes (tree_count s.nodes root.node) }
    ensures same_map { OnErr result (images map.new ≡ images map.old) }
    ensures types { ctx.new.types ≡ ctx.old.types }
    ensures whole { IsWellFormed D.attr_handles ctx.new }
{
    ctx.stands();
    let mut twins = Vec::new(alloc);
    twins.push(root)?;
    copy_below(alloc, ctx, &mut twins)?;
    let mut images = ValueMap::new(alloc);
    map_twins(ctx, &mut images, twins.as_slice())?;
    map.extend(&images)?;
    Ok(twins)
}

// A copy of an operation or a block with all that stands below it, under nothing.
fn clone_node_into<D: OpSet>(
    alloc: Global,
    ctx: &mut Context<D>,
    node: IRNode,
    map: &mut ValueMap,
) -> Result<IRNode, NodeErr>
    requires live { IsLive ctx.old node }
    requires kind { CanStandAlone node }
    requires images_live { AreImagesLive ctx.old (images map.old) }
    ensures made { IfOk result (λ n. IsMade ctx.old.nodes ctx.new.nodes n) }
    ensures copied { IfOk result (λ n. IsCopyOfTree ctx.old ctx.new node n (images map.old) (images map.new)) }
    ensures kind { IfOk result (AreOfOneKind node) }
    ensures too_many_only { result ≡ Err NodeErr.TooManyNodes →
        IsFullFor ctx.old.nodes (tree_count ctx.old.nodes node) }
    ensures come { OnOk result (HaveCome ctx.old.nodes ctx.new.nodes (tree_count ctx.old.nodes node)) }
    ensures images_live { AreImagesLive ctx.new (images map.new) }
    ensures types { ctx.new.types ≡ ctx.old.types }
    ensures given { (n : AnyNode) → given_out ctx.old n ≡ true → given_out ctx.new n ≡ true }
    ensures err { OnErr result (SameLive ctx.old ctx.new) }
    ensures same_map { OnErr result (images map.new ≡ images map.old) }
    ensures whole { IsWellFormed D.attr_handles ctx.new }
{
    ctx.stands();
    contexts_stand::<D>();
    growth(ctx);
    what_was_made_is_unused(ctx);
    let copy = copy_root(alloc, ctx, node)?;
    match copy_and_map(alloc, ctx, map, Twin { node, copy }) {
        Ok(twins) => {
            change_copies(ctx, map, twins.as_slice());
            Ok(copy)
        }
        Err(refused) => {
            erase_copy(ctx, copy);
            Err(refused)
        }
    }
}

/// A copy of an operation with all that stands below it, in no block: the same tree, in which each operation holds what
/// stands in place of its operands and successors in the map, and all else as it was; its location has the place of the
/// call in place of which copies stand, if the map has one. In the map the results, arguments and blocks of the copy
/// are put in place of those of the tree first, and so they count wherever they are used, before or behind what they
/// come from. It is refused where memory is wanting, or room for as many nodes as the tree has, which the context had
/// before: `TooManyNodes` comes only where it had none, and where a copy is made it had some, of which that is taken.
/// After a refusal no live node has changed, and the map is as before.
pub fn clone_tree_into<D: OpSet>(
    alloc: Global,
    ctx: &mut Context<D>,
    op: Ptr<Operation>,
    map: &mut ValueMap,
) -> Result<Ptr<Operation>, NodeErr>
    requires live { IsLive ctx.old (AnyNode.Operation op) }
    requires images_live { AreImagesLive ctx.old (images map.old) }
    ensures made { IfOk result (λ p. IsMade ctx.old.nodes ctx.new.nodes (AnyNode.Operation p)) }
    ensures copied { IfOk result (λ p. IsCopyOfTree ctx.old ctx.new (AnyNode.Operation op) (AnyNode.Operation p)
        (images map.old) (images map.new)) }
    ensures too_many_only { result ≡ Err NodeErr.TooManyNodes →
        IsFullFor ctx.old.nodes (tree_count ctx.old.nodes (AnyNode.Operation op)) }
    ensures come { OnOk result (HaveCome ctx.old.nodes ctx.new.nodes
        (tree_count ctx.old.nodes (AnyNode.Operation op))) }
    ensures images_live { AreImagesLive ctx.new (images map.new) }
    ensures types { ctx.new.types ≡ ctx.old.types }
    ensures given { (n : AnyNode) → given_out ctx.old n ≡ true → given_out ctx.new n ≡ true }
    ensures err { OnErr result (SameLive ctx.old ctx.new) }
    ensures same_map { OnErr result (images map.new ≡ images map.old) }
    ensures whole { IsWellFormed D.attr_handles ctx.new }
{
    match clone_node_into(alloc, ctx, IRNode::Operation(op), map)? {
        IRNode::Operation(copy) => Ok(copy),
        _ => unreachable!(),
    }
}

/// A copy of a block with all that stands below it, in no region, likewise.
pub fn clone_block_tree_into<D: OpSet>(
    alloc: Global,
    ctx: &mut Context<D>,
    block: Ptr<BasicBlock>,
    map: &mut ValueMap,
) -> Result<Ptr<BasicBlock>, NodeErr>
    requires live { IsLive ctx.old (AnyNode.BasicBlock block) }
    requires images_live { AreImagesLive ctx.old (images map.old) }
    ensures made { IfOk result (λ b. IsMade ctx.old.nodes ctx.new.nodes (AnyNode.BasicBlock b)) }
    ensures copied { IfOk result (λ b. IsCopyOfTree ctx.old ctx.new (AnyNode.BasicBlock block) (AnyNode.BasicBlock b)
        (images map.old) (images map.new)) }
    ensures too_many_only { result ≡ Err NodeErr.TooManyNodes →
        IsFullFor ctx.old.nodes (tree_count ctx.old.nodes (AnyNode.BasicBlock block)) }
    ensures come { OnOk result (HaveCome ctx.old.nodes ctx.new.nodes
        (tree_count ctx.old.nodes (AnyNode.BasicBlock block))) }
    ensures images_live { AreImagesLive ctx.new (images map.new) }
    ensures types { ctx.new.types ≡ ctx.old.types }
    ensures given { (n : AnyNode) → given_out ctx.old n ≡ true → given_out ctx.new n ≡ true }
    ensures err { OnErr result (SameLive ctx.old ctx.new) }
    ensures same_map { OnErr result (images map.new ≡ images map.old) }
    ensures whole { IsWellFormed D.attr_handles ctx.new }
{
    match clone_node_into(alloc, ctx, IRNode::BasicBlock(block), map)? {
        IRNode::BasicBlock(copy) => Ok(copy),
        _ => unreachable!(),
    }
}
