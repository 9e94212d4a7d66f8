//! Copies of blocks.
ghost use Rattle.std.specs.Prelude.{◌≡◌, [], ℕ, Err, IfOk, List, OnErr, OnOk, Some, length, true};
ghost use Rattle.plir_data.specs.AttrLive.{HandlesLive};
ghost use Rattle.plir_data.specs.AttrView.{AttrView};
ghost use Rattle.plir_data.specs.Types.{AllLive};
ghost use Rattle.plir_core.specs.Changes.{SameLive};
ghost use Rattle.plir_core.specs.ContextView.{IsLive, arg_types_of, block_at, block_attributes_of, children, given_out};
ghost use Rattle.plir_core.specs.ContextView.{label_of};
ghost use Rattle.plir_core.specs.Held.{IsBlockEdited};
ghost use Rattle.plir_core.specs.Made.{IsMade};
ghost use Rattle.plir_core.specs.Room.{IsFullForBlock};
ghost use Rattle.plir_core.specs.WellFormed.{IsWellFormed};
ghost use Rattle.plir_core.specs.declared.ptr.IRNode.{IRNode as AnyNode};
ghost use Rattle.plir_core.specs.declared.value.DefiningEntity.{DefiningEntity};
ghost use Rattle.plir_core.specs.Room.{HaveCome, IsFullFor, no_node, one_block};
ghost use Rattle.plir_copies.specs.Images.{AreImagesLive, images};
ghost use Rattle.plir_copies.specs.Copied.{with_attributes, with_block_of, with_values_of};

use crate::value_map::ValueMap;
use plir_core::laws::{block_edits_keep_the_rest, growth, what_was_made_is_unused};
use plir_core::{BasicBlock, Context, NodeErr, Ptr};
use plir_data::laws::dictionary_is_that_of_its_entries;
use plir_data::{AttributeDict, Identifier, Memory, OpSet, TypeHandle};
use std::alloc::Global;

// The label of a block.
fn copied_label<D: OpSet>(
    alloc: Global,
    ctx: &Context<D>,
    block: Ptr<BasicBlock>,
) -> Result<Option<Identifier>, Memory>
    requires { IsLive ctx.now (AnyNode.BasicBlock block) }
    ensures { IfOk result (λ l. l ≡ label_of ctx.now block) }
{
    match block.label(ctx) {
        None => Ok(None),
        Some(label) => Ok(Some(label.try_clone(alloc)?)),
    }
}

// The types of the arguments of a block.
fn argument_types<D: OpSet>(
    alloc: Global,
    ctx: &Context<D>,
    block: Ptr<BasicBlock>,
) -> Result<Vec<TypeHandle>, Memory>
    requires { IsLive ctx.now (AnyNode.BasicBlock block) }
    ensures value { IfOk result (λ ts. ts.items ≡ arg_types_of ctx.now block) }
    ensures live { IfOk result (λ ts. AllLive ctx.now.types ts.items) }
    ensures whole { IsWellFormed D.attr_handles ctx.now }
{
    ctx.stands();
    let mut types = Vec::new(alloc);
    for i in 0..block.get_num_arguments(ctx) {
        types.push(block.get_type(ctx, i))?;
    }
    Ok(types)
}

// Gives a block that has no attribute those of a dictionary. After a refusal it has some of them.
fn set_attributes<D: OpSet>(
    alloc: Global,
    ctx: &mut Context<D>,
    block: Ptr<BasicBlock>,
    attributes: &AttributeDict<D>,
) -> Result<(), Memory>
    requires live { IsLive ctx.old (AnyNode.BasicBlock block) }
    requires none { block_attributes_of ctx.old block ≡ [] }
    requires handles { HandlesLive D.attr_handles ctx.old.types attributes.now }
    ensures edited { (es : List (List ℕ × AttrView D.Attr)) × IsBlockEdited ctx.old ctx.new block
        (with_attributes es) }
    ensures all { OnOk result (IsBlockEdited ctx.old ctx.new block (with_attributes attributes.now)) }
    ensures none_come { HaveCome ctx.old.nodes ctx.new.nodes no_node }
    ensures whole { IsWellFormed D.attr_handles ctx.new }
{
    ctx.stands();
    dictionary_is_that_of_its_entries::<D>();
    'entries: for (key, value) in attributes.iter() {
        let name = key.try_clone(alloc)?;
        let copy = value.try_clone(alloc)?;
        block_edits_keep_the_rest(ctx, block);
        block.set_attr(ctx, name, copy)?;
    }
    Ok(())
}

/// A block in no region with the label of another one, and with these argument types and attributes. It has no
/// operation. `TooManyNodes` comes only where there is no room for a block. After a refusal no live node has changed.
pub(crate) fn block_with<D: OpSet>(
    alloc: Global,
    ctx: &mut Context<D>,
    block: Ptr<BasicBlock>,
    types: Vec<TypeHandle>,
    attributes: &AttributeDict<D>,
) -> Result<Ptr<BasicBlock>, NodeErr>
    requires live { IsLive ctx.old (AnyNode.BasicBlock block) }
    requires types_live { AllLive ctx.old.types types.items }
    requires handles { HandlesLive D.attr_handles ctx.old.types attributes.now }
    ensures made { IfOk result (λ b. IsMade ctx.old.nodes ctx.new.nodes (AnyNode.BasicBlock b)) }
    ensures held { IfOk result (λ b. block_at ctx.new b ≡ Some
        (record { label = label_of ctx.old block; arg_types = types.items; attributes = attributes.now })) }
    ensures leaf { IfOk result (λ b. children ctx.new (AnyNode.BasicBlock b) ≡ []) }
    ensures types { ctx.new.types ≡ ctx.old.types }
    ensures given { (n : AnyNode) → given_out ctx.old n ≡ true → given_out ctx.new n ≡ true }
    ensures err { OnErr result (SameLive ctx.old ctx.new) }
    ensures too_many_only { result ≡ Err NodeErr.TooManyNodes → IsFullForBlock ctx.old.nodes }
    ensures full { result ≡ Err NodeErr.TooManyNodes → IsFullFor ctx.old.nodes one_block }
    ensures come { OnOk result (HaveCome ctx.old.nodes ctx.new.nodes one_block) }
    ensures whole { IsWellFormed D.attr_handles ctx.new }
{
    ctx.stands();
    growth(ctx);
    what_was_made_is_unused(ctx);
    let label = copied_label(alloc, ctx, block)?;
    let made = BasicBlock::new(alloc, ctx, label, types)?;
    match set_attributes(alloc, ctx, made, attributes) {
        Ok(()) => Ok(made),
        Err(Memory) => {
            BasicBlock::erase(made, ctx);
            Err(NodeErr::Memory)
        }
    }
}

/// A block in no region that holds what another one holds. It has no operation.
pub(crate) fn copy_block<D: OpSet>(
    alloc: Global,
    ctx: &mut Context<D>,
    block: Ptr<BasicBlock>,
) -> Result<Ptr<BasicBlock>, NodeErr>
    requires { IsLive ctx.old (AnyNode.BasicBlock block) }
    ensures made { IfOk result (λ b. IsMade ctx.old.nodes ctx.new.nodes (AnyNode.BasicBlock b)) }
    ensures held { IfOk result (λ b. block_at ctx.new b ≡ block_at ctx.old block) }
    ensures leaf { IfOk result (λ b. children ctx.new (AnyNode.BasicBlock b) ≡ []) }
    ensures types { ctx.new.types ≡ ctx.old.types }
    ensures given { (n : AnyNode) → given_out ctx.old n ≡ true → given_out ctx.new n ≡ true }
    ensures err { OnErr result (SameLive ctx.old ctx.new) }
    ensures too_many_only { result ≡ Err NodeErr.TooManyNodes → IsFullForBlock ctx.old.nodes }
    ensures full { result ≡ Err NodeErr.TooManyNodes → IsFullFor ctx.old.nodes one_block }
    ensures come { OnOk result (HaveCome ctx.old.nodes ctx.new.nodes one_block) }
    ensures whole { IsWellFormed D.attr_handles ctx.new }
{
    ctx.stands();
    let types = argument_types(alloc, ctx, block)?;
    let attributes = block.attributes(ctx).try_clone(alloc)?;
    block_with(alloc, ctx, block, types, &attributes)
}

/// Puts the arguments of the copy of a block in place of those of the block.
pub(crate) fn map_arguments<D: OpSet>(
    ctx: &Context<D>,
    map: &mut ValueMap,
    block: Ptr<BasicBlock>,
    copy: Ptr<BasicBlock>,
) -> Result<(), Memory>
    requires live { IsLive ctx.now (AnyNode.BasicBlock block) }
    requires copy_live { IsLive ctx.now (AnyNode.BasicBlock copy) }
    requires same { arg_types_of ctx.now copy ≡ arg_types_of ctx.now block }
    ensures { OnOk result (images map.new ≡ with_values_of (images map.old) (DefiningEntity.Block block)
        (DefiningEntity.Block copy) (length (arg_types_of ctx.now block))) }
{
    ctx.stands();
    for i in 0..block.get_num_arguments(ctx) {
        map.map_value(block.get_argument(ctx, i), copy.get_argument(ctx, i))?;
    }
    Ok(())
}

// Puts the copy of a block and its arguments in place of the block and its arguments, or changes nothing.
fn map_block_in_whole<D: OpSet>(
    alloc: Global,
    ctx: &Context<D>,
    map: &mut ValueMap,
    block: Ptr<BasicBlock>,
    copy: Ptr<BasicBlock>,
) -> Result<(), Memory>
    requires live { IsLive ctx.now (AnyNode.BasicBlock block) }
    requires copy_live { IsLive ctx.now (AnyNode.BasicBlock copy) }
    requires same { arg_types_of ctx.now copy ≡ arg_types_of ctx.now block }
    ensures ok { OnOk result (images map.new ≡ with_block_of (images map.old) block copy
        (length (arg_types_of ctx.now block))) }
    ensures err { OnErr result (images map.new ≡ images map.old) }
{
    let mut arguments = ValueMap::new(alloc);
    map_arguments(ctx, &mut arguments, block, copy)?;
    arguments.map_block(block, copy)?;
    map.extend(&arguments)?;
    Ok(())
}

/// A copy of a block without its operations, in no region: the same label, argument types and attributes. It is put in
/// place of the block, and its arguments in place of those of the block. `TooManyNodes` comes only where there is no
/// room for a block. After a refusal no live node has changed, and the map is as before.
pub fn clone_block_into<D: OpSet>(
    alloc: Global,
    ctx: &mut Context<D>,
    block: Ptr<BasicBlock>,
    map: &mut ValueMap,
) -> Result<Ptr<BasicBlock>, NodeErr>
    requires live { IsLive ctx.old (AnyNode.BasicBlock block) }
    requires images_live { AreImagesLive ctx.old (images map.old) }
    ensures made { IfOk result (λ b. IsMade ctx.old.nodes ctx.new.nodes (AnyNode.BasicBlock b)) }
    ensures held { IfOk result (λ b. block_at ctx.new b ≡ block_at ctx.old block) }
    ensures leaf { IfOk result (λ b. children ctx.new (AnyNode.BasicBlock b) ≡ []) }
    ensures mapped { IfOk result (λ b. images map.new ≡ with_block_of (images map.old) block b
        (length (arg_types_of ctx.old block))) }
    ensures images_live { AreImagesLive ctx.new (images map.new) }
    ensures types { ctx.new.types ≡ ctx.old.types }
    ensures given { (n : AnyNode) → given_out ctx.old n ≡ true → given_out ctx.new n ≡ true }
    ensures err { OnErr result (SameLive ctx.old ctx.new) }
    ensures same_map { OnErr result (images map.new ≡ images map.old) }
    ensures too_many_only { result ≡ Err NodeErr.TooManyNodes → IsFullForBlock ctx.old.nodes }
    ensures come { OnOk result (HaveCome ctx.old.nodes ctx.new.nodes one_block) }
    ensures whole { IsWellFormed D.attr_handles ctx.new }
{
    ctx.stands();
    growth(ctx);
    what_was_made_is_unused(ctx);
    let copy = copy_block(alloc, ctx, block)?;
    match map_block_in_whole(alloc, ctx, map, block, copy) {
        Ok(()) => Ok(copy),
        Err(Memory) => {
            BasicBlock::erase(copy, ctx);
            Err(NodeErr::Memory)
        }
    }
}
