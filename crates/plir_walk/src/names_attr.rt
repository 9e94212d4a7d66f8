//! The names of results and arguments, in the attributes of their operation or block.
ghost use Rattle.std.specs.Prelude.{◌≡◌, ◌↔◌, true, false, [], Some, None, OnOk, OnErr, IfOk, IsSome, Ok, is_err};
ghost use Rattle.std.specs.Prelude.{option_map};
ghost use Rattle.plir_data.specs.AttrView.{leaf, unit, given_names};
ghost use Rattle.plir_data.specs.AttrLive.{IsAttrLive};
ghost use Rattle.plir_data.specs.AttrSeen.{attr_view};
ghost use Rattle.plir_data.specs.Dictionary.{IsDictionary, dict_get, dict_put, dict_without};
ghost use Rattle.plir_data.specs.Keys.{names_key};
ghost use Rattle.plir_core.specs.ContextView.{IsLive, entity_node};
ghost use Rattle.plir_core.specs.WellFormed.{IsWellFormed};
ghost use Rattle.plir_walk.specs.GivenNames.{name_at as name_in, names_of as names_in, names_at, has_other};
ghost use Rattle.plir_walk.specs.GivenNames.{has_other_at, attributes_at, with_attributes, with_names, remove_name};
ghost use Rattle.plir_walk.specs.Placing.{placed_name};

use crate::name_list::{Placing, are_all_unset, place_name, remove_from};
use plir_core::{Context, DefiningEntity};
use plir_data::keys::ATTR_KEY_GIVEN_NAMES;
use plir_data::{
    AttrObj, AttributeDict, GivenNamesAttr, Identifier, IdentifierErr, Memory, OpSet, UnitAttr,
};
use std::alloc::Global;
use thiserror::Error;

/// An attribute of another kind stands under the key of names.
#[derive(Clone, Copy, PartialEq, Eq, Debug, Error)]
#[error("existing attribute entry for given names incorrect")]
pub struct GivenNamesIncorrect;

/// Why a name was not given.
#[derive(Clone, Copy, PartialEq, Eq, Debug, Error)]
pub enum GivenNamesErr {
    /// An attribute of another kind stands under the key of names.
    #[error("existing attribute entry for given names incorrect")]
    GivenNamesIncorrect,
    /// A growth that was asked for was refused.
    #[error("out of memory")]
    Memory,
}

impl From<GivenNamesIncorrect> for GivenNamesErr {
    ghost use Rattle.std.specs.Prelude.{◌≡◌};
    ghost use Rattle.plir_walk.specs.declared.names_attr.GivenNamesErr.TheVariants as Variants;

    ghost from_gives = { λ _ e. e ≡ Variants.GivenNamesIncorrect };

    fn from(_incorrect: GivenNamesIncorrect) -> GivenNamesErr {
        GivenNamesErr::GivenNamesIncorrect
    }
}

impl From<Memory> for GivenNamesErr {
    ghost use Rattle.std.specs.Prelude.{◌≡◌};
    ghost use Rattle.plir_walk.specs.declared.names_attr.GivenNamesErr.TheVariants as Variants;

    ghost from_gives = { λ _ e. e ≡ Variants.Memory };

    fn from(_refused: Memory) -> GivenNamesErr {
        GivenNamesErr::Memory
    }
}

// The attributes of an operation or a block.
fn attributes<D: OpSet>(ctx: &Context<D>, entity: DefiningEntity) -> &AttributeDict<D>
    requires { IsLive ctx.now (entity_node entity) }
    ensures value { result.now ≡ attributes_at ctx.now entity }
    ensures ascending { IsDictionary result.now }
    ensures whole { IsWellFormed D.attr_handles ctx.now }
{
    let attributes = match entity {
        DefiningEntity::Op(op) => op.attributes(ctx),
        DefiningEntity::Block(block) => block.attributes(ctx),
    };
    let _ascending = attributes.iter();
    attributes
}

// Puts an attribute in place of the one under the key of names. Where there is none, the new one comes back.
fn swap_attr<D: OpSet>(
    ctx: &mut Context<D>,
    entity: DefiningEntity,
    value: AttrObj<D>,
) -> Result<AttrObj<D>, AttrObj<D>>
    requires live { IsLive ctx.old (entity_node entity) }
    requires handles { IsAttrLive D.attr_handles ctx.old.types (attr_view value) }
    ensures found { IfOk result (λ a. dict_get (attributes_at ctx.old entity) names_key ≡ Some (attr_view a)) }
    ensures put { OnOk result (ctx.new ≡ with_attributes ctx.old entity
        (λ es. dict_put es names_key (attr_view value))) }
    ensures absent { OnErr result (dict_get (attributes_at ctx.old entity) names_key ≡ None) }
    ensures same { OnErr result (ctx.new ≡ ctx.old) }
    ensures whole { IsWellFormed D.attr_handles ctx.new }
{
    match entity {
        DefiningEntity::Op(op) => op.swap_attr(ctx, ATTR_KEY_GIVEN_NAMES, value),
        DefiningEntity::Block(block) => block.swap_attr(ctx, ATTR_KEY_GIVEN_NAMES, value),
    }
}

/// Takes out what stands under the key of names, whatever its kind.
pub(crate) fn remove_attr<D: OpSet>(ctx: &mut Context<D>, entity: DefiningEntity)
    requires { IsLive ctx.old (entity_node entity) }
    ensures after { ctx.new ≡ with_attributes ctx.old entity (λ es. dict_without es names_key) }
    ensures whole { IsWellFormed D.attr_handles ctx.new }
{
    let _names = match entity {
        DefiningEntity::Op(op) => op.remove_attr(ctx, ATTR_KEY_GIVEN_NAMES),
        DefiningEntity::Block(block) => block.remove_attr(ctx, ATTR_KEY_GIVEN_NAMES),
    };
}

// Puts the first names of an operation or a block under their key.
fn add_names<D: OpSet>(
    alloc: Global,
    ctx: &mut Context<D>,
    entity: DefiningEntity,
    names: Vec<Option<Identifier>>,
) -> Result<(), Memory>
    requires live { IsLive ctx.old (entity_node entity) }
    requires whole { IsWellFormed D.attr_handles ctx.old }
    ensures ok { OnOk result (ctx.new ≡ with_attributes ctx.old entity
        (λ es. dict_put es names_key (leaf (given_names names.items)))) }
    ensures err { OnErr result (ctx.new ≡ ctx.old) }
    ensures whole { IsWellFormed D.attr_handles ctx.new }
{
    let key = match Identifier::try_new(alloc, ATTR_KEY_GIVEN_NAMES) {
        Ok(key) => key,
        Err(_) => return Err(Memory),
    };
    let names = AttrObj::GivenNames(GivenNamesAttr::from_names(names));
    match entity {
        DefiningEntity::Op(op) => op.set_attr(ctx, key, names),
        DefiningEntity::Block(block) => block.set_attr(ctx, key, names),
    }
}

// The names in an attribute of names.
fn names_of<D: OpSet>(attribute: &AttrObj<D>) -> Option<&GivenNamesAttr>
    ensures { option_map (λ names. names.now) result ≡ names_in (attr_view attribute.now) }
{
    match attribute {
        AttrObj::GivenNames(names) => Some(names),
        _ => None,
    }
}

/// Whether an attribute of another kind stands under the key of names.
pub(crate) fn has_other<D: OpSet>(ctx: &Context<D>, entity: DefiningEntity) -> bool
    requires { IsLive ctx.now (entity_node entity) }
    ensures value { result ≡ has_other_at ctx.now entity }
    ensures ascending { IsDictionary (attributes_at ctx.now entity) }
    ensures whole { IsWellFormed D.attr_handles ctx.now }
{
    match attributes(ctx, entity).get(ATTR_KEY_GIVEN_NAMES) {
        None => false,
        Some(attribute) => names_of(attribute).is_none(),
    }
}

/// The name at a place.
pub(crate) fn name_at<D: OpSet>(
    ctx: &Context<D>,
    entity: DefiningEntity,
    i: usize,
) -> Option<&Identifier>
    requires { IsLive ctx.now (entity_node entity) }
    ensures value { option_map (λ n. n.now) result ≡ name_in (names_at ctx.now entity) i }
    ensures whole { IsWellFormed D.attr_handles ctx.now }
{
    let attribute = attributes(ctx, entity).get(ATTR_KEY_GIVEN_NAMES)?;
    names_of(attribute)?.names().get(i)?.as_ref()
}

// Takes the names out, if there are any, so that they can be edited; something else stands under their key until they
// are put back.
fn take_names<D: OpSet>(
    ctx: &mut Context<D>,
    entity: DefiningEntity,
) -> Result<Option<GivenNamesAttr>, GivenNamesIncorrect>
    requires { IsLive ctx.old (entity_node entity) }
    ensures taken { IfOk result (λ names. option_map (λ ns. leaf (given_names ns)) names ≡ dict_get
        (attributes_at ctx.old entity) names_key) }
    ensures after { IfOk result (λ names. IsSome names →
        ctx.new ≡ with_attributes ctx.old entity (λ es. dict_put es names_key (leaf unit))) }
    ensures absent { result ≡ Ok None → ctx.new ≡ ctx.old }
    ensures incorrect { has_other_at ctx.old entity ≡ is_err result }
    ensures err { OnErr result (ctx.new ≡ ctx.old) }
    ensures ascending { IsDictionary (attributes_at ctx.old entity) }
    ensures whole { IsWellFormed D.attr_handles ctx.new }
{
    if has_other(ctx, entity) {
        return Err(GivenNamesIncorrect);
    }
    match swap_attr(ctx, entity, AttrObj::Unit(UnitAttr)) {
        Ok(AttrObj::GivenNames(names)) => Ok(Some(names)),
        Ok(_) => unreachable!(),
        Err(_) => Ok(None),
    }
}

// Puts names in place of what stands under their key.
fn restore_names<D: OpSet>(ctx: &mut Context<D>, entity: DefiningEntity, names: GivenNamesAttr)
    requires live { IsLive ctx.old (entity_node entity) }
    requires present { IsSome (dict_get (attributes_at ctx.old entity) names_key) }
    ensures after { ctx.new ≡ with_attributes ctx.old entity (λ es. dict_put es names_key (leaf (given_names names))) }
    ensures whole { IsWellFormed D.attr_handles ctx.new }
{
    let _placeholder = swap_attr(ctx, entity, AttrObj::GivenNames(names));
}

// Puts names that were taken out back. Where all are unset, what stands under the key is taken out.
fn put_back<D: OpSet>(ctx: &mut Context<D>, entity: DefiningEntity, names: GivenNamesAttr)
    requires live { IsLive ctx.old (entity_node entity) }
    requires present { IsSome (dict_get (attributes_at ctx.old entity) names_key) }
    ensures after { ctx.new ≡ with_names ctx.old entity names }
    ensures whole { IsWellFormed D.attr_handles ctx.new }
{
    if are_all_unset(names.names()) {
        remove_attr(ctx, entity);
    } else {
        restore_names(ctx, entity, names);
    }
}

// Gives a name where none was given so far.
fn give_first_name<D: OpSet>(
    alloc: Global,
    ctx: &mut Context<D>,
    entity: DefiningEntity,
    i: usize,
    name: Option<Identifier>,
    placing: Placing,
) -> Result<(), Memory>
    requires live { IsLive ctx.old (entity_node entity) }
    requires absent { dict_get (attributes_at ctx.old entity) names_key ≡ None }
    requires whole { IsWellFormed D.attr_handles ctx.old }
    ensures ok { OnOk result (ctx.new ≡ with_names ctx.old entity (placed_name placing [] i name)) }
    ensures err { OnErr result (ctx.new ≡ ctx.old) }
    ensures whole { IsWellFormed D.attr_handles ctx.new }
{
    if name.is_none() {
        return Ok(());
    }
    let mut names = Vec::new(alloc);
    place_name(&mut names, i, name, placing)?;
    add_names(alloc, ctx, entity, names)
}

/// Gives a name, or unsets one.
pub(crate) fn put_name<D: OpSet>(
    alloc: Global,
    ctx: &mut Context<D>,
    entity: DefiningEntity,
    i: usize,
    name: Option<Identifier>,
    placing: Placing,
) -> Result<(), GivenNamesErr>
    requires { IsLive ctx.old (entity_node entity) }
    ensures ok { OnOk result (ctx.new ≡ with_names ctx.old entity
        (placed_name placing (names_at ctx.old entity) i name)) }
    ensures err { OnErr result (ctx.new ≡ ctx.old) }
    ensures incorrect { (result ≡ Err GivenNamesErr.GivenNamesIncorrect) ↔ (has_other_at ctx.old entity ≡ true) }
    ensures whole { IsWellFormed D.attr_handles ctx.new }
{
    let Some(mut names) = take_names(ctx, entity)? else {
        give_first_name(alloc, ctx, entity, i, name, placing)?;
        return Ok(());
    };
    match place_name(names.names_mut(), i, name, placing) {
        Ok(()) => {
            put_back(ctx, entity, names);
            Ok(())
        }
        Err(Memory) => {
            restore_names(ctx, entity, names);
            Err(GivenNamesErr::Memory)
        }
    }
}

/// Takes a name out; those behind it move down.
pub(crate) fn take_name<D: OpSet>(
    ctx: &mut Context<D>,
    entity: DefiningEntity,
    i: usize,
) -> Result<(), GivenNamesIncorrect>
    requires { IsLive ctx.old (entity_node entity) }
    ensures ok { OnOk result (ctx.new ≡ with_names ctx.old entity (remove_name (names_at ctx.old entity) i)) }
    ensures err { OnErr result (ctx.new ≡ ctx.old) }
    ensures incorrect { has_other_at ctx.old entity ≡ is_err result }
    ensures whole { IsWellFormed D.attr_handles ctx.new }
{
    if let Some(mut names) = take_names(ctx, entity)? {
        remove_from(names.names_mut(), i);
        put_back(ctx, entity, names);
    }
    Ok(())
}
