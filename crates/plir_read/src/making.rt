//! How operations are made of what was read.
ghost use Rattle.std.specs.Prelude.{◌≡◌, true, List, [], ◌∷◌, is_none, IfOk, IfErr, OnOk, OnErr};
ghost use Rattle.std.specs.List.{list_all};
ghost use Rattle.plir_data.specs.AttrLive.{HandlesLive, IsAttrLive};
ghost use Rattle.plir_data.specs.AttrSeen.{attr_view};
ghost use Rattle.plir_data.specs.AttrView.{leaf, given_names};
ghost use Rattle.plir_data.specs.Dictionary.{dict_put};
ghost use Rattle.plir_data.specs.Identifier.{is_identifier as IsIdentifier};
ghost use Rattle.plir_data.specs.Types.{AllLive, IsLive as IsTypeLive, TypeView};
ghost use Rattle.plir_data.specs.Keys.{names_key};
ghost use Rattle.plir_core.specs.Changes.{with_block_edit};
ghost use Rattle.plir_core.specs.Contents.{op_view};
ghost use Rattle.plir_core.specs.ContextView.{IsLive};
ghost use Rattle.plir_core.specs.WellFormed.{IsWellFormed};
ghost use Rattle.plir_core.specs.declared.ptr.IRNode.{IRNode};
ghost use Rattle.plir_core.specs.Room.{HaveCome, IsFullFor, one_op, one_block};
ghost use Rattle.plir_read.specs.Heads.{IsHeadLive, module_attributes, func_attributes, op_with, block_with};
ghost use Rattle.plir_read.specs.Heads.{constant_attributes, constant_op};
ghost use Rattle.plir_read.specs.Keeping.{IsNewOp, IsNewLeaf, IsNewBlock, KeepsOlder};
ghost use Rattle.plir_read.specs.Room.{one_with_region};
ghost use Rattle.plir_read.specs.Slots.{AreGivenOut};
ghost use Rattle.plir_read.specs.Stopping.{IsRefusal};

use crate::arguments::{Arguments, BlockHeadData};
use crate::constants::ConstantData;
use crate::headers::HeaderData;
use crate::heads::HeadData;
use plir_attr_text::fault::Stop;
use plir_core::laws::block_edits_keep_the_rest;
use plir_core::{BasicBlock, Context, NodeErr, Operation, Ptr, Region};
use plir_data::keys::{
    ATTR_KEY_BUILTIN_FUNC_TYPE, ATTR_KEY_CONSTANT_VALUE, ATTR_KEY_GIVEN_NAMES, ATTR_KEY_SYM_NAME,
};
use plir_data::{
    AttrObj, AttributeDict, GivenNamesAttr, Identifier, IdentifierAttr, Memory, OpKind, OpSet,
    TypeAttr, TypeHandle,
};
use std::alloc::Global;

// Why reading stops where a node was not made.
pub fn stop_of(refused: NodeErr) -> Stop
    ensures { IsRefusal (refused ≡ NodeErr.TooManyNodes) result }
{
    match refused {
        NodeErr::Memory => Stop::OutOfMemory,
        NodeErr::TooManyNodes => Stop::Crowded,
    }
}

// Puts an attribute under a key that is an identifier. After a refusal all is as before.
pub fn put_under<D: OpSet>(
    alloc: Global,
    attributes: &mut AttributeDict<D>,
    key: &str,
    value: AttrObj<D>,
) -> Result<(), Stop>
    requires { IsIdentifier key.now ≡ true }
    ensures ok { OnOk result (attributes.new ≡ dict_put attributes.old key.now (attr_view value)) }
    ensures err { OnErr result (attributes.new ≡ attributes.old) }
    ensures refused { IfErr result (IsRefusal ⊥) }
{
    let Ok(key) = Identifier::try_new(alloc, key) else {
        return Err(Stop::OutOfMemory);
    };
    match attributes.insert(key, value) {
        Ok(()) => Ok(()),
        Err(Memory) => Err(Stop::OutOfMemory),
    }
}

// Entries with a name, which takes the place of one among them.
fn named<D: OpSet>(
    alloc: Global,
    entries: AttributeDict<D>,
    name: Identifier,
) -> Result<AttributeDict<D>, Stop>
    ensures value { IfOk result (λ es. es ≡ module_attributes name entries) }
    ensures live { IfOk result (λ es. (types : List (TypeView D.Ty)) → HandlesLive D.attr_handles types entries →
        HandlesLive D.attr_handles types es) }
    ensures refused { IfErr result (IsRefusal ⊥) }
{
    let mut attributes = entries;
    let value = AttrObj::Identifier(IdentifierAttr::new(name));
    put_under(alloc, &mut attributes, ATTR_KEY_SYM_NAME, value)?;
    Ok(attributes)
}

// Entries with a name and a type of functions, which take the places of those among them.
fn named_and_typed<D: OpSet>(
    alloc: Global,
    entries: AttributeDict<D>,
    name: Identifier,
    ty: TypeHandle,
) -> Result<AttributeDict<D>, Stop>
    ensures value { IfOk result (λ es. es ≡ func_attributes name ty entries) }
    ensures live { IfOk result (λ es. (types : List (TypeView D.Ty)) → IsTypeLive types ty →
        HandlesLive D.attr_handles types entries → HandlesLive D.attr_handles types es) }
    ensures refused { IfErr result (IsRefusal ⊥) }
{
    let mut attributes = named(alloc, entries, name)?;
    let value = AttrObj::Type(TypeAttr::new(ty));
    put_under(alloc, &mut attributes, ATTR_KEY_BUILTIN_FUNC_TYPE, value)?;
    Ok(attributes)
}

// A new operation of a kind with these attributes and its one region.
fn make_with<D: OpSet>(
    alloc: Global,
    ctx: &mut Context<D>,
    kind: OpKind<D::Kind>,
    attributes: AttributeDict<D>,
) -> Result<(Ptr<Operation>, Ptr<Region>), Stop>
    requires { HandlesLive D.attr_handles ctx.old.types attributes }
    ensures made { IfOk result (λ x. IsNewOp ctx.old ctx.new x.0 x.1 (op_view kind [] [] [] attributes)) }
    ensures slots { IfOk result (λ x. AreGivenOut ctx.old.nodes (IRNode.Operation x.0 ∷ IRNode.Region x.1 ∷ [])
        ctx.new.nodes) }
    ensures kept { OnErr result (KeepsOlder ctx.old ctx.new) }
    ensures types { OnErr result (ctx.new.types ≡ ctx.old.types) }
    ensures come { IfOk result (λ x. HaveCome ctx.old.nodes ctx.new.nodes one_with_region) }
    ensures refused { IfErr result (IsRefusal (IsFullFor ctx.old.nodes one_with_region)) }
    ensures whole { IsWellFormed D.attr_handles ctx.new }
{
    ctx.stands();
    let results = Vec::new(alloc);
    let operands = Vec::new(alloc);
    let successors = Vec::new(alloc);
    match Operation::with_attributes(ctx, kind, results, operands, successors, attributes, 1) {
        Ok(op) => {
            let region = op.get_region(ctx, 0);
            Ok((op, region))
        }
        Err(refused) => Err(stop_of(refused)),
    }
}

// A new operation with a header, and its one region, which has no block.
pub fn make_op<D: OpSet>(
    alloc: Global,
    ctx: &mut Context<D>,
    header: HeaderData<D>,
) -> Result<(Ptr<Operation>, Ptr<Region>), Stop>
    requires head_live { IsHeadLive ctx.old.types header.head }
    requires entries_live { HandlesLive D.attr_handles ctx.old.types header.entries }
    ensures made { IfOk result (λ x. IsNewOp ctx.old ctx.new x.0 x.1 (op_with header.head header.entries)) }
    ensures slots { IfOk result (λ x. AreGivenOut ctx.old.nodes (IRNode.Operation x.0 ∷ IRNode.Region x.1 ∷ [])
        ctx.new.nodes) }
    ensures kept { OnErr result (KeepsOlder ctx.old ctx.new) }
    ensures types { OnErr result (ctx.new.types ≡ ctx.old.types) }
    ensures come { IfOk result (λ x. HaveCome ctx.old.nodes ctx.new.nodes one_with_region) }
    ensures refused { IfErr result (IsRefusal (IsFullFor ctx.old.nodes one_with_region)) }
    ensures whole { IsWellFormed D.attr_handles ctx.new }
{
    ctx.stands();
    let HeaderData { head, entries } = header;
    match head {
        HeadData::Module(name) => {
            let attributes = named(alloc, entries, name)?;
            make_with(alloc, ctx, OpKind::Module, attributes)
        }
        HeadData::Func(name, handle) => {
            let attributes = named_and_typed(alloc, entries, name, handle)?;
            make_with(alloc, ctx, OpKind::Func, attributes)
        }
    }
}

// Whether no name is set.
pub fn all_unset(names: &[Option<Identifier>]) -> bool
    ensures { result ≡ list_all is_none names.now }
{
    names.iter().all(|name| name.is_none())
}

// A dictionary with the value of a constant, and the names that are given to its results, if one is set.
fn named_and_valued<D: OpSet>(
    alloc: Global,
    names: Vec<Option<Identifier>>,
    value: AttrObj<D>,
) -> Result<AttributeDict<D>, Stop>
    ensures value { IfOk result (λ es. es ≡ constant_attributes names.items (attr_view value)) }
    ensures live { IfOk result (λ es. (types : List (TypeView D.Ty)) →
        IsAttrLive D.attr_handles types (attr_view value) → HandlesLive D.attr_handles types es) }
    ensures refused { IfErr result (IsRefusal ⊥) }
{
    let mut attributes = AttributeDict::new(alloc);
    if !all_unset(names.as_slice()) {
        let given = AttrObj::GivenNames(GivenNamesAttr::from_names(names));
        put_under(alloc, &mut attributes, ATTR_KEY_GIVEN_NAMES, given)?;
    }
    put_under(alloc, &mut attributes, ATTR_KEY_CONSTANT_VALUE, value)?;
    Ok(attributes)
}

// A list of one type.
fn one_type(alloc: Global, ty: TypeHandle) -> Result<Vec<TypeHandle>, Stop>
    ensures value { IfOk result (λ ts. ts.items ≡ ty ∷ []) }
    ensures refused { IfErr result (IsRefusal ⊥) }
{
    let mut types = Vec::new(alloc);
    match types.push(ty) {
        Ok(()) => Ok(types),
        Err(_) => Err(Stop::OutOfMemory),
    }
}

// A new constant whose result has these names.
pub fn make_constant<D: OpSet>(
    alloc: Global,
    ctx: &mut Context<D>,
    names: Vec<Option<Identifier>>,
    constant: ConstantData<D>,
) -> Result<Ptr<Operation>, Stop>
    requires value_live { IsAttrLive D.attr_handles ctx.old.types (attr_view constant.value) }
    requires type_live { IsTypeLive ctx.old.types constant.ty }
    ensures made { IfOk result (λ p. IsNewLeaf ctx.old ctx.new p
        (constant_op names.items (attr_view constant.value) constant.ty)) }
    ensures slots { IfOk result (λ p. AreGivenOut ctx.old.nodes (IRNode.Operation p ∷ []) ctx.new.nodes) }
    ensures kept { OnErr result (KeepsOlder ctx.old ctx.new) }
    ensures types { OnErr result (ctx.new.types ≡ ctx.old.types) }
    ensures come { IfOk result (λ p. HaveCome ctx.old.nodes ctx.new.nodes one_op) }
    ensures refused { IfErr result (IsRefusal (IsFullFor ctx.old.nodes one_op)) }
    ensures whole { IsWellFormed D.attr_handles ctx.new }
{
    ctx.stands();
    let ConstantData { value, ty } = constant;
    let attributes = named_and_valued(alloc, names, value)?;
    let results = one_type(alloc, ty)?;
    let operands = Vec::new(alloc);
    let successors = Vec::new(alloc);
    match Operation::with_attributes(
        ctx,
        OpKind::Constant,
        results,
        operands,
        successors,
        attributes,
        0,
    ) {
        Ok(op) => Ok(op),
        Err(refused) => Err(stop_of(refused)),
    }
}

// Gives names to a block's arguments. After a refusal all is as before.
fn put_names<D: OpSet>(
    alloc: Global,
    ctx: &mut Context<D>,
    block: Ptr<BasicBlock>,
    names: Vec<Option<Identifier>>,
) -> Result<(), Stop>
    requires { IsLive ctx.old (IRNode.BasicBlock block) }
    ensures put { OnOk result (ctx.new ≡ with_block_edit ctx.old block
        (λ b. record b { attributes = dict_put b.attributes names_key (leaf (given_names names.items)) })) }
    ensures same { OnErr result (ctx.new ≡ ctx.old) }
    ensures refused { IfErr result (IsRefusal ⊥) }
    ensures whole { IsWellFormed D.attr_handles ctx.new }
{
    ctx.stands();
    let Ok(key) = Identifier::try_new(alloc, ATTR_KEY_GIVEN_NAMES) else {
        return Err(Stop::OutOfMemory);
    };
    let value = AttrObj::GivenNames(GivenNamesAttr::from_names(names));
    block.set_attr(ctx, key, value)?;
    Ok(())
}

// A new block with a head, and no operation.
pub fn make_block<D: OpSet>(
    alloc: Global,
    ctx: &mut Context<D>,
    head: BlockHeadData,
) -> Result<Ptr<BasicBlock>, Stop>
    requires { AllLive ctx.old.types head.arguments.types.items }
    ensures made { IfOk result (λ p. IsNewBlock ctx.old ctx.new p (block_with head)) }
    ensures slots { IfOk result (λ p. AreGivenOut ctx.old.nodes (IRNode.BasicBlock p ∷ []) ctx.new.nodes) }
    ensures kept { OnErr result (KeepsOlder ctx.old ctx.new) }
    ensures types { OnErr result (ctx.new.types ≡ ctx.old.types) }
    ensures come { IfOk result (λ p. HaveCome ctx.old.nodes ctx.new.nodes one_block) }
    ensures refused { IfErr result (IsRefusal (IsFullFor ctx.old.nodes one_block)) }
    ensures whole { IsWellFormed D.attr_handles ctx.new }
{
    ctx.stands();
    let BlockHeadData { label, arguments } = head;
    let Arguments { types, names } = arguments;
    let unset = all_unset(names.as_slice());
    let block = match BasicBlock::new(alloc, ctx, label, types) {
        Ok(block) => block,
        Err(refused) => return Err(stop_of(refused)),
    };
    if unset {
        return Ok(block);
    }
    block_edits_keep_the_rest(ctx, block);
    put_names(alloc, ctx, block, names)?;
    Ok(block)
}
