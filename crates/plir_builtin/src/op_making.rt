//! What the constructors of builtin operations share, and those of a user's own may call.
ghost use Rattle.std.specs.Prelude.{◌≡◌, true, List, [], ◌∷◌, OnOk, OnErr, IfOk};
ghost use Rattle.std.specs.Prelude.{◌↔◌, ◌<◌, ◌+◌, Err, IsErr, IfErr};
ghost use Rattle.plir_store.specs.Table.{next_slot};
ghost use Rattle.plir_data.specs.AttrLive.{HandlesLive, IsAttrLive};
ghost use Rattle.plir_data.specs.AttrSeen.{attr_view};
ghost use Rattle.plir_data.specs.AttrView.{leaf, identifier};
ghost use Rattle.plir_data.specs.Dictionary.{dict_put};
ghost use Rattle.plir_data.specs.Identifier.{is_identifier as IsIdentifier};
ghost use Rattle.plir_data.specs.Types.{AllLive, IsLive as IsTypeLive, TypeView};
ghost use Rattle.plir_data.specs.Keys.{value_key};
ghost use Rattle.plir_core.specs.Changes.{SameLive};
ghost use Rattle.plir_core.specs.Contents.{op_view};
ghost use Rattle.plir_core.specs.Made.{IsMade, HasNewRegions};
ghost use Rattle.plir_core.specs.Nodes.{ptr_at};
ghost use Rattle.plir_core.specs.Room.{IsFullForBlock};
ghost use Rattle.plir_core.specs.ContextView.{IsLive, given_out, limit, num_live};
ghost use Rattle.plir_core.specs.WellFormed.{IsWellFormed};
ghost use Rattle.plir_core.specs.declared.ptr.IRNode.{IRNode as AnyNode};
ghost use Rattle.plir_builtin.specs.BuiltinOps.{HoldsOneBlock, IsMadeWithBlock, block_view, func_attributes};
ghost use Rattle.plir_builtin.specs.BuiltinOps.{module_attributes};
ghost use Rattle.plir_builtin.specs.BuiltinOps.{IsFullForOneBlock};
ghost use Rattle.plir_builtin.specs.OpMaking.{GivesBlock};

use crate::{ATTR_KEY_BUILTIN_FUNC_TYPE, ATTR_KEY_CONSTANT_VALUE, ATTR_KEY_SYM_NAME};
use plir_core::laws::{growth, what_was_made_is_unused};
use plir_core::{BasicBlock, Context, IRNode, NodeErr, Operation, Ptr};
use plir_data::{
    AttrObj, AttributeDict, Identifier, IdentifierAttr, Memory, OpKind, OpSet, TypeAttr, TypeHandle,
};
use std::alloc::Global;

/// Puts an attribute under a key that is an identifier, into the attributes that a new operation gets, say. After a
/// refusal, for want of memory alone, all is as before.
pub fn put_under<D: OpSet>(
    alloc: Global,
    attributes: &mut AttributeDict<D>,
    key: &str,
    value: AttrObj<D>,
) -> Result<(), NodeErr>
    requires { IsIdentifier key.now ≡ true }
    ensures ok { OnOk result (attributes.new ≡ dict_put attributes.old key.now (attr_view value)) }
    ensures err { OnErr result (attributes.new ≡ attributes.old) }
    ensures memory { IfErr result (λ e. e ≡ NodeErr.Memory) }
{
    let Ok(key) = Identifier::try_new(alloc, key) else {
        return Err(NodeErr::Memory);
    };
    match attributes.insert(key, value) {
        Ok(()) => Ok(()),
        Err(Memory) => Err(NodeErr::Memory),
    }
}

/// The attributes of a new symbol: its name and nothing else. Refused for want of memory alone.
pub fn named<D: OpSet>(alloc: Global, name: Identifier) -> Result<AttributeDict<D>, NodeErr>
    ensures value { IfOk result (λ es. es ≡ module_attributes name) }
    ensures memory { IfErr result (λ e. e ≡ NodeErr.Memory) }
    ensures live { IfOk result (λ es. (types : List (TypeView D.Ty)) → HandlesLive D.attr_handles types es) }
{
    let mut attributes = AttributeDict::new(alloc);
    let value = AttrObj::Identifier(IdentifierAttr::new(name));
    put_under(alloc, &mut attributes, ATTR_KEY_SYM_NAME, value)?;
    Ok(attributes)
}

/// A dictionary with a name and a type of functions.
pub(crate) fn named_and_typed<D: OpSet>(
    alloc: Global,
    name: Identifier,
    ty: TypeHandle,
) -> Result<AttributeDict<D>, NodeErr>
    ensures value { IfOk result (λ es. es ≡ func_attributes name ty) }
    ensures memory { IfErr result (λ e. e ≡ NodeErr.Memory) }
    ensures live { IfOk result (λ es. (types : List (TypeView D.Ty)) → IsTypeLive types ty →
        HandlesLive D.attr_handles types es) }
{
    let mut attributes = named(alloc, name)?;
    let value = AttrObj::Type(TypeAttr::new(ty));
    put_under(alloc, &mut attributes, ATTR_KEY_BUILTIN_FUNC_TYPE, value)?;
    Ok(attributes)
}

/// A dictionary with a value and nothing else.
pub(crate) fn valued<D: OpSet>(
    alloc: Global,
    value: AttrObj<D>,
) -> Result<AttributeDict<D>, NodeErr>
    ensures value { IfOk result (λ es. es ≡ dict_put [] value_key (attr_view value)) }
    ensures memory { IfErr result (λ e. e ≡ NodeErr.Memory) }
    ensures live { IfOk result (λ es. (types : List (TypeView D.Ty)) →
        IsAttrLive D.attr_handles types (attr_view value) → HandlesLive D.attr_handles types es) }
{
    let mut attributes = AttributeDict::new(alloc);
    put_under(alloc, &mut attributes, ATTR_KEY_CONSTANT_VALUE, value)?;
    Ok(attributes)
}

/// A list of one type.
pub(crate) fn one_type(alloc: Global, ty: TypeHandle) -> Result<Vec<TypeHandle>, NodeErr>
    ensures value { IfOk result (λ ts. ts.items ≡ ty ∷ []) }
    ensures memory { IfErr result (λ e. e ≡ NodeErr.Memory) }
{
    let mut types = Vec::new(alloc);
    match types.push(ty) {
        Ok(()) => Ok(types),
        Err(_) => Err(NodeErr::Memory),
    }
}

/// A new operation with these attributes and one region, which holds one new block with a label, if it has one, and
/// arguments of these types; it has no operands, results and successors, and stands in no block. `TooManyNodes` comes
/// only where there is no room for the three. After a refusal no live node has changed.
pub fn new_with_block<D: OpSet>(
    alloc: Global,
    ctx: &mut Context<D>,
    kind: OpKind<D::Kind>,
    attributes: AttributeDict<D>,
    label: Option<Identifier>,
    arg_types: Vec<TypeHandle>,
) -> Result<Ptr<Operation>, NodeErr>
    requires types_live { AllLive ctx.old.types arg_types.items }
    requires handles_live { HandlesLive D.attr_handles ctx.old.types attributes }
    ensures made { IfOk result (λ op. IsMade ctx.old.nodes ctx.new.nodes (AnyNode.Operation op)) }
    ensures pointer { IfOk result (λ op. op ≡ ptr_at ctx.new.nodes.ops (next_slot ctx.old.nodes.ops)) }
    ensures tree { IfOk result (λ op. HoldsOneBlock ctx.new op (op_view kind [] [] [] attributes)
        (block_view label arg_types.items)) }
    ensures after { OnOk result (IsMadeWithBlock ctx.old ctx.new (op_view kind [] [] [] attributes)
        (block_view label arg_types.items)) }
    ensures types { ctx.new.types ≡ ctx.old.types }
    ensures given { (n : AnyNode) → given_out ctx.old n ≡ true → given_out ctx.new n ≡ true }
    ensures err { OnErr result (SameLive ctx.old ctx.new) }
    ensures too_many { limit ctx.old < num_live ctx.old + 3 → IsErr result }
    ensures too_many_only { result ≡ Err NodeErr.TooManyNodes → IsFullForOneBlock ctx.old }
    ensures whole { IsWellFormed D.attr_handles ctx.new }
{
    ctx.stands();
    what_was_made_is_unused(ctx);
    growth(ctx);
    let results = Vec::new(alloc);
    let operands = Vec::new(alloc);
    let successors = Vec::new(alloc);
    let op = Operation::with_attributes(ctx, kind, results, operands, successors, attributes, 1)?;
    match add_block(alloc, ctx, op, label, arg_types) {
        Ok(()) => Ok(op),
        Err(refused) => {
            Operation::erase(op, ctx);
            Err(refused)
        }
    }
}

// Puts a new block into the one region of an operation, which holds none. After a refusal all is as before.
fn add_block<D: OpSet>(
    alloc: Global,
    ctx: &mut Context<D>,
    op: Ptr<Operation>,
    label: Option<Identifier>,
    arg_types: Vec<TypeHandle>,
) -> Result<(), NodeErr>
    requires live { IsLive ctx.old (AnyNode.Operation op) }
    requires regions { HasNewRegions ctx.old.nodes (AnyNode.Operation op) 1 }
    requires types_live { AllLive ctx.old.types arg_types.items }
    ensures added { OnOk result (GivesBlock ctx.old ctx.new op (block_view label arg_types.items)) }
    ensures types { ctx.new.types ≡ ctx.old.types }
    ensures given { (n : AnyNode) → given_out ctx.old n ≡ true → given_out ctx.new n ≡ true }
    ensures err { OnErr result (ctx.new ≡ ctx.old) }
    ensures too_many { (result ≡ Err NodeErr.TooManyNodes) ↔ IsFullForBlock ctx.old.nodes }
    ensures whole { IsWellFormed D.attr_handles ctx.new }
{
    growth(ctx);
    let region = op.get_region(ctx, 0);
    let block = BasicBlock::new(alloc, ctx, label, arg_types)?;
    block.insert_at_back(ctx, region);
    Ok(())
}
