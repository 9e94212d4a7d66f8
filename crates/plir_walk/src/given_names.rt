//! Names that are given to results of operations and to arguments of blocks.
//!
//! They stand in one list, in an attribute under [`ATTR_KEY_GIVEN_NAMES`], each name at the place of its result or
//! argument.
ghost use Rattle.std.specs.Prelude.{◌≡◌, ◌↔◌, ◌<◌, ◌≤◌, true, OnOk, OnErr, is_err, length, option_map};
ghost use Rattle.plir_core.specs.ContextView.{IsLive, result_types_of, arg_types_of};
ghost use Rattle.plir_core.specs.WellFormed.{IsWellFormed};
ghost use Rattle.plir_core.specs.declared.ptr.IRNode.{IRNode};
ghost use Rattle.plir_core.specs.declared.value.DefiningEntity.{DefiningEntity};
ghost use Rattle.plir_walk.specs.GivenNames.{name_at as name_in, names_at, has_other_at, with_names, set_name};
ghost use Rattle.plir_walk.specs.GivenNames.{insert_name, remove_name};

pub use crate::erase_names::erase_given_names;
use crate::name_list::Placing;
use crate::names_attr::{GivenNamesErr, GivenNamesIncorrect, name_at, put_name, take_name};
use plir_core::{BasicBlock, Context, DefiningEntity, Operation, Ptr};
use plir_data::{Identifier, OpSet};
use std::alloc::Global;

/// Names the result at a place, from 0, or unsets its name. Unset names fill the list up to it.
///
/// After an unset name was put, a list with no name set is taken out; where there is none, none is added.
///
/// # Errors
///
/// `GivenNamesIncorrect` exactly where an attribute of another kind stands under the key, else `Memory` where a growth
/// was refused. All is as before then.
pub fn set_operation_result_name<D: OpSet>(
    alloc: Global,
    ctx: &mut Context<D>,
    op: Ptr<Operation>,
    i: usize,
    name: Option<Identifier>,
) -> Result<(), GivenNamesErr>
    requires live { IsLive ctx.old (IRNode.Operation op) }
    requires below { i < length (result_types_of ctx.old op) }
    ensures ok { OnOk result (ctx.new ≡ with_names ctx.old (DefiningEntity.Op op)
        (set_name (names_at ctx.old (DefiningEntity.Op op)) i name)) }
    ensures err { OnErr result (ctx.new ≡ ctx.old) }
    ensures incorrect { (result ≡ Err GivenNamesErr.GivenNamesIncorrect) ↔
        (has_other_at ctx.old (DefiningEntity.Op op) ≡ true) }
    ensures whole { IsWellFormed D.attr_handles ctx.new }
{
    prove!(op.is_live(ctx), "the operation is not live");
    prove!(i < op.get_num_results(ctx), "there is none at this place");
    let results_of = DefiningEntity::Op(op);
    put_name(alloc, ctx, results_of, i, name, Placing::Replacing)
}

/// Puts a name before that of the result at a place, from 0, or at the end: that and the later ones move up. Unset
/// names fill the list up to it.
///
/// After an unset name was put, a list with no name set is taken out; where there is none, none is added.
///
/// # Errors
///
/// `GivenNamesIncorrect` exactly where an attribute of another kind stands under the key, else `Memory` where a growth
/// was refused. All is as before then.
pub fn insert_operation_result_name<D: OpSet>(
    alloc: Global,
    ctx: &mut Context<D>,
    op: Ptr<Operation>,
    i: usize,
    name: Option<Identifier>,
) -> Result<(), GivenNamesErr>
    requires live { IsLive ctx.old (IRNode.Operation op) }
    requires within { i ≤ length (result_types_of ctx.old op) }
    ensures ok { OnOk result (ctx.new ≡ with_names ctx.old (DefiningEntity.Op op)
        (insert_name (names_at ctx.old (DefiningEntity.Op op)) i name)) }
    ensures err { OnErr result (ctx.new ≡ ctx.old) }
    ensures incorrect { (result ≡ Err GivenNamesErr.GivenNamesIncorrect) ↔
        (has_other_at ctx.old (DefiningEntity.Op op) ≡ true) }
    ensures whole { IsWellFormed D.attr_handles ctx.new }
{
    prove!(op.is_live(ctx), "the operation is not live");
    prove!(i <= op.get_num_results(ctx), "there is none at this place");
    let results_of = DefiningEntity::Op(op);
    put_name(alloc, ctx, results_of, i, name, Placing::Shifting)
}

/// Takes the name of the result at a place, from 0, out, if the list is so long: the later ones move down. A list with
/// no name set is taken out. Takes no memory.
///
/// # Errors
///
/// [`GivenNamesIncorrect`] exactly where an attribute of another kind stands under the key. All is as before then.
pub fn remove_operation_result_name<D: OpSet>(
    ctx: &mut Context<D>,
    op: Ptr<Operation>,
    i: usize,
) -> Result<(), GivenNamesIncorrect>
    requires live { IsLive ctx.old (IRNode.Operation op) }
    requires below { i < length (result_types_of ctx.old op) }
    ensures ok { OnOk result (ctx.new ≡ with_names ctx.old (DefiningEntity.Op op)
        (remove_name (names_at ctx.old (DefiningEntity.Op op)) i)) }
    ensures err { OnErr result (ctx.new ≡ ctx.old) }
    ensures incorrect { has_other_at ctx.old (DefiningEntity.Op op) ≡ is_err result }
    ensures whole { IsWellFormed D.attr_handles ctx.new }
{
    prove!(op.is_live(ctx), "the operation is not live");
    prove!(i < op.get_num_results(ctx), "there is none at this place");
    take_name(ctx, DefiningEntity::Op(op), i)
}

/// The name of the result at a place, from 0, if it has one: past the end of the list, and where an attribute of
/// another kind stands under the key, it has none. Takes no memory.
pub fn get_operation_result_name<D: OpSet>(
    ctx: &Context<D>,
    op: Ptr<Operation>,
    i: usize,
) -> Option<&Identifier>
    requires { IsLive ctx.now (IRNode.Operation op) }
    ensures value { option_map (λ n. n.now) result ≡ name_in (names_at ctx.now (DefiningEntity.Op op)) i }
    ensures whole { IsWellFormed D.attr_handles ctx.now }
{
    name_at(ctx, DefiningEntity::Op(op), i)
}

/// Names the argument at a place, from 0, or unsets its name. Unset names fill the list up to it.
///
/// After an unset name was put, a list with no name set is taken out; where there is none, none is added.
///
/// # Errors
///
/// `GivenNamesIncorrect` exactly where an attribute of another kind stands under the key, else `Memory` where a growth
/// was refused. All is as before then.
pub fn set_block_arg_name<D: OpSet>(
    alloc: Global,
    ctx: &mut Context<D>,
    block: Ptr<BasicBlock>,
    i: usize,
    name: Option<Identifier>,
) -> Result<(), GivenNamesErr>
    requires live { IsLive ctx.old (IRNode.BasicBlock block) }
    requires below { i < length (arg_types_of ctx.old block) }
    ensures ok { OnOk result (ctx.new ≡ with_names ctx.old (DefiningEntity.Block block)
        (set_name (names_at ctx.old (DefiningEntity.Block block)) i name)) }
    ensures err { OnErr result (ctx.new ≡ ctx.old) }
    ensures incorrect { (result ≡ Err GivenNamesErr.GivenNamesIncorrect) ↔
        (has_other_at ctx.old (DefiningEntity.Block block) ≡ true) }
    ensures whole { IsWellFormed D.attr_handles ctx.new }
{
    prove!(block.is_live(ctx), "the block is not live");
    prove!(
        i < block.get_num_arguments(ctx),
        "there is none at this place"
    );
    let arguments_of = DefiningEntity::Block(block);
    put_name(alloc, ctx, arguments_of, i, name, Placing::Replacing)
}

/// Puts a name before that of the argument at a place, from 0, or at the end: that and the later ones move up. Unset
/// names fill the list up to it.
///
/// After an unset name was put, a list with no name set is taken out; where there is none, none is added.
///
/// # Errors
///
/// `GivenNamesIncorrect` exactly where an attribute of another kind stands under the key, else `Memory` where a growth
/// was refused. All is as before then.
pub fn insert_block_arg_name<D: OpSet>(
    alloc: Global,
    ctx: &mut Context<D>,
    block: Ptr<BasicBlock>,
    i: usize,
    name: Option<Identifier>,
) -> Result<(), GivenNamesErr>
    requires live { IsLive ctx.old (IRNode.BasicBlock block) }
    requires within { i ≤ length (arg_types_of ctx.old block) }
    ensures ok { OnOk result (ctx.new ≡ with_names ctx.old (DefiningEntity.Block block)
        (insert_name (names_at ctx.old (DefiningEntity.Block block)) i name)) }
    ensures err { OnErr result (ctx.new ≡ ctx.old) }
    ensures incorrect { (result ≡ Err GivenNamesErr.GivenNamesIncorrect) ↔
        (has_other_at ctx.old (DefiningEntity.Block block) ≡ true) }
    ensures whole { IsWellFormed D.attr_handles ctx.new }
{
    prove!(block.is_live(ctx), "the block is not live");
    prove!(
        i <= block.get_num_arguments(ctx),
        "there is none at this place"
    );
    let arguments_of = DefiningEntity::Block(block);
    put_name(alloc, ctx, arguments_of, i, name, Placing::Shifting)
}

/// Takes the name of the argument at a place, from 0, out, if the list is so long: the later ones move down. A list
/// with no name set is taken out. Takes no memory.
///
/// # Errors
///
/// [`GivenNamesIncorrect`] exactly where an attribute of another kind stands under the key. All is as before then.
pub fn remove_block_arg_name<D: OpSet>(
    ctx: &mut Context<D>,
    block: Ptr<BasicBlock>,
    i: usize,
) -> Result<(), GivenNamesIncorrect>
    requires live { IsLive ctx.old (IRNode.BasicBlock block) }
    requires below { i < length (arg_types_of ctx.old block) }
    ensures ok { OnOk result (ctx.new ≡ with_names ctx.old (DefiningEntity.Block block)
        (remove_name (names_at ctx.old (DefiningEntity.Block block)) i)) }
    ensures err { OnErr result (ctx.new ≡ ctx.old) }
    ensures incorrect { has_other_at ctx.old (DefiningEntity.Block block) ≡ is_err result }
    ensures whole { IsWellFormed D.attr_handles ctx.new }
{
    prove!(block.is_live(ctx), "the block is not live");
    prove!(
        i < block.get_num_arguments(ctx),
        "there is none at this place"
    );
    take_name(ctx, DefiningEntity::Block(block), i)
}

/// The name of the argument at a place, from 0, if it has one: past the end of the list, and where an attribute of
/// another kind stands under the key, it has none. Takes no memory.
pub fn get_block_arg_name<D: OpSet>(
    ctx: &Context<D>,
    block: Ptr<BasicBlock>,
    i: usize,
) -> Option<&Identifier>
    requires { IsLive ctx.now (IRNode.BasicBlock block) }
    ensures value { option_map (λ n. n.now) result ≡ name_in (names_at ctx.now (DefiningEntity.Block block)) i }
    ensures whole { IsWellFormed D.attr_handles ctx.now }
{
    name_at(ctx, DefiningEntity::Block(block), i)
}
