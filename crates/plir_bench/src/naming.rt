//! Private symbols, and what uses their names.

use crate::building::{
    add_op, add_plain_function, body_of, build_root, live_block, live_op, name_of,
};
use crate::kinds::BenchSet;
use crate::order::Order;
use crate::stop::Stop;
use plir_core::{BasicBlock, Context, Operation, Ptr};
use plir_data::{AttrObj, Identifier, IdentifierAttr, OpKind, StringAttr};
use plir_symbols::ATTR_KEY_SYM_VISIBILITY;
use std::alloc::Global;

/// A module of so many private functions, of which each uses the name of the one that was made behind it, and the last
/// that of a public one; which uses the name of the one in the middle, so that those before it are dead.
pub fn build_symbol_chain(
    alloc: Global,
    ctx: &mut Context<BenchSet>,
    number: u64,
    order: Order,
) -> Result<Ptr<Operation>, Stop> {
    let (root, body) = build_root(alloc, ctx)?;
    for place in 0..number {
        let op = add_private(alloc, ctx, body, place, order)?;
        put_name(alloc, ctx, op, "uses", place + 1)?;
    }
    live_block(ctx, body)?;
    let public = add_plain_function(alloc, ctx, body, number, order)?;
    put_name(alloc, ctx, public, "uses", number / 2)?;
    Ok(root)
}

/// A module of so many private functions, of a private one in whose body the names of the first half of them are used,
/// and of a public one in whose body those of the others are: so the first half and that private one are dead.
pub fn build_symbol_star(
    alloc: Global,
    ctx: &mut Context<BenchSet>,
    number: u64,
    order: Order,
) -> Result<Ptr<Operation>, Stop> {
    let (root, body) = build_root(alloc, ctx)?;
    for place in 0..number {
        add_private(alloc, ctx, body, place, order)?;
    }
    let private = add_private(alloc, ctx, body, number, order)?;
    add_users(alloc, ctx, private, 0, number / 2)?;
    live_block(ctx, body)?;
    let last = number.wrapping_add(1);
    let public = add_plain_function(alloc, ctx, body, last, order)?;
    add_users(alloc, ctx, public, number / 2, number)?;
    Ok(root)
}

// Puts a private function of a number into a block.
fn add_private(
    alloc: Global,
    ctx: &mut Context<BenchSet>,
    body: Ptr<BasicBlock>,
    number: u64,
    order: Order,
) -> Result<Ptr<Operation>, Stop> {
    live_block(ctx, body)?;
    let op = add_plain_function(alloc, ctx, body, number, order)?;
    make_private(alloc, ctx, op)?;
    Ok(op)
}

// Makes an operation private.
fn make_private(
    alloc: Global,
    ctx: &mut Context<BenchSet>,
    op: Ptr<Operation>,
) -> Result<(), Stop> {
    live_op(ctx, op)?;
    let key = Identifier::try_new(alloc, ATTR_KEY_SYM_VISIBILITY)?;
    let private = StringAttr::try_from_str(alloc, "private")?;
    op.set_attr(ctx, key, AttrObj::String(private))?;
    Ok(())
}

/// Puts the name of a number under a key of an operation.
pub fn put_name(
    alloc: Global,
    ctx: &mut Context<BenchSet>,
    op: Ptr<Operation>,
    key: &str,
    number: u64,
) -> Result<(), Stop> {
    live_op(ctx, op)?;
    let key = Identifier::try_new(alloc, key)?;
    let name = name_of(alloc, number)?;
    op.set_attr(ctx, key, AttrObj::Identifier(IdentifierAttr::new(name)))?;
    Ok(())
}

// Puts operations into the body of a function that use the names of the numbers from one to before another one.
fn add_users(
    alloc: Global,
    ctx: &mut Context<BenchSet>,
    func: Ptr<Operation>,
    first: u64,
    end: u64,
) -> Result<(), Stop> {
    let body = body_of(ctx, func)?;
    for number in first..end {
        add_user_of(alloc, ctx, body, number)?;
    }
    Ok(())
}

// Puts an operation at the end of a block that uses the name of a number.
fn add_user_of(
    alloc: Global,
    ctx: &mut Context<BenchSet>,
    body: Ptr<BasicBlock>,
    number: u64,
) -> Result<(), Stop> {
    live_block(ctx, body)?;
    let user = add_op(alloc, ctx, body, OpKind::ForwardRef, &[], &[], Order::Along)?;
    put_name(alloc, ctx, user, "uses", number)
}
