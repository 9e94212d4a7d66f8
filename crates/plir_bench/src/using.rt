//! Values that are used often.
use crate::building::{build_root, first_result};
use crate::chains::{add_user, add_value};
use crate::kinds::BenchSet;
use crate::order::Order;
use crate::stop::Stop;
use plir_core::{Context, Operation, Ptr, Value};
use plir_data::OpKind;
use std::alloc::Global;

/// Two values, of which each can come in place of the other.
#[derive(Clone, Copy)]
pub struct Pair {
    first: Value,
    second: Value,
}

/// A module of two constants and so many operations, of which each uses the first one; and the results of the two.
pub fn build_users(
    alloc: Global,
    ctx: &mut Context<BenchSet>,
    number: u64,
    order: Order,
) -> Result<(Ptr<Operation>, Pair), Stop> {
    let (root, body) = build_root(alloc, ctx)?;
    let first = add_value(alloc, ctx, body, OpKind::Constant, None, order)?;
    let second = add_value(alloc, ctx, body, OpKind::Constant, None, order)?;
    for _ in 0..number {
        add_user(alloc, ctx, body, OpKind::Func, &[], Some(first), order)?;
    }
    let pair = Pair {
        first: first_result(ctx, first)?,
        second: first_result(ctx, second)?,
    };
    Ok((root, pair))
}

/// Puts the second value of a pair in place of the first one everywhere, then the first one in place of the second one,
/// and so on, so many times in all; answers how many uses the one has that came last.
pub fn replace_uses(ctx: &mut Context<BenchSet>, pair: Pair, rounds: u64) -> Result<u64, Stop> {
    let Pair {
        mut first,
        mut second,
    } = pair;
    for _ in 0..rounds {
        if !second.is_live(ctx) {
            return Err(Stop::Refused);
        }
        first.replace_all_uses_with(ctx, second);
        (first, second) = (second, first);
    }
    Ok(first.num_uses(ctx) as u64)
}

/// Lists the uses of the first value of a pair so many times, and answers how many there are in all lists.
pub fn list_uses(
    alloc: Global,
    ctx: &Context<BenchSet>,
    pair: Pair,
    rounds: u64,
) -> Result<u64, Stop> {
    let mut listed: u64 = 0;
    for _ in 0..rounds {
        let uses = pair.first.uses(alloc, ctx)?;
        listed = listed.wrapping_add(uses.len() as u64);
    }
    Ok(listed)
}
