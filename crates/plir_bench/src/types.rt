//! Types of integers.
ghost use Rattle.std.specs.Prelude.{◌≡◌, IfOk};
ghost use Rattle.plir_data.specs.Types.{IsLive};

use crate::kinds::BenchSet;
use crate::stop::Stop;
use plir_core::Context;
use plir_data::{IntegerType, Signedness, TypeHandle, TypedHandle};

/// How many bits the integers have that are the values of modules.
pub const WIDTH: u32 = 64;

// So many widths are asked for in turn.
const WIDTHS: u64 = 1000;

/// The type of signed integers of a width.
pub fn integer_type(
    ctx: &mut Context<BenchSet>,
    width: u32,
) -> Result<TypedHandle<IntegerType>, Stop>
    ensures live { IfOk result (IsLive ctx.new.types) }
    ensures nodes { ctx.new.nodes ≡ ctx.old.nodes }
{
    Ok(IntegerType::get(ctx, width, Signedness::Signed)?)
}

/// The type of the values of modules.
pub fn value_type(ctx: &mut Context<BenchSet>) -> Result<TypeHandle, Stop>
    ensures live { IfOk result (IsLive ctx.new.types) }
    ensures nodes { ctx.new.nodes ≡ ctx.old.nodes }
{
    let integer = integer_type(ctx, WIDTH)?;
    Ok(integer.into())
}

/// Asks for an integer type so many times, a thousand widths in turn, and answers how often the first one came. Each of
/// them is made once, and found by then on.
pub fn look_up_types(ctx: &mut Context<BenchSet>, number: u64) -> Result<u64, Stop> {
    let first = integer_type(ctx, 0)?;
    let mut count: u64 = 0;
    for turn in 0..number {
        if integer_type(ctx, (turn % WIDTHS) as u32)? == first {
            count = count.wrapping_add(1);
        }
    }
    Ok(count)
}
