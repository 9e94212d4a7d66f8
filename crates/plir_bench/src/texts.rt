//! Texts, printed and read.
ghost use Rattle.plir_core.specs.ContextView.{IsLive};
ghost use Rattle.plir_core.specs.declared.ptr.IRNode.{IRNode as AnyNode};

use crate::kinds::BenchSet;
use crate::stop::Stop;
use plir_core::{Context, Operation, Ptr};
use plir_print::{is_printable, print_op};
use plir_read::read_op;
use std::alloc::Global;

/// Prints an operation so many times, and answers the last text.
pub fn print_root(
    alloc: Global,
    ctx: &Context<BenchSet>,
    root: Ptr<Operation>,
    rounds: u64,
) -> Result<String, Stop>
    requires { IsLive ctx.now (AnyNode.Operation root) }
{
    if !is_printable(ctx, root) {
        return Err(Stop::Refused);
    }
    let mut text = String::new(alloc);
    for _ in 0..rounds {
        text = print_op(alloc, ctx, root)?;
    }
    Ok(text)
}

/// Reads a text so many times, and answers how often that was.
pub fn read_text(
    alloc: Global,
    ctx: &mut Context<BenchSet>,
    text: &str,
    rounds: u64,
) -> Result<u64, Stop> {
    for _ in 0..rounds {
        if read_op(alloc, ctx, text).is_err() {
            return Err(Stop::Refused);
        }
    }
    Ok(rounds)
}
