// SPDX-License-Identifier: Apache-2.0
//! A module with a function in it is built, walked, verified and printed.
#![tactic(auto)]

mod stop;

use plir_builtin::{FuncOp, ModuleOp};
use plir_core::{Context, IRNode};
use plir_data::{BuiltinSet, FunctionType, Identifier};
use plir_iface::SingleBlockRegionInterface;
use plir_text::{is_printable, print_op};
use plir_walk::WALKCONFIG_PREORDER_FORWARD;
use plir_walk::uninterruptible::immutable::walk_op;
use std::alloc::Global;
use std::io::{self, Write};
use std::process::ExitCode;
use stop::Stop;

fn main(rt: HostRuntime) -> ExitCode {
    let mut ctx = Context::new(rt.alloc());
    match tour(rt.alloc(), &mut ctx, &mut io::writer(&rt)) {
        Ok(()) => ExitCode::SUCCESS,
        Err(_) => ExitCode::FAILURE,
    }
}

// Writes how many nodes a module of one function has, and the module's text.
fn tour<W: Write>(
    alloc: Global,
    ctx: &mut Context<BuiltinSet>,
    writer: &mut W,
) -> Result<(), Stop> {
    let module = ModuleOp::new(alloc, ctx, Identifier::try_new(alloc, "shapes")?)?;
    ctx.stands();
    let ty = FunctionType::get(ctx, Vec::new(alloc), Vec::new(alloc))?;
    let func = FuncOp::new(alloc, ctx, Identifier::try_new(alloc, "area")?, ty)?;
    let func = func.operation();
    SingleBlockRegionInterface::append_operation(&module, ctx, func, 0);

    let mut count = 0u32;
    let root = module.operation();
    let visit = |_ctx: &Context<BuiltinSet>, count: &mut u32, _node: IRNode| {
        *count = count.saturating_add(1);
    };
    walk_op(ctx, &mut count, &WALKCONFIG_PREORDER_FORWARD, root, visit);

    module.verify_interfaces(alloc, ctx)?;
    if !is_printable(ctx, root) {
        return Err(Stop::Refused);
    }
    let text = print_op(alloc, ctx, root)?;
    writeln!(writer, "{count} nodes")?;
    writeln!(writer, "{text}")?;
    Ok(())
}
