//! The calls of calls.
ghost use Rattle.plir_core.specs.ContextView.{IsLive};
ghost use Rattle.plir_core.specs.declared.ptr.IRNode.{IRNode as AnyNode};

use crate::flow::grouping::{put_values, put_verdict};
use plir_core::Context;
use plir_data::OpSet;
use plir_flow::{CallOpCallable, CallOpInterface};
use plir_scripts::{Answer, Bench, Line, Made, Stop, put_type_name};
use std::alloc::Global;

/// The calls on a call: `layout OP KIND`, `call OP KIND` and `args OP KIND`, `callee-type OP` and `set-callee OP TYPE`.
pub fn call<D: OpSet, C: CallOpInterface<D> + Drop>(
    bench: &mut Bench<D>,
    op: &C,
    line: Line<'_>,
) -> Result<(), Stop>
    requires { IsLive bench.old.ctx (AnyNode.Operation (C.pointer op.now)) }
{
    match line.command {
        "callee-type" => ask_type(bench, op),
        "set-callee" => set_type(bench, op, line),
        _ => ask_call(
            bench.alloc,
            &bench.ctx,
            &bench.made,
            &mut bench.answer,
            op,
            line.command,
        ),
    }
}

// `layout OP KIND`, `call OP KIND` and `args OP KIND`.
fn ask_call<D: OpSet, C: CallOpInterface<D> + Drop>(
    alloc: Global,
    ctx: &Context<D>,
    made: &Made,
    answer: &mut Answer,
    op: &C,
    command: &str,
) -> Result<(), Stop>
    requires { IsLive ctx.now (AnyNode.Operation (C.pointer op.now)) }
{
    match command {
        "layout" => put_verdict(answer, op.verify_call_layout(alloc, ctx)),
        "call" => put_verdict(answer, op.verify(ctx)),
        _ => {
            if op.verify_call_layout(alloc, ctx).is_err() {
                return Err(Stop::Refused);
            }
            let callee = op.callee(alloc, ctx)?;
            match callee.try_clone(alloc)? {
                CallOpCallable::Direct(name) => answer.put(name.as_str()),
                CallOpCallable::Indirect(value) => made.put_value(answer, value),
            }
            answer.put(" /");
            put_values(made, answer, op.args(alloc, ctx)?.as_slice());
        }
    }
    Ok(())
}

// `callee-type OP`.
fn ask_type<D: OpSet, C: CallOpInterface<D>>(bench: &mut Bench<D>, op: &C) -> Result<(), Stop>
    requires { IsLive bench.old.ctx (AnyNode.Operation (C.pointer op.now)) }
{
    if op.verify(&bench.ctx).is_err() {
        return Err(Stop::Refused);
    }
    let ty = op.callee_type(&bench.ctx);
    put_type_name(&mut bench.made, &mut bench.answer, ty)
}

// `set-callee OP TYPE`.
fn set_type<D: OpSet, C: CallOpInterface<D>>(
    bench: &mut Bench<D>,
    op: &C,
    line: Line<'_>,
) -> Result<(), Stop>
    requires { IsLive bench.old.ctx (AnyNode.Operation (C.pointer op.now)) }
{
    let ty = bench.made.type_named(&bench.ctx, line.second)?;
    op.set_callee_type(bench.alloc, &mut bench.ctx, ty)?;
    Ok(())
}
