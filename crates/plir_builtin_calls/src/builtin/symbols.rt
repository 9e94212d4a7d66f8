//! The calls on symbols, and those that verify what operations declare.
ghost use Rattle.plir_core.specs.ContextView.{IsLive};
ghost use Rattle.plir_core.specs.declared.ptr.IRNode.{IRNode as AnyNode};

use crate::builtin::around::{Around, has_body, set_symbol_name, symbol_name};
use plir_builtin::{
    ConstantOp, ForwardRefOp, FuncOp, ModuleOp, SymbolOpInterface, SymbolTable,
    SymbolTableInterface, SymbolUserSet,
};
use plir_core::{Context, IRNode, Interface, Operation, Ptr, op_impls};
use plir_data::{Identifier, Location, OpSet, VerifyErr};
use plir_scripts::{Answer, Bench, Line, Stop};
use std::alloc::Global;
use std::fmt::Display;

/// Does what a line says of symbols: `symbol OP NAME` names one, `name OP` tells the name, `scan OP NAME` seeks a
/// symbol in the body of an operation, `right OP` verifies a table, `declared OP` all that a builtin operation
/// declares, and `past OP OP NAME` renames a symbol past its table.
pub fn symbol<D: SymbolUserSet>(bench: &mut Bench<D>, line: Line<'_>) -> Result<(), Stop> {
    let op = bench.made.op(&bench.ctx, line.first)?;
    match line.command {
        "declared" => verify_declared(bench, op),
        "past" => rename_past(bench, op, line),
        _ => call_any(bench, &Around { op }, line),
    }
}

// Does what a line says of any operation.
fn call_any<D: SymbolUserSet, O: SymbolOpInterface<D> + SymbolTableInterface<D>>(
    bench: &mut Bench<D>,
    op: &O,
    line: Line<'_>,
) -> Result<(), Stop>
    requires { IsLive bench.old.ctx (AnyNode.Operation (O.pointer op.now)) }
{
    match line.command {
        "symbol" => rename(bench, op, line.second),
        "name" => tell_name(bench, op),
        "scan" => scan(bench, op, line.second),
        _ => verify_table(bench, op),
    }
}

fn rename<D: OpSet, S: SymbolOpInterface<D>>(
    bench: &mut Bench<D>,
    symbol: &S,
    name: &str,
) -> Result<(), Stop>
    requires { IsLive bench.old.ctx (AnyNode.Operation (S.pointer symbol.now)) }
{
    let name = Identifier::try_new(bench.alloc, name)?;
    symbol.set_symbol_name(bench.alloc, &mut bench.ctx, name)?;
    Ok(())
}

fn tell_name<D: OpSet, S: SymbolOpInterface<D>>(
    bench: &mut Bench<D>,
    symbol: &S,
) -> Result<(), Stop>
    requires { IsLive bench.old.ctx (AnyNode.Operation (S.pointer symbol.now)) }
{
    let (ctx, answer) = (&bench.ctx, &mut bench.answer);
    match SymbolOpInterface::<D>::verify(symbol, ctx) {
        Ok(()) => {
            answer.put(symbol.get_symbol_name(ctx).as_str());
            Ok(())
        }
        Err(refused) => put_refusal(answer, refused),
    }
}

fn scan<D: OpSet, T: SymbolTableInterface<D>>(
    bench: &mut Bench<D>,
    table: &T,
    name: &str,
) -> Result<(), Stop>
    requires { IsLive bench.old.ctx (AnyNode.Operation (T.pointer table.now)) }
{
    if !has_body(&bench.ctx, table) {
        return Err(Stop::Refused);
    }
    let name = Identifier::try_new(bench.alloc, name)?;
    let found = table.lookup(&bench.ctx, &name);
    bench.made.put_op(&mut bench.answer, found);
    Ok(())
}

fn verify_table<D: SymbolUserSet, T: SymbolTableInterface<D>>(
    bench: &mut Bench<D>,
    table: &T,
) -> Result<(), Stop>
    requires { IsLive bench.old.ctx (AnyNode.Operation (T.pointer table.now)) }
{
    if !has_body(&bench.ctx, table)
        || !op_impls(&bench.ctx, table.get_operation(), Interface::SymbolTable)
    {
        return Err(Stop::Refused);
    }
    let verdict = SymbolTableInterface::<D>::verify(table, bench.alloc, &bench.ctx);
    put_verdict(&mut bench.answer, verdict)
}

/// Writes what a verifier answers: where, if that is told, and why it refuses.
pub fn put_verdict<E: Display + Drop>(
    answer: &mut Answer,
    verdict: Result<(), VerifyErr<E>>,
) -> Result<(), Stop> {
    match verdict {
        Ok(()) => {
            answer.put("holds");
            Ok(())
        }
        Err(refused) => put_refusal(answer, refused),
    }
}

fn put_refusal<E: Display + Drop>(answer: &mut Answer, refused: VerifyErr<E>) -> Result<(), Stop> {
    match refused {
        VerifyErr::Refused { loc, err } => {
            if let Location::SrcPos { line, column } = loc {
                answer.put_number(line as usize);
                answer.put(":");
                answer.put_number(column as usize);
                answer.put(" ");
            }
            answer.put_shown(&err);
            Ok(())
        }
        VerifyErr::Memory => Err(Stop::Memory),
    }
}

fn verify_declared<D: SymbolUserSet>(bench: &mut Bench<D>, op: Ptr<Operation>) -> Result<(), Stop>
    requires { IsLive bench.old.ctx (AnyNode.Operation op) }
{
    let (alloc, ctx, answer) = (bench.alloc, &bench.ctx, &mut bench.answer);
    if let Some(module) = ModuleOp::from_operation(ctx, op) {
        return put_verdict(answer, module.verify_interfaces(alloc, ctx));
    }
    if let Some(func) = FuncOp::from_operation(ctx, op) {
        return put_verdict(answer, func.verify_interfaces(ctx));
    }
    if let Some(constant) = ConstantOp::from_operation(ctx, op) {
        return put_verdict(answer, constant.verify_interfaces(alloc, ctx));
    }
    match ForwardRefOp::from_operation(ctx, op) {
        Some(reference) => put_verdict(answer, reference.verify_interfaces(alloc, ctx)),
        None => Err(Stop::Refused),
    }
}

// Writes what a table finds under the old name of a symbol and under the new one, after the symbol was renamed past it;
// takes the symbol out, and writes what is found under the old name then.
fn rename_past<D: OpSet>(
    bench: &mut Bench<D>,
    over: Ptr<Operation>,
    line: Line<'_>,
) -> Result<(), Stop>
    requires { IsLive bench.old.ctx (AnyNode.Operation over) }
{
    let (alloc, made, answer) = (bench.alloc, &bench.made, &mut bench.answer);
    let op = made.op(&bench.ctx, line.second)?;
    let new = Identifier::try_new(alloc, line.third)?;
    let old = name_of(alloc, &bench.ctx, op)?;
    let found = new.try_clone(alloc)?;
    let Ok(mut table) = SymbolTable::new(alloc, &bench.ctx, over) else {
        return Err(Stop::Refused);
    };
    set_symbol_name(alloc, &mut bench.ctx, op, new)?;
    made.put_op(answer, table.lookup(&old));
    made.put_op(answer, table.lookup(&found));
    if take_out(&mut bench.ctx, &mut table, op) {
        made.put_op(answer, table.lookup(&old));
    }
    Ok(())
}

// The name of a symbol.
fn name_of<D: OpSet>(
    alloc: Global,
    ctx: &Context<D>,
    op: Ptr<Operation>,
) -> Result<Identifier, Stop>
    requires { IsLive ctx.now (AnyNode.Operation op) }
{
    let name = symbol_name(ctx, op).ok_or(Stop::Refused)?;
    Ok(name.try_clone(alloc)?)
}

// Takes a symbol out of a table; answers whether it was in it.
fn take_out<D: OpSet>(ctx: &mut Context<D>, table: &mut SymbolTable, op: Ptr<Operation>) -> bool {
    op.is_live(ctx) && table.has_body(ctx) && table.remove(ctx, op).is_ok()
}
