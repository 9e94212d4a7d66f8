//! Calls through one collection of tables.
ghost use Rattle.plir_core.specs.ContextView.{IsLive};
ghost use Rattle.plir_core.specs.declared.ptr.IRNode.{IRNode as AnyNode};

use plir_builtin::{SymbolTable, SymbolTableCollection, SymbolTableErr, symbol_name};
use plir_core::{Context, Operation, Ptr};
use plir_data::{Identifier, OpSet};
use plir_scripts::{Answer, Bench, Line, Made, Stop, split_word};
use plir_symbols::{CallGraph, SymbolNames, call_graph, eliminate_dead_symbols};
use std::alloc::Global;

/// Makes the calls of `session CALL; CALL; ..` through one collection: `eliminate OP`, `lookup OP NAME` in the table of
/// an operation, `edges OP` of the call graph under an operation, and there `callees OP OP` and `callers OP OP`. Where
/// a call is refused for want of memory, the table is compared with one that is made anew, and the call is made once
/// more.
pub fn session<D: SymbolNames>(bench: &mut Bench<D>, line: Line<'_>) -> Result<(), Stop> {
    let mut tables = SymbolTableCollection::new(bench.alloc);
    for words in line.text.split("; ") {
        if call(bench, &mut tables, words).is_err() {
            compare(bench, &mut tables, words)?;
            call(bench, &mut tables, words)?;
        }
        bench.answer.put(";");
    }
    Ok(())
}

fn call<D: SymbolNames>(
    bench: &mut Bench<D>,
    tables: &mut SymbolTableCollection,
    words: &str,
) -> Result<(), Stop> {
    let (command, rest) = split_word(words);
    let (first, name) = split_word(rest);
    let table = bench.made.op(&bench.ctx, first)?;
    match command {
        "lookup" => look_up(bench, tables, table, name),
        "eliminate" => eliminate(bench, tables, table),
        _ => ask_graph(bench, tables, table, command, name),
    }
}

fn eliminate<D: SymbolNames>(
    bench: &mut Bench<D>,
    tables: &mut SymbolTableCollection,
    table: Ptr<Operation>,
) -> Result<(), Stop>
    requires { IsLive bench.old.ctx (AnyNode.Operation table) }
{
    match eliminate_dead_symbols(bench.alloc, &mut bench.ctx, tables, table) {
        Ok(()) => bench.answer.put(" done"),
        Err(refused) => put_refused(&mut bench.answer, refused)?,
    }
    Ok(())
}

// Makes the call graph under an operation, and writes what is asked of it.
fn ask_graph<D: SymbolNames>(
    bench: &mut Bench<D>,
    tables: &mut SymbolTableCollection,
    root: Ptr<Operation>,
    command: &str,
    word: &str,
) -> Result<(), Stop>
    requires { IsLive bench.old.ctx (AnyNode.Operation root) }
{
    let graph = match call_graph(bench.alloc, &bench.ctx, tables, root) {
        Ok(graph) => graph,
        Err(refused) => return put_refused(&mut bench.answer, refused),
    };
    let found = match command {
        "edges" => return Ok(put_edges(bench, &graph)),
        "callees" => graph.callees(bench.alloc, bench.made.op(&bench.ctx, word)?)?,
        "callers" => graph.callers(bench.alloc, bench.made.op(&bench.ctx, word)?)?,
        _ => return Err(Stop::Refused),
    };
    for op in &found {
        bench.made.put_op(&mut bench.answer, Some(*op));
    }
    Ok(())
}

fn put_edges<D: OpSet>(bench: &mut Bench<D>, graph: &CallGraph) {
    for edge in graph.edges() {
        bench.made.put_op(&mut bench.answer, Some(edge.user));
        bench.answer.put(" to");
        bench.made.put_op(&mut bench.answer, edge.symbol);
    }
}

fn look_up<D: OpSet>(
    bench: &mut Bench<D>,
    tables: &mut SymbolTableCollection,
    table: Ptr<Operation>,
    name: &str,
) -> Result<(), Stop>
    requires { IsLive bench.old.ctx (AnyNode.Operation table) }
{
    let name = Identifier::try_new(bench.alloc, name)?;
    match tables.lookup_symbol_in_table(&bench.ctx, table, &name) {
        Ok(op) => bench.made.put_op(&mut bench.answer, op),
        Err(refused) => put_refused(&mut bench.answer, refused)?,
    }
    Ok(())
}

// Writes why a table refuses.
fn put_refused(answer: &mut Answer, refused: SymbolTableErr) -> Result<(), Stop> {
    match refused {
        SymbolTableErr::Memory => Err(Stop::Memory),
        refused => {
            answer.put(" ");
            answer.put_shown(&refused);
            Ok(())
        }
    }
}

// Looks every symbol of the script up in the table that some words name, and says so where a new table finds another.
fn compare<D: OpSet>(
    bench: &mut Bench<D>,
    tables: &mut SymbolTableCollection,
    words: &str,
) -> Result<(), Stop> {
    let (_, rest) = split_word(words);
    let (first, _) = split_word(rest);
    let table = bench.made.op(&bench.ctx, first)?;
    if !is_as_new(bench.alloc, &bench.ctx, &bench.made, tables, table)? {
        bench.answer.put(" not as anew");
    }
    Ok(())
}

// Whether a table finds what one does that is made anew, for each symbol of the script; one that is not right finds
// nothing.
fn is_as_new<D: OpSet>(
    alloc: Global,
    ctx: &Context<D>,
    made: &Made,
    tables: &mut SymbolTableCollection,
    table: Ptr<Operation>,
) -> Result<bool, Stop>
    requires { IsLive ctx.now (AnyNode.Operation table) }
{
    let anew = match SymbolTable::new(alloc, ctx, table) {
        Ok(anew) => anew,
        Err(SymbolTableErr::Memory) => return Err(Stop::Memory),
        Err(_) => return Ok(true),
    };
    for symbol in &made.ops {
        if symbol.is_live(ctx) && !is_found(ctx, tables, &anew, table, *symbol)? {
            return Ok(false);
        }
    }
    Ok(true)
}

// Whether a table finds what another does, by the name of a symbol.
fn is_found<D: OpSet>(
    ctx: &Context<D>,
    tables: &mut SymbolTableCollection,
    anew: &SymbolTable,
    table: Ptr<Operation>,
    symbol: Ptr<Operation>,
) -> Result<bool, Stop>
    requires table_live { IsLive ctx.now (AnyNode.Operation table) }
    requires symbol_live { IsLive ctx.now (AnyNode.Operation symbol) }
{
    let Some(name) = symbol_name(ctx, symbol) else {
        return Ok(true);
    };
    match tables.lookup_symbol_in_table(ctx, table, name) {
        Ok(found) => Ok(found == anew.lookup(name)),
        Err(_) => Err(Stop::Memory),
    }
}
