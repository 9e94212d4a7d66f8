//! Calls through one collection of tables.
ghost use Rattle.std.specs.Prelude.{IfOk, IfSome, IsTrue};
ghost use Rattle.plir_core.specs.InsertionPoint.{IsPointLive};
ghost use Rattle.plir_core.specs.ContextView.{IsLive};
ghost use Rattle.plir_core.specs.Unused.{IsUnusedOutside};
ghost use Rattle.plir_core.specs.declared.ptr.IRNode.{IRNode as AnyNode};

use crate::builtin::around::{scan, symbol_name};
use crate::builtin::operations::make_module;
use crate::builtin::tables::{edit_of, point_of, put_refused, put_reply};
use plir_builtin::{
    ATTR_KEY_SYM_NAME, SymbolEditErr, SymbolTable, SymbolTableCollection, SymbolTableErr,
};
use plir_core::{Context, IRNode, OpInsertionPoint, Operation, Ptr};
use plir_data::{AttrObj, Identifier, OpSet};
use plir_scripts::{Bench, Line, Made, Stop, grant_memory, refuse_memory, split_word};

/// Makes the calls of `session CALL; CALL; ..` through one collection: `insert OP OP`, with `before OP` behind it or
/// not, `remove OP OP` and `erase OP OP` through the table of the first operation, `list EDIT, EDIT, ..` in one list,
/// `lookup OP NAME` in the table of one, `nearest OP NAME` in the nearest one, `find OP OP` in the table of the first
/// by the name of the second; `module NAME` makes a module; between `refuse` and `grant` all memory is refused. Where a
/// call is refused for want of memory, all tables are compared with their bodies, and it is made once more.
pub fn session<D: OpSet>(bench: &mut Bench<D>, line: Line<'_>) -> Result<(), Stop> {
    let mut tables = SymbolTableCollection::new(bench.alloc);
    for words in line.text.split("; ") {
        if call(bench, &mut tables, words).is_err() {
            compare(bench, &mut tables)?;
            call(bench, &mut tables, words)?;
        }
        bench.answer.put(";");
    }
    Ok(())
}

fn call<D: OpSet>(
    bench: &mut Bench<D>,
    tables: &mut SymbolTableCollection,
    words: &str,
) -> Result<(), Stop> {
    let (command, rest) = split_word(words);
    let (first, second) = split_word(rest);
    match command {
        "module" => return make_module(bench, first),
        "refuse" => return refuse_memory(bench.alloc),
        "grant" => return grant_memory(bench.alloc),
        "list" => return make_list(bench, tables, rest),
        _ => {}
    }
    let op = bench.made.op(&bench.ctx, first)?;
    if command == "lookup" || command == "nearest" {
        return look_up(bench, tables, command, op, second);
    }
    let (second, point) = split_word(second);
    let symbol = bench.made.op(&bench.ctx, second)?;
    if command == "find" {
        return find(bench, tables, op, symbol);
    }
    let point = live_point(&bench.ctx, &bench.made, point)?;
    let edited = match tables.get_symbol_table(&bench.ctx, op) {
        Ok(table) => edit(&mut bench.ctx, table, command, symbol, point)?,
        Err(refused) => Err(refused),
    };
    match edited {
        Ok(()) => bench.answer.put(" done"),
        Err(refused) => put_refused(&mut bench.answer, refused)?,
    }
    Ok(())
}

// Makes edits in one list. An edit that is refused for want of memory is made once more.
fn make_list<D: OpSet>(
    bench: &mut Bench<D>,
    tables: &mut SymbolTableCollection,
    text: &str,
) -> Result<(), Stop> {
    let replies = apply(bench, tables, text)?;
    let mut words = text.split(", ");
    for reply in &replies {
        let edit = words.next().unwrap_or("");
        match reply {
            Err(SymbolEditErr::Table(SymbolTableErr::Memory)) => make_again(bench, tables, edit)?,
            _ => put_reply(&mut bench.answer, reply)?,
        }
    }
    Ok(())
}

// What a list of edits is answered.
fn apply<D: OpSet>(
    bench: &mut Bench<D>,
    tables: &mut SymbolTableCollection,
    text: &str,
) -> Result<Vec<Result<(), SymbolEditErr>>, Stop> {
    let mut edits = Vec::new(bench.alloc);
    for words in text.split(", ") {
        edits.push(edit_of(&bench.made, words)?)?;
    }
    Ok(tables.apply_all(&mut bench.ctx, edits)?)
}

// Makes an edit that was refused for want of memory; until then all tables are as their bodies are.
fn make_again<D: OpSet>(
    bench: &mut Bench<D>,
    tables: &mut SymbolTableCollection,
    edit: &str,
) -> Result<(), Stop> {
    compare(bench, tables)?;
    let replies = apply(bench, tables, edit)?;
    for reply in &replies {
        put_reply(&mut bench.answer, reply)?;
    }
    Ok(())
}

// Looks every symbol of the script up in every table, and says so where a scan finds another one.
fn compare<D: OpSet>(bench: &mut Bench<D>, tables: &mut SymbolTableCollection) -> Result<(), Stop> {
    let (ctx, made, answer) = (&bench.ctx, &bench.made, &mut bench.answer);
    for table in &made.ops {
        if table.is_live(ctx) && !compare_table(ctx, made, tables, *table)? {
            answer.put(" not as a scan");
        }
    }
    Ok(())
}

// Whether a table finds what a scan does, for each symbol of the script.
fn compare_table<D: OpSet>(
    ctx: &Context<D>,
    made: &Made,
    tables: &mut SymbolTableCollection,
    table: Ptr<Operation>,
) -> Result<bool, Stop>
    requires { IsLive ctx.now (AnyNode.Operation table) }
{
    for symbol in &made.ops {
        if symbol.is_live(ctx) && !is_as_scanned(ctx, tables, table, *symbol)? {
            return Ok(false);
        }
    }
    Ok(true)
}

// Whether a table finds what a scan does, by the name of a symbol; a table that is not right finds nothing.
fn is_as_scanned<D: OpSet>(
    ctx: &Context<D>,
    tables: &mut SymbolTableCollection,
    table: Ptr<Operation>,
    symbol: Ptr<Operation>,
) -> Result<bool, Stop>
    requires table_live { IsLive ctx.now (AnyNode.Operation table) }
    requires symbol_live { IsLive ctx.now (AnyNode.Operation symbol) }
{
    let Some(name) = symbol_name(ctx, symbol) else {
        return Ok(true);
    };
    match tables.lookup_symbol_in_table(ctx, table, name) {
        Ok(found) => Ok(found == scan(ctx, table, name)),
        Err(SymbolTableErr::Memory) => Err(Stop::Memory),
        Err(_) => Ok(true),
    }
}

// The insertion point that some words say, which names live nodes.
fn live_point<D: OpSet>(
    ctx: &Context<D>,
    made: &Made,
    words: &str,
) -> Result<Option<OpInsertionPoint>, Stop>
    ensures { IfOk result (λ p. IfSome p (IsPointLive ctx.now)) }
{
    match point_of(made, words)? {
        Some(point) if !point.is_live(ctx) => Err(Stop::Refused),
        point => Ok(point),
    }
}

fn look_up<D: OpSet>(
    bench: &mut Bench<D>,
    tables: &mut SymbolTableCollection,
    command: &str,
    op: Ptr<Operation>,
    name: &str,
) -> Result<(), Stop>
    requires { IsLive bench.old.ctx (AnyNode.Operation op) }
{
    let name = Identifier::try_new(bench.alloc, name)?;
    let found = if command == "lookup" {
        tables.lookup_symbol_in_table(&bench.ctx, op, &name)
    } else {
        tables.lookup_symbol_in_nearest_table(&bench.ctx, op, &name)
    };
    match found {
        Ok(op) => bench.made.put_op(&mut bench.answer, op),
        Err(refused) => put_refused(&mut bench.answer, refused)?,
    }
    Ok(())
}

// Looks the name of an operation up in the table of another one, which is cached.
fn find<D: OpSet>(
    bench: &mut Bench<D>,
    tables: &mut SymbolTableCollection,
    op: Ptr<Operation>,
    symbol: Ptr<Operation>,
) -> Result<(), Stop>
    requires op_live { IsLive bench.old.ctx (AnyNode.Operation op) }
    requires symbol_live { IsLive bench.old.ctx (AnyNode.Operation symbol) }
{
    let attributes = symbol.attributes(&bench.ctx);
    let Some(AttrObj::Identifier(name)) = attributes.get(ATTR_KEY_SYM_NAME) else {
        return Err(Stop::Refused);
    };
    match tables.get_symbol_table(&bench.ctx, op) {
        Ok(table) => {
            let found = table.lookup(name.as_ref());
            bench.made.put_op(&mut bench.answer, found);
            Ok(())
        }
        Err(refused) => put_refused(&mut bench.answer, refused),
    }
}

// Makes an edit through a table, if its condition holds.
fn edit<D: OpSet>(
    ctx: &mut Context<D>,
    table: &mut SymbolTable,
    command: &str,
    op: Ptr<Operation>,
    point: Option<OpInsertionPoint>,
) -> Result<Result<(), SymbolTableErr>, Stop>
    requires { IfSome point (IsPointLive ctx.old) }
{
    let over = IRNode::Operation(table.get_operation());
    if !op.is_live(ctx) || !table.has_body(ctx) {
        return Err(Stop::Refused);
    }
    match command {
        "insert" if !IRNode::Operation(op).is_ancestor(ctx, over) => Ok(table.insert(
            ctx, op, point,
        )),
        "remove" => Ok(table.remove(ctx, op)),
        "erase" if is_unused(ctx, op) => Ok(table.erase(ctx, op)),
        _ => Err(Stop::Refused),
    }
}

/// Whether what an operation defines is used in it alone.
pub fn is_unused<D: OpSet>(ctx: &Context<D>, op: Ptr<Operation>) -> bool
    requires { IsLive ctx.now (AnyNode.Operation op) }
    ensures { IsTrue result → IsUnusedOutside ctx.now (AnyNode.Operation op) }
{
    IRNode::Operation(op).is_unused_outside(ctx)
}
