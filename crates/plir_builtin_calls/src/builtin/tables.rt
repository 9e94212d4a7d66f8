//! The calls on symbol tables.
ghost use Rattle.std.specs.Prelude.{◌≡◌, true, length};
ghost use Rattle.plir_core.specs.declared.ptr.IRNode.{IRNode as AnyNode};

use plir_builtin::{
    SymbolEdit, SymbolEditErr, SymbolTable, SymbolTableCollection, SymbolTableErr, TableLinks,
    nearest_symbol_table, walk_symbol_table,
};
use plir_core::{Context, IRNode, Interface, OpInsertionPoint, Operation, Ptr, op_impls};
use plir_data::{Identifier, OpSet};
use plir_scripts::{Answer, Bench, Line, Made, Stop, split_word};
use plir_walk::interruptible::{WalkResult, walk_advance, walk_break};
use std::alloc::Global;

/// Does what a line says of tables: `table OP` makes one, `lookup OP NAME` and `nearest-lookup OP NAME` look a symbol
/// up in the table of an operation and in the nearest one, `nearest OP` finds that, `edits EDIT; EDIT; ..` makes edits,
/// and `hand OP [OP]` walks the table of an operation and breaks the walk at another one.
pub fn table<D: OpSet>(bench: &mut Bench<D>, line: Line<'_>) -> Result<(), Stop> {
    match line.command {
        "table" => make_table(bench, line),
        "lookup" | "nearest-lookup" => look_up(bench, line),
        "nearest" => find_nearest(bench, line),
        "edits" => edit(bench, line),
        _ => hand(bench, line),
    }
}

fn make_table<D: OpSet>(bench: &mut Bench<D>, line: Line<'_>) -> Result<(), Stop> {
    let op = bench.made.op(&bench.ctx, line.first)?;
    match SymbolTable::new(bench.alloc, &bench.ctx, op) {
        Ok(_table) => bench.answer.put("made"),
        Err(refused) => put_refused(&mut bench.answer, refused)?,
    }
    Ok(())
}

/// Writes why a table refuses.
pub fn put_refused(answer: &mut Answer, refused: SymbolTableErr) -> Result<(), Stop> {
    match refused {
        SymbolTableErr::Memory => Err(Stop::Memory),
        refused => {
            answer.put_shown(&refused);
            Ok(())
        }
    }
}

fn look_up<D: OpSet>(bench: &mut Bench<D>, line: Line<'_>) -> Result<(), Stop> {
    let op = bench.made.op(&bench.ctx, line.first)?;
    let name = Identifier::try_new(bench.alloc, line.second)?;
    let mut tables = SymbolTableCollection::new(bench.alloc);
    let found = if line.command == "lookup" {
        tables.lookup_symbol_in_table(&bench.ctx, op, &name)
    } else {
        tables.lookup_symbol_in_nearest_table(&bench.ctx, op, &name)
    };
    match found {
        Ok(op) => bench.made.put_op(&mut bench.answer, op),
        Err(refused) => put_refused(&mut bench.answer, refused)?,
    }
    Ok(())
}

fn find_nearest<D: OpSet>(bench: &mut Bench<D>, line: Line<'_>) -> Result<(), Stop> {
    let op = bench.made.op(&bench.ctx, line.first)?;
    let table = nearest_symbol_table(&bench.ctx, op);
    bench.made.put_op(&mut bench.answer, table);
    Ok(())
}

fn edit<D: OpSet>(bench: &mut Bench<D>, line: Line<'_>) -> Result<(), Stop> {
    let mut edits = Vec::new(bench.alloc);
    for words in line.text.split("; ").filter(|words| !words.is_empty()) {
        edits.push(edit_of(&bench.made, words)?)?;
    }
    let replies = make_edits(bench.alloc, &mut bench.ctx, edits)?;
    for reply in &replies {
        put_reply(&mut bench.answer, reply)?;
    }
    Ok(())
}

/// Makes edits through the tables of a new collection.
pub fn make_edits<D: OpSet>(
    alloc: Global,
    ctx: &mut Context<D>,
    edits: Vec<SymbolEdit>,
) -> Result<Vec<Result<(), SymbolEditErr>>, Stop> {
    let mut tables = SymbolTableCollection::new(alloc);
    Ok(tables.apply_all(ctx, edits)?)
}

/// The edit that some words say: `insert OP OP`, with `before OP` behind it or not, `remove OP OP` or `erase OP OP`.
pub fn edit_of(made: &Made, words: &str) -> Result<SymbolEdit, Stop> {
    let (command, rest) = split_word(words);
    let (first, rest) = split_word(rest);
    let (second, point) = split_word(rest);
    let table = op_of(made, first)?;
    let op = op_of(made, second)?;
    match command {
        "insert" => {
            let point = point_of(made, point)?;
            Ok(SymbolEdit::Insert { table, op, point })
        }
        "remove" => Ok(SymbolEdit::Remove { table, op }),
        "erase" => Ok(SymbolEdit::Erase { table, op }),
        _ => Err(Stop::Refused),
    }
}

// The operation of a name, live or not.
fn op_of(made: &Made, name: &str) -> Result<Ptr<Operation>, Stop> {
    match made.node(name)? {
        IRNode::Operation(op) => Ok(op),
        _ => Err(Stop::Refused),
    }
}

/// The insertion point that some words say: none, `unset` or `before OP`.
pub fn point_of(made: &Made, words: &str) -> Result<Option<OpInsertionPoint>, Stop> {
    match split_word(words) {
        ("", _) => Ok(None),
        ("unset", _) => Ok(Some(OpInsertionPoint::Unset)),
        ("before", mark) => Ok(Some(OpInsertionPoint::BeforeOperation(op_of(made, mark)?))),
        _ => Err(Stop::Refused),
    }
}

/// Writes what an edit was answered.
pub fn put_reply(answer: &mut Answer, reply: &Result<(), SymbolEditErr>) -> Result<(), Stop> {
    match reply {
        Ok(()) => answer.put(" done;"),
        Err(SymbolEditErr::Table(SymbolTableErr::Memory)) => return Err(Stop::Memory),
        Err(refused) => {
            answer.put(" ");
            answer.put_shown(refused);
            answer.put(";");
        }
    }
    Ok(())
}

fn hand<D: OpSet>(bench: &mut Bench<D>, line: Line<'_>) -> Result<(), Stop> {
    let mut handed = bench.take_list()?;
    let op = bench.made.op(&bench.ctx, line.first)?;
    let last = op_of(&bench.made, line.second).ok();
    if !op_impls(&bench.ctx, op, Interface::SymbolTable) || op.num_regions(&bench.ctx) != 1 {
        return Err(Stop::Refused);
    }
    let found = hand_over(&bench.ctx, op, last, &mut handed);
    for node in &handed {
        bench.made.put_node(&mut bench.answer, *node);
    }
    bench.give_back(handed);
    bench.answer.put(if found.is_break() {
        " break"
    } else {
        " advance"
    });
    Ok(())
}

// Walks a table and notes what is called; breaks the walk at `last`, or for want of memory.
fn hand_over<C: TableLinks>(
    ctx: &C,
    op: Ptr<Operation>,
    last: Option<Ptr<Operation>>,
    handed: &mut Vec<IRNode>,
) -> WalkResult<u32>
    requires live { (C.look ctx.now).live (AnyNode.Operation op) ≡ true }
    requires table { C.is_table_of ctx.now op ≡ true }
    requires one_region { length ((C.look ctx.now).children (AnyNode.Operation op)) ≡ 1 }
{
    let note = |_ctx: &C, handed: &mut Vec<IRNode>, op: Ptr<Operation>| -> WalkResult<u32> {
        if handed.push(IRNode::Operation(op)).is_err() || last == Some(op) {
            return walk_break(1);
        }
        walk_advance()
    };
    walk_symbol_table(op, ctx, handed, note)
}
