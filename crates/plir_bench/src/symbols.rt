//! Tables of symbols, and edits through them.
ghost use Rattle.std.specs.Prelude.{◌≡◌, false, IfOk, OnOk};
ghost use Rattle.plir_builtin.specs.Agree.{Agrees};

use crate::building::{body_of, live_op, name_of};
use crate::kinds::BenchSet;
use crate::order::first_op;
use crate::passes::unused_op;
use crate::stop::Stop;
use plir_builtin::{SymbolEdit, SymbolTable, SymbolTableCollection};
use plir_core::{Context, Operation, Ptr};
use plir_data::Identifier;
use std::alloc::Global;

/// Makes a table of a module's symbols, so many times.
pub fn make_tables(
    alloc: Global,
    ctx: &Context<BenchSet>,
    root: Ptr<Operation>,
    rounds: u64,
) -> Result<u64, Stop> {
    let mut made = 0u64;
    for _ in 0..rounds {
        let _table = make_table(alloc, ctx, root)?;
        made = made.wrapping_add(1);
    }
    Ok(made)
}

/// Looks up the names of so many functions, each of them in so many rounds, and counts what is found. Each name is made
/// of its text before it is looked up.
pub fn look_up_texts(
    alloc: Global,
    ctx: &Context<BenchSet>,
    root: Ptr<Operation>,
    functions: u64,
    rounds: u64,
) -> Result<u64, Stop> {
    let table = make_table(alloc, ctx, root)?;
    let names = list_names(alloc, functions)?;
    let mut found = 0u64;
    for _ in 0..rounds {
        found = found.wrapping_add(count_made(alloc, &table, names.as_slice())?);
    }
    Ok(found)
}

// Makes each name anew and looks it up; counts what is found.
fn count_made(alloc: Global, table: &SymbolTable, names: &[Identifier]) -> Result<u64, Stop> {
    let mut found = 0u64;
    for name in names {
        let made = Identifier::try_new(alloc, name.as_str())?;
        if table.lookup(&made).is_some() {
            found = found.wrapping_add(1);
        }
    }
    Ok(found)
}

/// The same, where the names are made before.
pub fn look_up_names(
    alloc: Global,
    ctx: &Context<BenchSet>,
    root: Ptr<Operation>,
    functions: u64,
    rounds: u64,
) -> Result<u64, Stop> {
    let table = make_table(alloc, ctx, root)?;
    let names = list_names(alloc, functions)?;
    let mut found = 0u64;
    for _ in 0..rounds {
        found = found.wrapping_add(count_found(&table, names.as_slice()));
    }
    Ok(found)
}

fn list_names(alloc: Global, functions: u64) -> Result<Vec<Identifier>, Stop> {
    let mut names = Vec::new(alloc);
    for number in 0..functions {
        names.push(name_of(alloc, number)?)?;
    }
    Ok(names)
}

fn count_found(table: &SymbolTable, names: &[Identifier]) -> u64 {
    let mut found = 0u64;
    for name in names {
        if table.lookup(name).is_some() {
            found = found.wrapping_add(1);
        }
    }
    found
}

/// Erases the first operations of a module's body through one table of it, each of which nothing uses, and counts them.
pub fn erase_through_table(
    alloc: Global,
    ctx: &mut Context<BenchSet>,
    root: Ptr<Operation>,
    number: u64,
) -> Result<u64, Stop> {
    let ops = list_body(alloc, ctx, root, number)?;
    let mut table = make_table(alloc, ctx, root)?;
    erase_each(ctx, &mut table, root, ops.as_slice())?;
    Ok(ops.len() as u64)
}

fn make_table(
    alloc: Global,
    ctx: &Context<BenchSet>,
    root: Ptr<Operation>,
) -> Result<SymbolTable, Stop>
    ensures of_root { IfOk result (λ t. t.op ≡ root) }
    ensures agrees { IfOk result (Agrees (λ k. false) (λ k. false) ctx.now) }
{
    live_op(ctx, root)?;
    Ok(SymbolTable::new(alloc, ctx, root)?)
}

fn erase_each(
    ctx: &mut Context<BenchSet>,
    table: &mut SymbolTable,
    root: Ptr<Operation>,
    ops: &[Ptr<Operation>],
) -> Result<(), Stop>
    requires of_root { table.old.op ≡ root }
    requires agrees { Agrees (λ k. false) (λ k. false) ctx.old table.old }
{
    for op in ops {
        erase_symbol(ctx, table, root, *op)?;
    }
    Ok(())
}

// Erases a function that nothing uses.
fn erase_symbol(
    ctx: &mut Context<BenchSet>,
    table: &mut SymbolTable,
    root: Ptr<Operation>,
    op: Ptr<Operation>,
) -> Result<(), Stop>
    requires of_root { table.old.op ≡ root }
    requires agrees { Agrees (λ k. false) (λ k. false) ctx.old table.old }
    ensures of_root { OnOk result (table.new.op ≡ root) }
    ensures agrees { OnOk result (Agrees (λ k. false) (λ k. false) ctx.new table.new) }
{
    live_op(ctx, root)?;
    unused_op(ctx, op)?;
    table.erase(ctx, op)?;
    Ok(())
}

/// Erases the first operations of a module's body by one list of edits, and counts those that are done.
pub fn erase_by_list(
    alloc: Global,
    ctx: &mut Context<BenchSet>,
    root: Ptr<Operation>,
    number: u64,
) -> Result<u64, Stop> {
    let ops = list_body(alloc, ctx, root, number)?;
    let mut edits = Vec::new(alloc);
    for op in &ops {
        edits.push(SymbolEdit::Erase {
            table: root,
            op: *op,
        })?;
    }
    let mut tables = SymbolTableCollection::new(alloc);
    let replies = tables.apply_all(ctx, edits)?;
    Ok(replies.iter().filter(|reply| reply.is_ok()).count() as u64)
}

// At most so many operations of a module's body, from the first on.
fn list_body(
    alloc: Global,
    ctx: &Context<BenchSet>,
    root: Ptr<Operation>,
    number: u64,
) -> Result<Vec<Ptr<Operation>>, Stop> {
    let body = body_of(ctx, root)?;
    let mut ops = Vec::new(alloc);
    let mut at = first_op(ctx, body);
    for _ in 0..number {
        let Some(op) = at else {
            break;
        };
        ops.push(op)?;
        at = op.get_next(ctx);
    }
    Ok(ops)
}
