//! One collection that serves while modules are made: that its tables agree is carried from call to call, and never
//! tested.
ghost use Rattle.plir_builtin.specs.Agree.{AllAgree, AreGivenOut};

use crate::builtin::link_set::LinkSet;
use crate::builtin::many::numbered;
use plir_builtin::laws::{new_nodes_keep_agreement, no_tables_agree};
use plir_builtin::{ModuleOp, SymbolEdit, SymbolTableCollection};
use plir_core::{Context, Operation, Ptr};
use plir_data::{Identifier, OpSet};
use plir_iface::Op;
use plir_scripts::{InContext, Stop, in_new_context};
use std::alloc::Global;

// Makes a module, and inserts it through a collection; answers whether it was inserted.
fn add_module<D: OpSet>(
    alloc: Global,
    ctx: &mut Context<D>,
    tables: &mut SymbolTableCollection,
    table: Ptr<Operation>,
    name: Identifier,
) -> Result<bool, Stop>
    requires agree { AllAgree D.is_symbol D.is_symbol_table ctx.old tables.old }
    requires given { AreGivenOut ctx.old tables.old }
    ensures agree { AllAgree D.is_symbol D.is_symbol_table ctx.new tables.new }
    ensures given { AreGivenOut ctx.new tables.new }
{
    ctx.stands();
    let made = ModuleOp::new(alloc, ctx, name);
    new_nodes_keep_agreement(ctx);
    let module = made?;
    let mut edits = Vec::new(alloc);
    edits.push(SymbolEdit::Insert {
        table,
        op: Op::<D>::get_operation(&module),
        point: None,
    })?;
    let replies = tables.apply_all(ctx, edits)?;
    Ok(replies.iter().all(|reply| reply.is_ok()))
}

// Which of three modules were inserted into one, and how many nodes are live then.
type Inserted = (bool, bool, bool, u32);

// Makes a module and inserts three into it, of which the third has the name of the first.
fn fill<D: OpSet>(alloc: Global, ctx: &mut Context<D>) -> Result<Inserted, Stop> {
    let root = ModuleOp::new(alloc, ctx, numbered(alloc, "m", 0)?)?;
    let root = Op::<D>::get_operation(&root);
    no_tables_agree(ctx);
    let mut tables = SymbolTableCollection::new(alloc);
    let first = add_module(alloc, ctx, &mut tables, root, numbered(alloc, "m", 1)?)?;
    let second = add_module(alloc, ctx, &mut tables, root, numbered(alloc, "m", 2)?)?;
    let third = add_module(alloc, ctx, &mut tables, root, numbered(alloc, "m", 1)?)?;
    Ok((first, second, third, ctx.num_live()))
}

// Does so in a new context.
#[derive(Drop)]
struct Fills {
    alloc: Global,
}

impl<D: OpSet> InContext<D> for Fills {
    type Answer = Result<Inserted, Stop>;

    fn run(self, ctx: &mut Context<D>) -> Result<Inserted, Stop> {
        fill(self.alloc, ctx)
    }
}

/// Whether one collection serves while modules are made.
pub fn serves(alloc: Global) -> Result<bool, Stop> {
    let found = in_new_context::<LinkSet, _>(alloc, Fills { alloc })?;
    Ok(found == (true, true, false, 12))
}
