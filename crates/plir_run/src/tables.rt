//! How the operations of a script come into the tables of modules and out of them.
ghost use Rattle.std.specs.Prelude.{IsTrue};
ghost use Rattle.plir_core.specs.ContextView.{IsLive, IsAncestor};
ghost use Rattle.plir_core.specs.Unused.{IsUnusedOutside};
ghost use Rattle.plir_core.specs.declared.ptr.IRNode.{IRNode as AnyNode};
ghost use Rattle.plir_run.specs.Agreement.{TablesAgree};

use crate::stop::Stop;
use plir_builtin::SymbolTableCollection;
use plir_core::{Context, IRNode, Operation, Ptr};
use plir_data::OpSet;

/// Puts an operation last into a module, where its name must be new.
pub fn insert<D: OpSet>(
    ctx: &mut Context<D>,
    tables: &mut SymbolTableCollection,
    target: Ptr<Operation>,
    op: Ptr<Operation>,
) -> Result<(), Stop>
    requires target_live { IsLive ctx.old (AnyNode.Operation target) }
    requires op_live { IsLive ctx.old (AnyNode.Operation op) }
    requires not_above { IsAncestor ctx.old (AnyNode.Operation op) (AnyNode.Operation target) → ⊥ }
    requires agree { TablesAgree D.OpSet ctx.old tables.old }
    ensures agree { TablesAgree D.OpSet ctx.new tables.new }
{
    let table = tables.get_symbol_table(ctx, target)?;
    table.insert(ctx, op, None)?;
    Ok(())
}

/// Takes an operation out of a module, and erases it with all that stands in it.
pub fn erase<D: OpSet>(
    ctx: &mut Context<D>,
    tables: &mut SymbolTableCollection,
    target: Ptr<Operation>,
    op: Ptr<Operation>,
) -> Result<(), Stop>
    requires target_live { IsLive ctx.old (AnyNode.Operation target) }
    requires agree { TablesAgree D.OpSet ctx.old tables.old }
    ensures agree { TablesAgree D.OpSet ctx.new tables.new }
{
    if !is_erasable(ctx, op) {
        return Err(Stop::Refused);
    }
    let table = tables.get_symbol_table(ctx, target)?;
    table.erase(ctx, op)?;
    Ok(())
}

// Whether an operation is live, and what it defines is used in it alone.
fn is_erasable<D: OpSet>(ctx: &Context<D>, op: Ptr<Operation>) -> bool
    ensures live { IsTrue result → IsLive ctx.now (AnyNode.Operation op) }
    ensures unused { IsTrue result → IsUnusedOutside ctx.now (AnyNode.Operation op) }
{
    op.is_live(ctx) && IRNode::Operation(op).is_unused_outside(ctx)
}
