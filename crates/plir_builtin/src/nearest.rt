//! The nearest table at or above an operation.
ghost use Rattle.std.specs.Prelude.{IfSome};
ghost use Rattle.plir_core.specs.declared.ptr.IRNode.{IRNode as AnyNode};
ghost use Rattle.plir_core.specs.ContextView.{IsLive};
ghost use Rattle.plir_builtin.specs.Nearest.{IsNearest};

use crate::symbols::is_table;
use plir_core::{Context, Operation, Ptr};
use plir_data::OpSet;

/// The first of an operation, its parent operation and so on that is a symbol table.
pub fn nearest_symbol_table<D: OpSet>(
    ctx: &Context<D>,
    from: Ptr<Operation>,
) -> Option<Ptr<Operation>>
    requires { IsLive ctx.now (AnyNode.Operation from) }
    ensures nearest { IsNearest D.is_symbol_table ctx.now from result }
    ensures live { IfSome result (λ t. IsLive ctx.now (AnyNode.Operation t)) }
{
    ctx.stands();
    let mut at = Some(from);
    'up: while let Some(op) = at {
        if is_table(ctx, op) {
            return Some(op);
        }
        at = op.get_parent_op(ctx);
    }
    None
}
