//! What makes an operation a symbol, and what makes it a symbol table.
ghost use Rattle.std.specs.Prelude.{◌≡◌, Some, option_map};
ghost use Rattle.plir_data.specs.AttrSeen.{attr_view};
ghost use Rattle.plir_core.specs.declared.ptr.IRNode.{IRNode as AnyNode};
ghost use Rattle.plir_core.specs.ContextView.{IsLive, kind_of, op_at};
ghost use Rattle.plir_builtin.specs.Symbols.{is_symbol_kind, is_table_kind, name_in, name_held};

use plir_core::{Context, Interface, Operation, Ptr, kind_impls};
use plir_data::keys::ATTR_KEY_SYM_NAME;
use plir_data::{AttrObj, Identifier, OpSet};
use thiserror::Error;

/// A symbol has no name: no identifier stands under [`ATTR_KEY_SYM_NAME`].
#[derive(Clone, Copy, PartialEq, Eq, Debug, Error)]
#[error("Op implementing SymbolOpInterface does not have a symbol defined")]
pub struct SymbolOpInterfaceErr;

/// Whether an operation is a symbol.
pub fn is_symbol<D: OpSet>(ctx: &Context<D>, op: Ptr<Operation>) -> bool
    requires { IsLive ctx.now (AnyNode.Operation op) }
    ensures { result ≡ is_symbol_kind D.is_symbol (kind_of ctx.now op) }
{
    kind_impls::<D>(op.kind(ctx), Interface::Symbol)
}

/// Whether an operation is a symbol table.
pub(crate) fn is_table<D: OpSet>(ctx: &Context<D>, op: Ptr<Operation>) -> bool
    requires { IsLive ctx.now (AnyNode.Operation op) }
    ensures { result ≡ is_table_kind D.is_symbol_table (kind_of ctx.now op) }
{
    kind_impls::<D>(op.kind(ctx), Interface::SymbolTable)
}

/// The name in an attribute, if it is one.
pub fn name_in<D: OpSet>(attribute: &AttrObj<D>) -> Option<&Identifier>
    ensures { option_map (λ n. n.now) result ≡ name_in (Some (attr_view attribute.now)) }
{
    match attribute {
        AttrObj::Identifier(name) => Some(name.as_ref()),
        _ => None,
    }
}

/// The name of an operation, if it has one.
pub fn symbol_name<D: OpSet>(ctx: &Context<D>, op: Ptr<Operation>) -> Option<&Identifier>
    requires { IsLive ctx.now (AnyNode.Operation op) }
    ensures { option_map (λ n. n.now) result ≡ name_held (op_at ctx.now op) }
{
    let attribute = op.attributes(ctx).get(ATTR_KEY_SYM_NAME)?;
    name_in(attribute)
}
