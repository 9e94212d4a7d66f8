//! The interface of operations that are symbols.
ghost use Rattle.std.specs.Prelude.{◌≡◌, ◌↔◌, Some, IsOk, IfErr, OnOk, OnErr};
ghost use Rattle.plir_core.specs.declared.ptr.IRNode.{IRNode as AnyNode};
ghost use Rattle.plir_core.specs.ContextView.{IsLive, op_at};
ghost use Rattle.plir_core.specs.WellFormed.{IsWellFormed};
ghost use Rattle.plir_iface.specs.Verdict.{IsRefusal};
ghost use Rattle.plir_builtin.specs.Symbols.{HasSymbolName, name_held, with_symbol_name};

use crate::symbols::{SymbolOpInterfaceErr, symbol_name};
use plir_core::{Context, Operation, Ptr};
use plir_data::keys::ATTR_KEY_SYM_NAME;
use plir_data::{AttrObj, Identifier, IdentifierAttr, Memory, OpSet, VerifyErr};
use plir_iface::{Op, accept_if};
use std::alloc::Global;

/// Puts a name under [`ATTR_KEY_SYM_NAME`], in place of what is there. After a refusal all is as before.
fn put_symbol_name<D: OpSet>(
    alloc: Global,
    ctx: &mut Context<D>,
    op: Ptr<Operation>,
    name: Identifier,
) -> Result<(), Memory>
    requires { IsLive ctx.old (AnyNode.Operation op) }
    ensures ok { OnOk result (ctx.new ≡ with_symbol_name ctx.old op name) }
    ensures err { OnErr result (ctx.new ≡ ctx.old) }
    ensures whole { IsWellFormed D.attr_handles ctx.new }
{
    ctx.stands();
    match Identifier::try_new(alloc, ATTR_KEY_SYM_NAME) {
        Ok(key) => op.set_attr(ctx, key, AttrObj::Identifier(IdentifierAttr::new(name))),
        Err(_) => Err(Memory),
    }
}

/// Operations that are symbols: they have a name, an identifier under [`ATTR_KEY_SYM_NAME`].
pub trait SymbolOpInterface<D: OpSet>: Op<D> {
    /// The name.
    final fn get_symbol_name<'a>(&self, ctx: &'a Context<D>) -> &'a Identifier
        requires live { IsLive ctx.now (AnyNode.Operation (Self.pointer self.now)) }
        requires rule { HasSymbolName ctx.now (Self.pointer self.now) }
        ensures value { name_held (op_at ctx.now (Self.pointer self.now)) ≡ Some result.now }
        ensures whole { IsWellFormed D.attr_handles ctx.now }
    {
        ctx.stands();
        symbol_name(ctx, self.get_operation()).unwrap()
    }

    /// Gives the operation a name in place of the one it has. A table that knows it by that one does not hear of it: of
    /// operations in a table that is cached, names are changed by taking them out and inserting them again. After a
    /// refusal all is as before.
    final fn set_symbol_name(
        &self,
        alloc: Global,
        ctx: &mut Context<D>,
        name: Identifier,
    ) -> Result<(), Memory>
        requires { IsLive ctx.old (AnyNode.Operation (Self.pointer self.now)) }
        ensures ok { OnOk result (ctx.new ≡ with_symbol_name ctx.old (Self.pointer self.now) name) }
        ensures err { OnErr result (ctx.new ≡ ctx.old) }
        ensures whole { IsWellFormed D.attr_handles ctx.new }
    {
        put_symbol_name(alloc, ctx, self.get_operation(), name)
    }

    /// Accepts exactly where the operation has a name.
    final fn verify(&self, ctx: &Context<D>) -> Result<(), VerifyErr<SymbolOpInterfaceErr>>
        requires { IsLive ctx.now (AnyNode.Operation (Self.pointer self.now)) }
        ensures ok { IsOk result ↔ HasSymbolName ctx.now (Self.pointer self.now) }
        ensures refused { IfErr result (IsRefusal ctx.now (Self.pointer self.now) (λ _. Unit {0})) }
        ensures whole { IsWellFormed D.attr_handles ctx.now }
    {
        let op = self.get_operation();
        accept_if(
            ctx,
            op,
            symbol_name(ctx, op).is_some(),
            SymbolOpInterfaceErr,
        )
    }
}
