//! The interfaces that kinds of operations implement.
ghost use Rattle.std.specs.Prelude.{◌≡◌, IfSome};
ghost use Rattle.plir_core.specs.{ContextView.IsLive, ContextView.kind_of, Interfaces.implements};
ghost use Rattle.plir_core.specs.{WellFormed.IsWellFormed, declared.ptr.IRNode.IRNode};

use crate::context::Context;
use crate::ptr::{Operation, Ptr};
use plir_data::{OpKind, OpSet};

/// What an operation may be asked to be.
#[derive(Clone, Copy, PartialEq, Eq, Hash, Debug)]
pub enum Interface {
    /// It ends its block.
    Terminator,
    /// It has a name in a symbol table.
    Symbol,
    /// It names the symbols in its body.
    SymbolTable,
    /// It refers to symbols.
    SymbolUser,
}

/// Whether an operation of the kind implements the interface.
pub fn kind_impls<D: OpSet>(kind: OpKind<D::Kind>, interface: Interface) -> bool
    ensures { result ≡ implements D.is_terminator D.is_symbol D.is_symbol_table D.is_symbol_user kind interface }
{
    match kind {
        OpKind::Module => matches!(interface, Interface::Symbol | Interface::SymbolTable),
        OpKind::Func => matches!(interface, Interface::Symbol),
        OpKind::Constant | OpKind::ForwardRef => false,
        OpKind::Own(own) => match interface {
            Interface::Terminator => D::is_terminator(own),
            Interface::Symbol => D::is_symbol(own),
            Interface::SymbolTable => D::is_symbol_table(own),
            Interface::SymbolUser => D::is_symbol_user(own),
        },
    }
}

/// Whether an operation implements an interface: a module is a symbol and a symbol table, a function is a symbol,
/// no other builtin kind implements any, and of own kinds the op set tells.
pub fn op_impls<D: OpSet>(ctx: &Context<D>, op: Ptr<Operation>, interface: Interface) -> bool
    requires { IsLive ctx.now (IRNode.Operation op) }
    ensures value { IfSome (kind_of ctx.now op) (λ k. result ≡ implements D.is_terminator D.is_symbol D.is_symbol_table
        D.is_symbol_user k interface) }
    ensures whole { IsWellFormed D.attr_handles ctx.now }
{
    kind_impls::<D>(op.kind(ctx), interface)
}
