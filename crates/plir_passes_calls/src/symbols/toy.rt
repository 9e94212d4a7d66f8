//! A toy op set: own kinds of operations, and nothing else.
ghost use Rattle.std.specs.Prelude.{◌≡◌, ◌<◌, IfOk, OnErr, length, map, option_map};
ghost use Rattle.plir_data.specs.Dictionary.{dict_get};
ghost use Rattle.plir_core.specs.ContextView.{IsLive, attributes_of, op_at};
ghost use Rattle.plir_core.specs.declared.ptr.IRNode.{IRNode as AnyNode};
ghost use Rattle.plir_builtin.specs.Symbols.{name_in};
ghost use Rattle.plir_symbols.specs.SymbolNames.{is_private_in, names_in};
ghost use Rattle.plir_passes_calls.specs.CallingKinds.{callee_key, callees, is_marked};

use plir_builtin::name_in;
use plir_core::{Context, Operation, Ptr};
use plir_data::{Identifier, KindSet, Memory, NeverRefused, OpSet, OwnKind};
use plir_symbols::SymbolNameKind;
use std::alloc::Global;

/// The key that the name of a symbol stands under that an operation uses.
pub const ATTR_KEY_CALLEE: &'static str = "toy_callee";

/// The key that something stands under in a private symbol.
pub const ATTR_KEY_PRIVATE: &'static str = "toy_private";

/// The toy's kinds of operations.
#[derive(Clone, Copy, PartialEq, Eq, Debug)]
pub enum ToyKind {
    /// Calls a function.
    Call,
    /// Ends a block.
    Yield,
}

impl OwnKind for ToyKind {
    ghost use Rattle.std.specs.Prelude.{false};
    ghost use Rattle.plir_passes_calls.specs.CallingKinds.{is_yield, is_call, id_of};

    type Err = NeverRefused;

    ghost is_terminator = { is_yield };

    ghost is_symbol = { λ _. false };

    ghost is_symbol_table = { λ _. false };

    ghost is_symbol_user = { is_call };

    ghost id = { id_of };

    fn is_terminator(self) -> bool {
        matches!(self, ToyKind::Yield)
    }

    fn is_symbol(self) -> bool {
        false
    }

    fn is_symbol_table(self) -> bool {
        false
    }

    fn is_symbol_user(self) -> bool {
        matches!(self, ToyKind::Call)
    }

    fn id(self) -> &'static str {
        match self {
            ToyKind::Call => "toy.call",
            ToyKind::Yield => "toy.yield",
        }
    }
}

// The name that an operation uses, if it uses one.
fn callee<D: OpSet>(ctx: &Context<D>, op: Ptr<Operation>) -> Option<&Identifier>
    requires { IsLive ctx.now (AnyNode.Operation op) }
    ensures { option_map (λ n. n.now) result ≡ name_in (dict_get (attributes_of ctx.now op) callee_key) }
{
    name_in(op.attributes(ctx).get(ATTR_KEY_CALLEE)?)
}

// Whether something stands under the key of private symbols.
fn is_marked<D: OpSet>(ctx: &Context<D>, op: Ptr<Operation>) -> bool
    requires { IsLive ctx.now (AnyNode.Operation op) }
    ensures { result ≡ is_private_in is_marked (op_at ctx.now op) }
{
    op.attributes(ctx).get(ATTR_KEY_PRIVATE).is_some()
}

// How many names an operation uses: one at most.
fn num_callees<D: OpSet>(ctx: &Context<D>, op: Ptr<Operation>) -> usize
    requires { IsLive ctx.now (AnyNode.Operation op) }
    ensures { result ≡ length (names_in callees (op_at ctx.now op)) }
{
    match callee(ctx, op) {
        Some(_) => 1,
        None => 0,
    }
}

// The names that an operation uses.
fn list_callees<D: OpSet>(
    alloc: Global,
    ctx: &Context<D>,
    op: Ptr<Operation>,
) -> Result<Vec<&Identifier>, Memory>
    requires { IsLive ctx.now (AnyNode.Operation op) }
    ensures names { IfOk result (λ v. map (λ n. n.now) v.items ≡ names_in callees (op_at ctx.now op)) }
    ensures refused { OnErr result (0 < length (names_in callees (op_at ctx.now op))) }
{
    let mut names = Vec::new(alloc);
    match callee(ctx, op) {
        Some(name) => {
            names.push(name)?;
            Ok(names)
        }
        None => Ok(names),
    }
}

impl SymbolNameKind<KindSet<ToyKind>> for ToyKind {
    ghost names_used = { callees };

    ghost is_private = { is_marked };

    fn num_used_names(ctx: &Context<KindSet<ToyKind>>, op: Ptr<Operation>) -> usize {
        num_callees(ctx, op)
    }

    fn used_names(
        alloc: Global,
        ctx: &Context<KindSet<ToyKind>>,
        op: Ptr<Operation>,
    ) -> Result<Vec<&Identifier>, Memory> {
        list_callees(alloc, ctx, op)
    }

    fn is_private(ctx: &Context<KindSet<ToyKind>>, op: Ptr<Operation>) -> bool {
        is_marked(ctx, op)
    }
}
