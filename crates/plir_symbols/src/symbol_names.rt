//! Which names operations use, and which symbols are private.
ghost use Rattle.std.specs.Prelude.{◌≡◌, ◌<◌, ℕ, Bool, IfOk, List, OnErr, length, map};
ghost use Rattle.plir_core.specs.declared.ptr.IRNode.{IRNode as AnyNode};
ghost use Rattle.plir_core.specs.Contents.{OpView};
ghost use Rattle.plir_core.specs.ContextView.{IsLive, op_at};
ghost use Rattle.plir_symbols.specs.SymbolNames.{is_private_in, names_in};

use plir_core::{Context, Operation, Ptr};
use plir_data::{Identifier, KindSet, Memory, OpSet, OwnKind};
use std::alloc::Global;

/// An op set that tells which names its operations use, and which of its symbols are private, by what an operation
/// holds: what is erased or moved elsewhere changes neither.
pub trait SymbolNames: OpSet {
    // The names that an operation uses, by what it holds.
    ghost names_used: { OpView Self.Kind Self.Attr → List (List ℕ) };

    // Whether a symbol is private, by what it holds.
    ghost is_private: { OpView Self.Kind Self.Attr → Bool };

    /// How many names an operation uses.
    fn num_used_names(ctx: &Context<Self>, op: Ptr<Operation>) -> usize
        requires { IsLive ctx.now (AnyNode.Operation op) }
        ensures { result ≡ length (names_in names_used (op_at ctx.now op)) };

    /// The names that an operation uses, in their order, each as often as it is used. Refused only where there is one,
    /// for want of memory for the list.
    fn used_names(
        alloc: Global,
        ctx: &Context<Self>,
        op: Ptr<Operation>,
    ) -> Result<Vec<&Identifier>, Memory>
        requires { IsLive ctx.now (AnyNode.Operation op) }
        ensures names { IfOk result (λ v. map (λ n. n.now) v.items ≡ names_in names_used (op_at ctx.now op)) }
        ensures refused { OnErr result (0 < length (names_in names_used (op_at ctx.now op))) };

    /// Whether a symbol is private: nothing outside the table that it stands in uses its name, so that it may go where
    /// nothing in the table does.
    fn is_private(ctx: &Context<Self>, op: Ptr<Operation>) -> bool
        requires { IsLive ctx.now (AnyNode.Operation op) }
        ensures { result ≡ is_private_in is_private (op_at ctx.now op) };
}

/// Own kinds of operations that tell which names are used and which symbols are private, in an op set `D`: what
/// [`SymbolNames`] is for the op set of such kinds alone, `KindSet<Self>`.
pub trait SymbolNameKind<D: OpSet>: OwnKind {
    // The names that an operation uses, by what it holds.
    ghost names_used: { OpView D.Kind D.Attr → List (List ℕ) };

    // Whether a symbol is private, by what it holds.
    ghost is_private: { OpView D.Kind D.Attr → Bool };

    /// How many names an operation uses.
    fn num_used_names(ctx: &Context<D>, op: Ptr<Operation>) -> usize
        requires { IsLive ctx.now (AnyNode.Operation op) }
        ensures { result ≡ length (names_in names_used (op_at ctx.now op)) };

    /// The names that an operation uses, in their order, each as often as it is used. Refused only where there is one,
    /// for want of memory for the list.
    fn used_names(
        alloc: Global,
        ctx: &Context<D>,
        op: Ptr<Operation>,
    ) -> Result<Vec<&Identifier>, Memory>
        requires { IsLive ctx.now (AnyNode.Operation op) }
        ensures names { IfOk result (λ v. map (λ n. n.now) v.items ≡ names_in names_used (op_at ctx.now op)) }
        ensures refused { OnErr result (0 < length (names_in names_used (op_at ctx.now op))) };

    /// Whether a symbol is private, as [`SymbolNames::is_private`] says.
    fn is_private(ctx: &Context<D>, op: Ptr<Operation>) -> bool
        requires { IsLive ctx.now (AnyNode.Operation op) }
        ensures { result ≡ is_private_in is_private (op_at ctx.now op) };
}

impl<K: OwnKind + SymbolNameKind<KindSet<K>>> SymbolNames for KindSet<K> {
    ghost names_used = { K.names_used };

    ghost is_private = { K.is_private };

    /// As the kinds say.
    fn num_used_names(ctx: &Context<Self>, op: Ptr<Operation>) -> usize {
        <K as SymbolNameKind<KindSet<K>>>::num_used_names(ctx, op)
    }

    /// As the kinds say.
    fn used_names(
        alloc: Global,
        ctx: &Context<Self>,
        op: Ptr<Operation>,
    ) -> Result<Vec<&Identifier>, Memory> {
        <K as SymbolNameKind<KindSet<K>>>::used_names(alloc, ctx, op)
    }

    /// As the kinds say.
    fn is_private(ctx: &Context<Self>, op: Ptr<Operation>) -> bool {
        <K as SymbolNameKind<KindSet<K>>>::is_private(ctx, op)
    }
}
