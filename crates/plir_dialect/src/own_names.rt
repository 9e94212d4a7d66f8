//! Which names operations of own kinds use, and which of their symbols are private.
ghost use Rattle.std.specs.Prelude.{◌≡◌, ◌<◌, ℕ, Bool, IfOk, List, OnErr, length, map};
ghost use Rattle.plir_core.specs.declared.ptr.IRNode.{IRNode as AnyNode};
ghost use Rattle.plir_core.specs.Contents.{OpView};
ghost use Rattle.plir_core.specs.ContextView.{IsLive, op_at};
ghost use Rattle.plir_symbols.specs.SymbolNames.{is_private_in, names_in};

use crate::dialect::Dialect;
use crate::one_of::OneOf;
use crate::own_attr::OwnAttr;
use crate::own_type::OwnType;
use plir_core::{Context, Operation, Ptr};
use plir_data::{Identifier, Memory, NoMeaning, OpKind, OpSet, OwnKind};
use plir_symbols::{SymbolNames, is_marked_private, names_held, num_names_held};
use std::alloc::Global;

/// Own kinds of operations that tell which names are used and which symbols are private, in an op set `D` that they are
/// part of, by what an operation holds. Kinds that don't look at attributes of that set say it for each `D`, and can be
/// joined with others.
pub trait OwnNames<D: OpSet>: OwnKind {
    // The names that an operation of the kind uses, by what it holds.
    ghost names_used: { Self → OpView D.Kind D.Attr → List (List ℕ) };

    // Whether a symbol of the kind is private, by what it holds.
    ghost is_private: { Self → OpView D.Kind D.Attr → Bool };

    /// How many names an operation uses.
    fn num_used_names(self, ctx: &Context<D>, op: Ptr<Operation>) -> usize
        requires { IsLive ctx.now (AnyNode.Operation op) }
        ensures { result ≡ length (names_in (names_used self) (op_at ctx.now op)) };

    /// The names that an operation uses, in their order, each as often as it is used. Refused only where there is one,
    /// for want of memory for the list.
    fn used_names(
        self,
        alloc: Global,
        ctx: &Context<D>,
        op: Ptr<Operation>,
    ) -> Result<Vec<&Identifier>, Memory>
        requires { IsLive ctx.now (AnyNode.Operation op) }
        ensures names { IfOk result (λ v. map (λ n. n.now) v.items ≡ names_in (names_used self) (op_at ctx.now op)) }
        ensures refused { OnErr result (0 < length (names_in (names_used self) (op_at ctx.now op))) };

    /// Whether a symbol is private.
    fn is_private(self, ctx: &Context<D>, op: Ptr<Operation>) -> bool
        requires { IsLive ctx.now (AnyNode.Operation op) }
        ensures { result ≡ is_private_in (is_private self) (op_at ctx.now op) };
}

/// Own kinds of operations that tell the names that are used and the symbols that are private as builtin operations do:
/// so they are [`OwnNames`] in each op set, without a word more.
pub trait NamesAsBuiltin: OwnKind {}

// No operation is of this kind.
impl NamesAsBuiltin for NoMeaning {}

impl<D: OpSet, K: NamesAsBuiltin> OwnNames<D> for K {
    ghost use Rattle.plir_symbols.specs.BuiltinNames.{is_marked_private, names_held};

    ghost names_used = { λ _. names_held };

    ghost is_private = { λ _. is_marked_private };

    fn num_used_names(self, ctx: &Context<D>, op: Ptr<Operation>) -> usize {
        num_names_held(ctx, op)
    }

    fn used_names(
        self,
        alloc: Global,
        ctx: &Context<D>,
        op: Ptr<Operation>,
    ) -> Result<Vec<&Identifier>, Memory> {
        names_held(alloc, ctx, op)
    }

    fn is_private(self, ctx: &Context<D>, op: Ptr<Operation>) -> bool {
        is_marked_private(ctx, op)
    }
}

impl<D: OpSet, A: OwnNames<D>, B: OwnNames<D>> OwnNames<D> for OneOf<A, B> {
    ghost use Rattle.plir_dialect.specs.Sides.{at_side};

    ghost names_used = { at_side A.names_used B.names_used };

    ghost is_private = { at_side A.is_private B.is_private };

    fn num_used_names(self, ctx: &Context<D>, op: Ptr<Operation>) -> usize {
        match self {
            OneOf::First(kind) => kind.num_used_names(ctx, op),
            OneOf::Second(kind) => kind.num_used_names(ctx, op),
        }
    }

    fn used_names(
        self,
        alloc: Global,
        ctx: &Context<D>,
        op: Ptr<Operation>,
    ) -> Result<Vec<&Identifier>, Memory> {
        match self {
            OneOf::First(kind) => kind.used_names(alloc, ctx, op),
            OneOf::Second(kind) => kind.used_names(alloc, ctx, op),
        }
    }

    fn is_private(self, ctx: &Context<D>, op: Ptr<Operation>) -> bool {
        match self {
            OneOf::First(kind) => kind.is_private(ctx, op),
            OneOf::Second(kind) => kind.is_private(ctx, op),
        }
    }
}

/// An operation of an own kind uses the names that its kind tells, and a builtin one those that builtin operations use.
impl<K: OwnNames<Dialect<K, A, T>>, A: OwnAttr, T: OwnType> SymbolNames for Dialect<K, A, T> {
    ghost use Rattle.plir_symbols.specs.BuiltinNames.{is_marked_private, names_held};
    ghost use Rattle.plir_dialect.specs.OwnKinds.{by_kind};

    ghost names_used = { by_kind K.names_used names_held };

    ghost is_private = { by_kind K.is_private is_marked_private };

    fn num_used_names(ctx: &Context<Self>, op: Ptr<Operation>) -> usize {
        match op.kind(ctx) {
            OpKind::Own(kind) => kind.num_used_names(ctx, op),
            _ => num_names_held(ctx, op),
        }
    }

    fn used_names(
        alloc: Global,
        ctx: &Context<Self>,
        op: Ptr<Operation>,
    ) -> Result<Vec<&Identifier>, Memory> {
        match op.kind(ctx) {
            OpKind::Own(kind) => kind.used_names(alloc, ctx, op),
            _ => names_held(alloc, ctx, op),
        }
    }

    fn is_private(ctx: &Context<Self>, op: Ptr<Operation>) -> bool {
        match op.kind(ctx) {
            OpKind::Own(kind) => kind.is_private(ctx, op),
            _ => is_marked_private(ctx, op),
        }
    }
}
