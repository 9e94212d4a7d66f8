//! What a user of the library adds to it: operation kinds, attributes and types of their own.

ghost use Rattle.std.specs.Prelude.{◌≡◌, ℕ, List, Bool, true, Option, Some, IfOk, IfErr, OnOk, IsTrue, ◌↔◌, IsOk};
ghost use Rattle.std.specs.Prelude.{Contains, All, option_map};
ghost use Rattle.plir_data.specs.OwnParts.{Part, held_in};
ghost use Rattle.plir_data.specs.Types.{TypeView, AllLive};
ghost use Rattle.plir_data.specs.Verify.{IsVerdict};

use crate::location::VerifyErr;
use crate::memory::Memory;
use crate::own_text::OwnText;
use crate::type_store::TypeStore;
use crate::types::TypeHandle;
use std::alloc::Global;
use std::error::Error;
use std::fmt::Debug;
use std::hash::Hash;

/// The kind of an operation: one of the builtin ones, or one of the user's own.
#[derive(Clone, Copy, PartialEq, Eq, Debug)]
pub enum OpKind<K> {
    Module,
    Func,
    Constant,
    ForwardRef,
    Own(K),
}

/// The user's own operation kinds, attributes and types, and what the library asks of them.
///
/// Each query answers by its arguments and the types of the context alone; only those that take an
/// allocator may answer `Memory`, and only where a growth was refused.
pub trait OpSet: Sized {
    /// Own operation kinds.
    type Kind: Copy;

    /// Own attributes.
    type Attr: Eq + Hash + Debug + Drop;

    /// Own types.
    type Ty: Eq + Hash + Debug + Drop;

    /// Refusals of own verifiers.
    type Err: Error;

    // What each query answers.
    ghost is_terminator: { Self.Kind → Bool };

    ghost is_symbol: { Self.Kind → Bool };

    ghost is_symbol_table: { Self.Kind → Bool };

    ghost is_symbol_user: { Self.Kind → Bool };

    ghost kind_id: { Self.Kind → List ℕ };

    ghost attr_id: { Self.Attr → List ℕ };

    ghost attr_text: { Self.Attr → List Part };

    ghost attr_type: { Self.Attr → Option ℕ };

    ghost attr_outlined: { Self.Attr → Bool };

    ghost type_id: { Self.Ty → List ℕ };

    ghost type_body_text: { Self.Ty → List Part };

    ghost function_sig: { Self.Ty → Option (List ℕ × List ℕ) };

    // Whether an own attribute is accepted, and the refusals that may be given for one that is not.
    ghost attr_is_valid: { List (TypeView Self.Ty) → Self.Attr → Bool };

    ghost attr_refusal: { List (TypeView Self.Ty) → Self.Attr → Self.Err → Type 0 };

    // The type handles that an own attribute and an own type hold.
    ghost attr_handles: { Self.Attr → List ℕ };

    ghost type_handles: { Self.Ty → List ℕ };

    /// Whether an operation of the kind ends its block.
    fn is_terminator(kind: Self::Kind) -> bool
        ensures { result ≡ is_terminator kind };

    /// Whether an operation of the kind is a symbol.
    fn is_symbol(kind: Self::Kind) -> bool
        ensures { result ≡ is_symbol kind };

    /// Whether an operation of the kind is a symbol table.
    fn is_symbol_table(kind: Self::Kind) -> bool
        ensures { result ≡ is_symbol_table kind };

    /// Whether an operation of the kind uses symbols.
    fn is_symbol_user(kind: Self::Kind) -> bool
        ensures { result ≡ is_symbol_user kind };

    /// The id of the kind, as `dialect.name`.
    fn kind_id(kind: Self::Kind) -> &'static str
        ensures { result.now ≡ kind_id kind };

    /// The id of an own attribute, as `dialect.name`.
    fn attr_id(attr: &Self::Attr) -> &'static str
        ensures { result.now ≡ attr_id attr.now };

    /// The text of an own attribute behind its id, in parts; there may be none.
    fn attr_text(alloc: Global, attr: &Self::Attr) -> Result<OwnText, Memory>
        ensures { IfOk result (λ parts. parts ≡ attr_text attr.now) };

    /// The type of an own attribute that has one.
    fn attr_type(attr: &Self::Attr) -> Option<TypeHandle>
        ensures { result ≡ attr_type attr.now };

    /// Whether an own attribute is left out of the text of an operation.
    fn attr_outlined(attr: &Self::Attr) -> bool
        ensures { result ≡ attr_outlined attr.now };

    /// Whether an own attribute is valid: the refusal if it isn't, its place `Unknown`.
    fn verify_attr<C: TypeStore<Self>>(
        alloc: Global,
        attr: &Self::Attr,
        ctx: &C,
    ) -> Result<(), VerifyErr<Self::Err>>
        requires { AllLive (C.types ctx.now) (attr_handles attr.now) }
        ensures { IsVerdict (attr_is_valid (C.types ctx.now) attr.now)
            (attr_refusal (C.types ctx.now) attr.now) result };

    /// An equal own attribute.
    fn clone_attr(alloc: Global, attr: &Self::Attr) -> Result<Self::Attr, Memory>
        ensures { IfOk result (λ a. a ≡ attr.now) };

    /// Whether all type handles that an own attribute holds name types of the context.
    fn is_attr_live<C: TypeStore<Self>>(attr: &Self::Attr, ctx: &C) -> bool
        ensures { IsTrue result ↔ AllLive (C.types ctx.now) (attr_handles attr.now) };

    /// The id of an own type, as `dialect.name`.
    fn type_id(ty: &Self::Ty) -> &'static str
        ensures { result.now ≡ type_id ty.now };

    /// The text of an own type behind its id, in parts; there may be none.
    fn type_body_text(alloc: Global, ty: &Self::Ty) -> Result<OwnText, Memory>
        ensures { IfOk result (λ parts. parts ≡ type_body_text ty.now) };

    /// The types of arguments and results, where an own type is a type of functions.
    fn function_sig(ty: &Self::Ty) -> Option<(&[TypeHandle], &[TypeHandle])>
        ensures { option_map (λ p. (p.0.now, p.1.now)) result ≡ function_sig ty.now };

    /// Whether all type handles that an own type holds name types of the context.
    fn is_type_live<C: TypeStore<Self>>(ty: &Self::Ty, ctx: &C) -> bool
        ensures { IsTrue result ↔ AllLive (C.types ctx.now) (type_handles ty.now) };

    // Equality tells own values apart exactly as contracts do, and what a query hands out is among the handles held.
    // So is what a text writes out.
    ghost attr_eq_exact: { (a b : Self.Attr) → IsTrue (Self.Attr.eq a b) → a ≡ b };

    ghost type_eq_exact: { (a b : Self.Ty) → IsTrue (Self.Ty.eq a b) → a ≡ b };

    ghost attr_type_held: { (a : Self.Attr) (h : ℕ) → attr_type a ≡ Some h → Contains (attr_handles a) h };

    ghost arguments_held: { (t : Self.Ty) (p : List ℕ × List ℕ) (h : ℕ) → function_sig t ≡ Some p → Contains p.0 h →
        Contains (type_handles t) h };

    ghost results_held: { (t : Self.Ty) (p : List ℕ × List ℕ) (h : ℕ) → function_sig t ≡ Some p → Contains p.1 h →
        Contains (type_handles t) h };

    ghost attr_text_held: { (a : Self.Attr) (h : ℕ) → Contains (held_in (attr_text a)) h → Contains (attr_handles a) h };

    ghost type_body_text_held: { (t : Self.Ty) (h : ℕ) → Contains (held_in (type_body_text t)) h →
        Contains (type_handles t) h };
}
