//! The interface of operations that call functions.
ghost use Rattle.std.specs.Prelude.{◌≡◌, ◌↔◌, ◌≤◌, Some, All, IsOk, IsNone, IfSome, IfOk, IfErr, OnOk, OnErr, length};
ghost use Rattle.plir_data.specs.Types.{IsLive as IsTypeLive};
ghost use Rattle.plir_core.specs.declared.ptr.IRNode.{IRNode};
ghost use Rattle.plir_core.specs.ContextView.{IsLive, IsValueLive, operands_of};
ghost use Rattle.plir_core.specs.WellFormed.{IsWellFormed};
ghost use Rattle.plir_flow.specs.Branches.{operands_within};
ghost use Rattle.plir_flow.specs.Layout.{IsLayoutRefusal};
ghost use Rattle.plir_flow.specs.Calls.{callee_type_of, with_callee_type};
ghost use Rattle.plir_flow.specs.Calls.{has_signature, HasCalleeType, IsCalleeTypeRefusal, IsCallFault, IsCalleeLive};

use crate::operand_ranges::operands_in;
use plir_core::{Context, Operation, Ptr, Value};
use plir_data::{AttrObj, Identifier, Memory, OpSet, TypeAttr, TypeHandle, TypeStore, VerifyErr};
use plir_iface::{Op, refusal};
use std::alloc::Global;
use std::ops::Range;
use thiserror::Error;

/// The key under which the type of what is called stands.
pub const ATTR_KEY_CALLEE_TYPE: &'static str = "builtin_callee_type";

/// What a call calls.
#[derive(Drop)]
pub enum CallOpCallable {
    /// The function of a name.
    Direct(Identifier),
    /// The function that a value is.
    Indirect(Value),
}

impl CallOpCallable {
    /// The same callable.
    pub fn try_clone(&self, alloc: Global) -> Result<CallOpCallable, Memory>
        ensures { IfOk result (λ c. c ≡ self.now) }
    {
        match self {
            CallOpCallable::Direct(name) => Ok(CallOpCallable::Direct(name.try_clone(alloc)?)),
            CallOpCallable::Indirect(value) => Ok(CallOpCallable::Indirect(*value)),
        }
    }
}

/// How the type of what is called is not one of functions.
#[derive(Clone, Copy, PartialEq, Eq, Debug, Error)]
pub enum CallOpInterfaceErr {
    /// There is no attribute of a type under the key.
    #[error("Callee type attribute not found")]
    CalleeTypeAttrNotFoundErr,
    /// There is, and the type is none of functions.
    #[error("Callee type attribute must impl FunctionTypeInterface")]
    CalleeTypeAttrIncorrectTypeErr,
}

// The type of what is called, if an attribute of a type stands under the key.
fn find_callee_type<D: OpSet>(ctx: &Context<D>, op: Ptr<Operation>) -> Option<TypeHandle>
    requires { IsLive ctx.now (IRNode.Operation op) }
    ensures value { result ≡ callee_type_of ctx.now op }
    ensures live { IfSome result (IsTypeLive ctx.now.types) }
    ensures whole { IsWellFormed D.attr_handles ctx.now }
{
    op.attributes(ctx).get(ATTR_KEY_CALLEE_TYPE)?.as_type()
}

// How the type of what is called breaks the rule.
fn find_fault<D: OpSet>(ctx: &Context<D>, op: Ptr<Operation>) -> Option<CallOpInterfaceErr>
    requires { IsLive ctx.now (IRNode.Operation op) }
    ensures none { IsNone result ↔ HasCalleeType (has_signature D.function_sig) ctx.now op }
    ensures some { IfSome result (IsCallFault (has_signature D.function_sig) ctx.now op) }
    ensures whole { IsWellFormed D.attr_handles ctx.now }
{
    let Some(ty) = find_callee_type(ctx, op) else {
        return Some(CallOpInterfaceErr::CalleeTypeAttrNotFoundErr);
    };
    if ctx.types().get(ty).function_sig().is_none() {
        return Some(CallOpInterfaceErr::CalleeTypeAttrIncorrectTypeErr);
    }
    None
}

// Puts the type of what is called under its key.
fn put_callee_type<D: OpSet>(
    alloc: Global,
    ctx: &mut Context<D>,
    op: Ptr<Operation>,
    ty: TypeHandle,
) -> Result<(), Memory>
    requires live { IsLive ctx.old (IRNode.Operation op) }
    requires type_live { IsTypeLive ctx.old.types ty }
    ensures ok { OnOk result (ctx.new ≡ with_callee_type ctx.old op ty) }
    ensures err { OnErr result (ctx.new ≡ ctx.old) }
    ensures whole { IsWellFormed D.attr_handles ctx.new }
{
    ctx.stands();
    match Identifier::try_new(alloc, ATTR_KEY_CALLEE_TYPE) {
        Ok(key) => op.set_attr(ctx, key, AttrObj::Type(TypeAttr::new(ty))),
        Err(_) => Err(Memory),
    }
}

/// Operations that call a function, with operands in a row as its arguments. The type of what is called is an attribute
/// under [`ATTR_KEY_CALLEE_TYPE`].
///
/// What an implementer says of its operation holds by its layout: that its operands stand as it wants them. The check
/// of the layout accepts exactly where a predicate of the context and the operation holds, memory aside; what is called
/// and the range of the arguments are functions of these two.
pub trait CallOpInterface<D: OpSet>: Op<D> {
    ghost use Rattle.plir_core.specs.ContextView.{ContextView};
    ghost use Rattle.plir_flow.specs.Branches.{Range as Places};
    ghost use Rattle.plir_flow.specs.declared.calls.CallOpCallable.{CallOpCallable as Callable};

    // The operands stand as the operation wants them, and what a refusal reports where they don't.
    ghost has_call_layout: { Self → ContextView D.Kind D.Attr D.Ty → Type 0 };

    ghost refuses_call_layout: { Self → ContextView D.Kind D.Attr D.Ty → D.Err → Type 0 };

    // What is called, and the indices of the operands that are its arguments.
    ghost called: { Self → ContextView D.Kind D.Attr D.Ty → Callable };

    ghost arguments: { Self → ContextView D.Kind D.Attr D.Ty → Places };

    /// Accepts exactly where the operands stand as the operation wants them.
    fn verify_call_layout(&self, alloc: Global, ctx: &Context<D>) -> Result<(), VerifyErr<D::Err>>
        requires { IsLive ctx.now (IRNode.Operation (Self.pointer self.now)) }
        ensures ok { OnOk result (has_call_layout self.now ctx.now) }
        ensures refused { IfErr result (IsLayoutRefusal (has_call_layout self.now) (refuses_call_layout self.now)
            ctx.now (Self.pointer self.now)) };

    /// What is called.
    fn callee(&self, alloc: Global, ctx: &Context<D>) -> Result<CallOpCallable, Memory>
        requires live { IsLive ctx.now (IRNode.Operation (Self.pointer self.now)) }
        requires layout { has_call_layout self.now ctx.now }
        ensures value { IfOk result (λ c. c ≡ called self.now ctx.now) }
        ensures live { IsCalleeLive ctx.now (called self.now ctx.now) };

    /// The indices of the operands that are passed to what is called; they are among the operands.
    fn arg_range(&self, ctx: &Context<D>) -> Range<usize>
        requires live { IsLive ctx.now (IRNode.Operation (Self.pointer self.now)) }
        requires layout { has_call_layout self.now ctx.now }
        ensures start { result.start ≡ (arguments self.now ctx.now).0 }
        ensures end { result.end ≡ (arguments self.now ctx.now).1 }
        ensures ordered { result.start ≤ result.end }
        ensures inside { result.end ≤ length (operands_of ctx.now (Self.pointer self.now)) };

    /// The operands that are passed to what is called.
    final fn args(&self, alloc: Global, ctx: &Context<D>) -> Result<Vec<Value>, Memory>
        requires live { IsLive ctx.now (IRNode.Operation (Self.pointer self.now)) }
        requires layout { has_call_layout self.now ctx.now }
        ensures value { IfOk result (λ vs. vs.items ≡ operands_within ctx.now (Self.pointer self.now)
            (arguments self.now ctx.now)) }
        ensures live { IfOk result (λ vs. All (IsValueLive ctx.now) vs.items) }
        ensures whole { IsWellFormed D.attr_handles ctx.now }
    {
        operands_in(alloc, ctx, self.get_operation(), self.arg_range(ctx))
    }

    /// The type of what is called.
    final fn callee_type(&self, ctx: &Context<D>) -> TypeHandle
        requires live { IsLive ctx.now (IRNode.Operation (Self.pointer self.now)) }
        requires rule { HasCalleeType (has_signature D.function_sig) ctx.now (Self.pointer self.now) }
        ensures value { callee_type_of ctx.now (Self.pointer self.now) ≡ Some result }
        ensures live { IsTypeLive ctx.now.types result }
        ensures whole { IsWellFormed D.attr_handles ctx.now }
    {
        find_callee_type(ctx, self.get_operation()).unwrap()
    }

    /// Says of what type it is that is called. After a refusal all is as before.
    final fn set_callee_type(
        &self,
        alloc: Global,
        ctx: &mut Context<D>,
        ty: TypeHandle,
    ) -> Result<(), Memory>
        requires live { IsLive ctx.old (IRNode.Operation (Self.pointer self.now)) }
        requires type_live { IsTypeLive ctx.old.types ty }
        ensures ok { OnOk result (ctx.new ≡ with_callee_type ctx.old (Self.pointer self.now) ty) }
        ensures err { OnErr result (ctx.new ≡ ctx.old) }
        ensures whole { IsWellFormed D.attr_handles ctx.new }
    {
        put_callee_type(alloc, ctx, self.get_operation(), ty)
    }

    /// Accepts exactly where an attribute of a type stands under the key, and the type is one of functions.
    final fn verify(&self, ctx: &Context<D>) -> Result<(), VerifyErr<CallOpInterfaceErr>>
        requires { IsLive ctx.now (IRNode.Operation (Self.pointer self.now)) }
        ensures ok { IsOk result ↔ HasCalleeType (has_signature D.function_sig) ctx.now (Self.pointer self.now) }
        ensures refused { IfErr result (IsCalleeTypeRefusal (has_signature D.function_sig) ctx.now
            (Self.pointer self.now)) }
        ensures whole { IsWellFormed D.attr_handles ctx.now }
    {
        let op = self.get_operation();
        match find_fault(ctx, op) {
            None => Ok(()),
            Some(fault) => Err(refusal(ctx, op, fault)),
        }
    }
}
