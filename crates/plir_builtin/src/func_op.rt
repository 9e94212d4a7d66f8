//! Functions.
ghost use Rattle.std.specs.Prelude.{⊤, ◌≡◌, ◌↔◌, true, Some, OnOk, OnErr, IsOk, IfErr, IfOk, IfSome, IsSome};
ghost use Rattle.std.specs.Prelude.{◌<◌, ◌+◌, Err, IsErr};
ghost use Rattle.plir_store.specs.Table.{next_slot};
ghost use Rattle.plir_data.specs.declared.op_set.OpKind.{OpKind as AnyKind};
ghost use Rattle.plir_data.specs.Types.{AllLive, IsLive as IsTypeLive, IsMarked, is_function};
ghost use Rattle.plir_core.specs.Changes.{SameLive};
ghost use Rattle.plir_core.specs.Made.{IsMade};
ghost use Rattle.plir_core.specs.Nodes.{ptr_at};
ghost use Rattle.plir_core.specs.ContextView.{IsLive, given_out, kind_of, limit, num_live};
ghost use Rattle.plir_core.specs.WellFormed.{IsWellFormed};
ghost use Rattle.plir_core.specs.declared.ptr.IRNode.{IRNode as AnyNode};
ghost use Rattle.plir_builtin.specs.BuiltinOps.{HasArguments, HasFuncType, IsFuncMade, IsNewFunc, entry_of, func_type};
ghost use Rattle.plir_builtin.specs.BuiltinOps.{func_type_of};
ghost use Rattle.plir_builtin.specs.BuiltinOps.{IsFullForOneBlock};
ghost use Rattle.plir_builtin.specs.OpRules.{HasFuncRules};
ghost use Rattle.plir_builtin.specs.OpRefusals.{IsFuncRefusal};
ghost use Rattle.plir_iface.specs.Counts.{HasNRegions};
ghost use Rattle.plir_iface.specs.Verdict.{IsRefusal};

use crate::ATTR_KEY_BUILTIN_FUNC_TYPE;
use crate::op_making::{named_and_typed, new_with_block};
use crate::op_verify_err::{OpVerifyErr, reported};
use crate::symbol_op::SymbolOpInterface;
use plir_core::{BasicBlock, Context, NodeErr, Operation, Ptr};
use plir_data::{
    FunctionType, FunctionTypeInterface, Identifier, OpKind, OpSet, TypeHandle, Typed, TypedHandle,
    VerifyErr,
};
use plir_iface::{
    IsolatedFromAboveInterface, NOpdsInterface, NResultsInterface, OneRegionInterface, Op, refusal,
};
use std::alloc::Global;
use thiserror::Error;

/// A function has no type of functions under [`crate::ATTR_KEY_BUILTIN_FUNC_TYPE`].
#[derive(Clone, Copy, PartialEq, Eq, Debug, Error)]
#[error("function does not have function type")]
pub struct FuncOpTypeErr;

/// A function: a symbol with a type of functions, and one region, whose first block has the arguments.
#[derive(Clone, Copy)]
pub struct FuncOp {
    op: Ptr<Operation>,
}

impl FuncOp {
    /// A new function of a name and a type, in no block; its entry block, labelled `entry`, has arguments of the type's
    /// arguments. `TooManyNodes` comes only where there is no room for the function, its region and its block. After a
    /// refusal no live node has changed.
    pub fn new<D: OpSet>(
        alloc: Global,
        ctx: &mut Context<D>,
        name: Identifier,
        ty: TypedHandle<FunctionType>,
    ) -> Result<FuncOp, NodeErr>
        requires type_live { IsTypeLive ctx.old.types ty }
        requires of_functions { IsMarked is_function ctx.old.types ty }
        ensures made { IfOk result (λ f. IsMade ctx.old.nodes ctx.new.nodes (AnyNode.Operation f.op)) }
        ensures pointer { IfOk result (λ f. f.op ≡ ptr_at ctx.new.nodes.ops (next_slot ctx.old.nodes.ops)) }
        ensures tree { IfOk result (λ f. IsNewFunc ctx.new f.op name ty) }
        ensures after { OnOk result (IsFuncMade ctx.old ctx.new name ty) }
        ensures types { ctx.new.types ≡ ctx.old.types }
        ensures given { (n : AnyNode) → given_out ctx.old n ≡ true → given_out ctx.new n ≡ true }
        ensures err { OnErr result (SameLive ctx.old ctx.new) }
        ensures too_many { limit ctx.old < num_live ctx.old + 3 → IsErr result }
        ensures too_many_only { result ≡ Err NodeErr.TooManyNodes → IsFullForOneBlock ctx.old }
        ensures whole { IsWellFormed D.attr_handles ctx.new }
    {
        let arg_types = argument_types(alloc, ctx, ty)?;
        let Ok(label) = Identifier::try_new(alloc, "entry") else {
            return Err(NodeErr::Memory);
        };
        let attributes = named_and_typed(alloc, name, ty.into())?;
        let op = new_with_block(alloc, ctx, OpKind::Func, attributes, Some(label), arg_types)?;
        Ok(FuncOp { op })
    }

    /// The operation, without the op set to be named.
    pub fn operation(self) -> Ptr<Operation>
        ensures { result ≡ self.op }
    {
        self.op
    }

    /// The operation as a function, if it is one.
    pub fn from_operation<D: OpSet>(ctx: &Context<D>, op: Ptr<Operation>) -> Option<FuncOp>
        requires { IsLive ctx.now (AnyNode.Operation op) }
        ensures found { IsSome result ↔ (kind_of ctx.now op ≡ Some AnyKind.Func) }
        ensures same { IfSome result (λ f. f.op ≡ op) }
    {
        match op.kind(ctx) {
            OpKind::Func => Some(FuncOp { op }),
            _ => None,
        }
    }
}

impl<D: OpSet> Op<D> for FuncOp {
    ghost pointer = { λ f. f.op };

    fn get_operation(&self) -> Ptr<Operation> {
        self.op
    }
}

impl<D: OpSet> OneRegionInterface<D> for FuncOp {}

impl<D: OpSet> SymbolOpInterface<D> for FuncOp {}

impl<D: OpSet> IsolatedFromAboveInterface<D> for FuncOp {}

impl<D: OpSet> NOpdsInterface<D, 0> for FuncOp {}

impl<D: OpSet> NResultsInterface<D, 0> for FuncOp {}

impl FuncOp {
    /// The type of the function.
    pub fn get_type<D: OpSet>(&self, ctx: &Context<D>) -> TypedHandle<FunctionType>
        requires live { IsLive ctx.now (AnyNode.Operation self.now.op) }
        requires rule { HasFuncType ctx.now self.now.op }
        ensures value { func_type_of ctx.now self.now.op ≡ Some result }
        ensures of_functions { IsMarked is_function ctx.now.types result }
        ensures whole { IsWellFormed D.attr_handles ctx.now }
    {
        find_type(ctx, self.op).unwrap()
    }

    /// The first block of the function's region, which holds one.
    pub fn get_entry_block<D: OpSet>(&self, ctx: &Context<D>) -> Ptr<BasicBlock>
        requires live { IsLive ctx.now (AnyNode.Operation self.now.op) }
        requires rule { HasNRegions 1 ctx.now self.now.op }
        requires holds_block { IsSome (entry_of ctx.now self.now.op) }
        ensures value { entry_of ctx.now self.now.op ≡ Some (AnyNode.BasicBlock result) }
        ensures live { IsLive ctx.now (AnyNode.BasicBlock result) }
        ensures whole { IsWellFormed D.attr_handles ctx.now }
    {
        let region = self.op.get_region(ctx, 0);
        region.get_head(ctx).unwrap()
    }

    /// Accepts exactly where an attribute of a type stands under [`crate::ATTR_KEY_BUILTIN_FUNC_TYPE`], and the type is
    /// a `FunctionType`.
    pub fn verify<D: OpSet>(&self, ctx: &Context<D>) -> Result<(), VerifyErr<FuncOpTypeErr>>
        requires { IsLive ctx.now (AnyNode.Operation self.now.op) }
        ensures ok { IsOk result ↔ HasFuncType ctx.now self.now.op }
        ensures refused { IfErr result (IsRefusal ctx.now self.now.op (λ e. ⊤)) }
        ensures whole { IsWellFormed D.attr_handles ctx.now }
    {
        match find_type(ctx, self.op) {
            Some(_) => Ok(()),
            None => Err(refusal(ctx, self.op, FuncOpTypeErr)),
        }
    }

    /// Accepts exactly where the rules of all interfaces that a function declares hold, and its own: one region, a
    /// name, no operand, no result, and a type of functions. Else reports the refusal of the first, in this order.
    /// Takes no memory.
    pub fn verify_interfaces<D: OpSet>(
        &self,
        ctx: &Context<D>,
    ) -> Result<(), VerifyErr<OpVerifyErr<D::Err>>>
        requires { IsLive ctx.now (AnyNode.Operation self.now.op) }
        ensures ok { IsOk result ↔ HasFuncRules ctx.now self.now.op }
        ensures refused { IfErr result (IsFuncRefusal ctx.now self.now.op) }
        ensures whole { IsWellFormed D.attr_handles ctx.now }
    {
        ctx.stands();
        reported(OneRegionInterface::<D>::verify(self, ctx))?;
        reported(SymbolOpInterface::<D>::verify(self, ctx))?;
        reported(NOpdsInterface::<D, 0>::verify(self, ctx))?;
        reported(NResultsInterface::<D, 0>::verify(self, ctx))?;
        reported(self.verify(ctx))
    }
}

impl<D: OpSet> Typed<Context<D>> for FuncOp {
    ghost has_type = { λ s f. IsLive s (AnyNode.Operation f.op) × HasFuncType s f.op };

    ghost type_of = { λ s f. func_type s f.op };

    /// The type of the function.
    fn get_type(&self, ctx: &Context<D>) -> TypeHandle {
        FuncOp::get_type(self, ctx).into()
    }
}

// The type under the key, if an attribute of a type stands there, and it is a `FunctionType`.
fn find_type<D: OpSet>(ctx: &Context<D>, op: Ptr<Operation>) -> Option<TypedHandle<FunctionType>>
    requires { IsLive ctx.now (AnyNode.Operation op) }
    ensures found { IsSome result ↔ HasFuncType ctx.now op }
    ensures value { IfSome result (λ ty. func_type_of ctx.now op ≡ Some ty) }
    ensures of_functions { IfSome result (IsMarked is_function ctx.now.types) }
    ensures whole { IsWellFormed D.attr_handles ctx.now }
{
    TypedHandle::from_handle(find_func_type(ctx, op)?, ctx)
}

/// The type that a function holds, if an attribute of a type stands under its key.
pub fn find_func_type<D: OpSet>(ctx: &Context<D>, op: Ptr<Operation>) -> Option<TypeHandle>
    requires { IsLive ctx.now (AnyNode.Operation op) }
    ensures value { result ≡ func_type_of ctx.now op }
    ensures live { IfSome result (IsTypeLive ctx.now.types) }
    ensures whole { IsWellFormed D.attr_handles ctx.now }
{
    op.attributes(ctx)
        .get(ATTR_KEY_BUILTIN_FUNC_TYPE)?
        .as_type()
}

// The types of the arguments of a type of functions.
fn argument_types<D: OpSet>(
    alloc: Global,
    ctx: &Context<D>,
    ty: TypedHandle<FunctionType>,
) -> Result<Vec<TypeHandle>, NodeErr>
    requires type_live { IsTypeLive ctx.now.types ty }
    requires of_functions { IsMarked is_function ctx.now.types ty }
    ensures value { IfOk result (λ ts. HasArguments ctx.now.types ty ts.items) }
    ensures live { IfOk result (λ ts. AllLive ctx.now.types ts.items) }
    ensures memory { IfErr result (λ e. e ≡ NodeErr.Memory) }
    ensures whole { IsWellFormed D.attr_handles ctx.now }
{
    ctx.stands();
    let function = ty.deref(ctx);
    match Vec::from_slice(alloc, function.arg_types()) {
        Ok(types) => Ok(types),
        Err(_) => Err(NodeErr::Memory),
    }
}
