//! Operations that are carried out together.
ghost use Rattle.std.specs.Prelude.{[], ◌∷◌, ◌≡◌, None, OnErr, OnOk, IfOk};
ghost use Rattle.plir_data.specs.declared.op_set.OpKind.TheVariants.{Own};
ghost use Rattle.plir_data.specs.Types.{IsLive as IsTypeLive};
ghost use Rattle.plir_core.specs.Changes.{SameLive};
ghost use Rattle.plir_core.specs.Contents.{op_view};
ghost use Rattle.plir_core.specs.Made.{IsMade};
ghost use Rattle.plir_core.specs.declared.ptr.IRNode.{IRNode as AnyNode};
ghost use Rattle.plir_builtin.specs.BuiltinOps.{HoldsOneBlock, IsMadeWithBlock, block_view, module_attributes};
ghost use Rattle.joined_dialects.specs.declared.my.MyKind.TheVariants as K;

use crate::my::{HasMy, MyKind};
use plir_builtin::{named, new_with_block};
use plir_core::{Context, NodeErr, Operation, Ptr};
use plir_data::{Identifier, OpKind, TypeHandle};
use std::alloc::Global;

/// Operations on one tensor that are carried out together: they stand in a block, whose argument is the tensor. They
/// have a name.
#[derive(Clone, Copy)]
pub struct BatchOp {
    op: Ptr<Operation>,
}

impl BatchOp {
    /// A new batch of a name, over a tensor of a type; nothing stands in its block, and it stands in none. After a
    /// refusal no live node has changed.
    pub fn new<D: HasMy>(
        alloc: Global,
        ctx: &mut Context<D>,
        name: Identifier,
        ty: TypeHandle,
    ) -> Result<BatchOp, NodeErr>
        requires { IsTypeLive ctx.old.types ty }
        ensures made { IfOk result (λ batch. IsMade ctx.old.nodes ctx.new.nodes (AnyNode.Operation batch.op)) }
        ensures tree { IfOk result (λ batch. HoldsOneBlock ctx.new batch.op
            (op_view (Own (D.of_my K.Batch)) [] [] [] (module_attributes name)) (block_view None (ty ∷ []))) }
        ensures after { OnOk result (IsMadeWithBlock ctx.old ctx.new
            (op_view (Own (D.of_my K.Batch)) [] [] [] (module_attributes name)) (block_view None (ty ∷ []))) }
        ensures types { ctx.new.types ≡ ctx.old.types }
        ensures err { OnErr result (SameLive ctx.old ctx.new) }
    {
        let attributes = named(alloc, name)?;
        let mut arg_types = Vec::new(alloc);
        arg_types.push(ty)?;
        let kind = OpKind::Own(D::of_my(MyKind::Batch));
        let op = new_with_block(alloc, ctx, kind, attributes, None, arg_types)?;
        Ok(BatchOp { op })
    }

    /// The operation, without the op set to be named.
    pub fn operation(self) -> Ptr<Operation>
        ensures { result ≡ self.op }
    {
        self.op
    }
}
