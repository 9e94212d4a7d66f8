//! Attributes that can be made the value of a constant.
ghost use Rattle.std.specs.Prelude.{◌≡◌, ◌<◌, ◌+◌, true, Ok, Err, OnErr, IfOk, IsErr};
ghost use Rattle.plir_store.specs.Table.{next_slot};
ghost use Rattle.plir_data.specs.AttrLive.{IsAttrLive};
ghost use Rattle.plir_core.specs.Changes.{SameLive};
ghost use Rattle.plir_core.specs.Made.{IsMade};
ghost use Rattle.plir_core.specs.Nodes.{ptr_at};
ghost use Rattle.plir_core.specs.Room.{IsFullForOp};
ghost use Rattle.plir_core.specs.ContextView.{given_out, limit, num_live};
ghost use Rattle.plir_core.specs.WellFormed.{IsWellFormed};
ghost use Rattle.plir_core.specs.declared.ptr.IRNode.{IRNode as AnyNode};
ghost use Rattle.plir_builtin.specs.BuiltinOps.{IsNewConstant};

use crate::ConstantOp;
use plir_core::{Context, NodeErr, Operation, Ptr};
use plir_data::{AttrObj, IntegerAttr, Memory, OpSet, TypedAttrInterface};
use std::alloc::Global;

/// Attributes from which an operation can be made whose result has their value.
pub trait MaterializableAttr<D: OpSet>: TypedAttrInterface<D> {
    /// A new constant of an equal attribute, in no block. `TooManyNodes` comes only where there is no room for it,
    /// before the call and behind it. After a refusal no live node has changed.
    fn materialize(&self, alloc: Global, ctx: &mut Context<D>) -> Result<Ptr<Operation>, NodeErr>
        requires { IsAttrLive D.attr_handles ctx.old.types (Self.seen self.now) }
        ensures made { IfOk result (λ op. IsMade ctx.old.nodes ctx.new.nodes (AnyNode.Operation op)) }
        ensures pointer { IfOk result (λ op. op ≡ ptr_at ctx.new.nodes.ops (next_slot ctx.old.nodes.ops)) }
        ensures tree { IfOk result (λ op. IsNewConstant D.attr_type ctx.new op (Self.seen self.now)) }
        ensures types { ctx.new.types ≡ ctx.old.types }
        ensures given { (n : AnyNode) → given_out ctx.old n ≡ true → given_out ctx.new n ≡ true }
        ensures err { OnErr result (SameLive ctx.old ctx.new) }
        ensures too_many { limit ctx.old < num_live ctx.old + 1 → IsErr result }
        ensures too_many_only { result ≡ Err NodeErr.TooManyNodes → IsFullForOp ctx.old.nodes 0 }
        ensures crowded { result ≡ Err NodeErr.TooManyNodes → IsFullForOp ctx.new.nodes 0 }
        ensures whole { IsWellFormed D.attr_handles ctx.new };

    /// Accepts always.
    final fn verify(&self, _ctx: &Context<D>) -> Result<(), Memory>
        ensures { result ≡ Ok tt }
    {
        Ok(())
    }
}

impl<D: OpSet> MaterializableAttr<D> for IntegerAttr {
    fn materialize(&self, alloc: Global, ctx: &mut Context<D>) -> Result<Ptr<Operation>, NodeErr> {
        let value = AttrObj::Integer(*self);
        let constant = ConstantOp::new(alloc, ctx, value)?;
        Ok(constant.operation())
    }
}
