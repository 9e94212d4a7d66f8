//! Steps of rewrites: an operation is made and put before another one, and a value comes in place of a result.
ghost use Rattle.std.specs.Prelude.{◌≡◌, Bool, true, false, [], ◌∷◌, All, length, Some, Err, IsSome, IfOk, OnErr};
ghost use Rattle.plir_data.specs.Types.{IsLive as IsTypeLive};
ghost use Rattle.plir_data.specs.declared.op_set.OpKind.{OpKind as AnyKind};
ghost use Rattle.plir_core.specs.declared.ptr.Ptr.{Ptr as AnyPtr};
ghost use Rattle.plir_core.specs.declared.ptr.BasicBlock.{BasicBlock as BasicBlockKind};
ghost use Rattle.plir_core.specs.declared.ptr.IRNode.{IRNode as AnyNode};
ghost use Rattle.plir_core.specs.declared.value.DefiningEntity.{DefiningEntity};
ghost use Rattle.plir_core.specs.Contents.{op_view};
ghost use Rattle.plir_core.specs.ContextView.{ContextView, IsLive, IsValueLive, children, entity_node, given_out};
ghost use Rattle.plir_core.specs.ContextView.{parent_of, result_types_of};
ghost use Rattle.plir_core.specs.NewOps.{IsOpUnmade};
ghost use Rattle.plir_core.specs.Replaced.{with_uses_replaced};
ghost use Rattle.plir_core.specs.Results.{result_of};
ghost use Rattle.plir_core.specs.Room.{IsFullForOp};
ghost use Rattle.plir_core.specs.Unused.{without_tree};
ghost use Rattle.plir_core.specs.WellFormed.{IsWellFormed};
ghost use Rattle.plir_passes.specs.Prepared.{IsPrepared, IsResultPutBefore};
ghost use Rattle.plir_passes.specs.Rewritten.{IsRewriting, IsReplaced};

use crate::laws::replacements;
use plir_core::{Context, NodeErr, Operation, Ptr, Value};
use plir_data::{OpKind, OpSet, TypeHandle};
use plir_walk::laws::lawful_changes;
use std::alloc::Global;

// A list of one type.
fn one_type(alloc: Global, ty: TypeHandle) -> Result<Vec<TypeHandle>, NodeErr>
    ensures one { IfOk result (λ types. types.items ≡ ty ∷ []) }
    ensures memory { OnErr result (result ≡ Err NodeErr.Memory) }
{
    let mut types = Vec::new(alloc);
    types.push(ty)?;
    Ok(types)
}

// A list of some values.
fn values_of(alloc: Global, values: &[Value]) -> Result<Vec<Value>, NodeErr>
    ensures same { IfOk result (λ list. list.items ≡ values.now) }
    ensures memory { OnErr result (result ≡ Err NodeErr.Memory) }
{
    let mut list = Vec::new(alloc);
    list.extend_from_slice(values)?;
    Ok(list)
}

/// Puts a new operation of one result right before another one, in its block, and answers its result. It has no
/// attribute, no successor and no region. In a rewrite of the other operation, whenever that began, it is a step that
/// prepares the replacement, and so is a refusal.
///
/// # Errors
///
/// [`NodeErr::Memory`], or [`NodeErr::TooManyNodes`], which comes only where no more nodes may be live, or the slot
/// numbers of operations are spent. No live node has changed.
pub fn put_before<D: OpSet>(
    alloc: Global,
    ctx: &mut Context<D>,
    mark: Ptr<Operation>,
    kind: OpKind<D::Kind>,
    ty: TypeHandle,
    operands: &[Value],
) -> Result<Value, NodeErr>
    requires linked { IsSome (parent_of ctx.old (AnyNode.Operation mark)) }
    requires type_live { IsTypeLive ctx.old.types ty }
    requires operands_live { All (IsValueLive ctx.old) operands.now }
    ensures put { IfOk result (λ value. IsResultPutBefore ctx.old ctx.new mark value
        (op_view kind (ty ∷ []) operands.now [] [])) }
    ensures live { IfOk result (IsValueLive ctx.new) }
    ensures fresh { IfOk result (λ value. IsLive ctx.old (entity_node value.entity) → ⊥) }
    ensures unmade { OnErr result (IsOpUnmade ctx.old ctx.new (op_view kind (ty ∷ []) operands.now [] []) 0) }
    ensures too_many_only { result ≡ Err NodeErr.TooManyNodes → IsFullForOp ctx.old.nodes 0 }
    ensures given { (n : AnyNode) → given_out ctx.old n ≡ true → given_out ctx.new n ≡ true }
    ensures prepared { (illegal : AnyKind D.Kind → Bool) (begun : ContextView D.Kind D.Attr D.Ty)
        (block : AnyPtr BasicBlockKind) → IsWellFormed D.attr_handles begun →
        parent_of begun (AnyNode.Operation mark) ≡ Some (AnyNode.BasicBlock block) → illegal kind ≡ false →
        IsPrepared illegal begun ctx.old block mark → IsPrepared illegal begun ctx.new block mark }
    ensures types { ctx.new.types ≡ ctx.old.types }
    ensures whole { IsWellFormed D.attr_handles ctx.new }
{
    replacements::<D>();
    lawful_changes::<D>();
    ctx.stands();
    let types = one_type(alloc, ty)?;
    let list = values_of(alloc, operands)?;
    let successors = Vec::new(alloc);
    let new = Operation::new(alloc, ctx, kind, types, list, successors, 0)?;
    new.insert_before(ctx, mark);
    Ok(new.get_result(ctx, 0))
}

/// Puts a value in place of the one result of an operation without regions, wherever that is used, and erases the
/// operation. In a rewrite of the operation it is the step that ends the replacement.
pub fn replace_op<D: OpSet>(ctx: &mut Context<D>, op: Ptr<Operation>, value: Value)
    requires live { IsLive ctx.old (AnyNode.Operation op) }
    requires one_result { length (result_types_of ctx.old op) ≡ 1 }
    requires no_region { length (children ctx.old (AnyNode.Operation op)) ≡ 0 }
    requires value_live { IsValueLive ctx.old value }
    requires of_another { value.entity ≡ DefiningEntity.Op op → ⊥ }
    ensures after { ctx.new ≡
        without_tree (with_uses_replaced ctx.old (result_of op 0) value) (AnyNode.Operation op) }
    ensures replaced { (illegal : AnyKind D.Kind → Bool) (begun : ContextView D.Kind D.Attr D.Ty)
        (block : AnyPtr BasicBlockKind) → IsWellFormed D.attr_handles begun →
        parent_of begun (AnyNode.Operation op) ≡ Some (AnyNode.BasicBlock block) →
        IsPrepared illegal begun ctx.old block op →
        IsRewriting illegal begun ctx.new block op × IsReplaced begun ctx.new block op }
    ensures whole { IsWellFormed D.attr_handles ctx.new }
{
    replacements::<D>();
    ctx.stands();
    let old = op.get_result(ctx, 0);
    old.replace_all_uses_with(ctx, value);
    Operation::erase(op, ctx);
}
