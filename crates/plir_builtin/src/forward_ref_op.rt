//! Forward references.
ghost use Rattle.std.specs.Prelude.{◌≡◌, ◌↔◌, ◌⊎◌, ◌++◌, true, Some, OnOk, OnErr, IsErr, IfErr, codes, string_bytes};
ghost use Rattle.std.specs.Prelude.{IfOk, IfSome, IsSome};
ghost use Rattle.std.specs.Prelude.{◌<◌, ◌+◌, Err};
ghost use Rattle.plir_store.specs.Table.{next_slot};
ghost use Rattle.plir_data.specs.declared.op_set.OpKind.{OpKind as AnyKind};
ghost use Rattle.plir_data.specs.Types.{IsGrown, unit};
ghost use Rattle.plir_core.specs.Edits.{SameNodes};
ghost use Rattle.plir_core.specs.Made.{IsMade};
ghost use Rattle.plir_core.specs.Nodes.{ptr_at};
ghost use Rattle.plir_core.specs.Room.{IsFullForOp};
ghost use Rattle.plir_core.specs.ContextView.{IsLive, given_out, kind_of, limit, num_live};
ghost use Rattle.plir_core.specs.WellFormed.{IsWellFormed};
ghost use Rattle.plir_core.specs.declared.ptr.IRNode.{IRNode as AnyNode};
ghost use Rattle.plir_builtin.specs.BuiltinOps.{IsNewForwardRef};
ghost use Rattle.plir_builtin.specs.OpRefusals.{IsForwardRefRefusal};
ghost use Rattle.plir_builtin.specs.ResultNames.{given_first, result_name};
ghost use Rattle.plir_walk.specs.GivenNames.{name_at, names_at};
ghost use Rattle.plir_core.specs.declared.value.DefiningEntity.{DefiningEntity};
ghost use Rattle.plir_core.specs.Texts.{pointer_text};
ghost use Rattle.std.specs.Fmt.{decimal};
ghost use Rattle.plir_iface.specs.Verdict.{IsRefusalMemoryAside};

use crate::op_making::one_type;
use crate::op_verify_err::{OpVerifyErr, reported};
use plir_core::{Context, NodeErr, Operation, Ptr};
use plir_data::put::put;
use plir_data::{Memory, OpKind, OpSet, UnitType, VerifyErr};
use plir_iface::{NOpdsInterface, OneResultInterface, Op, refusal};
use plir_walk::given_names::get_operation_result_name;
use std::alloc::Global;
use std::fmt::Write;
use thiserror::Error;

/// A forward reference is left in a program; the name of its result.
#[derive(Drop, PartialEq, Eq, Debug, Error)]
#[error("{0} is a temporary Op during parsing. It must not exit in a well-formed program.")]
pub struct ForwardRefOpExistenceErr(pub String);

/// A stand-in for a value that is defined later in a text: one result of unit type. No well-formed program has one.
#[derive(Clone, Copy)]
pub struct ForwardRefOp {
    op: Ptr<Operation>,
}

impl ForwardRefOp {
    /// A new forward reference, in no block. The unit type comes into the table, if it isn't there, also where the
    /// operation is refused. `TooManyNodes` comes only where there is no room for the operation. After a refusal no
    /// live node has changed.
    pub fn new<D: OpSet>(alloc: Global, ctx: &mut Context<D>) -> Result<ForwardRefOp, NodeErr>
        ensures made { IfOk result (λ r. IsMade ctx.old.nodes ctx.new.nodes (AnyNode.Operation r.op)) }
        ensures pointer { IfOk result (λ r. r.op ≡ ptr_at ctx.new.nodes.ops (next_slot ctx.old.nodes.ops)) }
        ensures tree { IfOk result (λ r. IsNewForwardRef ctx.new r.op) }
        ensures types { IsGrown ctx.old.types unit ctx.new.types ⊎ (ctx.new.types ≡ ctx.old.types) }
        ensures given { (n : AnyNode) → given_out ctx.old n ≡ true → given_out ctx.new n ≡ true }
        ensures err { OnErr result (SameNodes ctx.old.nodes ctx.new.nodes) }
        ensures too_many { limit ctx.old < num_live ctx.old + 1 → IsErr result }
        ensures too_many_only { result ≡ Err NodeErr.TooManyNodes → IsFullForOp ctx.old.nodes 0 }
        ensures whole { IsWellFormed D.attr_handles ctx.new }
    {
        ctx.stands();
        let Ok(ty) = UnitType::get(ctx) else {
            return Err(NodeErr::Memory);
        };
        ctx.stands();
        let result_types = one_type(alloc, ty.into())?;
        let operands = Vec::new(alloc);
        let successors = Vec::new(alloc);
        let kind = OpKind::ForwardRef;
        let op = Operation::new(alloc, ctx, kind, result_types, operands, successors, 0)?;
        Ok(ForwardRefOp { op })
    }

    /// The operation, without the op set to be named.
    pub fn operation(self) -> Ptr<Operation>
        ensures { result ≡ self.op }
    {
        self.op
    }

    /// The operation as a forward reference, if it is one.
    pub fn from_operation<D: OpSet>(ctx: &Context<D>, op: Ptr<Operation>) -> Option<ForwardRefOp>
        requires { IsLive ctx.now (AnyNode.Operation op) }
        ensures found { IsSome result ↔ (kind_of ctx.now op ≡ Some AnyKind.ForwardRef) }
        ensures same { IfSome result (λ r. r.op ≡ op) }
    {
        match op.kind(ctx) {
            OpKind::ForwardRef => Some(ForwardRefOp { op }),
            _ => None,
        }
    }
}

impl<D: OpSet> Op<D> for ForwardRefOp {
    ghost pointer = { λ r. r.op };

    fn get_operation(&self) -> Ptr<Operation> {
        self.op
    }
}

impl<D: OpSet> NOpdsInterface<D, 0> for ForwardRefOp {}

impl<D: OpSet> OneResultInterface<D> for ForwardRefOp {}

impl ForwardRefOp {
    /// Refuses always: it reports the name of the result.
    pub fn verify<D: OpSet>(
        &self,
        alloc: Global,
        ctx: &Context<D>,
    ) -> Result<(), VerifyErr<ForwardRefOpExistenceErr>>
        requires { IsLive ctx.now (AnyNode.Operation self.now.op) }
        ensures never { IsErr result }
        ensures refused { IfErr result (IsRefusalMemoryAside ctx.now self.now.op
            (λ e. string_bytes e.0 ≡ result_name ctx.now self.now.op 0)) }
        ensures whole { IsWellFormed D.attr_handles ctx.now }
    {
        ctx.stands();
        match first_result_name(alloc, ctx, self.op) {
            Ok(name) => Err(refusal(ctx, self.op, ForwardRefOpExistenceErr(name))),
            Err(Memory) => Err(VerifyErr::Memory),
        }
    }

    /// Refuses always: reports the refusal of the first interface whose rule does not hold, of no operand and one
    /// result in this order, else the name of the result.
    pub fn verify_interfaces<D: OpSet>(
        &self,
        alloc: Global,
        ctx: &Context<D>,
    ) -> Result<(), VerifyErr<OpVerifyErr<D::Err>>>
        requires { IsLive ctx.now (AnyNode.Operation self.now.op) }
        ensures never { IsErr result }
        ensures refused { IfErr result (IsForwardRefRefusal ctx.now self.now.op) }
        ensures whole { IsWellFormed D.attr_handles ctx.now }
    {
        ctx.stands();
        reported(NOpdsInterface::<D, 0>::verify(self, ctx))?;
        reported(OneResultInterface::<D>::verify(self, ctx))?;
        reported(self.verify(alloc, ctx))
    }
}

// The name of an operation's first result in a text.
fn first_result_name<D: OpSet>(
    alloc: Global,
    ctx: &Context<D>,
    op: Ptr<Operation>,
) -> Result<String, Memory>
    requires { IsLive ctx.now (AnyNode.Operation op) }
    ensures { IfOk result (λ s. string_bytes s ≡ result_name ctx.now op 0) }
{
    let mut out = given_name(alloc, ctx, op)?;
    put_pointer(&mut out, op)?;
    put_place(&mut out, 0)?;
    Ok(out)
}

// The given name of an operation's first result and `_`; nothing where there is none.
fn given_name<D: OpSet>(
    alloc: Global,
    ctx: &Context<D>,
    op: Ptr<Operation>,
) -> Result<String, Memory>
    requires { IsLive ctx.now (AnyNode.Operation op) }
    ensures { IfOk result (λ s. string_bytes s ≡ given_first (name_at (names_at ctx.now (DefiningEntity.Op op)) 0)) }
{
    let mut out = String::new(alloc);
    if let Some(name) = get_operation_result_name(ctx, op, 0) {
        put(&mut out, name.as_str())?;
        put(&mut out, "_")?;
    }
    Ok(out)
}

// Puts the text of a pointer.
fn put_pointer(out: &mut String, op: Ptr<Operation>) -> Result<(), Memory>
    ensures { OnOk result (string_bytes out.new ≡ string_bytes out.old ++ pointer_text (codes "op") op) }
{
    write!(out, "{op}")?;
    Ok(())
}

// Puts `_res` and an index.
fn put_place(out: &mut String, place: usize) -> Result<(), Memory>
    ensures { OnOk result (string_bytes out.new ≡ string_bytes out.old ++ (codes "_res" ++ decimal place)) }
{
    write!(out, "_res{place}")?;
    Ok(())
}
