//! Modules. The other builtin operations are written in the same form, and so may be one of a user's own:
//!
//! 1. A struct around a pointer, with an `impl` of `Op` whose ghost `pointer` is that pointer.
//! 2. A constructor, which says by `IsMade` that a tree is new, and by a word of `specs/BuiltinOps.antt` what its nodes
//!    hold; `new_with_block` makes one with a block in it. And `from_operation`, which asks the kind.
//! 3. An `impl` for each interface that it declares, and for their parents; most are empty.
//! 4. A rule of its own, if it has one: a word, and a `verify` that accepts exactly where it holds.
//! 5. The rules of all of these as a record (`specs/OpRules.antt`), how the first that is broken is reported
//!    (`specs/OpRefusals.antt`), and `verify_interfaces`, which verifies them in that order, each `reported` as a
//!    refusal of the operation; a law says that so each call that it offers may be made (`laws.rt`).
ghost use Rattle.std.specs.Prelude.{◌≡◌, ◌↔◌, true, Some, Ok, OnOk, OnErr, IfOk, IfErr, IfSome, IsSome};
ghost use Rattle.std.specs.Prelude.{◌<◌, ◌+◌, Err, IsErr};
ghost use Rattle.plir_store.specs.Table.{next_slot};
ghost use Rattle.plir_data.specs.declared.op_set.OpKind.{OpKind as AnyKind};
ghost use Rattle.plir_core.specs.Changes.{SameLive};
ghost use Rattle.plir_core.specs.Made.{IsMade};
ghost use Rattle.plir_core.specs.Nodes.{ptr_at};
ghost use Rattle.plir_core.specs.ContextView.{IsLive, given_out, kind_of, limit, num_live};
ghost use Rattle.plir_core.specs.WellFormed.{IsWellFormed};
ghost use Rattle.plir_core.specs.declared.ptr.IRNode.{IRNode as AnyNode};
ghost use Rattle.plir_builtin.specs.BuiltinOps.{IsFullForOneBlock, IsModuleMade, IsNewModule};
ghost use Rattle.plir_builtin.specs.OpRules.{HasModuleRules};
ghost use Rattle.plir_builtin.specs.OpRefusals.{IsModuleRefusal};

use crate::op_making::{named, new_with_block};
use crate::op_verify_err::{OpVerifyErr, reported};
use crate::symbol_op::SymbolOpInterface;
use crate::symbol_table_op::SymbolTableInterface;
use crate::symbol_users::SymbolUserSet;
use plir_core::{Context, NodeErr, Operation, Ptr};
use plir_data::{Identifier, Memory, OpKind, OpSet, VerifyErr};
use plir_iface::{
    IsolatedFromAboveInterface, NOpdsInterface, NResultsInterface, NoTerminatorInterface,
    OneRegionInterface, Op, RegionKind, RegionKindInterface, SingleBlockRegionInterface,
};
use std::alloc::Global;

/// A module, the container at the top: a symbol and a symbol table with one region of one block, which has no
/// terminator.
#[derive(Clone, Copy)]
pub struct ModuleOp {
    op: Ptr<Operation>,
}

impl ModuleOp {
    /// A new module of a name, in no block. `TooManyNodes` comes only where there is no room for the module, its
    /// region and its block. After a refusal no live node has changed.
    pub fn new<D: OpSet>(
        alloc: Global,
        ctx: &mut Context<D>,
        name: Identifier,
    ) -> Result<ModuleOp, NodeErr>
        ensures made { IfOk result (λ m. IsMade ctx.old.nodes ctx.new.nodes (AnyNode.Operation m.op)) }
        ensures pointer { IfOk result (λ m. m.op ≡ ptr_at ctx.new.nodes.ops (next_slot ctx.old.nodes.ops)) }
        ensures tree { IfOk result (λ m. IsNewModule ctx.new m.op name) }
        ensures after { OnOk result (IsModuleMade ctx.old ctx.new name) }
        ensures types { ctx.new.types ≡ ctx.old.types }
        ensures given { (n : AnyNode) → given_out ctx.old n ≡ true → given_out ctx.new n ≡ true }
        ensures err { OnErr result (SameLive ctx.old ctx.new) }
        ensures too_many { limit ctx.old < num_live ctx.old + 3 → IsErr result }
        ensures too_many_only { result ≡ Err NodeErr.TooManyNodes → IsFullForOneBlock ctx.old }
        ensures whole { IsWellFormed D.attr_handles ctx.new }
    {
        ctx.stands();
        let attributes = named(alloc, name)?;
        let arg_types = Vec::new(alloc);
        let op = new_with_block(alloc, ctx, OpKind::Module, attributes, None, arg_types)?;
        Ok(ModuleOp { op })
    }

    /// The operation, without the op set to be named.
    pub fn operation(self) -> Ptr<Operation>
        ensures { result ≡ self.op }
    {
        self.op
    }

    /// The operation as a module, if it is one.
    pub fn from_operation<D: OpSet>(ctx: &Context<D>, op: Ptr<Operation>) -> Option<ModuleOp>
        requires { IsLive ctx.now (AnyNode.Operation op) }
        ensures found { IsSome result ↔ (kind_of ctx.now op ≡ Some AnyKind.Module) }
        ensures same { IfSome result (λ m. m.op ≡ op) }
    {
        match op.kind(ctx) {
            OpKind::Module => Some(ModuleOp { op }),
            _ => None,
        }
    }
}

impl<D: OpSet> Op<D> for ModuleOp {
    ghost pointer = { λ m. m.op };

    fn get_operation(&self) -> Ptr<Operation> {
        self.op
    }
}

impl<D: OpSet> OneRegionInterface<D> for ModuleOp {}

impl<D: OpSet> SingleBlockRegionInterface<D> for ModuleOp {}

impl<D: OpSet> SymbolTableInterface<D> for ModuleOp {}

impl<D: OpSet> SymbolOpInterface<D> for ModuleOp {}

impl<D: OpSet> IsolatedFromAboveInterface<D> for ModuleOp {}

impl<D: OpSet> NOpdsInterface<D, 0> for ModuleOp {}

impl<D: OpSet> NResultsInterface<D, 0> for ModuleOp {}

impl<D: OpSet> NoTerminatorInterface<D> for ModuleOp {}

impl<D: OpSet> RegionKindInterface<D> for ModuleOp {
    ghost use Rattle.plir_iface.specs.declared.kinds.RegionKind.TheVariants.{Graph};

    ghost region_kind = { λ m i. Graph };

    fn get_region_kind(&self, _region: usize) -> RegionKind {
        RegionKind::Graph
    }
}

impl ModuleOp {
    /// Accepts always: a module has no rule but those of its interfaces.
    pub fn verify<D: OpSet>(&self, _ctx: &Context<D>) -> Result<(), Memory>
        ensures { result ≡ Ok tt }
    {
        Ok(())
    }

    /// Accepts exactly where the rules of all interfaces that a module declares hold, memory aside: one region, of one
    /// block, a symbol table that is right, a name, no operand and no result. Else reports the refusal of the first, in
    /// this order.
    pub fn verify_interfaces<D: SymbolUserSet>(
        &self,
        alloc: Global,
        ctx: &Context<D>,
    ) -> Result<(), VerifyErr<OpVerifyErr<D::Err>>>
        requires live { IsLive ctx.now (AnyNode.Operation self.now.op) }
        requires module_kind { kind_of ctx.now self.now.op ≡ Some AnyKind.Module }
        ensures ok { OnOk result (HasModuleRules D.is_symbol D.is_symbol_table D.is_symbol_user D.uses_hold ctx.now
            self.now.op) }
        ensures refused { IfErr result (IsModuleRefusal ctx.now self.now.op D.kind_id
            D.is_symbol D.is_symbol_table D.is_symbol_user D.uses_hold D.use_refusal) }
        ensures whole { IsWellFormed D.attr_handles ctx.now }
    {
        ctx.stands();
        reported(OneRegionInterface::<D>::verify(self, ctx))?;
        reported(SingleBlockRegionInterface::<D>::verify(self, ctx))?;
        reported(SymbolTableInterface::<D>::verify(self, alloc, ctx))?;
        reported(SymbolOpInterface::<D>::verify(self, ctx))?;
        reported(NOpdsInterface::<D, 0>::verify(self, ctx))?;
        reported(NResultsInterface::<D, 0>::verify(self, ctx))
    }
}
