//! How a table reads the symbols of a block.
ghost use Rattle.std.specs.Prelude.{◌≡◌, ◌++◌, [], Some, OnOk, IfErr};
ghost use Rattle.plir_core.specs.declared.ptr.IRNode.{IRNode as AnyNode};
ghost use Rattle.plir_core.specs.ContextView.{IsLive};
ghost use Rattle.plir_builtin.specs.Symbols.{symbols_in, symbols_of};
ghost use Rattle.plir_builtin.specs.Refusals.{Reports, redefined};
ghost use Rattle.plir_builtin.specs.Reading.{IsRead, ReadsOn, RefusesOn, IsFirstRefusalAt};

use crate::symbol_table::SymbolTable;
use crate::symbol_table_err::SymbolTableErr;
use crate::symbols::{SymbolOpInterfaceErr, is_symbol, symbol_name};
use plir_core::laws::{first_child_is_front, next_is_behind};
use plir_core::{BasicBlock, Context, IRNode, Operation, Ptr};
use plir_data::{Identifier, OpSet};
use std::alloc::Global;

/// The refusal of a name that another symbol has.
pub(crate) fn redefined(alloc: Global, name: &Identifier) -> SymbolTableErr
    ensures { Reports (λ r. r ≡ redefined name.now) result }
{
    match String::from_str(alloc, name.as_str()) {
        Ok(text) => SymbolTableErr::SymbolRedefined(text),
        Err(_) => SymbolTableErr::Memory,
    }
}

/// A symbol that a table refuses, and why.
#[derive(Drop)]
pub(crate) struct RefusedSymbol {
    pub(crate) op: Ptr<Operation>,
    pub(crate) why: SymbolTableErr,
}

impl SymbolTable {
    /// Records an operation, if it is a symbol, behind those that were read.
    fn read_op<D: OpSet>(
        &mut self,
        ctx: &Context<D>,
        op: Ptr<Operation>,
    ) -> Result<(), SymbolTableErr>
        requires { IsLive ctx.now (AnyNode.Operation op) }
        ensures op { self.new.op ≡ self.old.op }
        ensures read { OnOk result (ReadsOn self.old (symbols_of D.is_symbol ctx.now op) self.new) }
        ensures refused { IfErr result (Reports (RefusesOn self.old op (symbols_of D.is_symbol ctx.now op))) }
    {
        if !is_symbol(ctx, op) {
            return Ok(());
        }
        let Some(name) = symbol_name(ctx, op) else {
            return Err(SymbolTableErr::Unnamed(SymbolOpInterfaceErr));
        };
        let copy = name.try_clone(self.alloc)?;
        let before = self.record_name(copy, op)?;
        if before.is_some() {
            return Err(redefined(self.alloc, name));
        }
        Ok(())
    }

    /// Records the symbols of a block, up to the first that is refused.
    pub(crate) fn read<D: OpSet>(
        &mut self,
        ctx: &Context<D>,
        block: Ptr<BasicBlock>,
    ) -> Result<(), RefusedSymbol>
        requires live { IsLive ctx.now (AnyNode.BasicBlock block) }
        requires read { IsRead [] self.old }
        ensures op { self.new.op ≡ self.old.op }
        ensures live { IfErr result (λ e. IsLive ctx.now (AnyNode.Operation e.op)) }
        ensures read { OnOk result (IsRead
            (symbols_in D.is_symbol ctx.now (Some (AnyNode.BasicBlock block))) self.new) }
        ensures refused { IfErr result (λ e. Reports (IsFirstRefusalAt e.op
            (symbols_in D.is_symbol ctx.now (Some (AnyNode.BasicBlock block)))) e.why) }
    {
        ctx.stands();
        first_child_is_front(ctx, IRNode::BasicBlock(block));
        let mut at = block.get_head(ctx);
        'ops: while let Some(op) = at {
            next_is_behind(ctx, IRNode::Operation(op));
            if let Err(why) = self.read_op(ctx, op) {
                return Err(RefusedSymbol { op, why });
            }
            at = op.get_next(ctx);
        }
        Ok(())
    }
}
