//! The interface of operations that use symbols.
ghost use Rattle.std.specs.Prelude.{◌≡◌, ℕ, List, Ok, IfOk, IfErr, OnOk};
ghost use Rattle.plir_core.specs.declared.ptr.IRNode.{IRNode as AnyNode};
ghost use Rattle.plir_core.specs.ContextView.{ContextView, IsLive};
ghost use Rattle.plir_builtin.specs.Agree.{AllAgree, AreGivenOut};
ghost use Rattle.plir_builtin.specs.SymbolUses.{IsUseRefusal};
ghost use Rattle.plir_data.specs.declared.location.Location.{Location as AnyLocation};

use crate::collection::SymbolTableCollection;
use plir_core::Context;
use plir_data::{Identifier, Memory, OpSet, VerifyErr};
use plir_iface::Op;
use std::alloc::Global;

/// Operations that use symbols by their names.
pub trait SymbolUserOpInterface<D: OpSet>: Op<D> {
    // The names that the operation uses.
    ghost names_used: { Self → ContextView D.Kind D.Attr D.Ty → List (List ℕ) };

    // The uses of the operation are right.
    ghost has_right_uses: { Self → ContextView D.Kind D.Attr D.Ty → Type 0 };

    // What may be reported of uses that are not right: a location, and an error.
    ghost use_refusal: { Self → ContextView D.Kind D.Attr D.Ty → AnyLocation → D.Err → Type 0 };

    /// Accepts exactly where the uses are right, where all tables of the collection agree, memory aside; they agree
    /// afterwards. Else reports what may be reported of these uses.
    fn verify_symbol_uses(
        &self,
        ctx: &Context<D>,
        tables: &mut SymbolTableCollection,
    ) -> Result<(), VerifyErr<D::Err>>
        requires { IsLive ctx.now (AnyNode.Operation (Self.pointer self.now)) }
        ensures ok { AllAgree D.is_symbol D.is_symbol_table ctx.now tables.old
            → OnOk result (has_right_uses self.now ctx.now) }
        ensures refused { AllAgree D.is_symbol D.is_symbol_table ctx.now tables.old
            → IfErr result (IsUseRefusal (has_right_uses self.now ctx.now) (use_refusal self.now ctx.now)) }
        ensures agree { AllAgree D.is_symbol D.is_symbol_table ctx.now tables.old
            → AllAgree D.is_symbol D.is_symbol_table ctx.now tables.new }
        ensures given { AreGivenOut ctx.now tables.old → AreGivenOut ctx.now tables.new };

    /// The names that the operation uses.
    fn used_symbols(&self, alloc: Global, ctx: &Context<D>) -> Result<Vec<Identifier>, Memory>
        requires { IsLive ctx.now (AnyNode.Operation (Self.pointer self.now)) }
        ensures { IfOk result (λ names. names.items ≡ names_used self.now ctx.now) };

    /// Accepts always.
    final fn verify(&self, _ctx: &Context<D>) -> Result<(), Memory>
        ensures { result ≡ Ok tt }
    {
        Ok(())
    }
}
