//! Looking symbols up through cached tables.
ghost use Rattle.std.specs.Prelude.{◌≡◌, Some, None, IfOk, IfErr, IfSome, IsSome, OnOk, OnErr};
ghost use Rattle.std.specs.FinMap as map;
ghost use Rattle.plir_core.specs.declared.ptr.IRNode.{IRNode as AnyNode};
ghost use Rattle.plir_core.specs.ContextView.{IsLive};
ghost use Rattle.plir_builtin.specs.Symbols.{IsGood, scan};
ghost use Rattle.plir_builtin.specs.Agree.{Agrees, AgreesAsLent, AllAgree, AreGivenOut, IsBrought, IsNewlyCached};
ghost use Rattle.plir_builtin.specs.Nearest.{IsAnsweredNearest, IsFoundNearest, IsNearestRefusal};
ghost use Rattle.plir_builtin.specs.Refusals.{Reports, IsTableRefusal, IsTableWithBody};

use crate::collection::SymbolTableCollection;
use crate::nearest::nearest_symbol_table;
use crate::symbol_table::SymbolTable;
use crate::symbol_table_err::SymbolTableErr;
use plir_core::{Context, Operation, Ptr};
use plir_data::{Identifier, OpSet};

impl SymbolTableCollection {
    ghost use Rattle.std.specs.Borrow.{sem};
    ghost use Rattle.plir_builtin.specs.Lends.{LendsTable};

    /// Caches a new table for an operation for which none is cached.
    pub(crate) fn bring<D: OpSet>(
        &mut self,
        ctx: &Context<D>,
        op: Ptr<Operation>,
    ) -> Result<(), SymbolTableErr>
        requires { IsLive ctx.now (AnyNode.Operation op) }
        ensures kept { OnOk result (IsSome (map.get self.old op) → self.new ≡ self.old) }
        ensures made { OnOk result (map.get self.old op ≡ None →
            IsNewlyCached D.is_symbol D.is_symbol_table ctx.now self.old op self.new) }
        ensures absent { OnErr result (map.get self.old op ≡ None) }
        ensures given { AreGivenOut ctx.now self.old → AreGivenOut ctx.now self.new }
        ensures refused { IfErr result (Reports (IsTableRefusal D.is_symbol D.is_symbol_table ctx.now op)) }
        ensures memory { result ≡ Err SymbolTableErr.Memory → IsTableWithBody D.is_symbol_table ctx.now op }
        ensures same { OnErr result (self.new ≡ self.old) }
    {
        ctx.stands();
        if self.is_cached(op) {
            return Ok(());
        }
        let table = SymbolTable::new(self.alloc, ctx, op)?;
        self.cache(op, table)?;
        Ok(())
    }

    /// The table that is cached for an operation, else its new table, which is now cached. Refused exactly as
    /// [`SymbolTable::new`], and only where no table is cached; after a refusal all is as before.
    pub fn get_symbol_table<D: OpSet>(
        &mut self,
        ctx: &Context<D>,
        op: Ptr<Operation>,
    ) -> Result<&mut SymbolTable, SymbolTableErr>
        requires { IsLive ctx.now (AnyNode.Operation op) }
        ensures* writes_back { sem 𝓛 (LendsTable self.entry op result) }
        ensures cached { IfOk result (λ t. IfSome (map.get self.old op) (λ u. t.now ≡ u)) }
        ensures made { IfOk result (λ t. map.get self.old op ≡ None → (t.now.op ≡ op) ×
            Agrees D.is_symbol D.is_symbol_table ctx.now t.now) }
        ensures agree { IfOk result (λ t. AllAgree D.is_symbol D.is_symbol_table ctx.now self.old →
            AgreesAsLent D.is_symbol D.is_symbol_table ctx.now self.old op t.now) }
        ensures given { IfOk result (λ t. AreGivenOut ctx.now self.old →
            AreGivenOut ctx.now (map.insert self.old op t.now)) }
        ensures absent { OnErr result (map.get self.old op ≡ None) }
        ensures refused { IfErr result (Reports (IsTableRefusal D.is_symbol D.is_symbol_table ctx.now op)) }
    {
        if let Err(refused) = self.bring(ctx, op) {
            return Err(refused);
        }
        match self.cached(op) {
            Some(table) => Ok(table),
            None => unreachable!(),
        }
    }

    /// The operation that is recorded under a name in the table that is cached for an operation, else in its new table,
    /// which is now cached. While all tables agree, that is the first symbol in the body with the name. Refused exactly
    /// as [`SymbolTable::new`], and only where no table is cached; after a refusal all is as before.
    pub fn lookup_symbol_in_table<D: OpSet>(
        &mut self,
        ctx: &Context<D>,
        table: Ptr<Operation>,
        name: &Identifier,
    ) -> Result<Option<Ptr<Operation>>, SymbolTableErr>
        requires live { IsLive ctx.now (AnyNode.Operation table) }
        ensures found { AllAgree D.is_symbol D.is_symbol_table ctx.now self.old →
            IfOk result (λ r. r ≡ scan D.is_symbol ctx.now table name.now) }
        ensures good { AllAgree D.is_symbol D.is_symbol_table ctx.now self.old →
            OnOk result (IsGood D.is_symbol D.is_symbol_table ctx.now table) }
        ensures agree { AllAgree D.is_symbol D.is_symbol_table ctx.now self.old →
            AllAgree D.is_symbol D.is_symbol_table ctx.now self.new }
        ensures given { AreGivenOut ctx.now self.old → AreGivenOut ctx.now self.new }
        ensures recorded { IfOk result (λ r. IfSome (map.get self.new table) (λ t. r ≡ map.get t.names name.now)) }
        ensures kept { IsSome (map.get self.old table) → self.new ≡ self.old }
        ensures brought { OnOk result (IsBrought D.is_symbol D.is_symbol_table ctx.now self.old table self.new) }
        ensures refused { IfErr result (Reports (IsTableRefusal D.is_symbol D.is_symbol_table ctx.now table)) }
        ensures memory { result ≡ Err SymbolTableErr.Memory → IsTableWithBody D.is_symbol_table ctx.now table }
        ensures same { OnErr result ((self.new ≡ self.old) × (map.get self.old table ≡ None)) }
    {
        if let Err(refused) = self.bring(ctx, table) {
            return Err(refused);
        }
        Ok(self.find(table, name))
    }

    /// The operation that is recorded under a name in the nearest table at or above an operation, none if there is no
    /// such table: [`SymbolTableCollection::lookup_symbol_in_table`] with that table, which is now cached. Refused
    /// exactly as [`SymbolTable::new`] for that table, and only where it is not cached; after a refusal all is as
    /// before.
    pub fn lookup_symbol_in_nearest_table<D: OpSet>(
        &mut self,
        ctx: &Context<D>,
        from: Ptr<Operation>,
        name: &Identifier,
    ) -> Result<Option<Ptr<Operation>>, SymbolTableErr>
        requires live { IsLive ctx.now (AnyNode.Operation from) }
        ensures found { AllAgree D.is_symbol D.is_symbol_table ctx.now self.old →
            IfOk result (IsFoundNearest D.is_symbol D.is_symbol_table ctx.now from name.now) }
        ensures agree { AllAgree D.is_symbol D.is_symbol_table ctx.now self.old →
            AllAgree D.is_symbol D.is_symbol_table ctx.now self.new }
        ensures given { AreGivenOut ctx.now self.old → AreGivenOut ctx.now self.new }
        ensures answered { IfOk result (IsAnsweredNearest D.is_symbol D.is_symbol_table ctx.now self.old self.new from
            name.now) }
        ensures refused { IfErr result (IsNearestRefusal D.is_symbol D.is_symbol_table ctx.now self.old from) }
        ensures same { OnErr result (self.new ≡ self.old) }
    {
        match nearest_symbol_table(ctx, from) {
            None => Ok(None),
            Some(table) => self.lookup_symbol_in_table(ctx, table, name),
        }
    }
}
