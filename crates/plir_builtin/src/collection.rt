//! Symbol tables, each cached for its operation.
ghost use Rattle.std.specs.Prelude.{◌≡◌, ◌↔◌, Some, None, OnOk, OnErr, IsTrue, IsSome, IfSome, option_map};
ghost use Rattle.std.specs.FinMap as map;

use crate::symbol_table::SymbolTable;
use plir_core::{Operation, Ptr};
use plir_data::{Identifier, Memory};
use std::alloc::Global;
use std::collections::HashMap;
use std::marker::Model;

/// Symbol tables, each cached for its operation.
#[derive(Drop)]
pub struct SymbolTableCollection {
    tables: HashMap<Ptr<Operation>, SymbolTable>,
    pub(crate) alloc: Global,
}

impl Model for SymbolTableCollection {
    ghost use Rattle.std.specs.FinMap as map;
    ghost use Rattle.plir_builtin.specs.Table.{Tables, tables_code};

    ghost Value = { Tables };

    ghost coded = { tables_code };

    ghost view = { λ c. map.from_entries c.tables.entries };
}

impl SymbolTableCollection {
    ghost use Rattle.std.specs.Borrow.{sem};
    ghost use Rattle.plir_builtin.specs.Lends.{LendsCached};

    /// No tables.
    pub fn new(alloc: Global) -> SymbolTableCollection
        ensures { result ≡ map.empty }
    {
        SymbolTableCollection {
            tables: HashMap::new(alloc),
            alloc,
        }
    }

    /// Whether a table is cached for an operation.
    pub(crate) fn is_cached(&self, op: Ptr<Operation>) -> bool
        ensures { IsTrue result ↔ IsSome (map.get self.now op) }
    {
        self.tables.contains_key(&op)
    }

    /// Caches a table for an operation.
    pub(crate) fn cache(&mut self, op: Ptr<Operation>, table: SymbolTable) -> Result<(), Memory>
        ensures ok { OnOk result (self.new ≡ map.insert self.old op table) }
        ensures err { OnErr result (self.new ≡ self.old) }
    {
        self.tables.insert(op, table)?;
        Ok(())
    }

    /// The operation that is recorded under a name in the table that is cached for an operation.
    pub(crate) fn find(&self, op: Ptr<Operation>, name: &Identifier) -> Option<Ptr<Operation>>
        ensures { IfSome (map.get self.now op) (λ t. result ≡ map.get t.names name.now) }
    {
        match self.tables.get(&op) {
            Some(table) => table.lookup(name),
            None => None,
        }
    }

    /// The operation whose table is cached for an operation.
    pub(crate) fn owner(&self, op: Ptr<Operation>) -> Option<Ptr<Operation>>
        ensures { result ≡ option_map (λ t. t.op) (map.get self.now op) }
    {
        match self.tables.get(&op) {
            Some(table) => Some(table.get_operation()),
            None => None,
        }
    }

    /// The table that is cached for an operation.
    pub(crate) fn cached(&mut self, op: Ptr<Operation>) -> Option<&mut SymbolTable>
        ensures* writes_back { sem 𝓛 (LendsCached self.entry op result) }
        ensures value { option_map (λ t. t.now) result ≡ map.get self.old op }
    {
        self.tables.get_mut(&op)
    }
}
