//! What a script has built so far, and what each command does to it.
ghost use Rattle.std.specs.Prelude.{IfOk};
ghost use Rattle.plir_core.specs.ContextView.{IsLive};
ghost use Rattle.plir_core.specs.declared.ptr.IRNode.{IRNode as AnyNode};
ghost use Rattle.plir_run.specs.Agreement.{TablesAgree};

use crate::command::{Command, read_command};
use crate::stop::Stop;
use crate::tables::{erase, insert};
use crate::walking::{print_symbols, print_walk};
use crate::writing::{print_line, print_named};
use plir_builtin::laws::{new_nodes_keep_agreement, no_tables_agree};
use plir_builtin::{FuncOp, ModuleOp, SymbolTableCollection};
use plir_core::{Context, Operation, Ptr};
use plir_data::{BuiltinSet, FunctionType, Identifier, OpSet};
use plir_print::{is_printable, print_op};
use plir_walk::{Direction, Order};
use std::alloc::Global;
use std::io::Write;

/// The modules and functions of a script, and their tables.
#[derive(Drop)]
pub struct Script {
    alloc: Global,
    ctx: Context<BuiltinSet>,
    tables: SymbolTableCollection,
    root: Option<Ptr<Operation>>,
    // The innermost one is last.
    open: Vec<Ptr<Operation>>,
}

impl Script {
    /// Nothing built yet.
    pub fn new(alloc: Global) -> Self
        ensures agree { TablesAgree ⟦<BuiltinSet as OpSet>⟧ result.ctx result.tables }
    {
        let ctx = Context::new(alloc);
        no_tables_agree(&ctx);
        Script {
            alloc,
            ctx,
            tables: SymbolTableCollection::new(alloc),
            root: None,
            open: Vec::new(alloc),
        }
    }

    /// Does what a line says.
    pub fn run_line<W: Write>(&mut self, line: &str, writer: &mut W) -> Result<(), Stop>
        requires agree { TablesAgree ⟦<BuiltinSet as OpSet>⟧ self.old.ctx self.old.tables }
        ensures agree { TablesAgree ⟦<BuiltinSet as OpSet>⟧ self.new.ctx self.new.tables }
    {
        match read_command(line) {
            None => Err(Stop::Refused),
            Some(Command::Nothing) => Ok(()),
            Some(Command::Module(name)) => self.add_module(name),
            Some(Command::Func(name)) => self.add_func(name),
            Some(Command::End) => self.close_module(),
            Some(Command::Walk(order, direction)) => self.walk(order, direction, writer),
            Some(Command::Lookup(name)) => self.look_up(name, writer),
            Some(Command::Erase(name)) => self.erase(name, writer),
            Some(Command::Symbols) => self.list_symbols(writer),
            Some(Command::Text) => self.print_text(writer),
        }
    }

    // The root, if there is none yet, or an operation of the innermost open module; it becomes the innermost open one.
    fn add_module(&mut self, name: &str) -> Result<(), Stop>
        requires agree { TablesAgree ⟦<BuiltinSet as OpSet>⟧ self.old.ctx self.old.tables }
        ensures agree { TablesAgree ⟦<BuiltinSet as OpSet>⟧ self.new.ctx self.new.tables }
    {
        if self.open.is_empty() && self.root.is_some() {
            return Err(Stop::Refused);
        }
        let name = Identifier::try_new(self.alloc, name)?;
        self.open.reserve(1)?;
        let op = match self.root {
            None => self.make_root(name)?,
            Some(_) => self.make_module(name)?,
        };
        self.open.push(op)?;
        Ok(())
    }

    // The first module of all.
    fn make_root(&mut self, name: Identifier) -> Result<Ptr<Operation>, Stop>
        requires agree { TablesAgree ⟦<BuiltinSet as OpSet>⟧ self.old.ctx self.old.tables }
        ensures agree { TablesAgree ⟦<BuiltinSet as OpSet>⟧ self.new.ctx self.new.tables }
    {
        self.ctx.stands();
        let made = ModuleOp::new(self.alloc, &mut self.ctx, name);
        new_nodes_keep_agreement(&self.ctx);
        let op = made?.operation();
        self.root = Some(op);
        Ok(op)
    }

    // A module in the innermost open one.
    fn make_module(&mut self, name: Identifier) -> Result<Ptr<Operation>, Stop>
        requires agree { TablesAgree ⟦<BuiltinSet as OpSet>⟧ self.old.ctx self.old.tables }
        ensures agree { TablesAgree ⟦<BuiltinSet as OpSet>⟧ self.new.ctx self.new.tables }
    {
        let target = self.innermost()?;
        self.ctx.stands();
        let made = ModuleOp::new(self.alloc, &mut self.ctx, name);
        new_nodes_keep_agreement(&self.ctx);
        let op = made?.operation();
        insert(&mut self.ctx, &mut self.tables, target, op)?;
        Ok(op)
    }

    // A function without arguments and results, in the innermost open module.
    fn add_func(&mut self, name: &str) -> Result<(), Stop>
        requires agree { TablesAgree ⟦<BuiltinSet as OpSet>⟧ self.old.ctx self.old.tables }
        ensures agree { TablesAgree ⟦<BuiltinSet as OpSet>⟧ self.new.ctx self.new.tables }
    {
        if self.open.is_empty() {
            return Err(Stop::Refused);
        }
        let name = Identifier::try_new(self.alloc, name)?;
        let target = self.innermost()?;
        let arguments = Vec::new(self.alloc);
        let results = Vec::new(self.alloc);
        self.ctx.stands();
        let ty = FunctionType::get(&mut self.ctx, arguments, results);
        self.ctx.stands();
        new_nodes_keep_agreement(&self.ctx);
        let ty = ty?;
        let made = FuncOp::new(self.alloc, &mut self.ctx, name, ty);
        new_nodes_keep_agreement(&self.ctx);
        let op = made?.operation();
        insert(&mut self.ctx, &mut self.tables, target, op)
    }

    // The innermost open module, else the root.
    fn innermost(&self) -> Result<Ptr<Operation>, Stop>
        ensures { IfOk result (λ op. IsLive self.now.ctx (AnyNode.Operation op)) }
    {
        match self.open.last().copied().or(self.root) {
            Some(op) if op.is_live(&self.ctx) => Ok(op),
            _ => Err(Stop::Refused),
        }
    }

    fn walk<W: Write>(
        &self,
        order: Order,
        direction: Direction,
        writer: &mut W,
    ) -> Result<(), Stop> {
        print_walk(&self.ctx, self.root()?, (order, direction), writer)
    }

    // The text of the root.
    fn print_text<W: Write>(&self, writer: &mut W) -> Result<(), Stop> {
        let root = self.root()?;
        if !is_printable(&self.ctx, root) {
            return Err(Stop::Refused);
        }
        let text = print_op(self.alloc, &self.ctx, root)?;
        print_line(writer, text.as_str())
    }

    // The root, which has to be there.
    fn root(&self) -> Result<Ptr<Operation>, Stop>
        ensures { IfOk result (λ op. IsLive self.now.ctx (AnyNode.Operation op)) }
    {
        match self.root {
            Some(root) if root.is_live(&self.ctx) => Ok(root),
            _ => Err(Stop::Refused),
        }
    }

    // Looks a name up from the innermost open module, else from the root.
    fn find(&mut self, name: &str) -> Result<Option<Ptr<Operation>>, Stop>
        requires agree { TablesAgree ⟦<BuiltinSet as OpSet>⟧ self.old.ctx self.old.tables }
        ensures agree { TablesAgree ⟦<BuiltinSet as OpSet>⟧ self.new.ctx self.new.tables }
    {
        let from = self.innermost()?;
        let name = Identifier::try_new(self.alloc, name)?;
        let found = self
            .tables
            .lookup_symbol_in_nearest_table(&self.ctx, from, &name)?;
        Ok(found)
    }

    fn look_up<W: Write>(&mut self, name: &str, writer: &mut W) -> Result<(), Stop>
        requires agree { TablesAgree ⟦<BuiltinSet as OpSet>⟧ self.old.ctx self.old.tables }
        ensures agree { TablesAgree ⟦<BuiltinSet as OpSet>⟧ self.new.ctx self.new.tables }
    {
        match self.find(name)? {
            Some(_) => print_named(writer, "found", name),
            None => print_line(writer, "none"),
        }
    }

    // Erases what has a name in the innermost open module, else in the root.
    fn erase<W: Write>(&mut self, name: &str, writer: &mut W) -> Result<(), Stop>
        requires agree { TablesAgree ⟦<BuiltinSet as OpSet>⟧ self.old.ctx self.old.tables }
        ensures agree { TablesAgree ⟦<BuiltinSet as OpSet>⟧ self.new.ctx self.new.tables }
    {
        let op = self.find(name)?.ok_or(Stop::Refused)?;
        let target = self.innermost()?;
        erase(&mut self.ctx, &mut self.tables, target, op)?;
        print_named(writer, "erased", name)
    }

    fn list_symbols<W: Write>(&self, writer: &mut W) -> Result<(), Stop> {
        print_symbols(&self.ctx, self.innermost()?, writer)
    }

    fn close_module(&mut self) -> Result<(), Stop>
        requires agree { TablesAgree ⟦<BuiltinSet as OpSet>⟧ self.old.ctx self.old.tables }
        ensures agree { TablesAgree ⟦<BuiltinSet as OpSet>⟧ self.new.ctx self.new.tables }
    {
        match self.open.pop() {
            None => Err(Stop::Refused),
            Some(_) => Ok(()),
        }
    }
}
