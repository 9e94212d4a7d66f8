//! What the commands have made so far, and what each does.
ghost use Rattle.std.specs.Prelude.{IfOk};
ghost use Rattle.plir_core.specs.ContextView.{IsLive};
ghost use Rattle.plir_core.specs.declared.ptr.IRNode.{IRNode as AnyNode};

use crate::blocks::build_blocks;
use crate::building::{build_bare, build_functions, live_op};
use crate::calls::{build_callers, build_calls};
use crate::chains::{build_chains, build_references};
use crate::command::{Command, Edit, Look, Shape, Task, read_command};
use crate::kinds::BenchSet;
use crate::naming::{build_symbol_chain, build_symbol_star};
use crate::order::Order;
use crate::passes::run_pass;
use crate::stop::Stop;
use crate::summing::{build_sums, build_zeros};
use crate::symbols::{
    erase_by_list, erase_through_table, look_up_names, look_up_texts, make_tables,
};
use crate::texts::{print_root, read_text};
use crate::types::look_up_types;
use crate::using::{Pair, build_users, list_uses, replace_uses};
use crate::walking::{walk_mutably, walk_nodes, walk_operations};
use plir_core::{Context, Operation, Ptr};
use std::alloc::Global;
use std::io::{BufRead, Write};

/// The module that was built last, how much is in it, the two values of the last one that has such, and the text that
/// was printed last.
#[derive(Drop)]
pub struct Bench {
    alloc: Global,
    root: Option<Ptr<Operation>>,
    built: u64,
    pair: Option<Pair>,
    text: String,
}

impl Bench {
    /// Nothing made yet.
    pub fn new(alloc: Global) -> Self {
        Bench {
            alloc,
            root: None,
            built: 0,
            pair: None,
            text: String::new(alloc),
        }
    }

    /// Carries out each line of a reader, and writes it with what was counted.
    pub fn run_lines<R: BufRead + Drop, W: Write>(
        &mut self,
        ctx: &mut Context<BenchSet>,
        reader: R,
        writer: &mut W,
    ) -> Result<(), Stop> {
        for line in reader.lines(self.alloc) {
            let line = line?;
            let count = self.run_line(ctx, line.as_str())?;
            writeln!(writer, "{line}: {count}")?;
        }
        Ok(())
    }

    fn run_line(&mut self, ctx: &mut Context<BenchSet>, line: &str) -> Result<u64, Stop> {
        let Command { task, number } = read_command(line).ok_or(Stop::Refused)?;
        match task {
            Task::Build(shape, order) => self.build(ctx, shape, number, order),
            Task::Pass(pass) => run_pass(self.alloc, ctx, self.root(ctx)?, pass),
            Task::Look(look) => self.look(ctx, look, number),
            Task::Edit(edit) => self.edit(ctx, edit, number),
            Task::Types => look_up_types(ctx, number),
        }
    }

    // Answers the number.
    fn build(
        &mut self,
        ctx: &mut Context<BenchSet>,
        shape: Shape,
        number: u64,
        order: Order,
    ) -> Result<u64, Stop> {
        let root = match shape {
            Shape::Users => self.build_users(ctx, number, order)?,
            _ => build_shape(self.alloc, ctx, shape, number, order)?,
        };
        self.root = Some(root);
        self.built = number;
        Ok(number)
    }

    fn build_users(
        &mut self,
        ctx: &mut Context<BenchSet>,
        number: u64,
        order: Order,
    ) -> Result<Ptr<Operation>, Stop> {
        let (root, pair) = build_users(self.alloc, ctx, number, order)?;
        self.pair = Some(pair);
        Ok(root)
    }

    // What changes nothing.
    fn look(&self, ctx: &Context<BenchSet>, look: Look, number: u64) -> Result<u64, Stop> {
        let root = self.root(ctx)?;
        match look {
            Look::Walk => Ok(walk_nodes(ctx, root, number)),
            Look::WalkOps => Ok(walk_operations(ctx, root, number)),
            Look::Table => make_tables(self.alloc, ctx, root, number),
            Look::LookUp => look_up_texts(self.alloc, ctx, root, self.built, number),
            Look::LookUpMade => look_up_names(self.alloc, ctx, root, self.built, number),
            Look::Uses => list_uses(self.alloc, ctx, self.pair()?, number),
        }
    }

    // What may change something.
    fn edit(&mut self, ctx: &mut Context<BenchSet>, edit: Edit, number: u64) -> Result<u64, Stop> {
        match edit {
            Edit::WalkMut => walk_mutably(ctx, self.root(ctx)?, number),
            Edit::Erase => erase_through_table(self.alloc, ctx, self.root(ctx)?, number),
            Edit::EraseList => erase_by_list(self.alloc, ctx, self.root(ctx)?, number),
            Edit::Replace => replace_uses(ctx, self.pair()?, number),
            Edit::Print => self.print(ctx, number),
            Edit::Read => read_text(self.alloc, ctx, self.text.as_str(), number),
        }
    }

    fn print(&mut self, ctx: &Context<BenchSet>, number: u64) -> Result<u64, Stop> {
        self.text = print_root(self.alloc, ctx, self.root(ctx)?, number)?;
        Ok(number)
    }

    // The module that was built last, while it is live.
    fn root(&self, ctx: &Context<BenchSet>) -> Result<Ptr<Operation>, Stop>
        ensures { IfOk result (λ op. IsLive ctx.now (AnyNode.Operation op)) }
    {
        let root = self.root.ok_or(Stop::Refused)?;
        live_op(ctx, root)?;
        Ok(root)
    }

    // The two values of the module that was built last of those that have such.
    fn pair(&self) -> Result<Pair, Stop> {
        self.pair.ok_or(Stop::Refused)
    }
}

// Builds a module, of whose values none is remembered.
fn build_shape(
    alloc: Global,
    ctx: &mut Context<BenchSet>,
    shape: Shape,
    number: u64,
    order: Order,
) -> Result<Ptr<Operation>, Stop> {
    match shape {
        Shape::Functions => build_functions(alloc, ctx, number),
        Shape::Bare => build_bare(alloc, ctx, number),
        Shape::Chains => build_chains(alloc, ctx, number, order),
        Shape::Blocks => build_blocks(alloc, ctx, number, order),
        Shape::Sums => build_sums(alloc, ctx, number, order),
        Shape::Zeros => build_zeros(alloc, ctx, number, order),
        Shape::References => build_references(alloc, ctx, number, order),
        Shape::Calls => build_calls(alloc, ctx, number, order),
        Shape::Callers => build_callers(alloc, ctx, number, order),
        Shape::SymbolChain => build_symbol_chain(alloc, ctx, number, order),
        Shape::SymbolStar => build_symbol_star(alloc, ctx, number, order),
        Shape::Users => Err(Stop::Refused),
    }
}
