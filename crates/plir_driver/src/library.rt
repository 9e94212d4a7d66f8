//! The passes of the library.
ghost use Rattle.std.specs.Prelude.{◌≡◌, ◌≢◌, IfErr, IfOk, OnErr, OnOk};
ghost use Rattle.plir_core.specs.ContextView.{IsLive};
ghost use Rattle.plir_core.specs.declared.ptr.IRNode.{IRNode as AnyNode};
ghost use Rattle.plir_builtin.specs.Refusals.{IsTableRefusal, Reports};
ghost use Rattle.plir_symbols.specs.DeadSymbols.{HasNoDead};
ghost use Rattle.plir_symbols.specs.SweptSymbols.{AreSweeps, AreSwept};
ghost use Rattle.plir_driver.specs.LibraryPasses.{IsPassRefusal, IsPassed, IsSweepRefusal, IsSweptOf};
ghost use Rattle.plir_driver.specs.PassEnds.{IsEnd};

use crate::names::erase_names;
use crate::pass::Pass;
use crate::pass_end::{PassEnd, end_of_erasures};
use crate::pass_err::PassErr;
use plir_builtin::laws::no_tables_agree;
use plir_builtin::{SymbolTableCollection, SymbolTableErr};
use plir_core::{Context, IRNode, Operation, Ptr};
use plir_passes::{EffectSet, eliminate_unreached_code};
use plir_pipelines::{Offered, PassOption};
use plir_symbols::{SymbolNames, eliminate_dead_symbols};
use plir_walk::laws::lawful_changes;
use std::alloc::Global;

/// A pass of the library. Over each op set that tells which of its operations have an effect, which names they use and
/// which symbols are private, it is a [`Pass`].
#[derive(Clone, Copy, Debug, PartialEq, Eq)]
pub enum LibraryPass {
    /// `erase-names`: takes out the names of results and arguments, and the labels of blocks.
    EraseNames,
    /// `dce`: erases what is not reached, as [`eliminate_unreached_code`] does.
    Dce,
    /// `symbol-dce`: erases the dead symbols of the operation, which is a symbol table, as [`eliminate_dead_symbols`]
    /// does.
    SymbolDce,
}

impl LibraryPass {
    /// All of them.
    pub const ALL: [LibraryPass; 3] = [
        LibraryPass::EraseNames,
        LibraryPass::Dce,
        LibraryPass::SymbolDce,
    ];
}

// Erases what is not reached from an operation.
fn erase_unreached<D: EffectSet>(
    alloc: Global,
    ctx: &mut Context<D>,
    root: Ptr<Operation>,
) -> Result<PassEnd, PassErr>
    requires { IsLive ctx.old (AnyNode.Operation root) }
    ensures live { IsLive ctx.new (AnyNode.Operation root) }
    ensures end { IfOk result (IsEnd ctx.old ctx.new) }
    ensures exact { result ≡ Ok PassEnd.Changed → ctx.new ≢ ctx.old }
    ensures swept { OnOk result (IsSweptOf D.has_effect D.is_terminator root ctx.old ctx.new) }
    ensures refused { IfErr result (IsSweepRefusal root ctx.old) }
    ensures same { OnErr result (ctx.new ≡ ctx.old) }
{
    lawful_changes::<D>();
    ctx.stands();
    if !IRNode::Operation(root).is_unused_outside(ctx) {
        let why = "a value or a block of the operation is used outside it";
        return Err(PassErr::Unfit { why });
    }
    let live_before = ctx.num_live();
    eliminate_unreached_code(alloc, ctx, root)?;
    Ok(end_of_erasures(ctx, live_before))
}

// Erases the dead symbols of a table.
fn erase_symbols<D: SymbolNames>(
    alloc: Global,
    ctx: &mut Context<D>,
    table: Ptr<Operation>,
) -> Result<PassEnd, SymbolTableErr>
    requires { IsLive ctx.old (AnyNode.Operation table) }
    ensures live { IsLive ctx.new (AnyNode.Operation table) }
    ensures end { IfOk result (IsEnd ctx.old ctx.new) }
    ensures exact { result ≡ Ok PassEnd.Changed → ctx.new ≢ ctx.old }
    ensures swept { AreSwept D.is_symbol D.is_private ctx.old ctx.new }
    ensures sweeps { (ms : _) × AreSweeps D.is_symbol D.is_private D.is_symbol_table D.names_used table ctx.old ms
        ctx.new }
    ensures clean { OnOk result (HasNoDead D.is_symbol D.is_private D.is_symbol_table D.names_used ctx.new table) }
    ensures refused { IfErr result (Reports (IsTableRefusal D.is_symbol D.is_symbol_table ctx.old table)) }
{
    no_tables_agree(ctx);
    let mut tables = SymbolTableCollection::new(alloc);
    let live_before = ctx.num_live();
    eliminate_dead_symbols(alloc, ctx, &mut tables, table)?;
    Ok(end_of_erasures(ctx, live_before))
}

// Runs a pass over an operation and all below it.
fn run_library<D: EffectSet + SymbolNames>(
    alloc: Global,
    pass: LibraryPass,
    ctx: &mut Context<D>,
    root: Ptr<Operation>,
) -> Result<PassEnd, PassErr>
    requires { IsLive ctx.old (AnyNode.Operation root) }
    ensures live { IsLive ctx.new (AnyNode.Operation root) }
    ensures end { IfOk result (IsEnd ctx.old ctx.new) }
    ensures exact { result ≡ Ok PassEnd.Changed → ctx.new ≢ ctx.old }
    ensures passed { OnOk result (IsPassed D.has_effect D.is_terminator D.is_symbol D.is_symbol_table D.is_private
        D.names_used pass root ctx.old ctx.new) }
    ensures stopped { IfErr result (IsPassRefusal D.is_symbol D.is_symbol_table pass root ctx.old) }
{
    match pass {
        LibraryPass::EraseNames => Ok(erase_names(ctx, root)),
        LibraryPass::Dce => erase_unreached(alloc, ctx, root),
        LibraryPass::SymbolDce => Ok(erase_symbols(alloc, ctx, root)?),
    }
}

impl Offered for LibraryPass {
    ghost use Rattle.std.specs.Prelude.{[]};
    ghost use Rattle.plir_driver.specs.LibraryPasses.{library_name};

    ghost pass_name = { library_name };

    ghost pass_options = { λ _. [] };

    ghost with_option = { λ pass _ _. pass };

    fn name(self) -> &'static str {
        match self {
            LibraryPass::EraseNames => "erase-names",
            LibraryPass::Dce => "dce",
            LibraryPass::SymbolDce => "symbol-dce",
        }
    }

    fn help(self) -> &'static str {
        match self {
            LibraryPass::EraseNames => {
                "Pass: take out the names of results and arguments, and the labels of blocks"
            }
            LibraryPass::Dce => "Pass: erase operations that no operation with an effect needs",
            LibraryPass::SymbolDce => {
                "Pass: erase private functions and modules right in the module that nothing uses"
            }
        }
    }

    fn options(self) -> &'static [PassOption] {
        &[]
    }

    fn with(self, _place: usize, _number: u64) -> Self {
        self
    }
}

impl<D: EffectSet + SymbolNames> Pass<D> for LibraryPass {
    ghost has_passed = { IsPassed D.has_effect D.is_terminator D.is_symbol D.is_symbol_table D.is_private
        D.names_used };

    ghost may_stop = { IsPassRefusal D.is_symbol D.is_symbol_table };

    /// Runs it. It says that something has changed exactly where something has.
    ///
    /// # Errors
    ///
    /// `dce` stops where something outside uses a value or a block of the operation's tree: then nothing has changed;
    /// `symbol-dce` as [`eliminate_dead_symbols`].
    fn run(
        self,
        alloc: Global,
        ctx: &mut Context<D>,
        root: Ptr<Operation>,
    ) -> Result<PassEnd, PassErr>
        requires { IsLive ctx.old (AnyNode.Operation root) }
        ensures live { IsLive ctx.new (AnyNode.Operation root) }
        ensures end { IfOk result (IsEnd ctx.old ctx.new) }
        ensures exact { result ≡ Ok PassEnd.Changed → ctx.new ≢ ctx.old }
        ensures passed { OnOk result (IsPassed D.has_effect D.is_terminator D.is_symbol D.is_symbol_table D.is_private
            D.names_used self root ctx.old ctx.new) }
        ensures stopped { IfErr result (IsPassRefusal D.is_symbol D.is_symbol_table self root ctx.old) }
    {
        run_library(alloc, self, ctx, root)
    }
}
