//! Calls over which tables that agreed agree. The premises of each law are what its call says, and nothing is tested
//! but what the call itself asks.
ghost use Rattle.std.specs.Prelude.{◌≡◌, None};
ghost use Rattle.plir_core.specs.declared.ptr.IRNode.{IRNode as AnyNode};
ghost use Rattle.plir_core.specs.ContextView.{IsAncestor, IsLive, IsValueLive, parent_of};
ghost use Rattle.plir_core.specs.Unused.{IsUnusedOutside};
ghost use Rattle.plir_builtin.specs.Agree.{AllAgree, AreGivenOut};
ghost use Rattle.plir_agreement.specs.Lasts.{AreOfLive, IsNoSymbol, Lasts, SymbolsStay};
ghost use Rattle.plir_passes.specs.Rewrites.{IsRewrite, Rewrite};

use plir_agreement::{
    conversions_keep_agreement, dead_code_keeps_agreement, edits_keep_agreement,
    moves_keep_agreement, refused_reads_keep_agreement,
};
use plir_attr_text::ReadErr;
use plir_builtin::SymbolTableCollection;
use plir_builtin::laws::{new_nodes_keep_agreement, stayed_tables_agree};
use plir_core::laws::op_edits_keep_the_rest;
use plir_core::{BasicBlock, Context, NodeErr, Operation, Ptr, Value};
use plir_data::{Location, Memory, OpSet};
use plir_folding::laws::folding_keeps_tables;
use plir_folding::{FoldSet, fold_constants};
use plir_passes::{Conversion, EffectSet, convert, eliminate_dead_code};
use plir_read::read_op;
use std::alloc::Global;

/// Sets the location of an operation.
pub fn relocate<D: OpSet>(
    ctx: &mut Context<D>,
    op: Ptr<Operation>,
    location: Location,
    tables: &SymbolTableCollection,
)
    requires live { IsLive ctx.old (AnyNode.Operation op) }
    requires agree { AllAgree D.is_symbol D.is_symbol_table ctx.old tables.now }
    ensures { AllAgree D.is_symbol D.is_symbol_table ctx.new tables.now }
{
    ctx.stands();
    edits_keep_agreement::<D>();
    op_edits_keep_the_rest(ctx, op);
    op.set_loc(ctx, location);
}

/// Puts one value in place of another one everywhere.
pub fn replace_uses<D: OpSet>(
    ctx: &mut Context<D>,
    value: Value,
    other: Value,
    tables: &SymbolTableCollection,
)
    requires other_live { IsValueLive ctx.old other }
    requires agree { AllAgree D.is_symbol D.is_symbol_table ctx.old tables.now }
    ensures { AllAgree D.is_symbol D.is_symbol_table ctx.new tables.now }
{
    ctx.stands();
    edits_keep_agreement::<D>();
    value.replace_all_uses_with(ctx, other);
}

/// Puts an operation that is no symbol at a block's end.
pub fn append<D: OpSet>(
    ctx: &mut Context<D>,
    op: Ptr<Operation>,
    block: Ptr<BasicBlock>,
    tables: &SymbolTableCollection,
)
    requires live { IsLive ctx.old (AnyNode.Operation op) }
    requires block_live { IsLive ctx.old (AnyNode.BasicBlock block) }
    requires unlinked { parent_of ctx.old (AnyNode.Operation op) ≡ None }
    requires not_above { IsAncestor ctx.old (AnyNode.Operation op) (AnyNode.BasicBlock block) → ⊥ }
    requires no_symbol { IsNoSymbol D.is_symbol ctx.old op }
    requires agree { AllAgree D.is_symbol D.is_symbol_table ctx.old tables.now }
    ensures { AllAgree D.is_symbol D.is_symbol_table ctx.new tables.now }
{
    ctx.stands();
    moves_keep_agreement::<D>();
    op.insert_at_back(ctx, block);
}

/// Erases an operation that is no symbol, with all below it.
pub fn erase<D: OpSet>(ctx: &mut Context<D>, op: Ptr<Operation>, tables: &SymbolTableCollection)
    requires live { IsLive ctx.old (AnyNode.Operation op) }
    requires unused { IsUnusedOutside ctx.old (AnyNode.Operation op) }
    requires no_symbol { IsNoSymbol D.is_symbol ctx.old op }
    requires agree { AllAgree D.is_symbol D.is_symbol_table ctx.old tables.now }
    ensures { AllAgree D.is_symbol D.is_symbol_table ctx.new tables.now }
{
    ctx.stands();
    moves_keep_agreement::<D>();
    Operation::erase(op, ctx);
}

/// Reads a text, or is refused one.
pub fn read<D: OpSet>(
    alloc: Global,
    ctx: &mut Context<D>,
    text: &str,
    tables: &SymbolTableCollection,
) -> Result<Ptr<Operation>, ReadErr>
    requires of_live { AreOfLive tables.now ctx.old }
    requires given { AreGivenOut ctx.old tables.now }
    requires agree { AllAgree D.is_symbol D.is_symbol_table ctx.old tables.now }
    ensures { AllAgree D.is_symbol D.is_symbol_table ctx.new tables.now }
{
    ctx.stands();
    refused_reads_keep_agreement::<D>();
    let answer = read_op(alloc, ctx, text);
    new_nodes_keep_agreement(ctx);
    match answer {
        Ok(root) => Ok(root),
        Err(refused) => Err(refused),
    }
}

/// Erases dead operations below one, none of which is a symbol.
pub fn sweep<D: EffectSet>(
    alloc: Global,
    ctx: &mut Context<D>,
    root: Ptr<Operation>,
    tables: &SymbolTableCollection,
) -> Result<(), Memory>
    requires live { IsLive ctx.old (AnyNode.Operation root) }
    requires symbols_stay { SymbolsStay D.is_symbol D.has_effect D.is_terminator }
    requires agree { AllAgree D.is_symbol D.is_symbol_table ctx.old tables.now }
    ensures { AllAgree D.is_symbol D.is_symbol_table ctx.new tables.now }
{
    ctx.stands();
    dead_code_keeps_agreement::<D>();
    let swept = eliminate_dead_code(alloc, ctx, root);
    ctx.stands();
    swept
}

/// Folds constants below an operation, and answers whether there were any.
pub fn fold<D: FoldSet>(
    alloc: Global,
    ctx: &mut Context<D>,
    root: Ptr<Operation>,
    tables: &SymbolTableCollection,
) -> Result<bool, NodeErr>
    requires live { IsLive ctx.old (AnyNode.Operation root) }
    requires given { AreGivenOut ctx.old tables.now }
    requires agree { AllAgree D.is_symbol D.is_symbol_table ctx.old tables.now }
    ensures { AllAgree D.is_symbol D.is_symbol_table ctx.new tables.now }
{
    ctx.stands();
    folding_keeps_tables::<D>();
    stayed_tables_agree::<D>();
    fold_constants(alloc, ctx, root)
}

/// Converts what stands below an operation, where tables that agreed agree after each call of the conversion's
/// `rewrite`.
pub fn lower<D: OpSet, C: Conversion<D>>(
    ctx: &mut Context<D>,
    conversion: &C,
    root: Ptr<Operation>,
    tables: &SymbolTableCollection,
) -> Result<(), C::Err>
    requires live { IsLive ctx.old (AnyNode.Operation root) }
    requires each { (x : Rewrite D.Kind D.Attr D.Ty C.Err) →
        IsRewrite (C.illegal conversion.now) (C.rewrites conversion.now) x →
        Lasts D.is_symbol D.is_symbol_table tables.now x.before x.after }
    requires agree { AllAgree D.is_symbol D.is_symbol_table ctx.old tables.now }
    ensures { AllAgree D.is_symbol D.is_symbol_table ctx.new tables.now }
{
    conversions_keep_agreement::<D, C>(conversion);
    convert(ctx, conversion, root)
}
