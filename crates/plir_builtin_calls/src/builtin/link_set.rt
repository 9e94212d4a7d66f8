//! An op set whose operations are symbols, tables and users of symbols as their kinds say.
ghost use Rattle.std.specs.Prelude.{◌≡◌, ◌↔◌, IfOk, IsTrue, Some, option_map};
ghost use Rattle.plir_core.specs.ContextView.{IsLive};
ghost use Rattle.plir_core.specs.declared.ptr.IRNode.{IRNode as AnyNode};
ghost use Rattle.plir_builtin.specs.Agree.{AllAgree, AreGivenOut};
ghost use Rattle.plir_builtin_calls.specs.Links.{IsFoundIn, IsLinked, used_name};

use crate::builtin::around::scan;
use crate::builtin::many::new_func;
use plir_builtin::{
    SymbolTableCollection, SymbolTableErr, SymbolUserOpInterface, SymbolUserSet, name_in,
};
use plir_core::{Context, Operation, Ptr};
use plir_data::{
    AttrObj, Identifier, IdentifierAttr, Location, Memory, OpSet, OwnText, TypeHandle, TypeStore,
    VerifyErr,
};
use plir_iface::Op;
use plir_scripts::{InContext, ScriptSet, Stop, in_new_context};
use std::alloc::Global;
use thiserror::Error;

/// The key that the name of a symbol stands under that an operation uses.
pub const ATTR_KEY_USES: &'static str = "link_uses";

/// A kind of operations: whether they end their block, and whether they are symbols, tables and users of symbols.
#[derive(Clone, Copy)]
pub struct LinkKind {
    pub ends: bool,
    pub symbol: bool,
    pub table: bool,
    pub user: bool,
}

/// An attribute, and a type, that no test makes.
#[derive(Clone, Copy, PartialEq, Eq, Hash, Debug)]
pub struct Unused;

/// The used symbol is not there.
#[derive(Clone, Copy, PartialEq, Eq, Debug, Error)]
#[error("not linked")]
pub struct NotLinked;

/// The set.
#[derive(Clone, Copy, PartialEq, Eq, Debug)]
pub struct LinkSet;

impl OpSet for LinkSet {
    ghost use Rattle.std.specs.Prelude.{[], None, true, codes, ⊤};
    ghost use Rattle.std.proofs.Common.{rules};

    type Kind = LinkKind;

    type Attr = Unused;

    type Ty = Unused;

    type Err = NotLinked;

    ghost is_terminator = { λ k. k.ends };

    ghost is_symbol = { λ k. k.symbol };

    ghost is_symbol_table = { λ k. k.table };

    ghost is_symbol_user = { λ k. k.user };

    ghost kind_id = { λ _. codes "link.op" };

    ghost attr_id = { λ _. codes "link.attr" };

    ghost attr_text = { λ _. [] };

    ghost attr_type = { λ _. None };

    ghost attr_outlined = { λ _. true };

    ghost type_id = { λ _. codes "link.type" };

    ghost type_body_text = { λ _. [] };

    ghost function_sig = { λ _. None };

    ghost attr_is_valid = { λ _ _. true };

    ghost attr_refusal = { λ _ _ _. ⊤ };

    ghost attr_handles = { λ _. [] };

    ghost type_handles = { λ _. [] };

    fn is_terminator(kind: LinkKind) -> bool {
        kind.ends
    }

    fn is_symbol(kind: LinkKind) -> bool {
        kind.symbol
    }

    fn is_symbol_table(kind: LinkKind) -> bool {
        kind.table
    }

    fn is_symbol_user(kind: LinkKind) -> bool {
        kind.user
    }

    fn kind_id(_kind: LinkKind) -> &'static str {
        "link.op"
    }

    fn attr_id(_attr: &Unused) -> &'static str {
        "link.attr"
    }

    fn attr_text(alloc: Global, _attr: &Unused) -> Result<OwnText, Memory> {
        Ok(OwnText::new(alloc))
    }

    fn attr_type(_attr: &Unused) -> Option<TypeHandle> {
        None
    }

    fn attr_outlined(_attr: &Unused) -> bool {
        true
    }

    fn verify_attr<C: TypeStore<Self>>(
        _alloc: Global,
        _attr: &Unused,
        _ctx: &C,
    ) -> Result<(), VerifyErr<NotLinked>> {
        Ok(())
    }

    fn clone_attr(_alloc: Global, attr: &Unused) -> Result<Unused, Memory> {
        Ok(*attr)
    }

    fn is_attr_live<C: TypeStore<Self>>(_attr: &Unused, _ctx: &C) -> bool {
        true
    }

    fn type_id(_ty: &Unused) -> &'static str {
        "link.type"
    }

    fn type_body_text(alloc: Global, _ty: &Unused) -> Result<OwnText, Memory> {
        Ok(OwnText::new(alloc))
    }

    fn function_sig(_ty: &Unused) -> Option<(&[TypeHandle], &[TypeHandle])> {
        None
    }

    fn is_type_live<C: TypeStore<Self>>(_ty: &Unused, _ctx: &C) -> bool {
        true
    }

    ghost use Rattle.std.proofs.lemmas.Option.{none-some};

    ghost attr_eq_exact = { λ a b e. Prim.search rules };

    ghost type_eq_exact = { λ a b e. Prim.search rules };

    ghost attr_type_held = { λ a h e. absurd (none-some h e) };

    ghost arguments_held = { λ t p h e m. absurd (none-some p e) };

    ghost results_held = { λ t p h e m. absurd (none-some p e) };

    ghost attr_text_held = { λ a h m. m };

    ghost type_body_text_held = { λ t h m. m };
}

impl ScriptSet for LinkSet {
    fn own_kind(word: &str) -> Option<LinkKind> {
        let bytes = word.as_bytes();
        let has = |letter: u8| -> bool { bytes.iter().any(|byte| *byte == letter) };
        if bytes
            .iter()
            .any(|byte| !matches!(*byte, b'e' | b's' | b't' | b'u' | b'-'))
        {
            return None;
        }
        Some(LinkKind {
            ends: has(b'e'),
            symbol: has(b's'),
            table: has(b't'),
            user: has(b'u'),
        })
    }
}

// The name of the symbol that an operation uses.
fn used_symbol<D: OpSet>(ctx: &Context<D>, op: Ptr<Operation>) -> Option<&Identifier>
    requires { IsLive ctx.now (AnyNode.Operation op) }
    ensures { option_map (λ n. n.now) result ≡ used_name ctx.now op }
{
    name_in(op.attributes(ctx).get(ATTR_KEY_USES)?)
}

// Whether a symbol of a name stands in the body of an operation.
fn is_found_in<D: OpSet>(ctx: &Context<D>, table: Ptr<Operation>, name: &Identifier) -> bool
    requires { IsLive ctx.now (AnyNode.Operation table) }
    ensures { IsTrue result ↔ IsFoundIn D.is_symbol ctx.now table name.now }
{
    scan(ctx, table, name).is_some()
}

// The same by the table that is cached for the operation, or its new one; where it can have none, by its body alone.
fn is_recorded_in<D: OpSet>(
    ctx: &Context<D>,
    tables: &mut SymbolTableCollection,
    table: Ptr<Operation>,
    name: &Identifier,
) -> Result<bool, Memory>
    requires { IsLive ctx.now (AnyNode.Operation table) }
    ensures found { AllAgree D.is_symbol D.is_symbol_table ctx.now tables.old →
        IfOk result (λ b. IsTrue b ↔ IsFoundIn D.is_symbol ctx.now table name.now) }
    ensures agree { AllAgree D.is_symbol D.is_symbol_table ctx.now tables.old →
        AllAgree D.is_symbol D.is_symbol_table ctx.now tables.new }
    ensures given { AreGivenOut ctx.now tables.old → AreGivenOut ctx.now tables.new }
{
    match tables.lookup_symbol_in_table(ctx, table, name) {
        Ok(found) => Ok(found.is_some()),
        Err(SymbolTableErr::Memory) => Err(Memory),
        Err(_) => Ok(is_found_in(ctx, table, name)),
    }
}

/// Whether an operation names a symbol that stands in the body of its parent operation.
pub fn is_linked<D: OpSet>(
    ctx: &Context<D>,
    tables: &mut SymbolTableCollection,
    op: Ptr<Operation>,
) -> Result<bool, Memory>
    requires { IsLive ctx.now (AnyNode.Operation op) }
    ensures linked { AllAgree D.is_symbol D.is_symbol_table ctx.now tables.old →
        IfOk result (λ b. IsTrue b ↔ IsLinked D.is_symbol ctx.now op) }
    ensures agree { AllAgree D.is_symbol D.is_symbol_table ctx.now tables.old →
        AllAgree D.is_symbol D.is_symbol_table ctx.now tables.new }
    ensures given { AreGivenOut ctx.now tables.old → AreGivenOut ctx.now tables.new }
{
    match (op.get_parent_op(ctx), used_symbol(ctx, op)) {
        (Some(table), Some(name)) => is_recorded_in(ctx, tables, table, name),
        _ => Ok(false),
    }
}

/// An operation that names a symbol, which has to stand in the body of its parent operation.
#[derive(Clone, Copy)]
pub struct LinkOp {
    pub op: Ptr<Operation>,
}

impl<D: OpSet> Op<D> for LinkOp {
    ghost pointer = { λ o. o.op };

    fn get_operation(&self) -> Ptr<Operation> {
        self.op
    }
}

/// An op set with a refusal of a symbol that is not there. Calls are generic in it: over the op set itself, whose parts
/// are all written out in a proof, they take several times as long to prove.
trait Linking: OpSet {
    /// The refusal.
    fn not_linked() -> Self::Err;
}

impl Linking for LinkSet {
    fn not_linked() -> NotLinked {
        NotLinked
    }
}

impl<D: Linking> SymbolUserOpInterface<D> for LinkOp {
    ghost use Rattle.plir_core.specs.ContextView.{location_of};
    ghost use Rattle.plir_builtin_calls.specs.Links.{IsLinked, names_in_use};

    ghost names_used = { λ o s. names_in_use s o.op };

    ghost has_right_uses = { λ o s. IsLinked D.is_symbol s o.op };

    ghost use_refusal = { λ o s loc e. location_of s o.op ≡ Some loc };

    fn verify_symbol_uses(
        &self,
        ctx: &Context<D>,
        tables: &mut SymbolTableCollection,
    ) -> Result<(), VerifyErr<D::Err>> {
        match is_linked(ctx, tables, self.op) {
            Ok(true) => Ok(()),
            Ok(false) => Err(VerifyErr::Refused {
                loc: self.op.loc(ctx),
                err: D::not_linked(),
            }),
            Err(Memory) => Err(VerifyErr::Memory),
        }
    }

    fn used_symbols(&self, alloc: Global, ctx: &Context<D>) -> Result<Vec<Identifier>, Memory> {
        let mut names = Vec::new(alloc);
        if let Some(name) = used_symbol(ctx, self.op) {
            names.push(name.try_clone(alloc)?)?;
        }
        Ok(names)
    }
}

impl SymbolUserSet for LinkSet {
    ghost use Rattle.plir_core.specs.ContextView.{location_of};
    ghost use Rattle.plir_builtin_calls.specs.Links.{IsLinked};

    ghost uses_hold = { λ s op. IsLinked (λ k. k.symbol) s op };

    ghost use_refusal = { λ s op loc e. location_of s op ≡ Some loc };

    fn verify_symbol_uses(
        ctx: &Context<LinkSet>,
        op: Ptr<Operation>,
        tables: &mut SymbolTableCollection,
    ) -> Result<(), VerifyErr<NotLinked>> {
        SymbolUserOpInterface::<LinkSet>::verify_symbol_uses(&LinkOp { op }, ctx, tables)
    }
}

// Makes an operation in a new context, and asks which names it uses.
#[derive(Drop)]
struct TellsItsName {
    alloc: Global,
}

impl<D: Linking> InContext<D> for TellsItsName {
    type Answer = Result<bool, Stop>;

    fn run(self, ctx: &mut Context<D>) -> Result<bool, Stop> {
        tells_its_name(self.alloc, ctx)
    }
}

/// Whether an operation tells the name that it uses.
pub fn tells_name(alloc: Global) -> Result<bool, Stop> {
    in_new_context::<LinkSet, _>(alloc, TellsItsName { alloc })
}

// Whether an operation tells no name at first, and that of the symbol that it uses later.
fn tells_its_name<D: Linking>(alloc: Global, ctx: &mut Context<D>) -> Result<bool, Stop> {
    let op = match new_func(alloc, ctx, 1) {
        Ok(op) => op,
        Err(_) => new_func(alloc, ctx, 1)?,
    };
    let user = LinkOp { op };
    let before = names_again(alloc, ctx, user)?;
    if name_used(alloc, ctx, op, "missing").is_err() {
        name_used(alloc, ctx, op, "missing")?;
    }
    let after = names_again(alloc, ctx, user)?;
    Ok(before.is_empty() && are_one(after.as_slice(), "missing"))
}

// Whether some names are this one alone.
fn are_one(names: &[Identifier], name: &str) -> bool {
    names.len() == 1 && names.iter().all(|found| found.as_str() == name)
}

// The names that an operation uses, if it is live.
fn names_of<D: Linking>(
    alloc: Global,
    ctx: &Context<D>,
    user: LinkOp,
) -> Result<Vec<Identifier>, Stop> {
    if !user.op.is_live(ctx) {
        return Err(Stop::Refused);
    }
    Ok(SymbolUserOpInterface::<D>::used_symbols(&user, alloc, ctx)?)
}

// The same, asked for once more where memory was refused.
fn names_again<D: Linking>(
    alloc: Global,
    ctx: &Context<D>,
    user: LinkOp,
) -> Result<Vec<Identifier>, Stop> {
    match names_of(alloc, ctx, user) {
        Ok(names) => Ok(names),
        Err(_) => names_of(alloc, ctx, user),
    }
}

// Makes an operation use a symbol of a name, if it is live.
fn name_used<D: OpSet>(
    alloc: Global,
    ctx: &mut Context<D>,
    op: Ptr<Operation>,
    name: &str,
) -> Result<(), Stop> {
    if !op.is_live(ctx) {
        return Err(Stop::Refused);
    }
    let key = Identifier::try_new(alloc, ATTR_KEY_USES)?;
    let name = Identifier::try_new(alloc, name)?;
    op.set_attr(ctx, key, AttrObj::Identifier(IdentifierAttr::new(name)))?;
    Ok(())
}
