//! Which names the builtin operations use, and which of their symbols are private.
ghost use Rattle.std.specs.Prelude.{◌≡◌, ◌<◌, IfOk, OnErr, Some, is_some, length, map, option_map};
ghost use Rattle.plir_data.specs.AttrSeen.{attr_view};
ghost use Rattle.plir_core.specs.declared.ptr.IRNode.{IRNode as AnyNode};
ghost use Rattle.plir_core.specs.ContextView.{IsLive, op_at};
ghost use Rattle.plir_builtin.specs.Symbols.{name_in};
ghost use Rattle.plir_symbols.specs.BuiltinNames.{is_marked_private, is_text, names_held, name_under};
ghost use Rattle.plir_symbols.specs.SymbolNames.{is_private_in, names_in};

use crate::symbol_names::SymbolNameKind;
use plir_builtin::{ATTR_KEY_SYM_NAME, name_in};
use plir_core::{Context, Operation, Ptr};
use plir_data::{AttrObj, BuiltinSet, Identifier, Memory, NoMeaning, OpSet};
use std::alloc::Global;

/// The key that a symbol's visibility stands under, where it has one: in a private one that is the text `private`.
pub const ATTR_KEY_SYM_VISIBILITY: &'static str = "sym_visibility";

// The name that an entry of an operation's dictionary uses, if it uses one.
fn name_under<'a, D: OpSet>(key: &str, attribute: &'a AttrObj<D>) -> Option<&'a Identifier>
    ensures { option_map (λ n. n.now) result ≡ name_under (key.now, attr_view attribute.now) }
{
    if key == ATTR_KEY_SYM_NAME {
        return None;
    }
    name_in(attribute)
}

// Whether an entry of an operation's dictionary uses a name.
fn uses_name<D: OpSet>(key: &str, attribute: &AttrObj<D>) -> bool
    ensures { result ≡ is_some (name_under (key.now, attr_view attribute.now)) }
{
    name_under(key, attribute).is_some()
}

/// How many names stand as identifiers in an operation's dictionary, under any key but that of a symbol's own name: as
/// many as a builtin operation uses. An own kind that uses names as those do can answer so.
pub fn num_names_held<D: OpSet>(ctx: &Context<D>, op: Ptr<Operation>) -> usize
    requires { IsLive ctx.now (AnyNode.Operation op) }
    ensures { result ≡ length (names_in names_held (op_at ctx.now op)) }
{
    let attributes = op.attributes(ctx);
    let mut count = attributes.len();
    'entries: for (key, attribute) in attributes.iter() {
        if uses_name(key.as_str(), attribute) {
            continue;
        }
        count -= 1;
    }
    count
}

/// These names, in the order of the keys. Refused only where there is one, for want of memory for the list.
pub fn names_held<D: OpSet>(
    alloc: Global,
    ctx: &Context<D>,
    op: Ptr<Operation>,
) -> Result<Vec<&Identifier>, Memory>
    requires { IsLive ctx.now (AnyNode.Operation op) }
    ensures names { IfOk result (λ v. map (λ n. n.now) v.items ≡ names_in names_held (op_at ctx.now op)) }
    ensures refused { OnErr result (0 < length (names_in names_held (op_at ctx.now op))) }
{
    let mut names = Vec::new(alloc);
    'entries: for (key, attribute) in op.attributes(ctx).iter() {
        let Some(name) = name_under(key.as_str(), attribute) else {
            continue;
        };
        names.push(name)?;
    }
    Ok(names)
}

// Whether an attribute is a text.
fn is_text<D: OpSet>(attribute: &AttrObj<D>, text: &str) -> bool
    ensures { result ≡ is_text text.now (Some (attr_view attribute.now)) }
{
    match attribute {
        AttrObj::String(value) => value.as_str() == text,
        _ => false,
    }
}

/// Whether the text `private` stands under [`ATTR_KEY_SYM_VISIBILITY`].
pub fn is_marked_private<D: OpSet>(ctx: &Context<D>, op: Ptr<Operation>) -> bool
    requires { IsLive ctx.now (AnyNode.Operation op) }
    ensures { result ≡ is_private_in is_marked_private (op_at ctx.now op) }
{
    match op.attributes(ctx).get(ATTR_KEY_SYM_VISIBILITY) {
        Some(attribute) => is_text(attribute, "private"),
        None => false,
    }
}

/// A builtin operation uses the names that stand as identifiers in its dictionary, under any key but that of a symbol's
/// own name, in the order of the keys; identifiers within lists and dictionaries there are no uses. A symbol is private
/// where the text `private` stands under [`ATTR_KEY_SYM_VISIBILITY`].
impl SymbolNameKind<BuiltinSet> for NoMeaning {
    ghost names_used = { names_held };

    ghost is_private = { is_marked_private };

    fn num_used_names(ctx: &Context<BuiltinSet>, op: Ptr<Operation>) -> usize {
        num_names_held(ctx, op)
    }

    fn used_names(
        alloc: Global,
        ctx: &Context<BuiltinSet>,
        op: Ptr<Operation>,
    ) -> Result<Vec<&Identifier>, Memory> {
        names_held(alloc, ctx, op)
    }

    fn is_private(ctx: &Context<BuiltinSet>, op: Ptr<Operation>) -> bool {
        is_marked_private(ctx, op)
    }
}
