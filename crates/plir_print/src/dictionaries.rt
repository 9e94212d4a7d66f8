//! The attributes that the text of an operation shows.
ghost use Rattle.std.specs.Prelude.{◌≡◌, Some, OnOk, ◌↔◌, IsTrue, []};
ghost use Rattle.plir_data.specs.AttrSeen.{attr_view};
ghost use Rattle.plir_data.specs.AttrLive.{IsAttrLive, HandlesLive};
ghost use Rattle.plir_core.specs.declared.ptr.IRNode.{IRNode as AnyNode};
ghost use Rattle.plir_core.specs.ContextView.{IsLive};
ghost use Rattle.plir_data.specs.TextParts.{Puts};
ghost use Rattle.plir_attr_text.specs.OpSetTexts.{attribute_text};
ghost use Rattle.plir_print.specs.Dictionaries.{dictionary, is_shown, is_in_header, shown_of, shown_text};

use plir_attr_text::print_attr;
use plir_builtin::{ATTR_KEY_BUILTIN_FUNC_TYPE, ATTR_KEY_SYM_NAME};
use plir_core::{Context, Operation, Ptr};
use plir_data::put::{put, put_between};
use plir_data::{AttrObj, AttributeDict, Memory, OpKind, OpSet};
use std::alloc::Global;

/// Puts the text of an attribute.
pub(crate) fn put_attr<D: OpSet>(
    out: &mut String,
    alloc: Global,
    ctx: &Context<D>,
    attr: &AttrObj<D>,
) -> Result<(), Memory>
    requires { IsAttrLive D.attr_handles ctx.now.types (attr_view attr.now) }
    ensures { OnOk result (Puts out.old out.new (attribute_text D.OpSet ctx.now.types (attr_view attr.now))) }
{
    let text = print_attr(alloc, ctx, attr)?;
    put(out, text.as_str())
}

// Whether the attribute under a key stands in the header of an operation of a kind that has its dictionary apart.
fn is_in_header<K: Copy>(kind: OpKind<K>, key: &str) -> bool
    ensures { result ≡ is_in_header (Some kind) key.now }
{
    match kind {
        OpKind::Module => key == ATTR_KEY_SYM_NAME,
        OpKind::Func => key == ATTR_KEY_SYM_NAME || key == ATTR_KEY_BUILTIN_FUNC_TYPE,
        OpKind::Constant => false,
        OpKind::ForwardRef => false,
        OpKind::Own(_) => false,
    }
}

/// Whether an entry of an operation's dictionary is shown in its text: it neither stands in the header nor is outlined.
pub fn is_shown<D: OpSet>(kind: OpKind<D::Kind>, key: &str, value: &AttrObj<D>) -> bool
    ensures { result ≡ is_shown D.OpSet (Some kind) (key.now, attr_view value.now) }
{
    !(is_in_header(kind, key) || value.outline())
}

// Puts the entries that are shown, with a comma and a space between them.
fn put_entries<D: OpSet>(
    out: &mut String,
    alloc: Global,
    ctx: &Context<D>,
    kind: OpKind<D::Kind>,
    dict: &AttributeDict<D>,
) -> Result<(), Memory>
    requires { HandlesLive D.attr_handles ctx.now.types dict.now }
    ensures { OnOk result (Puts out.old out.new (shown_text D.OpSet ctx.now.types kind dict.now)) }
{
    let mut is_first = true;
    'entries: for (key, value) in dict.iter() {
        if is_shown(kind, key.as_str(), value) {
            put_between(out, is_first, ", ")?;
            put(out, key.as_str())?;
            put(out, " = ")?;
            put_attr(out, alloc, ctx, value)?;
            is_first = false;
        }
    }
    Ok(())
}

/// Puts the attributes of an operation that are shown, in brackets.
pub(crate) fn put_dictionary<D: OpSet>(
    out: &mut String,
    alloc: Global,
    ctx: &Context<D>,
    op: Ptr<Operation>,
) -> Result<(), Memory>
    requires { IsLive ctx.now (AnyNode.Operation op) }
    ensures { OnOk result (Puts out.old out.new (dictionary D.OpSet ctx.now op)) }
{
    put(out, "[")?;
    put_entries(out, alloc, ctx, op.kind(ctx), op.attributes(ctx))?;
    put(out, "]")?;
    Ok(())
}

/// Whether some entry is shown.
pub(crate) fn shows_some<D: OpSet>(kind: OpKind<D::Kind>, dict: &AttributeDict<D>) -> bool
    ensures { IsTrue result ↔ (shown_of D.OpSet (Some kind) dict.now ≡ [] → ⊥) }
{
    'entries: for (key, value) in dict.iter() {
        if is_shown(kind, key.as_str(), value) {
            return true;
        }
    }
    false
}
