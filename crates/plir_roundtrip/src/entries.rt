//! Whether the attributes of an operation or a block can be read.
ghost use Rattle.std.specs.Prelude.{◌≡◌, ◌↔◌, All, IsTrue};
ghost use Rattle.std.specs.List.{list_any};
ghost use Rattle.plir_data.specs.AttrLive.{IsAttrLive, HandlesLive};
ghost use Rattle.plir_data.specs.AttrSeen.{attr_view};
ghost use Rattle.plir_data.specs.Dictionary.{IsDictionary, is_key};
ghost use Rattle.plir_roundtrip.specs.Readable.{HoldsOnly, IsEntryReadable};
ghost use Rattle.plir_roundtrip.specs.ReadableParts.{keys_with};

use plir_attr_text::is_writable;
use plir_builtin::ATTR_KEY_CONSTANT_VALUE;
use plir_core::Context;
use plir_data::{AttrObj, AttributeDict, OpSet};
use plir_walk::ATTR_KEY_GIVEN_NAMES;

// Whether an attribute of a module or a function can be read: names under their own key alone.
fn is_entry_readable<D: OpSet>(ctx: &Context<D>, key: &str, value: &AttrObj<D>) -> bool
    requires { IsAttrLive D.attr_handles ctx.now.types (attr_view value.now) }
    ensures { IsTrue result ↔ IsEntryReadable ctx.now.types key.now (attr_view value.now) }
{
    match value {
        AttrObj::GivenNames(_) => key == ATTR_KEY_GIVEN_NAMES,
        _ => is_writable(ctx, value),
    }
}

/// Whether all attributes of a module or a function can be read.
pub(crate) fn are_entries_readable<D: OpSet>(ctx: &Context<D>, dict: &AttributeDict<D>) -> bool
    requires { HandlesLive D.attr_handles ctx.now.types dict.now }
    ensures value { IsTrue result ↔ All (λ e. IsEntryReadable ctx.now.types e.0 e.1) dict.now }
    ensures ascending { IsDictionary dict.now }
{
    'entries: for (key, value) in dict.iter() {
        if !is_entry_readable(ctx, key.as_str(), value) {
            return false;
        }
    }
    true
}

// Whether a key is that of names, or else, where there may be a value, that of a constant's value.
fn is_key_expected(key: &str, has_value: bool) -> bool
    ensures { result ≡ list_any (λ l. is_key key.now l) (keys_with has_value) }
{
    if key == ATTR_KEY_GIVEN_NAMES {
        return true;
    }
    if !has_value {
        return false;
    }
    key == ATTR_KEY_CONSTANT_VALUE
}

/// Whether nothing stands under other keys than that of names and, where there may be a value, that of a constant's
/// value.
pub(crate) fn holds_only<D: OpSet>(dict: &AttributeDict<D>, has_value: bool) -> bool
    ensures { IsTrue result ↔ HoldsOnly (keys_with has_value) dict.now }
{
    'entries: for (key, _value) in dict.iter() {
        if !is_key_expected(key.as_str(), has_value) {
            return false;
        }
    }
    true
}
