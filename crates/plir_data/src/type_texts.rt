//! The texts of types.

ghost use Rattle.std.specs.Prelude.{◌≡◌, ◌++◌, ◌∷◌, [], IfOk, OnOk, codes, map, string_bytes};
ghost use Rattle.plir_data.specs.OwnParts.{behind_id, held_in, part_text, parts_text};
ghost use Rattle.plir_data.specs.PartSeen.{part_view};
ghost use Rattle.plir_data.specs.Types.{IsLive, AllLive, function, own};
ghost use Rattle.plir_data.specs.TypeText.{integer_text, type_text, types_text, type_text_over};

use crate::memory::Memory;
use crate::op_set::OpSet;
use crate::own_text::{OwnPart, OwnText};
use crate::put::{put, put_between, put_integer_text};
use crate::type_store::TypeStore;
use crate::types::{FunctionType, FunctionTypeInterface, IntegerType, TypeHandle, TypeObj};
use std::alloc::Global;

/// The text of a type: its id, and what stands behind it.
pub fn type_text<D: OpSet, C: TypeStore<D>>(
    alloc: Global,
    ctx: &C,
    handle: TypeHandle,
) -> Result<String, Memory>
    requires { IsLive (C.types ctx.now) handle }
    ensures { IfOk result (λ s. string_bytes s ≡ type_text D.type_id D.type_body_text (C.types ctx.now) handle) }
{
    let mut out = String::new(alloc);
    put_type(&mut out, alloc, ctx, handle)?;
    Ok(out)
}

#[cycle(type_text)]
fn put_type<D: OpSet, C: TypeStore<D>>(
    out: &mut String,
    alloc: Global,
    ctx: &C,
    handle: TypeHandle,
) -> Result<(), Memory>
    requires { IsLive (C.types ctx.now) handle }
    ensures { OnOk result (string_bytes out.new ≡ string_bytes out.old ++
        type_text D.type_id D.type_body_text (C.types ctx.now) handle) }
{
    match ctx.types().get(handle) {
        TypeObj::Integer(ty) => put_integer_type(out, ty),
        TypeObj::Function(ty) => put_function_type(out, alloc, ctx, ty),
        TypeObj::Unit(_) => put(out, "builtin.unit"),
        TypeObj::Own(ty) => put_own_type(out, alloc, ctx, ty),
    }
}

#[cycle(type_text)]
fn put_function_type<D: OpSet, C: TypeStore<D>>(
    out: &mut String,
    alloc: Global,
    ctx: &C,
    ty: &FunctionType,
) -> Result<(), Memory>
    requires { AllLive (C.types ctx.now) (ty.now.0.0 ++ ty.now.0.1) }
    ensures { OnOk result (string_bytes out.new ≡ string_bytes out.old ++
        type_text_over D.type_id D.type_body_text (C.types ctx.now) (function ty.now.0.0 ty.now.0.1)) }
{
    put(out, "builtin.function <(")?;
    put_types(out, alloc, ctx, ty.arg_types())?;
    put(out, ")->(")?;
    put_types(out, alloc, ctx, ty.res_types())?;
    put(out, ")>")?;
    Ok(())
}

#[cycle(type_text)]
fn put_types<D: OpSet, C: TypeStore<D>>(
    out: &mut String,
    alloc: Global,
    ctx: &C,
    handles: &[TypeHandle],
) -> Result<(), Memory>
    requires { AllLive (C.types ctx.now) handles.now }
    ensures { OnOk result (string_bytes out.new ≡ string_bytes out.old ++
        types_text D.type_id D.type_body_text (C.types ctx.now) handles.now) }
{
    let mut is_first = true;
    'handles: for handle in handles {
        put_between(out, is_first, ", ")?;
        put_type(out, alloc, ctx, *handle)?;
        is_first = false;
    }
    Ok(())
}

#[cycle(type_text)]
fn put_own_type<D: OpSet, C: TypeStore<D>>(
    out: &mut String,
    alloc: Global,
    ctx: &C,
    ty: &D::Ty,
) -> Result<(), Memory>
    requires { AllLive (C.types ctx.now) (D.type_handles ty.now) }
    ensures { OnOk result (string_bytes out.new ≡ string_bytes out.old ++
        type_text_over D.type_id D.type_body_text (C.types ctx.now) (own ty.now)) }
{
    let text = D::type_body_text(alloc, ty)?;
    put(out, D::type_id(ty))?;
    put_own_text(out, alloc, ctx, &text)?;
    Ok(())
}

/// Puts what stands behind the id of an own type or attribute: a space and its parts, where there are any.
#[cycle(type_text)]
pub fn put_own_text<D: OpSet, C: TypeStore<D>>(
    out: &mut String,
    alloc: Global,
    ctx: &C,
    text: &OwnText,
) -> Result<(), Memory>
    requires { AllLive (C.types ctx.now) (held_in text.now) }
    ensures { OnOk result (string_bytes out.new ≡ string_bytes out.old ++
        behind_id (type_text D.type_id D.type_body_text (C.types ctx.now)) text.now) }
{
    if text.is_empty() {
        return Ok(());
    }
    put(out, " ")?;
    put_parts(out, alloc, ctx, text.parts())?;
    Ok(())
}

#[cycle(type_text)]
fn put_parts<D: OpSet, C: TypeStore<D>>(
    out: &mut String,
    alloc: Global,
    ctx: &C,
    parts: &[OwnPart],
) -> Result<(), Memory>
    requires { AllLive (C.types ctx.now) (held_in (map part_view parts.now)) }
    ensures { OnOk result (string_bytes out.new ≡ string_bytes out.old ++
        parts_text (type_text D.type_id D.type_body_text (C.types ctx.now)) (map part_view parts.now)) }
{
    'parts: for part in parts {
        put_part(out, alloc, ctx, part)?;
    }
    Ok(())
}

#[cycle(type_text)]
fn put_part<D: OpSet, C: TypeStore<D>>(
    out: &mut String,
    alloc: Global,
    ctx: &C,
    part: &OwnPart,
) -> Result<(), Memory>
    requires { AllLive (C.types ctx.now) (held_in (part_view part.now ∷ [])) }
    ensures { OnOk result (string_bytes out.new ≡ string_bytes out.old ++
        part_text (type_text D.type_id D.type_body_text (C.types ctx.now)) (part_view part.now)) }
{
    match part {
        OwnPart::Text(text) => put(out, text.as_str()),
        OwnPart::Type(handle) => put_type(out, alloc, ctx, *handle),
    }
}

fn put_integer_type(out: &mut String, ty: &IntegerType) -> Result<(), Memory>
    ensures { OnOk result (string_bytes out.new ≡ string_bytes out.old ++
        (codes "builtin.integer " ++ integer_text ty.now.signedness ty.now.width)) }
{
    put(out, "builtin.integer ")?;
    put_integer_text(out, ty)
}
