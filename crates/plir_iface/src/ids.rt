//! The ids of operations and types, as `dialect.name`.
ghost use Rattle.std.specs.Prelude.{◌≡◌};
ghost use Rattle.plir_data.specs.TypeSeen.{type_view};
ghost use Rattle.plir_data.specs.Types.{type_id};
ghost use Rattle.plir_iface.specs.Ids.{op_id};

use plir_data::{OpKind, OpSet, TypeObj};

/// The id of a kind of operations.
pub(crate) fn id_of_kind<D: OpSet>(kind: OpKind<D::Kind>) -> &'static str
    ensures { result.now ≡ op_id D.kind_id kind }
{
    match kind {
        OpKind::Module => "builtin.module",
        OpKind::Func => "builtin.func",
        OpKind::Constant => "builtin.constant",
        OpKind::ForwardRef => "builtin.forward_ref",
        OpKind::Own(own) => D::kind_id(own),
    }
}

/// The id of a type.
pub(crate) fn id_of_type<D: OpSet>(ty: &TypeObj<D>) -> &'static str
    ensures { result.now ≡ type_id D.type_id (type_view ty.now) }
{
    match ty {
        TypeObj::Integer(_) => "builtin.integer",
        TypeObj::Function(_) => "builtin.function",
        TypeObj::Unit(_) => "builtin.unit",
        TypeObj::Own(own) => D::type_id(own),
    }
}
