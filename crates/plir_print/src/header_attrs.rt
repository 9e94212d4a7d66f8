//! The attributes that stand in the headers of operations.
ghost use Rattle.std.specs.Prelude.{◌≡◌, IfSome, option_map};
ghost use Rattle.plir_data.specs.AttrLive.{IsAttrLive};
ghost use Rattle.plir_data.specs.AttrSeen.{attr_view};
ghost use Rattle.plir_core.specs.declared.ptr.IRNode.{IRNode as AnyNode};
ghost use Rattle.plir_core.specs.ContextView.{IsLive};
ghost use Rattle.plir_core.specs.WellFormed.{IsWellFormed};
ghost use Rattle.plir_builtin.specs.BuiltinOps.{value_of};
ghost use Rattle.plir_print.specs.HeaderAttrs.{has_header};

use plir_builtin::{ATTR_KEY_CONSTANT_VALUE, find_func_type, symbol_name};
use plir_core::{Context, Operation, Ptr};
use plir_data::{AttrObj, OpKind, OpSet};

/// The value of a constant, if it has one.
pub fn find_value<D: OpSet>(ctx: &Context<D>, op: Ptr<Operation>) -> Option<&AttrObj<D>>
    requires { IsLive ctx.now (AnyNode.Operation op) }
    ensures value { option_map (λ a. attr_view a.now) result ≡ value_of ctx.now op }
    ensures live { IfSome result (λ a. IsAttrLive D.attr_handles ctx.now.types (attr_view a.now)) }
{
    op.attributes(ctx).get(ATTR_KEY_CONSTANT_VALUE)
}

/// Whether an operation has the attributes that its header needs: a module or a function an identifier as its name, a
/// function a type too, a constant a value and one result. Of other operations nothing is asked.
pub fn has_header<D: OpSet>(ctx: &Context<D>, op: Ptr<Operation>) -> bool
    requires { IsLive ctx.now (AnyNode.Operation op) }
    ensures value { result ≡ has_header ctx.now op }
    ensures whole { IsWellFormed D.attr_handles ctx.now }
{
    match op.kind(ctx) {
        OpKind::Module => symbol_name(ctx, op).is_some(),
        OpKind::Func => symbol_name(ctx, op).is_some() && find_func_type(ctx, op).is_some(),
        OpKind::Constant => find_value(ctx, op).is_some() && op.get_num_results(ctx) == 1,
        OpKind::ForwardRef => true,
        OpKind::Own(_) => true,
    }
}
