//! Tests of types, and the indices of a side whose types fail one.
ghost use Rattle.std.specs.Prelude.{◌≡◌, ◌<◌, ◌≤◌, ◌↔◌, length, IsTrue};
ghost use Rattle.plir_data.specs.Types.{TypeView};
ghost use Rattle.plir_data.specs.TypeSeen.{type_view};
ghost use Rattle.plir_core.specs.declared.ptr.IRNode.{IRNode};
ghost use Rattle.plir_core.specs.ContextView.{IsLive};
ghost use Rattle.plir_core.specs.WellFormed.{IsWellFormed};
ghost use Rattle.plir_iface.specs.Sides.{types_on, type_in};
ghost use Rattle.plir_iface.specs.TypeRules.{Passes, IsBetween, IsFirstFailing};

use crate::side::Side;
use plir_core::{Context, Operation, Ptr};
use plir_data::{OpSet, TypeInterfaceMark, TypeMark, TypeObj, TypeStore};
use std::marker::PhantomData;

/// A test of types: whether they are of one kind, or implement an interface.
pub trait TypeTest<D: OpSet> {
    ghost use Rattle.std.specs.Prelude.{Bool, List, ℕ};
    ghost use Rattle.plir_data.specs.Types.{TypeView};

    // The types that pass.
    ghost passes: { TypeView D.Ty → Bool };

    // The name of what is asked for.
    ghost test_name: { List ℕ };

    /// The name of what is asked for.
    fn test_name() -> &'static str
        ensures { result.now ≡ test_name };

    /// Whether a type passes.
    fn test(ty: &TypeObj<D>) -> bool
        ensures { result ≡ passes (type_view ty.now) };
}

/// The test of types that are a `T`.
pub struct OfType<T> {
    marker: PhantomData<T>,
}

impl<D: OpSet, T: TypeMark<D>> TypeTest<D> for OfType<T> {
    ghost passes = { T.marks };

    ghost test_name = { T.NAME };

    fn test_name() -> &'static str {
        T::NAME.as_str()
    }

    fn test(ty: &TypeObj<D>) -> bool {
        T::project(ty).is_some()
    }
}

/// The test of types that implement `I`.
pub struct Implementing<I> {
    marker: PhantomData<I>,
}

impl<D: OpSet, I: TypeInterfaceMark<D>> TypeTest<D> for Implementing<I> {
    ghost passes = { I.marks };

    ghost test_name = { I.NAME };

    fn test_name() -> &'static str {
        I::NAME.as_str()
    }

    fn test(ty: &TypeObj<D>) -> bool {
        I::is_implemented_by(ty)
    }
}

/// Whether the type at an index passes a test.
pub(crate) fn passes_at<D: OpSet, Q: TypeTest<D>>(
    ctx: &Context<D>,
    op: Ptr<Operation>,
    side: Side,
    i: usize,
) -> bool
    requires live { IsLive ctx.now (IRNode.Operation op) }
    requires below { i < length (types_on side ctx.now op) }
    ensures value { IsTrue result ↔ Passes Q.passes ctx.now (type_in (types_on side ctx.now op) i) }
    ensures whole { IsWellFormed D.attr_handles ctx.now }
{
    Q::test(ctx.types().get(side.type_at(ctx, op, i)))
}

/// The first index, from `start` on and before `end`, whose type fails a test.
pub fn first_failing<D: OpSet, Q: TypeTest<D>>(
    ctx: &Context<D>,
    op: Ptr<Operation>,
    side: Side,
    start: usize,
    end: usize,
) -> Option<usize>
    requires live { IsLive ctx.now (IRNode.Operation op) }
    requires within { end ≤ length (types_on side ctx.now op) }
    ensures value { IsFirstFailing Q.passes ctx.now (IsBetween start end) (types_on side ctx.now op) result }
    ensures whole { IsWellFormed D.attr_handles ctx.now }
{
    let _count = side.len(ctx, op);
    for i in start..end {
        if !passes_at::<D, Q>(ctx, op, side, i) {
            return Some(i);
        }
    }
    None
}
