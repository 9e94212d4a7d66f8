//! What operations call, and what they hand back.
ghost use Rattle.std.specs.Prelude.{◌≡◌, ◌<◌, IfOk, IfSome, OnErr, Option, Some, length, option_map, slice_get};
ghost use Rattle.plir_core.specs.declared.ptr.IRNode.{IRNode as AnyNode};
ghost use Rattle.plir_core.specs.Contents.{OpView};
ghost use Rattle.plir_core.specs.ContextView.{IsLive, IsValueLive};
ghost use Rattle.plir_flow.specs.Branches.{Range as Places};
ghost use Rattle.plir_flow_sets.specs.Calls.{CallView, HasLongName, IsCallLive, arguments_of, call_view, callable_of};
ghost use Rattle.plir_flow_sets.specs.Told.{IsAmongOperands, places_of, told_of};

use plir_core::{Context, Operation, Ptr, Value};
use plir_data::{Identifier, KindSet, Memory, NoMeaning, OpKind, OpSet, OwnKind};
use plir_flow::CallOpCallable;
use std::alloc::Global;
use std::ops::Range;

/// What a call calls, lent by the context.
#[derive(Clone, Copy)]
pub enum Callee<'a> {
    /// The function of a name, as tables are asked for it.
    Direct(&'a Identifier),
    /// The function that a value is.
    Indirect(Value),
}

impl Callee<'_> {
    /// The same, owned. It is refused only where it is a name of more than 22 characters.
    pub fn to_callable(self, alloc: Global) -> Result<CallOpCallable, Memory>
        ensures same { IfOk result (λ c. c ≡ callable_of self.entry) }
        ensures long { OnErr result (HasLongName self.entry) }
    {
        match self {
            Callee::Direct(name) => Ok(CallOpCallable::Direct(name.try_clone(alloc)?)),
            Callee::Indirect(value) => Ok(CallOpCallable::Indirect(value)),
        }
    }
}

/// A call.
#[derive(Drop)]
pub struct Call<'a> {
    /// What is called.
    pub callee: Callee<'a>,
    /// The places of the arguments among the operands.
    pub arguments: Range<usize>,
}

/// An op set that tells which operations call and which return, by what each of them holds: what is done to other
/// operations changes none of it. An operation that doesn't hold what its kind wants may be told to do neither.
pub trait CallSet: OpSet {
    // What is called, and the places of the arguments.
    ghost call: { OpView Self.Kind Self.Attr → Option CallView };

    // The places of the operands that are handed back.
    ghost returned: { OpView Self.Kind Self.Attr → Option Places };

    /// What an operation calls, and which of its operands are the arguments; none, where it is no call.
    fn call(ctx: &Context<Self>, op: Ptr<Operation>) -> Option<Call<'_>>
        requires { IsLive ctx.now (AnyNode.Operation op) }
        ensures value { option_map call_view result ≡ told_of call ctx.now op }
        ensures live { IfSome result (λ c. IsCallLive ctx.now op (call_view c)) };

    /// Which of its operands an operation hands back to the call of the function that it stands in, ending the call;
    /// none, where it doesn't return.
    fn returned_range(ctx: &Context<Self>, op: Ptr<Operation>) -> Option<Range<usize>>
        requires { IsLive ctx.now (AnyNode.Operation op) }
        ensures value { option_map places_of result ≡ told_of returned ctx.now op }
        ensures inside { IfSome result (λ r. IsAmongOperands ctx.now op (places_of r)) };

    /// How many arguments an operation passes to what it calls; one that calls nothing passes none.
    final fn num_arguments(ctx: &Context<Self>, op: Ptr<Operation>) -> usize
        requires { IsLive ctx.now (AnyNode.Operation op) }
        ensures { result ≡ length (arguments_of call ctx.now op) }
    {
        match Self::call(ctx, op) {
            Some(call) => call.arguments.end - call.arguments.start,
            None => 0,
        }
    }

    /// The argument at a place, from 0.
    final fn argument(ctx: &Context<Self>, op: Ptr<Operation>, place: usize) -> Value
        requires live { IsLive ctx.now (AnyNode.Operation op) }
        requires below { place < length (arguments_of call ctx.now op) }
        ensures value { slice_get (arguments_of call ctx.now op) place ≡ Some result }
        ensures live { IsValueLive ctx.now result }
    {
        let _count = op.get_num_operands(ctx);
        match Self::call(ctx, op) {
            Some(call) => op.get_operand(ctx, call.arguments.start + place),
            None => unreachable!(),
        }
    }
}

/// Own kinds of operations that tell which of these call and which return, in an op set `D` that they are part of, by
/// what each operation holds: the op set of such kinds alone, [`KindSet`], then tells it. Kinds that don't look at
/// attributes of that set say it for each `D`.
pub trait CallKind<D: OpSet>: OwnKind {
    // What an operation of the kind calls, and the places of the arguments.
    ghost call: { Self → OpView D.Kind D.Attr → Option CallView };

    // The places of the operands that it hands back.
    ghost returned: { Self → OpView D.Kind D.Attr → Option Places };

    /// What an operation of the kind calls, and which of its operands are the arguments; none, where it is no call.
    fn call(self, ctx: &Context<D>, op: Ptr<Operation>) -> Option<Call<'_>>
        requires { IsLive ctx.now (AnyNode.Operation op) }
        ensures value { option_map call_view result ≡ told_of (call self) ctx.now op }
        ensures live { IfSome result (λ c. IsCallLive ctx.now op (call_view c)) };

    /// Which of its operands an operation of the kind hands back; none, where it doesn't return.
    fn returned_range(self, ctx: &Context<D>, op: Ptr<Operation>) -> Option<Range<usize>>
        requires { IsLive ctx.now (AnyNode.Operation op) }
        ensures value { option_map places_of result ≡ told_of (returned self) ctx.now op }
        ensures inside { IfSome result (λ r. IsAmongOperands ctx.now op (places_of r)) };
}

/// No builtin operation calls or returns.
impl<D: OpSet> CallKind<D> for NoMeaning {
    ghost use Rattle.std.specs.Prelude.{None};

    ghost call = { λ _ _. None };

    ghost returned = { λ _ _. None };

    fn call(self, _ctx: &Context<D>, _op: Ptr<Operation>) -> Option<Call<'_>> {
        None
    }

    fn returned_range(self, _ctx: &Context<D>, _op: Ptr<Operation>) -> Option<Range<usize>> {
        None
    }
}

/// As the operation's kind says.
impl<K: CallKind<KindSet<K>>> CallSet for KindSet<K> {
    ghost use Rattle.plir_flow_sets.specs.Told.{by_own_kind};

    ghost call = { by_own_kind K.call };

    ghost returned = { by_own_kind K.returned };

    fn call(ctx: &Context<Self>, op: Ptr<Operation>) -> Option<Call<'_>> {
        match op.kind(ctx) {
            OpKind::Own(kind) => kind.call(ctx, op),
            _ => None,
        }
    }

    fn returned_range(ctx: &Context<Self>, op: Ptr<Operation>) -> Option<Range<usize>> {
        match op.kind(ctx) {
            OpKind::Own(kind) => kind.returned_range(ctx, op),
            _ => None,
        }
    }
}
