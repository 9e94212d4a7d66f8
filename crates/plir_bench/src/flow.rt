//! What operations of the benchmark's own kinds call, and hand back.
ghost use Rattle.std.specs.Prelude.{◌≡◌, option_map};
ghost use Rattle.plir_core.specs.ContextView.{IsLive, attributes_of};
ghost use Rattle.plir_core.specs.declared.ptr.IRNode.{IRNode as AnyNode};
ghost use Rattle.plir_bench.specs.Kinds.{callee_in};

use crate::kinds::BenchKind;
use plir_builtin::name_in;
use plir_core::{Context, Operation, Ptr};
use plir_data::{Identifier, OpSet};
use plir_flow_sets::{Call, CallKind, Callee};
use std::ops::Range;

/// The key that the name of what is called stands under.
pub const ATTR_KEY_CALLEE: &'static str = "callee";

// The name of what a call calls, if one stands under [`ATTR_KEY_CALLEE`].
fn callee<D: OpSet>(ctx: &Context<D>, op: Ptr<Operation>) -> Option<&Identifier>
    requires { IsLive ctx.now (AnyNode.Operation op) }
    ensures { option_map (λ n. n.now) result ≡ callee_in (attributes_of ctx.now op) }
{
    name_in(op.attributes(ctx).get(ATTR_KEY_CALLEE)?)
}

impl<D: OpSet> CallKind<D> for BenchKind {
    ghost use Rattle.plir_bench.specs.Kinds.{call_of, returned_of};

    ghost call = { call_of };

    ghost returned = { returned_of };

    fn call(self, ctx: &Context<D>, op: Ptr<Operation>) -> Option<Call<'_>> {
        let arguments = 0..op.get_num_operands(ctx);
        match self {
            BenchKind::Call => {
                let name = callee(ctx, op)?;
                Some(Call {
                    callee: Callee::Direct(name),
                    arguments,
                })
            }
            _ => None,
        }
    }

    fn returned_range(self, ctx: &Context<D>, op: Ptr<Operation>) -> Option<Range<usize>> {
        match self {
            BenchKind::Return => Some(0..op.get_num_operands(ctx)),
            _ => None,
        }
    }
}
