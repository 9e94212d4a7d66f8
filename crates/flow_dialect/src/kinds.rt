//! The dialect's kinds of operations, and the op set of them.
ghost use Rattle.std.specs.Prelude.{◌≡◌, option_map};
ghost use Rattle.plir_core.specs.declared.ptr.IRNode.{IRNode as AnyNode};
ghost use Rattle.plir_core.specs.ContextView.{IsLive, attributes_of};
ghost use Rattle.plir_data.specs.AttrSeen.{attr_view};
ghost use Rattle.flow_dialect.specs.FlowCalls.{callee_in, name_in};

use plir_core::{Context, Operation, Ptr};
use plir_data::{AttrObj, Identifier, KindSet, OpSet, OwnKind};
use plir_flow_sets::{Call, CallKind, Callee};
use std::ops::Range;
use thiserror::Error;

/// The kinds.
#[derive(Clone, Copy, PartialEq, Eq, Debug)]
pub enum FlowKind {
    /// Calls the function of the name under [`ATTR_KEY_CALLEE`], with all its operands.
    Call,
    /// Calls its first operand, with the others.
    CallValue,
    /// Hands its operands back.
    Return,
    /// Branches to the first or to the second of its successors.
    CondBranch,
    /// Passes control to its region, and goes on where that ends.
    Scope,
    /// Ends a scope.
    Leave,
}

/// The builtin operations, and those of the dialect.
pub type FlowSet = KindSet<FlowKind>;

/// The key that the name of what is called stands under.
pub const ATTR_KEY_CALLEE: &'static str = "callee";

/// An operation doesn't stand as its kind wants it.
#[derive(Clone, Copy, PartialEq, Eq, Debug, Error)]
#[error("does not stand as its kind wants it")]
pub struct WrongLayout;

impl OwnKind for FlowKind {
    ghost use Rattle.std.specs.Prelude.{false};
    ghost use Rattle.flow_dialect.specs.FlowKinds.{id_of, ends_block};

    type Err = WrongLayout;

    ghost is_terminator = { ends_block };

    ghost is_symbol = { λ _. false };

    ghost is_symbol_table = { λ _. false };

    ghost is_symbol_user = { λ _. false };

    ghost id = { id_of };

    fn is_terminator(self) -> bool {
        matches!(
            self,
            FlowKind::Return | FlowKind::CondBranch | FlowKind::Leave
        )
    }

    fn is_symbol(self) -> bool {
        false
    }

    fn is_symbol_table(self) -> bool {
        false
    }

    fn is_symbol_user(self) -> bool {
        false
    }

    fn id(self) -> &'static str {
        match self {
            FlowKind::Call => "flow.call",
            FlowKind::CallValue => "flow.call_value",
            FlowKind::Return => "flow.return",
            FlowKind::CondBranch => "flow.cond_branch",
            FlowKind::Scope => "flow.scope",
            FlowKind::Leave => "flow.leave",
        }
    }
}

// The name that an attribute is, if it is one.
fn name_in<D: OpSet>(attribute: &AttrObj<D>) -> Option<&Identifier>
    ensures { option_map (λ n. n.now) result ≡ name_in (attr_view attribute.now) }
{
    match attribute {
        AttrObj::Identifier(name) => Some(name.as_ref()),
        _ => None,
    }
}

/// The name of what an operation calls, if one stands under [`ATTR_KEY_CALLEE`].
pub fn callee_name<D: OpSet>(ctx: &Context<D>, op: Ptr<Operation>) -> Option<&Identifier>
    requires { IsLive ctx.now (AnyNode.Operation op) }
    ensures { option_map (λ n. n.now) result ≡ callee_in (attributes_of ctx.now op) }
{
    match op.attributes(ctx).get(ATTR_KEY_CALLEE) {
        Some(attribute) => name_in(attribute),
        None => None,
    }
}

impl<D: OpSet> CallKind<D> for FlowKind {
    ghost use Rattle.flow_dialect.specs.FlowCalls.{call_of, returned_of};

    ghost call = { call_of };

    ghost returned = { returned_of };

    fn call(self, ctx: &Context<D>, op: Ptr<Operation>) -> Option<Call<'_>> {
        let operands = op.get_num_operands(ctx);
        match self {
            FlowKind::Call => match callee_name(ctx, op) {
                Some(name) => Some(Call {
                    callee: Callee::Direct(name),
                    arguments: 0..operands,
                }),
                None => None,
            },
            FlowKind::CallValue if operands > 0 => Some(Call {
                callee: Callee::Indirect(op.get_operand(ctx, 0)),
                arguments: 1..operands,
            }),
            _ => None,
        }
    }

    fn returned_range(self, ctx: &Context<D>, op: Ptr<Operation>) -> Option<Range<usize>> {
        match self {
            FlowKind::Return => Some(0..op.get_num_operands(ctx)),
            _ => None,
        }
    }
}
