//! The walk of a table.
ghost use Rattle.std.specs.Prelude.{◌≡◌, true, length};
ghost use Rattle.plir_core.specs.declared.ptr.Operation.{Operation as OperationKind};
ghost use Rattle.plir_core.specs.declared.ptr.Ptr.{Ptr as AnyPtr};
ghost use Rattle.plir_core.specs.declared.ptr.IRNode.{IRNode as AnyNode};
ghost use Rattle.plir_walk.specs.Lawful.{StandsUnder};
ghost use Rattle.plir_walk.specs.Calls.{ReadsBack};
ghost use Rattle.plir_builtin.specs.TableWalks.{IsTableWalked, PassesOn};

use crate::table_links::TableLinks;
use plir_core::{Context, IRNode, Operation, Ptr};
use plir_walk::WALKCONFIG_PREORDER_FORWARD;
use plir_walk::interruptible::immutable::walk_region;
use plir_walk::interruptible::{WalkContinue, WalkResult, walk_advance};
use std::ops::ControlFlow;

/// The callback of a table's walk as a plain function.
pub type SymbolTableWalkerCallback<D, S, B> = fn(
    &Context<D>,
    &mut S,
    Ptr<Operation>,
) -> WalkResult<B>;

/// Hands the operations below the one region of a table over to `callback`, in PreOrder Forward: nested tables too, but
/// nothing that is below them, nor what is below an operation at which `callback` answers `Skip`. Answers `Break(b)`
/// where the last call did, else `Continue(Advance)`. Takes no memory.
pub fn walk_symbol_table<C: TableLinks, S, B, F: Fn(&C, &mut S, Ptr<Operation>) -> WalkResult<B>>(
    op: Ptr<Operation>,
    ctx: &C,
    state: &mut S,
    callback: F,
) -> WalkResult<B>
    requires op_live { (C.look ctx.now).live (AnyNode.Operation op) ≡ true }
    requires table { C.is_table_of ctx.now op ≡ true }
    requires one_region { length ((C.look ctx.now).children (AnyNode.Operation op)) ≡ 1 }
    requires callable { (c : _) (s : _) (p : AnyPtr OperationKind) → c.now ≡ ctx.now →
        StandsUnder (C.look ctx.now) (AnyNode.Operation op) (AnyNode.Operation p) → F.pre callback c s p }
    ensures { IsTableWalked C.look C.is_table_of (ReadsBack F.Fn callback) ctx.now state.old op result state.new }
{
    ctx.forest();
    let region = ctx.one_region(op);
    let hand = |c: &C, s: &mut S, n: IRNode| -> WalkResult<B>
        requires live { (C.look c.now).live n ≡ true }
        requires callable { (d : _) (t : _) (p : AnyPtr OperationKind) → n ≡ AnyNode.Operation p → d.now ≡ c.now →
            F.pre callback d t p }
        ensures { PassesOn C.is_table_of (ReadsBack F.Fn callback) c.now s.old n result c.now s.new }
    {
        match n {
            IRNode::Operation(p) => {
                let nested = c.is_table(p);
                match callback(c, s, p) {
                    ControlFlow::Break(b) => ControlFlow::Break(b),
                    ControlFlow::Continue(k) => {
                        if nested {
                            ControlFlow::Continue(WalkContinue::Skip)
                        } else {
                            ControlFlow::Continue(k)
                        }
                    }
                }
            }
            IRNode::BasicBlock(_) => walk_advance(),
            IRNode::Region(_) => walk_advance(),
        }
    };
    walk_region(ctx, state, &WALKCONFIG_PREORDER_FORWARD, region, hand)
}
