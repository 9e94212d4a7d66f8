//! Laws of the walks: each function does next to nothing, and its contract is the law.
#![tactic(auto)]

ghost use Rattle.std.specs.Prelude.{◌≡◌, List, true};
ghost use Rattle.plir_walk.specs.declared.config.Direction.TheVariants.{Forward, Reverse};
ghost use Rattle.plir_walk.specs.declared.config.Order.TheVariants.{PreOrder, PostOrder};
ghost use Rattle.plir_walk.specs.declared.config.TheConstants.{WALKCONFIG_PREORDER_FORWARD as pre_forward};
ghost use Rattle.plir_walk.specs.declared.config.TheConstants.{WALKCONFIG_POSTORDER_FORWARD as post_forward};
ghost use Rattle.plir_walk.specs.declared.config.TheConstants.{WALKCONFIG_PREORDER_REVERSE as pre_reverse};
ghost use Rattle.plir_walk.specs.declared.config.TheConstants.{WALKCONFIG_POSTORDER_REVERSE as post_reverse};
ghost use Rattle.plir_walk.specs.declared.config.WalkConfig.{WalkConfig as AnyConfig};
ghost use Rattle.plir_core.specs.declared.ptr.IRNode.{IRNode as AnyNode};
ghost use Rattle.plir_walk.specs.Lawful.{StandsUnder};
ghost use Rattle.plir_core.specs.Above.{Reaches};
ghost use Rattle.plir_core.specs.Forest.{IsForest, Shape};
ghost use Rattle.plir_walk.specs.Tree.{HasOnePlaceEach, IsUnder};
ghost use Rattle.plir_walk.specs.Calls.{Advancing, Call, ReadsBack};
ghost use Rattle.plir_walk.specs.Additions.{Additions};
ghost use Rattle.plir_walk.specs.ChangedBelow.{StepsBelow};
ghost use Rattle.plir_walk.specs.LawfulChanges.{LawfulChanges};
ghost use Rattle.plir_walk.specs.Laws.{BeforeOrders, PostReverseIsPreForwardReversed, SkipsAtPostOrder};
ghost use Rattle.plir_walk.specs.Laws.{ShutsOutNothing, WalkedOnce, uniform};
ghost use Rattle.plir_walk.specs.Thinned.{ErasuresThin, LeavesThin, ThinningKeepsRoom};

use crate::config::WalkConfig;
use crate::links::NodeLinks;
use crate::uninterruptible;
use plir_core::laws::{contexts_stand, erasure_takes_one_child};
use plir_core::{Context, IRNode, Operation, Ptr};
use plir_data::OpSet;

/// Each of the four settings has one order and one direction at all levels, those of its name.
pub fn settings_are_as_named()
    ensures preorder_forward { pre_forward ≡ uniform PreOrder Forward }
    ensures postorder_forward { post_forward ≡ uniform PostOrder Forward }
    ensures preorder_reverse { pre_reverse ≡ uniform PreOrder Reverse }
    ensures postorder_reverse { post_reverse ≡ uniform PostOrder Reverse }
{}

/// Each node under a root has one place there.
pub fn one_place_each<C: NodeLinks>(ctx: &C)
    ensures { (r : AnyNode) → HasOnePlaceEach (C.look ctx.now).children r }
{
    ctx.forest();
}

/// What stands at or under a node by places is what climbs to it: walks tell of the one, what a call leaves of the
/// other.
pub fn places_and_climbs_agree()
    ensures climbed { (s : Shape) → IsForest s → (r n : AnyNode) → Reaches s.parent n r → IsUnder s.children r n }
    ensures placed { (s : Shape) → IsForest s → (r n : AnyNode) → IsUnder s.children r n → Reaches s.parent n r }
{}

/// To be before is a total order on the nodes under one root.
pub fn before_is_a_total_order()
    ensures { BeforeOrders }
{}

/// With one order and one direction at all levels, PostOrder Reverse is PreOrder Forward reversed.
pub fn post_reverse_is_pre_forward_reversed()
    ensures { PostReverseIsPreForwardReversed }
{}

/// A list of calls whose only skips are at PostOrder nodes shuts out nothing.
pub fn post_order_skips_shut_out_nothing<C, S, B>()
    ensures { (w : AnyConfig) (calls : List (Call C S B)) → SkipsAtPostOrder w calls → ShutsOutNothing w calls }
{}

/// A walk without skip, break or limit calls each node under the root once. The calls leave the state that the walk
/// leaves.
pub fn walks_each_node_once<C: NodeLinks, S, F: Fn(&C, &mut S, IRNode)>(
    ctx: &C,
    state: &mut S,
    config: &WalkConfig,
    root: Ptr<Operation>,
    callback: F,
)
    requires root_live { (C.look ctx.now).live (IRNode.Operation root) ≡ true }
    requires callable { (c : _) (s : _) (n : AnyNode) → c.now ≡ ctx.now →
        StandsUnder (C.look ctx.now) (IRNode.Operation root) n → F.pre callback c s n }
    ensures { WalkedOnce C.look config.now (Advancing (ReadsBack F.Fn callback)) ctx.now state.old
        (IRNode.Operation root) state.new }
{
    uninterruptible::immutable::walk_op(ctx, state, config, root, callback);
}

/// What a callback at a node may do to a context: each change is lawful, told in the words of the node calls that make
/// it.
pub fn lawful_changes<D: OpSet>()
    ensures { LawfulChanges D.Kind D.Attr D.Ty D.attr_handles }
{
    contexts_stand::<D>();
}

/// What is made, and put right before a node, touches nothing that was there: the node is live and where it was, and
/// such changes compose.
pub fn additions<D: OpSet>()
    ensures { Additions D.Kind D.Attr D.Ty }
{}

/// What a callback at a node does in many steps, in any order: it makes nodes, unlinks and moves those below its own,
/// puts them anywhere below it or into what it made, puts one value in place of another one, edits and erases. One
/// relation holds from its beginning to each step, each step keeps it by the words of the node call that makes it, and
/// where it holds at the end the whole is a lawful change.
pub fn changes_below_compose<D: OpSet>()
    ensures { StepsBelow D.Kind D.Attr D.Ty }
{}

/// What erasures leave, one after another: nothing is new, and what is left stands where it stood, in its order, and
/// holds what it held. Of one erasure the law is called before it, with what that leaves, as its clauses `tree` and
/// `after` say.
pub fn erasures_thin<D: OpSet>(ctx: &Context<D>)
    ensures { ErasuresThin ctx.now }
{
    contexts_stand::<D>();
    ctx.stands();
    erasure_takes_one_child(ctx);
}

/// Where there was room for a new node there is room for it after erasures: as many nodes may be live, fewer are, and
/// no slot is taken.
pub fn thinning_keeps_room<D: OpSet>()
    ensures { ThinningKeepsRoom D.Kind D.Attr D.Ty D.attr_handles }
{}

/// What a callback leaves that erases children of its node which have no children, as operations without regions: it is
/// told which kinds of operations these are, all else stays, and the whole is a lawful change at the node. The law is
/// called before each erasure. Between two of them `IsThinnedBelow` is all that has to be kept.
pub fn leaves_thin<D: OpSet>(ctx: &Context<D>)
    ensures { LeavesThin ctx.now }
{
    contexts_stand::<D>();
    ctx.stands();
    erasure_takes_one_child(ctx);
}
