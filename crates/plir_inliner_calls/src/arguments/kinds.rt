//! Kinds of operations that end blocks and branch to other ones.
ghost use Rattle.std.specs.Prelude.{◌≡◌};

use plir_arguments::BranchEditKind;
use plir_core::laws::op_edits_keep_the_rest;
use plir_core::{Context, Operation, Ptr};
use plir_data::{KindSet, NeverRefused, OpSet, OwnKind};
use plir_flow_sets::BranchKind;
use plir_scripts::ScriptKind;
use std::ops::Range;

/// The kinds.
#[derive(Clone, Copy, PartialEq, Eq, Debug)]
pub enum EndKind {
    /// Forwards its operands to its first successor, and none to another one.
    Jump,
    /// The same, and has as many for ever.
    Fixed,
}

/// The builtin operations, and these kinds.
pub type EndSet = KindSet<EndKind>;

impl OwnKind for EndKind {
    ghost use Rattle.std.specs.Prelude.{true, false};
    ghost use Rattle.plir_inliner_calls.specs.EndKinds.{id_of};

    type Err = NeverRefused;

    ghost is_terminator = { λ _. true };

    ghost is_symbol = { λ _. false };

    ghost is_symbol_table = { λ _. false };

    ghost is_symbol_user = { λ _. false };

    ghost id = { id_of };

    fn is_terminator(self) -> bool {
        true
    }

    fn is_symbol(self) -> bool {
        false
    }

    fn is_symbol_table(self) -> bool {
        false
    }

    fn is_symbol_user(self) -> bool {
        false
    }

    fn id(self) -> &'static str {
        match self {
            EndKind::Jump => "branch.jump",
            EndKind::Fixed => "branch.fixed",
        }
    }
}

impl ScriptKind for EndKind {
    fn of_word(word: &str) -> Option<EndKind> {
        match word {
            "jump" => Some(EndKind::Jump),
            "fixed" => Some(EndKind::Fixed),
            _ => None,
        }
    }
}

impl<D: OpSet> BranchKind<D> for EndKind {
    ghost use Rattle.plir_inliner_calls.specs.EndKinds.{all_to_first};

    ghost forwards = { λ _ i held. all_to_first held i };

    fn forwarded_range(
        self,
        ctx: &Context<D>,
        op: Ptr<Operation>,
        successor: usize,
    ) -> Option<Range<usize>> {
        let count = op.get_num_operands(ctx);
        if successor == 0 { Some(0..count) } else { None }
    }
}

impl<D: OpSet> BranchEditKind<D> for EndKind {
    ghost use Rattle.std.specs.Prelude.{[]};
    ghost use Rattle.plir_inliner_calls.specs.EndKinds.{removes_of};

    ghost removes = { λ kind i _. removes_of kind i };

    ghost layout_keys = { [] };

    fn can_remove_forwarded(self, ctx: &Context<D>, op: Ptr<Operation>, successor: usize) -> bool {
        match self {
            EndKind::Jump => successor == 0,
            EndKind::Fixed => false,
        }
    }

    fn remove_forwarded(
        self,
        ctx: &mut Context<D>,
        op: Ptr<Operation>,
        successor: usize,
        place: usize,
    ) {
        op_edits_keep_the_rest(ctx, op);
        op.remove_operand(ctx, place);
    }
}
