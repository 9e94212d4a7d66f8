//! Laws of the words in which reading is told: each function does nothing, and its contract is the law.
ghost use Rattle.std.specs.Prelude.{◌≡◌, ◌∷◌, ◌⊎◌, ◌<◌, ◌≤◌, ℕ, List};
ghost use Rattle.plir_core.specs.declared.ptr.IRNode.{IRNode};
ghost use Rattle.plir_attr_text.specs.TypeGrammar.{IsText};
ghost use Rattle.plir_read.specs.FaultsMet.{Meets, IsDecided};
ghost use Rattle.plir_read.specs.OpGrammar.{OpWithin};
ghost use Rattle.plir_read.specs.OpTerms.{OpTerm, op_levels};
ghost use Rattle.plir_read.specs.Slots.{tree_in_order, below_in_order};

use plir_attr_text::Fault;
use plir_core::Context;
use plir_core::laws::contexts_stand;
use plir_data::OpSet;

/// A text stands for one operation, as it is written, at most.
pub fn text_stands_for_one_operation()
    ensures { (m n : ℕ) (bytes : List ℕ) (v w : OpTerm) → IsText (OpWithin m) bytes v → IsText (OpWithin n) bytes w →
        v ≡ w }
{}

/// With at most so many levels open a text stands for an operation or meets a fault, and never both; it meets one fault
/// at most.
pub fn text_stands_or_meets_one_fault()
    ensures some { (n : ℕ) (text : List ℕ) → ((w : OpTerm) × IsText (OpWithin n) text w) ⊎
        ((f : Fault) × Meets n text f) }
    ensures not_both { (n : ℕ) (text : List ℕ) (w : OpTerm) (f : Fault) → IsText (OpWithin n) text w →
        Meets n text f → ⊥ }
    ensures one { (n : ℕ) (text : List ℕ) (f g : Fault) → Meets n text f → Meets n text g → f ≡ g }
{}

/// Levels come first. Where fewer may be open, a text meets the fault that it meets where more may, or a level that is
/// one too many; and so does a text that stands for an operation with more levels than may be open.
pub fn levels_come_first()
    ensures fewer { (m n : ℕ) (text : List ℕ) (f : Fault) → m ≤ n → Meets n text f →
        Meets m text f ⊎ Meets m text Fault.TooDeep }
    ensures too_few { (m n : ℕ) (text : List ℕ) (w : OpTerm) → IsText (OpWithin n) text w → m < op_levels w →
        Meets m text Fault.TooDeep }
{}

/// A fault is seen at the tokens that are its cause, and what stands behind them is not looked at: each text that
/// begins with the same tokens up to there meets the same fault, and so none of them stands for an operation.
pub fn fault_is_decided_at_its_cause()
    ensures { (n : ℕ) (text : List ℕ) (f : Fault) → Meets n text f → IsDecided (λ other. Meets n other f) text f }
{}

/// In the order of a text the root of a tree comes first, and behind it come the trees of its children: no level is
/// left out.
pub fn root_comes_first<D: OpSet>(ctx: &Context<D>)
    ensures { (n : IRNode) → tree_in_order ctx.now.nodes n ≡ n ∷ below_in_order ctx.now.nodes n }
{
    contexts_stand::<D>();
    ctx.stands();
}
