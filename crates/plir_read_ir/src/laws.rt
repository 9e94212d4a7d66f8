//! Laws of the words in which reading is told: each function does nothing, and its contract is the law.
ghost use Rattle.std.specs.Prelude.{◌≡◌, ◌⊎◌, ℕ, List};
ghost use Rattle.plir_attr_text.specs.TypeGrammar.{IsText};
ghost use Rattle.plir_read_ir.specs.IrGrammar.{IrWithin};
ghost use Rattle.plir_read_ir.specs.IrOpReading.{MeetsIr};
ghost use Rattle.plir_read_ir.specs.IrTerms.{IrOp};

use plir_attr_text::Fault;
use plir_read_own::ReadSet;

/// A text stands for one operation, as it is written, at most.
pub fn text_stands_for_one_operation<D: ReadSet>()
    ensures { (m n : ℕ) (bytes : List ℕ) (v w : IrOp D.Kind) → IsText (IrWithin D.find_kind m) bytes v →
        IsText (IrWithin D.find_kind n) bytes w → v ≡ w }
{}

/// With at most so many levels open a text stands for an operation or meets a fault, and never both; it meets one fault
/// at most.
pub fn text_stands_or_meets_one_fault<D: ReadSet>()
    ensures some { (n : ℕ) (text : List ℕ) → ((o : IrOp D.Kind) × IsText (IrWithin D.find_kind n) text o) ⊎
        ((f : Fault) × MeetsIr D.find_kind n text f) }
    ensures not_both { (n : ℕ) (text : List ℕ) (o : IrOp D.Kind) (f : Fault) →
        IsText (IrWithin D.find_kind n) text o → MeetsIr D.find_kind n text f → ⊥ }
    ensures one { (n : ℕ) (text : List ℕ) (f g : Fault) → MeetsIr D.find_kind n text f →
        MeetsIr D.find_kind n text g → f ≡ g }
{}
