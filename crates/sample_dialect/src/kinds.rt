//! The dialect's kinds of operations, and the op set of them.
use dce::EffectKind;
use plir_data::{KindSet, OwnKind};
use plir_read_own::ReadKind;
use thiserror::Error;

/// The kinds.
#[derive(Clone, Copy, PartialEq, Eq, Debug)]
pub enum SampleKind {
    /// Adds two values.
    Add,
    /// Shows values.
    Show,
    /// Calls the function of the name under [`ATTR_KEY_CALLEE`](crate::ATTR_KEY_CALLEE), with all its operands.
    Call,
    /// Hands its operands back to the call.
    Return,
    /// Goes on at its successor, whose arguments its operands become.
    Branch,
    /// Goes on at one of two successors, as its first operand says; the others become the arguments of that.
    CondBranch,
}

/// The builtin operations, and those of the dialect.
pub type SampleSet = KindSet<SampleKind>;

/// An operation does not stand as its kind wants it.
#[derive(Clone, Copy, PartialEq, Eq, Debug, Error)]
pub enum SampleErr {
    /// A sum has not two operands and one result, all of one type.
    #[error("a sum is of two values, and all of one type")]
    NotASum,
    /// A call names no function.
    #[error("a call names a function by an identifier under 'callee'")]
    NoCallee,
    /// A branch has another number of successors, or its operands don't become the arguments of one.
    #[error("a branch has other successors, or other operands than these have arguments")]
    WrongBranch,
}

impl OwnKind for SampleKind {
    ghost use Rattle.std.specs.Prelude.{false};
    ghost use Rattle.sample_dialect.specs.Answers.{ends_block, id_of};

    type Err = SampleErr;

    ghost is_terminator = { ends_block };

    ghost is_symbol = { λ _. false };

    ghost is_symbol_table = { λ _. false };

    ghost is_symbol_user = { λ _. false };

    ghost id = { id_of };

    fn is_terminator(self) -> bool {
        matches!(
            self,
            SampleKind::Return | SampleKind::Branch | SampleKind::CondBranch
        )
    }

    fn is_symbol(self) -> bool {
        false
    }

    fn is_symbol_table(self) -> bool {
        false
    }

    fn is_symbol_user(self) -> bool {
        false
    }

    fn id(self) -> &'static str {
        match self {
            SampleKind::Add => "sample.add",
            SampleKind::Show => "sample.show",
            SampleKind::Call => "sample.call",
            SampleKind::Return => "sample.return",
            SampleKind::Branch => "sample.br",
            SampleKind::CondBranch => "sample.cond_br",
        }
    }
}

impl ReadKind for SampleKind {
    ghost use Rattle.std.specs.Prelude.{false};
    ghost use Rattle.sample_dialect.specs.Answers.{kind_of};
    ghost use Rattle.sample_dialect.specs.IdLaws.{finds_it, has_its_id};

    ghost find = { kind_of };

    fn find(id: &[u8]) -> Option<SampleKind> {
        if id == b"sample.add".as_slice() {
            Some(SampleKind::Add)
        } else if id == b"sample.show".as_slice() {
            Some(SampleKind::Show)
        } else if id == b"sample.call".as_slice() {
            Some(SampleKind::Call)
        } else if id == b"sample.return".as_slice() {
            Some(SampleKind::Return)
        } else if id == b"sample.br".as_slice() {
            Some(SampleKind::Branch)
        } else if id == b"sample.cond_br".as_slice() {
            Some(SampleKind::CondBranch)
        } else {
            None
        }
    }

    ghost is_isolated = { λ _. false };

    fn is_isolated(self) -> bool {
        false
    }

    ghost found_has_id = { has_its_id };

    ghost found_by_its_id = { finds_it };
}

impl EffectKind for SampleKind {
    ghost use Rattle.sample_dialect.specs.Answers.{has_effect};

    ghost has_effect = { has_effect };

    fn has_effect(self) -> bool {
        matches!(self, SampleKind::Show | SampleKind::Call)
    }
}
