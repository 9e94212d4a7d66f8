//! Kinds of operations with their ids: some that have regions, and one that names can't look out of.
use plir_data::{NeverRefused, OwnKind};
use plir_read_own::ReadKind;

/// The kinds of these tests.
#[derive(Clone, Copy, PartialEq, Eq, Debug)]
pub enum TestKind {
    /// Makes and uses values.
    Value,
    /// Goes on in other blocks.
    Branch,
    /// Has regions in which names mean what they mean around it.
    Open,
    /// Has regions in which names mean nothing that stands outside.
    Closed,
}

impl OwnKind for TestKind {
    ghost use Rattle.std.specs.Prelude.{false};
    ghost use Rattle.plir_read_ir_tests.specs.Kinds.{id_of, is_branch};

    type Err = NeverRefused;

    ghost is_terminator = { is_branch };

    ghost is_symbol = { λ _. false };

    ghost is_symbol_table = { λ _. false };

    ghost is_symbol_user = { λ _. false };

    ghost id = { id_of };

    fn is_terminator(self) -> bool {
        matches!(self, TestKind::Branch)
    }

    fn is_symbol(self) -> bool {
        false
    }

    fn is_symbol_table(self) -> bool {
        false
    }

    fn is_symbol_user(self) -> bool {
        false
    }

    fn id(self) -> &'static str {
        match self {
            TestKind::Value => "test.value",
            TestKind::Branch => "test.branch",
            TestKind::Open => "test.open",
            TestKind::Closed => "test.closed",
        }
    }
}

impl ReadKind for TestKind {
    ghost use Rattle.plir_read_ir_tests.specs.Kinds.{kind_of, is_closed};
    ghost use Rattle.plir_read_ir_tests.specs.IdLaws.{finds_it, has_its_id};

    ghost find = { kind_of };

    fn find(id: &[u8]) -> Option<TestKind> {
        if id == b"test.value".as_slice() {
            Some(TestKind::Value)
        } else if id == b"test.branch".as_slice() {
            Some(TestKind::Branch)
        } else if id == b"test.open".as_slice() {
            Some(TestKind::Open)
        } else if id == b"test.closed".as_slice() {
            Some(TestKind::Closed)
        } else {
            None
        }
    }

    ghost is_isolated = { is_closed };

    fn is_isolated(self) -> bool {
        matches!(self, TestKind::Closed)
    }

    ghost found_has_id = { has_its_id };

    ghost found_by_its_id = { finds_it };
}
