//! The kinds of operations of these tests.
use plir_data::{NeverRefused, OwnKind};
use plir_scripts::ScriptKind;

/// A kind of operations: its id, and whether it ends its block.
#[derive(Clone, Copy)]
pub struct TestKind {
    pub id: &'static str,
    pub ends_block: bool,
}

impl OwnKind for TestKind {
    ghost use Rattle.std.specs.Prelude.{false};

    type Err = NeverRefused;

    ghost is_terminator = { λ k. k.ends_block };

    ghost is_symbol = { λ _. false };

    ghost is_symbol_table = { λ _. false };

    ghost is_symbol_user = { λ _. false };

    ghost id = { λ k. k.id.now };

    fn is_terminator(self) -> bool {
        self.ends_block
    }

    fn is_symbol(self) -> bool {
        false
    }

    fn is_symbol_table(self) -> bool {
        false
    }

    fn is_symbol_user(self) -> bool {
        false
    }

    fn id(self) -> &'static str {
        self.id
    }
}

// A kind that doesn't end its block.
fn plain(id: &'static str) -> Option<TestKind> {
    Some(TestKind {
        id,
        ends_block: false,
    })
}

impl ScriptKind for TestKind {
    fn of_word(word: &str) -> Option<TestKind> {
        match word {
            "def" => plain("test.def"),
            "loop" => plain("test.loop"),
            "yield" => Some(TestKind {
                id: "test.yield",
                ends_block: true,
            }),
            _ => None,
        }
    }
}
