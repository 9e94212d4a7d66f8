//! What a script asks of the op set that it plays with.
use plir_data::{KindSet, OpSet, OwnKind};

/// An op set whose own kinds have words.
pub trait ScriptSet: OpSet {
    /// The own kind that a word names: the name in its id.
    fn own_kind(word: &str) -> Option<Self::Kind>;
}

/// Own kinds that have words, for an op set of such kinds alone.
pub trait ScriptKind: OwnKind {
    /// The kind that a word names: the name in its id.
    fn of_word(word: &str) -> Option<Self>;
}

impl<K: ScriptKind> ScriptSet for KindSet<K> {
    fn own_kind(word: &str) -> Option<K> {
        K::of_word(word)
    }
}
