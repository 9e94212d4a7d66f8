//! A table of names, and of what each of them means.
ghost use Rattle.std.specs.Prelude.{◌≡◌, ◌++◌, ◌∷◌, List, [], OnErr, OnOk};
ghost use Rattle.plir_names.specs.Meanings.{Says};
ghost use Rattle.plir_names.specs.Tables.{meanings, with_one_more};

use std::alloc::{AllocError, Global};
use std::collections::HashMap;
use std::hash::Hash;

/// What a name means.
#[derive(Clone, Copy, PartialEq, Eq, Debug)]
pub enum Meaning<V> {
    /// Nothing: none bears it.
    Unknown,
    /// What bears it, and nothing else does.
    Only(V),
    /// Nothing: two bear it, or more.
    Ambiguous,
}

/// Names with what they mean. A name is anything that can be told from others, as a word together with the number of
/// the body that it stands in.
#[derive(Drop)]
pub struct NameTable<N: Eq + Hash, V> {
    // None of a name that nothing bears; the value of its only bearer; no value where there are several.
    pub(crate) bearers: HashMap<N, Option<V>>,
}

// What is kept of a name that one more bears, by what was kept.
fn with_one_more<V: Copy>(kept: Option<Option<V>>, value: V) -> Option<V>
    ensures { result ≡ with_one_more kept value }
{
    match kept {
        None => Some(value),
        Some(_) => None,
    }
}

impl<N: Copy + Eq + Hash + Drop, V: Copy + Drop> NameTable<N, V> {
    /// A table in which no name means anything.
    pub fn new(alloc: Global) -> NameTable<N, V>
        ensures { Says N.eq (meanings N.eq result) [] }
    {
        NameTable {
            bearers: HashMap::new(alloc),
        }
    }

    /// Something more bears a name. After a refusal all is as before.
    pub fn bear(&mut self, name: N, value: V) -> Result<(), AllocError>
        ensures ok { OnOk result ((listed : List (N × V)) → Says N.eq (meanings N.eq self.old) listed →
            Says N.eq (meanings N.eq self.new) (listed ++ (name, value) ∷ [])) }
        ensures err { OnErr result (meanings N.eq self.new ≡ meanings N.eq self.old) }
    {
        let kept = with_one_more(self.bearers.get(&name).copied(), value);
        self.bearers.insert(name, kept)?;
        Ok(())
    }

    /// What a name means.
    pub fn find(&self, name: N) -> Meaning<V>
        ensures { result ≡ meanings N.eq self.now name }
    {
        match self.bearers.get(&name) {
            None => Meaning::Unknown,
            Some(Some(value)) => Meaning::Only(*value),
            Some(None) => Meaning::Ambiguous,
        }
    }
}
