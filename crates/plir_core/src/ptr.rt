//! Pointers to nodes: a slot and the version under which the slot held the node.
ghost use Rattle.std.specs.Prelude.{◌≡◌, Some, codes};
ghost use Rattle.plir_core.specs.Nodes.{index_of};
ghost use Rattle.plir_core.specs.Texts.{pointer_text, node_text};

use std::fmt;
use std::marker::PhantomData;

/// The kind of pointers to operations.
#[derive(Clone, Copy, PartialEq, Eq, PartialOrd, Ord, Hash, Debug)]
pub struct Operation;

/// The kind of pointers to regions.
#[derive(Clone, Copy, PartialEq, Eq, PartialOrd, Ord, Hash, Debug)]
pub struct Region;

/// The kind of pointers to basic blocks.
#[derive(Clone, Copy, PartialEq, Eq, PartialOrd, Ord, Hash, Debug)]
pub struct BasicBlock;

/// A pointer to a node of the kind `T`: the node that its slot held under its version.
#[derive(Clone, Copy, PartialEq, Eq, PartialOrd, Ord, Hash)]
pub struct Ptr<T> {
    pub(crate) slot: u32,
    pub(crate) version: u32,
    kind: PhantomData<T>,
}

impl<T> Ptr<T> {
    pub(crate) fn new(slot: u32, version: u32) -> Self
        ensures slot { result.slot ≡ slot }
        ensures version { result.version ≡ version }
    {
        Ptr {
            slot,
            version,
            kind: PhantomData,
        }
    }

    /// The number of the slot, from 1.
    pub fn index(self) -> u32
        ensures { result ≡ index_of self }
    {
        self.slot.saturating_add(1)
    }

    /// How many nodes the slot had held when this one came, itself among them.
    pub fn version(self) -> u32
        ensures { result ≡ self.version }
    {
        self.version
    }
}

/// A node of any kind.
#[derive(Clone, Copy, PartialEq, Eq, Hash, Debug)]
pub enum IRNode {
    Operation(Ptr<Operation>),
    BasicBlock(Ptr<BasicBlock>),
    Region(Ptr<Region>),
}

impl fmt::Display for Ptr<Operation> {
    ghost output = { λ p. Some (pointer_text (codes "op") p) };

    fn fmt<W: fmt::Write>(&self, f: &mut fmt::Formatter<W>) -> fmt::Result {
        write!(f, "op{}v{}", self.index(), self.version)
    }
}

impl fmt::Display for Ptr<Region> {
    ghost output = { λ p. Some (pointer_text (codes "region") p) };

    fn fmt<W: fmt::Write>(&self, f: &mut fmt::Formatter<W>) -> fmt::Result {
        write!(f, "region{}v{}", self.index(), self.version)
    }
}

impl fmt::Display for Ptr<BasicBlock> {
    ghost output = { λ p. Some (pointer_text (codes "block") p) };

    fn fmt<W: fmt::Write>(&self, f: &mut fmt::Formatter<W>) -> fmt::Result {
        write!(f, "block{}v{}", self.index(), self.version)
    }
}

impl fmt::Display for IRNode {
    ghost output = { λ n. Some (node_text n) };

    fn fmt<W: fmt::Write>(&self, f: &mut fmt::Formatter<W>) -> fmt::Result {
        match *self {
            IRNode::Operation(op) => write!(f, "{op}"),
            IRNode::BasicBlock(block) => write!(f, "{block}"),
            IRNode::Region(region) => write!(f, "{region}"),
        }
    }
}

impl fmt::Debug for Ptr<Operation> {
    fn fmt<W: fmt::Write>(&self, f: &mut fmt::Formatter<W>) -> fmt::Result {
        write!(f, "{self}")
    }
}

impl fmt::Debug for Ptr<Region> {
    fn fmt<W: fmt::Write>(&self, f: &mut fmt::Formatter<W>) -> fmt::Result {
        write!(f, "{self}")
    }
}

impl fmt::Debug for Ptr<BasicBlock> {
    fn fmt<W: fmt::Write>(&self, f: &mut fmt::Formatter<W>) -> fmt::Result {
        write!(f, "{self}")
    }
}
