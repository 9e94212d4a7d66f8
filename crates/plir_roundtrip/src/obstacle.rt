//! What stands against reading an operation back from its text.

use plir_core::{IRNode, Operation, Ptr};
use thiserror::Error;

/// Why an operation is not read back from its text as the same tree.
#[derive(Clone, Copy, Debug, PartialEq, Eq, Error)]
pub enum Obstacle {
    /// An operation of a kind that no text names: a forward reference, or an operation of one's own kind whose id is
    /// not two names with a point between them, names no kind of the set, or names a builtin operation.
    #[error("no text names the kind of {0}")]
    Kind(IRNode),
    /// An operation with a result, or a block with an argument, whose type is no builtin one.
    #[error("{0} has a result or an argument of a type that cannot be read")]
    Types(IRNode),
    /// An operation or a block that holds what its text does not tell, or what cannot be read, as an attribute of one's
    /// own.
    #[error("{0} holds what its text does not tell")]
    Content(IRNode),
    /// The text has more than 200 levels.
    #[error("the text has more than 200 levels")]
    Levels,
    /// An operand, by its place from 0, which comes from outside the tree, or from outside the innermost module,
    /// function or isolated operation of the tree that stands around the use, or from inside one that does not.
    #[error("operand {1} of {0} means nothing in the text")]
    Operand(Ptr<Operation>, usize),
    /// A successor, by its place from 0, which stands in another region than the operation's block, or outside the
    /// tree.
    #[error("successor {1} of {0} means nothing in the text")]
    Successor(Ptr<Operation>, usize),
}
