//! What is done with an operation, and how it is printed.
use plir_walk::{Direction, Order};

/// How an operation is printed.
#[derive(Clone, Copy, Debug, PartialEq, Eq)]
pub enum Form {
    /// As the text that is read back.
    Text,
    /// A line for each node.
    Walk,
    /// A line for each operation, with its place in the text.
    Locations,
    /// A graph in DOT, with an arrow for each use of a value, if `uses` are asked for.
    View { uses: bool },
    /// A graph in DOT of the functions, by modules, and of who uses which.
    CallGraph,
    /// A line for each call of the callback of a walk, in the order of the calls.
    Trace { order: Order, direction: Direction },
}

/// What a command line asks for.
#[derive(Drop)]
pub struct Choices<P> {
    /// Whether the operation is verified behind each pass too.
    pub verify: bool,
    /// The passes, in the order in which they run.
    pub passes: Vec<P>,
    /// How the operation is printed.
    pub form: Form,
    /// What is told of the passes as they run.
    pub reports: Reports<P>,
    /// What is compared with what a text says must come of it.
    pub tests: Tests,
}

/// What is compared with what a text says must come of it, in its comments.
#[derive(Clone, Copy, Debug)]
pub struct Tests {
    /// Whether the refusals that come are compared with those that it expects.
    pub diagnostics: bool,
    /// Whether what would be printed is compared with what it says must be printed.
    pub checks: bool,
}

impl Tests {
    /// Whether anything is.
    pub fn any(self) -> bool {
        self.diagnostics || self.checks
    }
}

/// What is told of passes as they run.
#[derive(Drop)]
pub struct Reports<P> {
    /// The passes in front of which the operation is told: those of their names.
    pub before: Vec<P>,
    /// Whether the operation is told behind each pass.
    pub after_all: bool,
    /// Whether it is told how many operations there are in front of each pass, and how many behind it.
    pub stats: bool,
    /// Whether it is told how long each pass took.
    pub timing: bool,
}
