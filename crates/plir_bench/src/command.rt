//! The commands, one to a line.
use crate::order::Order;

/// What is measured.
#[derive(Clone, Copy)]
pub enum Task {
    /// A module is built, of as many things as its number says.
    Build(Shape, Order),
    /// A pass is run over the module that was built last.
    Pass(Pass),
    /// What the module that was built last is asked.
    Look(Look),
    /// How the module that was built last is changed.
    Edit(Edit),
    /// `types N`: so many integer types asked for, a thousand widths in turn.
    Types,
}

/// What a module is built of; behind each word may stand `-against`, for the other order.
#[derive(Clone, Copy)]
pub enum Shape {
    /// `build N`: so many functions.
    Functions,
    /// `bare N`: so many operations without attributes, each with a region and a block.
    Bare,
    /// `chains N`: a chain of so many constants that are used, and one of as many that are dead.
    Chains,
    /// `blocks N`: a chain of so many blocks, each with a constant that is used and one that is dead.
    Blocks,
    /// `sums N`: a chain of so many sums of constants.
    Sums,
    /// `zeros N`: a chain of so many sums with zero.
    Zeros,
    /// `references N`: a chain of so many forward references.
    References,
    /// `users N`: a value with so many uses.
    Users,
    /// `calls N`: so many calls of a function of ten operations, in one function.
    Calls,
    /// `callers N`: so many functions, each with one such call.
    Callers,
    /// `symbol-chain N`: so many private functions, of which each uses the one made behind it.
    SymbolChain,
    /// `symbol-star N`: so many private functions, half of which one uses, and half another one.
    SymbolStar,
}

/// A pass.
#[derive(Clone, Copy)]
pub enum Pass {
    /// `sweep`: dead code is eliminated.
    Sweep,
    /// `prune`: unreached code is eliminated.
    Prune,
    /// `fold`: constants are folded, and what is dead then is swept.
    Fold,
    /// `pass-on`: values are folded, and what is dead then is swept.
    PassOn,
    /// `convert`: forward references are converted.
    Convert,
    /// `drop-symbols`: dead symbols are eliminated.
    DropSymbols,
    /// `inline`: calls are inlined.
    Inline,
}

/// What changes nothing.
#[derive(Clone, Copy)]
pub enum Look {
    /// `walk N`: so many walks of all nodes.
    Walk,
    /// `walk-ops N`: so many walks that count operations alone.
    WalkOps,
    /// `table N`: so many tables of the module's symbols.
    Table,
    /// `look-up N`: each name made and looked up so many times.
    LookUp,
    /// `look-up-made N`: each name made once, and looked up so many times.
    LookUpMade,
    /// `uses N`: so many lists of the uses of a value.
    Uses,
}

/// What may change something.
#[derive(Clone, Copy)]
pub enum Edit {
    /// `walk-mut N`: so many walks that could change what they walk.
    WalkMut,
    /// `erase N`: so many functions erased through a table.
    Erase,
    /// `erase-list N`: so many functions erased by one list of edits.
    EraseList,
    /// `replace N`: a value put in place of another one so many times.
    Replace,
    /// `print N`: the module's text, so many times.
    Print,
    /// `read N`: the text that was printed last, read so many times.
    Read,
}

/// A line: what is measured, and a number, 1 where none is given.
#[derive(Clone, Copy)]
pub struct Command {
    pub task: Task,
    pub number: u64,
}

/// Reads a line: a word, and after a space a number. `None` where it is no command.
pub fn read_command(line: &str) -> Option<Command> {
    let (word, number) = match line.split_once(' ') {
        None => (line, 1),
        Some((word, digits)) => (word, digits.parse::<u64>().ok()?),
    };
    Some(Command {
        task: read_task(word)?,
        number,
    })
}

fn read_task(word: &str) -> Option<Task> {
    if word == "types" {
        return Some(Task::Types);
    }
    if let Some(look) = read_look(word) {
        return Some(Task::Look(look));
    }
    if let Some(edit) = read_edit(word) {
        return Some(Task::Edit(edit));
    }
    if let Some(pass) = read_pass(word) {
        return Some(Task::Pass(pass));
    }
    match word.strip_suffix("-against") {
        Some(shape) => Some(Task::Build(read_shape(shape)?, Order::Against)),
        None => Some(Task::Build(read_shape(word)?, Order::Along)),
    }
}

fn read_look(word: &str) -> Option<Look> {
    match word {
        "walk" => Some(Look::Walk),
        "walk-ops" => Some(Look::WalkOps),
        "table" => Some(Look::Table),
        "look-up" => Some(Look::LookUp),
        "look-up-made" => Some(Look::LookUpMade),
        "uses" => Some(Look::Uses),
        _ => None,
    }
}

fn read_edit(word: &str) -> Option<Edit> {
    match word {
        "walk-mut" => Some(Edit::WalkMut),
        "erase" => Some(Edit::Erase),
        "erase-list" => Some(Edit::EraseList),
        "replace" => Some(Edit::Replace),
        "print" => Some(Edit::Print),
        "read" => Some(Edit::Read),
        _ => None,
    }
}

fn read_pass(word: &str) -> Option<Pass> {
    match word {
        "sweep" => Some(Pass::Sweep),
        "prune" => Some(Pass::Prune),
        "fold" => Some(Pass::Fold),
        "pass-on" => Some(Pass::PassOn),
        "convert" => Some(Pass::Convert),
        "drop-symbols" => Some(Pass::DropSymbols),
        "inline" => Some(Pass::Inline),
        _ => None,
    }
}

fn read_shape(word: &str) -> Option<Shape> {
    match word {
        "build" => Some(Shape::Functions),
        "bare" => Some(Shape::Bare),
        "chains" => Some(Shape::Chains),
        "blocks" => Some(Shape::Blocks),
        "sums" => Some(Shape::Sums),
        "zeros" => Some(Shape::Zeros),
        "references" => Some(Shape::References),
        "users" => Some(Shape::Users),
        "calls" => Some(Shape::Calls),
        "callers" => Some(Shape::Callers),
        "symbol-chain" => Some(Shape::SymbolChain),
        "symbol-star" => Some(Shape::SymbolStar),
        _ => None,
    }
}
