//! The commands of a script, one to a line.
use plir_walk::{Direction, Order};

/// A line of a script, as it is written.
#[derive(Clone, Copy, Debug, PartialEq, Eq)]
pub enum Command<'a> {
    /// An empty line, which does nothing.
    Nothing,
    /// `module NAME`: a new module, which becomes the innermost open one.
    Module(&'a str),
    /// `func NAME`: a new function in the innermost open module.
    Func(&'a str),
    /// `end`: closes the innermost open module.
    End,
    /// `walk pre|post fwd|rev`: walks the root.
    Walk(Order, Direction),
    /// `lookup NAME`: looks a name up from the innermost open module, else from the root.
    Lookup(&'a str),
    /// `erase NAME`: erases what has that name there.
    Erase(&'a str),
    /// `symbols`: walks the table of the innermost open module, else of the root.
    Symbols,
    /// `text`: the text of the root.
    Text,
}

/// Reads a line, whose words are parted by single spaces.
///
/// `None` where the line is no command. A name is taken as it stands: whether it is an identifier is asked later.
pub fn read_command(line: &str) -> Option<Command<'_>> {
    match line.split_once(' ') {
        None => match line {
            "" => Some(Command::Nothing),
            "end" => Some(Command::End),
            "symbols" => Some(Command::Symbols),
            "text" => Some(Command::Text),
            _ => None,
        },
        Some(("module", name)) => Some(Command::Module(name)),
        Some(("func", name)) => Some(Command::Func(name)),
        Some(("lookup", name)) => Some(Command::Lookup(name)),
        Some(("erase", name)) => Some(Command::Erase(name)),
        Some(("walk", setting)) => read_walk(setting),
        Some(_) => None,
    }
}

fn read_walk(setting: &str) -> Option<Command<'_>> {
    let (order, direction) = setting.split_once(' ')?;
    Some(Command::Walk(read_order(order)?, read_direction(direction)?))
}

fn read_order(word: &str) -> Option<Order> {
    match word {
        "pre" => Some(Order::PreOrder),
        "post" => Some(Order::PostOrder),
        _ => None,
    }
}

fn read_direction(word: &str) -> Option<Direction> {
    match word {
        "fwd" => Some(Direction::Forward),
        "rev" => Some(Direction::Reverse),
        _ => None,
    }
}
