//! What a line can do with nodes, by its command.
use crate::contents::Changing;
use crate::linking::Linking;
use crate::making::Making;
use crate::question::Question;
use crate::stop::Stop;

/// A call on nodes.
#[derive(Clone, Copy)]
pub enum NodeCall {
    /// A node or a type is made.
    Make(Making),
    /// Links of nodes change.
    Link(Linking),
    /// What a node holds changes.
    Change(Changing),
    /// Nothing changes.
    Ask(Question),
    /// `refuse`: all memory is refused from now on.
    RefuseMemory,
    /// `grant`: memory is refused no more.
    GrantMemory,
}

impl NodeCall {
    /// The call of a command.
    pub fn of(command: &str) -> Result<Self, Stop> {
        if let Some(making) = Making::of(command) {
            return Ok(NodeCall::Make(making));
        }
        if let Some(linking) = Linking::of(command) {
            return Ok(NodeCall::Link(linking));
        }
        if let Some(changing) = Changing::of(command) {
            return Ok(NodeCall::Change(changing));
        }
        if let Some(question) = Question::of(command) {
            return Ok(NodeCall::Ask(question));
        }
        match command {
            "refuse" => Ok(NodeCall::RefuseMemory),
            "grant" => Ok(NodeCall::GrantMemory),
            _ => Err(Stop::Refused),
        }
    }
}
