//! Where the scripts of a file begin and end.

/// What stands in front of the head of a script.
pub const MARK: &str = "\n== ";

/// A script of a file.
#[derive(Clone, Copy, Debug, PartialEq, Eq)]
pub struct Script<'a> {
    /// Whose calls it makes.
    pub layer: &'a str,
    /// How many live nodes its context has room for.
    pub max_nodes: u32,
    /// What it shows.
    pub name: &'a str,
    /// Its lines.
    pub lines: &'a str,
}

/// The script that begins with this head; none where the head is not `LAYER NODES NAME`.
pub fn script_of(text: &str) -> Option<Script<'_>> {
    let (head, lines) = text.split_once('\n').unwrap_or((text, ""));
    let (layer, rest) = head.split_once(' ')?;
    let (nodes, name) = rest.split_once(' ')?;
    let max_nodes = nodes.parse::<u32>().ok()?;
    let (lines, _) = lines.split_once("\n#").unwrap_or((lines, ""));
    Some(Script {
        layer,
        max_nodes,
        name,
        lines,
    })
}
