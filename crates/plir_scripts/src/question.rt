//! What a line can ask of nodes.

/// A question.
#[derive(Clone, Copy)]
pub enum Question {
    /// Of a node, or of all.
    Node(OfNode),
    /// Of the uses of a node or a value.
    Uses(OfUses),
    /// Of what a node holds, and where one would be inserted.
    Contents(OfContents),
    /// Of the texts of types.
    Types(OfTypes),
    /// `show NODE`: what the getters answer.
    Show,
    /// `fresh`: how much there is in a new context.
    Fresh,
}

/// Whether a node is there, its number, what stands above it, and how many there are.
#[derive(Clone, Copy)]
pub enum OfNode {
    /// `live NODE`.
    Live,
    /// `number NODE`.
    Number,
    /// `above NODE NODE`.
    Above,
    /// `count`.
    Count,
}

/// Whether something uses a node or a value, and which operations do, at which of their places.
#[derive(Clone, Copy)]
pub enum OfUses {
    /// `unused NODE`.
    Unused,
    /// `used VALUE`.
    Used,
    /// `uses VALUE`.
    Count,
    /// `users VALUE`.
    Users,
    /// `branches BLOCK`.
    Branches,
}

/// What a node holds, and where one would be inserted.
#[derive(Clone, Copy)]
pub enum OfContents {
    /// `get NODE KEY`.
    Get,
    /// `interfaces OP`.
    Interfaces,
    /// `use OP PLACE`.
    Use,
    /// `point SIDE NODE`.
    Point,
}

/// The texts of types: of one that is named, of that of a value, or of those of all values of a node.
#[derive(Clone, Copy)]
pub enum OfTypes {
    /// `text TYPE`.
    Text,
    /// `typed VALUE`.
    Typed,
    /// `types NODE`.
    OfValues,
}

impl Question {
    /// What a word asks.
    pub fn of(word: &str) -> Option<Self> {
        match word {
            "live" => Some(Question::Node(OfNode::Live)),
            "number" => Some(Question::Node(OfNode::Number)),
            "above" => Some(Question::Node(OfNode::Above)),
            "count" => Some(Question::Node(OfNode::Count)),
            "unused" => Some(Question::Uses(OfUses::Unused)),
            "used" => Some(Question::Uses(OfUses::Used)),
            "uses" => Some(Question::Uses(OfUses::Count)),
            "users" => Some(Question::Uses(OfUses::Users)),
            "branches" => Some(Question::Uses(OfUses::Branches)),
            "get" => Some(Question::Contents(OfContents::Get)),
            "interfaces" => Some(Question::Contents(OfContents::Interfaces)),
            "use" => Some(Question::Contents(OfContents::Use)),
            "point" => Some(Question::Contents(OfContents::Point)),
            "text" => Some(Question::Types(OfTypes::Text)),
            "typed" => Some(Question::Types(OfTypes::Typed)),
            "types" => Some(Question::Types(OfTypes::OfValues)),
            "show" => Some(Question::Show),
            "fresh" => Some(Question::Fresh),
            _ => None,
        }
    }
}
