//! The texts of own types and attributes, in parts.

ghost use Rattle.std.specs.Prelude.{◌≡◌, ◌↔◌, ◌++◌, ◌∷◌, [], IsTrue, OnErr, OnOk, map};
ghost use Rattle.plir_data.specs.OwnParts.{chars, held};
ghost use Rattle.plir_data.specs.PartSeen.{part_view};

use crate::memory::Memory;
use crate::types::TypeHandle;
use std::alloc::Global;
use std::marker::Model;

/// A part of an own text.
#[derive(Debug, Drop)]
pub enum OwnPart {
    /// These characters.
    Text(String),
    /// The text of the type that a handle names.
    Type(TypeHandle),
}

/// What stands behind the id in the text of an own type or attribute: parts, one behind another. The library puts a
/// space before them, where there are any, and writes out the types that they hold.
#[derive(Debug, Drop)]
pub struct OwnText {
    parts: Vec<OwnPart>,
}

impl Model for OwnText {
    ghost use Rattle.std.specs.Prelude.{List, map};
    ghost use Rattle.plir_data.specs.OwnParts.{Part};
    ghost use Rattle.plir_data.specs.PartSeen.{part_view};

    ghost Value = { List Part };

    ghost view = { λ t. map part_view t.parts.items };
}

impl OwnText {
    /// No parts: nothing stands behind the id.
    pub fn new(alloc: Global) -> OwnText
        ensures { result ≡ [] }
    {
        OwnText {
            parts: Vec::new(alloc),
        }
    }

    /// Puts these characters behind what is there. Where memory is refused, the parts are as they were.
    pub fn text(&mut self, text: &str) -> Result<(), Memory>
        ensures ok { OnOk result (self.new ≡ self.old ++ chars text.now ∷ []) }
        ensures err { OnErr result (self.new ≡ self.old) }
    {
        let text = String::from_str(*self.parts.allocator(), text)?;
        self.put(OwnPart::Text(text))
    }

    /// Puts the type that a handle names behind what is there. Where memory is refused, the parts are as they were.
    pub fn type_of(&mut self, handle: TypeHandle) -> Result<(), Memory>
        ensures ok { OnOk result (self.new ≡ self.old ++ held handle ∷ []) }
        ensures err { OnErr result (self.new ≡ self.old) }
    {
        self.put(OwnPart::Type(handle))
    }

    fn put(&mut self, part: OwnPart) -> Result<(), Memory>
        ensures ok { OnOk result (self.new ≡ self.old ++ part_view part ∷ []) }
        ensures err { OnErr result (self.new ≡ self.old) }
    {
        self.parts.push(part)?;
        Ok(())
    }

    /// Whether there are no parts.
    pub fn is_empty(&self) -> bool
        ensures { IsTrue result ↔ (self.now ≡ []) }
    {
        self.parts.is_empty()
    }

    /// The parts, in order.
    pub fn parts(&self) -> &[OwnPart]
        ensures { map part_view result.now ≡ self.now }
    {
        self.parts.as_slice()
    }
}
