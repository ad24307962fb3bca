// The object of a state.
ghost use Rattle.std.specs.Prelude.{◌≡◌, length, IfOk};
ghost use Rattle.json_fields.specs.Parts.{NestsWithin};
ghost use Rattle.airbyte_message.specs.Depths.{state_depth, IsOneLine};

use basics::{Bytes, Copies, NoMemory};
use std::alloc::Global;
use std::marker::Model;

/// The text of a state as it stood in its line: an object that nests at most 124 deep, so that the state store, which
/// holds it, still can be read, and that has no line feed, so that a line that holds it is one. There is no other.
#[derive(Debug, Drop)]
pub struct StateObject {
    text: Bytes,
}

impl Model for StateObject {
    ghost use Rattle.std.specs.Prelude.{ℕ, List};
    ghost use Rattle.json_fields.specs.Parts.{NestsWithin};
    ghost use Rattle.airbyte_message.specs.Depths.{state_depth, IsOneLine};

    ghost Value = { List ℕ };

    ghost view = { λ object. object.text };

    ghost invariant = { λ object. NestsWithin state_depth object.text × IsOneLine object.text };
}

impl StateObject {
    // The object of this text.
    pub(crate) fn new(text: Bytes) -> Self
        requires nests { NestsWithin state_depth text }
        requires line { IsOneLine text }
        ensures { result ≡ text }
    {
        StateObject { text }
    }

    /// How many bytes the text has.
    pub fn len(&self) -> usize
        ensures { result ≡ length self.now }
    {
        self.text.len()
    }

    /// The text.
    pub fn as_slice(&self) -> &[u8]
        ensures text { result.now ≡ self.now }
        ensures nests { NestsWithin state_depth self.now }
        ensures line { IsOneLine self.now }
    {
        self.text.as_slice()
    }

    /// The text, in its memory.
    pub fn into_bytes(self) -> Bytes
        ensures { result ≡ self }
    {
        self.text
    }
}

impl Copies for StateObject {
    fn copy(&self, alloc: Global) -> Result<Self, NoMemory> {
        Ok(StateObject {
            text: self.text.copy(alloc)?,
        })
    }
}
