// The bytes of a text as they are written.

ghost use Rattle.std.specs.Prelude.{◌≡◌, ◌+◌, ◌<◌, ◌≤◌, ◌++◌, ◌∷◌, [], length};

use std::marker::Model;

const ROOM: usize = 160;

/// A meeting's text of at most 160 bytes. Contracts see it as its bytes.
#[derive(Drop)]
pub struct MeetingText {
    bytes: [u8; ROOM],
    len: usize,
}

impl Model for MeetingText {
    ghost use Rattle.std.specs.Prelude.{ℕ, List, ◌≤◌, take, length};

    ghost Value = { List ℕ };

    ghost view = { λ t. take t.len t.bytes };

    ghost invariant = { λ t. t.len ≤ 160 };
}

impl MeetingText {
    /// The text's bytes.
    pub fn as_bytes(&self) -> &[u8]
        ensures bytes { result.now ≡ self.now }
        ensures room { length self.now ≤ 160 }
    {
        &self.bytes[..self.len]
    }

    /// The empty text.
    pub(crate) fn empty() -> MeetingText
        ensures { result ≡ [] }
    {
        MeetingText {
            bytes: [0; ROOM],
            len: 0,
        }
    }

    /// Puts a byte behind the others, where there is room.
    pub(crate) fn push(&mut self, byte: u8)
        requires { length self.old < 160 }
        ensures { self.new ≡ self.old ++ byte ∷ [] }
    {
        self.bytes[self.len] = byte;
        self.len += 1;
    }
}
