//! Short runs of bytes that need no memory.

ghost use Rattle.std.specs.Prelude.{◌≡◌, ◌≤◌, length};

use std::marker::Model;

/// How many bytes a word has room for.
pub const ROOM: usize = 22;

/// Up to 22 bytes in place. Contracts see the list of them.
#[derive(Debug, Drop)]
pub struct Word {
    len: u8,
    room: [u8; ROOM],
}

impl Model for Word {
    ghost use Rattle.std.specs.Prelude.{List, ℕ, ◌≤◌, take};

    ghost Value = { List ℕ };

    ghost view = { λ word. take word.len word.room };

    ghost invariant = { λ word. word.len ≤ 22 };
}

impl Word {
    /// These bytes.
    pub fn of(bytes: &[u8]) -> Word
        requires { length bytes.now ≤ 22 }
        ensures { result ≡ bytes.now }
    {
        let mut room = [0; ROOM];
        room[..bytes.len()].copy_from_slice(bytes);
        Word {
            len: bytes.len() as u8,
            room,
        }
    }

    /// The bytes, first to last.
    pub fn bytes(&self) -> &[u8]
        ensures { result.now ≡ self.now }
    {
        &self.room[..self.len as usize]
    }
}
