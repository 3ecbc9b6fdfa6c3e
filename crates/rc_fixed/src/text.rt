//! Texts of bytes.

ghost use Rattle.std.specs.Prelude.{◌≡◌, ◌≤◌, [], length, IsOk, IfOk};

use crate::NoMemory;
use crate::word::{ROOM, Word};
use std::alloc::Global;
use std::marker::Model;

/// Where the bytes of a text stand.
#[derive(Debug, Drop)]
enum Kept {
    /// In the text itself.
    Within(Word),
    /// In memory of their own, and their vector behind a pointer: long texts are few, and so each text is as short as a
    /// word.
    Apart(Box<Vec<u8>>),
}

/// Bytes of any value. Contracts see the list of them.
///
/// Up to 22 bytes stand in the text itself, more in memory of their own. A text takes 24 bytes beside that memory.
#[derive(Debug, Drop)]
pub struct Text {
    kept: Kept,
}

const _: () = prove!(size_of::<Text>() == 24);

impl Model for Text {
    ghost use Rattle.std.specs.Prelude.{List, ℕ};
    ghost use Rattle.rc_fixed.specs.Texts.{kept_bytes};

    ghost Value = { List ℕ };

    ghost view = { λ text. kept_bytes text.kept };
}

impl Text {
    /// No bytes. It takes no memory.
    pub fn new(_alloc: Global) -> Text
        ensures { result ≡ [] }
    {
        Text {
            kept: Kept::Within(Word::of(&[])),
        }
    }

    /// A copy of these bytes. Up to 22 take no memory, and so never want any.
    pub fn from(alloc: Global, bytes: &[u8]) -> Result<Text, NoMemory>
        ensures copy { IfOk result (λ text. text ≡ bytes.now) }
        ensures short { length bytes.now ≤ 22 → IsOk result }
    {
        if bytes.len() <= ROOM {
            return Ok(Text {
                kept: Kept::Within(Word::of(bytes)),
            });
        }
        let bytes = Vec::from_slice(alloc, bytes)?;
        Text::apart(alloc, bytes)
    }

    /// The bytes of this vector, which stays where it is.
    fn apart(alloc: Global, bytes: Vec<u8>) -> Result<Text, NoMemory>
        ensures { IfOk result (λ text. text ≡ bytes.items) }
    {
        let bytes = Box::new(alloc, bytes)?;
        Ok(Text {
            kept: Kept::Apart(bytes),
        })
    }

    /// The bytes of this vector: more than 22 without a copy of them, fewer out of its memory, which is given back, and
    /// so without want of memory.
    ///
    /// # Errors
    ///
    /// `NoMemory` for want of memory.
    pub fn from_vec(alloc: Global, bytes: Vec<u8>) -> Result<Text, NoMemory>
        ensures bytes { IfOk result (λ text. text ≡ bytes.items) }
        ensures short { length bytes.items ≤ 22 → IsOk result }
    {
        if bytes.len() <= ROOM {
            return Ok(Text {
                kept: Kept::Within(Word::of(&bytes)),
            });
        }
        Text::apart(alloc, bytes)
    }

    /// The bytes, first to last.
    pub fn bytes(&self) -> &[u8]
        ensures { result.now ≡ self.now }
    {
        match &self.kept {
            Kept::Within(word) => word.bytes(),
            Kept::Apart(bytes) => bytes,
        }
    }
}

impl PartialEq for Text {
    ghost use Rattle.std.specs.Prelude.{◌==◌};
    ghost use Rattle.std.specs.Cmp.Lexicographic.{pointwise};
    ghost use Rattle.std.proofs.Common.{rules};
    ghost use Rattle.std.specs.Cmp.Rules.{comparing};

    ghost eq = { pointwise ◌==◌ };

    ghost laws = { Prim.search (comparing, rules) };

    fn eq(&self, other: &Text) -> bool {
        self.bytes() == other.bytes()
    }
}

impl Eq for Text {
    ghost use Rattle.std.proofs.Common.{rules};
    ghost use Rattle.std.specs.Cmp.Rules.{comparing};

    ghost laws = { Prim.search (comparing, rules) };
}
