//! How often columns were changed.

ghost use Rattle.std.specs.Prelude.{◌≡◌};
ghost use Rattle.rc_column.specs.EditCounts.{raised};

use std::marker::Model;

/// How often it was tried to put a tile into a column or to take one out. Columns alone raise the count; it stands still at
/// the greatest number of 64 bits. Contracts see the number.
#[derive(Drop)]
pub struct Edits {
    count: u64,
}

impl Model for Edits {
    ghost use Rattle.std.specs.Prelude.{ℕ};

    ghost Value = { ℕ };

    ghost view = { λ edits. edits.count };
}

impl Edits {
    /// None so far.
    pub fn new() -> Edits
        ensures { result ≡ 0 }
    {
        Edits { count: 0 }
    }

    /// How many there were.
    pub fn count(&self) -> u64
        ensures { result ≡ self.now }
    {
        self.count
    }

    /// So many more.
    pub(crate) fn raise(&mut self, by: u64)
        ensures { self.new ≡ raised self.old by }
    {
        self.count = self.count.saturating_add(by);
    }
}
