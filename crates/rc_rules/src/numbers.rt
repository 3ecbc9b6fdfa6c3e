//! Lists of numbers, and of rows of them.

ghost use Rattle.std.specs.Prelude.{◌≡◌, ◌≤◌, ◌++◌, ◌∷◌, [], All, length, map, option_map, slice_get, slice_index, OnOk, OnErr};
ghost use Rattle.rc_rules.specs.Numbers.{IsNumber};

use rc_fixed::{List, NoMemory};
use std::alloc::Global;
use std::marker::Model;

/// Numbers of 10^-15 for one unit of length, each at most 10^17. Contracts see the list of them.
#[derive(Debug, Drop)]
pub struct Numbers {
    items: List<u64>,
}

impl Model for Numbers {
    ghost use Rattle.std.specs.Prelude.{ℕ, All, List as Elements};
    ghost use Rattle.rc_rules.specs.Numbers.{IsNumber};

    ghost Value = { Elements ℕ };

    ghost view = { λ numbers. numbers.items };

    ghost invariant = { λ numbers. All IsNumber numbers.items };
}

impl Numbers {
    /// No numbers.
    pub fn new(alloc: Global) -> Numbers
        ensures { result ≡ [] }
    {
        Numbers {
            items: List::new(alloc),
        }
    }

    /// What holds of all such numbers. Nothing is computed here.
    pub fn facts(&self)
        ensures { All IsNumber self.now }
    {
        let _ = self.items.len();
    }

    /// How many there are.
    pub fn len(&self) -> usize
        ensures { result ≡ length self.now }
    {
        self.items.len()
    }

    /// Appends a number.
    ///
    /// # Errors
    ///
    /// `NoMemory` for want of memory. The numbers are then as before.
    pub fn push(&mut self, number: u64) -> Result<(), NoMemory>
        requires { IsNumber number }
        ensures ok { OnOk result (self.new ≡ self.old ++ number ∷ []) }
        ensures err { OnErr result (self.new ≡ self.old) }
    {
        self.items.push(number)
    }

    /// The number at a place, 0 past the last one.
    pub fn at(&self, place: usize) -> u64
        ensures { result ≡ slice_index self.now place }
    {
        match self.items.items().get(place) {
            Some(number) => *number,
            None => 0,
        }
    }
}

/// Rows of such numbers. Contracts see the list of them.
#[derive(Debug, Drop)]
pub struct Rows {
    items: List<Numbers>,
}

impl Model for Rows {
    ghost use Rattle.std.specs.Prelude.{ℕ, All, List as Elements};
    ghost use Rattle.rc_rules.specs.Numbers.{IsNumber};

    ghost Value = { Elements (Elements ℕ) };

    ghost view = { λ rows. rows.items };

    ghost invariant = { λ rows. All (All IsNumber) rows.items };
}

impl Rows {
    /// No rows.
    pub fn new(alloc: Global) -> Rows
        ensures { result ≡ [] }
    {
        Rows {
            items: List::new(alloc),
        }
    }

    /// What holds of all such rows. Nothing is computed here.
    pub fn facts(&self)
        ensures { All (All IsNumber) self.now }
    {
        let _ = self.items.len();
    }

    /// How many there are.
    pub fn len(&self) -> usize
        ensures { result ≡ length self.now }
    {
        self.items.len()
    }

    /// Appends a row.
    ///
    /// # Errors
    ///
    /// `NoMemory` for want of memory. The rows are then as before.
    pub fn push(&mut self, row: Numbers) -> Result<(), NoMemory>
        ensures ok { OnOk result (self.new ≡ self.old ++ row ∷ []) }
        ensures err { OnErr result (self.new ≡ self.old) }
    {
        row.facts();
        self.items.push(row)
    }

    /// The row at a place. None comes exactly past the last one.
    pub fn get(&self, place: usize) -> Option<&Numbers>
        ensures { option_map (λ row. row.now) result ≡ slice_get self.now place }
    {
        self.items.items().get(place)
    }
}
