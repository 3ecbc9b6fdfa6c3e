//! Widths or distances that rise.

ghost use Rattle.std.specs.Prelude.{◌≡◌, ◌<◌, ◌≤◌, ◌^◌, ◌++◌, ◌∷◌, [], true, length, nat_le, slice_index, OnOk, OnErr, IsTrue, ◌↔◌};
ghost use Rattle.std.specs.List.{position_or_len};
ghost use Rattle.rc_rules.specs.Scales.{rises as rises_by, last_step, IsLength, IsScale};

use rc_fixed::{List, NoMemory};
use std::alloc::Global;
use std::marker::Model;

/// At most 32 lengths that rise strictly, each from 1 to 2^29 units. Contracts see the list of them.
#[derive(Debug, Drop)]
pub struct Scale {
    steps: List<u32>,
}

impl Model for Scale {
    ghost use Rattle.std.specs.Prelude.{ℕ, List as Elements};
    ghost use Rattle.rc_rules.specs.Scales.{IsScale};

    ghost Value = { Elements ℕ };

    ghost view = { λ scale. scale.steps };

    ghost invariant = { λ scale. IsScale scale.steps };
}

impl Scale {
    /// No lengths.
    pub fn new(alloc: Global) -> Scale
        ensures { result ≡ [] }
    {
        Scale {
            steps: List::new(alloc),
        }
    }

    /// What holds of every scale. Nothing is computed here.
    pub fn facts(&self)
        ensures { IsScale self.now }
    {
        let _ = self.steps.len();
    }

    /// How many lengths it has.
    pub fn len(&self) -> usize
        ensures length { result ≡ length self.now }
        ensures few { result ≤ 32 }
    {
        self.steps.len()
    }

    /// Whether it has none.
    pub fn is_empty(&self) -> bool
        ensures { IsTrue result ↔ (self.now ≡ []) }
    {
        self.steps.is_empty()
    }

    /// Whether it still rises with this length behind it.
    pub fn rises_to(&self, step: u32) -> bool
        ensures { result ≡ rises_by (self.now ++ step ∷ []) }
    {
        match self.steps.items().last() {
            Some(last) => *last < step,
            None => true,
        }
    }

    /// Appends a length that is greater than the last one.
    ///
    /// # Errors
    ///
    /// `NoMemory` for want of memory. The scale is then as before.
    pub fn push(&mut self, step: u32) -> Result<(), NoMemory>
        requires room { length self.old < 32 }
        requires length { IsLength step }
        requires rises { rises_by (self.old ++ step ∷ []) ≡ true }
        ensures ok { OnOk result (self.new ≡ self.old ++ step ∷ []) }
        ensures err { OnErr result (self.new ≡ self.old) }
    {
        self.steps.push(step)
    }

    /// The last length, 0 where there is none.
    pub fn last(&self) -> u32
        ensures last { result ≡ last_step self.now }
        ensures small { result ≤ 2 ^ 29 }
    {
        match self.steps.items().last() {
            Some(last) => *last,
            None => 0,
        }
    }

    /// The place of the first length that is at least this one, or else how many there are.
    pub fn place(&self, length: u32) -> usize
        ensures { result ≡ position_or_len (λ step. nat_le length step) self.now }
    {
        self.steps.items().partition_point(|step| *step < length)
    }
}
