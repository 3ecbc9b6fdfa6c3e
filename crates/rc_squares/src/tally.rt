//! The sums of all keys so far.

ghost use Rattle.std.specs.Prelude.{◌≡◌, ◌+◌, ◌<◌, ◌^◌, Some, OnOk, IfSome, option_map};
ghost use Rattle.std.specs.BTreeMap.{IsEmpty};
ghost use Rattle.rc_squares.specs.Found.{part_value};
ghost use Rattle.rc_squares.specs.Worths.{part_worth};
ghost use Rattle.rc_squares.specs.Tallies.{IsTally, Enters};

use crate::parts::Part;
use crate::sums::{NOTHING, Sum};
use rc_fixed::NoMemory;
use rc_geom::Key;
use std::alloc::Global;
use std::collections::BTreeMap;

/// The sums of all keys that have a part so far.
#[derive(Drop)]
pub struct Tally {
    pub sums: BTreeMap<Key, Sum>,
    /// How many parts they are of.
    pub parts: u128,
}

impl Tally {
    /// No sums.
    pub fn new(alloc: Global) -> Tally
        ensures sums { IsEmpty result.sums }
        ensures parts { result.parts ≡ 0 }
    {
        Tally {
            sums: BTreeMap::new(alloc),
            parts: 0,
        }
    }

    /// Adds a part to the sum of its key.
    fn enter(&mut self, part: Part) -> Result<(), NoMemory>
        requires amount { part.amount < 2 ^ 57 }
        requires room { self.old.parts < 2 ^ 70 }
        requires tally { IsTally (⟦<Key as Ord>⟧.cmp) self.old }
        ensures { OnOk result (Enters (⟦<Key as Ord>⟧.cmp) self.old self.new (λ worth key. part_worth worth key (Some (part_value part))) 1) }
    {
        let sum = self.sums.get(&part.key).copied().unwrap_or(NOTHING);
        let more = Sum {
            count: sum.count + 1,
            value: sum.value + part.amount,
        };
        self.sums.insert(part.key, more)?;
        self.parts += 1;
        Ok(())
    }

    /// The same where there is a part.
    pub fn enter_any(&mut self, part: Option<Part>) -> Result<(), NoMemory>
        requires amount { IfSome part (λ part. part.amount < 2 ^ 57) }
        requires room { self.old.parts < 2 ^ 70 }
        requires tally { IsTally (⟦<Key as Ord>⟧.cmp) self.old }
        ensures { OnOk result (Enters (⟦<Key as Ord>⟧.cmp) self.old self.new (λ worth key. part_worth worth key (option_map part_value part)) 1) }
    {
        match part {
            Some(part) => self.enter(part),
            None => Ok(()),
        }
    }
}
