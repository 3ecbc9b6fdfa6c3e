//! Sums of amounts by key.

ghost use Rattle.std.specs.Prelude.{◌≡◌, ◌<◌, ◌+◌, ◌^◌, [], All, true, IfOk, IfSome, OnOk, OnErr};
ghost use Rattle.std.specs.List.Sorted.{IsPermutation};
ghost use Rattle.rc_tally.specs.Tallies.{entry_at, Grows, Merges, Gathers, CanMerge, AllFit, IsRising};

use crate::amount::Amount;
use crate::entry::{Entry, joined};
use crate::join::merged;
use crate::latest::Latest;
use crate::place::place;
use rc_fixed::NoMemory;
use rc_geom::Key;
use std::alloc::Global;
use std::marker::Model;

/// Sums of amounts, each with how many parts it is of. Contracts see the list of the entries, whose keys rise.
#[derive(Drop)]
pub struct Tally<V> {
    entries: Vec<Entry<V>>,
    latest: Latest,
}

impl<V> Model for Tally<V> {
    ghost use Rattle.std.specs.Prelude.{List};
    ghost use Rattle.rc_tally.specs.declared.entry.Entry.{Entry};
    ghost use Rattle.rc_tally.specs.Tallies.{IsRising};

    ghost Value = { List (Entry V) };

    ghost view = { λ tally. tally.entries.items };

    ghost invariant = { λ tally. IsRising tally.entries.items };
}

impl<V: Amount> Tally<V> {
    /// No sums. It takes no memory before the first one.
    pub fn new(alloc: Global) -> Tally<V>
        ensures { result ≡ [] }
    {
        Tally {
            entries: Vec::new(alloc),
            latest: Latest::start(),
        }
    }

    /// The sums, by rising keys.
    pub fn entries(&self) -> &[Entry<V>]
        ensures are { result.now ≡ self.now }
        ensures rising { IsRising self.now }
    {
        &self.entries
    }

    /// The entry of a key. None comes exactly where it has none. It is found by halving the list.
    pub fn get(&self, key: Key) -> Option<Entry<V>>
        ensures { result ≡ entry_at self.now key }
    {
        match place(&self.entries, self.latest.guess(key), key) {
            Ok(at) => Some(self.entries[at]),
            Err(_) => None,
        }
    }

    /// Adds that many parts of that value in all to the key's entry, or makes it.
    ///
    /// Where the last addition for a node, or for a pair, was for the same key, its entry is found at once; others are found by
    /// halving the list. A new entry moves those above it.
    ///
    /// # Errors
    ///
    /// `NoMemory` for want of memory; the sums are as before.
    pub fn add(&mut self, key: Key, count: u64, value: V) -> Result<(), NoMemory>
        requires count { IfSome (entry_at self.old key) (λ e. e.count + count < 2 ^ 64) }
        requires value { IfSome (entry_at self.old key) (λ e. V.fits (V.adding.plus e.value value) ≡ true) }
        ensures ok { OnOk result (Grows V.adding self.old self.new key (record { count = count; value = value })) }
        ensures err { OnErr result (self.new ≡ self.old) }
    {
        let entry = Entry { key, count, value };
        match place(&self.entries, self.latest.guess(key), key) {
            Ok(at) => {
                self.entries[at] = joined(self.entries[at], entry);
                self.latest = self.latest.moved(key, at);
                Ok(())
            }
            Err(at) => {
                self.entries.insert(at, entry)?;
                self.latest = self.latest.moved(key, at);
                Ok(())
            }
        }
    }

    /// The sums of two tallies: those of a key that both have are added. It goes through both once.
    ///
    /// # Errors
    ///
    /// `NoMemory` for want of memory.
    pub fn merge(alloc: Global, a: &Tally<V>, b: &Tally<V>) -> Result<Tally<V>, NoMemory>
        requires { CanMerge V.adding V.fits a.now b.now }
        ensures { IfOk result (λ tally. Merges V.adding a.now b.now tally) }
    {
        let entries = merged(alloc, &a.entries, &b.entries)?;
        Ok(Tally {
            entries,
            latest: Latest::start(),
        })
    }

    /// The sums of a list in which a key may stand many times and in any order. It sorts the list by its keys where it
    /// stands, and goes through it once. Where there are many keys in any order, new entries don't move others, as they do
    /// with additions; where there are few keys, additions are as fast or faster.
    ///
    /// # Errors
    ///
    /// `NoMemory` for want of memory.
    pub fn gather(alloc: Global, entries: &mut [Entry<V>]) -> Result<Tally<V>, NoMemory>
        requires sound { All (λ e. V.sound e.value ≡ true) entries.old }
        requires fits { AllFit V.adding V.fits entries.old }
        ensures sums { IfOk result (λ tally. Gathers V.adding entries.old tally) }
        ensures list { IsPermutation entries.old entries.new }
    {
        entries.sort_unstable_by_key(|entry| entry.key);
        let mut tally = Tally::new(alloc);
        for entry in &*entries {
            tally.add(entry.key, entry.count, entry.value)?;
        }
        Ok(tally)
    }
}
