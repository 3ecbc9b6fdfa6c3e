//! One list of entries with rising keys out of two.

ghost use Rattle.std.specs.Prelude.{◌≡◌, ◌<◌, ◌≤◌, ◌+◌, ◌^◌, ◌⊎◌, true, length, slice_index_or, IfOk, IfSome};
ghost use Rattle.rc_geom.specs.declared.key.Key.{Key};
ghost use Rattle.rc_tally.specs.declared.entry.Entry.{Entry};
ghost use Rattle.rc_tally.specs.Tallies.{entry_at, Merges, IsRising, CanMerge};
ghost use Rattle.rc_tally.specs.Places.{IsNext};

use crate::amount::Amount;
use crate::entry::{Entry, joined};
use rc_fixed::NoMemory;
use std::alloc::Global;
use std::cmp::Ordering;

/// What comes next in the merge of two lists, and how many entries of each it is made of.
#[derive(Clone, Copy)]
struct Next<V> {
    entry: Entry<V>,
    first: usize,
    second: usize,
}

/// What comes next, of two lists of which so many entries are done.
fn next_of<V: Amount>(a: &[Entry<V>], b: &[Entry<V>], i: usize, j: usize) -> Next<V>
    requires some { (i < length a.now) ⊎ (j < length b.now) }
    requires counts { (d : Entry V) → i < length a.now → j < length b.now → (slice_index_or a.now i d).key ≡ (slice_index_or b.now j d).key → (slice_index_or a.now i d).count + (slice_index_or b.now j d).count < 2 ^ 64 }
    requires values { (d : Entry V) → i < length a.now → j < length b.now → (slice_index_or a.now i d).key ≡ (slice_index_or b.now j d).key → V.fits (V.adding.plus (slice_index_or a.now i d).value (slice_index_or b.now j d).value) ≡ true }
    ensures { IsNext V.adding a.now b.now i j result }
{
    if i >= a.len() {
        return Next {
            entry: b[j],
            first: 0,
            second: 1,
        };
    }
    if j >= b.len() {
        return Next {
            entry: a[i],
            first: 1,
            second: 0,
        };
    }
    let (d, e) = (a[i], b[j]);
    match d.key.cmp(&e.key) {
        Ordering::Less => Next {
            entry: d,
            first: 1,
            second: 0,
        },
        Ordering::Greater => Next {
            entry: e,
            first: 0,
            second: 1,
        },
        Ordering::Equal => Next {
            entry: joined(d, e),
            first: 1,
            second: 1,
        },
    }
}

/// The entries of two lists; those of a key that both have are added up. It goes through both lists once.
pub(crate) fn merged<V: Amount>(
    alloc: Global,
    a: &[Entry<V>],
    b: &[Entry<V>],
) -> Result<Vec<Entry<V>>, NoMemory>
    requires first { IsRising a.now }
    requires second { IsRising b.now }
    requires fits { CanMerge V.adding V.fits a.now b.now }
    ensures rising { IfOk result (λ sums. IsRising sums.items) }
    ensures merges { IfOk result (λ sums. Merges V.adding a.now b.now sums.items) }
{
    let mut sums = Vec::new(alloc);
    let mut i = 0;
    let mut j = 0;
    while i < a.len() || j < b.len() {
        let next = next_of(a, b, i, j);
        sums.push(next.entry)?;
        i += next.first;
        j += next.second;
    }
    Ok(sums)
}
