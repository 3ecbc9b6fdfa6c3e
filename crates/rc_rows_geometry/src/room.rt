//! Whether sums of plain numbers fit: what a test asks before it adds numbers up.

ghost use Rattle.std.specs.Prelude.{◌≡◌, ◌<◌, ◌+◌, ◌*◌, ◌^◌, true, nat_lt, IfSome};
ghost use Rattle.rc_geom.specs.Sums.{numbers};
ghost use Rattle.rc_tally.specs.Tallies.{entry_at, CanMerge, AllFit};
ghost use Rattle.rc_rows_geometry.specs.Room.{Fits, small};

use rc_geom::Key;
use rc_tally::{Amount, Entry, Tally};

/// Whether so many parts of a value fit beside what a key has.
pub fn has_room(tally: &Tally<u128>, key: Key, count: u64, value: u128) -> bool
    ensures { result ≡ true → IfSome (entry_at tally.now key) (Fits count value) }
{
    match tally.get(key) {
        Some(entry) => {
            entry.count.checked_add(count).is_some() && entry.value.checked_add(value).is_some()
        }
        None => true,
    }
}

/// A value so many times, where that fits.
pub fn times(value: u128, n: u32) -> Option<u128>
    ensures { IfSome result (λ product. product ≡ value * n) }
{
    match value.checked_mul(u128::from(n)) {
        Some(_) => Some(value.times(n)),
        None => None,
    }
}

/// Whether the sums of two tallies fit.
pub fn can_merge(a: &Tally<u128>, b: &Tally<u128>) -> bool
    ensures { result ≡ true → CanMerge numbers small a.now b.now }
{
    for entry in a.entries() {
        if !has_room(b, entry.key, entry.count, entry.value) {
            return false;
        }
    }
    true
}

/// Whether all counts and all values of a list fit, added up.
pub fn can_gather(entries: &[Entry<u128>]) -> bool
    ensures { result ≡ true → AllFit numbers small entries.now }
{
    let mut count = 0u64;
    let mut value = 0u128;
    for entry in entries {
        match (
            count.checked_add(entry.count),
            value.checked_add(entry.value),
        ) {
            (Some(more), Some(worth)) => {
                count = more;
                value = worth;
            }
            _ => return false,
        }
    }
    true
}
