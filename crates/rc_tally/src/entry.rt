//! The entry of a key.

ghost use Rattle.std.specs.Prelude.{◌≡◌, ◌+◌, ◌<◌, ◌^◌, true};
ghost use Rattle.rc_tally.specs.Tallies.{both};

use crate::amount::Amount;
use rc_geom::Key;

/// How many parts a key has, and the sum of their amounts.
#[derive(Clone, Copy, Debug, PartialEq, Eq)]
pub struct Entry<V> {
    pub key: Key,
    pub count: u64,
    pub value: V,
}

/// Two entries of one key, added up.
pub(crate) fn joined<V: Amount>(d: Entry<V>, e: Entry<V>) -> Entry<V>
    requires count { d.count + e.count < 2 ^ 64 }
    requires value { V.fits (V.adding.plus d.value e.value) ≡ true }
    ensures { result ≡ both V.adding d e }
{
    Entry {
        key: d.key,
        count: d.count + e.count,
        value: d.value.add(e.value),
    }
}
