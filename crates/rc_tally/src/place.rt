//! Places of keys in entries with rising keys.

ghost use Rattle.std.specs.Prelude.{◌≡◌, true, MatchResult};
ghost use Rattle.rc_tally.specs.Tallies.{IsRising};
ghost use Rattle.rc_tally.specs.Places.{IsAt, IsGapFor};

use crate::entry::Entry;
use rc_geom::Key;

/// Whether the entry at a place has the key; a place past the end has none.
pub(crate) fn has_key<V: Copy>(entries: &[Entry<V>], at: usize, key: Key) -> bool
    ensures { result ≡ true → IsAt entries.now key at }
{
    at < entries.len() && entries[at].key == key
}

/// Where the key's entry stands, or else where it would have to be put in. `guess` is looked at first.
pub(crate) fn place<V: Copy>(entries: &[Entry<V>], guess: usize, key: Key) -> Result<usize, usize>
    requires { IsRising entries.now }
    ensures { MatchResult result (IsAt entries.now key) (IsGapFor entries.now key) }
{
    if has_key(entries, guess, key) {
        return Ok(guess);
    }
    entries.binary_search_by_key(&key, |entry| entry.key)
}
