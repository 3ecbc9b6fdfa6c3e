//! Keywords, and what they stand for.

ghost use Rattle.std.specs.Prelude.{◌≡◌};
ghost use Rattle.std.specs.Map.{lookup};
ghost use Rattle.std.specs.List.{zip};
ghost use Rattle.std.specs.Str.{bytes_eq};

use crate::KeyTable;

/// What a word stands for, where the words of a table stand for these keys, each for the one at its place. None
/// comes exactly where the table doesn't have the word.
pub fn find_key<K: Copy, const N: usize>(table: &KeyTable<N>, keys: &[K], word: &[u8]) -> Option<K>
    ensures { result ≡ lookup (bytes_eq word.now) (zip table.now keys.now) }
{
    let Some(place) = table.find(word) else {
        return None;
    };
    let place = place as usize;
    if place >= keys.len() {
        return None;
    }
    Some(keys[place])
}
