//! What faces add to.

ghost use Rattle.std.specs.Prelude.{◌≡◌};
ghost use Rattle.std.specs.Option.{option_and_then};
ghost use Rattle.rc_geom.specs.Parts.{node_key as node_key_of, shared_key as shared_key_of, foreign_metal as foreign_of};

use rc_geom::Key;
use rc_squares::{Metal, Seen, pair_key};

/// The key of a node that isn't grounded.
pub fn node_key(metal: Metal) -> Option<Key>
    ensures { result ≡ node_key_of metal }
{
    let (net, node) = metal;
    if node == 0 {
        None
    } else {
        Some(Key::Ground { net, node })
    }
}

/// The key of what metals of two nets share.
fn shared_key(a: Metal, b: Metal) -> Option<Key>
    ensures { result ≡ shared_key_of a b }
{
    if b.1 == 0 {
        return node_key(a);
    }
    if a.1 == 0 {
        return node_key(b);
    }
    Some(pair_key(a, b))
}

/// The key of what metal shares with that of another net that it sees.
pub fn seen_key(own: Metal, sight: Option<Seen>) -> Option<Key>
    ensures { result ≡ option_and_then (shared_key_of own) (foreign_of own sight) }
{
    match sight {
        Some((_, metal)) if metal.0 != own.0 => shared_key(own, metal),
        _ => None,
    }
}
