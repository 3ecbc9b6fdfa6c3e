//! What faces add to.

ghost use Rattle.std.specs.Prelude.{◌≡◌};
ghost use Rattle.std.specs.Option.{option_and_then};
ghost use Rattle.rc_geom.specs.Parts.{node_key as node_key_of, pair_key as pair_key_of, shared_key as shared_key_of, foreign_metal as foreign_of};
ghost use Rattle.rc_column.specs.Found.{face_value};

use rc_column::{Face, Metal};
use rc_geom::Key;

/// The key of a node that isn't grounded.
fn node_key(metal: Metal) -> Option<Key>
    ensures { result ≡ node_key_of metal }
{
    let (net, node) = metal;
    if node == 0 {
        None
    } else {
        Some(Key::Ground { net, node })
    }
}

/// The key of two nodes of different nets, the one of the lower net first.
fn pair_key(a: Metal, b: Metal) -> Key
    ensures { result ≡ pair_key_of a b }
{
    let (lower, higher) = if a.0 < b.0 { (a, b) } else { (b, a) };
    Key::Pair {
        net: lower.0,
        node: lower.1,
        other: higher.0,
        onode: higher.1,
    }
}

/// The key of what metals of two nets share.
fn shared_key(a: Metal, b: Metal) -> Option<Key>
    ensures { result ≡ shared_key_of a b }
{
    if b.1 == 0 {
        return node_key(a);
    }
    if a.1 == 0 {
        return node_key(b);
    }
    Some(pair_key(a, b))
}

/// The key that a face's own amount is for.
pub fn own_key(face: &Face) -> Option<Key>
    ensures { result ≡ node_key_of (face_value face.now).own }
{
    node_key((face.net, face.node))
}

/// The key that its share is for.
pub fn seen_key(face: &Face) -> Option<Key>
    ensures { result ≡ option_and_then (shared_key_of (face_value face.now).own) (foreign_of (face_value face.now).own (face_value face.now).sight) }
{
    match face.gap {
        Some(_) if face.onet != face.net => {
            shared_key((face.net, face.node), (face.onet, face.onode))
        }
        _ => None,
    }
}
