//! What a face adds.

ghost use Rattle.std.specs.Prelude.{◌≡◌, ◌<◌, ◌≤◌, ◌^◌, Some, IfSome, option_map};
ghost use Rattle.std.specs.Option.{ForSome, option_and_then, option_to_list};
ghost use Rattle.rc_geom.specs.Rects.{IsNear};
ghost use Rattle.rc_geom.specs.Plane.{plane_of};
ghost use Rattle.rc_geom.specs.Rates.{rate_of};
ghost use Rattle.rc_geom.specs.Parts.{node_key as node_key_of, pair_key as pair_key_of, shared_key as shared_key_of, foreign_metal as foreign_of, part_for as part_for_of};
ghost use Rattle.rc_squares.specs.Found.{face_value, part_value, parts_value};
ghost use Rattle.rc_squares.specs.Sides.{parts_on};

use crate::faces::{Face, Seen, context, face_of};
use crate::rates::FaceRates;
use crate::square::Metal;
use rc_geom::{Key, Pt, Side, Tile};

/// An amount for a key.
#[derive(Clone, Copy)]
pub struct Part {
    pub key: Key,
    pub amount: u128,
}

/// What a face adds: its own part, and the part that it shares.
#[derive(Clone, Copy)]
pub struct FaceParts {
    pub own: Option<Part>,
    pub shared: Option<Part>,
}

/// The key of a node that isn't grounded.
fn node_key(metal: Metal) -> Option<Key>
    ensures { result ≡ node_key_of metal }
{
    let (net, node) = metal;
    if node == 0 {
        None
    } else {
        Some(Key::Ground { net, node })
    }
}

/// The key of two nodes of different nets, the one of the lower net first.
pub fn pair_key(a: Metal, b: Metal) -> Key
    ensures { result ≡ pair_key_of a b }
{
    let (lower, higher) = if a.0 < b.0 { (a, b) } else { (b, a) };
    Key::Pair {
        net: lower.0,
        node: lower.1,
        other: higher.0,
        onode: higher.1,
    }
}

/// The key of what metals of two nets share.
fn shared_key(a: Metal, b: Metal) -> Option<Key>
    ensures { result ≡ shared_key_of a b }
{
    if b.1 == 0 {
        return node_key(a);
    }
    if a.1 == 0 {
        return node_key(b);
    }
    Some(pair_key(a, b))
}

/// The metal of another net that a face sees.
fn foreign_metal(own: Metal, sight: Option<Seen>) -> Option<Metal>
    ensures { result ≡ foreign_of own sight }
{
    match sight {
        Some((_, metal)) => { if metal.0 == own.0 { None } else { Some(metal) } }
        None => None,
    }
}

/// The key of what a face shares.
fn seen_key(face: Face) -> Option<Key>
    ensures { result ≡ option_and_then (shared_key_of face.own) (foreign_of face.own face.sight) }
{
    match foreign_metal(face.own, face.sight) {
        Some(metal) => shared_key(face.own, metal),
        None => None,
    }
}

/// A part for a key, where there is one.
fn part_for(key: Option<Key>, amount: u128) -> Option<Part>
    requires { amount < 2 ^ 57 }
    ensures is { option_to_list (option_map part_value result) ≡ part_for_of amount key }
    ensures small { IfSome result (λ part. part.amount < 2 ^ 57) }
{
    match key {
        Some(key) => Some(Part { key, amount }),
        None => None,
    }
}

/// The amounts of a face over a square.
fn amounts<R: FaceRates>(tiles: &[Tile], rates: &R, layer: u8, at: Pt, face: Face) -> (u128, u128)
    requires layer { layer < 32 }
    requires rules { R.has_rules rates.now layer }
    requires thick { 1 ≤ face.thick }
    requires capped { face.thick ≤ (R.rates_of rates.now).cap layer }
    requires gap { ForSome face.sight (λ seen. 1 ≤ seen.0) }
    requires within { ForSome face.sight (λ seen. seen.0 ≤ (R.rates_of rates.now).reach layer) }
    ensures is { result ≡ rate_of (R.rates_of rates.now) (plane_of tiles.now) layer at (face_value face) }
    ensures own { result.0 < 2 ^ 57 }
    ensures share { result.1 < 2 ^ 57 }
{
    let (under, over) = context(tiles, layer, at);
    let gap = match face.sight {
        Some(seen) => Some(seen.0),
        None => None,
    };
    rates.rate(layer, under, over, face.thick, gap)
}

/// What the face on a side of a square adds, whose metal is `own`.
pub fn side_parts<R: FaceRates>(
    tiles: &[Tile],
    rates: &R,
    layer: u8,
    side: Side,
    at: Pt,
    own: Metal,
) -> FaceParts
    requires layer { layer < 32 }
    requires rules { R.has_rules rates.now layer }
    requires near { IsNear at }
    requires own { plane_of tiles.now layer at ≡ Some own }
    ensures is { parts_value result ≡ parts_on (plane_of tiles.now) (R.rates_of rates.now) layer side at }
    ensures own { IfSome result.own (λ part. part.amount < 2 ^ 57) }
    ensures shared { IfSome result.shared (λ part. part.amount < 2 ^ 57) }
{
    match face_of(
        tiles,
        layer,
        side,
        at,
        own,
        rates.cap(layer),
        rates.reach(layer),
    ) {
        Some(face) => {
            let (amount, share) = amounts(tiles, rates, layer, at, face);
            FaceParts {
                own: part_for(node_key(face.own), amount),
                shared: part_for(seen_key(face), share),
            }
        }
        None => FaceParts {
            own: None,
            shared: None,
        },
    }
}
