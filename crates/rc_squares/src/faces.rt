//! The faces of a square.

ghost use Rattle.std.specs.Prelude.{◌≡◌, ◌<◌, ◌≤◌, ◌^◌, Some, not, MatchOption, IfSome, option_map};
ghost use Rattle.rc_geom.specs.Rects.{IsNear};
ghost use Rattle.rc_geom.specs.Plane.{plane_of};
ghost use Rattle.rc_geom.specs.Line.{axis_of, is_up};
ghost use Rattle.rc_geom.specs.Faces.{is_net as is_net_of, thickness as thickness_of, gap as gap_of, sight as sight_of};
ghost use Rattle.rc_geom.specs.Context.{under as under_of, over as over_of};
ghost use Rattle.rc_squares.specs.Sides.{ahead, behind, face_on};
ghost use Rattle.rc_squares.specs.Found.{face_value, IsBounded};

use crate::square::{Metal, beside, metal_at};
use rc_geom::{Pt, Side, Tile};

/// How many empty squares lie before some metal, and that metal.
pub type Seen = (u32, Metal);

/// A side of a square behind which the square's net ends.
#[derive(Clone, Copy, Debug, PartialEq, Eq)]
pub struct Face {
    /// The metal of the square.
    pub own: Metal,
    /// How many squares of the net stand in a row from the face, at most the cap.
    pub thick: u32,
    /// The first metal on that side, where it is within reach.
    pub sight: Option<Seen>,
}

/// The side across.
fn opposite(side: Side) -> Side
    ensures axis { axis_of result ≡ axis_of side }
    ensures way { is_up result ≡ not (is_up side) }
{
    match side {
        Side::Left => Side::Right,
        Side::Right => Side::Left,
        Side::Down => Side::Up,
        Side::Up => Side::Down,
    }
}

/// Whether the metal is that net's.
fn is_net(net: u32, metal: Option<Metal>) -> bool
    ensures { result ≡ is_net_of net metal }
{
    match metal {
        Some(own) => own.0 == net,
        None => false,
    }
}

/// How many squares of the net stand in a row from a square, away from the side, at most the cap.
fn run_behind(tiles: &[Tile], layer: u8, net: u32, side: Side, at: Pt, cap: u32) -> u32
    requires near { IsNear at }
    requires cap { cap ≤ 2 ^ 30 }
    ensures { result ≡ thickness_of net cap (behind (plane_of tiles.now) layer side at) }
{
    let back = opposite(side);
    for distance in 0..cap {
        if !is_net(net, metal_at(tiles, layer, beside(back, at, distance))) {
            return distance;
        }
    }
    cap
}

/// How many empty squares stand on a side of a square before the first metal, at most one more than the reach.
fn gap_ahead(tiles: &[Tile], layer: u8, side: Side, at: Pt, reach: u32) -> u32
    requires near { IsNear at }
    requires reach { reach < 2 ^ 30 }
    ensures { result ≡ gap_of reach (ahead (plane_of tiles.now) layer side at) }
{
    for gap in 0..reach + 1 {
        if metal_at(tiles, layer, beside(side, at, gap + 1)).is_some() {
            return gap;
        }
    }
    reach + 1
}

/// How many squares of a square's net stand in a row from it, away from the side, at most `cap`; 0 for an empty square.
pub fn thickness(tiles: &[Tile], layer: u8, side: Side, at: Pt, cap: u32) -> u32
    requires near { IsNear at }
    requires cap { cap ≤ 2 ^ 30 }
    ensures { MatchOption (plane_of tiles.now layer at) (result ≡ 0) (λ own. result ≡ thickness_of own.0 cap (behind (plane_of tiles.now) layer side at)) }
{
    match metal_at(tiles, layer, at) {
        Some(own) => run_behind(tiles, layer, own.0, side, at, cap),
        None => 0,
    }
}

/// The first metal on a side of a square, behind a gap of at least 1 and at most `reach` empty squares: the gap, and the
/// metal's net and node.
pub fn sight(tiles: &[Tile], layer: u8, side: Side, at: Pt, reach: u32) -> Option<Seen>
    requires near { IsNear at }
    requires reach { reach < 2 ^ 30 }
    ensures { result ≡ sight_of reach (ahead (plane_of tiles.now) layer side at) }
{
    let gap = gap_ahead(tiles, layer, side, at, reach);
    if 1 <= gap && gap <= reach {
        metal_at(tiles, layer, beside(side, at, gap + 1)).map(|metal| (gap, metal))
    } else {
        None
    }
}

/// The highest layer below with metal over a square.
fn under(tiles: &[Tile], layer: u8, at: Pt) -> Option<u8>
    ensures { result ≡ under_of (plane_of tiles.now) layer at }
{
    let mut highest = None;
    for below in 0..layer {
        if metal_at(tiles, below, at).is_some() {
            highest = Some(below);
        }
    }
    highest
}

/// The lowest layer above with metal over a square.
fn over(tiles: &[Tile], layer: u8, at: Pt) -> Option<u8>
    requires { layer < 32 }
    ensures { result ≡ over_of (plane_of tiles.now) layer at }
{
    for above in layer + 1..32 {
        if metal_at(tiles, above, at).is_some() {
            return Some(above);
        }
    }
    None
}

/// The highest layer below and the lowest layer above with metal over a square, of any net.
pub fn context(tiles: &[Tile], layer: u8, at: Pt) -> (Option<u8>, Option<u8>)
    requires { layer < 32 }
    ensures under { result.0 ≡ under_of (plane_of tiles.now) layer at }
    ensures over { result.1 ≡ over_of (plane_of tiles.now) layer at }
{
    (under(tiles, layer, at), over(tiles, layer, at))
}

/// The face on a side of a square that has that metal; None where the next square is of the same net.
pub fn face_of(
    tiles: &[Tile],
    layer: u8,
    side: Side,
    at: Pt,
    own: Metal,
    cap: u32,
    reach: u32,
) -> Option<Face>
    requires near { IsNear at }
    requires cap { cap ≤ 2 ^ 30 }
    requires reach { reach < 2 ^ 30 }
    requires own { plane_of tiles.now layer at ≡ Some own }
    ensures is { option_map face_value result ≡ face_on cap reach (plane_of tiles.now) layer side at }
    ensures bounds { 1 ≤ cap → IfSome result (λ face. IsBounded cap reach face) }
{
    if is_net(own.0, metal_at(tiles, layer, beside(side, at, 1))) {
        return None;
    }
    Some(Face {
        own,
        thick: run_behind(tiles, layer, own.0, side, at, cap),
        sight: sight(tiles, layer, side, at, reach),
    })
}

/// The face on a side of a square. None where the square is empty, and where the next square is of the same net.
pub fn face_at(tiles: &[Tile], layer: u8, side: Side, at: Pt, cap: u32, reach: u32) -> Option<Face>
    requires near { IsNear at }
    requires cap { cap ≤ 2 ^ 30 }
    requires reach { reach < 2 ^ 30 }
    ensures { option_map face_value result ≡ face_on cap reach (plane_of tiles.now) layer side at }
{
    match metal_at(tiles, layer, at) {
        Some(own) => face_of(tiles, layer, side, at, own, cap, reach),
        None => None,
    }
}
