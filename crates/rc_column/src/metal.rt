//! What stands on a unit square.

ghost use Rattle.std.specs.Prelude.{◌≡◌};
ghost use Rattle.rc_geom.specs.Rects.{covers as covers_of};
ghost use Rattle.rc_geom.specs.Plane.{claims as claims_of, least_of as least, plane_of};
ghost use Rattle.rc_geom.specs.Line.{square_of};

use crate::ends::{Mark, Place};
use rc_geom::{Pt, Rect, Tile};

/// Metal: its net, and its node. Node 0 is grounded.
pub type Metal = (u32, u32);

/// The square at a place of a line.
pub fn square(line: Mark, place: Place) -> Pt
    ensures { result ≡ square_of line.axis line.at place.at }
{
    if line.axis == 0 {
        Pt {
            x: place.at,
            y: line.at,
        }
    } else {
        Pt {
            x: line.at,
            y: place.at,
        }
    }
}

/// Whether the unit square lies in the rectangle.
fn covers(rect: &Rect, at: Pt) -> bool
    ensures { result ≡ covers_of rect.now at }
{
    rect.x0 <= at.x && at.x < rect.x1 && (rect.y0 <= at.y && at.y < rect.y1)
}

/// Whether the tile lies on that layer and covers the unit square.
fn claims(tile: &Tile, layer: u8, at: Pt) -> bool
    ensures { result ≡ claims_of layer at tile.now }
{
    tile.layer == layer && covers(&tile.rect, at)
}

/// Of two tiles the one of less rank, the first where they tie.
fn least_of(best: Option<Tile>, tile: Tile) -> Tile
    ensures { result ≡ least best tile }
{
    match best {
        Some(first) => { if tile.rank < first.rank { tile } else { first } }
        None => tile,
    }
}

/// The metal of a unit square: the net and the node of the tile of least rank among those that cover it.
pub fn metal_at(tiles: &[Tile], layer: u8, at: Pt) -> Option<Metal>
    ensures { result ≡ plane_of tiles.now layer at }
{
    let mut best: Option<Tile> = None;
    for tile in tiles {
        if claims(tile, layer, at) {
            best = Some(least_of(best, *tile));
        }
    }
    best.map(|tile| (tile.net, tile.node))
}
