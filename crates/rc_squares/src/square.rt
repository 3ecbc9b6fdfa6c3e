//! What stands on a unit square.

ghost use Rattle.std.specs.Prelude.{◌≡◌, ◌+◌, ◌≤◌, ◌^◌};
ghost use Rattle.rc_geom.specs.Rects.{covers as covers_of, IsNear};
ghost use Rattle.rc_geom.specs.Plane.{claims as claims_of, least_of as least, plane_of};
ghost use Rattle.rc_geom.specs.Line.{axis_of, is_up};
ghost use Rattle.rc_squares.specs.Sides.{square_at};

use rc_geom::{Pt, Rect, Side, Tile};

/// Metal: its net, and its node. Node 0 is grounded.
pub type Metal = (u32, u32);

/// Whether the unit square lies in the rectangle.
fn covers(rect: &Rect, at: Pt) -> bool
    ensures { result ≡ covers_of rect.now at }
{
    rect.x0 <= at.x && at.x < rect.x1 && (rect.y0 <= at.y && at.y < rect.y1)
}

/// Whether the tile lies on that layer and covers the unit square.
fn claims(tile: &Tile, layer: u8, at: Pt) -> bool
    ensures { result ≡ claims_of layer at tile.now }
{
    tile.layer == layer && covers(&tile.rect, at)
}

/// Of two tiles the one of less rank, the first where they tie.
fn least_of(best: Option<Tile>, tile: Tile) -> Tile
    ensures { result ≡ least best tile }
{
    match best {
        Some(first) => { if tile.rank < first.rank { tile } else { first } }
        None => tile,
    }
}

/// The metal of a unit square: the net and the node of the tile of least rank among those that cover it, the first of
/// them where they tie. None where no tile of the layer covers it.
pub fn metal_at(tiles: &[Tile], layer: u8, at: Pt) -> Option<Metal>
    ensures { result ≡ plane_of tiles.now layer at }
{
    let mut best: Option<Tile> = None;
    for tile in tiles {
        if claims(tile, layer, at) {
            best = Some(least_of(best, *tile));
        }
    }
    best.map(|tile| (tile.net, tile.node))
}

/// The unit square at a distance from another one, to that side.
pub fn beside(side: Side, at: Pt, distance: u32) -> Pt
    requires near { IsNear at }
    requires distance { distance ≤ 2 ^ 30 + 1 }
    ensures { result ≡ square_at (axis_of side) (is_up side) at distance }
{
    let by = distance as i32;
    match side {
        Side::Left => Pt {
            x: at.x - by,
            y: at.y,
        },
        Side::Right => Pt {
            x: at.x + by,
            y: at.y,
        },
        Side::Down => Pt {
            x: at.x,
            y: at.y - by,
        },
        Side::Up => Pt {
            x: at.x,
            y: at.y + by,
        },
    }
}
