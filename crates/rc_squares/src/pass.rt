//! One pass over the squares of a rectangle for all keys.

ghost use Rattle.std.specs.Prelude.{◌≡◌, ◌+◌, ◌+ℤ◌, ◌<◌, ◌≤◌, ◌^◌, pos, Some, All, OnOk};
ghost use Rattle.rc_geom.specs.Rects.{IsNear, IsNearRect};
ghost use Rattle.rc_geom.specs.Plane.{plane_of};
ghost use Rattle.rc_geom.specs.Sums.{numbers, extent, first_line, end_line, first_place, end_place};
ghost use Rattle.rc_geom.specs.Extraction.{sum_in};
ghost use Rattle.rc_squares.specs.Worths.{side_worth, square_worth, line_worth, lines_worth};
ghost use Rattle.rc_squares.specs.Tallies.{IsTally, Enters};

use crate::area::{lines, places, side, square};
use crate::crossing::{crossing, next_start};
use crate::parts::side_parts;
use crate::rates::FaceRates;
use crate::square::{Metal, metal_at};
use crate::sums::has_tiles;
use crate::tally::Tally;
use rc_fixed::NoMemory;
use rc_geom::{Key, Pt, Rect, Side, Tile};
use std::alloc::Global;

/// Enters what the face on a side of a square adds, whose metal is `own`.
fn enter_side<R: FaceRates>(
    tally: &mut Tally,
    tiles: &[Tile],
    rates: &R,
    layer: u8,
    side: Side,
    at: Pt,
    own: Metal,
) -> Result<(), NoMemory>
    requires layer { layer < 32 }
    requires rules { R.has_rules rates.now layer }
    requires near { IsNear at }
    requires own { plane_of tiles.now layer at ≡ Some own }
    requires room { tally.old.parts + 2 ≤ 2 ^ 70 }
    requires tally { IsTally (⟦<Key as Ord>⟧.cmp) tally.old }
    ensures { OnOk result (Enters (⟦<Key as Ord>⟧.cmp) tally.old tally.new (λ worth key. side_worth worth (plane_of tiles.now) (R.rates_of rates.now) layer key side at) 2) }
{
    let parts = side_parts(tiles, rates, layer, side, at, own);
    tally.enter_any(parts.own)?;
    tally.enter_any(parts.shared)
}

/// Enters what the faces of a square add, in both directions of the axis, whose metal is `own`.
fn enter_square<const A: usize, R: FaceRates>(
    tally: &mut Tally,
    tiles: &[Tile],
    rates: &R,
    layer: u8,
    at: Pt,
    own: Metal,
) -> Result<(), NoMemory>
    requires layer { layer < 32 }
    requires rules { All (λ tile. R.has_rules rates.now tile.layer) tiles.now }
    requires near { IsNear at }
    requires own { plane_of tiles.now layer at ≡ Some own }
    requires room { tally.old.parts + 4 ≤ 2 ^ 70 }
    requires tally { IsTally (⟦<Key as Ord>⟧.cmp) tally.old }
    ensures { OnOk result (Enters (⟦<Key as Ord>⟧.cmp) tally.old tally.new (λ worth key. square_worth worth (plane_of tiles.now) (R.rates_of rates.now) layer key A at) 4) }
{
    enter_side(tally, tiles, rates, layer, side::<A>(false), at, own)?;
    enter_side(tally, tiles, rates, layer, side::<A>(true), at, own)
}

/// Enters what the faces of a line of the axis in a rectangle add. Squares without metal add nothing: it goes on from one
/// to where the next tile begins.
fn enter_line<const A: usize, R: FaceRates>(
    tally: &mut Tally,
    tiles: &[Tile],
    rates: &R,
    layer: u8,
    area: &Rect,
    line: u32,
) -> Result<(), NoMemory>
    requires layer { layer < 32 }
    requires rules { All (λ tile. R.has_rules rates.now tile.layer) tiles.now }
    requires area { IsNearRect area.now }
    requires line { line < extent (first_line A area.now) (end_line A area.now) }
    requires room { tally.old.parts + 2 ^ 33 ≤ 2 ^ 70 }
    requires tally { IsTally (⟦<Key as Ord>⟧.cmp) tally.old }
    ensures { OnOk result (Enters (⟦<Key as Ord>⟧.cmp) tally.old tally.new (λ worth key. line_worth worth (plane_of tiles.now) (R.rates_of rates.now) layer key A area.now (first_line A area.now +ℤ pos line) (extent (first_place A area.now) (end_place A area.now))) (2 ^ 33)) }
{
    let count = places::<A>(area);
    let mut place = 0;
    while place < count {
        let at = square::<A>(area, line, place);
        match metal_at(tiles, layer, at) {
            Some(own) => {
                enter_square::<A, R>(tally, tiles, rates, layer, at, own)?;
                place += 1;
            }
            None => place = next_start::<A>(tiles, layer, area, place),
        }
    }
    Ok(())
}

/// Enters what the faces of the lines of the axis in a rectangle add.
fn enter_lines<const A: usize, R: FaceRates>(
    alloc: Global,
    tally: &mut Tally,
    tiles: &[Tile],
    rates: &R,
    layer: u8,
    area: &Rect,
) -> Result<(), NoMemory>
    requires layer { layer < 32 }
    requires rules { All (λ tile. R.has_rules rates.now tile.layer) tiles.now }
    requires area { IsNearRect area.now }
    requires room { tally.old.parts + 2 ^ 64 ≤ 2 ^ 70 }
    requires tally { IsTally (⟦<Key as Ord>⟧.cmp) tally.old }
    ensures { OnOk result (Enters (⟦<Key as Ord>⟧.cmp) tally.old tally.new (λ worth key. lines_worth worth (plane_of tiles.now) (R.rates_of rates.now) layer key A area.now (extent (first_line A area.now) (end_line A area.now))) (2 ^ 64)) }
{
    for line in 0..lines::<A>(area) {
        let found = crossing::<A>(alloc, tiles, area, line)?;
        enter_line::<A, R>(tally, found.items(), rates, layer, area, line)?;
    }
    Ok(())
}

/// The same of a layer, which is nothing where no tile lies on it.
fn enter_layer<const A: usize, R: FaceRates>(
    alloc: Global,
    tally: &mut Tally,
    tiles: &[Tile],
    rates: &R,
    layer: u8,
    area: &Rect,
) -> Result<(), NoMemory>
    requires layer { layer < 32 }
    requires rules { All (λ tile. R.has_rules rates.now tile.layer) tiles.now }
    requires area { IsNearRect area.now }
    requires room { tally.old.parts + 2 ^ 64 ≤ 2 ^ 70 }
    requires tally { IsTally (⟦<Key as Ord>⟧.cmp) tally.old }
    ensures { OnOk result (Enters (⟦<Key as Ord>⟧.cmp) tally.old tally.new (λ worth key. lines_worth worth (plane_of tiles.now) (R.rates_of rates.now) layer key A area.now (extent (first_line A area.now) (end_line A area.now))) (2 ^ 64)) }
{
    if has_tiles(tiles, layer) {
        enter_lines::<A, R>(alloc, tally, tiles, rates, layer, area)
    } else {
        Ok(())
    }
}

/// Enters what the faces of one axis add.
pub fn enter_axis<const A: usize, R: FaceRates>(
    alloc: Global,
    tally: &mut Tally,
    tiles: &[Tile],
    rates: &R,
    area: &Rect,
) -> Result<(), NoMemory>
    requires rules { All (λ tile. R.has_rules rates.now tile.layer) tiles.now }
    requires area { IsNearRect area.now }
    requires room { tally.old.parts + 2 ^ 69 ≤ 2 ^ 70 }
    requires tally { IsTally (⟦<Key as Ord>⟧.cmp) tally.old }
    ensures { OnOk result (Enters (⟦<Key as Ord>⟧.cmp) tally.old tally.new (λ worth key. sum_in numbers worth (plane_of tiles.now) (R.rates_of rates.now) A area.now key) (2 ^ 69)) }
{
    for layer in 0..32 {
        enter_layer::<A, R>(alloc, tally, tiles, rates, layer, area)?;
    }
    Ok(())
}
