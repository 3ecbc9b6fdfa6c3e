//! The sums of all keys.

ghost use Rattle.std.specs.Prelude.{◌≡◌, ◌+ℤ◌, ◌<◌, ◌^◌, pos, true, All, OnOk, IfOk};
ghost use Rattle.rc_geom.specs.declared.key.Key.{Key};
ghost use Rattle.rc_geom.specs.Rects.{IsNearRect};
ghost use Rattle.rc_geom.specs.Plane.{plane_of};
ghost use Rattle.rc_geom.specs.Sums.{extent, first_line, end_line, first_place, end_place};
ghost use Rattle.rc_geom.specs.Extraction.{value_in, count_in, key_value, key_count};
ghost use Rattle.rc_sums.specs.Entering.{IsTally, HasRoom, Enters};
ghost use Rattle.rc_sums.specs.WindowSums.{IsWindowSum};
ghost use Rattle.rc_plain.specs.BothAxes.{AreSums};
ghost use Rattle.rc_plain.specs.Squares.{place_added, places_added, lines_added, layers_added};

use crate::area::{lines, places, side, square};
use crate::face::enter_side;
use rc_fixed::NoMemory;
use rc_geom::{Rect, Tile};
use rc_rules::Rater;
use rc_squares::metal_at;
use rc_tally::Tally;
use std::alloc::Global;

/// Enters what the faces of a square of the rectangle add, in both directions of the axis. The square is told by its line
/// and its place on that, both counted from 0.
fn enter_square<const A: usize, R: Rater>(
    tally: &mut Tally<R::Value>,
    tiles: &[Tile],
    rater: &R,
    layer: u8,
    area: &Rect,
    line: u32,
    place: u32,
) -> Result<(), NoMemory>
    requires layer { layer < 32 }
    requires rules { All (λ tile. R.has_rules rater.now tile.layer) tiles.now }
    requires area { IsNearRect area.now }
    requires line { line < extent (first_line A area.now) (end_line A area.now) }
    requires place { place < extent (first_place A area.now) (end_place A area.now) }
    requires tally { IsTally R.Value.adding R.Value.sound tally.old }
    requires room { HasRoom R.Value.adding R.Value.fits R.Value.sound tally.old (place_added R.Value.adding (plane_of tiles.now) (R.rates_of rater.now) A layer (first_line A area.now +ℤ pos line) (first_place A area.now +ℤ pos place)) }
    ensures { OnOk result (Enters R.Value.adding R.Value.sound tally.old tally.new (place_added R.Value.adding (plane_of tiles.now) (R.rates_of rater.now) A layer (first_line A area.now +ℤ pos line) (first_place A area.now +ℤ pos place))) }
{
    let at = square::<A>(area, line, place);
    if metal_at(tiles, layer, at).is_none() {
        return Ok(());
    }
    enter_side(tally, tiles, rater, layer, side::<A>(false), at)?;
    enter_side(tally, tiles, rater, layer, side::<A>(true), at)
}

/// Enters what the faces of a line of the axis in a rectangle add.
fn enter_line<const A: usize, R: Rater>(
    tally: &mut Tally<R::Value>,
    tiles: &[Tile],
    rater: &R,
    layer: u8,
    area: &Rect,
    line: u32,
) -> Result<(), NoMemory>
    requires layer { layer < 32 }
    requires rules { All (λ tile. R.has_rules rater.now tile.layer) tiles.now }
    requires area { IsNearRect area.now }
    requires line { line < extent (first_line A area.now) (end_line A area.now) }
    requires tally { IsTally R.Value.adding R.Value.sound tally.old }
    requires room { HasRoom R.Value.adding R.Value.fits R.Value.sound tally.old (places_added R.Value.adding (plane_of tiles.now) (R.rates_of rater.now) A layer (first_line A area.now +ℤ pos line) (first_place A area.now) (extent (first_place A area.now) (end_place A area.now))) }
    ensures { OnOk result (Enters R.Value.adding R.Value.sound tally.old tally.new (places_added R.Value.adding (plane_of tiles.now) (R.rates_of rater.now) A layer (first_line A area.now +ℤ pos line) (first_place A area.now) (extent (first_place A area.now) (end_place A area.now)))) }
{
    for place in 0..places::<A>(area) {
        enter_square::<A, R>(tally, tiles, rater, layer, area, line, place)?;
    }
    Ok(())
}

/// Enters what the faces of the lines of the axis in a rectangle add, on one layer.
fn enter_layer<const A: usize, R: Rater>(
    tally: &mut Tally<R::Value>,
    tiles: &[Tile],
    rater: &R,
    layer: u8,
    area: &Rect,
) -> Result<(), NoMemory>
    requires layer { layer < 32 }
    requires rules { All (λ tile. R.has_rules rater.now tile.layer) tiles.now }
    requires area { IsNearRect area.now }
    requires tally { IsTally R.Value.adding R.Value.sound tally.old }
    requires room { HasRoom R.Value.adding R.Value.fits R.Value.sound tally.old (lines_added R.Value.adding (plane_of tiles.now) (R.rates_of rater.now) A layer area.now (extent (first_line A area.now) (end_line A area.now))) }
    ensures { OnOk result (Enters R.Value.adding R.Value.sound tally.old tally.new (lines_added R.Value.adding (plane_of tiles.now) (R.rates_of rater.now) A layer area.now (extent (first_line A area.now) (end_line A area.now)))) }
{
    for line in 0..lines::<A>(area) {
        enter_line::<A, R>(tally, tiles, rater, layer, area, line)?;
    }
    Ok(())
}

/// Enters what the faces of one axis add.
fn enter_axis<const A: usize, R: Rater>(
    tally: &mut Tally<R::Value>,
    tiles: &[Tile],
    rater: &R,
    area: &Rect,
) -> Result<(), NoMemory>
    requires rules { All (λ tile. R.has_rules rater.now tile.layer) tiles.now }
    requires area { IsNearRect area.now }
    requires tally { IsTally R.Value.adding R.Value.sound tally.old }
    requires room { HasRoom R.Value.adding R.Value.fits R.Value.sound tally.old (layers_added R.Value.adding (plane_of tiles.now) (R.rates_of rater.now) A area.now 32) }
    ensures { OnOk result (Enters R.Value.adding R.Value.sound tally.old tally.new (layers_added R.Value.adding (plane_of tiles.now) (R.rates_of rater.now) A area.now 32)) }
{
    for layer in 0..32 {
        enter_layer::<A, R>(tally, tiles, rater, layer, area)?;
    }
    Ok(())
}

/// For each key, how many parts the faces of axis `A` add whose squares lie in the rectangle, and the sum of their amounts:
/// square by square, layer by layer. Axis 0 has the left and right faces, axis 1 those down and up.
///
/// # Errors
///
/// `NoMemory` for want of memory.
pub fn sums_in<const A: usize, R: Rater>(
    alloc: Global,
    tiles: &[Tile],
    rater: &R,
    area: &Rect,
) -> Result<Tally<R::Value>, NoMemory>
    requires rules { All (λ tile. R.has_rules rater.now tile.layer) tiles.now }
    requires area { IsNearRect area.now }
    requires counts { (key : Key) → count_in (plane_of tiles.now) (R.rates_of rater.now) A area.now key < 2 ^ 64 }
    requires values { (key : Key) → R.Value.fits (value_in R.Value.adding (plane_of tiles.now) (R.rates_of rater.now) A area.now key) ≡ true }
    ensures { IfOk result (λ tally. IsWindowSum R.Value.adding (plane_of tiles.now) (R.rates_of rater.now) A area.now tally) }
{
    let mut tally = Tally::new(alloc);
    enter_axis::<A, R>(&mut tally, tiles, rater, area)?;
    Ok(tally)
}

/// The same of both axes.
///
/// # Errors
///
/// `NoMemory` for want of memory.
pub fn sums_of_both<R: Rater>(
    alloc: Global,
    tiles: &[Tile],
    rater: &R,
    area: &Rect,
) -> Result<Tally<R::Value>, NoMemory>
    requires rules { All (λ tile. R.has_rules rater.now tile.layer) tiles.now }
    requires area { IsNearRect area.now }
    requires counts { (key : Key) → key_count (plane_of tiles.now) (R.rates_of rater.now) area.now key < 2 ^ 64 }
    requires values { (key : Key) → R.Value.fits (key_value R.Value.adding (plane_of tiles.now) (R.rates_of rater.now) area.now key) ≡ true }
    ensures { IfOk result (λ tally. AreSums R.Value.adding (plane_of tiles.now) (R.rates_of rater.now) area.now tally) }
{
    let across = sums_in::<0, R>(alloc, tiles, rater, area)?;
    let along = sums_in::<1, R>(alloc, tiles, rater, area)?;
    Tally::merge(alloc, &across, &along)
}
