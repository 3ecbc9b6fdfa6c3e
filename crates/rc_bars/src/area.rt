//! The bars of a rectangle's columns.

ghost use Rattle.std.specs.Prelude.{◌≡◌, ◌≢◌, ◌<◌, ◌≤◌, ◌^◌, ◌≤ℤ◌, All, AllPairs, IfOk, length};
ghost use Rattle.rc_geom.specs.Context.{layer_count};
ghost use Rattle.rc_geom.specs.Plane.{plane_of, RanksDiffer, NetsApart};
ghost use Rattle.rc_geom.specs.Rects.{IsNearRect};
ghost use Rattle.rc_geom.specs.Sums.{first_line as first_line_of, end_line as end_line_of};
ghost use Rattle.rc_bars.specs.Bars.{StandForColumns};
ghost use Rattle.rc_bars.specs.Ends.{IsNearBar};
ghost use Rattle.rc_bars.specs.Listing.{HasTile};
ghost use Rattle.rc_bars.specs.Places.{IsWithin};
ghost use Rattle.rc_bars.specs.Strips.{AreSorted};

use crate::bar::Bar;
use crate::listing::sorted;
use crate::share::share_bars;
use rc_column::{Mark, end_line, first_line};
use rc_fixed::NoMemory;
use rc_geom::{Rect, Tile};
use std::alloc::Global;

/// The first line of the axis that crosses a rectangle.
fn first_of(axis: usize, area: &Rect) -> Mark
    ensures axis { result.axis ≡ axis }
    ensures at { result.at ≡ first_line_of axis area.now }
{
    Mark {
        axis,
        at: first_line(axis, area),
    }
}

/// The first line of the axis past it.
fn end_of(axis: usize, area: &Rect) -> Mark
    ensures { result.at ≡ end_line_of axis area.now }
{
    Mark {
        axis,
        at: end_line(axis, area),
    }
}

/// The bars of a rectangle's columns, from the tiles in order.
fn area_bars(
    alloc: Global,
    tiles: &[Tile],
    sorted: &[Tile],
    axis: usize,
    area: &Rect,
) -> Result<Vec<Bar>, NoMemory>
    requires ranks { RanksDiffer tiles.now }
    requires apart { NetsApart tiles.now }
    requires near { All (λ t. IsNearRect t.rect) tiles.now }
    requires tile_layers { All (λ t. t.layer < layer_count) tiles.now }
    requires area { IsNearRect area.now }
    requires sorted { AreSorted axis tiles.now sorted.now }
    ensures stand { IfOk result (λ bars. StandForColumns (plane_of tiles.now) axis (first_line_of axis area.now) (end_line_of axis area.now) bars.items) }
    ensures within { IfOk result (λ bars. All (IsWithin (first_line_of axis area.now) (end_line_of axis area.now)) bars.items) }
    ensures once { IfOk result (λ bars. AllPairs (λ a b. a ≢ b) bars.items) }
    ensures near { IfOk result (λ bars. All IsNearBar bars.items) }
    ensures from { IfOk result (λ bars. All (λ b. HasTile tiles.now b.layer) bars.items) }
{
    share_bars(
        alloc,
        tiles,
        sorted,
        first_of(axis, area),
        end_of(axis, area),
    )
}

/// The bars, where there are no more than 2^30.
fn few_bars(bars: Vec<Bar>) -> Result<Vec<Bar>, NoMemory>
    ensures same { IfOk result (λ found. found.items ≡ bars.items) }
    ensures few { IfOk result (λ found. length found.items ≤ 2 ^ 30) }
{
    if bars.len() > 1073741824 {
        return Err(NoMemory);
    }
    Ok(bars)
}

/// The bars of a rectangle's columns. In each column those of a layer have no square in common, and all metal of the tiles'
/// plane lies in one of them (`stand`); none lies beyond the rectangle's columns (`within`), though its run may go beyond the
/// rectangle's rows.
///
/// # Errors
///
/// `NoMemory` for want of memory, and where there are more than 2^30 tiles or bars.
pub fn bars_of(
    alloc: Global,
    tiles: &[Tile],
    axis: usize,
    area: &Rect,
) -> Result<Vec<Bar>, NoMemory>
    requires near { All (λ t. IsNearRect t.rect) tiles.now }
    requires tile_layers { All (λ t. t.layer < layer_count) tiles.now }
    requires ranks { RanksDiffer tiles.now }
    requires apart { NetsApart tiles.now }
    requires area { IsNearRect area.now }
    ensures stand { IfOk result (λ bars. StandForColumns (plane_of tiles.now) axis (first_line_of axis area.now) (end_line_of axis area.now) bars.items) }
    ensures within { IfOk result (λ bars. All (IsWithin (first_line_of axis area.now) (end_line_of axis area.now)) bars.items) }
    ensures once { IfOk result (λ bars. AllPairs (λ a b. a ≢ b) bars.items) }
    ensures near { IfOk result (λ bars. All IsNearBar bars.items) }
    ensures layers { IfOk result (λ bars. All (λ b. b.layer < layer_count) bars.items) }
    ensures from { IfOk result (λ bars. All (λ b. HasTile tiles.now b.layer) bars.items) }
    ensures few { IfOk result (λ bars. length bars.items ≤ 2 ^ 30) }
{
    let sorted = sorted(alloc, axis, tiles)?;
    few_bars(area_bars(alloc, tiles, &sorted, axis, area)?)
}
