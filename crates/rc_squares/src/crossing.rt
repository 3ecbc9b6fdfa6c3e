//! The tiles that cross a line.

ghost use Rattle.std.specs.Prelude.{◌≡◌, ◌<◌, ◌≤◌, ◌<ℤ◌, ◌≤ℤ◌, ◌+ℤ◌, pos, All, filter, IfOk, MatchOption};
ghost use Rattle.rc_geom.specs.Rects.{IsNearRect};
ghost use Rattle.rc_geom.specs.Sums.{extent as extent_of, first_line as first_line_of, end_line as end_line_of, first_place as first_place_of, end_place as end_place_of};
ghost use Rattle.rc_squares.specs.Crossing.{crosses as crosses_of, BeginsBeyond, IsOutside};

use crate::area::{end_line, end_place, first_line, first_place, line_at, places};
use rc_fixed::{List, NoMemory};
use rc_geom::{Rect, Tile};
use std::alloc::Global;

/// Whether the tile has squares on the line of the axis that stands there.
fn crosses<const A: usize>(tile: &Tile, at: i32) -> bool
    ensures { result ≡ crosses_of A at tile.now }
{
    first_line::<A>(&tile.rect) <= at && at < end_line::<A>(&tile.rect)
}

/// The tiles of all layers that have squares on a line of the axis which crosses the rectangle, by its number from 0.
pub fn crossing<const A: usize>(
    alloc: Global,
    tiles: &[Tile],
    area: &Rect,
    line: u32,
) -> Result<List<Tile>, NoMemory>
    requires area { IsNearRect area.now }
    requires line { line < extent_of (first_line_of A area.now) (end_line_of A area.now) }
    ensures { IfOk result (λ found. found ≡ filter (crosses_of A (first_line_of A area.now +ℤ pos line)) tiles.now) }
{
    let at = line_at::<A>(area, line);
    let mut found = List::new(alloc);
    for tile in tiles {
        if crosses::<A>(tile, at) {
            found.push(*tile)?;
        }
    }
    Ok(found)
}

/// Where the tile begins on a line of the axis, as a place of the line in the rectangle, counted from 0. None where it
/// begins before the rectangle, or at its end or behind.
fn start_in<const A: usize>(area: &Rect, tile: &Tile) -> Option<u32>
    requires { IsNearRect area.now }
    ensures { MatchOption result (IsOutside A area.now tile.now) (λ k. first_place_of A tile.now.rect ≡ first_place_of A area.now +ℤ pos k) }
{
    let start = first_place::<A>(&tile.rect);
    let low = first_place::<A>(area);
    if start < low || end_place::<A>(area) <= start {
        return None;
    }
    Some((start - low) as u32)
}

/// Of a place of a line and where the tile begins on it, the first one, where the tile lies on the layer and begins behind
/// `place`. Places are those of the line in the rectangle, counted from 0.
fn sooner<const A: usize>(tile: &Tile, layer: u8, area: &Rect, place: u32, next: u32) -> u32
    requires area { IsNearRect area.now }
    requires place { place < next }
    requires next { next ≤ extent_of (first_place_of A area.now) (end_place_of A area.now) }
    ensures later { place < result }
    ensures within { result ≤ next }
    ensures starts { BeginsBeyond A layer (first_place_of A area.now +ℤ pos place) (first_place_of A area.now +ℤ pos result) tile.now }
{
    if tile.layer != layer {
        return next;
    }
    match start_in::<A>(area, tile) {
        Some(start) if place < start && start < next => start,
        _ => next,
    }
}

/// Where the next tile of the layer begins on a line of the axis behind a place, or else where the line ends, as a place
/// of the line in the rectangle, counted from 0.
pub fn next_start<const A: usize>(tiles: &[Tile], layer: u8, area: &Rect, place: u32) -> u32
    requires area { IsNearRect area.now }
    requires place { place < extent_of (first_place_of A area.now) (end_place_of A area.now) }
    ensures later { place < result }
    ensures within { result ≤ extent_of (first_place_of A area.now) (end_place_of A area.now) }
    ensures starts { All (BeginsBeyond A layer (first_place_of A area.now +ℤ pos place) (first_place_of A area.now +ℤ pos result)) tiles.now }
{
    let mut next = places::<A>(area);
    for tile in tiles {
        next = sooner::<A>(tile, layer, area, place, next);
    }
    next
}
