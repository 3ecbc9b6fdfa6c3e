//! Lines of an axis, and where tiles begin and end.

ghost use Rattle.std.specs.Prelude.{◌≡◌, ◌<ℤ◌, ◌≤ℤ◌, ◌+◌, ◌^◌, pos, All, Any, IfSome};
ghost use Rattle.rc_geom.specs.Sums.{first_line as first_line_of, end_line as end_line_of, first_place as first_place_of, end_place as end_place_of};
ghost use Rattle.rc_geom.specs.Rects.{IsNearRect};
ghost use Rattle.rc_column.specs.Runs.{crosses_line as crosses_line_of};
ghost use Rattle.rc_column.specs.Edges.{Passes, PassesLines, BordersLine, sooner as sooner_of, sooner_ends};

use rc_geom::{Rect, Tile};

/// Where the first line of the axis stands that crosses the rectangle. Axis 0 has the rows of squares, which run along x,
/// and axis 1 those that run along y.
pub fn first_line(axis: usize, area: &Rect) -> i32
    ensures { result ≡ first_line_of axis area.now }
{
    if axis == 0 { area.y0 } else { area.x0 }
}

/// Where the lines of the axis end that cross the rectangle.
pub fn end_line(axis: usize, area: &Rect) -> i32
    ensures { result ≡ end_line_of axis area.now }
{
    if axis == 0 { area.y1 } else { area.x1 }
}

/// Where those lines begin in the rectangle.
pub fn first_place(axis: usize, area: &Rect) -> i32
    ensures { result ≡ first_place_of axis area.now }
{
    if axis == 0 { area.x0 } else { area.y0 }
}

/// Where those lines end in the rectangle.
pub fn end_place(axis: usize, area: &Rect) -> i32
    ensures { result ≡ end_place_of axis area.now }
{
    if axis == 0 { area.x1 } else { area.y1 }
}

/// Which line of an axis: the one that stands there, in y for axis 0 and in x for axis 1.
#[derive(Clone, Copy, Debug, PartialEq, Eq)]
pub struct Mark {
    pub axis: usize,
    pub at: i32,
}

impl Mark {
    /// The line of the same axis that stands there.
    pub fn moved(self, at: i32) -> Mark
        ensures axis { result.axis ≡ self.axis }
        ensures at { result.at ≡ at }
    {
        Mark { at, ..self }
    }
}

/// A place of the lines of an axis, in x for axis 0 and in y for axis 1.
#[derive(Clone, Copy, Debug, PartialEq, Eq)]
pub struct Place {
    pub axis: usize,
    pub at: i32,
}

/// Whether the tile has squares on the line.
pub fn crosses_line(tile: &Tile, line: Mark) -> bool
    ensures { result ≡ crosses_line_of line.axis line.at tile.now }
{
    first_line(line.axis, &tile.rect) <= line.at && line.at < end_line(line.axis, &tile.rect)
}

/// Of an edge, or none, and a coordinate the first one that lies above `after`.
fn sooner(edge: Option<i32>, end: i32, after: i32) -> Option<i32>
    ensures is { result ≡ sooner_of edge end after }
{
    if end <= after {
        return edge;
    }
    match edge {
        Some(first) if first <= end => Some(first),
        _ => Some(end),
    }
}

/// The same of an edge and the two ends of a tile on the lines of the axis.
fn sooner_place(edge: Option<i32>, tile: &Tile, after: Place) -> Option<i32>
    ensures is { result ≡ sooner_ends edge (first_place_of after.axis tile.now.rect) (end_place_of after.axis tile.now.rect) after.at }
{
    let edge = sooner(edge, first_place(after.axis, &tile.rect), after.at);
    sooner(edge, end_place(after.axis, &tile.rect), after.at)
}

/// The same of an edge and the first line of a tile, and the one past its last.
fn sooner_line(edge: Option<i32>, tile: &Tile, after: Mark) -> Option<i32>
    ensures is { result ≡ sooner_ends edge (first_line_of after.axis tile.now.rect) (end_line_of after.axis tile.now.rect) after.at }
{
    let edge = sooner(edge, first_line(after.axis, &tile.rect), after.at);
    sooner(edge, end_line(after.axis, &tile.rect), after.at)
}

/// A place above `after` on the lines of the axis, before which no tile begins or ends; None where none does.
pub fn next_place(tiles: &[Tile], after: Place) -> Option<i32>
    requires { All (λ t. IsNearRect t.rect) tiles.now }
    ensures above { IfSome result (λ edge. after.at <ℤ edge) }
    ensures clear { All (Passes after.axis after.at result) tiles.now }
    ensures near { IfSome result (λ edge. edge ≤ℤ pos (2 ^ 29 + 1)) }
{
    let mut edge = None;
    for tile in tiles {
        edge = sooner_place(edge, tile, after);
    }
    edge
}

/// The first line of the axis above `after` that is the first one of a tile, or the one past a tile's last. None where
/// there is none. The lines from `after` to below it are alike.
pub fn next_line(tiles: &[Tile], after: Mark) -> Option<i32>
    requires { All (λ t. IsNearRect t.rect) tiles.now }
    ensures above { IfSome result (λ edge. after.at <ℤ edge) }
    ensures there { IfSome result (λ edge. Any (BordersLine after.axis edge) tiles.now) }
    ensures clear { All (PassesLines after.axis after.at result) tiles.now }
    ensures near { IfSome result (λ edge. edge ≤ℤ pos (2 ^ 29 + 1)) }
{
    let mut edge = None;
    for tile in tiles {
        edge = sooner_line(edge, tile, after);
    }
    edge
}
