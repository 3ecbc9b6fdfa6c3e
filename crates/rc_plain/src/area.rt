//! The squares of a rectangle, by the lines of an axis.

ghost use Rattle.std.specs.Prelude.{◌≡◌, ◌+◌, ◌<◌, ◌≤◌, ◌<ℤ◌, ◌≤ℤ◌, ◌+ℤ◌, ◌^◌, pos, negsuc};
ghost use Rattle.rc_geom.specs.Rects.{IsNear, IsNearRect};
ghost use Rattle.rc_geom.specs.Line.{square_of};
ghost use Rattle.rc_geom.specs.Sums.{extent as extent_of, first_line as first_line_of, end_line as end_line_of, first_place as first_place_of, end_place as end_place_of};
ghost use Rattle.rc_squares.specs.Sides.{side_of};

use rc_geom::{Pt, Rect, Side};

/// How many whole numbers there are from one to below another.
fn extent(low: i32, high: i32) -> u32
    requires low { negsuc (2 ^ 29) ≤ℤ low }
    requires order { low <ℤ high }
    requires high { high ≤ℤ pos (2 ^ 29 + 1) }
    ensures { result ≡ extent_of low high }
{
    (high - low) as u32
}

/// A coordinate further up.
fn offset(low: i32, by: u32) -> i32
    requires low { negsuc (2 ^ 29) ≤ℤ low }
    requires high { (low +ℤ pos by) ≤ℤ pos (2 ^ 29 + 1) }
    ensures { result ≡ low +ℤ pos by }
{
    low + by as i32
}

/// How many lines of the axis cross the rectangle.
pub fn lines<const A: usize>(area: &Rect) -> u32
    requires { IsNearRect area.now }
    ensures { result ≡ extent_of (first_line_of A area.now) (end_line_of A area.now) }
{
    if A == 0 {
        extent(area.y0, area.y1)
    } else {
        extent(area.x0, area.x1)
    }
}

/// How many squares each of these lines has in the rectangle.
pub fn places<const A: usize>(area: &Rect) -> u32
    requires { IsNearRect area.now }
    ensures { result ≡ extent_of (first_place_of A area.now) (end_place_of A area.now) }
{
    if A == 0 {
        extent(area.x0, area.x1)
    } else {
        extent(area.y0, area.y1)
    }
}

/// The square of the rectangle so far from its lower left corner.
fn square_from(area: &Rect, right: u32, up: u32) -> Pt
    requires area { IsNearRect area.now }
    requires right { right < extent_of area.now.x0 area.now.x1 }
    requires up { up < extent_of area.now.y0 area.now.y1 }
    ensures x { result.x ≡ area.now.x0 +ℤ pos right }
    ensures y { result.y ≡ area.now.y0 +ℤ pos up }
    ensures near { IsNear result }
{
    Pt {
        x: offset(area.x0, right),
        y: offset(area.y0, up),
    }
}

/// A square of the rectangle, by its line and its place on that, both counted from 0.
pub fn square<const A: usize>(area: &Rect, line: u32, place: u32) -> Pt
    requires area { IsNearRect area.now }
    requires line { line < extent_of (first_line_of A area.now) (end_line_of A area.now) }
    requires place { place < extent_of (first_place_of A area.now) (end_place_of A area.now) }
    ensures is { result ≡ square_of A (first_line_of A area.now +ℤ pos line) (first_place_of A area.now +ℤ pos place) }
    ensures near { IsNear result }
{
    if A == 0 {
        square_from(area, place, line)
    } else {
        square_from(area, line, place)
    }
}

/// The side that is a direction of the axis.
pub fn side<const A: usize>(up: bool) -> Side
    ensures { result ≡ side_of A up }
{
    match (A == 0, up) {
        (true, false) => Side::Left,
        (true, true) => Side::Right,
        (false, false) => Side::Down,
        (false, true) => Side::Up,
    }
}
