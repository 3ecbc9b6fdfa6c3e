//! The lines of a rectangle, and their places.

ghost use Rattle.std.specs.Prelude.{◌≡◌, ◌+◌, ◌<◌, ◌≤◌, ◌<ℤ◌, ◌≤ℤ◌, ◌+ℤ◌, ◌^◌, pos, negsuc};
ghost use Rattle.rc_geom.specs.Rects.{IsNear, IsNearRect};
ghost use Rattle.rc_geom.specs.Line.{square_of};
ghost use Rattle.rc_geom.specs.Sums.{extent as extent_of, first_line as first_line_of, end_line as end_line_of, first_place as first_place_of, end_place as end_place_of};
ghost use Rattle.rc_squares.specs.Sides.{side_of};

use rc_geom::{Pt, Rect, Side};

/// Where the first line of the axis stands that crosses the rectangle.
pub fn first_line<const A: usize>(area: &Rect) -> i32
    ensures { result ≡ first_line_of A area.now }
{
    if A == 0 { area.y0 } else { area.x0 }
}

/// Where the lines of the axis end that cross the rectangle.
pub fn end_line<const A: usize>(area: &Rect) -> i32
    ensures { result ≡ end_line_of A area.now }
{
    if A == 0 { area.y1 } else { area.x1 }
}

/// Where those lines begin in the rectangle.
pub fn first_place<const A: usize>(area: &Rect) -> i32
    ensures { result ≡ first_place_of A area.now }
{
    if A == 0 { area.x0 } else { area.y0 }
}

/// Where those lines end in the rectangle.
pub fn end_place<const A: usize>(area: &Rect) -> i32
    ensures { result ≡ end_place_of A area.now }
{
    if A == 0 { area.x1 } else { area.y1 }
}

/// How many whole numbers there are from one to below another.
fn extent(low: i32, high: i32) -> u32
    requires low { negsuc (2 ^ 29) ≤ℤ low }
    requires order { low <ℤ high }
    requires high { high ≤ℤ pos (2 ^ 29 + 1) }
    ensures is { result ≡ extent_of low high }
    ensures small { result ≤ 2 ^ 30 + 2 }
{
    (high - low) as u32
}

/// A coordinate further up.
fn offset(low: i32, by: u32) -> i32
    requires low { negsuc (2 ^ 29) ≤ℤ low }
    requires high { (low +ℤ pos by) ≤ℤ pos (2 ^ 29 + 1) }
    ensures { result ≡ low +ℤ pos by }
{
    low + by as i32
}

/// How many lines of the axis cross the rectangle.
pub fn lines<const A: usize>(area: &Rect) -> u32
    requires { IsNearRect area.now }
    ensures is { result ≡ extent_of (first_line_of A area.now) (end_line_of A area.now) }
    ensures small { result ≤ 2 ^ 30 + 2 }
{
    extent(first_line::<A>(area), end_line::<A>(area))
}

/// Where a line of the axis stands that crosses the rectangle, by its number from 0.
pub fn line_at<const A: usize>(area: &Rect, line: u32) -> i32
    requires area { IsNearRect area.now }
    requires line { line < extent_of (first_line_of A area.now) (end_line_of A area.now) }
    ensures { result ≡ first_line_of A area.now +ℤ pos line }
{
    offset(first_line::<A>(area), line)
}

/// A place of a line of the axis in the rectangle, by its number from 0.
fn place_at<const A: usize>(area: &Rect, place: u32) -> i32
    requires area { IsNearRect area.now }
    requires place { place < extent_of (first_place_of A area.now) (end_place_of A area.now) }
    ensures { result ≡ first_place_of A area.now +ℤ pos place }
{
    offset(first_place::<A>(area), place)
}

/// How many squares each of these lines has in the rectangle.
pub fn places<const A: usize>(area: &Rect) -> u32
    requires { IsNearRect area.now }
    ensures is { result ≡ extent_of (first_place_of A area.now) (end_place_of A area.now) }
    ensures small { result ≤ 2 ^ 30 + 2 }
{
    extent(first_place::<A>(area), end_place::<A>(area))
}

/// A square of the rectangle, by its line and its place on that, both counted from 0.
pub fn square<const A: usize>(area: &Rect, line: u32, place: u32) -> Pt
    requires area { IsNearRect area.now }
    requires line { line < extent_of (first_line_of A area.now) (end_line_of A area.now) }
    requires place { place < extent_of (first_place_of A area.now) (end_place_of A area.now) }
    ensures is { result ≡ square_of A (first_line_of A area.now +ℤ pos line) (first_place_of A area.now +ℤ pos place) }
    ensures near { IsNear result }
{
    let at = line_at::<A>(area, line);
    let along = place_at::<A>(area, place);
    if A == 0 {
        Pt { x: along, y: at }
    } else {
        Pt { x: at, y: along }
    }
}

/// The side that is a direction of the axis.
pub fn side<const A: usize>(up: bool) -> Side
    ensures { result ≡ side_of A up }
{
    match (A == 0, up) {
        (true, false) => Side::Left,
        (true, true) => Side::Right,
        (false, false) => Side::Down,
        (false, true) => Side::Up,
    }
}
