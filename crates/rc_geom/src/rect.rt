//! Points and rectangles.

ghost use Rattle.std.specs.Prelude.{◌≡◌, ◌<◌, ◌≤ℤ◌, ◌↔◌, pos, IsTrue, MatchOption};
ghost use Rattle.rc_geom.specs.Rects.{coordinate, common_part, has_squares as has_squares_of, has_points as has_points_of, grow as grown, SharesSquare, IsLowestCommon, IsApart, IsWithinReach};
ghost use Rattle.rc_geom.specs.Sums.{natural};

/// A point, or the unit square that has it as its lower left corner. Coordinates are in units of the layout.
#[derive(Clone, Copy, Debug, PartialEq, Eq)]
pub struct Pt {
    pub x: i32,
    pub y: i32,
}

/// A coordinate of a point: x for 0, y for 1.
pub fn coord<const A: usize>(p: Pt) -> i32
    requires { A < 2 }
    ensures { result ≡ coordinate A p }
{
    if A == 0 { p.x } else { p.y }
}

/// A rectangle by its lower left and its upper right corner. It has unit squares only where `x0 < x1` and `y0 < y1`.
///
/// Its unit squares are those with lower left corner (x, y), where `x0 <= x < x1` and `y0 <= y < y1`.
#[derive(Clone, Copy, Debug, PartialEq, Eq)]
pub struct Rect {
    pub x0: i32,
    pub y0: i32,
    pub x1: i32,
    pub y1: i32,
}

/// The common part of two rectangles; its ends are out of order where they have none.
fn common(a: Rect, b: Rect) -> Rect
    ensures { result ≡ common_part a b }
{
    Rect {
        x0: a.x0.max(b.x0),
        y0: a.y0.max(b.y0),
        x1: a.x1.min(b.x1),
        y1: a.y1.min(b.y1),
    }
}

/// Whether a unit square lies between the ends of a rectangle.
fn has_squares(r: Rect) -> bool
    ensures { result ≡ has_squares_of r }
{
    r.x0 < r.x1 && r.y0 < r.y1
}

/// Whether a point lies between the ends of a rectangle, the ends included.
fn has_points(r: Rect) -> bool
    ensures { result ≡ has_points_of r }
{
    r.x0 <= r.x1 && r.y0 <= r.y1
}

/// The lower left corner.
fn corner(r: Rect) -> Pt
    ensures x { result.x ≡ r.x0 }
    ensures y { result.y ≡ r.y0 }
{
    Pt { x: r.x0, y: r.y0 }
}

/// Whether some unit square lies in both rectangles.
#[tactic(auto, using(crate::proofs::Commons::shares_square))]
pub fn meets(a: Rect, b: Rect) -> bool
    ensures { IsTrue result ↔ SharesSquare a b }
{
    has_squares(common(a, b))
}

/// The lower left corner of the common part of two closed rectangles, edges and corners included; None where they have
/// no common point.
#[tactic(auto, using(crate::proofs::Commons::apart_at))]
pub fn meets_closed(a: Rect, b: Rect) -> Option<Pt>
    ensures { MatchOption result (IsApart a b) (IsLowestCommon a b) }
{
    let part = common(a, b);
    let touching = has_points(part);
    if touching { Some(corner(part)) } else { None }
}

/// The rectangle with that much more on each side.
pub fn grow(r: Rect, by: i32) -> Rect
    requires by { pos 0 ≤ℤ by }
    requires within { IsWithinReach (grown r (natural by)) }
    ensures { result ≡ grown r (natural by) }
{
    Rect {
        x0: r.x0 - by,
        y0: r.y0 - by,
        x1: r.x1 + by,
        y1: r.y1 + by,
    }
}
