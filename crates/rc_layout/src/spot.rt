//! Pads and patches.

ghost use Rattle.std.specs.Prelude.{◌≡◌, ◌+ℤ◌, ◌||◌, IfSome};
ghost use Rattle.std.specs.Ordering.{int_eq};
ghost use Rattle.std.specs.Int.{int_max, int_min};
ghost use Rattle.rc_geom.specs.Orients.{placed_rect as placed_rect_of, spanned as spanned_by, CanPlace};
ghost use Rattle.rc_layout.specs.Units.{turned_rect as turned_rect_of, low_corner as low_of};
ghost use Rattle.rc_layout.specs.Drawn.{spot as spot_of, pad as pad_of, patch as patch_of};
ghost use Rattle.rc_layout.specs.Paths.{near, laid};
ghost use Rattle.rc_layout.specs.Wide.{as_point, HasCoordinates, IsWide, IsWidePoint};

use crate::item::{Item, ItemKind};
use crate::piece::too_far;
use crate::wide::{WidePt, WideRect, near_rect};
use rc_geom::{Orient, Pt, Rect, turn};
use rc_keys::Refusal;

/// The lower left corner.
pub fn low_corner(r: Rect) -> Pt
    ensures { result ≡ low_of r }
{
    Pt { x: r.x0, y: r.y0 }
}

/// The upper right corner.
pub fn high_corner(r: Rect) -> Pt
    ensures { result ≡ record { x = r.x1; y = r.y1 } }
{
    Pt { x: r.x1, y: r.y1 }
}

/// The rectangle between two corners, which come in any order.
pub fn spanned(p: Pt, q: Pt) -> Rect
    ensures { result ≡ spanned_by p q }
{
    Rect {
        x0: p.x.min(q.x),
        y0: p.y.min(q.y),
        x1: p.x.max(q.x),
        y1: p.y.max(q.y),
    }
}

/// The rectangle, turned round the origin.
pub fn turned_rect(o: Orient, r: Rect) -> Rect
    requires { HasCoordinates r }
    ensures { result ≡ turned_rect_of o r }
{
    spanned(turn(o, low_corner(r)), turn(o, high_corner(r)))
}

/// The rectangle, moved.
pub fn moved(at: Pt, r: Rect) -> WideRect
    ensures x0 { result.x0 ≡ at.x +ℤ r.x0 }
    ensures y0 { result.y0 ≡ at.y +ℤ r.y0 }
    ensures x1 { result.x1 ≡ at.x +ℤ r.x1 }
    ensures y1 { result.y1 ≡ at.y +ℤ r.y1 }
{
    WideRect {
        x0: i64::from(at.x) + i64::from(r.x0),
        y0: i64::from(at.y) + i64::from(r.y0),
        x1: i64::from(at.x) + i64::from(r.x1),
        y1: i64::from(at.y) + i64::from(r.y1),
    }
}

/// An item that has a point for its centreline.
pub fn spot(kind: ItemKind, layer: u8, rect: Rect, at: Pt) -> Item
    ensures { result ≡ spot_of kind layer rect at }
{
    Item {
        kind,
        layer,
        rect,
        a: at,
        b: at,
        width: 0,
    }
}

/// A pad of a via that stands at a point, where it lies within the coordinates of a layout.
pub fn pad(orient: Orient, at: Pt, layer: u8, rect: Rect) -> Result<Item, Refusal>
    requires { HasCoordinates rect }
    ensures { result ≡ near (pad_of orient at (layer, rect)) }
{
    let Some(there) = near_rect(moved(at, turned_rect(orient, rect))) else {
        return Err(too_far());
    };
    Ok(spot(ItemKind::Pad, layer, there, at))
}

fn left(p: WidePt, q: WidePt) -> i64
    requires p { IsWidePoint p }
    requires q { IsWidePoint q }
    ensures is { result ≡ int_min p.x q.x }
    ensures wide { IsWide result }
{
    if p.x < q.x { p.x } else { q.x }
}

fn below(p: WidePt, q: WidePt) -> i64
    requires p { IsWidePoint p }
    requires q { IsWidePoint q }
    ensures is { result ≡ int_min p.y q.y }
    ensures wide { IsWide result }
{
    if p.y < q.y { p.y } else { q.y }
}

fn right(p: WidePt, q: WidePt) -> i64
    requires p { IsWidePoint p }
    requires q { IsWidePoint q }
    ensures is { result ≡ int_max p.x q.x }
    ensures wide { IsWide result }
{
    if p.x < q.x { q.x } else { p.x }
}

fn above(p: WidePt, q: WidePt) -> i64
    requires p { IsWidePoint p }
    requires q { IsWidePoint q }
    ensures is { result ≡ int_max p.y q.y }
    ensures wide { IsWide result }
{
    if p.y < q.y { q.y } else { p.y }
}

/// The rectangle between two corners as a point sees them.
fn seen_from(at: Pt, p: WidePt, q: WidePt) -> WideRect
    requires p { IsWidePoint p }
    requires q { IsWidePoint q }
    ensures x0 { result.x0 ≡ at.x +ℤ int_min p.x q.x }
    ensures y0 { result.y0 ≡ at.y +ℤ int_min p.y q.y }
    ensures x1 { result.x1 ≡ at.x +ℤ int_max p.x q.x }
    ensures y1 { result.y1 ≡ at.y +ℤ int_max p.y q.y }
{
    WideRect {
        x0: i64::from(at.x) + left(p, q),
        y0: i64::from(at.y) + below(p, q),
        x1: i64::from(at.x) + right(p, q),
        y1: i64::from(at.y) + above(p, q),
    }
}

fn is_flat(p: WidePt, q: WidePt) -> bool
    ensures { result ≡ (int_eq p.x q.x || int_eq p.y q.y) }
{
    p.x == q.x || p.y == q.y
}

/// A patch between two corners as a point sees them, where it lies within the coordinates of a layout.
#[tactic(auto, unfolding(crate::specs::Drawn::patch))]
pub fn patch(layer: u8, at: Pt, p: WidePt, q: WidePt) -> Result<Option<Item>, Refusal>
    requires p { IsWidePoint p }
    requires q { IsWidePoint q }
    ensures { result ≡ laid (patch_of layer at (as_point p) (as_point q)) }
{
    if is_flat(p, q) {
        return Ok(None);
    }
    let Some(rect) = near_rect(seen_from(at, p, q)) else {
        return Err(too_far());
    };
    Ok(Some(spot(ItemKind::Patch, layer, rect, at)))
}
