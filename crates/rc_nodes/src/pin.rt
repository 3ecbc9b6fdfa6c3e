//! Where the pins of cells lie when the cells are placed.
ghost use Rattle.std.specs.Prelude.{◌≡◌, ◌+ℤ◌};
ghost use Rattle.rc_geom.specs.Orients.{placed as placed_of, placed_rect as placed_rect_of, spanned as spanned_of, CanTurn};
ghost use Rattle.rc_layout.specs.Entries.{cell_rect};
ghost use Rattle.rc_layout.specs.Items.{IsPoint};
ghost use Rattle.rc_layout.specs.Units.{moved as moved_of};
ghost use Rattle.rc_layout.specs.Wide.{HasCoordinates};
ghost use Rattle.rc_nodes.specs.Pins.{CanPlaceRect, IsCellSize};

use rc_geom::{Orient, Pt, Rect, place};
use rc_lef::Macro;

/// A rectangle of a cell, by the cell's origin.
fn from_origin(by: Pt, r: Rect) -> Rect
    requires by { IsPoint by }
    requires rect { HasCoordinates r }
    ensures x0 { result.x0 ≡ by.x +ℤ r.x0 }
    ensures y0 { result.y0 ≡ by.y +ℤ r.y0 }
    ensures x1 { result.x1 ≡ by.x +ℤ r.x1 }
    ensures y1 { result.y1 ≡ by.y +ℤ r.y1 }
    ensures low { CanTurn (record { x = result.x0; y = result.y0 }) }
    ensures high { CanTurn (record { x = result.x1; y = result.y1 }) }
{
    Rect {
        x0: by.x + r.x0,
        y0: by.y + r.y0,
        x1: by.x + r.x1,
        y1: by.y + r.y1,
    }
}

/// The rectangle between two corners, which come in any order.
fn spanned(p: Pt, q: Pt) -> Rect
    ensures { result ≡ spanned_of p q }
{
    Rect {
        x0: p.x.min(q.x),
        y0: p.y.min(q.y),
        x1: p.x.max(q.x),
        y1: p.y.max(q.y),
    }
}

/// The lower left corner.
fn low_corner(r: Rect) -> Pt
    ensures { result ≡ record { x = r.x0; y = r.y0 } }
{
    Pt { x: r.x0, y: r.y0 }
}

/// The upper right corner.
fn high_corner(r: Rect) -> Pt
    ensures { result ≡ record { x = r.x1; y = r.y1 } }
{
    Pt { x: r.x1, y: r.y1 }
}

/// A point of a cell, turned with it.
fn turned_point(cell: &Macro, o: Orient, p: Pt) -> Pt
    requires size { IsCellSize cell.now }
    requires point { CanTurn p }
    ensures { result ≡ placed_of o cell.now.w cell.now.h p }
{
    place(o, cell.w, cell.h, p)
}

/// A rectangle of a cell, turned with it.
fn turned(cell: &Macro, o: Orient, r: Rect) -> Rect
    requires size { IsCellSize cell.now }
    requires low { CanTurn (record { x = r.x0; y = r.y0 }) }
    requires high { CanTurn (record { x = r.x1; y = r.y1 }) }
    ensures { result ≡ placed_rect_of o cell.now.w cell.now.h r }
{
    let low = turned_point(cell, o, low_corner(r));
    let high = turned_point(cell, o, high_corner(r));
    spanned(low, high)
}

/// A rectangle moved to where its cell stands, within the coordinates of a layout.
fn moved(at: Pt, r: Rect) -> Rect
    requires { HasCoordinates (moved_of at r) }
    ensures x0 { result.x0 ≡ at.x +ℤ r.x0 }
    ensures y0 { result.y0 ≡ at.y +ℤ r.y0 }
    ensures x1 { result.x1 ≡ at.x +ℤ r.x1 }
    ensures y1 { result.y1 ≡ at.y +ℤ r.y1 }
{
    Rect {
        x0: at.x + r.x0,
        y0: at.y + r.y0,
        x1: at.x + r.x1,
        y1: at.y + r.y1,
    }
}

/// A rectangle of a cell, where the cell is placed.
pub fn placed_rect(cell: &Macro, at: Pt, o: Orient, rect: Rect) -> Rect
    requires { CanPlaceRect cell.now (at, o) rect }
    ensures { result ≡ cell_rect cell.now o at rect }
{
    moved(at, turned(cell, o, from_origin(cell.origin, rect)))
}
