//! The rectangle that bounds the shapes of a layout.

ghost use Rattle.std.specs.Prelude.{◌≡◌, All, IfSome, fold, map};
ghost use Rattle.std.specs.List.{flat_map};
ghost use Rattle.rc_layout.specs.Items.{IsShape, IsItem};
ghost use Rattle.rc_layout.specs.Nets.{IsWellFormed};
ghost use Rattle.rc_layout.specs.Metal.{all_nets};
ghost use Rattle.rc_windows.specs.Axes.{IsBounds};
ghost use Rattle.rc_engine.specs.Start.{holding, hull as hull_of, net_rects, bounds_of};

use rc_geom::Rect;
use rc_layout::{Item, Layout, Net};

/// The smallest rectangle that holds both.
fn both(a: Rect, b: Rect) -> Rect
    requires bounds { IsBounds a }
    requires shape { IsShape b }
    ensures is { result ≡ holding a b }
    ensures bounds { IsBounds result }
{
    Rect {
        x0: a.x0.min(b.x0),
        y0: a.y0.min(b.y0),
        x1: a.x1.max(b.x1),
        y1: a.y1.max(b.y1),
    }
}

/// The smallest rectangle that holds these bounds, where there are any, and a rectangle.
fn hull(bounds: Option<Rect>, rect: Rect) -> Option<Rect>
    requires bounds { IfSome bounds IsBounds }
    requires rect { IsShape rect }
    ensures is { result ≡ hull_of bounds rect }
    ensures bounds { IfSome result IsBounds }
{
    match bounds {
        Some(bounds) => Some(both(bounds, rect)),
        None => Some(rect),
    }
}

/// The smallest rectangle that holds these bounds and all items.
fn hull_of_items(first: Option<Rect>, items: &[Item]) -> Option<Rect>
    requires bounds { IfSome first IsBounds }
    requires items { All IsItem items.now }
    ensures is { result ≡ fold hull_of first (map (λ item. item.rect) items.now) }
    ensures bounds { IfSome result IsBounds }
{
    let mut bounds = first;
    for item in items {
        bounds = hull(bounds, item.rect);
    }
    bounds
}

/// The smallest rectangle that holds these bounds and all items of nets.
fn hull_of_nets(first: Option<Rect>, nets: &[Net]) -> Option<Rect>
    requires bounds { IfSome first IsBounds }
    requires nets { All IsWellFormed nets.now }
    ensures is { result ≡ fold hull_of first (flat_map net_rects nets.now) }
    ensures bounds { IfSome result IsBounds }
{
    let mut bounds = first;
    for net in nets {
        bounds = hull_of_items(bounds, net.items.items());
    }
    bounds
}

/// The rectangle that bounds all shapes of a layout. None exactly where it has no shape.
pub fn bounds(layout: &Layout) -> Option<Rect>
    ensures is { result ≡ bounds_of (all_nets layout.now) }
    ensures bounds { IfSome result IsBounds }
{
    layout.facts();
    let own = hull_of_nets(None, layout.nets());
    hull_of_nets(own, layout.grounded())
}
