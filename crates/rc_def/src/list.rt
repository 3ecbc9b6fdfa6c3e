//! Lists of things with names, and rectangles of numbers.

ghost use Rattle.std.specs.Prelude.{◌≡◌, OnOk, IfOk, map, MatchResult};
ghost use Rattle.rc_def.specs.Parts as parts;

use crate::draft::LayerWidth;
use rc_fixed::{List, NoMemory, Text};
use rc_geom::{Pt, Rect};
use rc_keys::{Named, Table};
use std::alloc::Global;

/// Appends a thing, unless one of its name is there.
pub fn put_new<T: Named + Drop>(table: &mut Table<T>, item: T) -> Result<(), NoMemory>
    ensures { OnOk result (table.new ≡ parts.with_new T.called table.old item) }
{
    if table.has(item.name()) {
        return Ok(());
    }
    table.put(item)
}

/// Whether two corners leave no area between them.
fn is_flat(p: Pt, q: Pt) -> bool
    ensures { result ≡ parts.is_flat p q }
{
    p.x == q.x || p.y == q.y
}

/// The rectangle that has these two corners.
fn box_between(p: Pt, q: Pt) -> Rect
    ensures { result ≡ parts.box_between p q }
{
    Rect {
        x0: p.x.min(q.x),
        y0: p.y.min(q.y),
        x1: p.x.max(q.x),
        y1: p.y.max(q.y),
    }
}

/// The rectangle between two corners, which come in any order; none where it has no area.
fn rect_between(p: Pt, q: Pt) -> Option<Rect>
    ensures { result ≡ parts.rect_between p q }
{
    if is_flat(p, q) {
        return None;
    }
    Some(box_between(p, q))
}

/// The rectangle of the corners that four numbers are.
pub fn rect_of(numbers: &[i32]) -> Option<Rect>
    ensures { result ≡ parts.rect_of numbers.now }
{
    match numbers {
        [x, y, x1, y1] => rect_between(Pt { x: *x, y: *y }, Pt { x: *x1, y: *y1 }),
        _ => None,
    }
}

/// Appends a rectangle on a layer, where there is one.
pub fn put_rect(
    rects: &mut List<(Text, Rect)>,
    layer: Text,
    rect: Option<Rect>,
) -> Result<(), NoMemory>
    ensures { OnOk result (rects.new ≡ parts.with_rect layer rect rects.old) }
{
    match rect {
        Some(rect) => rects.push((layer, rect)),
        None => Ok(()),
    }
}

/// The widths as pairs.
pub fn pairs(alloc: Global, widths: Vec<LayerWidth>) -> Result<Vec<(Text, i32)>, NoMemory>
    ensures { IfOk result (λ list. list.items ≡ map parts.pair_of widths.items) }
{
    Ok(
        widths
            .into_iter()
            .map(|width| (width.layer, width.width))
            .collect(alloc)?,
    )
}
