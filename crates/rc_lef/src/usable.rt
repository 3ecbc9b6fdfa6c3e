//! Which vias can be used, and what stands in them.

ghost use Rattle.std.specs.Prelude.{◌≡◌, ◌≤◌, ◌^◌, ◌+◌, ◌-◌, ◌&&◌, ◌||◌, ◌==◌, ◌*ℤ◌, ◌-ℤ◌, ◌+ℤ◌, ◌++◌, ◌<◌, ◌∷◌, [], pos, length, min, unsigned_abs, filter_map, IfOk, OnOk, IfSome};
ghost use Rattle.std.specs.List.{list_all};
ghost use Rattle.rc_geom.specs.Bounds.{is_coordinate, is_within};
ghost use Rattle.rc_lef.specs.Usable as usable;
ghost use Rattle.rc_lef.specs.Usable.{IsModest};

use crate::tech::LayerKind;
use crate::via::Via;
use rc_fixed::{List, NoMemory, Text};
use rc_geom::Rect;
use std::alloc::Global;

/// The array of cuts of a generated via: the sizes of a cut, the spacings of cuts, how far the pads on the first and on the
/// third layer of LAYERS go beyond the array, and how many rows and columns of cuts there are; along x, then y.
#[derive(Clone, Copy, Debug, PartialEq, Eq)]
pub struct Array {
    pub cut_x: i64,
    pub cut_y: i64,
    pub space_x: i64,
    pub space_y: i64,
    pub first_x: i64,
    pub first_y: i64,
    pub third_x: i64,
    pub third_y: i64,
    pub rows: i64,
    pub columns: i64,
}

/// From where to where something reaches along an axis.
#[derive(Clone, Copy, Debug, PartialEq, Eq)]
pub struct Span {
    pub low: i32,
    pub high: i32,
}

/// A via that can't be used has no pads.
pub fn unusable(alloc: Global, name: Text) -> Via
    ensures { result ≡ usable.unusable name }
{
    Via {
        name,
        usable: false,
        lower: 0,
        cut: 0,
        upper: 0,
        cuts: 0,
        pads: List::new(alloc),
    }
}

/// The least number of a layer with a pad, or 255 without one.
fn lowest(pads: &[(u8, Rect)]) -> u8
    ensures { result ≡ usable.lowest pads.now }
{
    let mut number = u8::MAX;
    for pad in pads {
        number = number.min(pad.0);
    }
    number
}

/// The greatest number of a layer with a pad, or 0 without one.
fn highest(pads: &[(u8, Rect)]) -> u8
    ensures { result ≡ usable.highest pads.now }
{
    let mut number = 0;
    for pad in pads {
        number = number.max(pad.0);
    }
    number
}

/// Whether each pad lies on one of two layers.
fn lie_on(pads: &[(u8, Rect)], lower: u8, upper: u8) -> bool
    ensures { result ≡ list_all (λ pad. (pad.0 == lower) || (pad.0 == upper)) pads.now }
{
    pads.iter().all(|pad| pad.0 == lower || pad.0 == upper)
}

/// Whether exactly two layers have pads.
fn joins_two(pads: &[(u8, Rect)]) -> bool
    ensures { result ≡ usable.joins_two pads.now }
{
    let lower = lowest(pads);
    let upper = highest(pads);
    lower < upper && lie_on(pads, lower, upper)
}

/// Whether all of these are the same layer.
fn are_all(cuts: &[u8], cut: u8) -> bool
    ensures { result ≡ list_all (λ other. other == cut) cuts.now }
{
    cuts.iter().all(|other| *other == cut)
}

/// Whether a number is a coordinate of a layout.
fn is_near(z: i32) -> bool
    ensures { result ≡ is_coordinate z }
{
    z >= -536_870_912 && z <= 536_870_912
}

fn lies_within(rect: Rect) -> bool
    ensures { result ≡ is_within rect }
{
    is_near(rect.x0) && is_near(rect.y0) && (is_near(rect.x1) && is_near(rect.y1))
}

/// Whether each pad lies within the coordinates of a layout.
fn lie_within(pads: &[(u8, Rect)]) -> bool
    ensures { result ≡ list_all (λ pad. is_within pad.1) pads.now }
{
    pads.iter().all(|pad| lies_within(pad.1))
}

/// The layer of the first cut.
fn first_of(cuts: &[u8]) -> Option<u8>
    ensures { result ≡ usable.first_cut cuts.now }
{
    match cuts {
        [] => None,
        [cut, ..] => Some(*cut),
    }
}

/// A via by its pads, the layers of its cuts, and how many cuts it has.
#[tactic(auto, unfolding(crate::specs::Usable::via_of))]
fn via_of(
    alloc: Global,
    name: Text,
    allowed: bool,
    pads: List<(u8, Rect)>,
    cuts: &[u8],
    count: u32,
) -> Via
    ensures { result ≡ usable.via_of name allowed pads cuts.now count }
{
    let Some(cut) = first_of(cuts) else {
        return unusable(alloc, name);
    };
    if !(allowed && are_all(cuts, cut)) {
        return unusable(alloc, name);
    }
    if !(joins_two(pads.items()) && lie_within(pads.items())) {
        return unusable(alloc, name);
    }
    Via {
        name,
        usable: true,
        lower: lowest(pads.items()),
        cut,
        upper: highest(pads.items()),
        cuts: count,
        pads,
    }
}

fn pad_of(rect: &(LayerKind, Rect)) -> Option<(u8, Rect)>
    ensures { result ≡ usable.pad_of rect.now }
{
    match rect.0 {
        LayerKind::Routing(number) => Some((number, rect.1)),
        _ => None,
    }
}

fn cut_of(rect: &(LayerKind, Rect)) -> Option<u8>
    ensures { result ≡ usable.cut_of rect.now }
{
    match rect.0 {
        LayerKind::Cut(number) => Some(number),
        _ => None,
    }
}

fn is_metal_or_cut(kind: LayerKind) -> bool
    ensures { result ≡ usable.is_metal_or_cut kind }
{
    !matches!(kind, LayerKind::Other)
}

/// Whether each rectangle lies on a routing or a cut layer.
fn are_metal_or_cut(rects: &[(LayerKind, Rect)]) -> bool
    ensures { result ≡ list_all (λ rect. usable.is_metal_or_cut rect.0) rects.now }
{
    rects.iter().all(|rect| is_metal_or_cut(rect.0))
}

/// A rectangle on a routing layer joins the others, by the layer's number.
fn put_pad(pads: &mut List<(u8, Rect)>, rect: &(LayerKind, Rect)) -> Result<(), NoMemory>
    ensures { OnOk result (pads.new ≡ pads.old ++ filter_map usable.pad_of (rect.now ∷ [])) }
{
    if let Some(pad) = pad_of(rect) {
        return pads.push(pad);
    }
    Ok(())
}

/// The rectangles on routing layers, by the layers' numbers.
fn pads_of(alloc: Global, rects: &[(LayerKind, Rect)]) -> Result<List<(u8, Rect)>, NoMemory>
    ensures { IfOk result (λ pads. pads ≡ filter_map usable.pad_of rects.now) }
{
    let mut pads = List::new(alloc);
    for rect in rects {
        put_pad(&mut pads, rect)?;
    }
    Ok(pads)
}

/// The number of a cut layer joins the others.
fn put_cut(cuts: &mut List<u8>, rect: &(LayerKind, Rect)) -> Result<(), NoMemory>
    ensures { OnOk result (cuts.new ≡ cuts.old ++ filter_map usable.cut_of (rect.now ∷ [])) }
{
    if let Some(cut) = cut_of(rect) {
        return cuts.push(cut);
    }
    Ok(())
}

/// The numbers of the layers of the rectangles on cut layers.
fn cuts_of(alloc: Global, rects: &[(LayerKind, Rect)]) -> Result<List<u8>, NoMemory>
    ensures { IfOk result (λ cuts. cuts ≡ filter_map usable.cut_of rects.now) }
{
    let mut cuts = List::new(alloc);
    for rect in rects {
        put_cut(&mut cuts, rect)?;
    }
    Ok(cuts)
}

/// How many there are, as far as a number of 32 bits goes.
fn count_of(cuts: &[u8]) -> u32
    ensures { result ≡ min (length cuts.now) (2 ^ 32 - 1) }
{
    let count = cuts.len();
    if count > u32::MAX as usize {
        return u32::MAX;
    }
    count as u32
}

/// A via by its rectangles: each on a routing layer is a pad, and each on a cut layer a cut.
///
/// # Errors
///
/// `NoMemory` for want of memory.
#[tactic(auto, unfolding(crate::specs::Usable::drawn_via))]
pub fn drawn_via(
    alloc: Global,
    name: Text,
    plain: bool,
    rects: &[(LayerKind, Rect)],
) -> Result<Via, NoMemory>
    ensures { IfOk result (λ via. via ≡ usable.drawn_via name plain rects.now) }
{
    let pads = pads_of(alloc, rects)?;
    let cuts = cuts_of(alloc, rects)?;
    let allowed = plain && are_metal_or_cut(rects);
    let count = count_of(cuts.items());
    Ok(via_of(alloc, name, allowed, pads, cuts.items(), count))
}

/// So many times a length.
fn product(count: i64, length: i64) -> i64
    requires count { unsigned_abs count ≤ 2 ^ 16 }
    requires length { unsigned_abs length ≤ 2 ^ 44 }
    ensures value { result ≡ count *ℤ length }
    ensures small { unsigned_abs result ≤ 2 ^ 60 }
{
    count * length
}

/// How many spaces stand between so many cuts.
fn one_less(count: i64) -> i64
    requires { unsigned_abs count < 2 ^ 16 }
    ensures value { result ≡ count -ℤ pos 1 }
    ensures small { unsigned_abs result ≤ 2 ^ 16 }
{
    count - 1
}

/// Two lengths one behind the other.
fn sum(first: i64, second: i64) -> i64
    requires first { unsigned_abs first ≤ 2 ^ 60 }
    requires second { unsigned_abs second ≤ 2 ^ 60 }
    ensures value { result ≡ first +ℤ second }
    ensures small { unsigned_abs result ≤ 2 ^ 61 }
{
    first + second
}

/// How long so many cuts are, with the spaces between them.
fn extent(count: i64, size: i64, space: i64) -> i64
    requires count { unsigned_abs count < 2 ^ 16 }
    requires size { unsigned_abs size ≤ 2 ^ 44 }
    requires space { unsigned_abs space ≤ 2 ^ 44 }
    ensures value { result ≡ usable.extent count size space }
    ensures small { unsigned_abs result ≤ 2 ^ 61 }
{
    sum(product(count, size), product(one_less(count), space))
}

/// Where a length begins whose middle is the origin: half of it, rounded down, lies below.
fn from_below(length: i64) -> i64
    requires { unsigned_abs length ≤ 2 ^ 61 }
    ensures value { result ≡ usable.from_below length }
    ensures small { unsigned_abs result ≤ 2 ^ 61 }
{
    -length.div_euclid(2)
}

/// Where a length begins whose middle is the origin, with that much more.
fn low_end(length: i64, more: i64) -> i64
    requires length { unsigned_abs length ≤ 2 ^ 61 }
    requires more { unsigned_abs more ≤ 2 ^ 44 }
    ensures { result ≡ usable.from_below length -ℤ more }
{
    from_below(length) - more
}

/// Where a length ends whose middle is the origin, with that much more.
fn high_end(length: i64, more: i64) -> i64
    requires length { unsigned_abs length ≤ 2 ^ 61 }
    requires more { unsigned_abs more ≤ 2 ^ 44 }
    ensures { result ≡ usable.from_below length +ℤ length +ℤ more }
{
    from_below(length) + length + more
}

/// A number as a coordinate of a layout.
fn coordinate(z: i64) -> Option<i32>
    ensures { result ≡ usable.coordinate z }
{
    if z < -536_870_912 || z > 536_870_912 {
        return None;
    }
    Some(z as i32)
}

/// Both ends, where both lie within the coordinates of a layout.
fn both_ends(low: Option<i32>, high: Option<i32>) -> Option<Span>
    ensures { result ≡ usable.both_ends low high }
{
    match (low, high) {
        (Some(low), Some(high)) => Some(Span { low, high }),
        _ => None,
    }
}

/// The two ends of a length whose middle is the origin, with that much more on each side.
fn ends_with(length: i64, more: i64) -> Option<Span>
    requires length { unsigned_abs length ≤ 2 ^ 61 }
    requires more { unsigned_abs more ≤ 2 ^ 44 }
    ensures { result ≡ usable.near_ends length more }
{
    let low = coordinate(low_end(length, more));
    let high = coordinate(high_end(length, more));
    both_ends(low, high)
}

/// The rectangle of two spans.
fn rect_of(along: Option<Span>, across: Option<Span>) -> Option<Rect>
    ensures { result ≡ usable.rect_of_ends along across }
{
    match (along, across) {
        (Some(along), Some(across)) => Some(Rect {
            x0: along.low,
            y0: across.low,
            x1: along.high,
            y1: across.high,
        }),
        _ => None,
    }
}

/// The rectangle of all cuts with that much more on each side, where it lies within the coordinates of a layout.
#[tactic(auto, unfolding(crate::specs::Usable::near_array))]
fn array_with(array: &Array, more_x: i64, more_y: i64) -> Option<Rect>
    requires array { IsModest array.now }
    requires x { unsigned_abs more_x ≤ 2 ^ 44 }
    requires y { unsigned_abs more_y ≤ 2 ^ 44 }
    ensures { result ≡ usable.near_array array.now more_x more_y }
{
    let wide = extent(array.columns, array.cut_x, array.space_x);
    let high = extent(array.rows, array.cut_y, array.space_y);
    rect_of(ends_with(wide, more_x), ends_with(high, more_y))
}

/// Two pads, that on the lower layer first.
fn in_order(
    alloc: Global,
    first: (u8, Rect),
    third: (u8, Rect),
) -> Result<List<(u8, Rect)>, NoMemory>
    ensures { IfOk result (λ pads. pads ≡ usable.in_order first third) }
{
    let mut pads = List::new(alloc);
    if third.0 < first.0 {
        pads.push(third)?;
        pads.push(first)?;
        return Ok(pads);
    }
    pads.push(first)?;
    pads.push(third)?;
    Ok(pads)
}

/// How many cuts an array has.
fn cuts_in(array: &Array) -> u32
    requires { IsModest array.now }
    ensures { result ≡ usable.cuts_in array.now }
{
    (array.rows.unsigned_abs() * array.columns.unsigned_abs()) as u32
}

/// A via by the numbers of its array of cuts, and the layers of LAYERS: the first and the third are routing layers, and the
/// second is a cut layer.
///
/// # Errors
///
/// `NoMemory` for want of memory.
#[tactic(auto, unfolding(crate::specs::Usable::made_via))]
pub fn made_via(
    alloc: Global,
    name: Text,
    plain: bool,
    layers: (LayerKind, LayerKind, LayerKind),
    array: &Array,
) -> Result<Via, NoMemory>
    requires { IsModest array.now }
    ensures { IfOk result (λ via. via ≡ usable.made_via name plain layers.0 layers.1 layers.2 array.now) }
{
    let (LayerKind::Routing(first), LayerKind::Cut(cut), LayerKind::Routing(third)) = layers else {
        return Ok(unusable(alloc, name));
    };
    let Some(below) = array_with(array, array.first_x, array.first_y) else {
        return Ok(unusable(alloc, name));
    };
    let Some(above) = array_with(array, array.third_x, array.third_y) else {
        return Ok(unusable(alloc, name));
    };
    let pads = in_order(alloc, (first, below), (third, above))?;
    Ok(via_of(alloc, name, plain, pads, &[cut], cuts_in(array)))
}
