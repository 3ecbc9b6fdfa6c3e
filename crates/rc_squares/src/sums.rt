//! The sums of one key.

ghost use Rattle.std.specs.Prelude.{◌≡◌, ◌+◌, ◌+ℤ◌, ◌<◌, ◌≤◌, ◌^◌, pos, Some, All, IfSome, option_map, ◌==◌};
ghost use Rattle.std.specs.List.{list_any};
ghost use Rattle.rc_geom.specs.Rects.{IsNear, IsNearRect};
ghost use Rattle.rc_geom.specs.Plane.{plane_of};
ghost use Rattle.rc_geom.specs.Parts.{same_key as same_key_of};
ghost use Rattle.rc_geom.specs.Sums.{numbers, extent, first_line, end_line, first_place, end_place};
ghost use Rattle.rc_geom.specs.Extraction.{value_in, count_in, key_value, key_count};
ghost use Rattle.rc_squares.specs.Found.{part_value};
ghost use Rattle.rc_squares.specs.Worths.{one, amount, part_worth, side_worth, square_worth, line_worth, lines_worth};

use crate::area::{lines, places, side, square};
use crate::parts::{Part, side_parts};
use crate::rates::FaceRates;
use crate::square::{Metal, metal_at};
use rc_geom::{Key, Pt, Rect, Side, Tile};

/// What faces add to a key: how many parts they are, and the sum of their amounts, in the unit of the rates.
#[derive(Clone, Copy, Debug, PartialEq, Eq)]
pub struct Sum {
    pub count: u128,
    pub value: u128,
}

/// The sum of no part.
pub const NOTHING: Sum = Sum { count: 0, value: 0 };

/// Two sums together.
fn plus(a: Sum, b: Sum) -> Sum
    requires few { a.count + b.count < 2 ^ 128 }
    requires small { a.value + b.value < 2 ^ 128 }
    ensures count { result.count ≡ a.count + b.count }
    ensures value { result.value ≡ a.value + b.value }
{
    Sum {
        count: a.count + b.count,
        value: a.value + b.value,
    }
}

/// Whether two keys are one.
pub fn same_key(a: Key, b: Key) -> bool
    ensures { result ≡ same_key_of a b }
{
    a == b
}

/// What a part adds to a key, where there is one.
fn part_sum(part: Option<Part>, key: Key) -> Sum
    requires { IfSome part (λ part. part.amount < 2 ^ 57) }
    ensures count { result.count ≡ part_worth one key (option_map part_value part) }
    ensures value { result.value ≡ part_worth amount key (option_map part_value part) }
    ensures few { result.count ≤ 1 }
    ensures small { result.value < 2 ^ 57 }
{
    match part {
        Some(part) if same_key(part.key, key) => Sum {
            count: 1,
            value: part.amount,
        },
        _ => NOTHING,
    }
}

/// What the face on a side of a square adds to a key, whose metal is `own`.
fn side_sum<R: FaceRates>(
    tiles: &[Tile],
    rates: &R,
    layer: u8,
    key: Key,
    side: Side,
    at: Pt,
    own: Metal,
) -> Sum
    requires layer { layer < 32 }
    requires rules { R.has_rules rates.now layer }
    requires near { IsNear at }
    requires own { plane_of tiles.now layer at ≡ Some own }
    ensures count { result.count ≡ side_worth one (plane_of tiles.now) (R.rates_of rates.now) layer key side at }
    ensures value { result.value ≡ side_worth amount (plane_of tiles.now) (R.rates_of rates.now) layer key side at }
    ensures few { result.count ≤ 2 }
    ensures small { result.value < 2 ^ 58 }
{
    let parts = side_parts(tiles, rates, layer, side, at, own);
    plus(part_sum(parts.own, key), part_sum(parts.shared, key))
}

/// What the faces of a square add to a key, in both directions of the axis.
#[tactic(auto, using(crate::proofs::Worths::square_steps))]
fn square_sum<const A: usize, R: FaceRates>(
    tiles: &[Tile],
    rates: &R,
    layer: u8,
    key: Key,
    at: Pt,
) -> Sum
    requires layer { layer < 32 }
    requires rules { All (λ tile. R.has_rules rates.now tile.layer) tiles.now }
    requires near { IsNear at }
    ensures count { result.count ≡ square_worth one (plane_of tiles.now) (R.rates_of rates.now) layer key A at }
    ensures value { result.value ≡ square_worth amount (plane_of tiles.now) (R.rates_of rates.now) layer key A at }
    ensures few { result.count ≤ 4 }
    ensures small { result.value ≤ 2 ^ 59 }
{
    match metal_at(tiles, layer, at) {
        Some(own) => plus(
            side_sum(tiles, rates, layer, key, side::<A>(false), at, own),
            side_sum(tiles, rates, layer, key, side::<A>(true), at, own),
        ),
        None => NOTHING,
    }
}

/// What the faces of a line of the axis in a rectangle add to a key.
#[tactic(auto, using(rc_geom::proofs::Totals::total_steps))]
fn line_sum<const A: usize, R: FaceRates>(
    tiles: &[Tile],
    rates: &R,
    layer: u8,
    key: Key,
    area: &Rect,
    line: u32,
) -> Sum
    requires layer { layer < 32 }
    requires rules { All (λ tile. R.has_rules rates.now tile.layer) tiles.now }
    requires area { IsNearRect area.now }
    requires line { line < extent (first_line A area.now) (end_line A area.now) }
    ensures count { result.count ≡ line_worth one (plane_of tiles.now) (R.rates_of rates.now) layer key A area.now (first_line A area.now +ℤ pos line) (extent (first_place A area.now) (end_place A area.now)) }
    ensures value { result.value ≡ line_worth amount (plane_of tiles.now) (R.rates_of rates.now) layer key A area.now (first_line A area.now +ℤ pos line) (extent (first_place A area.now) (end_place A area.now)) }
    ensures few { result.count ≤ 2 ^ 33 }
    ensures small { result.value ≤ 2 ^ 90 }
{
    let mut sum = NOTHING;
    for place in 0..places::<A>(area) {
        let at = square::<A>(area, line, place);
        sum = plus(sum, square_sum::<A, R>(tiles, rates, layer, key, at));
    }
    sum
}

/// Whether a tile lies on the layer.
pub fn has_tiles(tiles: &[Tile], layer: u8) -> bool
    ensures { result ≡ list_any (λ tile. tile.layer == layer) tiles.now }
{
    for tile in tiles {
        if tile.layer == layer {
            return true;
        }
    }
    false
}

/// What the faces of the lines of the axis in a rectangle add to a key.
#[tactic(auto, using(rc_geom::proofs::Totals::total_steps))]
fn lines_sum<const A: usize, R: FaceRates>(
    tiles: &[Tile],
    rates: &R,
    layer: u8,
    key: Key,
    area: &Rect,
) -> Sum
    requires layer { layer < 32 }
    requires rules { All (λ tile. R.has_rules rates.now tile.layer) tiles.now }
    requires area { IsNearRect area.now }
    ensures count { result.count ≡ lines_worth one (plane_of tiles.now) (R.rates_of rates.now) layer key A area.now (extent (first_line A area.now) (end_line A area.now)) }
    ensures value { result.value ≡ lines_worth amount (plane_of tiles.now) (R.rates_of rates.now) layer key A area.now (extent (first_line A area.now) (end_line A area.now)) }
    ensures few { result.count ≤ 2 ^ 64 }
    ensures small { result.value ≤ 2 ^ 121 }
{
    let mut sum = NOTHING;
    for line in 0..lines::<A>(area) {
        sum = plus(sum, line_sum::<A, R>(tiles, rates, layer, key, area, line));
    }
    sum
}

/// The same of a layer, which is nothing where no tile lies on it.
#[tactic(auto, using(crate::proofs::Worths::layer_bare))]
fn layer_sum<const A: usize, R: FaceRates>(
    tiles: &[Tile],
    rates: &R,
    layer: u8,
    key: Key,
    area: &Rect,
) -> Sum
    requires layer { layer < 32 }
    requires rules { All (λ tile. R.has_rules rates.now tile.layer) tiles.now }
    requires area { IsNearRect area.now }
    ensures count { result.count ≡ lines_worth one (plane_of tiles.now) (R.rates_of rates.now) layer key A area.now (extent (first_line A area.now) (end_line A area.now)) }
    ensures value { result.value ≡ lines_worth amount (plane_of tiles.now) (R.rates_of rates.now) layer key A area.now (extent (first_line A area.now) (end_line A area.now)) }
    ensures few { result.count ≤ 2 ^ 64 }
    ensures small { result.value ≤ 2 ^ 121 }
{
    if has_tiles(tiles, layer) {
        lines_sum::<A, R>(tiles, rates, layer, key, area)
    } else {
        NOTHING
    }
}

/// For a key, how many parts the faces of axis `A` add whose squares lie in the rectangle, and the sum of their amounts.
/// Axis 0 has the left and right faces, axis 1 those down and up.
#[tactic(auto, using(rc_geom::proofs::Totals::total_steps))]
pub fn sum_in<const A: usize, R: FaceRates>(tiles: &[Tile], rates: &R, area: &Rect, key: Key) -> Sum
    requires rules { All (λ tile. R.has_rules rates.now tile.layer) tiles.now }
    requires area { IsNearRect area.now }
    ensures count { result.count ≡ count_in (plane_of tiles.now) (R.rates_of rates.now) A area.now key }
    ensures value { result.value ≡ value_in numbers (plane_of tiles.now) (R.rates_of rates.now) A area.now key }
    ensures few { result.count ≤ 2 ^ 69 }
    ensures small { result.value ≤ 2 ^ 126 }
{
    let mut sum = NOTHING;
    for layer in 0..32 {
        sum = plus(sum, layer_sum::<A, R>(tiles, rates, layer, key, area));
    }
    sum
}

/// For a key, how many parts the faces of both axes add whose squares lie in the rectangle, and the sum of their amounts.
pub fn key_sum<R: FaceRates>(tiles: &[Tile], rates: &R, area: &Rect, key: Key) -> Sum
    requires rules { All (λ tile. R.has_rules rates.now tile.layer) tiles.now }
    requires area { IsNearRect area.now }
    ensures count { result.count ≡ key_count (plane_of tiles.now) (R.rates_of rates.now) area.now key }
    ensures value { result.value ≡ key_value numbers (plane_of tiles.now) (R.rates_of rates.now) area.now key }
    ensures few { result.count ≤ 2 ^ 70 }
    ensures small { result.value ≤ 2 ^ 127 }
{
    plus(
        sum_in::<0, R>(tiles, rates, area, key),
        sum_in::<1, R>(tiles, rates, area, key),
    )
}
