//! The first short of a list of shapes, by cutting the list in two until few are left.

ghost use Rattle.std.specs.Prelude.{◌≡◌, ◌==◌, IfOk, MatchOption};
ghost use Rattle.std.specs.List.{list_all};
ghost use Rattle.std.specs.List.Sorted.{IsPermutation};
ghost use Rattle.rc_shorts.specs.Shorts.{IsShortIn, IsClear, IsFirstPair};
ghost use Rattle.rc_shorts.specs.Search.{is_one_net as is_one_net_of, Leads};

use crate::cell::{Cell, cell_of, choose, high_part, low_part};
use crate::compare::{among, is_by_nets};
use crate::divide::divide_by;
use crate::shape::{Pair, Shape};
use rc_fixed::NoMemory;
use std::alloc::Global;

/// So many shapes are compared each with each.
const FEW: usize = 24;

/// So often is a list cut.
const DEPTH: u8 = 80;

/// Whether all shapes are of this net.
fn are_of(shapes: &[Shape], net: u32) -> bool
    ensures { result ≡ list_all (λ shape. shape.net == net) shapes.now }
{
    shapes.iter().all(|shape| shape.net == net)
}

/// Whether all shapes are of one net.
fn is_one_net(shapes: &[Shape]) -> bool
    ensures { result ≡ is_one_net_of shapes.now }
{
    match shapes.first() {
        Some(first) => are_of(shapes, first.net),
        None => true,
    }
}

/// The pair that leads, once all shorts of these shapes are looked at. They are cut at most `depth` times.
fn leader(
    alloc: Global,
    shapes: &[Shape],
    cell: Cell,
    depth: u8,
    best: Option<Pair>,
) -> Result<Option<Pair>, NoMemory>
    ensures { IfOk result (Leads best (IsShortIn shapes.now)) }
{
    if shapes.len() <= FEW || depth == 0 {
        return Ok(among(shapes, best));
    }
    if is_one_net(shapes) {
        return Ok(best);
    }
    let choice = choose(shapes, &cell);
    let divided = divide_by(alloc, shapes, choice.first, choice.second, &best)?;
    let Some(sides) = divided else {
        return Ok(among(shapes, best));
    };
    let middle = leader(
        alloc,
        &sides.low,
        low_part(&cell, sides.cut),
        depth - 1,
        best,
    )?;
    leader(
        alloc,
        &sides.high,
        high_part(&cell, sides.cut),
        depth - 1,
        middle,
    )
}

/// These shapes by their nets.
fn by_nets(alloc: Global, shapes: &[Shape]) -> Result<Vec<Shape>, NoMemory>
    ensures { IfOk result (λ sorted. IsPermutation shapes.now sorted.items) }
{
    let mut sorted = Vec::from_slice(alloc, shapes)?;
    sorted.sort_unstable_by_key(|shape| shape.net);
    Ok(sorted)
}

/// The short that comes first of all shorts of these shapes. None exactly where none of them are short.
///
/// Many shapes in one spot are compared each with those of lesser nets alone, where they stand by their nets.
pub fn first_pair(alloc: Global, shapes: &[Shape]) -> Result<Option<Pair>, NoMemory>
    ensures { IfOk result (λ found. MatchOption found (IsClear shapes.now) (IsFirstPair shapes.now)) }
{
    if is_by_nets(shapes) {
        return leader(alloc, shapes, cell_of(shapes), DEPTH, None);
    }
    let sorted = by_nets(alloc, shapes)?;
    leader(alloc, &sorted, cell_of(&sorted), DEPTH, None)
}
