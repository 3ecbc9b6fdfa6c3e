//! The first short of a layout, and of a layout with one net exchanged.

ghost use Rattle.std.specs.Prelude.{◌≡◌, ◌++◌, IfOk, IfSome, List as Elements, ℕ, option_map};
ghost use Rattle.rc_shorts.specs.Shorts.{HavePlaces, IsOfPair, short_of, first_short as first_short_of};
ghost use Rattle.rc_shorts.specs.Exchange.{exchanged, IsExchange, AreNear};

use crate::near::near_shapes;
use crate::search::first_pair;
use crate::shape::{Pair, Shape, Short, short_between};
use rc_fixed::NoMemory;
use std::alloc::Global;

/// The short of two shapes, where there are two.
fn named(found: Option<Pair>) -> Option<Short>
    ensures { result ≡ option_map short_of found }
{
    match found {
        Some(pair) => Some(short_between(&pair)),
        None => None,
    }
}

/// The first of all shorts of these shapes, by the place of the later shape and then by that of the earlier one; None exactly
/// where no two shapes of different nets meet. The shapes stand in any order, and no place has two.
///
/// # Errors
///
/// `NoMemory` for want of memory.
pub fn first_among(alloc: Global, shapes: &[Shape]) -> Result<Option<Short>, NoMemory>
    ensures first { HavePlaces shapes.now → IfOk result (λ short. short ≡ first_short_of shapes.now) }
    ensures pair { IfOk result (λ short. IfSome short (IsOfPair shapes.now)) }
{
    let found = first_pair(alloc, shapes)?;
    Ok(named(found))
}

/// The first of all shorts of a layout without shorts whose shapes of one net are exchanged for new ones. `near` are shapes
/// of the layout and of other nets, in any order and with repeats, and all of those that meet a new one are among them. It
/// takes the time of a search among the near and the new shapes alone.
///
/// # Errors
///
/// `NoMemory` for want of memory.
pub fn short_near(alloc: Global, new: &[Shape], near: &[Shape]) -> Result<Option<Short>, NoMemory>
    ensures first { (shapes : Elements Shape) (net : ℕ) → IsExchange shapes net new.now → AreNear shapes net new.now near.now → IfOk result (λ short. short ≡ first_short_of (exchanged shapes net new.now)) }
    ensures pair { IfOk result (λ short. IfSome short (IsOfPair (near.now ++ new.now))) }
{
    let mut all = Vec::from_slice(alloc, near)?;
    all.extend_from_slice(new)?;
    let found = first_pair(alloc, &all)?;
    Ok(named(found))
}

/// The first of all shorts of a layout without shorts whose shapes of one net are exchanged for new ones. It goes over all
/// shapes of the layout once, and then takes the time of `short_near`.
///
/// # Errors
///
/// `NoMemory` for want of memory.
pub fn short_among_with(
    alloc: Global,
    shapes: &[Shape],
    net: u32,
    new: &[Shape],
) -> Result<Option<Short>, NoMemory>
    ensures first { IsExchange shapes.now net new.now → IfOk result (λ short. short ≡ first_short_of (exchanged shapes.now net new.now)) }
    ensures pair { IfOk result (λ short. IfSome short (IsOfPair (exchanged shapes.now net new.now))) }
{
    let near = near_shapes(alloc, shapes, net, new)?;
    short_near(alloc, new, &near)
}
