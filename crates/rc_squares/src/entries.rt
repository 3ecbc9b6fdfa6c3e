//! The sums of all keys, in one pass.

ghost use Rattle.std.specs.Prelude.{◌≡◌, All, IfOk, map};
ghost use Rattle.std.specs.BTreeMap.{IsOrdered};
ghost use Rattle.rc_geom.specs.Rects.{IsNearRect};
ghost use Rattle.rc_geom.specs.Plane.{plane_of};
ghost use Rattle.rc_squares.specs.Entries.{entry_of, AreSums};

use crate::pass::enter_axis;
use crate::rates::FaceRates;
use crate::sums::Sum;
use crate::tally::Tally;
use rc_fixed::{List, NoMemory};
use rc_geom::{Key, Rect, Tile};
use std::alloc::Global;
use std::collections::BTreeMap;

/// How many parts a key has, and the sum of their amounts, in the unit of the rates.
#[derive(Clone, Copy, Debug, PartialEq, Eq)]
pub struct Entry {
    pub key: Key,
    pub count: u128,
    pub value: u128,
}

/// The sums as a list, by rising keys.
fn listed(alloc: Global, sums: &BTreeMap<Key, Sum>) -> Result<List<Entry>, NoMemory>
    ensures list { IfOk result (λ list. list ≡ map entry_of sums.now.entries) }
    ensures ordered { IfOk result (λ list. IsOrdered (⟦<Key as Ord>⟧.cmp) sums.now) }
{
    let mut list = List::new(alloc);
    for (key, sum) in sums {
        list.push(Entry {
            key: *key,
            count: sum.count,
            value: sum.value,
        })?;
    }
    Ok(list)
}

/// For each key that has a part, how many parts the faces of both axes add whose squares lie in the rectangle, and the
/// sum of their amounts: one pass over the squares for all keys. The entries stand by rising keys, and a key without an
/// entry has none.
///
/// # Errors
///
/// `NoMemory` for want of memory.
pub fn sums_in<R: FaceRates>(
    alloc: Global,
    tiles: &[Tile],
    rates: &R,
    area: &Rect,
) -> Result<List<Entry>, NoMemory>
    requires rules { All (λ tile. R.has_rules rates.now tile.layer) tiles.now }
    requires area { IsNearRect area.now }
    ensures { IfOk result (λ list. AreSums (⟦<Key as Ord>⟧.cmp) (plane_of tiles.now) (R.rates_of rates.now) area.now list) }
{
    let mut tally = Tally::new(alloc);
    enter_axis::<0, R>(alloc, &mut tally, tiles, rates, area)?;
    enter_axis::<1, R>(alloc, &mut tally, tiles, rates, area)?;
    listed(alloc, &tally.sums)
}
