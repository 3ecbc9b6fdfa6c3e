//! Where the entries of each net stand in the tallies of all windows.

ghost use Rattle.std.specs.Prelude.{◌≡◌, ◌<◌, ◌++◌, ◌∷◌, [], All, length, replicate, slice_set, slice_index_or, IfOk, OnOk};
ghost use Rattle.rc_engine.specs.Brought.{entries_of, ArePositions, Brings, HasNets, Joins};

use rc_fixed::{List, NoMemory};
use rc_geom::Key;
use rc_tally::{Entry, Tally};
use std::alloc::Global;

/// Where an entry stands: the number of a window, and a place in its tally.
#[derive(Clone, Copy)]
pub struct Position {
    pub window: u32,
    pub place: u32,
}

/// The positions of one net.
type Positions = List<Position>;

/// A number of items as a position tells it. More than that of windows, or of entries of one window, find no memory.
fn count_of(items: usize) -> Result<u32, NoMemory>
    ensures { IfOk result (λ count. count ≡ items) }
{
    match u32::try_from(items) {
        Ok(count) => Ok(count),
        Err(_) => Err(NoMemory),
    }
}

/// Appends a position to the list of a net.
fn put(lists: &mut Vec<Positions>, net: u32, at: Position) -> Result<(), NoMemory>
    requires { net < length lists.old.items }
    ensures { OnOk result (lists.new.items ≡ slice_set lists.old.items net (slice_index_or lists.old.items net [] ++ at ∷ [])) }
{
    lists[net as usize].push(at)
}

/// Appends a position to the lists of a key's nets.
fn enter(lists: &mut Vec<Positions>, key: Key, at: Position) -> Result<(), NoMemory>
    requires { HasNets (length lists.old.items) key }
    ensures { OnOk result (Joins lists.old.items lists.new.items key at) }
{
    match key {
        Key::Ground { net, .. } => put(lists, net, at),
        Key::Pair { net, other, .. } => {
            put(lists, net, at)?;
            put(lists, other, at)
        }
    }
}

/// Appends the positions of a window's entries to the lists of their nets.
fn enter_all(
    lists: &mut Vec<Positions>,
    tallies: &[Tally<u128>],
    window: u32,
) -> Result<(), NoMemory>
    requires window { window < length tallies.now }
    requires nets { All (λ tally. All (λ e. HasNets (length lists.old.items) e.key) tally) tallies.now }
    ensures { OnOk result (Brings tallies.now lists.old.items lists.new.items (slice_index_or tallies.now window [])) }
{
    let entries = tallies[window as usize].entries();
    let count = count_of(entries.len())?;
    for place in 0..count {
        enter(
            lists,
            entries[place as usize].key,
            Position { window, place },
        )?;
    }
    Ok(())
}

/// Counts one more for a net.
fn count_one(counts: &mut Vec<u32>, net: u32)
    requires { net < length counts.old.items }
    ensures { length counts.new.items ≡ length counts.old.items }
{
    let at = net as usize;
    counts[at] = counts[at].saturating_add(1);
}

/// Counts one more for each net of an entry.
fn count_entry(counts: &mut Vec<u32>, key: Key)
    requires { HasNets (length counts.old.items) key }
    ensures { length counts.new.items ≡ length counts.old.items }
{
    match key {
        Key::Ground { net, .. } => count_one(counts, net),
        Key::Pair { net, other, .. } => {
            count_one(counts, net);
            count_one(counts, other);
        }
    }
}

/// Counts the entries of each net.
fn count_all(counts: &mut Vec<u32>, entries: &[Entry<u128>])
    requires { All (λ e. HasNets (length counts.old.items) e.key) entries.now }
    ensures { length counts.new.items ≡ length counts.old.items }
{
    for entry in entries {
        count_entry(counts, entry.key);
    }
}

/// Empty lists with room for so many positions each.
fn empty_lists(alloc: Global, rooms: &[u32]) -> Result<Vec<Positions>, NoMemory>
    ensures { IfOk result (λ lists. lists.items ≡ replicate (length rooms.now) []) }
{
    let mut lists = Vec::with_capacity(alloc, rooms.len())?;
    for room in rooms {
        lists.push(List::with_capacity(alloc, *room as usize)?)?;
    }
    Ok(lists)
}

/// For each of so many nets the positions of its entries in some tallies, in their order. Of two nets each has the position. Each list
/// takes its room at once.
///
/// # Errors
///
/// `NoMemory` for want of memory.
pub fn positions_of(
    alloc: Global,
    nets: u32,
    tallies: &[Tally<u128>],
) -> Result<List<Positions>, NoMemory>
    requires { All (λ tally. All (λ e. HasNets nets e.key) tally) tallies.now }
    ensures count { IfOk result (λ lists. length lists ≡ nets) }
    ensures positions { IfOk result (λ lists. ArePositions tallies.now lists (entries_of tallies.now)) }
{
    let mut counts = vec![in alloc; 0u32; nets as usize]?;
    for tally in tallies {
        count_all(&mut counts, tally.entries());
    }
    let mut lists = empty_lists(alloc, &counts)?;
    let windows = count_of(tallies.len())?;
    for window in 0..windows {
        enter_all(&mut lists, tallies, window)?;
    }
    Ok(List::from_vec(lists))
}
