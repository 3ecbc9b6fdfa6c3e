//! What some windows have for one net.

ghost use Rattle.std.specs.Prelude.{◌≡◌, ◌<◌, ◌++◌, [], All, IfOk, OnOk, length, slice_index_or};
ghost use Rattle.std.specs.List.{cons_option, flat_map};
ghost use Rattle.rc_engine.specs.Brought.{own_at as own_at_of, own_of, owned, owned_at, turned_about};
ghost use Rattle.rc_geom.specs.declared.key.Key.TheVariants.{Pair};

use crate::any::push_any;
use crate::positions::Position;
use rc_fixed::{List, NoMemory};
use rc_geom::Key;
use rc_tally::{Entry, Tally};
use std::alloc::Global;

/// An entry for its second net, whose node then stands first.
fn turned(entry: &Entry<u128>, net: u32, node: u32, other: u32, onode: u32) -> Entry<u128>
    requires { entry.now.key ≡ Pair net node other onode }
    ensures { result ≡ turned_about entry.now entry.now.key }
{
    Entry {
        key: Key::Pair {
            net: other,
            node: onode,
            other: net,
            onode: node,
        },
        count: entry.count,
        value: entry.value,
    }
}

/// What an entry is to a net: itself where a node of the net stands first, turned about where one stands second.
fn own(net: u32, entry: &Entry<u128>) -> Option<Entry<u128>>
    ensures { result ≡ own_of net entry.now }
{
    match entry.key {
        Key::Ground { net: first, .. } => { if first == net { Some(*entry) } else { None } }
        Key::Pair {
            net: first,
            node,
            other,
            onode,
        } => {
            if first == net {
                Some(*entry)
            } else if other == net {
                Some(turned(entry, first, node, other, onode))
            } else {
                None
            }
        }
    }
}

/// Appends those of a tally's entries that are a net's.
fn gather_from(
    list: &mut List<Entry<u128>>,
    net: u32,
    entries: &[Entry<u128>],
) -> Result<(), NoMemory>
    ensures { OnOk result (list.new ≡ list.old ++ owned net entries.now) }
{
    for entry in entries {
        push_any(list, own(net, entry))?;
    }
    Ok(())
}

/// The entries that a net has of some of the tallies, in their order.
pub fn gathered(
    alloc: Global,
    net: u32,
    tallies: &[Tally<u128>],
    windows: &[u32],
) -> Result<List<Entry<u128>>, NoMemory>
    requires { All (λ k. k < length tallies.now) windows.now }
    ensures { IfOk result (λ list. list ≡ flat_map (λ k. owned net (slice_index_or tallies.now k [])) windows.now) }
{
    let mut list = List::new(alloc);
    for k in windows {
        gather_from(&mut list, net, tallies[*k as usize].entries())?;
    }
    Ok(list)
}

/// What the entry at a position is to a net. A position without an entry gives none.
fn own_at(net: u32, tallies: &[Tally<u128>], at: Position) -> Option<Entry<u128>>
    ensures { result ≡ own_at_of tallies.now net at }
{
    match tallies.get(at.window as usize) {
        Some(tally) => match tally.entries().get(at.place as usize) {
            Some(entry) => own(net, entry),
            None => None,
        },
        None => None,
    }
}

/// Appends an entry, where there is one.
fn add_any(entries: &mut Vec<Entry<u128>>, own: Option<Entry<u128>>) -> Result<(), NoMemory>
    ensures { OnOk result (entries.new.items ≡ entries.old.items ++ cons_option own []) }
{
    match own {
        Some(entry) => {
            entries.push(entry)?;
            Ok(())
        }
        None => Ok(()),
    }
}

/// Gathers what a net has at some positions, in their order, in place of what the list held.
///
/// # Errors
///
/// `NoMemory` for want of memory.
pub fn gather_at(
    entries: &mut Vec<Entry<u128>>,
    net: u32,
    tallies: &[Tally<u128>],
    positions: &[Position],
) -> Result<(), NoMemory>
    ensures { OnOk result (entries.new.items ≡ owned_at tallies.now net positions.now) }
{
    entries.clear();
    for at in positions {
        add_any(entries, own_at(net, tallies, *at))?;
    }
    Ok(())
}
