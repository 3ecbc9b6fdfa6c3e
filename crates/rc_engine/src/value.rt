//! The values of nets, from the sums of all windows.

ghost use Rattle.std.specs.Prelude.{◌≡◌, ◌<◌, All, IfOk, IfSome, length, map, slice_get};
ghost use Rattle.rc_nodes.specs.Nodes.{nodes_of};
ghost use Rattle.rc_engine.specs.Brought.{entries_of, owned, owned_at, ArePositions};
ghost use Rattle.rc_engine.specs.Extraction.{net_value as net_value_of, numbered_nets};
ghost use Rattle.rc_engine.specs.Names.{numbering_of};
ghost use Rattle.rc_engine.specs.Totals.{AreSums, AreSumsOfNet};

use crate::cap::capacitances;
use crate::gather::gather_at;
use crate::naming::Naming;
use crate::net::net_of;
use crate::positions::Position;
use rc_fixed::{List, NoMemory};
use rc_layout::Layout;
use rc_nodes::Node;
use rc_rules::Rules;
use rc_spef::DNet;
use rc_tally::{Entry, Tally};
use std::alloc::Global;

/// A net's value, from what all windows have for it. The entries come to stand in order.
///
/// # Errors
///
/// `NoMemory` for want of memory.
pub fn value_from(
    alloc: Global,
    layout: &Layout,
    rules: &Rules,
    naming: &Naming,
    nodes: &[List<Node>],
    number: u32,
    entries: &mut [Entry<u128>],
) -> Result<DNet, NoMemory>
    requires number { number < length layout.now.nets }
    requires naming { naming.now ≡ numbering_of layout.now }
    requires nodes { nodes.now ≡ map nodes_of layout.now.nets }
    requires sums { AreSumsOfNet layout.now rules.now number entries.old }
    ensures { IfOk result (λ of. IfSome (slice_get layout.now.nets number) (λ net. of ≡ net_value_of layout.now rules.now (number, net))) }
{
    layout.facts();
    let place = number as usize;
    let net = &layout.nets()[place];
    let own_nodes = nodes[place].items();
    let caps = capacitances(alloc, entries)?;
    net_of(alloc, layout, rules, naming, number, net, own_nodes, caps)
}

/// A net's value, from the positions of its entries in the tallies of all windows. The list is where the entries are gathered; what it
/// held before is dropped.
///
/// # Errors
///
/// `NoMemory` for want of memory.
pub fn value_at(
    alloc: Global,
    layout: &Layout,
    rules: &Rules,
    naming: &Naming,
    nodes: &[List<Node>],
    tallies: &[Tally<u128>],
    number: u32,
    positions: &[Position],
    entries: &mut Vec<Entry<u128>>,
) -> Result<DNet, NoMemory>
    requires number { number < length layout.now.nets }
    requires naming { naming.now ≡ numbering_of layout.now }
    requires nodes { nodes.now ≡ map nodes_of layout.now.nets }
    requires sums { AreSums layout.now rules.now tallies.now }
    requires positions { owned_at tallies.now number positions.now ≡ owned number (entries_of tallies.now) }
    ensures { IfOk result (λ of. IfSome (slice_get layout.now.nets number) (λ net. of ≡ net_value_of layout.now rules.now (number, net))) }
{
    gather_at(entries, number, tallies, positions)?;
    value_from(alloc, layout, rules, naming, nodes, number, entries)
}

/// The values of all nets, from the positions of the entries of each.
///
/// # Errors
///
/// `NoMemory` for want of memory.
pub fn values_of(
    alloc: Global,
    layout: &Layout,
    rules: &Rules,
    naming: &Naming,
    nodes: &[List<Node>],
    tallies: &[Tally<u128>],
    lists: &[List<Position>],
) -> Result<List<DNet>, NoMemory>
    requires naming { naming.now ≡ numbering_of layout.now }
    requires nodes { nodes.now ≡ map nodes_of layout.now.nets }
    requires sums { AreSums layout.now rules.now tallies.now }
    requires count { length lists.now ≡ length layout.now.nets }
    requires positions { ArePositions tallies.now lists.now (entries_of tallies.now) }
    ensures { IfOk result (λ nets. nets ≡ map (net_value_of layout.now rules.now) (numbered_nets layout.now)) }
{
    layout.facts();
    let mut values = List::with_capacity(alloc, lists.len())?;
    let mut entries = Vec::new(alloc);
    let mut number = 0;
    for own in lists {
        let value = value_at(
            alloc,
            layout,
            rules,
            naming,
            nodes,
            tallies,
            number,
            own.items(),
            &mut entries,
        )?;
        values.push(value)?;
        number += 1;
    }
    Ok(values)
}
