//! How many tiles a net counts against their limit.
ghost use Rattle.std.specs.Prelude.{◌≡◌, ◌≤◌, ◌*◌, ◌^◌, length, IfOk};
ghost use Rattle.std.specs.List.{sum_by};
ghost use Rattle.rc_layout.specs.Items.{is_level as is_level_of, IsItem};
ghost use Rattle.rc_layout.specs.Nets.{IsWellFormed};
ghost use Rattle.rc_nodes.specs.Nodes.{AreInOrder};
ghost use Rattle.rc_nodes.specs.Lines.{AreLined, InLine};
ghost use Rattle.rc_nodes.specs.Counts.{tap_count, tile_count as tile_count_of};

use crate::Node;
use crate::line::{Lines, Tap};
use crate::metal::taps_of;
use rc_fixed::NoMemory;
use rc_layout::{Item, ItemKind, Net};
use std::alloc::Global;

/// What an item of a net that isn't grounded counts.
fn item_count(alloc: Global, item: &Item, rows: &[Tap], columns: &[Tap]) -> Result<usize, NoMemory>
    requires rows { InLine rows.now }
    requires columns { InLine columns.now }
    ensures { IfOk result (λ count. count ≡ tap_count rows.now columns.now item.now) }
{
    if item.kind != ItemKind::Piece {
        return Ok(1);
    }
    let on = taps_of(alloc, item, rows, columns)?;
    Ok(on.len())
}

/// What the items of a net that isn't grounded count.
fn items_count(
    alloc: Global,
    items: &[Item],
    rows: &[Tap],
    columns: &[Tap],
) -> Result<u64, NoMemory>
    requires rows { InLine rows.now }
    requires columns { InLine columns.now }
    requires few_items { length items.now ≤ 2 ^ 22 }
    requires few_rows { length rows.now ≤ 2 ^ 22 }
    requires few_columns { length columns.now ≤ 2 ^ 22 }
    ensures { IfOk result (λ count. count ≡ sum_by (tap_count rows.now columns.now) items.now) }
{
    let mut count: u64 = 0;
    for item in items {
        count += item_count(alloc, item, rows, columns)? as u64;
    }
    Ok(count)
}

/// The same as `tile_count`, where the nodes stand by lines already.
///
/// # Errors
///
/// `NoMemory` for want of memory.
pub fn tile_count_on(
    alloc: Global,
    net: &Net,
    nodes: &[Node],
    lines: &Lines,
) -> Result<u64, NoMemory>
    requires net { IsWellFormed net.now }
    requires order { AreInOrder nodes.now }
    requires few { length nodes.now ≤ 2 ^ 22 }
    requires lines { AreLined nodes.now lines.now }
    ensures { IfOk result (λ count. count ≡ tile_count_of nodes.now net.now.items) }
{
    if nodes.is_empty() {
        return Ok(net.items.len() as u64);
    }
    let count = items_count(alloc, net.items.items(), lines.rows(), lines.columns())?;
    Ok(count)
}

/// How many tiles a net counts against their limit: one for each item of a grounded net, which has no nodes, and for each pad
/// and patch; as many as there are nodes on its centreline for each other piece.
///
/// # Errors
///
/// `NoMemory` for want of memory.
pub fn tile_count(alloc: Global, net: &Net, nodes: &[Node]) -> Result<u64, NoMemory>
    requires net { IsWellFormed net.now }
    requires order { AreInOrder nodes.now }
    requires few { length nodes.now ≤ 2 ^ 22 }
    ensures { IfOk result (λ count. count ≡ tile_count_of nodes.now net.now.items) }
{
    let lines = Lines::new(alloc, nodes)?;
    tile_count_on(alloc, net, nodes, &lines)
}
