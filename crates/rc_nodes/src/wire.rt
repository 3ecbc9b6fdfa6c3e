//! The wires between neighbouring nodes of a net.
ghost use Rattle.std.specs.Prelude.{◌≡◌, ◌≤◌, ◌<◌, ◌+◌, ◌^◌, ◌++◌, ◌∷◌, drop, length, slice_index_or, if◌then◌else◌, filter, All, IfOk, OnOk};
ghost use Rattle.std.specs.List.{flat_map};
ghost use Rattle.std.specs.List.Sorted.{IsSorted};
ghost use Rattle.rc_layout.specs.Items.{IsItem, is_level as is_level_of};
ghost use Rattle.rc_nodes.specs.Nodes.{AreInOrder};
ghost use Rattle.rc_nodes.specs.declared.line.Tap.{Tap};
ghost use Rattle.rc_nodes.specs.declared.wire.Wire.{Wire};
ghost use Rattle.rc_nodes.specs.Lines.{AreLined, InLine};
ghost use Rattle.rc_nodes.specs.Wires.{segment_to, segments, item_segments, is_end as is_end_of, widest as widest_of, wires_of};

use crate::Node;
use crate::line::{Lines, Tap};
use crate::metal::taps_of;
use rc_fixed::{List, NoMemory};
use rc_layout::{Item, ItemKind};
use std::alloc::Global;

/// The metal between two neighbouring nodes on a centreline, by their numbers, the lower first, and its greatest width.
#[derive(Clone, Copy, Debug, PartialEq, Eq, PartialOrd, Ord)]
pub struct Wire {
    pub lower: u32,
    pub upper: u32,
    pub width: i32,
}

/// Adds the wire from the tap at `k` to the next, where there is one.
fn add_segment(wires: &mut Vec<Wire>, item: &Item, taps: &[Tap], k: usize) -> Result<(), NoMemory>
    requires { k < length taps.now }
    ensures { OnOk result ((d : Tap) → wires.new.items ≡ wires.old.items ++ segment_to item.now.width (slice_index_or taps.now k d) (drop (k + 1) taps.now)) }
{
    if k + 1 < taps.len() {
        wires.push(Wire {
            lower: taps[k].node,
            upper: taps[k + 1].node,
            width: item.width,
        })?;
    }
    Ok(())
}

/// Adds the wires of one piece, from each node on its centreline to the next.
fn add_segments(wires: &mut Vec<Wire>, item: &Item, taps: &[Tap]) -> Result<(), NoMemory>
    ensures { OnOk result (wires.new.items ≡ wires.old.items ++ segments item.now.width taps.now) }
{
    for k in 0..taps.len() {
        add_segment(wires, item, taps, k)?;
    }
    Ok(())
}

/// Adds the wires of an item, which has none unless it is a piece.
fn add_item_segments(
    alloc: Global,
    wires: &mut Vec<Wire>,
    item: &Item,
    rows: &[Tap],
    columns: &[Tap],
) -> Result<(), NoMemory>
    requires rows { InLine rows.now }
    requires columns { InLine columns.now }
    ensures { OnOk result (wires.new.items ≡ wires.old.items ++ item_segments rows.now columns.now item.now) }
{
    if item.kind != ItemKind::Piece {
        return Ok(());
    }
    let on = taps_of(alloc, item, rows, columns)?;
    add_segments(wires, item, on.as_slice())
}

/// The wires of all pieces, one after another.
fn all_segments(
    alloc: Global,
    items: &[Item],
    rows: &[Tap],
    columns: &[Tap],
) -> Result<Vec<Wire>, NoMemory>
    requires rows { InLine rows.now }
    requires columns { InLine columns.now }
    ensures { IfOk result (λ wires. wires.items ≡ flat_map (item_segments rows.now columns.now) items.now) }
{
    let mut wires = Vec::new(alloc);
    for item in items {
        add_item_segments(alloc, &mut wires, item, rows, columns)?;
    }
    Ok(wires)
}

/// Whether the wire at `k` is the last of those between its nodes.
fn is_end(wires: &[Wire], k: usize) -> bool
    requires { k < length wires.now }
    ensures { (d : Wire) → result ≡ is_end_of (slice_index_or wires.now k d) (drop (k + 1) wires.now) }
{
    if k + 1 < wires.len() {
        wires[k].lower != wires[k + 1].lower || wires[k].upper != wires[k + 1].upper
    } else {
        true
    }
}

/// Of sorted wires the widest between each two nodes.
fn widest(alloc: Global, wires: &[Wire]) -> Result<List<Wire>, NoMemory>
    ensures { IfOk result (λ kept. kept ≡ widest_of wires.now) }
{
    let mut kept = List::new(alloc);
    for k in 0..wires.len() {
        if is_end(wires, k) {
            kept.push(wires[k])?;
        }
    }
    Ok(kept)
}

/// The wires of a net's items: one for each two nodes on a line with no node between them where a piece runs over both, with
/// the greatest width of such pieces, by the lower and then by the upper node.
pub fn wires(
    alloc: Global,
    items: &[Item],
    nodes: &[Node],
    lines: &Lines,
) -> Result<List<Wire>, NoMemory>
    requires items { All IsItem items.now }
    requires order { AreInOrder nodes.now }
    requires lines { AreLined nodes.now lines.now }
    ensures { IfOk result (λ wires. wires ≡ wires_of items.now nodes.now) }
{
    let mut all = all_segments(alloc, items, lines.rows(), lines.columns())?;
    all.sort_unstable();
    let kept = widest(alloc, &all)?;
    Ok(kept)
}
