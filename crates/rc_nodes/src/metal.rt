//! The metal of a net as tiles.
ghost use Rattle.std.specs.Prelude.{◌≡◌, ◌<◌, ◌≤◌, ◌^◌, ◌++◌, [], true, false, All, length, filter, if◌then◌else◌, IfOk, OnOk};
ghost use Rattle.rc_geom.specs.Plane.{plane_of, RanksDiffer};
ghost use Rattle.rc_layout.specs.Items.{IsItem, is_level as is_level_of};
ghost use Rattle.rc_layout.specs.Nets.{IsWellFormed, IsTied};
ghost use Rattle.rc_nodes.specs.Nodes.{AreInOrder, nodes_of};
ghost use Rattle.rc_nodes.specs.NetPlane.{net_plane};
ghost use Rattle.rc_nodes.specs.Lines.{AreLined, AreTaps, InLine, lies_on};
ghost use Rattle.rc_nodes.specs.Counts.{tile_count};
ghost use Rattle.rc_nodes.specs.Shares.{tap_tiles, net_tiles, AreGrounded, IsTileOf, LiesInItem};

use crate::Node;
use crate::line::{Lines, Tap, Taps, is_level, taps_on};
use crate::share::add_tiles;
use rc_fixed::{List, NoMemory};
use rc_geom::Tile;
use rc_layout::{Item, Net};
use std::alloc::Global;

/// The taps on the centreline of an item.
pub fn taps_of(alloc: Global, item: &Item, rows: &[Tap], columns: &[Tap]) -> Result<Taps, NoMemory>
    requires rows { InLine rows.now }
    requires columns { InLine columns.now }
    ensures { IfOk result (λ on. on.items ≡ filter (lies_on item.now) (if is_level_of item.now then rows.now else columns.now)) }
{
    if is_level(item) {
        taps_on(alloc, item, rows)
    } else {
        taps_on(alloc, item, columns)
    }
}

/// Adds the tiles of an item, for the nodes of these rows and columns.
fn add_item(
    alloc: Global,
    tiles: &mut List<Tile>,
    net: u32,
    rank: u32,
    item: &Item,
    rows: &[Tap],
    columns: &[Tap],
) -> Result<(), NoMemory>
    requires item { IsItem item.now }
    requires rows { InLine rows.now }
    requires columns { InLine columns.now }
    ensures { OnOk result (tiles.new ≡ tiles.old ++ tap_tiles net rank item.now (filter (lies_on item.now) (if is_level_of item.now then rows.now else columns.now))) }
{
    let on = taps_of(alloc, item, rows, columns)?;
    add_tiles(tiles, net, rank, item, on.as_slice())
}

/// The tiles of all items, for the nodes of these rows and columns.
fn all_tiles(
    alloc: Global,
    number: u32,
    items: &[Item],
    nodes: &[Node],
    rows: &[Tap],
    columns: &[Tap],
) -> Result<List<Tile>, NoMemory>
    requires items { All IsItem items.now }
    requires few_items { length items.now ≤ 2 ^ 22 }
    requires order { AreInOrder nodes.now }
    requires rows { AreTaps true nodes.now rows.now }
    requires columns { AreTaps false nodes.now columns.now }
    ensures { IfOk result (λ tiles. tiles ≡ net_tiles number nodes.now items.now) }
{
    let mut tiles = List::new(alloc);
    for rank in 0..items.len() as u32 {
        add_item(
            alloc,
            &mut tiles,
            number,
            rank,
            &items[rank as usize],
            rows,
            columns,
        )?;
    }
    Ok(tiles)
}

/// The same as `tiles`, where the nodes stand by lines already.
///
/// # Errors
///
/// `NoMemory` for want of memory.
pub fn tiles_on(
    alloc: Global,
    number: u32,
    net: &Net,
    nodes: &[Node],
    lines: &Lines,
) -> Result<List<Tile>, NoMemory>
    requires net { IsWellFormed net.now }
    requires order { AreInOrder nodes.now }
    requires lines { AreLined nodes.now lines.now }
    ensures list { IfOk result (λ tiles. tiles ≡ net_tiles number nodes.now net.now.items) }
    ensures plane { IfOk result (λ tiles. plane_of tiles ≡ net_plane number nodes.now net.now.items) }
    ensures ranks { IfOk result RanksDiffer }
    ensures form { IfOk result (All (IsTileOf number)) }
    ensures items { IfOk result (All (LiesInItem net.now.items)) }
    ensures grounded { nodes.now ≡ [] → IfOk result (AreGrounded net.now.items) }
    ensures few { IsTied net.now → nodes.now ≡ nodes_of net.now → IfOk result (λ tiles. length tiles ≤ tile_count nodes.now net.now.items) }
{
    let items = net.items.items();
    let tiles = all_tiles(alloc, number, items, nodes, lines.rows(), lines.columns())?;
    Ok(tiles)
}

/// The metal of a net as tiles, each of one node; without nodes the net is grounded, and its tiles have node 0.
///
/// Each unit square of the net is its own by the first item that covers it: the tile of least rank over the square has the
/// node on that item's centreline that is nearest along the item's axis. A tile lies in the item at the place that its rank
/// tells, and stands only where it has squares. An item without nodes makes one tile; a tied net makes at most as many as
/// `tile_count` counts.
///
/// # Errors
///
/// `NoMemory` for want of memory.
pub fn tiles(alloc: Global, number: u32, net: &Net, nodes: &[Node]) -> Result<List<Tile>, NoMemory>
    requires net { IsWellFormed net.now }
    requires order { AreInOrder nodes.now }
    requires few { length nodes.now ≤ 2 ^ 22 }
    ensures list { IfOk result (λ tiles. tiles ≡ net_tiles number nodes.now net.now.items) }
    ensures plane { IfOk result (λ tiles. plane_of tiles ≡ net_plane number nodes.now net.now.items) }
    ensures ranks { IfOk result RanksDiffer }
    ensures form { IfOk result (All (IsTileOf number)) }
    ensures items { IfOk result (All (LiesInItem net.now.items)) }
    ensures grounded { nodes.now ≡ [] → IfOk result (AreGrounded net.now.items) }
    ensures few { IsTied net.now → nodes.now ≡ nodes_of net.now → IfOk result (λ tiles. length tiles ≤ tile_count nodes.now net.now.items) }
{
    let lines = Lines::new(alloc, nodes)?;
    tiles_on(alloc, number, net, nodes, &lines)
}
