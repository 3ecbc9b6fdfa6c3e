//! The nodes and the tiles of all nets, within their limits.

ghost use Rattle.std.specs.Prelude.{◌≡◌, ◌<◌, ◌≤◌, ◌^◌, ◌+◌, ◌++◌, All, Some, IfOk, IfErr, OnOk, length, map, slice_get};
ghost use Rattle.rc_layout.specs.Nets.{IsWellFormed};
ghost use Rattle.rc_nodes.specs.Nodes.{nodes_of, AreInOrder};
ghost use Rattle.rc_nodes.specs.Counts.{tile_count as tile_count_of};
ghost use Rattle.rc_nodes.specs.Shares.{net_tiles};
ghost use Rattle.rc_nodes.specs.LayoutPlane.{drawn_nets};
ghost use Rattle.rc_engine.specs.Start.{node_count, tile_total};
ghost use Rattle.rc_engine.specs.Measured.{AreNodeLists, AreTilesWithin, HaveTooManyNodes, HasTooManyTiles, IsDrawn};

use rc_fixed::{List, NoMemory};
use rc_geom::Tile;
use rc_keys::{Fault, Quantity, Refusal};
use rc_layout::{Layout, Net};
use rc_nodes::{Lines, Node, nodes, tile_count_on, tiles_on};
use std::alloc::Global;

/// How many nodes all nets have at most.
pub const MOST_NODES: u32 = 4_194_304;

/// How many tiles all nets count at most.
const MOST_TILES: u64 = 8_388_608;

/// The nodes of nets, and how many there are.
#[derive(Drop)]
pub struct NodeLists {
    pub lists: List<List<Node>>,
    pub count: u32,
}

/// The tiles of all nets, and how many they count against their limit.
#[derive(Drop)]
pub struct CountedTiles {
    pub tiles: List<Tile>,
    pub count: u64,
}

/// The nodes of all nets, in the order of their numbers.
///
/// # Errors
///
/// `Limit { Nodes }` exactly where there are more than 2^22; `NoMemory` for want of memory.
pub fn node_lists(alloc: Global, nets: &[Net]) -> Result<NodeLists, Fault>
    requires { All IsWellFormed nets.now }
    ensures lists { IfOk result (λ nodes. AreNodeLists nets.now nodes.lists) }
    ensures count { IfOk result (λ nodes. nodes.count ≡ node_count nets.now) }
    ensures fault { IfErr result (HaveTooManyNodes nets.now) }
{
    let mut lists = List::with_capacity(alloc, nets.len())?;
    let mut room = MOST_NODES;
    for net in nets {
        let list = match nodes(alloc, net, room) {
            Ok(list) => list,
            Err(fault) => return Err(fault),
        };
        room -= list.len() as u32;
        lists.push(list)?;
    }
    Ok(NodeLists {
        lists,
        count: MOST_NODES - room,
    })
}

/// Appends the tiles of a net to those that count so many, and answers how many all of them count.
pub fn add_tiles(
    alloc: Global,
    tiles: &mut List<Tile>,
    count: u64,
    number: u32,
    net: &Net,
    nodes: &[Node],
) -> Result<u64, Fault>
    requires net { IsWellFormed net.now }
    requires order { AreInOrder nodes.now }
    requires few { length nodes.now ≤ 2 ^ 22 }
    requires drawn { IsDrawn net.now nodes.now }
    requires count { count ≤ 2 ^ 23 }
    ensures tiles { OnOk result (tiles.new ≡ tiles.old ++ net_tiles number nodes.now net.now.items) }
    ensures count { IfOk result (λ all. all ≡ count + tile_count_of nodes.now net.now.items) }
    ensures within { IfOk result (λ all. all ≤ 2 ^ 23) }
    ensures least { OnOk result (length (net_tiles number nodes.now net.now.items) ≤ tile_count_of nodes.now net.now.items) }
    ensures fault { IfErr result (HasTooManyTiles count (tile_count_of nodes.now net.now.items)) }
{
    let lines = Lines::new(alloc, nodes)?;
    let more = tile_count_on(alloc, net, nodes, &lines)?;
    if more > MOST_TILES - count {
        return Err(Fault::Refused(Refusal::Limit {
            what: Quantity::Tiles,
        }));
    }
    let mut own = tiles_on(alloc, number, net, nodes, &lines)?;
    tiles.append(&mut own)?;
    Ok(count + more)
}

/// A net by its number, grounded ones last, and its nodes; a grounded one has none.
fn drawn<'a>(layout: &'a Layout, lists: &'a [List<Node>], number: u32) -> (&'a Net, &'a [Node])
    requires lists { AreNodeLists layout.now.nets lists.now }
    requires number { number < length (drawn_nets layout.now) }
    ensures at { slice_get (drawn_nets layout.now) number ≡ Some (record { number = number; nodes = result.1.now; items = result.0.now.items }) }
    ensures net { IsWellFormed result.0.now }
    ensures order { AreInOrder result.1.now }
    ensures few { length result.1.now ≤ 2 ^ 22 }
    ensures drawn { IsDrawn result.0.now result.1.now }
{
    layout.facts();
    let nets = layout.nets();
    let place = number as usize;
    if place < nets.len() {
        (&nets[place], lists[place].items())
    } else {
        (&layout.grounded()[place - nets.len()], &[])
    }
}

/// The tiles of all nets, by the nodes of those that aren't grounded.
///
/// # Errors
///
/// `Limit { Tiles }` exactly where they count more than 2^23; `NoMemory` for want of memory.
pub fn all_tiles(
    alloc: Global,
    layout: &Layout,
    lists: &[List<Node>],
) -> Result<CountedTiles, Fault>
    requires { AreNodeLists layout.now.nets lists.now }
    ensures tiles { IfOk result (λ counted. AreTilesWithin (drawn_nets layout.now) counted.tiles) }
    ensures count { IfOk result (λ counted. counted.count ≡ tile_total (drawn_nets layout.now)) }
    ensures fault { IfErr result (HasTooManyTiles 0 (tile_total (drawn_nets layout.now))) }
{
    layout.facts();
    let mut tiles = List::with_capacity(alloc, layout.shapes() as usize)?;
    let mut count = 0;
    for number in 0..(layout.nets().len() + layout.grounded().len()) as u32 {
        let (net, nodes) = drawn(layout, lists, number);
        count = match add_tiles(alloc, &mut tiles, count, number, net, nodes) {
            Ok(count) => count,
            Err(fault) => return Err(fault),
        };
    }
    Ok(CountedTiles { tiles, count })
}
