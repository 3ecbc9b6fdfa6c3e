//! The tiles of the rows.

use crate::scene::Scene;
use rc_fixed::NoMemory;
use rc_geom::{Key, Rect, Tile};
use rc_tally::Entry;
use std::alloc::Global;
use std::process::Abort;

pub fn rect(x0: i32, y0: i32, x1: i32, y1: i32) -> Rect {
    Rect { x0, y0, x1, y1 }
}

/// A tile of a net and a node on a layer. Its rank is 0.
pub fn tile(net: u32, node: u32, layer: u8, rect: Rect) -> Tile {
    Tile {
        net,
        node,
        layer,
        rect,
        rank: 0,
    }
}

/// The scene of all these tiles.
pub fn scene(rt: &impl Abort, alloc: Global, tiles: &[Tile]) -> Result<Scene, NoMemory> {
    let mut scene = Scene::new(alloc);
    for tile in tiles {
        let added = scene.add(*tile)?;
        assert!(rt; added);
    }
    Ok(scene)
}

/// Two nets of two nodes each side by side: a from (0, 0) to (1000, 0), and b from (0, 200) to (1000, 200), 100 wide.
pub fn two_wires() -> [Tile; 4] {
    [
        tile(0, 1, 0, rect(-50, -50, 500, 50)),
        tile(0, 2, 0, rect(500, -50, 1050, 50)),
        tile(1, 1, 0, rect(-50, 150, 500, 250)),
        tile(1, 2, 0, rect(500, 150, 1050, 250)),
    ]
}

/// Net 0 on the second layer along x, net 1 under it and net 2 over it along y, each of two nodes.
pub fn three_layers() -> [Tile; 6] {
    [
        tile(0, 1, 1, rect(-50, -50, 500, 50)),
        tile(0, 2, 1, rect(500, -50, 1050, 50)),
        tile(1, 1, 0, rect(250, -550, 350, 0)),
        tile(1, 2, 0, rect(250, 0, 350, 550)),
        tile(2, 1, 2, rect(270, -550, 370, 0)),
        tile(2, 2, 2, rect(270, 0, 370, 550)),
    ]
}

pub fn ground(net: u32, node: u32, count: u64, value: u128) -> Entry<u128> {
    Entry {
        key: Key::Ground { net, node },
        count,
        value,
    }
}

pub fn pair(net: u32, node: u32, other: u32, onode: u32, count: u64, value: u128) -> Entry<u128> {
    Entry {
        key: Key::Pair {
            net,
            node,
            other,
            onode,
        },
        count,
        value,
    }
}
