//! Rows of edits: the lists of tiles of the windows, and how an edit changes them.

use crate::grids::{CHIP, LONG, rect};
use rc_fixed::List;
use rc_geom::{Rect, Tile};
use rc_windows::{Grid, Index};
use std::process::Abort;
use std::test::Fail;

/// A tile of a net and a node on the first layer.
pub fn tile(net: u32, node: u32, rect: Rect) -> Tile {
    Tile {
        net,
        node,
        layer: 0,
        rect,
        rank: 0,
    }
}

/// The nets and nodes of each window's tiles.
type Nodes<'a> = &'a [&'a [(u32, u32)]];

/// Each list has just the tiles of those nodes, in this order.
fn have(rt: &impl Abort, what: &str, lists: &[List<Tile>], nodes: Nodes<'_>) {
    assert_eq!(rt; lists.len(), nodes.len(), "{what}");
    for (k, (list, want)) in lists.iter().zip(nodes).enumerate() {
        assert_eq!(rt; list.len(), want.len(), "{what}, list {k}");
        for (tile, node) in list.items().iter().zip(*want) {
            assert_eq!(rt; (tile.net, tile.node), *node, "{what}, list {k}");
        }
    }
}

/// A net from (0, 0) to (12000, 0), and one from (0, 200) to (1000, 200), which comes to go to (1400, 200). Its new tiles
/// have the nodes 3 and 4, so that they are told from the old ones.
#[test]
fn lists_of_windows(rt: HostRuntime) -> Result<(), Fail> {
    let alloc = rt.alloc();
    let grid = Grid::new(Some(LONG), 301);
    let tiles = [
        tile(0, 1, rect(-50, -50, 6000, 50)),
        tile(0, 2, rect(6000, -50, 12_050, 50)),
        tile(1, 1, rect(-50, 150, 500, 250)),
        tile(1, 2, rect(500, 150, 1050, 250)),
    ];
    let longer = [
        tile(1, 3, rect(-50, 150, 700, 250)),
        tile(1, 4, rect(700, 150, 1450, 250)),
    ];
    let first: &[(u32, u32)] = &[(0, 1)];
    let both: &[(u32, u32)] = &[(0, 1), (0, 2)];
    let last: &[(u32, u32)] = &[(0, 2)];
    let before: Nodes<'_> = &[
        &[(0, 1), (1, 1), (1, 2)],
        &[(0, 1), (1, 2)],
        first,
        first,
        both,
        both,
        last,
        last,
        last,
        last,
        last,
    ];
    let after: Nodes<'_> = &[
        &[(0, 1), (1, 3), (1, 4)],
        &[(0, 1), (1, 4)],
        first,
        first,
        both,
        both,
        last,
        last,
        last,
        last,
        last,
    ];
    let mut index = Index::new(alloc, &grid, &tiles)?;
    have(&rt, "the index", index.lists(), before);
    let all = [0, 1, 2, 3, 4, 5, 6, 7, 8, 9, 10];
    let without = index.changed(&grid, &all, 0, &[])?;
    let others: Nodes<'_> = &[
        &[(1, 1), (1, 2)],
        &[(1, 2)],
        &[],
        &[],
        &[],
        &[],
        &[],
        &[],
        &[],
        &[],
        &[],
    ];
    have(&rt, "a net taken out", without.items(), others);
    let second = index.changed(&grid, &[1], 1, &longer)?;
    have(
        &rt,
        "one of the windows",
        second.items(),
        &[&[(0, 1), (1, 4)]],
    );
    let touched = index.changed(&grid, &[0, 1], 1, &longer)?;
    have(
        &rt,
        "the touched windows",
        touched.items(),
        &[&[(0, 1), (1, 3), (1, 4)], &[(0, 1), (1, 4)]],
    );
    have(&rt, "the index as it was", index.lists(), before);
    index.put(&[0, 1], touched);
    have(&rt, "the index after the edit", index.lists(), after);
    Ok(())
}

/// Few tiles can ask for more places than any machine holds; that is refused before memory is taken.
#[test]
fn too_many_places(rt: HostRuntime) -> Result<(), Fail> {
    let grid = Grid::new(Some(CHIP), 1);
    assert_eq!(rt; grid.count(), 1 << 20);
    let tiles = [tile(0, 1, CHIP); 129];
    assert!(rt; Index::new(rt.alloc(), &grid, &tiles).is_err());
    let index = Index::new(rt.alloc(), &grid, &tiles[..1])?;
    assert!(rt; index.changed(&grid, &[7], 0, &tiles).is_err());
    Ok(())
}
