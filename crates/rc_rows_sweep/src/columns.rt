//! Columns: their runs, faces and context, and what tiles that come and go change.

use crate::scene::{Scene, alike};
use crate::tiles::{rect, scene, three_layers, tile, two_wires};
use rc_column::{Edits, Face, Mark, Run, Stack};
use rc_geom::Tile;
use std::alloc::Global;
use std::process::Abort;
use std::test::Fail;

/// Both columns have the same runs on all layers.
fn same_runs(rt: &impl Abort, a: &Stack, b: &Stack, what: usize) {
    for layer in 0..32 {
        assert_eq!(rt; a.runs(layer), b.runs(layer), "layer {layer} of {what}");
    }
}

/// The column of all tiles of a scene but the one at that place.
fn column_without(
    rt: &impl Abort,
    alloc: Global,
    tiles: &[Tile],
    left_out: usize,
) -> Result<Stack, Fail> {
    let mut shorter = Vec::new(alloc);
    for (i, tile) in tiles.iter().enumerate() {
        if i != left_out {
            shorter.push(*tile)?;
        }
    }
    let rest = scene(rt, alloc, &shorter)?;
    Ok(Stack::build::<0>(alloc, rest.tiles(), 0, &mut Edits::new())?)
}

/// A tile that goes out and comes in again leaves the column of the shorter list, and then that of all.
fn goes_and_comes(rt: &impl Abort, alloc: Global, all: &Scene, at: usize) -> Result<(), Fail> {
    let tiles = all.tiles();
    if tiles.len() <= at {
        return Ok(());
    }
    let shorter = column_without(rt, alloc, tiles, at)?;
    let mut edits = Edits::new();
    let whole = Stack::build::<0>(alloc, tiles, 0, &mut edits)?;
    let mut changed = Stack::build::<0>(alloc, tiles, 0, &mut edits)?;
    changed.remove(&tiles[at], &mut edits)?;
    same_runs(rt, &changed, &shorter, at);
    changed.insert(&tiles[at], &mut edits)?;
    same_runs(rt, &changed, &whole, at);
    assert_eq!(rt; edits.count(), 2 * tiles.len() as u64 + 2);
    Ok(())
}

/// The column at 0 moved to 49 has the runs of the one that is built there, and no edit was made.
fn moves_along(rt: &impl Abort, alloc: Global, all: &Scene) -> Result<(), Fail> {
    let tiles = all.tiles();
    let mut edits = Edits::new();
    let mut column = Stack::build::<0>(alloc, tiles, 0, &mut edits)?;
    let there = Mark { axis: 0, at: 49 };
    assert!(rt; alike(tiles, column.line(), there));
    column.shift(49);
    assert_eq!(rt; edits.count(), 6);
    same_runs(
        rt,
        &column,
        &Stack::build::<0>(alloc, tiles, 49, &mut edits)?,
        49,
    );
    Ok(())
}

#[test]
fn context_and_tiles_that_come_and_go(rt: HostRuntime) -> Result<(), Fail> {
    let alloc = rt.alloc();
    let all = scene(&rt, alloc, &three_layers())?;
    let column = Stack::build::<0>(alloc, all.tiles(), 0, &mut Edits::new())?;
    let contexts = [
        (260, (Some(0u8), None)),
        (300, (Some(0), Some(2u8))),
        (360, (None, Some(2))),
        (400, (None, None)),
    ];
    for (at, want) in contexts {
        assert_eq!(rt; column.context(1, at), want, "at {at}");
    }
    for at in 0..6usize {
        goes_and_comes(&rt, alloc, &all, at)?;
    }
    moves_along(&rt, alloc, &all)
}

/// Of three tiles of one net over the same squares, without one of them, the one of least rank shows.
fn least_rank_shows(
    rt: &impl Abort,
    alloc: Global,
    left_out: usize,
    node: u32,
) -> Result<(), Fail> {
    let square = rect(0, 0, 10, 10);
    let ranked = [
        tile(7, 1, 4, square),
        Tile {
            rank: 1,
            ..tile(7, 2, 4, square)
        },
        Tile {
            rank: 2,
            ..tile(7, 3, 4, square)
        },
    ];
    let one = scene(rt, alloc, &ranked)?;
    let tiles = one.tiles();
    let mut edits = Edits::new();
    let mut column = Stack::build::<1>(alloc, tiles, 9, &mut edits)?;
    if left_out < tiles.len() {
        column.remove(&tiles[left_out], &mut edits)?;
    }
    let want = [Run {
        lo: 0,
        hi: 10,
        net: 7,
        node,
    }];
    assert_eq!(rt;
        column.runs(4),
        want.as_slice(),
        "without the tile at {left_out}"
    );
    Ok(())
}

/// A face of net 0 or 1 and node 1, at a square that begins at `lo`, 100 thick, and the net that it sees.
fn face(net: u32, lo: i32, up: bool, gap: Option<u32>, onet: u32) -> Face {
    Face {
        lo,
        hi: lo.wrapping_add(1),
        net,
        node: 1,
        up,
        thick: 100,
        gap,
        onet,
        onode: u32::from(gap.is_some()),
    }
}

/// Two wires 100 apart, from below: which gap their ends see at that reach.
fn wires_see(rt: &impl Abort, alloc: Global, reach: u32, gap: Option<u32>) -> Result<(), Fail> {
    let wires = scene(rt, alloc, &two_wires())?;
    let column = Stack::build::<1>(alloc, wires.tiles(), 0, &mut Edits::new())?;
    let want = [
        face(0, -50, false, None, 0),
        face(0, 49, true, gap, u32::from(gap.is_some())),
        face(1, 150, false, gap, 0),
        face(1, 249, true, None, 0),
    ];
    let found = column.faces(0, 200, reach)?;
    assert_eq!(rt; found.items(), want.as_slice(), "reach {reach}");
    assert_eq!(rt; column.faces(1, 200, reach)?.len(), 0);
    Ok(())
}

/// Two pieces of one net, the upper one from `low`, and one of another net above: how many faces there are, and which gap
/// the end of the lower piece sees before its own net.
fn pieces_see(
    rt: &impl Abort,
    alloc: Global,
    low: i32,
    faces: usize,
    gap: Option<u32>,
) -> Result<(), Fail> {
    let pieces = [
        tile(0, 1, 0, rect(0, -50, 10, 50)),
        Tile {
            rank: 1,
            ..tile(0, 1, 0, rect(0, low, 10, 200))
        },
        tile(1, 1, 0, rect(0, 300, 10, 400)),
    ];
    let net = scene(rt, alloc, &pieces)?;
    let column = Stack::build::<1>(alloc, net.tiles(), 5, &mut Edits::new())?;
    let found = column.faces(0, 200, 300)?;
    assert_eq!(rt; found.len(), faces, "from {low}");
    for face in found.items() {
        if face.lo == 49 {
            assert_eq!(rt; face.gap, gap, "from {low}");
            assert_eq!(rt; face.onet, 0, "from {low}");
        }
    }
    Ok(())
}

#[test]
fn runs_and_faces(rt: HostRuntime) -> Result<(), Fail> {
    let alloc = rt.alloc();
    for (left_out, node) in [(0usize, 2u32), (1, 1), (2, 1)] {
        least_rank_shows(&rt, alloc, left_out, node)?;
    }
    for (reach, gap) in [(300u32, Some(100u32)), (100, Some(100)), (99, None)] {
        wires_see(&rt, alloc, reach, gap)?;
    }
    // an end sees its own net and no further; where pieces touch there is no face
    for (low, faces, gap) in [
        (150, 6usize, Some(100u32)),
        (51, 6, Some(1)),
        (50, 4, None),
        (0, 4, None),
    ] {
        pieces_see(&rt, alloc, low, faces, gap)?;
    }
    Ok(())
}
