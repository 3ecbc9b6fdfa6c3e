//! The sums of windows by the table, and of windows side by side.

use crate::rates::RowRates;
use crate::scene::{is_window, merged, swept};
use crate::tiles::{ground, pair, rect, scene, three_layers, tile, two_wires};
use rc_geom::{Rect, Tile, grow, meets};
use rc_sweep::{CountMeter, Meter};
use rc_tally::{Entry, Tally};
use std::alloc::Global;
use std::process::Abort;
use std::test::Fail;

const TABLE: RowRates = RowRates { by_digits: false };

/// The sums of one axis.
fn sums(
    rt: &impl Abort,
    alloc: Global,
    tiles: &[Tile],
    axis: usize,
    area: &Rect,
) -> Result<(Tally<u128>, u64), Fail> {
    let all = scene(rt, alloc, tiles)?;
    assert!(rt; is_window(area));
    if axis == 0 {
        Ok(swept::<0>(alloc, all.tiles(), &TABLE, area)?)
    } else {
        Ok(swept::<1>(alloc, all.tiles(), &TABLE, area)?)
    }
}

/// What a key of one node, and one of two, has: its nodes, its count, and its value.
type NodeRow = (u32, u32, u64, u128);

type PairRow = (u32, u32, u32, u32, u64, u128);

/// Tiles, and what an axis of their window adds up to.
#[derive(Drop)]
struct Row<'a> {
    what: &'a str,
    tiles: &'a [Tile],
    axis: usize,
    nodes: &'a [NodeRow],
    pairs: &'a [PairRow],
}

/// The entries of a row, by rising keys.
fn entries(alloc: Global, row: &Row<'_>) -> Result<Vec<Entry<u128>>, Fail> {
    let mut entries = Vec::new(alloc);
    for (net, node, count, value) in row.nodes {
        entries.push(ground(*net, *node, *count, *value))?;
    }
    for (net, node, other, onode, count, value) in row.pairs {
        entries.push(pair(*net, *node, *other, *onode, *count, *value))?;
    }
    Ok(entries)
}

/// The sweep has just the entries of the row, with at most two edits a tile.
fn meets_row(rt: &impl Abort, alloc: Global, row: &Row<'_>) -> Result<(), Fail> {
    let area = rect(-600, -600, 1100, 600);
    let (tally, edits) = sums(rt, alloc, row.tiles, row.axis, &area)?;
    let want = entries(alloc, row)?;
    assert_eq!(rt; tally.entries(), want.as_slice(), "{}", row.what);
    assert!(rt; edits <= 2 * row.tiles.len() as u64, "{}", row.what);
    Ok(())
}

/// Two wires 100 apart, and two overlapping tiles of one net.
fn one_layer(rt: &impl Abort, alloc: Global) -> Result<(), Fail> {
    let wires = two_wires();
    let pads = [
        tile(0, 1, 0, rect(0, 0, 100, 100)),
        Tile {
            rank: 1,
            ..tile(0, 2, 0, rect(50, 0, 150, 100))
        },
    ];
    let rows = [
        Row {
            what: "two wires, down and up",
            tiles: &wires,
            axis: 1,
            nodes: &[
                (0, 1, 1100, 22000),
                (0, 2, 1100, 22000),
                (1, 1, 1100, 22000),
                (1, 2, 1100, 22000),
            ],
            pairs: &[(0, 1, 1, 1, 1100, 22000), (0, 2, 1, 2, 1100, 22000)],
        },
        Row {
            what: "two wires, left and right",
            tiles: &wires,
            axis: 0,
            nodes: &[
                (0, 1, 100, 4000),
                (0, 2, 100, 4000),
                (1, 1, 100, 4000),
                (1, 2, 100, 4000),
            ],
            pairs: &[],
        },
        Row {
            what: "overlapping tiles of one net, left and right",
            tiles: &pads,
            axis: 0,
            nodes: &[(0, 1, 100, 4000), (0, 2, 100, 4000)],
            pairs: &[],
        },
        Row {
            what: "overlapping tiles of one net, down and up",
            tiles: &pads,
            axis: 1,
            nodes: &[(0, 1, 200, 6000), (0, 2, 100, 3000)],
            pairs: &[],
        },
    ];
    for row in &rows {
        meets_row(rt, alloc, row)?;
    }
    Ok(())
}

/// A wire between one that crosses under it and one that crosses over it.
fn layers(rt: &impl Abort, alloc: Global) -> Result<(), Fail> {
    let layers = three_layers();
    let rows = [
        Row {
            what: "three layers, left and right",
            tiles: &layers,
            axis: 0,
            nodes: &[
                (0, 1, 100, 4000),
                (0, 2, 100, 4000),
                (1, 1, 1100, 33000),
                (1, 2, 1100, 33000),
                (2, 1, 1100, 33000),
                (2, 2, 1100, 33000),
            ],
            pairs: &[],
        },
        Row {
            what: "three layers, down and up",
            tiles: &layers,
            axis: 1,
            nodes: &[
                (0, 1, 1100, 37000),
                (0, 2, 1100, 33000),
                (1, 1, 100, 4000),
                (1, 2, 100, 4000),
                (2, 1, 100, 4000),
                (2, 2, 100, 4000),
            ],
            pairs: &[],
        },
    ];
    for row in &rows {
        meets_row(rt, alloc, row)?;
    }
    Ok(())
}

/// A meter counts the passes that were drawn.
fn counts_passes(rt: &impl Abort) {
    let mut meter = CountMeter::new();
    assert_eq!(rt; meter.count(), 0);
    let _first = meter.draw();
    let _second = meter.draw();
    assert_eq!(rt; meter.count(), 2);
}

#[test]
fn sums_of_one_window(rt: HostRuntime) -> Result<(), Fail> {
    one_layer(&rt, rt.alloc())?;
    layers(&rt, rt.alloc())?;
    counts_passes(&rt);
    Ok(())
}

/// Those of the tiles that meet the window grown by its halo.
fn near(alloc: Global, tiles: &[Tile], window: &Rect) -> Result<Vec<Tile>, Fail> {
    let mut found = Vec::new(alloc);
    if !is_window(window) {
        return Ok(found);
    }
    let grown = grow(*window, 301);
    for tile in tiles {
        if meets(tile.rect, grown) {
            found.push(*tile)?;
        }
    }
    Ok(found)
}

/// The sums of one axis of three windows that part at x 1154 and at x 2358, each from the tiles near it, and those of one
/// window that holds all.
fn parted(
    rt: &impl Abort,
    alloc: Global,
    tiles: &[Tile],
    axis: usize,
) -> Result<([Tally<u128>; 3], Tally<u128>), Fail> {
    let first = rect(-4096, -4096, 1154, 4096);
    let second = rect(1154, -4096, 2358, 4096);
    let third = rect(2358, -4096, 8192, 4096);
    let parts = [
        sums(rt, alloc, &near(alloc, tiles, &first)?, axis, &first)?.0,
        sums(rt, alloc, &near(alloc, tiles, &second)?, axis, &second)?.0,
        sums(rt, alloc, &near(alloc, tiles, &third)?, axis, &third)?.0,
    ];
    let whole = sums(rt, alloc, tiles, axis, &rect(-4096, -4096, 8192, 4096))?.0;
    Ok((parts, whole))
}

/// A tally's value and count for the key of that entry.
fn told(tally: &Tally<u128>, entry: &Entry<u128>) -> (u64, u128) {
    match tally.get(entry.key) {
        Some(found) => (found.count, found.value),
        None => (0, 0),
    }
}

/// Windows side by side add up to one that holds all.
fn add_up(rt: &impl Abort, alloc: Global, tiles: &[Tile], axis: usize) -> Result<(), Fail> {
    let (parts, whole) = parted(rt, alloc, tiles, axis)?;
    let two = merged(alloc, &parts[0], &parts[1])?.expect(rt, "small sums");
    let all = merged(alloc, &two, &parts[2])?.expect(rt, "small sums");
    assert_eq!(rt; all.entries(), whole.entries(), "axis {axis}");
    Ok(())
}

/// Both axes of a window add up to these values, by rising keys.
fn both_axes(rt: &impl Abort, alloc: Global, tiles: &[Tile], values: &[u128]) -> Result<(), Fail> {
    let area = rect(-4096, -4096, 8192, 4096);
    let (across, _) = sums(rt, alloc, tiles, 0, &area)?;
    let (along, _) = sums(rt, alloc, tiles, 1, &area)?;
    let both = merged(alloc, &across, &along)?.expect(rt, "small sums");
    assert_eq!(rt; both.entries().len(), values.len());
    for (entry, value) in both.entries().iter().zip(values) {
        assert_eq!(rt; entry.value, *value);
    }
    Ok(())
}

/// A pair whose two ends lie in two windows stands in both, and in no other.
fn pair_across(
    rt: &impl Abort,
    alloc: Global,
    tiles: &[Tile],
    key: &Entry<u128>,
) -> Result<(), Fail> {
    let (parts, whole) = parted(rt, alloc, tiles, 0)?;
    assert_eq!(rt; told(&parts[0], key), (100, 3000));
    assert_eq!(rt; told(&parts[1], key), (100, 3000));
    assert_eq!(rt; told(&parts[2], key), (0, 0));
    assert_eq!(rt; told(&whole, key), (200, 6000));
    Ok(())
}

/// A wire along all windows, and a shorter one beside it that crosses the first edge.
fn long_wires() -> [Tile; 4] {
    [
        tile(0, 1, 0, rect(-50, -50, 1500, 50)),
        tile(0, 2, 0, rect(1500, -50, 3050, 50)),
        tile(1, 1, 0, rect(-50, 150, 700, 250)),
        tile(1, 2, 0, rect(700, 150, 1450, 250)),
    ]
}

/// A wire along all windows, and two that face each other across the first edge.
fn facing_wires() -> [Tile; 6] {
    [
        tile(0, 1, 0, rect(-50, -50, 1500, 50)),
        tile(0, 2, 0, rect(1500, -50, 3050, 50)),
        tile(1, 1, 0, rect(550, 950, 827, 1050)),
        tile(1, 2, 0, rect(827, 950, 1104, 1050)),
        tile(2, 1, 0, rect(1204, 950, 1527, 1050)),
        tile(2, 2, 0, rect(1527, 950, 1850, 1050)),
    ]
}

#[test]
fn windows_side_by_side(rt: HostRuntime) -> Result<(), Fail> {
    let alloc = rt.alloc();
    let long = long_wires();
    let facing = facing_wires();
    for axis in [0usize, 1] {
        add_up(&rt, alloc, &long, axis)?;
        add_up(&rt, alloc, &facing, axis)?;
    }
    both_axes(
        &rt,
        alloc,
        &long,
        &[67000, 97000, 34000, 34000, 30000, 30000],
    )?;
    pair_across(&rt, alloc, &facing, &pair(1, 2, 2, 1, 0, 0))
}
