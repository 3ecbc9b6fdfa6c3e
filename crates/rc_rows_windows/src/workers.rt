//! Rows of workers: they change nothing, each piece is begun once, and pieces are done at once.

use crate::edits::tile;
use crate::grids::rect;
use crate::sweeping::swept;
use rc_geom::{Key, Rect, Tile};
use rc_rows_sweep::{RowRates, Scene, merged};
use rc_tally::Entry;
use rc_windows::{FreeGate, Gate, Grid};
use std::alloc::Global;
use std::process::Abort;
use std::sync::atomic::{AtomicU64, Ordering};
use std::test::Fail;

const TABLE: RowRates = RowRates { by_digits: false };

const BOUNDS: Rect = Rect {
    x0: -50,
    y0: -50,
    x1: 3050,
    y1: 1050,
};

/// Three nets: one from (0, 0) to (3000, 0), and two that face each other across the edge of two windows at x 1154, from
/// (600, 1000) to (1054, 1000) and from (1254, 1000) to (1800, 1000).
fn three_nets(rt: &impl Abort, alloc: Global) -> Result<Scene, Fail> {
    let tiles = [
        tile(0, 1, rect(-50, -50, 1500, 50)),
        tile(0, 2, rect(1500, -50, 3050, 50)),
        tile(1, 1, rect(550, 950, 827, 1050)),
        tile(1, 2, rect(827, 950, 1104, 1050)),
        tile(2, 1, rect(1204, 950, 1527, 1050)),
        tile(2, 2, rect(1527, 950, 1850, 1050)),
    ];
    let mut scene = Scene::new(alloc);
    for tile in &tiles {
        let added = scene.add(*tile)?;
        assert!(rt; added);
    }
    Ok(scene)
}

/// What a list of entries has for the two nodes that face each other.
fn facing(entries: &[Entry<u128>]) -> (u64, u128) {
    let key = Key::Pair {
        net: 1,
        node: 2,
        other: 2,
        onode: 1,
    };
    match entries.iter().find(|entry| entry.key == key) {
        Some(entry) => (entry.count, entry.value),
        None => (0, 0),
    }
}

/// Counts the pieces that are begun, and adds up 2^k for each piece k.
#[derive(Drop)]
struct CountGate {
    count: AtomicU64,
    pieces: AtomicU64,
}

impl Gate for CountGate {
    fn enter(&self, piece: u32) {
        self.count.fetch_add(1, Ordering::SeqCst);
        self.pieces
            .fetch_add(1u64.wrapping_shl(piece), Ordering::SeqCst);
    }
}

/// For several numbers of workers: two passes for each of three windows, each piece begun once (64 powers of 2 add up to
/// 2^64 - 1 only where each of the 64 is there), and the same tallies.
#[test]
fn workers_change_nothing(rt: HostRuntime) -> Result<(), Fail> {
    let alloc = rt.alloc();
    let scene = three_nets(&rt, alloc)?;
    let tiles = scene.tiles();
    assert!(rt; tiles.len() <= 1 << 20);
    let grid = Grid::new(Some(BOUNDS), 301);
    assert_eq!(rt; grid.count(), 3);
    let one = swept(&rt, alloc, &grid, tiles, &TABLE, 1, &FreeGate)?;
    for (workers, pieces) in [(1, 1), (2, 3), (3, 7), (64, u64::MAX)] {
        let gate = CountGate {
            count: AtomicU64::new(0),
            pieces: AtomicU64::new(0),
        };
        let all = swept(&rt, alloc, &grid, tiles, &TABLE, workers, &gate)?;
        assert_eq!(rt; all.drawn, 6, "{workers} workers");
        assert_eq!(rt; gate.count.load(Ordering::SeqCst), u64::from(workers));
        assert_eq!(rt;
            gate.pieces.load(Ordering::SeqCst),
            pieces,
            "{workers} workers"
        );
        assert_eq!(rt; all.tallies.len(), 3, "{workers} workers");
        for (a, b) in all.tallies.items().iter().zip(one.tallies.items()) {
            assert_eq!(rt; a.entries(), b.entries(), "{workers} workers");
        }
    }
    let whole = swept(
        &rt,
        alloc,
        &Grid::new(None, 301),
        tiles,
        &TABLE,
        2,
        &FreeGate,
    )?;
    let [first, second, third] = one.tallies.items() else {
        assert!(rt; false);
        return Ok(());
    };
    let [all] = whole.tallies.items() else {
        assert!(rt; false);
        return Ok(());
    };
    assert_eq!(rt; facing(first.entries()), (100, 3000));
    assert_eq!(rt; facing(second.entries()), (100, 3000));
    assert_eq!(rt; facing(third.entries()), (0, 0));
    assert_eq!(rt; facing(all.entries()), (200, 6000));
    let Some(two) = merged(alloc, first, second)? else {
        assert!(rt; false);
        return Ok(());
    };
    let Some(three) = merged(alloc, &two, third)? else {
        assert!(rt; false);
        return Ok(());
    };
    assert_eq!(rt; three.entries(), all.entries());
    Ok(())
}

/// At two pieces each waits until the other one has begun, for so many turns at most.
#[derive(Drop)]
struct MeetingGate {
    begun: [AtomicU64; 2],
    met: AtomicU64,
}

impl Gate for MeetingGate {
    fn enter(&self, piece: u32) {
        let [first, second] = &self.begun;
        let (own, other) = if piece == 0 {
            (first, second)
        } else {
            (second, first)
        };
        own.store(1, Ordering::SeqCst);
        for _ in 0..200_000_000u32 {
            if other.load(Ordering::SeqCst) == 1 {
                self.met.fetch_add(1, Ordering::SeqCst);
                return;
            }
        }
    }
}

#[test]
fn two_pieces_meet(rt: HostRuntime) -> Result<(), Fail> {
    let scene = three_nets(&rt, rt.alloc())?;
    let tiles = scene.tiles();
    assert!(rt; tiles.len() <= 1 << 20);
    let gate = MeetingGate {
        begun: [AtomicU64::new(0), AtomicU64::new(0)],
        met: AtomicU64::new(0),
    };
    let grid = Grid::new(Some(BOUNDS), 301);
    swept(&rt, rt.alloc(), &grid, tiles, &TABLE, 2, &gate)?;
    assert_eq!(rt; gate.met.load(Ordering::SeqCst), 2);
    Ok(())
}
