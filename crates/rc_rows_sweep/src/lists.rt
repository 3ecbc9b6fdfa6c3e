//! Lists of tiles by a generator: the sweep of windows and the sum by columns against the plain program.

use crate::rates::RowRates;
use crate::scene::{Scene, by_columns, is_window, merged, plain, plain_both, swept};
use rc_geom::{Rect, Tile};
use std::alloc::Global;
use std::process::Abort;
use std::test::Fail;

/// Numbers that look as if drawn by lot, the same in each run.
#[derive(Drop)]
struct Draws {
    state: u64,
}

impl Draws {
    /// A number below `most`.
    fn below(&mut self, most: u32) -> u32 {
        let next = self
            .state
            .wrapping_mul(6_364_136_223_846_793_005)
            .wrapping_add(1_442_695_040_888_963_407);
        self.state = next;
        if most == 0 {
            0
        } else {
            ((next >> 33) % u64::from(most)) as u32
        }
    }
}

/// What lists of a kind are like.
#[derive(Drop)]
struct Kind<'a> {
    what: &'a str,
    /// How many lists there are, and how many tiles are tried for each.
    lists: u32,
    tries: u32,
    /// The lower left corner of where tiles and windows lie, and how far they reach from there.
    corner: i32,
    spread: u32,
    /// How long a tile may be.
    long: u32,
    layers: u32,
    nets: u32,
}

/// Where a side ends that begins there, at least 1 and at most `long` further up, where coordinates go on so far.
fn drawn_end(draws: &mut Draws, from: i32, long: u32) -> i32 {
    from.wrapping_add_unsigned(draws.below(long))
        .wrapping_add(1)
        .min(536_870_913)
}

/// A rectangle of the kind with sides of at most `long`.
fn drawn_rect(draws: &mut Draws, kind: &Kind<'_>, long: u32) -> Rect {
    let x0 = kind.corner.wrapping_add_unsigned(draws.below(kind.spread));
    let y0 = kind.corner.wrapping_add_unsigned(draws.below(kind.spread));
    Rect {
        x0,
        y0,
        x1: drawn_end(draws, x0, long),
        y1: drawn_end(draws, y0, long),
    }
}

/// A tile of the kind. One net in four is grounded.
fn drawn_tile(draws: &mut Draws, kind: &Kind<'_>, rank: u32) -> Tile {
    let net = draws.below(kind.nets);
    let node = if net % 4 == 3 {
        0
    } else {
        draws.below(3).wrapping_add(1)
    };
    Tile {
        net,
        node,
        layer: (draws.below(kind.layers) % 32) as u8,
        rect: drawn_rect(draws, kind, kind.long),
        rank,
    }
}

/// The tiles of the kind that make a plane, of so many that are tried.
fn drawn_scene(alloc: Global, draws: &mut Draws, kind: &Kind<'_>) -> Result<Scene, Fail> {
    let mut scene = Scene::new(alloc);
    for rank in 0..kind.tries {
        let tile = drawn_tile(draws, kind, rank);
        let _added = scene.add(tile)?;
    }
    Ok(scene)
}

const DIGITS: RowRates = RowRates { by_digits: true };

/// The sweep, the sum by columns and the plain program have the same sums of an axis of a window, with at most two edits a
/// tile.
fn compare<const A: usize>(
    rt: &impl Abort,
    alloc: Global,
    scene: &Scene,
    area: &Rect,
    what: &str,
) -> Result<(), Fail> {
    assert!(rt; is_window(area), "{what}: {area:?}");
    let (swept, edits) = swept::<A>(alloc, scene.tiles(), &DIGITS, area)?;
    let (columns, changes) = by_columns::<A>(alloc, scene.tiles(), &DIGITS, area)?;
    let plain = plain::<A>(alloc, scene.tiles(), &DIGITS, area)?;
    assert_eq!(rt;
        swept.entries(),
        plain.entries(),
        "{what}, axis {A} of {area:?}"
    );
    assert_eq!(rt;
        columns.entries(),
        plain.entries(),
        "{what}, by columns, axis {A} of {area:?}"
    );
    assert!(rt; changes <= 2 * scene.tiles().len() as u64, "{what}");
    assert!(rt; edits <= 2 * scene.tiles().len() as u64, "{what}");
    Ok(())
}

/// Both axes of the sweep, merged, are those of the plain program.
fn compare_both(
    rt: &impl Abort,
    alloc: Global,
    scene: &Scene,
    area: &Rect,
    what: &str,
) -> Result<(), Fail> {
    assert!(rt; is_window(area), "{what}: {area:?}");
    let (across, _) = swept::<0>(alloc, scene.tiles(), &DIGITS, area)?;
    let (along, _) = swept::<1>(alloc, scene.tiles(), &DIGITS, area)?;
    let both = merged(alloc, &across, &along)?.expect(rt, "small sums");
    let plain = plain_both(alloc, scene.tiles(), &DIGITS, area)?;
    assert_eq!(rt;
        both.entries(),
        plain.entries(),
        "{what}, both axes of {area:?}"
    );
    Ok(())
}

/// As many lists of the kind as it says.
fn compare_lists(
    rt: &impl Abort,
    alloc: Global,
    draws: &mut Draws,
    kind: &Kind<'_>,
) -> Result<(), Fail> {
    for list in 0..kind.lists {
        let scene = drawn_scene(alloc, draws, kind)?;
        let area = drawn_rect(draws, kind, 12);
        compare::<0>(rt, alloc, &scene, &area, kind.what)?;
        compare::<1>(rt, alloc, &scene, &area, kind.what)?;
        if list % 8 == 0 {
            compare_both(rt, alloc, &scene, &area, kind.what)?;
        }
    }
    Ok(())
}

#[test]
fn sweeps_are_the_plain_sums(rt: HostRuntime) -> Result<(), Fail> {
    let alloc = rt.alloc();
    let plain = Kind {
        what: "overlaps and equal edges",
        lists: 120,
        tries: 30,
        corner: -5,
        spread: 12,
        long: 8,
        layers: 2,
        nets: 8,
    };
    let kinds = [
        Kind {
            what: "one net",
            lists: 60,
            tries: 12,
            nets: 1,
            layers: 1,
            ..plain
        },
        Kind {
            what: "thin tiles, one unit apart",
            lists: 120,
            tries: 60,
            long: 2,
            spread: 8,
            layers: 3,
            nets: 16,
            ..plain
        },
        Kind {
            what: "all 32 layers",
            lists: 40,
            tries: 90,
            layers: 32,
            ..plain
        },
        Kind {
            what: "grounded nets",
            lists: 60,
            tries: 40,
            nets: 4,
            spread: 9,
            long: 4,
            ..plain
        },
        Kind {
            what: "the lowest coordinates",
            lists: 40,
            corner: -536_870_913,
            ..plain
        },
        Kind {
            what: "the highest coordinates",
            lists: 40,
            corner: 536_870_897,
            ..plain
        },
        Kind {
            what: "tiles over all coordinates",
            lists: 30,
            tries: 20,
            corner: -536_870_913,
            long: 1_073_741_826,
            layers: 8,
            ..plain
        },
        plain,
    ];
    let mut draws = Draws { state: 7 };
    for kind in &kinds {
        compare_lists(&rt, alloc, &mut draws, kind)?;
    }
    Ok(())
}
