//! Rows of grids, and of the windows that rectangles touch.

use rc_geom::Rect;
use rc_windows::Grid;
use std::alloc::Global;
use std::process::Abort;
use std::test::Fail;

/// The coordinates at which the outer windows end.
const LOW: i32 = -536_870_912;

const HIGH: i32 = 536_870_913;

pub fn rect(x0: i32, y0: i32, x1: i32, y1: i32) -> Rect {
    Rect { x0, y0, x1, y1 }
}

/// A net from (0, 0) to (3000, 0), and one from (0, 200) to (1000, 200).
const SHORT: Rect = Rect {
    x0: -50,
    y0: -50,
    x1: 3050,
    y1: 250,
};

/// The same, but the first net goes to (12000, 0).
pub const LONG: Rect = Rect {
    x0: -50,
    y0: -50,
    x1: 12_050,
    y1: 250,
};

/// 64 by 64 nets of a length of 1,000, 2,000 apart and each a little behind the one before.
const MANY: Rect = Rect {
    x0: -50,
    y0: -50,
    x1: 128_310,
    y1: 127_310,
};

/// So wide and high that a grid with a halo of 1 has 2^20 windows.
pub const CHIP: Rect = Rect {
    x0: -268_435_456,
    y0: -268_435_456,
    x1: 268_435_456,
    y1: 268_435_456,
};

/// A rectangle without squares.
const NOTHING: Rect = Rect {
    x0: 0,
    y0: 0,
    x1: 0,
    y1: 0,
};

#[test]
fn windows_of_grids(rt: HostRuntime) -> Result<(), Fail> {
    let rows = [
        ("no bounds", None, 1, 0, rect(LOW, LOW, HIGH, HIGH)),
        (
            "the first of three",
            Some(SHORT),
            3,
            0,
            rect(LOW, LOW, 1154, HIGH),
        ),
        ("the second", Some(SHORT), 3, 1, rect(1154, LOW, 2358, HIGH)),
        ("the third", Some(SHORT), 3, 2, rect(2358, LOW, HIGH, HIGH)),
        (
            "the last of eleven",
            Some(LONG),
            11,
            10,
            rect(11_990, LOW, HIGH, HIGH),
        ),
        (
            "inside",
            Some(MANY),
            11_342,
            108,
            rect(1154, 1154, 2358, 2358),
        ),
        (
            "a corner",
            Some(MANY),
            11_342,
            11_341,
            rect(127_574, 126_370, HIGH, HIGH),
        ),
    ];
    for (what, bounds, count, k, area) in rows {
        let grid = Grid::new(bounds, 301);
        assert_eq!(rt; grid.count(), count, "{what}");
        assert!(rt; k < grid.count());
        let window = grid.window(k);
        assert_eq!(rt; window.rect, area, "{what}");
        assert_eq!(rt; window.halo, 301, "{what}");
    }
    Ok(())
}

/// An old and a new rectangle, and the windows that they touch.
type TouchedRow<'a> = (&'a str, Rect, Rect, &'a [u32]);

/// The rectangles of each row touch just those windows.
fn touch(rt: &impl Abort, alloc: Global, grid: &Grid, rows: &[TouchedRow<'_>]) -> Result<(), Fail> {
    for (what, old, new, windows) in rows {
        let list = grid.touched(alloc, &[*old], &[*new])?;
        assert_eq!(rt; list.items(), *windows, "{what}");
    }
    Ok(())
}

#[test]
fn windows_touched(rt: HostRuntime) -> Result<(), Fail> {
    let short: [TouchedRow<'_>; 6] = [
        ("within the first", rect(0, 0, 10, 10), NOTHING, &[0]),
        ("up to the halo's end", rect(0, 0, 853, 10), NOTHING, &[0]),
        ("one into the halo", rect(0, 0, 854, 10), NOTHING, &[0, 1]),
        (
            "behind the second's halo",
            NOTHING,
            rect(2659, 0, 2660, 1),
            &[2],
        ),
        ("the whole", SHORT, NOTHING, &[0, 1, 2]),
        ("nothing", NOTHING, NOTHING, &[]),
    ];
    let wire = rect(-50, 150, 1050, 250);
    let longer = rect(-50, 150, 1450, 250);
    let long_wire = rect(-50, -50, 12_050, 50);
    let long: [TouchedRow<'_>; 2] = [
        ("a wire made longer", wire, longer, &[0, 1]),
        (
            "a wire taken out",
            long_wire,
            NOTHING,
            &[0, 1, 2, 3, 4, 5, 6, 7, 8, 9, 10],
        ),
    ];
    let one = rect(30_570, 62_250, 31_670, 62_350);
    let one_longer = rect(30_570, 62_250, 31_870, 62_350);
    let many: [TouchedRow<'_>; 1] = [("one of many", one, one_longer, &[5482, 5483, 5589, 5590])];
    touch(&rt, rt.alloc(), &Grid::new(Some(SHORT), 301), &short)?;
    touch(&rt, rt.alloc(), &Grid::new(Some(LONG), 301), &long)?;
    touch(&rt, rt.alloc(), &Grid::new(Some(MANY), 301), &many)?;
    let grid = Grid::new(Some(CHIP), 1);
    assert_eq!(rt; grid.count(), 1 << 20);
    assert!(rt; grid.touched(rt.alloc(), &[CHIP; 129], &[]).is_err());
    Ok(())
}
