//! Points, rectangles and orientations.

ghost use Rattle.std.specs.Prelude.{◌≡◌};

use rc_geom::{Key, Orient, Pt, Rect, coord, grow, laws, meets, meets_closed, place, split, turn};
use std::test::Fail;

fn pt(x: i32, y: i32) -> Pt
    ensures across { result.x ≡ x }
    ensures up { result.y ≡ y }
{
    Pt { x, y }
}

fn rect(x0: i32, y0: i32, x1: i32, y1: i32) -> Rect
    ensures left { result.x0 ≡ x0 }
    ensures below { result.y0 ≡ y0 }
    ensures right { result.x1 ≡ x1 }
    ensures above { result.y1 ≡ y1 }
{
    Rect { x0, y0, x1, y1 }
}

/// The rectangle with both points as opposite corners.
fn spanned(p: Pt, q: Pt) -> Rect {
    rect(p.x.min(q.x), p.y.min(q.y), p.x.max(q.x), p.y.max(q.y))
}

/// An orientation; where (100, 200) of a cell 1000 wide and 2000 high comes to, where (3, 5) is turned to, and where the
/// rectangle from (1, 2) to (4, 10) of a cell 20 wide and 30 high comes to.
type Turn = (Orient, (i32, i32), (i32, i32), (i32, i32, i32, i32));

const TURNS: [Turn; 8] = [
    (Orient::N, (100, 200), (3, 5), (1, 2, 4, 10)),
    (Orient::S, (900, 1800), (-3, -5), (16, 20, 19, 28)),
    (Orient::W, (1800, 100), (-5, 3), (20, 1, 28, 4)),
    (Orient::E, (200, 900), (5, -3), (2, 16, 10, 19)),
    (Orient::FN, (900, 200), (-3, 5), (16, 2, 19, 10)),
    (Orient::FS, (100, 1800), (3, -5), (1, 20, 4, 28)),
    (Orient::FW, (200, 100), (5, 3), (2, 1, 10, 4)),
    (Orient::FE, (1800, 900), (-5, -3), (20, 16, 28, 19)),
];

#[test]
fn orientations_by_their_table(rt: HostRuntime) {
    for (orient, (x, y), (tx, ty), (x0, y0, x1, y1)) in TURNS {
        assert_eq!(rt;
            place(orient, 1000, 2000, pt(100, 200)),
            pt(x, y),
            "{orient:?}"
        );
        assert_eq!(rt; turn(orient, pt(3, 5)), pt(tx, ty), "{orient:?}");
        let low = place(orient, 20, 30, pt(1, 2));
        let high = place(orient, 20, 30, pt(4, 10));
        assert_eq!(rt; spanned(low, high), rect(x0, y0, x1, y1), "{orient:?}");
    }
    let far = pt(-1073741824, 1073741824);
    assert_eq!(rt;
        place(Orient::S, 536870912, 0, far),
        pt(1610612736, -1073741824)
    );
    assert_eq!(rt; turn(Orient::FE, far), pt(-1073741824, 1073741824));
    assert_eq!(rt; coord::<0>(pt(7, -9)), 7);
    assert_eq!(rt; coord::<1>(pt(7, -9)), -9);
}

/// Another rectangle than (0, 0) to (10, 10), whether both share a square, and the lower left corner that they have in
/// common.
type Meeting = (&'static str, (i32, i32, i32, i32), bool, Option<(i32, i32)>);

const MEETINGS: [Meeting; 9] = [
    ("the same", (0, 0, 10, 10), true, Some((0, 0))),
    ("within", (3, 4, 5, 6), true, Some((3, 4))),
    ("over one square", (9, 9, 20, 20), true, Some((9, 9))),
    ("across", (-5, 4, 15, 5), true, Some((0, 4))),
    ("edges touch", (10, 2, 20, 8), false, Some((10, 2))),
    ("corners touch", (10, 10, 20, 20), false, Some((10, 10))),
    (
        "upper left corners touch",
        (-4, 10, 0, 12),
        false,
        Some((0, 10)),
    ),
    ("one apart in x", (11, 0, 20, 10), false, None),
    ("one apart in y", (0, -9, 10, -1), false, None),
];

const MIDDLES: [(i32, i32, i32); 9] = [
    (0, 5, 3),
    (0, 1000, 500),
    (-5, 0, -2),
    (-4, 0, -2),
    (-7, 1, -3),
    (-3, -2, -2),
    (-536870912, 536870912, 0),
    (-536870912, -536870911, -536870911),
    (536870911, 536870912, 536870912),
];

#[test]
fn rectangles_meet_and_nodes_part(rt: HostRuntime) {
    let a = rect(0, 0, 10, 10);
    for (what, (x0, y0, x1, y1), shares, corner) in MEETINGS {
        let b = rect(x0, y0, x1, y1);
        let corner = corner.map(|(x, y)| pt(x, y));
        assert_eq!(rt; meets(a, b), shares, "{what}");
        assert_eq!(rt; meets(b, a), shares, "{what}");
        assert_eq!(rt; meets_closed(a, b), corner, "{what}");
        assert_eq!(rt; meets_closed(b, a), corner, "{what}");
    }
    for (lo, hi, at) in MIDDLES {
        assert_eq!(rt; split(lo, hi), at, "between {lo} and {hi}");
    }
    assert_eq!(rt; grow(rect(-3, 4, 5, 6), 0), rect(-3, 4, 5, 6));
    assert_eq!(rt; grow(rect(-3, 4, 5, 6), 301), rect(-304, -297, 306, 307));
    laws::inner_sums_suffice::<u128>();
    laws::metal_bounds::<u128, u64>();
    laws::values_are_bounded::<u128>();
}
