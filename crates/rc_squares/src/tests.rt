ghost use Rattle.std.specs.Prelude.{◌≡◌, All, ◌<◌, ◌+◌, ◌*◌, ◌≤ℤ◌, pos, negsuc, unwrap_or};
ghost use Rattle.std.specs.Option.{option_map_or};
ghost use Rattle.rc_geom.specs.Rects.{IsNear};

use crate::{
    Entry, Face, FaceRates, Sum, context, face_at, key_sum, metal_at, sight, sum_in, sums_in,
    thickness,
};
use rc_geom::{Key, Pt, Rect, Side, Tile};
use std::process::Abort;
use std::test::Fail;

/// Cap 2 and reach 3 on every layer. A face's own amount has its layer, its thickness and its gap as digits, 9 where it
/// sees nothing; what it shares is 1000 more than thickness and gap.
struct Digits;

impl FaceRates for Digits {
    ghost has_rules = { λ _ layer. layer < 32 };

    ghost rates_of = { λ _. record {
      cap = λ _. 2;
      reach = λ _. 3;
      rate = λ layer under over thick gap. (100 * layer + 10 * thick + unwrap_or gap 9, option_map_or (λ d. 1000 + 10 * thick + d) gap 0);
    } };

    fn cap(&self, _layer: u8) -> u32 {
        2
    }

    fn reach(&self, _layer: u8) -> u32 {
        3
    }

    fn rate(
        &self,
        layer: u8,
        _under: Option<u8>,
        _over: Option<u8>,
        thick: u32,
        gap: Option<u32>,
    ) -> (u128, u128) {
        let own = 100 * u128::from(layer) + 10 * u128::from(thick);
        match gap {
            Some(d) => (
                own + u128::from(d),
                1000 + 10 * u128::from(thick) + u128::from(d),
            ),
            None => (own + 9, 0),
        }
    }
}

/// A row of squares of one node, from x = `from` to below `to`, at y = 0 on layer 1.
fn bar(net: u32, node: u32, from: i32, to: i32, rank: u32) -> Tile
    ensures { result.layer ≡ 1 }
{
    Tile {
        net,
        node,
        layer: 1,
        rect: Rect {
            x0: from,
            y0: 0,
            x1: to,
            y1: 1,
        },
        rank,
    }
}

/// The same on another layer.
fn on(layer: u8, tile: Tile) -> Tile
    ensures { result.layer ≡ layer }
{
    Tile { layer, ..tile }
}

const AREA: Rect = Rect {
    x0: -4,
    y0: -4,
    x1: 12,
    y1: 5,
};

fn at(x: i32) -> Pt
    requires low { negsuc 99 ≤ℤ x }
    requires high { x ≤ℤ pos 99 }
    ensures { IsNear result }
{
    Pt { x, y: 0 }
}

fn node(net: u32, node: u32) -> Key {
    Key::Ground { net, node }
}

fn pair(net: u32, node: u32, other: u32, onode: u32) -> Key {
    Key::Pair {
        net,
        node,
        other,
        onode,
    }
}

fn sum(count: u128, value: u128) -> Sum {
    Sum { count, value }
}

#[test]
fn two_bars(rt: HostRuntime) {
    // two bars of two squares, by the gap between them: the pair of both, and the left one's own sum
    let rows = [
        (0, sum(0, 0), sum(2, 258)),
        (1, sum(2, 2042), sum(2, 250)),
        (3, sum(2, 2046), sum(2, 252)),
        (4, sum(0, 0), sum(2, 258)),
    ];
    for (gap, both, left) in rows {
        let tiles = [bar(1, 1, 0, 2, 0), bar(2, 1, gap + 2, gap + 4, 0)];
        assert_eq!(rt;
            sum_in::<0, Digits>(&tiles, &Digits, &AREA, pair(1, 1, 2, 1)),
            both,
            "gap {gap}"
        );
        assert_eq!(rt;
            sum_in::<0, Digits>(&tiles, &Digits, &AREA, node(1, 1)),
            left,
            "gap {gap}"
        );
        assert_eq!(rt;
            sum_in::<1, Digits>(&tiles, &Digits, &AREA, node(1, 1)),
            sum(4, 476),
            "gap {gap}"
        );
    }
}

/// Compares the sums of some keys of a layout.
fn compare(rt: &impl Abort, tiles: &[Tile], rows: &[(&str, Key, Sum)])
    requires { All (λ tile. tile.layer < 32) tiles.now }
{
    for (what, key, wanted) in rows {
        assert_eq!(rt; key_sum(tiles, &Digits, &AREA, *key), *wanted, "{what}");
    }
}

#[test]
fn keys_of_small_layouts(rt: HostRuntime) {
    let row_of_three = [bar(1, 1, 0, 1, 0), bar(2, 1, 2, 3, 0), bar(3, 1, 4, 5, 0)];
    compare(
        &rt,
        &row_of_three,
        &[
            ("the nearest are seen", pair(1, 1, 2, 1), sum(2, 2022)),
            ("and the nearest behind", pair(2, 1, 3, 1), sum(2, 2022)),
            ("the middle hides", pair(1, 1, 3, 1), sum(0, 0)),
            ("the higher net first", pair(2, 1, 1, 1), sum(0, 0)),
        ],
    );
    let own_between = [bar(1, 1, 0, 1, 0), bar(1, 2, 2, 3, 0), bar(2, 1, 4, 5, 0)];
    compare(
        &rt,
        &own_between,
        &[
            ("own metal hides", pair(1, 1, 2, 1), sum(0, 0)),
            ("own metal is no pair", pair(1, 1, 1, 2), sum(0, 0)),
            ("own metal has a gap", node(1, 1), sum(4, 468)),
        ],
    );
    let overlap = [
        ("the lower rank owns", node(1, 1), sum(3, 367)),
        ("and all of its own", node(1, 2), sum(5, 605)),
    ];
    compare(&rt, &[bar(1, 1, 0, 2, 1), bar(1, 2, 1, 3, 0)], &overlap);
    compare(&rt, &[bar(1, 2, 1, 3, 0), bar(1, 1, 0, 2, 1)], &overlap);
}

#[test]
fn keys_beside_ground(rt: HostRuntime) {
    let grounded = [bar(1, 1, 0, 1, 0), bar(2, 0, 2, 3, 0), bar(9, 9, 11, 12, 0)];
    compare(
        &rt,
        &grounded,
        &[
            ("what ground shares", node(1, 1), sum(6, 2490)),
            ("ground has no key", node(2, 0), sum(0, 0)),
            ("one square", node(9, 9), sum(4, 476)),
            ("nobody", node(9, 8), sum(0, 0)),
        ],
    );
}

fn entry(key: Key, count: u128, value: u128) -> Entry {
    Entry { key, count, value }
}

#[test]
fn all_keys_at_once(rt: HostRuntime) -> Result<(), Fail> {
    let row_of_three = [bar(3, 1, 4, 5, 0), bar(1, 1, 0, 1, 0), bar(2, 1, 2, 3, 0)];
    let wanted = [
        entry(node(1, 1), 4, 468),
        entry(node(2, 1), 4, 460),
        entry(node(3, 1), 4, 468),
        entry(pair(1, 1, 2, 1), 2, 2022),
        entry(pair(2, 1, 3, 1), 2, 2022),
    ];
    let list = sums_in(rt.alloc(), &row_of_three, &Digits, &AREA)?;
    assert_eq!(rt; list.items(), wanted.as_slice());
    let grounded = [bar(1, 1, 0, 1, 0), bar(2, 0, 2, 3, 0)];
    let list = sums_in(rt.alloc(), &grounded, &Digits, &AREA)?;
    assert_eq!(rt; list.items(), [entry(node(1, 1), 6, 2490)].as_slice());
    Ok(())
}

#[test]
fn squares_and_faces(rt: HostRuntime) {
    let bars = [bar(1, 1, 0, 1, 0), bar(2, 1, 3, 5, 0), bar(3, 0, 6, 9, 0)];
    assert_eq!(rt; metal_at(&bars, 1, at(4)), Some((2, 1)));
    assert_eq!(rt; metal_at(&bars, 1, at(5)), None);
    assert_eq!(rt; metal_at(&bars, 2, at(4)), None);
    let thick = [(0, 1), (4, 2), (8, 2), (7, 2), (6, 1), (5, 0)];
    for (x, wanted) in thick {
        assert_eq!(rt;
            thickness(&bars, 1, Side::Right, at(x), 2),
            wanted,
            "at {x}"
        );
    }
    assert_eq!(rt; sight(&bars, 1, Side::Right, at(0), 3), Some((2, (2, 1))));
    assert_eq!(rt; sight(&bars, 1, Side::Right, at(0), 1), None);
    assert_eq!(rt; sight(&bars, 1, Side::Left, at(6), 3), Some((1, (2, 1))));
    let face = Face {
        own: (2, 1),
        thick: 2,
        sight: Some((1, (3, 0))),
    };
    assert_eq!(rt; face_at(&bars, 1, Side::Right, at(4), 2, 3), Some(face));
    assert_eq!(rt; face_at(&bars, 1, Side::Right, at(3), 2, 3), None);
    assert_eq!(rt; face_at(&bars, 1, Side::Right, at(5), 2, 3), None);
}

#[test]
fn layers_over_a_square(rt: HostRuntime) {
    let stack = [
        on(0, bar(1, 1, 0, 1, 0)),
        on(5, bar(2, 1, 0, 1, 0)),
        on(2, bar(3, 1, 0, 1, 0)),
    ];
    let rows = [
        (0, (None, Some(2))),
        (2, (Some(0), Some(5))),
        (3, (Some(2), Some(5))),
        (5, (Some(2), None)),
        (31, (Some(5), None)),
    ];
    for (layer, wanted) in rows {
        assert_eq!(rt; context(&stack, layer, at(0)), wanted, "layer {layer}");
    }
    assert_eq!(rt; context(&stack, 2, at(1)), (None, None));
}
