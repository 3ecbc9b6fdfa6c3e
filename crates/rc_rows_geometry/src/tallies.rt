//! Tallies: additions, merges and lists that are gathered.

use crate::{can_gather, can_merge, has_room, times};
use rc_fixed::NoMemory;
use rc_geom::Key;
use rc_tally::{Amount, Entry, Tally, laws};
use std::alloc::Global;
use std::test::Fail;

/// An entry of a table: its key by numbers (net and node, and 0 and 0 or the other net and its node), a count and a value.
type Line = ((u32, u32, u32, u32), u64, u128);

const MOST: u64 = 18446744073709551615;

const GREATEST: u128 = 340282366920938463463374607431768211455;

fn key(net: u32, node: u32, other: u32, onode: u32) -> Key {
    if other == 0 {
        return Key::Ground { net, node };
    }
    Key::Pair {
        net,
        node,
        other,
        onode,
    }
}

fn entry(line: &Line) -> Entry<u128> {
    let ((net, node, other, onode), count, value) = *line;
    Entry {
        key: key(net, node, other, onode),
        count,
        value,
    }
}

/// Whether the entries are these, in this order.
fn are(entries: &[Entry<u128>], lines: &[Line]) -> bool {
    entries.len() == lines.len()
        && entries
            .iter()
            .zip(lines)
            .all(|(have, line)| *have == entry(line))
}

/// The tally of a list, one addition after the other; those that don't fit are left out.
fn added(alloc: Global, lines: &[Line]) -> Result<Tally<u128>, NoMemory> {
    let mut tally = Tally::new(alloc);
    for line in lines {
        let entry = entry(line);
        if has_room(&tally, entry.key, entry.count, entry.value) {
            tally.add(entry.key, entry.count, entry.value)?;
        }
    }
    Ok(tally)
}

/// Whether additions one after the other give these sums, and each is found by its key.
fn adds(alloc: Global, lines: &[Line], sums: &[Line]) -> Result<bool, NoMemory> {
    let tally = added(alloc, lines)?;
    let found = sums.iter().all(|line| {
        let entry = entry(line);
        tally.get(entry.key) == Some(entry)
    });
    let absent = tally.get(key(3, 1, 0, 0)).is_none() && tally.get(key(1, 1, 3, 1)).is_none();
    Ok(found && absent && are(tally.entries(), sums))
}

/// Whether the list gathers to these sums.
fn gathers(alloc: Global, lines: &[Line], sums: &[Line]) -> Result<bool, NoMemory> {
    let mut entries = Vec::new(alloc);
    for line in lines {
        entries.push(entry(line))?;
    }
    if !can_gather(&entries) {
        return Ok(false);
    }
    let tally = Tally::gather(alloc, &mut entries)?;
    Ok(are(tally.entries(), sums))
}

/// Whether the tallies of both lists merge to these sums.
fn merges(alloc: Global, first: &[Line], second: &[Line], sums: &[Line]) -> Result<bool, NoMemory> {
    let a = added(alloc, first)?;
    let b = added(alloc, second)?;
    if !can_merge(&a, &b) {
        return Ok(false);
    }
    let tally = Tally::merge(alloc, &a, &b)?;
    Ok(are(tally.entries(), sums))
}

/// Two lists of additions, and the sums of the first, of the second and of both.
type Row = (
    &'static str,
    &'static [Line],
    &'static [Line],
    &'static [Line],
    &'static [Line],
    &'static [Line],
);

const A: (u32, u32, u32, u32) = (1, 1, 0, 0);

const B: (u32, u32, u32, u32) = (2, 1, 0, 0);

const C: (u32, u32, u32, u32) = (2, 3, 0, 0);

const P: (u32, u32, u32, u32) = (1, 1, 2, 1);

const Q: (u32, u32, u32, u32) = (1, 1, 2, 2);

const ROWS: [Row; 9] = [
    ("nothing", &[], &[], &[], &[], &[]),
    (
        "one key twice, and a pair",
        &[(A, 2, 5), (A, 1, 7)],
        &[(P, 1, 0)],
        &[(A, 3, 12)],
        &[(P, 1, 0)],
        &[(A, 3, 12), (P, 1, 0)],
    ),
    (
        "a key of both",
        &[(A, 1, 2)],
        &[(A, 3, 4)],
        &[(A, 1, 2)],
        &[(A, 3, 4)],
        &[(A, 4, 6)],
    ),
    (
        "keys of the first alone",
        &[(P, 1, 9), (B, 1, 1)],
        &[],
        &[(B, 1, 1), (P, 1, 9)],
        &[],
        &[(B, 1, 1), (P, 1, 9)],
    ),
    (
        "by turns",
        &[(A, 1, 1), (C, 1, 3), (Q, 1, 5)],
        &[(P, 1, 4), (B, 1, 2)],
        &[(A, 1, 1), (C, 1, 3), (Q, 1, 5)],
        &[(B, 1, 2), (P, 1, 4)],
        &[(A, 1, 1), (B, 1, 2), (C, 1, 3), (P, 1, 4), (Q, 1, 5)],
    ),
    (
        "the last key of both, and the first of one",
        &[(Q, 1, 10), (A, 1, 1), (Q, 2, 30)],
        &[(B, 7, 0), (Q, 4, 500), (B, 1, 8)],
        &[(A, 1, 1), (Q, 3, 40)],
        &[(B, 8, 8), (Q, 4, 500)],
        &[(A, 1, 1), (B, 8, 8), (Q, 7, 540)],
    ),
    (
        "all keys of both",
        &[(P, 1, 1), (A, 1, 1), (B, 1, 1)],
        &[(B, 1, 1), (P, 1, 1), (A, 1, 1)],
        &[(A, 1, 1), (B, 1, 1), (P, 1, 1)],
        &[(A, 1, 1), (B, 1, 1), (P, 1, 1)],
        &[(A, 2, 2), (B, 2, 2), (P, 2, 2)],
    ),
    (
        "the greatest sums",
        &[(A, MOST - 3, 1), (B, 1, GREATEST - 2)],
        &[(B, 2, 2), (A, 3, 1)],
        &[(A, MOST - 3, 1), (B, 1, GREATEST - 2)],
        &[(A, 3, 1), (B, 2, 2)],
        &[(A, MOST, 2), (B, 3, GREATEST)],
    ),
    (
        "a count of nothing",
        &[(A, 0, 0)],
        &[(A, 0, 6), (B, 0, 0)],
        &[(A, 0, 0)],
        &[(A, 0, 6), (B, 0, 0)],
        &[(A, 0, 6), (B, 0, 0)],
    ),
];

/// Keys in their order.
const RISING: [(u32, u32, u32, u32); 7] = [
    (8, 10, 0, 0),
    (9, 9, 0, 0),
    (0, 1, 1, 1),
    (0, 1, 1, 2),
    (0, 1, 2, 0),
    (0, 2, 1, 0),
    (1, 0, 2, 0),
];

/// Whether the numbers of the table are those of rising keys.
fn keys_rise() -> bool {
    RISING.iter().zip(RISING.iter().skip(1)).all(|(low, high)| {
        let ((a, b, c, d), (e, f, g, h)) = (*low, *high);
        key(a, b, c, d) < key(e, f, g, h)
    })
}

#[test]
fn tallies_add_by_key(rt: HostRuntime) -> Result<(), Fail> {
    let alloc = rt.alloc();
    assert!(rt; keys_rise());
    for (what, first, second, of_first, of_second, of_both) in ROWS {
        assert!(rt; adds(alloc, first, of_first)?, "{what}");
        assert!(rt; adds(alloc, second, of_second)?, "{what}");
        assert!(rt; gathers(alloc, first, of_first)?, "{what}");
        assert!(rt; gathers(alloc, second, of_second)?, "{what}");
        assert!(rt; merges(alloc, first, second, of_both)?, "{what}");
        assert!(rt; merges(alloc, second, first, of_both)?, "{what}");
    }
    assert_eq!(rt; times(7, 6), Some(42));
    assert_eq!(rt; times(GREATEST, 2), None);
    assert_eq!(rt; times(7, 0), Some(u128::zero()));
    laws::merges_add::<u128>();
    laws::sums_are_kept::<u128>();
    Ok(())
}
