//! Whether two nets are the same.

ghost use Rattle.std.specs.Prelude.{◌≡◌, ◌<◌, ◌-◌, ◌↔◌, [], length, get_or, slice_get, IsTrue, IfSome};
ghost use Rattle.std.specs.Str.{bytes_eq};
ghost use Rattle.std.specs.Cmp.Lexicographic.{pointwise};
ghost use Rattle.rc_spef.specs.Sameness.{name_text as name_text_of, named_net};
ghost use Rattle.rc_spef.specs.SameTests.{same_sub as same_sub_of, same_dir as same_dir_of, same_option, same_end as same_end_of, same_conn as same_conn_of, same_cap as same_cap_of, same_resistor as same_resistor_of, same_net as same_net_of};

use crate::value::{Cap, DNet, Dir3, End, Spef, SpefConn, SpefRes, Sub};
use rc_fixed::Text;

/// The lists of names that two values have.
#[derive(Clone, Copy)]
struct Names<'a> {
    ours: &'a [Text],
    theirs: &'a [Text],
}

/// The text of a name, which is told by its place from 1. No bytes where there is none.
fn name_text(names: &[Text], place: u32) -> &[u8]
    ensures { result.now ≡ name_text_of names.now place }
{
    let at = place.saturating_sub(1) as usize;
    match names.get(at) {
        Some(name) => name.bytes(),
        None => &[],
    }
}

/// Whether what stands behind two names is the same.
fn same_sub(a: &Sub, b: &Sub) -> bool
    ensures { result ≡ same_sub_of a.now b.now }
{
    match (a, b) {
        (Sub::Bare, Sub::Bare) => true,
        (Sub::Num(a), Sub::Num(b)) => *a == *b,
        (Sub::Word(a), Sub::Word(b)) => a.bytes() == b.bytes(),
        _ => false,
    }
}

/// Whether two ends are the same.
#[tactic(auto, unfolding(crate::specs::SameTests::same_end))]
fn same_end(names: Names<'_>, a: &End, b: &End) -> bool
    ensures { result ≡ same_end_of names.entry.ours.now names.entry.theirs.now a.now b.now }
{
    name_text(names.ours, a.name) == name_text(names.theirs, b.name) && same_sub(&a.sub, &b.sub)
}

/// Whether two second ends are the same, or both missing.
fn same_second(names: Names<'_>, a: &Option<End>, b: &Option<End>) -> bool
    ensures { result ≡ same_option (same_end_of names.entry.ours.now names.entry.theirs.now) a.now b.now }
{
    match (a, b) {
        (None, None) => true,
        (Some(a), Some(b)) => same_end(names, a, b),
        _ => false,
    }
}

/// Whether two directions are the same.
fn same_dir(a: Dir3, b: Dir3) -> bool
    ensures { result ≡ same_dir_of a b }
{
    match (a, b) {
        (Dir3::I, Dir3::I) | (Dir3::O, Dir3::O) | (Dir3::B, Dir3::B) => true,
        _ => false,
    }
}

/// Whether two cells are the same, or both missing.
fn same_cell(a: &Option<Text>, b: &Option<Text>) -> bool
    ensures { result ≡ same_option bytes_eq a.now b.now }
{
    match (a, b) {
        (None, None) => true,
        (Some(a), Some(b)) => a.bytes() == b.bytes(),
        _ => false,
    }
}

/// Whether two connections are the same.
#[tactic(auto, unfolding(crate::specs::SameTests::same_conn))]
fn same_conn(names: Names<'_>, a: &SpefConn, b: &SpefConn) -> bool
    ensures { result ≡ same_conn_of names.entry.ours.now names.entry.theirs.now a.now b.now }
{
    a.port == b.port
        && same_end(names, &a.end, &b.end)
        && same_dir(a.dir, b.dir)
        && same_cell(&a.cell, &b.cell)
}

/// Whether two capacitances are the same.
#[tactic(auto, unfolding(crate::specs::SameTests::same_cap))]
fn same_cap(names: Names<'_>, a: &Cap, b: &Cap) -> bool
    ensures { result ≡ same_cap_of names.entry.ours.now names.entry.theirs.now a.now b.now }
{
    same_end(names, &a.a, &b.a) && same_second(names, &a.b, &b.b) && a.value.0 == b.value.0
}

/// Whether two resistors are the same.
#[tactic(auto, unfolding(crate::specs::SameTests::same_resistor))]
fn same_resistor(names: Names<'_>, a: &SpefRes, b: &SpefRes) -> bool
    ensures { result ≡ same_resistor_of names.entry.ours.now names.entry.theirs.now a.now b.now }
{
    same_end(names, &a.a, &b.a) && same_end(names, &a.b, &b.b) && a.value.0 == b.value.0
}

/// Whether connections are the same, one by one.
fn same_conns(names: Names<'_>, a: &[SpefConn], b: &[SpefConn]) -> bool
    ensures { result ≡ pointwise (same_conn_of names.entry.ours.now names.entry.theirs.now) a.now b.now }
{
    if a.len() != b.len() {
        return false;
    }
    for k in 0..a.len() {
        if !same_conn(names, &a[k], &b[k]) {
            return false;
        }
    }
    true
}

/// Whether capacitances are the same, one by one.
fn same_caps(names: Names<'_>, a: &[Cap], b: &[Cap]) -> bool
    ensures { result ≡ pointwise (same_cap_of names.entry.ours.now names.entry.theirs.now) a.now b.now }
{
    if a.len() != b.len() {
        return false;
    }
    for k in 0..a.len() {
        if !same_cap(names, &a[k], &b[k]) {
            return false;
        }
    }
    true
}

/// Whether resistors are the same, one by one.
fn same_resistors(names: Names<'_>, a: &[SpefRes], b: &[SpefRes]) -> bool
    ensures { result ≡ pointwise (same_resistor_of names.entry.ours.now names.entry.theirs.now) a.now b.now }
{
    if a.len() != b.len() {
        return false;
    }
    for k in 0..a.len() {
        if !same_resistor(names, &a[k], &b[k]) {
            return false;
        }
    }
    true
}

/// Whether two nets are the same, with the names of each.
#[tactic(auto, unfolding(crate::specs::SameTests::same_net))]
fn same(names: Names<'_>, a: &DNet, b: &DNet) -> bool
    ensures { result ≡ same_net_of names.entry.ours.now names.entry.theirs.now a.now b.now }
{
    name_text(names.ours, a.name) == name_text(names.theirs, b.name)
        && a.total.0 == b.total.0
        && same_conns(names, a.conns.items(), b.conns.items())
        && same_caps(names, a.caps.items(), b.caps.items())
        && same_resistors(names, a.res.items(), b.res.items())
}

/// Whether two nets are equal in order, names compared by their texts.
pub fn same_net(a: &Spef, i: usize, b: &Spef, j: usize) -> bool
    requires i { i < length a.now.nets }
    requires j { j < length b.now.nets }
    ensures { IfSome (slice_get a.now.nets i) (λ one. IfSome (slice_get b.now.nets j) (λ other. IsTrue result ↔ (named_net a.now.names one ≡ named_net b.now.names other))) }
{
    let names = Names {
        ours: a.names.items(),
        theirs: b.names.items(),
    };
    same(names, &a.nets.items()[i], &b.nets.items()[j])
}
