//! The centrelines of a net's pieces, by the rows and columns on which they lie.
ghost use Rattle.std.specs.Prelude.{◌≡◌, ◌<◌, ◌++◌, ◌∷◌, List, length, IfOk, OnOk};
ghost use Rattle.rc_nodes.specs.declared.centreline.Centreline.{Centreline};
ghost use Rattle.rc_nodes.specs.Crossings.{runs as runs_of, centreline_of as centreline_of_item, centrelines_of, overlaps as overlaps_of, joined as joined_of, merged as merged_of, merged_onto, AreWithin, HaveSamePlaces, InRows, IsInOrder, IsMoved};

use crate::line::{across, along, is_level};
use rc_fixed::NoMemory;
use rc_layout::{Item, ItemKind};
use std::alloc::Global;

/// The centreline of a piece: where it stands across its axis, and from where to where it runs along it.
#[derive(Clone, Copy, Debug, PartialEq, Eq, PartialOrd, Ord)]
pub struct Centreline {
    pub layer: u8,
    pub line: i32,
    pub from: i32,
    pub to: i32,
}

/// The rows from that of one centreline to that of another.
#[derive(Clone, Copy, Debug)]
pub struct Rows {
    pub first: Centreline,
    pub last: Centreline,
}

/// Whether an item is a piece of this axis.
fn runs(level: bool, item: &Item) -> bool
    ensures { result ≡ runs_of level item.now }
{
    item.kind == ItemKind::Piece && is_level(item) == level
}

/// The centreline of an item.
fn centreline_of(item: &Item) -> Centreline
    ensures { result ≡ centreline_of_item item.now }
{
    Centreline {
        layer: item.layer,
        line: across(item, item.a),
        from: along(item, item.a),
        to: along(item, item.b),
    }
}

/// The centrelines of the pieces of one axis, in the order of the items.
fn centrelines(alloc: Global, level: bool, items: &[Item]) -> Result<Vec<Centreline>, NoMemory>
    ensures { IfOk result (λ centrelines. centrelines.items ≡ centrelines_of level items.now) }
{
    let mut centrelines = Vec::new(alloc);
    for item in items {
        if runs(level, item) {
            centrelines.push(centreline_of(item))?;
        }
    }
    Ok(centrelines)
}

/// The same, by layer, line and where they begin.
fn sorted_centrelines(
    alloc: Global,
    level: bool,
    items: &[Item],
) -> Result<Vec<Centreline>, NoMemory>
    ensures moved { IfOk result (λ centrelines. IsMoved level items.now centrelines.items) }
    ensures order { IfOk result (λ centrelines. IsInOrder centrelines.items) }
{
    let mut centrelines = centrelines(alloc, level, items)?;
    centrelines.sort_unstable();
    Ok(centrelines)
}

/// Whether two centrelines lie on one line and have a place in common.
fn overlaps(a: &Centreline, b: &Centreline) -> bool
    ensures { result ≡ overlaps_of a.now b.now }
{
    a.layer == b.layer && a.line == b.line && (a.from <= b.to && b.from <= a.to)
}

/// Two centrelines of one line as one.
fn joined(a: &Centreline, b: &Centreline) -> Centreline
    ensures { result ≡ joined_of a.now b.now }
{
    Centreline {
        layer: a.layer,
        line: a.line,
        from: a.from.min(b.from),
        to: a.to.max(b.to),
    }
}

/// Adds a centreline to those of lower rows and places: to the last one where they overlap.
fn add_merged(
    merged: &mut Vec<Centreline>,
    last: &mut Centreline,
    next: &Centreline,
) -> Result<(), NoMemory>
    ensures { OnOk result ((later : List Centreline) → merged.new.items ++ merged_onto last.new later ≡ merged.old.items ++ merged_onto last.old (next.now ∷ later)) }
{
    if overlaps(last, next) {
        *last = joined(last, next);
        return Ok(());
    }
    merged.push(*last)?;
    *last = *next;
    Ok(())
}

/// Those of one line that overlap as one, where they stand in order.
fn merged(alloc: Global, centrelines: &[Centreline]) -> Result<Vec<Centreline>, NoMemory>
    ensures { IfOk result (λ merged. merged.items ≡ merged_of centrelines.now) }
{
    let mut merged = Vec::new(alloc);
    if centrelines.is_empty() {
        return Ok(merged);
    }
    let mut last = centrelines[0];
    for k in 1..centrelines.len() {
        add_merged(&mut merged, &mut last, &centrelines[k])?;
    }
    merged.push(last)?;
    Ok(merged)
}

/// The centrelines of the pieces of one axis by rows, without overlaps.
pub fn rows_of_pieces(
    alloc: Global,
    level: bool,
    items: &[Item],
) -> Result<Vec<Centreline>, NoMemory>
    ensures rows { IfOk result (λ centrelines. InRows centrelines.items) }
    ensures places { IfOk result (λ centrelines. HaveSamePlaces (centrelines_of level items.now) centrelines.items) }
{
    let sorted = sorted_centrelines(alloc, level, items)?;
    let merged = merged(alloc, &sorted)?;
    Ok(merged)
}

/// The rows from that of the first centreline to that of the last.
pub fn rows_of(levels: &[Centreline]) -> Rows
    requires some { 0 < length levels.now }
    requires rows { InRows levels.now }
    ensures { AreWithin result levels.now }
{
    Rows {
        first: levels[0],
        last: levels[levels.len() - 1],
    }
}
