//! The nodes of a net by rows and by columns, in which those on a centreline are found.
ghost use Rattle.std.specs.Prelude.{◌≡◌, ◌≤◌, ◌<◌, ◌+◌, ◌^◌, pos, true, false, length, map, IfOk, filter};
ghost use Rattle.std.specs.List.Sorted.{IsPartitionPoint};
ghost use Rattle.rc_layout.specs.Items.{is_level as is_level_of, along as along_of};
ghost use Rattle.rc_nodes.specs.Nodes.{numbered};
ghost use Rattle.rc_nodes.specs.Lines.{AreTaps, InLine, AreLined, tap_of, across as across_of, lies_on as lies_on_of, starts_before as starts_before_of};

use crate::Node;
use rc_fixed::NoMemory;
use rc_geom::Pt;
use rc_layout::Item;
use smallvec::SmallVec;
use std::alloc::Global;
use std::marker::Model;

/// A node on its row or on its column of a layer: the line's coordinate, and the node's own along the line.
#[derive(Clone, Copy, Debug, Default, PartialEq, Eq, PartialOrd, Ord)]
pub struct Tap {
    pub layer: u8,
    pub line: i32,
    pub along: i32,
    pub node: u32,
}

/// The nodes on the centreline of one item, which are few.
pub type Taps = SmallVec<Tap, 8>;

/// Whether the centreline of an item is horizontal, or a point.
pub fn is_level(item: &Item) -> bool
    ensures { result ≡ is_level_of item.now }
{
    item.a.y == item.b.y
}

/// Where a point lies along the axis of an item.
pub fn along(item: &Item, p: Pt) -> i32
    ensures { result ≡ along_of item.now p }
{
    if is_level(item) { p.x } else { p.y }
}

/// Where a point lies across the axis of an item.
pub fn across(item: &Item, p: Pt) -> i32
    ensures { result ≡ across_of item.now p }
{
    if is_level(item) { p.y } else { p.x }
}

/// Whether a tap lies on the centreline of an item.
fn lies_on(item: &Item, tap: &Tap) -> bool
    ensures { result ≡ lies_on_of item.now tap.now }
{
    tap.layer == item.layer
        && tap.line == across(item, item.a)
        && along(item, item.a) <= tap.along
        && tap.along <= along(item, item.b)
}

/// A numbered node on its row, or on its column.
fn tap_at(level: bool, node: Node, number: u32) -> Tap
    ensures { result ≡ tap_of level (number, node) }
{
    let Pt { x, y } = node.at;
    let (line, along) = if level { (y, x) } else { (x, y) };
    Tap {
        layer: node.layer,
        line,
        along,
        node: number,
    }
}

/// The nodes by row, or by column, in the order of their numbers.
fn unsorted(alloc: Global, nodes: &[Node], level: bool) -> Result<Vec<Tap>, NoMemory>
    requires { length nodes.now ≤ 2 ^ 22 }
    ensures { IfOk result (λ taps. taps.items ≡ map (tap_of level) (numbered nodes.now)) }
{
    let mut taps = Vec::with_capacity(alloc, nodes.len())?;
    for k in 0..nodes.len() as u32 {
        taps.push(tap_at(level, nodes[k as usize], k + 1))?;
    }
    Ok(taps)
}

/// The nodes by row, or by column, in order.
fn taps(alloc: Global, nodes: &[Node], level: bool) -> Result<Vec<Tap>, NoMemory>
    requires { length nodes.now ≤ 2 ^ 22 }
    ensures { IfOk result (λ taps. AreTaps level nodes.now taps.items) }
{
    let mut taps = unsorted(alloc, nodes, level)?;
    taps.sort_unstable();
    Ok(taps)
}

/// The nodes of a net by rows and by columns, in which those on the centreline of each item are found by search. Counting the
/// tiles of a net, making them and finding its wires all need it; it is made once.
#[derive(Drop)]
pub struct Lines {
    rows: Vec<Tap>,
    columns: Vec<Tap>,
}

impl Model for Lines {
    ghost use Rattle.rc_nodes.specs.Lines.{Lined};

    ghost Value = { Lined };

    ghost view = { λ lines. record { rows = lines.rows.items; columns = lines.columns.items } };
}

impl Lines {
    /// The nodes by rows and by columns.
    ///
    /// # Errors
    ///
    /// `NoMemory` for want of memory.
    pub fn new(alloc: Global, nodes: &[Node]) -> Result<Lines, NoMemory>
        requires { length nodes.now ≤ 2 ^ 22 }
        ensures { IfOk result (AreLined nodes.now) }
    {
        let rows = taps(alloc, nodes, true)?;
        let columns = taps(alloc, nodes, false)?;
        Ok(Lines { rows, columns })
    }

    /// The nodes by rows.
    pub(crate) fn rows(&self) -> &[Tap]
        ensures { result.now ≡ self.now.rows }
    {
        &self.rows
    }

    /// The nodes by columns.
    pub(crate) fn columns(&self) -> &[Tap]
        ensures { result.now ≡ self.now.columns }
    {
        &self.columns
    }
}

/// Whether a tap comes before all that lie on the centreline of an item.
fn starts_before(item: &Item, tap: &Tap) -> bool
    ensures { result ≡ starts_before_of item.now tap.now }
{
    let first = Tap {
        layer: item.layer,
        line: across(item, item.a),
        along: along(item, item.a),
        node: 0,
    };
    *tap < first
}

/// How many taps come before those on the centreline of an item.
fn first_on(item: &Item, taps: &[Tap]) -> usize
    requires { InLine taps.now }
    ensures bound { result ≤ length taps.now }
    ensures parted { IsPartitionPoint (λ tap. starts_before_of item.now tap ≡ true) (λ tap. starts_before_of item.now tap ≡ false) taps.now result }
{
    taps.partition_point(|tap| starts_before(item, tap))
}

/// The taps on the centreline of an item, among those of its axis.
pub fn taps_on(alloc: Global, item: &Item, taps: &[Tap]) -> Result<Taps, NoMemory>
    requires { InLine taps.now }
    ensures { IfOk result (λ on. on.items ≡ filter (lies_on_of item.now) taps.now) }
{
    let mut on = SmallVec::new(alloc);
    for k in first_on(item, taps)..taps.len() {
        if !lies_on(item, &taps[k]) {
            return Ok(on);
        }
        on.push(taps[k])?;
    }
    Ok(on)
}
