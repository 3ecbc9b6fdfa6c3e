//! Where horizontal and vertical centrelines of a net cross.
ghost use Rattle.std.specs.Prelude.{◌≡◌, ◌≤◌, ◌<◌, ◌++◌, ◌↔◌, true, false, length, filter, All, Contains, IfErr, IfOk, OnOk};
ghost use Rattle.std.specs.List.Sorted.{IsPartitionPoint};
ghost use Rattle.rc_layout.specs.Items.{IsItem};
ghost use Rattle.rc_nodes.specs.declared.node.Node.{Node};
ghost use Rattle.rc_nodes.specs.Nodes.{IsCrossing};
ghost use Rattle.rc_nodes.specs.Crossings.{is_across as is_across_of, is_beside as is_beside_of, is_met as is_met_of, meeting as meeting_of, meetings, reaches as reaches_of, starts_before as starts_before_of, ends_before as ends_before_of, Adds, Either, InRows, IsFull, IsMeeting};

use crate::Node;
use crate::centreline::{Centreline, Rows, rows_of, rows_of_pieces};
use rc_fixed::NoMemory;
use rc_geom::Pt;
use rc_keys::{Fault, Quantity, Refusal};
use rc_layout::Item;
use std::alloc::Global;

/// So few centrelines are tried one by one.
const FEW: usize = 8;

/// Repeated nodes are let go once there are so many more than twice the room.
const SPARE: usize = 64;

/// Whether a centreline of the other axis stands before all that can meet the probe.
fn starts_before(probe: &Centreline, other: &Centreline) -> bool
    ensures { result ≡ starts_before_of probe.now other.now }
{
    other.layer < probe.layer || (other.layer == probe.layer && other.line < probe.from)
}

/// Whether all that can meet the probe stand before a centreline of the other axis.
fn ends_before(probe: &Centreline, other: &Centreline) -> bool
    ensures { result ≡ ends_before_of probe.now other.now }
{
    probe.layer < other.layer || (probe.layer == other.layer && probe.to < other.line)
}

/// Whether the probe and a centreline of the other axis have a point in common.
fn is_met(probe: &Centreline, other: &Centreline) -> bool
    ensures { result ≡ is_met_of probe.now other.now }
{
    other.layer == probe.layer
        && (probe.from <= other.line && other.line <= probe.to)
        && (other.from <= probe.line && probe.line <= other.to)
}

/// The point that a horizontal centreline has in common with a vertical one.
fn meeting(probe: &Centreline, other: &Centreline) -> Node
    ensures { result ≡ meeting_of probe.now other.now }
{
    Node {
        layer: probe.layer,
        at: Pt {
            x: other.line,
            y: probe.line,
        },
    }
}

/// How many centrelines stand before those that can meet the probe.
fn first_met(probe: &Centreline, others: &[Centreline]) -> usize
    requires { InRows others.now }
    ensures bound { result ≤ length others.now }
    ensures parted { IsPartitionPoint (λ other. starts_before_of probe.now other ≡ true) (λ other. starts_before_of probe.now other ≡ false) others.now result }
{
    others.partition_point(|other| starts_before(probe, other))
}

/// Adds the points that a horizontal centreline has in common with vertical ones.
fn add_meetings(
    nodes: &mut Vec<Node>,
    probe: &Centreline,
    others: &[Centreline],
) -> Result<(), NoMemory>
    requires { InRows others.now }
    ensures { OnOk result (nodes.new.items ≡ nodes.old.items ++ meetings others.now probe.now) }
{
    for k in first_met(probe, others)..others.len() {
        let other = &others[k];
        if ends_before(probe, other) {
            return Ok(());
        }
        if is_met(probe, other) {
            nodes.push(meeting(probe, other))?;
        }
    }
    Ok(())
}

/// Lets repeated nodes go where there are many, and tells whether the others are too many.
fn settle(nodes: &mut Vec<Node>, room: u32) -> Result<(), Fault>
    ensures kept { OnOk result ((node : Node) → Contains nodes.new.items node ↔ Contains nodes.old.items node) }
    ensures full { IfErr result (IsFull room (λ node. Contains nodes.old.items node)) }
{
    if nodes.len() <= 2 * room as usize + SPARE {
        return Ok(());
    }
    nodes.sort_unstable();
    nodes.dedup();
    if nodes.len() > room as usize {
        return Err(Fault::Refused(Refusal::Limit {
            what: Quantity::Nodes,
        }));
    }
    Ok(())
}

/// Adds the points that horizontal centrelines have in common with vertical ones, each with each.
fn add_all_meetings(
    nodes: &mut Vec<Node>,
    levels: &[Centreline],
    uprights: &[Centreline],
    room: u32,
) -> Result<(), Fault>
    requires { InRows uprights.now }
    ensures found { OnOk result (Adds (IsMeeting levels.now uprights.now) nodes.old.items nodes.new.items) }
    ensures full { IfErr result (IsFull room (Either nodes.old.items (IsMeeting levels.now uprights.now))) }
{
    for level in levels {
        add_meetings(nodes, level, uprights)?;
        settle(nodes, room)?;
    }
    Ok(())
}

/// Whether a vertical centreline crosses all rows.
fn is_across(rows: &Rows, upright: &Centreline) -> bool
    ensures { result ≡ is_across_of rows.now upright.now }
{
    upright.layer == rows.first.layer
        && upright.layer == rows.last.layer
        && (upright.from <= rows.first.line && rows.last.line <= upright.to)
}

/// Whether a vertical centreline has a place in the rows.
fn reaches(rows: &Rows, upright: &Centreline) -> bool
    ensures { result ≡ reaches_of rows.now upright.now }
{
    !ends_before(upright, &rows.first) && !starts_before(upright, &rows.last)
}

/// The vertical centrelines that cross all rows.
fn those_across(
    alloc: Global,
    rows: &Rows,
    uprights: &[Centreline],
) -> Result<Vec<Centreline>, NoMemory>
    requires { InRows uprights.now }
    ensures are { IfOk result (λ kept. kept.items ≡ filter (is_across_of rows.now) uprights.now) }
    ensures rows { IfOk result (λ kept. InRows kept.items) }
{
    let mut kept = Vec::new(alloc);
    for upright in uprights {
        if is_across(rows, upright) {
            kept.push(*upright)?;
        }
    }
    Ok(kept)
}

/// Whether a vertical centreline reaches a part of the rows and doesn't cross all of them.
#[tactic(auto, unfolding(crate::specs::Crossings::is_beside))]
fn is_beside(all: &Rows, part: &Rows, upright: &Centreline) -> bool
    ensures { result ≡ is_beside_of all.now part.now upright.now }
{
    !is_across(all, upright) && reaches(part, upright)
}

/// The vertical centrelines that reach a part of the rows and don't cross all of them.
fn those_beside(
    alloc: Global,
    all: &Rows,
    part: &Rows,
    uprights: &[Centreline],
) -> Result<Vec<Centreline>, NoMemory>
    requires { InRows uprights.now }
    ensures are { IfOk result (λ kept. kept.items ≡ filter (is_beside_of all.now part.now) uprights.now) }
    ensures rows { IfOk result (λ kept. InRows kept.items) }
{
    let mut kept = Vec::new(alloc);
    for upright in uprights {
        if is_beside(all, part, upright) {
            kept.push(*upright)?;
        }
    }
    Ok(kept)
}

/// The lower and the upper half of some rows.
fn halves(levels: &[Centreline]) -> (&[Centreline], &[Centreline])
    requires few { 2 ≤ length levels.now }
    requires rows { InRows levels.now }
    ensures all { levels.now ≡ result.0.now ++ result.1.now }
    ensures low { 0 < length result.0.now }
    ensures high { 0 < length result.1.now }
    ensures in_low { InRows result.0.now }
    ensures in_high { InRows result.1.now }
{
    levels.split_at(levels.len() / 2)
}

/// Adds the points that horizontal centrelines have in common with vertical ones that cross all their rows.
fn add_across(
    alloc: Global,
    nodes: &mut Vec<Node>,
    levels: &[Centreline],
    rows: &Rows,
    uprights: &[Centreline],
    room: u32,
) -> Result<(), Fault>
    requires { InRows uprights.now }
    ensures found { OnOk result (Adds (IsMeeting levels.now (filter (is_across_of rows.now) uprights.now)) nodes.old.items nodes.new.items) }
    ensures full { IfErr result (IsFull room (Either nodes.old.items (IsMeeting levels.now (filter (is_across_of rows.now) uprights.now)))) }
{
    let across = those_across(alloc, rows, uprights)?;
    add_all_meetings(nodes, levels, &across, room)?;
    Ok(())
}

/// Adds the points that horizontal centrelines have in common with vertical ones.
///
/// The rows are halved until few are left. A vertical centreline that crosses all rows of a half meets those of them whose
/// extent has its line, and search finds these; one that doesn't goes on with the halves that it reaches, of which there are
/// few, since it has two ends. So what costs time is the centrelines, times how often they can be halved, and the points.
fn add_common(
    alloc: Global,
    nodes: &mut Vec<Node>,
    levels: &[Centreline],
    uprights: &[Centreline],
    room: u32,
) -> Result<(), Fault>
    requires levels { InRows levels.now }
    requires uprights { InRows uprights.now }
    ensures found { OnOk result (Adds (IsMeeting levels.now uprights.now) nodes.old.items nodes.new.items) }
    ensures full { IfErr result (IsFull room (Either nodes.old.items (IsMeeting levels.now uprights.now))) }
{
    if levels.len() <= FEW || uprights.len() <= FEW {
        return add_all_meetings(nodes, levels, uprights, room);
    }
    let (low, high) = halves(levels);
    let all = rows_of(levels);
    let below = those_beside(alloc, &all, &rows_of(low), uprights)?;
    let above = those_beside(alloc, &all, &rows_of(high), uprights)?;
    add_across(alloc, nodes, levels, &all, uprights, room)?;
    add_common(alloc, nodes, low, &below, room)?;
    add_common(alloc, nodes, high, &above, room)?;
    Ok(())
}

/// Adds each point that a horizontal and a vertical centreline share on a layer.
///
/// # Errors
///
/// `Limit { Nodes }` only where there are more different nodes than `room`; `NoMemory` for want of memory.
pub fn add_crossings(
    alloc: Global,
    nodes: &mut Vec<Node>,
    items: &[Item],
    room: u32,
) -> Result<(), Fault>
    requires { All IsItem items.now }
    ensures found { OnOk result (Adds (IsCrossing items.now) nodes.old.items nodes.new.items) }
    ensures full { IfErr result (IsFull room (Either nodes.old.items (IsCrossing items.now))) }
{
    let levels = rows_of_pieces(alloc, true, items)?;
    let uprights = rows_of_pieces(alloc, false, items)?;
    add_common(alloc, nodes, &levels, &uprights, room)?;
    Ok(())
}
