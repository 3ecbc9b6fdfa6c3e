//! The runs of one layer of a column.

ghost use Rattle.std.specs.Prelude.{◌≡◌, ◌≢◌, ◌<ℤ◌, ◌≤ℤ◌, ◌<◌, ◌^◌, ◌+◌, pos, negsuc, All, IfOk, OnOk, ◌++◌, filter};
ghost use Rattle.rc_geom.specs.Rects.{IsNearRect};
ghost use Rattle.rc_geom.specs.Plane.{plane_of};
ghost use Rattle.rc_geom.specs.Line.{line_of, Line};
ghost use Rattle.rc_column.specs.Runs.{AreRuns, crosses as crosses_of, line_below, Fills, goes_on_from, longer as longer_of};

use crate::ends::{Mark, Place, crosses_line, next_place};
use crate::metal::{metal_at, square};
use crate::run::Run;
use rc_fixed::{List, NoMemory};
use rc_geom::Tile;
use std::alloc::Global;

/// Whether a run goes on where another one ends, of the same net and node.
fn goes_on(last: Run, run: Run) -> bool
    ensures { result ≡ goes_on_from last run }
{
    last.hi == run.lo && (last.net == run.net && last.node == run.node)
}

/// A run up to where another one ends.
fn longer(last: Run, run: Run) -> Run
    ensures { result ≡ longer_of last run }
{
    Run { hi: run.hi, ..last }
}

/// Appends a run to those of a line below it. Where it touches the last one and is of its net and node, that one becomes
/// longer.
fn extend(runs: &mut List<Run>, run: Run) -> Result<(), NoMemory>
    ensures { OnOk result ((line : Line) → AreRuns (line_below run.lo line) runs.old → run.lo <ℤ run.hi → Fills line run → AreRuns (line_below run.hi line) runs.new) }
{
    match runs.pop() {
        Some(last) => {
            if goes_on(last, run) {
                return runs.push(longer(last, run));
            }
            runs.push(last)?;
            runs.push(run)
        }
        None => runs.push(run),
    }
}

/// Whether the tile lies on the layer and has squares on the line.
fn crosses(tile: &Tile, line: Mark, layer: u8) -> bool
    ensures { result ≡ crosses_of layer line.axis line.at tile.now }
{
    tile.layer == layer && crosses_line(tile, line)
}

/// Appends those of the tiles that lie on the layer and have squares on the line.
pub fn add_crossing(
    found: &mut List<Tile>,
    tiles: &[Tile],
    line: Mark,
    layer: u8,
) -> Result<(), NoMemory>
    ensures { OnOk result (found.new ≡ found.old ++ filter (crosses_of layer line.axis line.at) tiles.now) }
{
    for tile in tiles {
        if crosses(tile, line, layer) {
            found.push(*tile)?;
        }
    }
    Ok(())
}

/// The runs of a layer on a line of an axis.
pub fn layer_runs(
    alloc: Global,
    tiles: &[Tile],
    line: Mark,
    layer: u8,
) -> Result<List<Run>, NoMemory>
    requires { All (λ t. IsNearRect t.rect) tiles.now }
    ensures { IfOk result (AreRuns (line_of (plane_of tiles.now) layer line.axis line.at)) }
{
    let mut runs = List::new(alloc);
    let mut place = Place {
        axis: line.axis,
        at: -536870914,
    };
    while let Some(next) = next_place(tiles, place) {
        if let Some((net, node)) = metal_at(tiles, layer, square(line, place)) {
            let run = Run {
                lo: place.at,
                hi: next,
                net,
                node,
            };
            extend(&mut runs, run)?;
        }
        place.at = next;
    }
    Ok(runs)
}

/// The same, of tiles in two parts, of which most lie on other layers or off the line.
pub fn crossing_runs(
    alloc: Global,
    before: &[Tile],
    after: &[Tile],
    line: Mark,
    layer: u8,
) -> Result<List<Run>, NoMemory>
    requires { All (λ t. IsNearRect t.rect) (before.now ++ after.now) }
    ensures { IfOk result (AreRuns (line_of (plane_of (before.now ++ after.now)) layer line.axis line.at)) }
{
    let mut found = List::new(alloc);
    add_crossing(&mut found, before, line, layer)?;
    add_crossing(&mut found, after, line, layer)?;
    layer_runs(alloc, found.items(), line, layer)
}
