//! The windows that an edit touches, and what they add up to with it.

ghost use Rattle.std.specs.Prelude.{◌≡◌, ◌<◌, ◌≤◌, ◌+◌, ◌*◌, ◌^◌, ◌++◌, ℕ, [], nat_lt, All, IfOk, OnOk, length, map, slice_index_or};
ghost use Rattle.std.specs.List.Sorted.{IsStrictlyIncreasing};
ghost use Rattle.rc_geom.specs.Sums.{numbers};
ghost use Rattle.rc_tally.specs.Tallies.{IsRising};
ghost use Rattle.rc_rules.specs.LookUp.{rates};
ghost use Rattle.rc_rules.specs.RuleFile.{HasRules};
ghost use Rattle.rc_windows.specs.Frames.{window_count, touched, IsFrame};
ghost use Rattle.rc_windows.specs.Indexes.{changed_list};
ghost use Rattle.rc_windows.specs.Sweeps.{AreTalliesOf, CanSweepBoth};
ghost use Rattle.rc_engine.specs.Windows.{window_of};
ghost use Rattle.rc_engine.specs.Start.{net_rects};

use crate::sweeping::rise;
use rc_fixed::{List, NoMemory};
use rc_geom::{Rect, Tile};
use rc_layout::{Item, Net};
use rc_rules::Rules;
use rc_sweep::{Meter, Window};
use rc_tally::Tally;
use rc_windows::{Gate, Grid, Index, sweep_many};
use std::alloc::Global;
use std::thread::Threads;

/// The windows that an edit touches, by rising numbers, for each the tiles that matter to it, and what its faces add up to.
#[derive(Drop)]
pub struct Resweep {
    pub windows: List<u32>,
    pub lists: List<List<Tile>>,
    pub tallies: List<Tally<u128>>,
}

/// The rectangles of items.
pub fn rects(alloc: Global, items: &[Item]) -> Result<Vec<Rect>, NoMemory>
    ensures { IfOk result (λ rects. rects.items ≡ map (λ item. item.rect) items.now) }
{
    let mut rects = Vec::with_capacity(alloc, items.len())?;
    for item in items {
        rects.push(item.rect)?;
    }
    Ok(rects)
}

/// The windows of a grid that have these numbers.
fn windows_at(alloc: Global, grid: &Grid, list: &[u32]) -> Result<List<Window>, NoMemory>
    requires { All (λ k. k < window_count grid.now) list.now }
    ensures { IfOk result (λ windows. windows ≡ map (window_of grid.now) list.now) }
{
    let mut windows = List::with_capacity(alloc, list.len())?;
    for k in list {
        windows.push(grid.window(*k))?;
    }
    Ok(windows)
}

/// The windows that the old or the new items of a net touch.
pub fn touched_by(alloc: Global, grid: &Grid, old: &Net, new: &Net) -> Result<List<u32>, NoMemory>
    ensures list { IfOk result (λ list. list ≡ touched grid.now (net_rects old.now ++ net_rects new.now)) }
    ensures rising { IfOk result IsStrictlyIncreasing }
    ensures range { IfOk result (All (λ k. k < window_count grid.now)) }
{
    let before = rects(alloc, old.items.items())?;
    let after = rects(alloc, new.items.items())?;
    grid.touched(alloc, &before, &after)
}

/// Sweeps the windows that the old or the new items of a net touch, by the net's new tiles in place of its old ones, with so
/// many workers. Two passes a window are drawn. The index stays as it is.
///
/// # Errors
///
/// `NoMemory` for want of memory.
pub fn sweep_touched<T: Threads + Sync, G: Gate, M: Meter>(
    rt: &T,
    alloc: Global,
    grid: &Grid,
    index: &Index,
    rules: &Rules,
    workers: u32,
    number: u32,
    old: &Net,
    new: &Net,
    tiles: &[Tile],
    gate: &G,
    meter: &mut M,
) -> Result<Resweep, NoMemory>
    requires frame { IsFrame grid.now }
    requires index { length index.now ≡ window_count grid.now }
    requires some { 1 ≤ workers }
    requires most { workers ≤ 64 }
    requires drawn { M.drawn meter.old ≤ 2 ^ 62 }
    requires can { (k : ℕ) → k < window_count grid.now → CanSweepBoth numbers (λ v. nat_lt v (2 ^ 128)) (HasRules rules.now) (rates rules.now) (window_of grid.now k) (changed_list grid.now number tiles.now k (slice_index_or index.now k [])) }
    ensures windows { IfOk result (λ swept. swept.windows ≡ touched grid.now (net_rects old.now ++ net_rects new.now)) }
    ensures increasing { IfOk result (λ swept. IsStrictlyIncreasing swept.windows) }
    ensures range { IfOk result (λ swept. All (λ k. k < window_count grid.now) swept.windows) }
    ensures lists { IfOk result (λ swept. swept.lists ≡ map (λ k. changed_list grid.now number tiles.now k (slice_index_or index.now k [])) swept.windows) }
    ensures tallies { IfOk result (λ swept. AreTalliesOf numbers (rates rules.now) (map (window_of grid.now) swept.windows) swept.lists swept.tallies) }
    ensures rising { IfOk result (λ swept. All IsRising swept.tallies) }
    ensures ok { IfOk result (λ swept. M.drawn meter.new ≡ M.drawn meter.old + 2 * length swept.windows) }
    ensures least { M.drawn meter.old ≤ M.drawn meter.new }
    ensures spent { M.drawn meter.new ≤ M.drawn meter.old + 2 * length (touched grid.now (net_rects old.now ++ net_rects new.now)) }
{
    let list = touched_by(alloc, grid, old, new)?;
    let lists = index.changed(grid, list.items(), number, tiles)?;
    let windows = windows_at(alloc, grid, list.items())?;
    let tallies = sweep_many(
        rt,
        alloc,
        windows.items(),
        lists.items(),
        workers,
        rules,
        gate,
        meter,
    )?;
    rise(tallies.items());
    Ok(Resweep {
        windows: list,
        lists,
        tallies,
    })
}
