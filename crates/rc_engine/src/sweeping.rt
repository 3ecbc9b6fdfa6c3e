//! The windows of a layout, and what they add up to.

ghost use Rattle.std.specs.Prelude.{◌≡◌, ◌≤◌, ◌+◌, ◌*◌, ◌^◌, All, IfOk, OnOk, length};
ghost use Rattle.rc_geom.specs.Sums.{numbers};
ghost use Rattle.rc_tally.specs.Tallies.{IsRising};
ghost use Rattle.rc_rules.specs.LookUp.{rates, halo_of};
ghost use Rattle.rc_windows.specs.Frames.{window_count, IsFrame};
ghost use Rattle.rc_windows.specs.Indexes.{near_lists};
ghost use Rattle.rc_windows.specs.Sweeps.{AreTalliesOf};
ghost use Rattle.rc_engine.specs.Windows.{layout_tiles, windows_of, IsExtractable};
ghost use Rattle.rc_engine.specs.Start.{grid_of};

use crate::area::bounds;
use rc_fixed::{List, NoMemory};
use rc_geom::Tile;
use rc_layout::Layout;
use rc_rules::Rules;
use rc_sweep::{Meter, Window};
use rc_tally::Tally;
use rc_windows::{Gate, Grid, Index, sweep_many};
use std::alloc::Global;
use std::thread::Threads;

/// A grid, for each of its windows the tiles that matter to it, and what its faces add up to.
#[derive(Drop)]
pub struct WindowSums {
    pub grid: Grid,
    pub index: Index,
    pub tallies: List<Tally<u128>>,
}

/// The grid of a layout by its rules.
fn grid_for(layout: &Layout, rules: &Rules) -> Grid
    ensures is { result ≡ grid_of layout.now rules.now }
    ensures halo { result.halo ≡ halo_of rules.now }
    ensures frame { IsFrame result }
{
    Grid::new(bounds(layout), rules.halo())
}

/// The windows of a grid, in their order.
fn windows(alloc: Global, grid: &Grid) -> Result<List<Window>, NoMemory>
    ensures { IfOk result (λ windows. windows ≡ windows_of grid.now) }
{
    let mut windows = List::with_capacity(alloc, grid.count() as usize)?;
    for k in 0..grid.count() {
        windows.push(grid.window(k))?;
    }
    Ok(windows)
}

/// The keys of each tally rise. Nothing is computed here.
pub fn rise(tallies: &[Tally<u128>])
    ensures { All IsRising tallies.now }
{
    for tally in tallies {
        let _entries = tally.entries();
    }
}

/// Sweeps all windows of a layout that can be extracted, by its tiles. Two passes a window are drawn.
///
/// # Errors
///
/// `NoMemory` for want of memory.
pub fn swept<T: Threads + Sync, G: Gate, M: Meter>(
    rt: &T,
    alloc: Global,
    layout: &Layout,
    rules: &Rules,
    tiles: &[Tile],
    workers: u32,
    gate: &G,
    meter: &mut M,
) -> Result<WindowSums, NoMemory>
    requires layout { IsExtractable layout.now rules.now }
    requires tiles { tiles.now ≡ layout_tiles layout.now }
    requires some { 1 ≤ workers }
    requires most { workers ≤ 64 }
    requires drawn { M.drawn meter.old ≤ 2 ^ 62 }
    ensures grid { IfOk result (λ swept. swept.grid ≡ grid_of layout.now rules.now) }
    ensures index { IfOk result (λ swept. swept.index ≡ near_lists swept.grid (layout_tiles layout.now)) }
    ensures count { IfOk result (λ swept. length swept.index ≡ window_count swept.grid) }
    ensures tallies { IfOk result (λ swept. AreTalliesOf numbers (rates rules.now) (windows_of swept.grid) (near_lists swept.grid (layout_tiles layout.now)) swept.tallies) }
    ensures rising { IfOk result (λ swept. All IsRising swept.tallies) }
    ensures frame { IfOk result (λ swept. IsFrame swept.grid) }
    ensures halo { IfOk result (λ swept. swept.grid.halo ≡ halo_of rules.now) }
    ensures ok { OnOk result (M.drawn meter.new ≡ M.drawn meter.old + 2 * window_count (grid_of layout.now rules.now)) }
    ensures least { M.drawn meter.old ≤ M.drawn meter.new }
    ensures spent { M.drawn meter.new ≤ M.drawn meter.old + 2 * window_count (grid_of layout.now rules.now) }
{
    let grid = grid_for(layout, rules);
    let index = Index::new(alloc, &grid, tiles)?;
    let windows = windows(alloc, &grid)?;
    let tallies = sweep_many(
        rt,
        alloc,
        windows.items(),
        index.lists(),
        workers,
        rules,
        gate,
        meter,
    )?;
    rise(tallies.items());
    Ok(WindowSums {
        grid,
        index,
        tallies,
    })
}
