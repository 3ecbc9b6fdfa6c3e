//! All windows of a grid, swept by workers.

ghost use Rattle.std.specs.Prelude.{◌≡◌, ◌≤◌, ◌^◌, length, All, IfOk};
ghost use Rattle.rc_geom.specs.Rects.{IsNearRect};
ghost use Rattle.rc_rows_sweep.specs.Scenes.{IsScene};
ghost use Rattle.rc_windows.specs.Frames.{window_count};

use rc_fixed::{List, NoMemory};
use rc_geom::Tile;
use rc_rows_sweep::RowRates;
use rc_sweep::{CountMeter, Window};
use rc_tally::Tally;
use rc_windows::{Gate, Grid, Index, sweep_many};
use std::alloc::Global;
use std::thread::Threads;

/// The tallies of all windows, and how many passes were drawn for them.
#[derive(Drop)]
pub struct Sweep {
    pub tallies: List<Tally<u128>>,
    pub drawn: u64,
}

/// All windows of a grid, by their numbers.
pub fn windows_of(alloc: Global, grid: &Grid) -> Result<Vec<Window>, NoMemory>
    ensures count { IfOk result (λ windows. length windows.items ≡ window_count grid.now) }
    ensures few { IfOk result (λ windows. length windows.items ≤ 2 ^ 20) }
    ensures near { IfOk result (λ windows. All (λ w. IsNearRect w.rect) windows.items) }
{
    let mut windows = Vec::new(alloc);
    for k in 0..grid.count() {
        windows.push(grid.window(k))?;
    }
    Ok(windows)
}

/// Sweeps all windows of the grid, each with those of the tiles that matter to it.
pub fn swept<T: Threads + Sync, G: Gate>(
    rt: &T,
    alloc: Global,
    grid: &Grid,
    tiles: &[Tile],
    rates: &RowRates,
    workers: u32,
    gate: &G,
) -> Result<Sweep, NoMemory>
    requires scene { IsScene tiles.now }
    requires few { length tiles.now ≤ 2 ^ 20 }
    requires some { 1 ≤ workers }
    requires most { workers ≤ 64 }
{
    let windows = windows_of(alloc, grid)?;
    let index = Index::new(alloc, grid, tiles)?;
    let mut meter = CountMeter::new();
    let tallies = sweep_many::<T, RowRates, G, CountMeter>(
        rt,
        alloc,
        &windows,
        index.lists(),
        workers,
        rates,
        gate,
        &mut meter,
    )?;
    Ok(Sweep {
        tallies,
        drawn: meter.count(),
    })
}
