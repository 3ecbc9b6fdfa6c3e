//! Tiles and windows that can be swept.

ghost use Rattle.std.specs.Prelude.{◌≡◌, ◌+◌, ◌^◌, ◌-ℤ◌, ◌≤ℤ◌, ◌<ℤ◌, ◌<◌, pos, negsuc, true, All};
ghost use Rattle.rc_geom.specs.Rects.{IsNearRect};
ghost use Rattle.rc_column.specs.Runs.{crosses_line as crosses_line_of};
ghost use Rattle.rc_rows_sweep.specs.Scenes.{IsTile, Agree, IsScene, IsWindow, IsSmall};

use crate::rates::RowRates;
use rc_column::{Edits, Mark, crosses_line};
use rc_fixed::NoMemory;
use rc_geom::{Rect, Tile, meets};
use rc_sweep::{CountMeter, Meter, Window, sweep_window};
use rc_tally::{Entry, Tally};
use std::alloc::{AllocError, Global};
use std::marker::Model;

/// Tiles that make a plane: overlapping tiles of one net differ in rank, and tiles of different nets share no square.
#[derive(Drop)]
pub struct Scene {
    tiles: Vec<Tile>,
}

impl Model for Scene {
    ghost use Rattle.std.specs.Prelude.{List};
    ghost use Rattle.rc_geom.specs.declared.tile.Tile.{Tile};
    ghost use Rattle.rc_rows_sweep.specs.Scenes.{IsScene};

    ghost Value = { List Tile };

    ghost view = { λ scene. scene.tiles.items };

    ghost invariant = { λ scene. IsScene scene.tiles.items };
}

/// Whether the rectangle has squares, and its ends are within 2^29 + 1 of 0.
fn is_near(r: &Rect) -> bool
    ensures { result ≡ true → IsNearRect r.now }
{
    if r.x0 < -536_870_913 || r.x1 <= r.x0 || 536_870_913 < r.x1 {
        return false;
    }
    if r.y0 < -536_870_913 || r.y1 <= r.y0 || 536_870_913 < r.y1 {
        return false;
    }
    true
}

/// Whether there are at most 2^14 whole numbers from one to below another.
fn is_short(low: i32, high: i32) -> bool
    requires low { negsuc (2 ^ 29) ≤ℤ low }
    requires order { low <ℤ high }
    requires high { high ≤ℤ pos (2 ^ 29 + 1) }
    ensures { result ≡ true → (high -ℤ low) ≤ℤ pos (2 ^ 14) }
{
    high - low <= 16_384
}

/// Whether it has at most 2^14 by 2^14 squares besides.
pub fn is_window(r: &Rect) -> bool
    ensures { result ≡ true → IsWindow r.now }
{
    if !is_near(r) {
        return false;
    }
    is_short(r.x0, r.x1) && is_short(r.y0, r.y1)
}

/// Whether the tile lies on one of the 32 layers, near 0.
fn is_tile(tile: &Tile) -> bool
    ensures { result ≡ true → IsTile tile.now }
{
    tile.layer < 32 && is_near(&tile.rect)
}

/// Whether two tiles lie apart, or are of one net and differ in rank.
fn agree(a: &Tile, b: &Tile) -> bool
    ensures { result ≡ true → Agree a.now b.now }
{
    a.layer != b.layer || !meets(a.rect, b.rect) || a.net == b.net && a.rank != b.rank
}

/// Whether all of the tiles agree with one more.
fn all_agree(tiles: &[Tile], tile: &Tile) -> bool
    ensures { result ≡ true → All (λ t. Agree t tile.now) tiles.now }
{
    for other in tiles {
        if !agree(other, tile) {
            return false;
        }
    }
    true
}

impl Scene {
    /// No tiles.
    pub fn new(alloc: Global) -> Scene {
        Scene {
            tiles: Vec::new(alloc),
        }
    }

    /// The tiles.
    pub fn tiles(&self) -> &[Tile]
        ensures scene { IsScene result.now }
        ensures near { All (λ t. IsNearRect t.rect) result.now }
        ensures layers { All (λ t. t.layer < 32) result.now }
    {
        &self.tiles
    }

    /// Adds a tile, where it agrees with all others. Answers whether it does.
    pub fn add(&mut self, tile: Tile) -> Result<bool, AllocError> {
        if !is_tile(&tile) || !all_agree(&self.tiles, &tile) {
            return Ok(false);
        }
        self.tiles.push(tile)?;
        Ok(true)
    }
}

/// Whether each tile has squares on both lines of an axis, or on neither.
pub fn alike(tiles: &[Tile], line: Mark, other: Mark) -> bool
    ensures { result ≡ true → All (λ t. crosses_line_of other.axis other.at t ≡ crosses_line_of line.axis line.at t) tiles.now }
{
    for tile in tiles {
        if crosses_line(tile, other) != crosses_line(tile, line) {
            return false;
        }
    }
    true
}

/// The sums of the faces of axis `A` whose squares lie in the window, as the sweep has them, and by how much it raised the
/// count of edits.
pub fn swept<const A: usize>(
    alloc: Global,
    tiles: &[Tile],
    rates: &RowRates,
    rect: &Rect,
) -> Result<(Tally<u128>, u64), NoMemory>
    requires tiles { IsScene tiles.now }
    requires window { IsWindow rect.now }
{
    let mut meter = CountMeter::new();
    let mut edits = Edits::new();
    let window = Window {
        rect: *rect,
        halo: 301,
    };
    let pass = meter.draw();
    let tally = sweep_window::<A, RowRates, CountMeter>(
        alloc, tiles, &window, rates, pass, &mut edits,
    )?;
    Ok((tally, edits.count()))
}

/// The same by one column that goes over the lines, and how often it changed its column.
pub fn by_columns<const A: usize>(
    alloc: Global,
    tiles: &[Tile],
    rates: &RowRates,
    rect: &Rect,
) -> Result<(Tally<u128>, u64), NoMemory>
    requires tiles { IsScene tiles.now }
    requires window { IsWindow rect.now }
{
    let mut edits = Edits::new();
    let tally = rc_sums::sum_by_columns::<A, RowRates>(alloc, tiles, rect, rates, &mut edits)?;
    Ok((tally, edits.count()))
}

/// The same, square by square.
pub fn plain<const A: usize>(
    alloc: Global,
    tiles: &[Tile],
    rates: &RowRates,
    rect: &Rect,
) -> Result<Tally<u128>, NoMemory>
    requires tiles { IsScene tiles.now }
    requires window { IsWindow rect.now }
{
    rc_plain::sums_in::<A, RowRates>(alloc, tiles, rates, rect)
}

/// The same of both axes.
pub fn plain_both(
    alloc: Global,
    tiles: &[Tile],
    rates: &RowRates,
    rect: &Rect,
) -> Result<Tally<u128>, NoMemory>
    requires tiles { IsScene tiles.now }
    requires window { IsWindow rect.now }
{
    rc_plain::sums_of_both(alloc, tiles, rates, rect)
}

/// Whether each entry has fewer than 2^60 parts, and a sum below 2^120.
fn are_small(entries: &[Entry<u128>]) -> bool
    ensures { result ≡ true → All IsSmall entries.now }
{
    for entry in entries {
        if 1 << 60 <= entry.count || 1 << 120 <= entry.value {
            return false;
        }
    }
    true
}

/// The merge of two tallies, where their sums are small.
pub fn merged(
    alloc: Global,
    a: &Tally<u128>,
    b: &Tally<u128>,
) -> Result<Option<Tally<u128>>, NoMemory> {
    if !are_small(a.entries()) || !are_small(b.entries()) {
        return Ok(None);
    }
    Ok(Some(Tally::merge(alloc, a, b)?))
}
