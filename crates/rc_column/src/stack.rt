//! One column of all layers.

ghost use Rattle.std.specs.Prelude.{◌≡◌, ◌<◌, ◌≤◌, ◌+◌, ◌-◌, ◌^◌, ◌≤ℤ◌, ℕ, ℤ, [], ◌∷◌, ◌++◌, All, IfOk, OnOk, OnErr, Contains, true, is_some, length, min, slice_index_or};
ghost use Rattle.rc_geom.specs.Rects.{IsNearRect};
ghost use Rattle.rc_geom.specs.Plane.{plane_of};
ghost use Rattle.rc_geom.specs.Line.{Line, line_of};
ghost use Rattle.rc_geom.specs.Context.{under as under_of, over as over_of};
ghost use Rattle.rc_column.specs.Runs.{AreRuns, crosses_line};
ghost use Rattle.rc_column.specs.Layers.{AreLayers, without, same_tile};
ghost use Rattle.rc_column.specs.Columns.{layer_line, square_at};
ghost use Rattle.rc_column.specs.EditCounts.{raised};
ghost use Rattle.rc_column.specs.Found.{faces_of};
ghost use Rattle.rc_column.specs.Rows.{AreInOrder};
ghost use Rattle.std.specs.List.{position_or_len, remove};
ghost use Rattle.rc_geom.specs.declared.tile.Tile.{Tile};

use crate::edits::Edits;
use crate::ends::{Mark, Place};
use crate::face::{Face, line_faces};
use crate::run::Run;
use crate::walk::crossing_runs;
use rc_fixed::{List, NoMemory};
use rc_geom::Tile;
use std::alloc::Global;
use std::marker::Model;

/// A column: a line of an axis on all layers. It keeps its tiles, its line, and for each layer the runs of the tiles' plane
/// on the line. Contracts see the tiles and the line.
#[derive(Drop)]
pub struct Stack {
    alloc: Global,
    tiles: Vec<Tile>,
    line: Mark,
    layers: List<List<Run>>,
}

impl Model for Stack {
    ghost use Rattle.rc_column.specs.Columns.{Column};
    ghost use Rattle.rc_column.specs.Layers.{AreLayers};

    ghost Value = { Column };

    ghost view = { λ stack. record { tiles = stack.tiles.items; line = stack.line } };

    ghost invariant = { λ stack. AreLayers stack.tiles.items stack.line.axis stack.line.at stack.layers };
}

/// The runs of all layers on a line.
fn all_runs(alloc: Global, tiles: &[Tile], line: Mark) -> Result<List<List<Run>>, NoMemory>
    requires { All (λ t. IsNearRect t.rect) tiles.now }
    ensures { IfOk result (AreLayers tiles.now line.axis line.at) }
{
    let mut layers = List::new(alloc);
    for layer in 0..32 {
        layers.push(crossing_runs(alloc, tiles, &[], line, layer)?)?;
    }
    Ok(layers)
}

/// Whether a run holds the place.
fn holds(runs: &[Run], place: Place) -> bool
    requires { AreInOrder runs.now }
    ensures { (line : Line) → AreRuns line runs.now → result ≡ is_some (line place.at) }
{
    for run in runs {
        if place.at < run.lo {
            return false;
        }
        if place.at < run.hi {
            return true;
        }
    }
    false
}

/// Whether two tiles are one.
fn same(a: &Tile, b: &Tile) -> bool
    ensures { result ≡ same_tile a.now b.now }
{
    a.net == b.net
        && a.node == b.node
        && (a.layer == b.layer && a.rank == b.rank)
        && (a.rect.x0 == b.rect.x0
            && a.rect.y0 == b.rect.y0
            && (a.rect.x1 == b.rect.x1 && a.rect.y1 == b.rect.y1))
}

/// Where the tile stands among tiles, the first time.
fn place_of(tiles: &[Tile], tile: &Tile) -> usize
    requires { Contains tiles.now tile.now }
    ensures is { result ≡ position_or_len (λ u. same_tile u tile.now) tiles.now }
    ensures within { result < length tiles.now }
    ensures there { (d : Tile) → same_tile (slice_index_or tiles.now result d) tile.now ≡ true }
{
    let mut at = 0;
    while !same(&tiles[at], tile) {
        at += 1;
    }
    at
}

/// The runs of a layer of the tiles but the one at that place.
fn runs_without(
    alloc: Global,
    tiles: &[Tile],
    at: usize,
    line: Mark,
    layer: u8,
) -> Result<List<Run>, NoMemory>
    requires at { at < length tiles.now }
    requires near { All (λ t. IsNearRect t.rect) tiles.now }
    ensures { IfOk result (AreRuns (line_of (plane_of (remove tiles.now at)) layer line.axis line.at)) }
{
    crossing_runs(alloc, &tiles[..at], &tiles[at + 1..], line, layer)
}

impl Stack {
    /// The column of the tiles on a line.
    fn on(alloc: Global, tiles: &[Tile], line: Mark) -> Result<Stack, NoMemory>
        requires { All (λ t. IsNearRect t.rect) tiles.now }
        ensures tiles { IfOk result (λ stack. stack.tiles ≡ tiles.now) }
        ensures line { IfOk result (λ stack. stack.line ≡ line) }
    {
        let layers = all_runs(alloc, tiles, line)?;
        Ok(Stack {
            alloc,
            tiles: Vec::from_slice(alloc, tiles)?,
            line,
            layers,
        })
    }

    /// The column of the tiles on the line of axis `A` that stands at `column`: at that y for axis 0, where lines run along
    /// x, and at that x for axis 1. Each tile is an edit.
    ///
    /// # Errors
    ///
    /// `NoMemory` for want of memory.
    pub fn build<const A: usize>(
        alloc: Global,
        tiles: &[Tile],
        column: i32,
        edits: &mut Edits,
    ) -> Result<Stack, NoMemory>
        requires { All (λ t. IsNearRect t.rect) tiles.now }
        ensures tiles { IfOk result (λ stack. stack.tiles ≡ tiles.now) }
        ensures axis { IfOk result (λ stack. stack.line.axis ≡ A) }
        ensures column { IfOk result (λ stack. stack.line.at ≡ column) }
        ensures edits { edits.new ≡ raised edits.old (length tiles.now) }
    {
        edits.raise(tiles.len() as u64);
        let line = Mark {
            axis: A,
            at: column,
        };
        Stack::on(alloc, tiles, line)
    }

    /// Its line.
    pub fn line(&self) -> Mark
        ensures { result ≡ self.now.line }
    {
        self.line
    }

    /// The runs of a layer, lowest first.
    pub fn runs(&self, layer: u8) -> &[Run]
        requires { layer < 32 }
        ensures runs { AreRuns (layer_line self.now layer) result.now }
        ensures order { AreInOrder result.now }
    {
        self.layers.items()[layer as usize].items()
    }

    /// Whether a layer has metal at a place of the line.
    fn has_metal(&self, layer: u8, place: Place) -> bool
        requires { layer < 32 }
        ensures { result ≡ is_some (layer_line self.now layer place.at) }
    {
        holds(self.runs(layer), place)
    }

    /// The highest layer below with metal at a place.
    fn under(&self, layer: u8, place: Place) -> Option<u8>
        requires { layer < 32 }
        ensures { result ≡ under_of (plane_of self.now.tiles) layer (square_at self.now place.at) }
    {
        let mut highest = None;
        for below in 0..layer {
            if self.has_metal(below, place) {
                highest = Some(below);
            }
        }
        highest
    }

    /// The lowest layer above with metal at a place.
    fn over(&self, layer: u8, place: Place) -> Option<u8>
        requires { layer < 32 }
        ensures { result ≡ over_of (plane_of self.now.tiles) layer (square_at self.now place.at) }
    {
        for above in layer + 1..32 {
            if self.has_metal(above, place) {
                return Some(above);
            }
        }
        None
    }

    /// The highest layer below and the lowest layer above with metal at a place of the line, of any net.
    pub fn context(&self, layer: u8, at: i32) -> (Option<u8>, Option<u8>)
        requires { layer < 32 }
        ensures under { result.0 ≡ under_of (plane_of self.now.tiles) layer (square_at self.now at) }
        ensures over { result.1 ≡ over_of (plane_of self.now.tiles) layer (square_at self.now at) }
    {
        let place = Place {
            axis: self.line.axis,
            at,
        };
        (self.under(layer, place), self.over(layer, place))
    }

    /// The faces of a layer's line, by rising places, at each place the one that looks down before the one that looks up.
    /// Thicknesses count up to `cap`, and gaps up to `reach`, in unit squares.
    ///
    /// # Errors
    ///
    /// `NoMemory` for want of memory.
    pub fn faces(&self, layer: u8, cap: u32, reach: u32) -> Result<List<Face>, NoMemory>
        requires { layer < 32 }
        ensures { IfOk result (λ faces. faces ≡ faces_of cap reach (layer_line self.now layer)) }
    {
        let mut faces = List::new(self.alloc);
        line_faces(&mut faces, self.runs(layer), cap, reach)?;
        Ok(faces)
    }

    /// Puts a tile in, behind the others: an edit.
    ///
    /// # Errors
    ///
    /// `NoMemory` for want of memory; the column is as before.
    pub fn insert(&mut self, tile: &Tile, edits: &mut Edits) -> Result<(), NoMemory>
        requires layer { tile.now.layer < 32 }
        requires near { IsNearRect tile.now.rect }
        ensures tiles { OnOk result (self.new.tiles ≡ self.old.tiles ++ tile.now ∷ []) }
        ensures line { self.new.line ≡ self.old.line }
        ensures fault { OnErr result (self.new ≡ self.old) }
        ensures edits { edits.new ≡ raised edits.old 1 }
    {
        edits.raise(1);
        let runs = crossing_runs(self.alloc, &self.tiles, &[*tile], self.line, tile.layer)?;
        self.tiles.push(*tile)?;
        let _old = self.layers.swap(tile.layer as usize, runs);
        Ok(())
    }

    /// Takes a tile of the list out, where it stands first: an edit.
    ///
    /// # Errors
    ///
    /// `NoMemory` for want of memory; the column is as before.
    pub fn remove(&mut self, tile: &Tile, edits: &mut Edits) -> Result<(), NoMemory>
        requires layer { tile.now.layer < 32 }
        requires tile { Contains self.old.tiles tile.now }
        ensures tiles { OnOk result (self.new.tiles ≡ without tile.now self.old.tiles) }
        ensures line { self.new.line ≡ self.old.line }
        ensures fault { OnErr result (self.new ≡ self.old) }
        ensures edits { edits.new ≡ raised edits.old 1 }
    {
        edits.raise(1);
        let at = place_of(&self.tiles, tile);
        let runs = runs_without(self.alloc, &self.tiles, at, self.line, tile.layer)?;
        let _tile = self.tiles.remove(at);
        let _old = self.layers.swap(tile.layer as usize, runs);
        Ok(())
    }

    /// Goes to the line of the same axis that stands at `column`, on which each tile has squares exactly where it has some
    /// on the present one. It is no edit, and takes no memory.
    pub fn shift(&mut self, column: i32)
        requires { All (λ t. crosses_line self.old.line.axis column t ≡ crosses_line self.old.line.axis self.old.line.at t) self.old.tiles }
        ensures tiles { self.new.tiles ≡ self.old.tiles }
        ensures axis { self.new.line.axis ≡ self.old.line.axis }
        ensures column { self.new.line.at ≡ column }
    {
        self.line = self.line.moved(column);
    }
}
