//! The engine: a layout with the sums of all its windows.

ghost use Rattle.std.specs.Prelude.{◌≡◌, ◌<◌, ◌≤◌, ◌+◌, ◌*◌, ◌^◌, ℕ, Ok, Some, None, IfOk, IfErr, IfSome, IsSome, OnOk, OnErr, All, Contains, length, map, position, slice_get, slice_index};
ghost use Rattle.std.specs.List.Sorted.{IsStrictlyIncreasing};
ghost use Rattle.std.specs.Str.{bytes_eq};
ghost use Rattle.rc_geom.specs.Sums.{numbers};
ghost use Rattle.rc_tally.specs.Tallies.{IsRising};
ghost use Rattle.rc_wire.specs.Forms.{IsRegular};
ghost use Rattle.rc_rules.specs.LookUp.{rates, halo_of};
ghost use Rattle.rc_layout.specs.Items.{IsItem};
ghost use Rattle.rc_layout.specs.Layouts.{with_put};
ghost use Rattle.rc_nodes.specs.Nodes.{nodes_of};
ghost use Rattle.rc_nodes.specs.LayoutPlane.{drawn_nets};
ghost use Rattle.rc_nodes.specs.Shares.{net_tiles};
ghost use Rattle.rc_shorts.specs.Exchange.{AreNear};
ghost use Rattle.rc_shorts.specs.OfLayouts.{layout_shapes, net_metal};
ghost use Rattle.rc_shorts.specs.Places.{net_shapes};
ghost use Rattle.rc_windows.specs.Frames.{window_count, IsFrame};
ghost use Rattle.rc_windows.specs.Indexes.{near_lists};
ghost use Rattle.rc_windows.specs.Sweeps.{AreTalliesOf};
ghost use Rattle.rc_spef.specs.Text.{spef_text, net_text as net_bytes};
ghost use Rattle.rc_engine.specs.Names.{numbering_of};
ghost use Rattle.rc_engine.specs.Brought.{entries_of, owned};
ghost use Rattle.rc_engine.specs.Windows.{layout_tiles, windows_of, IsExtractable};
ghost use Rattle.rc_engine.specs.Start.{grid_of, node_count, tile_total, start_refusal, IsStartFault, IsRefusal};
ghost use Rattle.rc_engine.specs.Engine.{IsEngine, DrawsNone};
ghost use Rattle.rc_engine.specs.Edits.{edited, edit_refusal, edit_windows, touched_between, MayReplace, AreChanged};
ghost use Rattle.rc_engine.specs.Extraction.{extraction, net_value as net_value_of, numbered_nets};

use crate::accept::{Measure, accepted};
use crate::candidate::{Metal, Totals, accepted_with};
use crate::gather::gathered;
use crate::naming::Naming;
use crate::nearby::shapes_near;
use crate::net::value_of;
use crate::net_names::NetNames;
use crate::positions::positions_of;
use crate::sweeping::{WindowSums, swept};
use crate::text::{put_block, text_of};
use crate::touching::{Resweep, rects, sweep_touched, touched_by};
use crate::value::{value_from, values_of};
use rc_fixed::{List, NoMemory};
use rc_geom::Tile;
use rc_io::Pieces;
use rc_keys::Fault;
use rc_layout::{Layout, Net};
use rc_nodes::Node;
use rc_rules::Rules;
use rc_shorts::Shape;
use rc_spef::{DNet, Spef};
use rc_sweep::Meter;
use rc_tally::{Entry, Tally};
use rc_windows::{Gate, Grid, Index};
use rc_wire::RawPath;
use std::alloc::Global;
use std::marker::Model;
use std::thread::Threads;

/// A layout that nothing refuses, by its rules, with what the faces of each window of its grid add up to.
///
/// Contracts see the layout, the rules, the number of workers, the grid, the tiles that matter to each window, its tally, and how
/// many windows the last edit touched.
#[derive(Drop)]
pub struct Engine {
    layout: Layout,
    rules: Rules,
    workers: u32,
    naming: Naming,
    names: NetNames,
    nodes: List<List<Node>>,
    totals: Totals,
    grid: Grid,
    index: Index,
    tallies: List<Tally<u128>>,
    touched: u32,
}

impl Model for Engine {
    ghost use Rattle.std.specs.Prelude.{◌≡◌, map};
    ghost use Rattle.rc_nodes.specs.Nodes.{nodes_of};
    ghost use Rattle.rc_nodes.specs.LayoutPlane.{drawn_nets};
    ghost use Rattle.rc_engine.specs.Names.{numbering_of};
    ghost use Rattle.rc_engine.specs.Start.{node_count, tile_total};
    ghost use Rattle.rc_engine.specs.Engine.{Engine, IsEngine};

    ghost Value = { Engine };

    ghost view = { λ engine. record { layout = engine.layout; rules = engine.rules; workers = engine.workers; frame = engine.grid; lists = engine.index; tallies = engine.tallies; touched = engine.touched } };

    ghost invariant = { λ engine. IsEngine (record { layout = engine.layout; rules = engine.rules; workers = engine.workers; frame = engine.grid; lists = engine.index; tallies = engine.tallies; touched = engine.touched })
        × (engine.naming ≡ numbering_of engine.layout) × (engine.nodes ≡ map nodes_of engine.layout.nets)
        × (engine.names ≡ map (λ net. net.name) engine.layout.nets)
        × (engine.totals.nodes ≡ node_count engine.layout.nets) × (engine.totals.tiles ≡ tile_total (drawn_nets engine.layout)) };
}

/// Why no engine starts, and the layout that it would have had.
#[derive(Drop)]
pub struct StartFault {
    pub layout: Layout,
    pub fault: Fault,
}

/// What an engine keeps beside its layout and its rules.
#[derive(Drop)]
struct Kept {
    naming: Naming,
    names: NetNames,
    nodes: List<List<Node>>,
    totals: Totals,
    swept: WindowSums,
}

/// What an edit puts in the place of a net: the net with its nodes and its tiles, and the windows that it touches.
#[derive(Drop)]
struct Edit {
    net: Net,
    metal: Metal,
    swept: Resweep,
}

/// Gives up a value.
fn discard<T: Drop>(_value: T) {}

/// Sets the tallies of some windows, from the last one on, and leaves those of all others as they are.
fn set_tallies(tallies: &mut List<Tally<u128>>, list: &[u32], new: List<Tally<u128>>)
    requires rising { IsStrictlyIncreasing list.now }
    requires range { All (λ k. k < length tallies.old) list.now }
    requires count { length new ≡ length list.now }
    ensures set { (i : ℕ) → i < length list.now → slice_get tallies.new (slice_index list.now i) ≡ slice_get new i }
    ensures kept { (k : ℕ) → ¬ Contains list.now k → slice_get tallies.new k ≡ slice_get tallies.old k }
    ensures count { length tallies.new ≡ length tallies.old }
{
    let mut rest = new;
    while let Some(tally) = rest.pop() {
        let at = list[rest.len()] as usize;
        tallies.swap(at, tally);
    }
}

/// Sweeps a layout that nothing refuses.
fn begun<T: Threads + Sync, G: Gate, M: Meter>(
    rt: &T,
    alloc: Global,
    layout: &Layout,
    rules: &Rules,
    workers: u32,
    gate: &G,
    meter: &mut M,
) -> Result<Kept, Fault>
    requires some { 1 ≤ workers }
    requires most { workers ≤ 64 }
    requires drawn { M.drawn meter.old ≤ 2 ^ 62 }
    ensures naming { IfOk result (λ begun. begun.naming ≡ numbering_of layout.now) }
    ensures names { IfOk result (λ begun. begun.names ≡ map (λ net. net.name) layout.now.nets) }
    ensures nodes { IfOk result (λ begun. begun.nodes ≡ map nodes_of layout.now.nets) }
    ensures node_count { IfOk result (λ begun. begun.totals.nodes ≡ node_count layout.now.nets) }
    ensures tile_count { IfOk result (λ begun. begun.totals.tiles ≡ tile_total (drawn_nets layout.now)) }
    ensures extractable { IfOk result (λ _. IsExtractable layout.now rules.now) }
    ensures clear { IfOk result (λ _. start_refusal layout.now rules.now ≡ None) }
    ensures few { IfOk result (λ _. node_count layout.now.nets ≤ 2 ^ 22) }
    ensures grid { IfOk result (λ begun. begun.swept.grid ≡ grid_of layout.now rules.now) }
    ensures index { IfOk result (λ begun. begun.swept.index ≡ near_lists begun.swept.grid (layout_tiles layout.now)) }
    ensures count { IfOk result (λ begun. length begun.swept.index ≡ window_count begun.swept.grid) }
    ensures tallies { IfOk result (λ begun. AreTalliesOf numbers (rates rules.now) (windows_of begun.swept.grid) (near_lists begun.swept.grid (layout_tiles layout.now)) begun.swept.tallies) }
    ensures rising { IfOk result (λ begun. All IsRising begun.swept.tallies) }
    ensures frame { IfOk result (λ begun. IsFrame begun.swept.grid) }
    ensures halo { IfOk result (λ begun. begun.swept.grid.halo ≡ halo_of rules.now) }
    ensures fault { IfErr result (IsStartFault layout.now rules.now) }
    ensures ok { OnOk result (M.drawn meter.new ≡ M.drawn meter.old + 2 * window_count (grid_of layout.now rules.now)) }
    ensures none { IfErr result (DrawsNone (M.drawn meter.old) (M.drawn meter.new)) }
    ensures least { M.drawn meter.old ≤ M.drawn meter.new }
    ensures spent { M.drawn meter.new ≤ M.drawn meter.old + 2 * window_count (grid_of layout.now rules.now) }
{
    let Measure {
        nodes,
        node_count,
        tiles,
        tile_count,
    } = accepted(alloc, layout, rules)?;
    let swept = swept(
        rt,
        alloc,
        layout,
        rules,
        tiles.items(),
        workers,
        gate,
        meter,
    )?;
    layout.facts();
    let naming = Naming::new(alloc, layout)?;
    let names = NetNames::new(alloc, layout.nets())?;
    Ok(Kept {
        naming,
        names,
        nodes,
        totals: Totals {
            nodes: node_count,
            tiles: tile_count,
        },
        swept,
    })
}

impl Engine {
    /// Starts an engine over a layout by its rules: it refuses the layout, or sweeps all windows of its grid, with so many
    /// workers. Two passes a window are drawn.
    ///
    /// # Errors
    ///
    /// The layout, and the first of: a layer in use without rules; the limits of nodes and of tiles; a short. `NoMemory` for
    /// want of memory.
    pub fn new<T: Threads + Sync, G: Gate, M: Meter>(
        rt: &T,
        alloc: Global,
        layout: Layout,
        rules: Rules,
        workers: u32,
        gate: &G,
        meter: &mut M,
    ) -> Result<Engine, StartFault>
        requires some { 1 ≤ workers }
        requires most { workers ≤ 64 }
        requires drawn { M.drawn meter.old ≤ 2 ^ 62 }
        ensures layout { IfOk result (λ engine. engine.layout ≡ layout) }
        ensures rules { IfOk result (λ engine. engine.rules ≡ rules) }
        ensures workers { IfOk result (λ engine. engine.workers ≡ workers) }
        ensures grid { IfOk result (λ engine. engine.frame ≡ grid_of layout rules) }
        ensures touched { IfOk result (λ engine. engine.touched ≡ 0) }
        ensures engine { IfOk result IsEngine }
        ensures given_back { IfErr result (λ fault. fault.layout ≡ layout) }
        ensures fault { IfErr result (λ fault. IsStartFault layout rules fault.fault) }
        ensures ok { OnOk result (M.drawn meter.new ≡ M.drawn meter.old + 2 * window_count (grid_of layout rules)) }
        ensures none { IfErr result (λ fault. DrawsNone (M.drawn meter.old) (M.drawn meter.new) fault.fault) }
        ensures least { M.drawn meter.old ≤ M.drawn meter.new }
        ensures spent { M.drawn meter.new ≤ M.drawn meter.old + 2 * window_count (grid_of layout rules) }
    {
        match begun(rt, alloc, &layout, &rules, workers, gate, meter) {
            Ok(begun) => Ok(Engine {
                layout,
                rules,
                workers,
                naming: begun.naming,
                names: begun.names,
                nodes: begun.nodes,
                totals: begun.totals,
                grid: begun.swept.grid,
                index: begun.swept.index,
                tallies: begun.swept.tallies,
                touched: 0,
            }),
            Err(fault) => {
                discard(rules);
                Err(StartFault { layout, fault })
            }
        }
    }

    /// What holds of every engine. Nothing is computed here.
    pub fn facts(&self)
        ensures { IsEngine self.now }
    {
        let _touched = self.touched;
    }

    /// The layout.
    pub fn layout(&self) -> &Layout
        ensures { result.now ≡ self.now.layout }
    {
        &self.layout
    }

    /// How many windows the last edit touched; 0 before the first one.
    pub fn stat(&self) -> u32
        ensures { result ≡ self.now.touched }
    {
        self.touched
    }

    /// The number of the net of that name. None comes exactly where no net has it that isn't grounded.
    pub fn net(&self, name: &[u8]) -> Option<u32>
        ensures is { result ≡ position (λ net. bytes_eq name.now net.name) self.now.layout.nets }
        ensures within { IfSome result (λ number. number < length self.now.layout.nets) }
    {
        self.layout.facts();
        match self.names.place(name) {
            Some(place) => Some(place as u32),
            None => None,
        }
    }

    /// The shapes of other nets near a net that takes the place of another one: among them are all of those that meet a new shape.
    fn near(&self, alloc: Global, number: u32, net: &Net) -> Result<List<Shape>, NoMemory>
        requires number { number < length self.now.layout.nets }
        requires items { All IsItem net.now.items }
        ensures { IfOk result (AreNear (layout_shapes self.now.layout) number (net_shapes number (net_metal net.now))) }
    {
        let old = &self.layout.nets()[number as usize];
        let windows = touched_by(alloc, &self.grid, old, net)?;
        shapes_near(
            alloc,
            &self.layout,
            self.index.lists(),
            number,
            windows.items(),
        )
    }

    /// The net of that number with other paths, its nodes and its tiles, where nothing refuses the layout with it.
    fn candidate(
        &self,
        alloc: Global,
        number: u32,
        paths: &[RawPath],
    ) -> Result<(Net, Metal), Fault>
        requires number { number < length self.now.layout.nets }
        requires paths { All IsRegular paths.now }
        ensures is { IfOk result (λ chosen. edited self.now.layout number paths.now ≡ Ok (with_put self.now.layout number chosen.0)) }
        ensures may { IfOk result (λ chosen. MayReplace self.now number chosen.0) }
        ensures nodes { IfOk result (λ chosen. chosen.1.nodes ≡ nodes_of chosen.0) }
        ensures tiles { IfOk result (λ chosen. chosen.1.tiles ≡ net_tiles number (nodes_of chosen.0) chosen.0.items) }
        ensures node_count { IfOk result (λ chosen. chosen.1.totals.nodes ≡ node_count (with_put self.now.layout number chosen.0).nets) }
        ensures tile_count { IfOk result (λ chosen. chosen.1.totals.tiles ≡ tile_total (drawn_nets (with_put self.now.layout number chosen.0))) }
        ensures accepted { IfOk result (λ chosen. edit_refusal self.now.layout self.now.rules number paths.now ≡ None) }
        ensures fault { IfErr result (IsRefusal (edit_refusal self.now.layout self.now.rules number paths.now)) }
    {
        let net = match self.layout.with_net(alloc, number, paths) {
            Ok(net) => net,
            Err(fault) => return Err(fault),
        };
        let nodes = self.nodes.items()[number as usize].items();
        let near = self.near(alloc, number, &net)?;
        match accepted_with(
            alloc,
            &self.layout,
            &self.rules,
            &self.totals,
            number,
            nodes,
            &net,
            near.items(),
        ) {
            Ok(metal) => Ok((net, metal)),
            Err(fault) => Err(fault),
        }
    }

    /// Sweeps what an edit touches.
    fn swept_with<T: Threads + Sync, G: Gate, M: Meter>(
        &self,
        rt: &T,
        alloc: Global,
        number: u32,
        net: &Net,
        tiles: &[Tile],
        gate: &G,
        meter: &mut M,
    ) -> Result<Resweep, NoMemory>
        requires may { MayReplace self.now number net.now }
        requires tiles { tiles.now ≡ net_tiles number (nodes_of net.now) net.now.items }
        requires drawn { M.drawn meter.old ≤ 2 ^ 62 }
        ensures windows { IfOk result (λ swept. swept.windows ≡ touched_between self.now.frame self.now.layout (with_put self.now.layout number net.now) number) }
        ensures changed { IfOk result (λ swept. AreChanged self.now (with_put self.now.layout number net.now) swept.windows swept.lists swept.tallies) }
        ensures ok { IfOk result (λ swept. M.drawn meter.new ≡ M.drawn meter.old + 2 * length swept.windows) }
        ensures least { M.drawn meter.old ≤ M.drawn meter.new }
        ensures spent { M.drawn meter.new ≤ M.drawn meter.old + 2 * length (touched_between self.now.frame self.now.layout (with_put self.now.layout number net.now) number) }
    {
        sweep_touched(
            rt,
            alloc,
            &self.grid,
            &self.index,
            &self.rules,
            self.workers,
            number,
            &self.layout.nets()[number as usize],
            net,
            tiles,
            gate,
            meter,
        )
    }

    /// All that an edit needs, taken beside what the engine has.
    fn edit<T: Threads + Sync, G: Gate, M: Meter>(
        &self,
        rt: &T,
        alloc: Global,
        number: u32,
        paths: &[RawPath],
        gate: &G,
        meter: &mut M,
    ) -> Result<Edit, Fault>
        requires number { number < length self.now.layout.nets }
        requires paths { All IsRegular paths.now }
        requires drawn { M.drawn meter.old ≤ 2 ^ 62 }
        ensures is { IfOk result (λ edit. edited self.now.layout number paths.now ≡ Ok (with_put self.now.layout number edit.net)) }
        ensures may { IfOk result (λ edit. MayReplace self.now number edit.net) }
        ensures nodes { IfOk result (λ edit. edit.metal.nodes ≡ nodes_of edit.net) }
        ensures node_count { IfOk result (λ edit. edit.metal.totals.nodes ≡ node_count (with_put self.now.layout number edit.net).nets) }
        ensures tile_count { IfOk result (λ edit. edit.metal.totals.tiles ≡ tile_total (drawn_nets (with_put self.now.layout number edit.net))) }
        ensures windows { IfOk result (λ edit. edit.swept.windows ≡ edit_windows self.now.frame self.now.layout number paths.now) }
        ensures changed { IfOk result (λ edit. AreChanged self.now (with_put self.now.layout number edit.net) edit.swept.windows edit.swept.lists edit.swept.tallies) }
        ensures accepted { IfOk result (λ _. edit_refusal self.now.layout self.now.rules number paths.now ≡ None) }
        ensures fault { IfErr result (IsRefusal (edit_refusal self.now.layout self.now.rules number paths.now)) }
        ensures ok { IfOk result (λ edit. M.drawn meter.new ≡ M.drawn meter.old + 2 * length edit.swept.windows) }
        ensures none { IfErr result (DrawsNone (M.drawn meter.old) (M.drawn meter.new)) }
        ensures refused_draws_none { IsSome (edit_refusal self.now.layout self.now.rules number paths.now) → M.drawn meter.new ≡ M.drawn meter.old }
        ensures least { M.drawn meter.old ≤ M.drawn meter.new }
        ensures spent { M.drawn meter.new ≤ M.drawn meter.old + 2 * length (edit_windows self.now.frame self.now.layout number paths.now) }
    {
        let (net, metal) = match self.candidate(alloc, number, paths) {
            Ok(chosen) => chosen,
            Err(fault) => return Err(fault),
        };
        match self.swept_with(rt, alloc, number, &net, metal.tiles.items(), gate, meter) {
            Ok(swept) => Ok(Edit { net, metal, swept }),
            Err(_) => Err(Fault::NoMemory),
        }
    }

    /// Puts an edit in place, and answers how many windows it touches. It takes no memory.
    fn put(&mut self, number: u32, edit: Edit) -> u32
        requires may { MayReplace self.old number edit.net }
        requires nodes { edit.metal.nodes ≡ nodes_of edit.net }
        requires node_count { edit.metal.totals.nodes ≡ node_count (with_put self.old.layout number edit.net).nets }
        requires tile_count { edit.metal.totals.tiles ≡ tile_total (drawn_nets (with_put self.old.layout number edit.net)) }
        requires changed { AreChanged self.old (with_put self.old.layout number edit.net) edit.swept.windows edit.swept.lists edit.swept.tallies }
        ensures layout { self.new.layout ≡ with_put self.old.layout number edit.net }
        ensures rules { self.new.rules ≡ self.old.rules }
        ensures workers { self.new.workers ≡ self.old.workers }
        ensures grid { self.new.frame ≡ self.old.frame }
        ensures touched { self.new.touched ≡ result }
        ensures count { result ≡ length edit.swept.windows }
        ensures lists { (k : ℕ) → ¬ Contains edit.swept.windows k → slice_get self.new.lists k ≡ slice_get self.old.lists k }
        ensures tallies { (k : ℕ) → ¬ Contains edit.swept.windows k → slice_get self.new.tallies k ≡ slice_get self.old.tallies k }
    {
        let Edit { net, metal, swept } = edit;
        let Metal {
            nodes,
            tiles: _tiles,
            totals,
        } = metal;
        let Resweep {
            windows,
            lists,
            tallies,
        } = swept;
        self.index.put(windows.items(), lists);
        set_tallies(&mut self.tallies, windows.items(), tallies);
        self.nodes.swap(number as usize, nodes);
        self.totals = totals;
        self.layout.put(number, net);
        self.touched = windows.len() as u32;
        self.touched
    }

    /// Gives a net other paths, and sweeps the windows that its old or its new shapes touch, by the rules, the grid and the
    /// number of workers that the engine has. It answers how many windows these are. Two passes a window are drawn.
    ///
    /// All memory is taken beside what the engine has, and putting the edit in place takes none: after a fault the engine is as
    /// before.
    ///
    /// # Errors
    ///
    /// The first refusal of the paths, or of the limit of shapes of the layout with them; then the first of: a layer in use
    /// without rules; the limits of nodes and of tiles; a short. `NoMemory` for want of memory. Where something refuses the edit, no
    /// pass is drawn, also where memory is wanting.
    pub fn replace<T: Threads + Sync, G: Gate, M: Meter>(
        &mut self,
        rt: &T,
        alloc: Global,
        net: u32,
        paths: &[RawPath],
        gate: &G,
        meter: &mut M,
    ) -> Result<u32, Fault>
        requires net { net < length self.old.layout.nets }
        requires paths { All IsRegular paths.now }
        requires drawn { M.drawn meter.old ≤ 2 ^ 62 }
        ensures layout { OnOk result (edited self.old.layout net paths.now ≡ Ok self.new.layout) }
        ensures accepted { OnOk result (edit_refusal self.old.layout self.old.rules net paths.now ≡ None) }
        ensures rules { self.new.rules ≡ self.old.rules }
        ensures workers { self.new.workers ≡ self.old.workers }
        ensures grid { self.new.frame ≡ self.old.frame }
        ensures touched { IfOk result (λ count. self.new.touched ≡ count) }
        ensures count { IfOk result (λ count. count ≡ length (edit_windows self.old.frame self.old.layout net paths.now)) }
        ensures lists { (k : ℕ) → ¬ Contains (edit_windows self.old.frame self.old.layout net paths.now) k → slice_get self.new.lists k ≡ slice_get self.old.lists k }
        ensures tallies { (k : ℕ) → ¬ Contains (edit_windows self.old.frame self.old.layout net paths.now) k → slice_get self.new.tallies k ≡ slice_get self.old.tallies k }
        ensures engine { IsEngine self.new }
        ensures fault { IfErr result (IsRefusal (edit_refusal self.old.layout self.old.rules net paths.now)) }
        ensures kept { OnErr result (self.new ≡ self.old) }
        ensures ok { IfOk result (λ count. M.drawn meter.new ≡ M.drawn meter.old + 2 * count) }
        ensures none { IfErr result (DrawsNone (M.drawn meter.old) (M.drawn meter.new)) }
        ensures refused_draws_none { IsSome (edit_refusal self.old.layout self.old.rules net paths.now) → M.drawn meter.new ≡ M.drawn meter.old }
        ensures least { M.drawn meter.old ≤ M.drawn meter.new }
        ensures spent { M.drawn meter.new ≤ M.drawn meter.old + 2 * length (edit_windows self.old.frame self.old.layout net paths.now) }
    {
        match self.edit(rt, alloc, net, paths, gate, meter) {
            Ok(edit) => {
                let count = self.put(net, edit);
                self.facts();
                Ok(count)
            }
            Err(fault) => {
                self.facts();
                Err(fault)
            }
        }
    }

    /// A net's value, from what all windows have for it.
    fn value_from(
        &self,
        alloc: Global,
        number: u32,
        entries: &mut [Entry<u128>],
    ) -> Result<DNet, NoMemory>
        requires number { number < length self.now.layout.nets }
        requires entries { entries.old ≡ owned number (entries_of self.now.tallies) }
        ensures { IfOk result (λ of. IfSome (slice_get self.now.layout.nets number) (λ net. of ≡ net_value_of self.now.layout self.now.rules (number, net))) }
    {
        value_from(
            alloc,
            &self.layout,
            &self.rules,
            &self.naming,
            self.nodes.items(),
            number,
            entries,
        )
    }

    /// The value of one net, as `parasitics` has it. It takes the time of the windows that the net's shapes touch.
    ///
    /// # Errors
    ///
    /// `NoMemory` for want of memory.
    pub fn net_value(&self, alloc: Global, net: u32) -> Result<DNet, NoMemory>
        requires { net < length self.now.layout.nets }
        ensures { IfOk result (λ of. slice_get (extraction self.now.layout self.now.rules).nets net ≡ Some of) }
    {
        let items = self.layout.nets()[net as usize].items.items();
        let windows = self.grid.touched(alloc, &rects(alloc, items)?, &[])?;
        let entries = gathered(alloc, net, self.tallies.items(), windows.items())?;
        let mut entries = entries.into_vec();
        self.value_from(alloc, net, &mut entries)
    }

    /// What the layout comes to: the square-by-square extraction, as a SPEF value.
    ///
    /// # Errors
    ///
    /// `NoMemory` for want of memory.
    pub fn parasitics(&self, alloc: Global) -> Result<Spef, NoMemory>
        ensures { IfOk result (λ spef. spef ≡ extraction self.now.layout self.now.rules) }
    {
        self.layout.facts();
        let count = self.layout.nets().len() as u32;
        let tallies = self.tallies.items();
        let lists = positions_of(alloc, count, tallies)?;
        let nets = values_of(
            alloc,
            &self.layout,
            &self.rules,
            &self.naming,
            self.nodes.items(),
            tallies,
            lists.items(),
        )?;
        value_of(alloc, &self.layout, &self.naming, nets)
    }

    /// The text of what the layout comes to: that of [`Engine::parasitics`], made net by net, so that neither the value nor a list of
    /// all its capacitances is ever held.
    ///
    /// # Errors
    ///
    /// `NoMemory` for want of memory.
    pub fn text(&self, alloc: Global) -> Result<Pieces, NoMemory>
        ensures { IfOk result (λ pieces. pieces.bytes ≡ spef_text (extraction self.now.layout self.now.rules)) }
    {
        text_of(
            alloc,
            &self.layout,
            &self.rules,
            &self.naming,
            self.nodes.items(),
            self.tallies.items(),
        )
    }

    /// The block of one net in that text. It takes the time of [`Engine::net_value`].
    ///
    /// # Errors
    ///
    /// `NoMemory` for want of memory.
    pub fn net_text(&self, alloc: Global, net: u32) -> Result<Pieces, NoMemory>
        requires { net < length self.now.layout.nets }
        ensures { IfOk result (λ pieces. IfSome (slice_get (extraction self.now.layout self.now.rules).nets net) (λ of. pieces.bytes ≡ net_bytes of)) }
    {
        let value = self.net_value(alloc, net)?;
        let mut pieces = Pieces::new(alloc);
        put_block(&value, &mut pieces)?;
        Ok(pieces)
    }
}
