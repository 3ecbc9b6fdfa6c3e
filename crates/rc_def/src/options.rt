//! What the options of vias, components and die pins say, and the entries that they make.

ghost use Rattle.std.specs.Prelude.{◌≡◌, true, OnOk, IfOk};
ghost use Rattle.rc_def.specs.Means as means;
ghost use Rattle.rc_def.specs.Parts.{first as first_of, with_rect};

use crate::draft::{Enclosure, PinDraft, ViaDraft, ViaLayers};
use crate::entry::{RawPin, RawPort, RawVia};
use crate::list::put_rect;
use rc_fixed::{List, NoMemory, Text};
use rc_geom::{Orient, Pt, Rect};
use rc_wire::{Key, orient_of};
use std::alloc::Global;
use std::mem;

/// Where something is placed.
fn placement(at: Option<Pt>, chosen: Key) -> Option<(Pt, Orient)>
    ensures { result ≡ means.placement at chosen }
{
    match at {
        Some(at) => Some((at, orient_of(chosen))),
        None => None,
    }
}

/// A placement behind another, which counts where it is there.
pub fn first_placement(
    before: Option<(Pt, Orient)>,
    at: Option<Pt>,
    chosen: Key,
) -> Option<(Pt, Orient)>
    ensures { result ≡ first_of before (means.placement at chosen) }
{
    match before {
        Some(before) => Some(before),
        None => placement(at, chosen),
    }
}

/// The first of two pairs of sizes that is there.
fn first(before: Option<Pt>, later: Option<Pt>) -> Option<Pt>
    ensures { result ≡ first_of before later }
{
    match before {
        Some(before) => Some(before),
        None => later,
    }
}

/// The enclosures of four numbers.
fn enclosure_of(numbers: &[i32]) -> Option<Enclosure>
    ensures { result ≡ means.enclosure_of numbers.now }
{
    match numbers {
        [x, y, third_x, third_y] => Some(Enclosure {
            first: Pt { x: *x, y: *y },
            third: Pt {
                x: *third_x,
                y: *third_y,
            },
        }),
        _ => None,
    }
}

/// The letter of a die pin's direction.
fn direction_of(key: Key) -> u8
    ensures { result ≡ means.direction_of key }
{
    match key {
        Key::Input => b'I',
        Key::Output => b'O',
        _ => b'B',
    }
}

/// Rows and columns, 1 and 1 where nothing is said of them.
fn rows_or_1(rows: Option<Pt>) -> Pt
    ensures { result ≡ means.rows_or_1 rows }
{
    match rows {
        Some(rows) => rows,
        None => Pt { x: 1, y: 1 },
    }
}

/// The three names of LAYERS.
fn layers_of(alloc: Global, layers: Option<ViaLayers>) -> Result<List<Text>, NoMemory>
    ensures { IfOk result (λ list. list ≡ means.layers_of layers) }
{
    let mut list = List::new(alloc);
    if let Some(layers) = layers {
        list.push(layers.first)?;
        list.push(layers.cut)?;
        list.push(layers.third)?;
        return Ok(list);
    }
    Ok(list)
}

impl ViaDraft {
    /// CUTSIZE cx cy
    pub fn with_cut(&mut self, cut: Option<Pt>)
        ensures { self.new ≡ record self.old { cut = first_of self.old.cut cut } }
    {
        self.cut = first(self.cut, cut);
    }

    /// CUTSPACING sx sy
    pub fn with_spacing(&mut self, spacing: Option<Pt>)
        ensures { self.new ≡ record self.old { spacing = first_of self.old.spacing spacing } }
    {
        self.spacing = first(self.spacing, spacing);
    }

    /// ROWCOL r c
    pub fn with_rows(&mut self, rows: Option<Pt>)
        ensures { self.new ≡ record self.old { rows = first_of self.old.rows rows } }
    {
        self.rows = first(self.rows, rows);
    }

    /// ENCLOSURE bx by tx ty
    pub fn with_enclosure(&mut self, numbers: &[i32])
        ensures { self.new ≡ record self.old { enclosure = first_of self.old.enclosure (means.enclosure_of numbers.now) } }
    {
        if self.enclosure.is_none() {
            self.enclosure = enclosure_of(numbers);
        }
    }

    /// LAYERS b c t
    pub fn with_layers(&mut self, layers: ViaLayers)
        ensures { self.new ≡ record self.old { layers = first_of self.old.layers (Some layers) } }
    {
        if self.layers.is_none() {
            self.layers = Some(layers);
        }
    }

    /// Whether an option of the generated form stands in it.
    fn is_generated(&self) -> bool
        ensures { result ≡ means.is_generated self.now }
    {
        self.has_rule
            || self.cut.is_some()
            || self.layers.is_some()
            || self.spacing.is_some()
            || self.enclosure.is_some()
            || self.rows.is_some()
    }

    /// The numbers of a generated via. None where an option is missing.
    #[tactic(auto, unfolding(crate::specs::Means::made_of))]
    fn made(&self) -> Option<[i32; 10]>
        ensures { result ≡ means.made_of self.now }
    {
        if !(self.has_rule && self.layers.is_some()) {
            return None;
        }
        let Some(cut) = self.cut else {
            return None;
        };
        let Some(spacing) = self.spacing else {
            return None;
        };
        let Some(enclosure) = self.enclosure else {
            return None;
        };
        let rows = rows_or_1(self.rows);
        Some([
            cut.x,
            cut.y,
            spacing.x,
            spacing.y,
            enclosure.first.x,
            enclosure.first.y,
            enclosure.third.x,
            enclosure.third.y,
            rows.x,
            rows.y,
        ])
    }

    /// The via of these options. Its rectangles don't count in the generated form.
    #[tactic(auto, unfolding(crate::specs::Means::via_of))]
    pub fn finish(mut self, alloc: Global, name: Text, line: u32) -> Result<RawVia, NoMemory>
        ensures { IfOk result (λ via. via ≡ means.via_of name line self) }
    {
        let made = self.made();
        if self.is_generated() {
            self.rects.clear();
        }
        Ok(RawVia {
            name,
            line,
            plain: self.is_plain,
            rects: self.rects,
            layers: layers_of(alloc, self.layers)?,
            made,
        })
    }
}

impl PinDraft {
    /// DIRECTION d
    pub fn with_direction(&mut self, chosen: Key)
        ensures { self.new ≡ record self.old { dir = first_of self.old.dir (Some (means.direction_of chosen)) } }
    {
        if self.dir.is_none() {
            self.dir = Some(direction_of(chosen));
        }
    }

    /// The port that is open joins the others.
    fn with_port(&mut self, alloc: Global) -> Result<(), NoMemory>
        ensures { OnOk result (self.new ≡ means.with_port self.old) }
    {
        if !self.is_open {
            return Ok(());
        }
        let port = RawPort {
            rects: mem::replace(&mut self.rects, List::new(alloc)),
            at: self.at,
        };
        self.ports.push(port)?;
        self.at = None;
        self.is_open = false;
        Ok(())
    }

    /// PORT
    pub fn begins_port(&mut self, alloc: Global) -> Result<(), NoMemory>
        ensures { OnOk result (self.new ≡ means.begins_port self.old) }
    {
        self.with_port(alloc)?;
        self.is_open = true;
        Ok(())
    }

    /// A rectangle of the open port. Before any PORT it is in one of its own.
    pub fn with_pin_rect(&mut self, layer: Text, rect: Option<Rect>) -> Result<(), NoMemory>
        ensures { OnOk result (self.new ≡ record self.old { is_open = true; rects = with_rect layer rect self.old.rects }) }
    {
        put_rect(&mut self.rects, layer, rect)?;
        self.is_open = true;
        Ok(())
    }

    /// Where the open port is placed. Before any PORT it is one of its own.
    pub fn placed(&mut self, at: Option<Pt>, chosen: Key)
        ensures { self.new ≡ record self.old { is_open = true; at = first_of self.old.at (means.placement at chosen) } }
    {
        self.at = first_placement(self.at, at, chosen);
        self.is_open = true;
    }

    /// The die pin of these options.
    #[tactic(auto, unfolding(crate::specs::Means::pin_of))]
    pub fn finish(mut self, alloc: Global, name: Text, line: u32) -> Result<RawPin, NoMemory>
        ensures { IfOk result (λ pin. pin ≡ means.pin_of name line self) }
    {
        self.with_port(alloc)?;
        Ok(RawPin {
            name,
            line,
            dir: direction_or_both(self.dir),
            ports: self.ports,
        })
    }
}

/// The letter of a direction, which is that of both where nothing is said of it.
fn direction_or_both(dir: Option<u8>) -> u8
    ensures { result ≡ means.direction_or_both dir }
{
    match dir {
        Some(dir) => dir,
        None => b'B',
    }
}
