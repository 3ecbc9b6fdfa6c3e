//! What is read of a file so far.

ghost use Rattle.std.specs.Prelude.{◌≡◌, [], unwrap_or, unsigned_abs};
ghost use Rattle.rc_def.specs.Drafts as drafts;
ghost use Rattle.rc_def.specs.Sound.{IsSound};

use crate::design::RawDesign;
use crate::entry::{RawComp, RawPin, RawPort, RawRule, RawVia};
use crate::item::{Section, Stage};
use crate::raw_net::RawNet;
use rc_fixed::{List, Text};
use rc_geom::{Orient, Pt, Rect};
use rc_keys::{Named, Table};
use rc_wire::Wiring;
use std::alloc::Global;

/// The statements before the sections, each the first of its kind.
#[derive(Drop)]
pub struct Header {
    pub design: Option<Text>,
    pub units: Option<Units>,
    pub divider: Option<u8>,
    pub bus: Option<(u8, u8)>,
}

/// How many units make a micron, and the line that says so.
#[derive(Clone, Copy, Debug, PartialEq, Eq)]
pub struct Units {
    pub in_a_micron: i32,
    pub line: u32,
}

/// The entries of the sections, which differ in their names.
#[derive(Drop)]
pub struct Lists {
    pub vias: Table<RawVia>,
    pub rules: Table<RawRule>,
    pub comps: Table<RawComp>,
    pub pins: Table<RawPin>,
    pub specials: Table<RawNet>,
    pub nets: Table<RawNet>,
}

/// The names of LAYERS.
#[derive(Drop)]
pub struct ViaLayers {
    pub first: Text,
    pub cut: Text,
    pub third: Text,
}

/// How far the first and the third layer of a via go beyond its cuts.
#[derive(Clone, Copy, Debug, PartialEq, Eq)]
pub struct Enclosure {
    pub first: Pt,
    pub third: Pt,
}

/// The options of a via so far; of two sizes the one along x comes first, and rows come before columns.
#[derive(Drop)]
pub struct ViaDraft {
    pub is_plain: bool,
    pub has_rule: bool,
    pub cut: Option<Pt>,
    pub layers: Option<ViaLayers>,
    pub spacing: Option<Pt>,
    pub enclosure: Option<Enclosure>,
    pub rows: Option<Pt>,
    pub rects: List<(Text, Rect)>,
}

/// The width of a layer in a nondefault rule.
#[derive(Drop)]
pub struct LayerWidth {
    pub layer: Text,
    pub width: i32,
}

/// The options of a die pin so far. `is_open` says that a port is begun, which `rects` and `at` belong to.
#[derive(Drop)]
pub struct PinDraft {
    pub dir: Option<u8>,
    pub ports: List<RawPort>,
    pub is_open: bool,
    pub rects: List<(Text, Rect)>,
    pub at: Option<(Pt, Orient)>,
}

/// The connections and options of a net so far, and the vias at points that are begun.
#[derive(Drop)]
pub struct NetDraft {
    pub power: Option<bool>,
    pub rule: Option<Text>,
    pub conns: List<(Text, Text)>,
    pub paths: List<rc_wire::RawPath>,
    pub rects: List<(Text, Rect)>,
    pub vias: List<(Text, Orient, Pt)>,
    pub via: Text,
    pub orient: Orient,
}

/// What is read of a file so far: what it says, what may stand next, the section, the word that ends what is skipped, and
/// the entry that is open.
#[derive(Drop)]
pub struct Draft {
    pub header: Header,
    pub lists: Lists,
    pub stage: Stage,
    pub section: Section,
    pub skipped: Text,
    pub name: Text,
    pub line: u32,
    pub via: ViaDraft,
    pub widths: Table<LayerWidth>,
    pub cell: Text,
    pub at: Option<(Pt, Orient)>,
    pub pin: PinDraft,
    pub net: NetDraft,
    pub wiring: Wiring,
}

impl Named for RawVia {
    ghost called = { λ via. via.name };

    fn name(&self) -> &[u8] {
        self.name.bytes()
    }
}

impl Named for RawRule {
    ghost called = { λ rule. rule.name };

    fn name(&self) -> &[u8] {
        self.name.bytes()
    }
}

impl Named for RawComp {
    ghost called = { λ comp. comp.name };

    fn name(&self) -> &[u8] {
        self.name.bytes()
    }
}

impl Named for RawPin {
    ghost called = { λ pin. pin.name };

    fn name(&self) -> &[u8] {
        self.name.bytes()
    }
}

impl Named for RawNet {
    ghost called = { λ net. net.name };

    fn name(&self) -> &[u8] {
        self.name.bytes()
    }
}

impl Named for LayerWidth {
    ghost called = { λ width. width.layer };

    fn name(&self) -> &[u8] {
        self.layer.bytes()
    }
}

impl ViaDraft {
    /// A via without options.
    pub fn new(alloc: Global) -> ViaDraft
        ensures { result ≡ drafts.no_via }
    {
        ViaDraft {
            is_plain: true,
            has_rule: false,
            cut: None,
            layers: None,
            spacing: None,
            enclosure: None,
            rows: None,
            rects: List::new(alloc),
        }
    }
}

impl PinDraft {
    /// A die pin without options.
    pub fn new(alloc: Global) -> PinDraft
        ensures { result ≡ drafts.no_pin }
    {
        PinDraft {
            dir: None,
            ports: List::new(alloc),
            is_open: false,
            rects: List::new(alloc),
            at: None,
        }
    }
}

impl NetDraft {
    /// A net without connections and options.
    pub fn new(alloc: Global) -> NetDraft
        ensures { result ≡ drafts.no_net }
    {
        NetDraft {
            power: None,
            rule: None,
            conns: List::new(alloc),
            paths: List::new(alloc),
            rects: List::new(alloc),
            vias: List::new(alloc),
            via: Text::new(alloc),
            orient: Orient::N,
        }
    }
}

impl Header {
    /// No statement.
    fn new() -> Header
        ensures { result ≡ drafts.no_header }
    {
        Header {
            design: None,
            units: None,
            divider: None,
            bus: None,
        }
    }

    /// The units of a micron.
    fn units_or_1(&self) -> Units
        ensures { result ≡ drafts.units_or_1 self.now.units }
    {
        match self.units {
            Some(units) => units,
            None => Units {
                in_a_micron: 1,
                line: 0,
            },
        }
    }

    /// The divider of names.
    fn divider_or_default(&self) -> u8
        ensures { result ≡ drafts.divider_or_default self.now.divider }
    {
        match self.divider {
            Some(divider) => divider,
            None => b'/',
        }
    }

    /// What a bit's number stands in.
    fn bus_or_default(&self) -> (u8, u8)
        ensures { result ≡ drafts.bus_or_default self.now.bus }
    {
        match self.bus {
            Some(bus) => bus,
            None => (b'[', b']'),
        }
    }

    /// Whether the statements are there that have to be.
    pub fn is_complete(&self) -> bool
        ensures { result ≡ drafts.is_complete self.now }
    {
        self.design.is_some() && self.units.is_some()
    }
}

impl Lists {
    /// No entries.
    fn new(alloc: Global) -> Lists
        ensures { result ≡ drafts.no_lists }
    {
        Lists {
            vias: Table::new(alloc),
            rules: Table::new(alloc),
            comps: Table::new(alloc),
            pins: Table::new(alloc),
            specials: Table::new(alloc),
            nets: Table::new(alloc),
        }
    }

    /// Whether a section has an entry of this name.
    pub fn has(&self, section: Section, name: &[u8]) -> bool
        ensures { result ≡ drafts.has section name.now self.now }
    {
        match section {
            Section::Vias => self.vias.has(name),
            Section::Rules => self.rules.has(name),
            Section::Comps => self.comps.has(name),
            Section::Pins => self.pins.has(name),
            Section::Specials => self.specials.has(name),
            Section::Nets => self.nets.has(name),
        }
    }
}

/// How many units make a micron.
fn micron_of(units: Units) -> u32
    ensures { result ≡ unsigned_abs units.in_a_micron }
{
    units.in_a_micron.unsigned_abs()
}

/// A text, which has no bytes where there is none.
fn or_empty(alloc: Global, text: Option<Text>) -> Text
    ensures { result ≡ unwrap_or text [] }
{
    match text {
        Some(text) => text,
        None => Text::new(alloc),
    }
}

impl Draft {
    /// Nothing is read.
    pub fn new(alloc: Global) -> Draft
        ensures { result ≡ drafts.nothing_read }
    {
        Draft {
            header: Header::new(),
            lists: Lists::new(alloc),
            stage: Stage::Top,
            section: Section::Vias,
            skipped: Text::new(alloc),
            name: Text::new(alloc),
            line: 0,
            via: ViaDraft::new(alloc),
            widths: Table::new(alloc),
            cell: Text::new(alloc),
            at: None,
            pin: PinDraft::new(alloc),
            net: NetDraft::new(alloc),
            wiring: Wiring::new(alloc, false, 0),
        }
    }

    /// The design that the file says, where its statements are complete.
    pub fn into_design(self, alloc: Global) -> RawDesign
        ensures design { result ≡ drafts.design_of self.header self.lists }
        ensures sound { IsSound result }
    {
        design_of(alloc, self.header, self.lists)
    }
}

/// The design of these statements and entries.
#[tactic(auto, unfolding(crate::specs::Drafts::design_of))]
fn design_of(alloc: Global, header: Header, lists: Lists) -> RawDesign
    ensures design { result ≡ drafts.design_of header lists }
    ensures sound { IsSound result }
{
    lists.vias.names_differ();
    lists.rules.names_differ();
    lists.comps.names_differ();
    lists.pins.names_differ();
    lists.specials.names_differ();
    lists.nets.names_differ();
    let (bus_left, bus_right) = header.bus_or_default();
    let units = header.units_or_1();
    RawDesign {
        divider: header.divider_or_default(),
        bus_left,
        bus_right,
        units: micron_of(units),
        units_line: units.line,
        design: or_empty(alloc, header.design),
        vias: lists.vias.into_list(),
        rules: lists.rules.into_list(),
        comps: lists.comps.into_list(),
        pins: lists.pins.into_list(),
        specials: lists.specials.into_list(),
        nets: lists.nets.into_list(),
    }
}
