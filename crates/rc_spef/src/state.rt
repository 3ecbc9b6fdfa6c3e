//! What is read of a SPEF text so far.

ghost use Rattle.std.specs.Prelude.{◌≡◌, []};
ghost use Rattle.rc_spef.specs.Moves.{no_end, no_net, or_nothing as or_nothing_of};

use crate::name_map::NameMap;
use crate::value::{DNet, End, Spef, SpefPort, Sub};
use rc_fixed::{Fixed, List, Text};
use std::alloc::Global;

/// Which row of the grammar reads the next token.
#[derive(Clone, Copy, Debug, PartialEq, Eq)]
pub enum Row {
    /// `*SPEF` is due.
    Begin,
    /// The quoted version of the standard is due.
    Version,
    /// A word of the header may stand here, or what follows the header.
    Header,
    /// The quoted design is due.
    Design,
    /// A quoted token of the header is due.
    Quoted,
    /// The first quoted token of a design flow is due.
    Flow,
    /// Further quoted tokens of a design flow may stand here.
    Flows,
    /// The byte between the levels of a name is due.
    Divider,
    /// `:` is due.
    Delimiter,
    /// The bytes around a bit's number are due, in one word or two.
    BusLeft,
    /// The byte behind a bit's number is due.
    BusRight,
    /// The number of a unit that doesn't count is due.
    OtherNumber,
    /// The word of a unit that doesn't count is due.
    OtherUnit,
    /// The number of the unit of capacitance is due.
    CapNumber,
    /// The word of the unit of capacitance is due.
    CapUnit,
    /// The number of the unit of resistance is due.
    ResNumber,
    /// The word of the unit of resistance is due.
    ResUnit,
    /// An entry of the map of names may stand here.
    Names,
    /// The name of an entry is due.
    Name,
    /// A port may stand here.
    Ports,
    /// The direction of a port is due.
    PortDirection,
    /// An attribute of a port may stand here, or the next port.
    PortTail,
    /// The first coordinate of an attribute is due.
    FirstCoordinate,
    /// The second coordinate of an attribute is due.
    SecondCoordinate,
    /// The load of an attribute is due.
    Load,
    /// The cell of an attribute is due.
    Cell,
    /// A net may stand here.
    Nets,
    /// The name of a net is due.
    NetName,
    /// The total of a net is due.
    NetTotal,
    /// `*V` may stand here, or the sections of a net.
    NetTail,
    /// The word behind `*V` is due.
    Confidence,
    /// The sections of a net may stand here.
    Sections,
    /// A connection may stand here.
    Conns,
    /// The end of a connection is due.
    ConnEnd,
    /// The direction of a connection is due.
    ConnDirection,
    /// An attribute of a connection may stand here, or the next connection.
    ConnTail,
    /// An attribute of an internal node may stand here, or the next connection.
    NodeTail,
    /// A capacitance may stand here.
    Caps,
    /// The first end of a capacitance is due.
    CapFirst,
    /// The second end of a capacitance is due, or its value.
    CapSecond,
    /// The value of a capacitance is due.
    CapValue,
    /// A resistor may stand here.
    Resistors,
    /// The first end of a resistor is due.
    ResFirst,
    /// The second end of a resistor is due.
    ResSecond,
    /// The value of a resistor is due.
    ResValue,
}

/// How many of the value's units the unit of a file is.
#[derive(Clone, Copy, Debug, PartialEq, Eq)]
pub enum Scale {
    /// One: FF, OHM.
    One,
    /// A thousand: PF, KOHM.
    Thousand,
}

/// What a connection is.
#[derive(Clone, Copy, Debug, PartialEq, Eq)]
pub enum ConnKind {
    /// A die pin, `*P`.
    External,
    /// A pin of a component, `*I`.
    Internal,
    /// An internal node, `*N`, which is passed over.
    Node,
}

/// The header so far: the words that stood, and what they said.
#[derive(Debug, Drop)]
pub struct Header {
    pub seen: List<Text>,
    pub design: Option<Text>,
    pub divider: u8,
    pub bus_left: u8,
    pub bus_right: u8,
    pub cap_scale: Option<Scale>,
    pub res_scale: Option<Scale>,
}

/// What is read of a text so far, and where in the grammar one stands. `line` is that of the statement whose attributes may
/// follow, and `back` the row that goes on behind an attribute. `name`, `kind`, `first` and `second` are those of the statement
/// that is begun, `net` is the net that is open.
#[derive(Drop)]
pub struct State {
    pub row: Row,
    pub back: Row,
    pub line: u32,
    pub header: Header,
    pub map: NameMap,
    pub names: List<Text>,
    pub ports: List<SpefPort>,
    pub nets: List<DNet>,
    pub net: DNet,
    pub name: u32,
    pub kind: ConnKind,
    pub first: End,
    pub second: Option<End>,
}

impl End {
    /// An end that isn't told yet.
    pub fn none() -> End
        ensures { result ≡ no_end }
    {
        End {
            name: 0,
            sub: Sub::Bare,
        }
    }
}

impl DNet {
    /// A net without parts.
    pub fn none(alloc: Global) -> DNet
        ensures { result ≡ no_net }
    {
        DNet {
            name: 0,
            total: Fixed(0),
            conns: List::new(alloc),
            caps: List::new(alloc),
            res: List::new(alloc),
        }
    }
}

impl Header {
    ghost use Rattle.rc_spef.specs.Moves.{no_header};

    /// A header without words.
    fn new(alloc: Global) -> Header
        ensures { result ≡ no_header }
    {
        Header {
            seen: List::new(alloc),
            design: None,
            divider: b'/',
            bus_left: b'[',
            bus_right: b']',
            cap_scale: None,
            res_scale: None,
        }
    }

    /// The design, or no bytes where none is told.
    fn into_design(self, alloc: Global) -> Text
        ensures { result ≡ or_nothing_of self.design }
    {
        let design = self.design;
        or_nothing(alloc, design)
    }
}

/// A text, or no bytes where there is none.
fn or_nothing(alloc: Global, text: Option<Text>) -> Text
    ensures { result ≡ or_nothing_of text }
{
    match text {
        Some(text) => text,
        None => Text::new(alloc),
    }
}

impl State {
    ghost use Rattle.rc_spef.specs.Moves.{spef_begin, spef_made};

    /// Nothing is read.
    pub fn new(alloc: Global) -> State
        ensures { result ≡ spef_begin }
    {
        State {
            row: Row::Begin,
            back: Row::Begin,
            line: 1,
            header: Header::new(alloc),
            map: NameMap::new(alloc),
            names: List::new(alloc),
            ports: List::new(alloc),
            nets: List::new(alloc),
            net: DNet::none(alloc),
            name: 0,
            kind: ConnKind::Node,
            first: End::none(),
            second: None,
        }
    }

    /// The value that was read.
    pub fn into_spef(self, alloc: Global) -> Spef
        ensures { result ≡ spef_made self }
    {
        let divider = self.header.divider;
        let bus_left = self.header.bus_left;
        let bus_right = self.header.bus_right;
        let header = self.header;
        let names = self.names;
        let ports = self.ports;
        let nets = self.nets;
        Spef {
            design: header.into_design(alloc),
            divider,
            bus_left,
            bus_right,
            names,
            ports,
            nets,
        }
    }
}
