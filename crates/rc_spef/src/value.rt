//! The value of a SPEF file.

use rc_fixed::{Fixed, List, Text};

/// Extracted parasitics. Names are places in the list of names, from 1, and all texts are escaped.
#[derive(Debug, Drop)]
pub struct Spef {
    /// What stands between the quotes of `*DESIGN`.
    pub design: Text,
    /// The byte between the levels of a name.
    pub divider: u8,
    /// The byte before a bit's number.
    pub bus_left: u8,
    /// The byte behind a bit's number.
    pub bus_right: u8,
    /// The map of names.
    pub names: List<Text>,
    /// The die pins.
    pub ports: List<SpefPort>,
    /// The nets.
    pub nets: List<DNet>,
}

/// A die pin.
#[derive(Debug, Drop)]
pub struct SpefPort {
    /// Its name.
    pub name: u32,
    /// Its direction.
    pub dir: Dir3,
}

/// A direction: input, output or both.
#[derive(Clone, Copy, Debug, PartialEq, Eq)]
pub enum Dir3 {
    /// Input.
    I,
    /// Output.
    O,
    /// Both, or not told.
    B,
}

/// A net with its parasitics.
#[derive(Debug, Drop)]
pub struct DNet {
    /// Its name.
    pub name: u32,
    /// Its total capacitance as it is told, in 10^-15 fF. In a value that was read it is what the text says, whatever the
    /// capacitances come to.
    pub total: Fixed,
    /// What it connects.
    pub conns: List<SpefConn>,
    /// Its capacitances.
    pub caps: List<Cap>,
    /// Its resistors.
    pub res: List<SpefRes>,
}

/// What stands behind the name of an end.
#[derive(Debug, Drop)]
pub enum Sub {
    /// Nothing.
    Bare,
    /// A number, as of a node.
    Num(u32),
    /// Another word, as the name of a pin.
    Word(Text),
}

/// A node of a net, a pin of a component, or a die pin.
#[derive(Debug, Drop)]
pub struct End {
    /// The name of the net, the component or the die pin.
    pub name: u32,
    /// The node's number or the pin's name.
    pub sub: Sub,
}

/// A capacitance to ground, or to a second end.
#[derive(Debug, Drop)]
pub struct Cap {
    /// The first end.
    pub a: End,
    /// The second end, where it is a coupling.
    pub b: Option<End>,
    /// In 10^-15 fF.
    pub value: Fixed,
}

/// A resistor.
#[derive(Debug, Drop)]
pub struct SpefRes {
    /// One end.
    pub a: End,
    /// The other end.
    pub b: End,
    /// In 10^-15 ohm.
    pub value: Fixed,
}

/// A connection of a net, to a die pin or to a pin of a component.
#[derive(Debug, Drop)]
pub struct SpefConn {
    /// Whether it is a die pin.
    pub port: bool,
    /// Where it connects.
    pub end: End,
    /// Its direction.
    pub dir: Dir3,
    /// The cell of the component, where it is told.
    pub cell: Option<Text>,
}
