//! Linked nets.

use crate::Item;
use rc_fixed::{List, Text};
use rc_geom::Pt;

/// What a net connects, by its number in the layout.
#[derive(Clone, Copy, Debug, PartialEq, Eq, Hash)]
pub enum Conn {
    /// A pin of a component's cell.
    Pin { comp: u32, pin: u32 },
    /// A die pin.
    Port { port: u32 },
}

/// A net with its wiring.
///
/// `points` has, with repeats, each path point on its layer, and for each via its lower and then its upper end. `vias` has
/// each via by its number and the point at which it stands, and `items` what is drawn, in the order of the text.
#[derive(Debug, Drop)]
pub struct Net {
    pub name: Text,
    pub line: u32,
    pub rule: Option<Text>,
    pub conns: List<Conn>,
    pub points: List<(u8, Pt)>,
    pub vias: List<(u32, Pt)>,
    pub items: List<Item>,
}
