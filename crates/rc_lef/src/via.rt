//! Vias as they are used.

use rc_fixed::{List, Text};
use rc_geom::Rect;
use rc_keys::Named;

/// A via. One that is usable has pads on exactly the routing layers `lower` and `upper`, of which `lower` has the lower
/// number, and at least one cut, all on the cut layer `cut`. The pads stand in the order in which they are written; a via
/// that is made of numbers has the lower one first. A via that isn't usable has no pads, and 0 for the rest.
#[derive(Debug, Drop)]
pub struct Via {
    pub name: Text,
    pub usable: bool,
    pub lower: u8,
    pub cut: u8,
    pub upper: u8,
    pub cuts: u32,
    pub pads: List<(u8, Rect)>,
}

impl Named for Via {
    ghost use Rattle.rc_lef.specs.Technology.{name_of_via};

    ghost called = { name_of_via };

    fn name(&self) -> &[u8] {
        self.name.bytes()
    }
}
