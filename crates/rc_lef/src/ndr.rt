//! Nondefault rules.

use rc_fixed::{List, Text};
use rc_keys::Named;

/// A nondefault rule: the width of wires on each routing layer that it names, by the layer's number.
#[derive(Debug, Drop)]
pub struct Ndr {
    pub name: Text,
    pub widths: List<(u8, i32)>,
}

impl Named for Ndr {
    ghost use Rattle.rc_lef.specs.Technology.{name_of_rule};

    ghost called = { name_of_rule };

    fn name(&self) -> &[u8] {
        self.name.bytes()
    }
}
