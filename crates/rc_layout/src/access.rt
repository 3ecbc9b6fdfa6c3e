//! What a layout holds beside its nets.

ghost use Rattle.std.specs.Prelude.{◌≡◌, ◌+◌, ◌<◌, Some, length, option_map, slice_get};
ghost use Rattle.rc_layout.specs.Metal.{all_nets};

use crate::layout::Layout;
use crate::net::Net;
use crate::part::{Comp, Port};
use rc_lef::{Tech, Via};

/// The name of the net at a place.
fn name_at(nets: &[Net], at: usize) -> &[u8]
    requires { at < length nets.now }
    ensures { option_map (λ net. net.name) (slice_get nets.now at) ≡ Some result.now }
{
    nets[at].name.bytes()
}

impl Layout {
    /// The technology.
    pub fn tech(&self) -> &Tech
        ensures { result.now ≡ self.now.parts.tech }
    {
        self.parts().tech.tech()
    }

    /// The name of the design.
    pub fn design(&self) -> &[u8]
        ensures { result.now ≡ self.now.parts.design }
    {
        self.parts().design.bytes()
    }

    /// The byte that parts the names of a path through the hierarchy.
    pub fn divider(&self) -> u8
        ensures { result ≡ self.now.parts.divider }
    {
        self.parts().divider
    }

    /// The bytes before and behind the number of a bit.
    pub fn bus(&self) -> (u8, u8)
        ensures { result ≡ (self.now.parts.bus_left, self.now.parts.bus_right) }
    {
        let parts = self.parts();
        (parts.bus_left, parts.bus_right)
    }

    /// The vias of the design, and then those of the technology. A net names a via by its number here.
    pub fn vias(&self) -> &[Via]
        ensures { result.now ≡ self.now.parts.vias }
    {
        self.parts().vias.items()
    }

    /// The components.
    pub fn comps(&self) -> &[Comp]
        ensures { result.now ≡ self.now.parts.comps }
    {
        self.parts().comps.items()
    }

    /// The die pins.
    pub fn ports(&self) -> &[Port]
        ensures { result.now ≡ self.now.parts.ports }
    {
        self.parts().ports.items()
    }

    /// The name of the net of that number. Grounded nets have the numbers behind those of the others.
    pub fn name(&self, k: u32) -> &[u8]
        requires { k < length self.now.nets + length self.now.grounded }
        ensures { option_map (λ net. net.name) (slice_get (all_nets self.now) k) ≡ Some result.now }
    {
        let nets = self.nets();
        let place = k as usize;
        if place < nets.len() {
            return name_at(nets, place);
        }
        name_at(self.grounded(), place - nets.len())
    }
}
