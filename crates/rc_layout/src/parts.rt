//! What the nets of a layout may name.

use crate::firsts::Firsts;
use crate::part::{Comp, Port, Rule};
use crate::process::Process;
use rc_fixed::Text;
use rc_keys::Table;
use rc_lef::Via;

/// All of a layout but its nets. `factor` units of the layout are one of the design. Vias and nondefault rules are those of
/// the design, and then those of the technology.
#[derive(Drop)]
pub struct Parts {
    pub tech: Process,
    pub factor: u32,
    pub design: Text,
    pub divider: u8,
    pub bus_left: u8,
    pub bus_right: u8,
    pub vias: Firsts<Via>,
    pub rules: Firsts<Rule>,
    pub comps: Table<Comp>,
    pub ports: Table<Port>,
}
