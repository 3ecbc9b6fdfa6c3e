//! The engine: what a layout and rules come to as a SPEF value.
#![tactic(auto)]

mod accept;
mod any;
mod area;
mod candidate;
mod cap;
mod conn;
mod engine;
mod fits;
mod gather;
pub mod laws;
mod measured;
mod missing;
mod naming;
mod nearby;
mod net;
mod net_names;
mod positions;
mod resist;
mod sweeping;
mod text;
mod touching;
mod value;

pub use cap::capacitances;
pub use conn::{connections, die_pins};
pub use engine::{Engine, StartFault};
pub use fits::{entries_fit, totals_fit};
pub use naming::Naming;
pub use net::{net_of, value_of};
pub use resist::resistances;
