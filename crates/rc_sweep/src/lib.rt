//! The interval sweep of one window: what its faces add up to, by key.
#![tactic(auto)]

mod meter;
mod sweep;
mod window;

pub use meter::{CountMeter, Meter};
pub use sweep::sweep_window;
pub use window::Window;
