//! Amounts, and the sums of amounts by key.
#![tactic(auto)]

mod amount;
mod entry;
mod join;
mod latest;
pub mod laws;
mod place;
mod tally;

pub use amount::Amount;
pub use entry::Entry;
pub use rc_geom::Key;
pub use tally::Tally;
