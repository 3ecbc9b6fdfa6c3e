//! A design that is made by draws, and the summary of its parasitics. Begin at `generate` in `making`.
#![tactic(auto)]

mod amount;
mod design;
mod draws;
mod laws;
mod making;
mod process;
mod sums;

pub use laws::small_totals_suffice;
pub use making::generate;
pub use sums::summary;
