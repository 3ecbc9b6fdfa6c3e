//! Rows of windows, of edits and of workers, as tests: the grid, the windows that an edit touches and their lists, and the
//! sums of windows that several workers swept.
#![tactic(auto)]

mod sweeping;

pub use sweeping::{Sweep, swept, windows_of};

#[cfg(test)]
mod edits;
#[cfg(test)]
mod grids;
#[cfg(test)]
mod workers;
