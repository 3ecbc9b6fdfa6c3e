//! Rows of squares, rectangles and tallies, as tests.
#![tactic(auto)]

mod room;

pub use room::{can_gather, can_merge, has_room, times};

#[cfg(test)]
mod shapes;
#[cfg(test)]
mod tallies;
