//! The sums of a window for every rater, square by square. It is plain, and slow: what faster bodies are compared with.
#![tactic(auto)]

mod area;
mod face;
mod keys;
mod sums;

pub use sums::{sums_in, sums_of_both};
