//! What faces are rated by: the rule file, and its look-up.
#![tactic(auto)]

mod block_rows;
mod key;
pub mod laws;
mod layer;
mod layers;
mod number;
mod numbers;
mod pair;
mod rater;
mod reader;
mod rows;
mod rules;
mod scale;
mod state;

pub use rater::{Rate, Rater};
pub use reader::read;
pub use rules::Rules;
