//! The geometry of rc_geom computed square by square: what stands on a unit square, its faces, what they see and the
//! sums of their amounts. Each call answers what the definition of its name says; it is plain, and slow.
#![tactic(auto)]

mod area;
mod crossing;
mod entries;
mod faces;
mod parts;
mod pass;
mod rates;
mod square;
mod sums;
mod tally;
#[cfg(test)]
mod tests;

pub use entries::{Entry, sums_in};
pub use faces::{Face, Seen, context, face_at, sight, thickness};
pub use parts::pair_key;
pub use rates::FaceRates;
pub use square::{Metal, metal_at};
pub use sums::{Sum, key_sum, same_key, sum_in};
