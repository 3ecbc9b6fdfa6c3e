//! The nodes of a net, its metal as tiles, each of one node, and its resistors.
#![tactic(auto)]

mod centreline;
mod contact;
mod count;
mod crossing;
mod find;
pub mod laws;
mod line;
mod link;
mod metal;
mod node;
mod number;
mod pin;
mod resistor;
mod share;
mod wire;

pub use count::{tile_count, tile_count_on};
pub use find::number_of;
pub use line::Lines;
pub use metal::{tiles, tiles_on};
pub use node::Node;
pub use number::nodes;
pub use resistor::{Res, ResEnd, resistors};
