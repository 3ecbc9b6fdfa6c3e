//! The shorts of a layout: where metal of different nets meets. Of all shorts exactly the first is found.
#![tactic(auto)]

mod cell;
mod compare;
mod divide;
mod first;
pub mod laws;
mod linked;
mod near;
mod order;
mod search;
mod shape;

pub use first::{first_among, short_among_with, short_near};
pub use linked::{first_short, short_with};
pub use shape::{Shape, Short};
