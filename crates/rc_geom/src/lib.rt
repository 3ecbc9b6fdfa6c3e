//! Unit squares, rectangles and tiles, and the definitions of what stands on them: the plane, its lines, its faces, and
//! the sums over its faces.
//!
//! The code here is small. The definitions in `specs/` are what the other crates are proved against, and the functions
//! of `laws` carry what is proved of the definitions themselves.
#![tactic(auto)]

mod key;
pub mod laws;
mod midpoint;
mod orient;
mod rect;
mod tile;

pub use key::Key;
pub use midpoint::split;
pub use orient::{Orient, place, turn};
pub use rect::{Pt, Rect, coord, grow, meets, meets_closed};
pub use tile::{Side, Tile};
