//! The wiring of nets, as it is written: paths of points, vias and patches, in the units of the text.
#![tactic(auto)]

mod fit;
mod item;
mod key;
mod laws;
mod operands;
mod part;
mod path;
mod reader;
mod wiring;

pub use fit::fitted;
pub use item::{PathItem, PathStage};
pub use key::{Key, Keys};
pub use laws::paths_are_items;
pub use operands::Operands;
pub use part::{Part, When, past, place_of};
pub use path::{RawPath, Step, Taper};
pub use reader::{Given, PathReader, read_regular, read_special};
pub use wiring::{Wiring, one_of, orient_of, point_of};
