//! One column: a line of an axis on all layers, with its runs of metal, its faces, and what lies under and over them.
#![tactic(auto)]

mod edits;
mod ends;
mod face;
mod metal;
mod run;
mod stack;
mod walk;

pub use edits::Edits;
pub use ends::{Mark, crosses_line, end_line, end_place, first_line, first_place, next_line};
pub use face::Face;
pub use metal::Metal;
pub use run::Run;
pub use stack::Stack;
