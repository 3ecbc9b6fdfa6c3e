//! Sessions: the commands of a script, carried out one after the other over an engine. Begin at `perform` in `performing`.
#![tactic(auto)]

mod code;
mod laws;
mod line;
mod performing;
mod reply;

pub use code::code_of;
pub use laws::{layouts_stay_accepted, refused_edits_change_nothing, replies_follow};
pub use performing::{Cut, perform};
