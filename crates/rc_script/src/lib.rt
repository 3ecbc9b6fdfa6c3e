//! An edit script as it is written: its commands, in the units of the design's DEF file.
#![tactic(auto)]

mod command;
mod draft;
mod item;
mod laws;
mod reader;

pub use command::Command;
pub use laws::{script_is_read, scripts_say_one};
pub use reader::read_script;
