//! A design as a DEF file writes it: names, numbers and lines, in the units of the file.
#![tactic(auto)]

mod begins;
mod design;
mod draft;
mod entry;
mod header;
mod item;
mod laws;
mod list;
mod means;
mod net;
mod options;
mod raw_net;
mod reader;

pub use design::RawDesign;
pub use entry::{RawComp, RawPin, RawPort, RawRule, RawVia};
pub use laws::{accepted_are_files, cuts_are_refused, files_say_one};
pub use raw_net::RawNet;
pub use reader::read;
