//! Files and sinks that may fail, and the two calls that read a whole file and write all bytes.
//!
//! An object counts its own faults, and a call answers that it failed only where that count rose. So a caller
//! that is generic over an object can hand a fault on, and can never make one up.
#![tactic(auto)]

mod files;
mod gather;
mod laws;
mod mem_files;
mod mem_sink;
mod pieces;
mod read;
mod real;
mod sink;
#[cfg(test)]
mod tests;
mod write;

pub use files::{Failed, Files};
pub use gather::Gather;
pub use laws::growth_adds_up;
pub use mem_files::MemFiles;
pub use mem_sink::MemSink;
pub use pieces::Pieces;
pub use read::{ReadEnd, read_whole};
pub use real::{RealFiles, RealSink};
pub use sink::Sink;
pub use write::{WriteFault, write_all};
