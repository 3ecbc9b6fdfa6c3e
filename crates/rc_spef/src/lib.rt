//! The value of a SPEF file, its exact text, and the reader.
#![tactic(auto)]

mod balance;
mod buffered;
mod escaping;
mod grammar;
mod header_rows;
mod joint;
mod key;
mod laws;
mod moves;
mod name_map;
mod name_rows;
mod net_rows;
mod numbers;
mod reader;
mod same;
mod state;
mod value;
mod writer;

pub use balance::is_balanced;
pub use escaping::{escape, sub};
pub use laws::{grammar_is_read, head_and_blocks, spef_reads_back};
pub use reader::read;
pub use same::same_net;
pub use value::{Cap, DNet, Dir3, End, Spef, SpefConn, SpefPort, SpefRes, Sub};
pub use writer::{block_text, head_text, net_text, text};
