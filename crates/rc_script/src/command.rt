//! The commands of a script.

use rc_fixed::{List, Text};
use rc_wire::RawPath;

/// A command of a script. Its line is that of its first token.
#[derive(Debug, Drop)]
pub enum Command {
    /// The net of that name gets these paths, in the units of the design's DEF file, in place of those that it has.
    Replace {
        name: Text,
        paths: List<RawPath>,
        line: u32,
    },
    /// The SPEF text of the layout is written.
    Spef,
    /// The block of the net of that name is written.
    Net {
        name: Text,
        line: u32,
    },
    /// How many windows the last accepted edit touched is written.
    Stat,
}
