//! The files that a layer is timed on.

use rc_fixed::List;
use rc_io::{RealFiles, read_whole};
use rc_keys::Mode;
use std::rt::Files;

/// What a file is, by the end of its name.
#[derive(Clone, Copy, Debug, PartialEq, Eq)]
pub enum Kind {
    Lef,
    Def,
    Rules,
    Spef,
}

impl Kind {
    /// What the file of that name is: `.def`, `.rules` and `.spef` tell; any other is LEF.
    fn of(name: &str) -> Kind {
        if name.ends_with(".def") {
            return Kind::Def;
        }
        if name.ends_with(".rules") {
            return Kind::Rules;
        }
        if name.ends_with(".spef") {
            return Kind::Spef;
        }
        Kind::Lef
    }

    /// How its text is cut into tokens.
    pub fn mode(self) -> Mode {
        match self {
            Kind::Spef => Mode::Spef,
            _ => Mode::Lef,
        }
    }
}

/// A file that was read.
#[derive(Drop)]
pub struct Input {
    pub text: List<u8>,
    pub kind: Kind,
}

impl Input {
    /// Reads the file of that name.
    pub fn read<R: Files + AllocGlobal>(rt: &R, name: &str) -> anyhow::Result<Input> {
        let text = read_whole(rt.alloc(), &mut RealFiles::new(rt), name, 1 << 30)?;
        Ok(Input {
            text,
            kind: Kind::of(name),
        })
    }
}
