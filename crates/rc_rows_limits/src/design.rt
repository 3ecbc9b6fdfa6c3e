//! Designs with so many things of a kind.

use itoa::Buffer;
use rc_fixed::NoMemory;
use std::alloc::Global;

/// What a design may have only so many of.
#[derive(Clone, Copy, Debug, PartialEq, Eq)]
pub enum Things {
    Nets,
    Components,
    Pins,
    Shapes,
}

const HEAD: &[u8] = b"VERSION 5.8 ;\nDESIGN t ;\nUNITS DISTANCE MICRONS 1000 ;\n";

const END: &[u8] = b"END DESIGN\n";

impl Things {
    pub const ALL: [Things; 4] = [
        Things::Nets,
        Things::Components,
        Things::Pins,
        Things::Shapes,
    ];

    pub fn name(self) -> &'static str {
        match self {
            Things::Nets => "nets",
            Things::Components => "components",
            Things::Pins => "die pins",
            Things::Shapes => "pieces of one net",
        }
    }

    /// How many of them a layout may have.
    pub fn limit(self) -> u32 {
        match self {
            Things::Shapes => 1 << 22,
            _ => 1 << 20,
        }
    }

    /// The text of a design with so many of them.
    pub fn design(self, alloc: Global, count: u32) -> Result<Vec<u8>, NoMemory> {
        let mut text = Vec::from_slice(alloc, HEAD)?;
        match self {
            Things::Nets => put_section(&mut text, b"NETS", b"- n", b" ;\n", count)?,
            Things::Components => {
                put_section(&mut text, b"COMPONENTS", b"- u", b" BUF ;\n", count)?;
            }
            Things::Pins => put_section(&mut text, b"PINS", b"- p", b" + NET n ;\n", count)?,
            Things::Shapes => put_net(&mut text, count)?,
        }
        text.extend_from_slice(END)?;
        Ok(text)
    }
}

/// Writes a section whose entries have numbers in their names.
fn put_section(
    text: &mut Vec<u8>,
    word: &[u8],
    before: &[u8],
    behind: &[u8],
    count: u32,
) -> Result<(), NoMemory> {
    text.extend_from_slice(word)?;
    text.extend_from_slice(b" 1 ;\n")?;
    for number in 0..count {
        let mut digits = Buffer::new();
        text.extend_from_slice(before)?;
        text.extend_from_slice(digits.format(number).as_bytes())?;
        text.extend_from_slice(behind)?;
    }
    text.extend_from_slice(b"END ")?;
    text.extend_from_slice(word)?;
    text.extend_from_slice(b"\n")?;
    Ok(())
}

/// Writes the section of one net, whose wire goes to and fro so many times.
fn put_net(text: &mut Vec<u8>, count: u32) -> Result<(), NoMemory> {
    text.extend_from_slice(b"NETS 1 ;\n- a + ROUTED m1 ( 0 0 )")?;
    for number in 0..count {
        let point: &[u8] = if number % 2 == 0 {
            b" ( 9 * )"
        } else {
            b" ( 0 * )"
        };
        text.extend_from_slice(point)?;
    }
    text.extend_from_slice(b" ;\nEND NETS\n")?;
    Ok(())
}
