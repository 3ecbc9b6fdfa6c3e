//! The formats that are read, and what a text of one comes to.

ghost use Rattle.std.specs.Prelude.{◌≤◌, ◌^◌, IfOk};

use anyhow::bail;
use rc_fixed::NoMemory;
use rc_keys::{Fault, Refusal};
use rc_lef::{Tech, TechReader};
use std::alloc::Global;

/// The technology that rule files are read with: three routing layers, the cut layers between them, a layer of another kind, and
/// two vias.
const TECHNOLOGY: &str = "UNITS DATABASE MICRONS 1000 ; END UNITS
LAYER m1 TYPE ROUTING ; WIDTH 0.1 ; END m1
LAYER v1 TYPE CUT ; END v1
LAYER m2 TYPE ROUTING ; WIDTH 0.1 ; END m2
LAYER v2 TYPE CUT ; END v2
LAYER m3 TYPE ROUTING ; WIDTH 0.1 ; END m3
LAYER OVL TYPE OVERLAP ; END OVL
VIA V12 DEFAULT
LAYER m1 ; RECT -0.05 -0.05 0.05 0.05 ;
LAYER v1 ; RECT -0.025 -0.025 0.025 0.025 ;
LAYER m2 ; RECT -0.05 -0.05 0.05 0.05 ;
END V12
END LIBRARY
";

/// What reads a text.
#[derive(Clone, Copy, Debug)]
pub enum Format {
    /// The first LEF file.
    Lef,
    /// A LEF file behind the technology of rule files.
    Next,
    Def,
    /// A rule file over that technology.
    Rules,
    Spef,
}

/// A text of many lines from one line, where `^` stands for a line's end.
fn lines(alloc: Global, row: &str) -> Result<Vec<u8>, NoMemory> {
    let mut text = Vec::from_slice(alloc, row.as_bytes())?;
    for byte in text.iter_mut() {
        if *byte == b'^' {
            *byte = b'\n';
        }
    }
    Ok(text)
}

/// What an answer says of the text.
fn told<T: Drop>(alloc: Global, answer: Result<T, Fault>) -> anyhow::Result<String> {
    match answer {
        Ok(_) => Ok(String::from_str(alloc, "ok")?),
        Err(Fault::Refused(Refusal::At { code, line })) => Ok(format!(in alloc;
            "{code:?} {line}"
        )?),
        Err(Fault::Refused(Refusal::Limit { what })) => Ok(format!(in alloc;
            "E14 {}",
            what.name()
        )?),
        Err(Fault::Refused(_)) => Ok(String::from_str(alloc, "another refusal")?),
        Err(Fault::NoMemory) => Ok(String::from_str(alloc, "no memory")?),
    }
}

/// The greatest text.
const MOST: usize = 1 << 20;

/// A reader that has read the technology of rule files.
fn technology_read(alloc: Global) -> anyhow::Result<TechReader>
    ensures { IfOk result (λ reader. reader.bytes ≤ 2 ^ 20) }
{
    let mut reader = TechReader::new(alloc);
    if TECHNOLOGY.len() > MOST {
        bail!("the technology is too long");
    }
    match reader.file(TECHNOLOGY.as_bytes()) {
        Ok(()) => Ok(reader),
        Err(_) => bail!("the technology is refused"),
    }
}

/// The technology of rule files.
pub fn technology(alloc: Global) -> anyhow::Result<Tech> {
    Ok(technology_read(alloc)?.finish())
}

impl Format {
    /// The format of that name.
    pub fn named(word: &str) -> Format {
        match word {
            "lef" => Format::Lef,
            "def" => Format::Def,
            "rules" => Format::Rules,
            "spef" => Format::Spef,
            _ => Format::Next,
        }
    }

    /// What a text of the format comes to.
    pub fn comes_to(self, alloc: Global, tech: &Tech, row: &str) -> anyhow::Result<String> {
        let text = lines(alloc, row)?;
        if text.len() > MOST {
            bail!("a text is too long");
        }
        match self {
            Format::Lef => told(alloc, TechReader::new(alloc).file(&text)),
            Format::Next => told(alloc, technology_read(alloc)?.file(&text)),
            Format::Def => told(alloc, rc_def::read(alloc, &text)),
            Format::Rules if tech.units().is_some() => told(
                alloc,
                rc_rules::read(alloc, &text, tech),
            ),
            Format::Spef => told(alloc, rc_spef::read(alloc, &text)),
            Format::Rules => bail!("the technology has no units"),
        }
    }
}
