//! The technologies and designs of rows.

ghost use Rattle.std.specs.Prelude.{IfOk};
ghost use Rattle.rc_def.specs.Forms.{IsRawDesign};

use anyhow::bail;
use rc_def::RawDesign;
use rc_fixed::NoMemory;
use rc_keys::Fault;
use rc_layout::{Layout, link};
use rc_lef::{Tech, TechReader};
use std::alloc::Global;

/// Three routing layers, 100 wide, the cut layers between them, a layer of another kind, vias between neighbours, of which one
/// can't be used, a nondefault rule, and a cell.
const PLAIN: &str = "UNITS DATABASE MICRONS 1000 ; END UNITS
LAYER m1 TYPE ROUTING ; WIDTH 0.1 ; END m1
LAYER v1 TYPE CUT ; END v1
LAYER m2 TYPE ROUTING ; WIDTH 0.1 ; END m2
LAYER v2 TYPE CUT ; END v2
LAYER m3 TYPE ROUTING ; WIDTH 0.1 ; END m3
LAYER OVL TYPE OVERLAP ; END OVL
VIA V12 DEFAULT
LAYER m1 ; RECT -0.05 -0.05 0.05 0.05 ;
LAYER v1 ; RECT -0.025 -0.025 0.025 0.025 ;
LAYER m2 ; RECT -0.05 -0.05 0.05 0.05 ;
END V12
VIA V23 DEFAULT
LAYER m2 ; RECT -0.05 -0.05 0.05 0.05 ;
LAYER v2 ; RECT -0.025 -0.025 0.025 0.025 ;
LAYER m3 ; RECT -0.05 -0.05 0.05 0.05 ;
END V23
VIA BAD
LAYER m1 ; RECT -0.05 -0.05 0.05 0.05 ;
END BAD
VIA LONG
LAYER m1 ; RECT -0.02 -0.01 0.04 0.03 ;
LAYER v1 ; RECT -0.01 -0.01 0.01 0.01 ;
LAYER m2 ; RECT -0.01 -0.02 0.03 0.04 ;
END LONG
NONDEFAULTRULE wide LAYER m1 WIDTH 0.2 ; END m1 END wide
MACRO BUF
SIZE 1 BY 2 ;
PIN A DIRECTION INPUT ; PORT LAYER m1 ; RECT 0.1 0.2 0.3 0.4 ; END END A
PIN Y DIRECTION OUTPUT ; PORT LAYER m1 ; RECT 0.7 1.5 0.9 1.7 ; END END Y
END BUF
END LIBRARY
";

/// The same layers in units of 1/2000 micron, and what a technology usually has besides.
const FINE: &str = "VERSION 5.8 ;
BUSBITCHARS \"[]\" ;
DIVIDERCHAR \"/\" ;
UNITS DATABASE MICRONS 2000 ; END UNITS
MANUFACTURINGGRID 0.005 ;
PROPERTYDEFINITIONS LAYER LEF58_TYPE STRING ; END PROPERTYDEFINITIONS
LAYER m1 TYPE ROUTING ; DIRECTION HORIZONTAL ; PITCH 0.2 ; WIDTH 0.1 ; SPACING 0.1 ; PROPERTY LEF58_TYPE \"TYPE X ;\" ; END m1
LAYER v1 TYPE CUT ; END v1
LAYER m2 TYPE ROUTING ; WIDTH 0.1 ; END m2
LAYER v2 TYPE CUT ; END v2
LAYER m3 TYPE ROUTING ; WIDTH 0.1 ; END m3
VIARULE G12 GENERATE LAYER m1 ; ENCLOSURE 0.025 0.025 ; LAYER m2 ; ENCLOSURE 0.025 0.025 ; LAYER v1 ; RECT -0.025 -0.025 0.025 0.025 ; SPACING 0.1 BY 0.1 ; END G12
END LIBRARY
";

/// Which technology a row has.
#[derive(Clone, Copy, Debug)]
pub enum Process {
    Plain,
    Fine,
    /// Without units.
    Empty,
}

impl Process {
    /// The technology of that word.
    pub fn named(word: &str) -> Process {
        match word {
            "plain" => Process::Plain,
            "fine" => Process::Fine,
            _ => Process::Empty,
        }
    }

    /// Its LEF file.
    fn text(self) -> &'static str {
        match self {
            Process::Plain => PLAIN,
            Process::Fine => FINE,
            Process::Empty => "END LIBRARY\n",
        }
    }
}

/// What linking comes to.
#[derive(Drop)]
pub enum Outcome {
    Layout(Layout),
    Fault(Fault),
}

impl Outcome {
    /// What linking answered.
    fn of(answer: Result<Layout, Fault>) -> Outcome {
        match answer {
            Ok(layout) => Outcome::Layout(layout),
            Err(fault) => Outcome::Fault(fault),
        }
    }
}

/// The greatest text.
const MOST: usize = 1 << 20;

/// Lets a value go.
pub fn discard<T: Drop>(value: T) {
    drop(value);
}

/// A technology.
fn technology(alloc: Global, process: Process) -> anyhow::Result<Tech> {
    let text = process.text();
    if text.len() > MOST {
        bail!("the technology is too long");
    }
    let mut reader = TechReader::new(alloc);
    let read = reader.file(text.as_bytes());
    let tech = reader.finish();
    if read.is_err() {
        discard(tech);
        bail!("the technology is refused");
    }
    Ok(tech)
}

/// The technology of two LEF files.
pub fn technology_of(alloc: Global, first: &str, second: &str) -> anyhow::Result<Tech> {
    if first.len() > MOST || second.len() > MOST {
        bail!("the technology is too long");
    }
    let mut reader = TechReader::new(alloc);
    let read = match reader.file(first.as_bytes()) {
        Ok(()) => reader.file(second.as_bytes()),
        Err(fault) => Err(fault),
    };
    let tech = reader.finish();
    if read.is_err() {
        discard(tech);
        bail!("the technology is refused");
    }
    Ok(tech)
}

/// A text of many lines from one line, where `^` stands for a line's end.
fn lines(alloc: Global, row: &str) -> Result<Vec<u8>, NoMemory> {
    let mut text = Vec::from_slice(alloc, row.as_bytes())?;
    for byte in text.iter_mut() {
        if *byte == b'^' {
            *byte = b'\n';
        }
    }
    Ok(text)
}

/// A design.
pub fn design(alloc: Global, row: &str) -> anyhow::Result<RawDesign>
    ensures { IfOk result IsRawDesign }
{
    let text = lines(alloc, row)?;
    if text.len() > MOST {
        bail!("the design is too long");
    }
    match rc_def::read(alloc, &text) {
        Ok(design) => Ok(design),
        Err(_) => bail!("the design is refused"),
    }
}

/// What a design links to over a technology.
pub fn link_over(alloc: Global, tech: Tech, text: &str) -> anyhow::Result<Outcome> {
    match design(alloc, text) {
        Ok(design) => Ok(Outcome::of(link(alloc, tech, design))),
        Err(error) => {
            discard(tech);
            Err(error)
        }
    }
}

/// What a technology, by its word, and a design link to.
pub fn link_text(alloc: Global, word: &str, text: &str) -> anyhow::Result<Outcome> {
    link_over(alloc, technology(alloc, Process::named(word))?, text)
}
