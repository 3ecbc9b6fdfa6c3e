//! The technology, the rules and the designs of rows.

ghost use Rattle.std.specs.Prelude.{IfOk};
ghost use Rattle.rc_def.specs.Forms.{IsRawDesign};

use anyhow::bail;
use rc_def::RawDesign;
use rc_fixed::NoMemory;
use rc_layout::{Layout, link};
use rc_lef::{Tech, TechReader};
use rc_rules::Rules;
use std::alloc::Global;

/// Three routing layers, 100 wide, the cut layers between them, a via between neighbours, one with four cuts, a nondefault rule, and
/// a cell.
const TECHNOLOGY: &str = "UNITS DATABASE MICRONS 1000 ; END UNITS
LAYER m1 TYPE ROUTING ; WIDTH 0.1 ; END m1
LAYER v1 TYPE CUT ; END v1
LAYER m2 TYPE ROUTING ; WIDTH 0.1 ; END m2
LAYER v2 TYPE CUT ; END v2
LAYER m3 TYPE ROUTING ; WIDTH 0.1 ; END m3
VIA V12 DEFAULT
LAYER m1 ; RECT -0.05 -0.05 0.05 0.05 ;
LAYER v1 ; RECT -0.025 -0.025 0.025 0.025 ;
LAYER m2 ; RECT -0.05 -0.05 0.05 0.05 ;
END V12
VIA V23 DEFAULT
LAYER m2 ; RECT -0.05 -0.05 0.05 0.05 ;
LAYER v2 ; RECT -0.025 -0.025 0.025 0.025 ;
LAYER m3 ; RECT -0.05 -0.05 0.05 0.05 ;
END V23
VIA THREE
LAYER m1 ; RECT -0.1 -0.05 0.1 0.05 ;
LAYER v1 ; RECT -0.09 -0.01 -0.07 0.01 ; RECT -0.01 -0.01 0.01 0.01 ; RECT 0.07 -0.01 0.09 0.01 ;
LAYER m2 ; RECT -0.1 -0.05 0.1 0.05 ;
END THREE
NONDEFAULTRULE wide LAYER m1 WIDTH 0.2 ; END m1 END wide
MACRO BUF
SIZE 1 BY 2 ;
PIN A DIRECTION INPUT ; PORT LAYER m1 ; RECT 0.1 0.2 0.3 0.4 ; END END A
PIN Y DIRECTION OUTPUT ; PORT LAYER m1 ; RECT 0.7 1.5 0.9 1.7 ; END END Y
END BUF
END LIBRARY
";

/// Resistances of the layers, of a cut and of a contact.
const RULES: &str = "RCXRULES 1 ;
LAYER m1 ; WIDTHS 0.1 0.2 ; DISTS 0.1 0.3 ; RES 2 1 ;
TABLE UNDER NONE OVER NONE ;
ROW 0.1 0.2 0.15 0.1 0.3 ;
ROW 0.2 0.3 0.25 0.2 0.4 ;
END LAYER ;
LAYER m2 ; WIDTHS 0.1 0.2 ; DISTS 0.1 0.3 ; RES 1 0.5 ;
TABLE UNDER NONE OVER NONE ;
ROW 0.1 0.2 0.15 0.1 0.3 ;
ROW 0.2 0.3 0.25 0.2 0.4 ;
END LAYER ;
LAYER m3 ; WIDTHS 0.1 0.2 ; DISTS 0.1 0.3 ; RES 2 1 ;
TABLE UNDER NONE OVER NONE ;
ROW 0.1 0.2 0.15 0.1 0.3 ;
ROW 0.2 0.3 0.25 0.2 0.4 ;
END LAYER ;
VIA v1 10 ;
VIA v2 10 ;
CONTACT 5 ;
END RULES ;
";

/// The greatest text.
const MOST: usize = 1 << 20;

/// The three files of a row.
#[derive(Clone, Copy, Debug)]
pub struct Files<'a> {
    pub tech: &'a str,
    pub rules: &'a str,
    pub design: &'a str,
}

impl<'a> Files<'a> {
    /// The files in a row's texts: all three, or a design for the technology and the rules of most rows.
    pub fn of(texts: &'a str) -> Files<'a> {
        match texts.split_once('~') {
            Some((tech, others)) => Files::with_tech(tech, others),
            None => Files {
                tech: TECHNOLOGY,
                rules: RULES,
                design: texts,
            },
        }
    }

    /// The same, where the row has a technology of its own.
    fn with_tech(tech: &'a str, others: &'a str) -> Files<'a> {
        match others.split_once('~') {
            Some((rules, design)) => Files {
                tech,
                rules,
                design,
            },
            None => Files {
                tech,
                rules: RULES,
                design: others,
            },
        }
    }
}

/// Lets a value go.
pub fn discard<T: Drop>(value: T) {
    drop(value);
}

/// The technology of a LEF file.
pub fn technology(alloc: Global, text: &str) -> anyhow::Result<Tech> {
    if text.len() > MOST {
        bail!("the technology is too long");
    }
    let mut reader = TechReader::new(alloc);
    let read = reader.file(text.as_bytes());
    let tech = reader.finish();
    if read.is_err() {
        discard(tech);
        bail!("the technology is refused");
    }
    Ok(tech)
}

/// The rules of a file.
pub fn rules(alloc: Global, text: &str, tech: &Tech) -> anyhow::Result<Rules> {
    if text.len() > MOST {
        bail!("the rules are too long");
    }
    if tech.m().is_none() {
        bail!("the technology has no units");
    }
    match rc_rules::read(alloc, text.as_bytes(), tech) {
        Ok(rules) => Ok(rules),
        Err(_) => bail!("the rules are refused"),
    }
}

/// A text of many lines from one line, where `^` stands for a line's end.
fn lines(alloc: Global, row: &str) -> Result<Vec<u8>, NoMemory> {
    let mut text = Vec::from_slice(alloc, row.as_bytes())?;
    for byte in text.iter_mut() {
        if *byte == b'^' {
            *byte = b'\n';
        }
    }
    Ok(text)
}

/// A design.
pub fn design(alloc: Global, row: &str) -> anyhow::Result<RawDesign>
    ensures { IfOk result IsRawDesign }
{
    let text = lines(alloc, row)?;
    if text.len() > MOST {
        bail!("the design is too long");
    }
    match rc_def::read(alloc, &text) {
        Ok(design) => Ok(design),
        Err(_) => bail!("the design is refused"),
    }
}

/// What linking comes to.
#[derive(Drop)]
pub enum Outcome {
    Layout(Layout),
    Fault,
}

/// What a technology and a design link to.
pub fn link_all(alloc: Global, tech: Tech, design: RawDesign) -> Outcome
    requires { IsRawDesign design }
{
    match link(alloc, tech, design) {
        Ok(layout) => Outcome::Layout(layout),
        Err(_) => Outcome::Fault,
    }
}
