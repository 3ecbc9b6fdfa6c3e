//! The generated design: its texts are made, read and linked.

ghost use Rattle.std.specs.Prelude.{◌≡◌, ◌<◌, ◌≤◌, ◌^◌, IfOk};
ghost use Rattle.rc_lef.specs.Technology.{no_technology};
ghost use Rattle.rc_lef.specs.Rows.{lef_outcome};
ghost use Rattle.rc_def.specs.File.{def_outcome};
ghost use Rattle.rc_def.specs.Forms.{IsRawDesign};
ghost use Rattle.rc_layout.specs.Refusals.{Links};
ghost use Rattle.rc_gen.specs.Texts.{tech_text as tech_text_of, design_text as design_text_of};
ghost use Rattle.rc_gen.specs.Generated.{generated, placed, rules_over};

use crate::design::design_text;
use crate::process::{rules_text, tech_text};
use rc_def::RawDesign;
use rc_keys::{Code, Fault, Refusal};
use rc_layout::{Layout, link};
use rc_lef::{Tech, TechReader};
use rc_rules::Rules;
use std::alloc::Global;

/// Lets a value go.
fn discard<T: Drop>(_value: T) {}

/// Reads the technology.
fn read_technology(alloc: Global) -> Result<Tech, Fault>
    ensures { Links result (lef_outcome no_technology tech_text_of) }
{
    let mut reader = TechReader::new(alloc);
    match reader.file(tech_text()) {
        Ok(()) => Ok(reader.finish()),
        Err(fault) => {
            discard(reader);
            Err(fault)
        }
    }
}

/// Makes the design, and reads it.
fn read_design(alloc: Global, seed: u32, rows: u32) -> Result<RawDesign, Fault>
    requires seed { seed < 2 ^ 31 }
    requires rows { rows ≤ 65536 }
    ensures links { Links result (def_outcome (design_text_of seed rows)) }
    ensures form { IfOk result (λ design. IsRawDesign design) }
{
    let Ok(text) = design_text(alloc, seed, rows) else {
        return Err(Fault::NoMemory);
    };
    rc_def::read(alloc, &text)
}

/// Reads the rules over the technology. One without the units of a micron is refused at the UNITS line of the design.
fn read_rules(alloc: Global, tech: &Tech, design: &RawDesign) -> Result<Rules, Fault>
    ensures { Links result (rules_over tech.now design.now) }
{
    match tech.units() {
        Some(_) => rc_rules::read(alloc, rules_text(), tech),
        None => Err(Fault::Refused(Refusal::At {
            code: Code::E08,
            line: design.units_line,
        })),
    }
}

/// Reads the rules, and links the design.
fn place(alloc: Global, tech: Tech, design: RawDesign) -> Result<(Layout, Rules), Fault>
    requires { IsRawDesign design }
    ensures { Links result (placed tech design) }
{
    let rules = match read_rules(alloc, &tech, &design) {
        Ok(rules) => rules,
        Err(fault) => {
            discard(tech);
            discard(design);
            return Err(fault);
        }
    };
    match link(alloc, tech, design) {
        Ok(layout) => Ok((layout, rules)),
        Err(fault) => {
            discard(rules);
            Err(fault)
        }
    }
}

/// Makes a design of two nets a row by draws from a seed, with its technology and its rules, reads all three and links them.
/// It takes time and memory in proportion to the rows.
///
/// # Errors
///
/// What the readers and the linker refuse, or `NoMemory` for want of memory.
pub fn generate(alloc: Global, seed: u32, rows: u32) -> Result<(Layout, Rules), Fault>
    requires seed { seed < 2 ^ 31 }
    requires some { 1 ≤ rows }
    requires rows { rows ≤ 65536 }
    ensures { Links result (generated seed rows) }
{
    let tech = match read_technology(alloc) {
        Ok(tech) => tech,
        Err(fault) => return Err(fault),
    };
    match read_design(alloc, seed, rows) {
        Ok(design) => place(alloc, tech, design),
        Err(fault) => {
            discard(tech);
            Err(fault)
        }
    }
}
