//! The order of work: each LEF file, the DEF file, the rule file, and the layout that they link to.

ghost use Rattle.std.specs.Prelude.{◌≡◌, ◌≤◌, ◌^◌, IsTrue, IsSome, IsOk, IfOk, IfErr, map};
ghost use Rattle.std.specs.String.{string_bytes};
ghost use Rattle.rc_def.specs.Forms.{IsRawDesign};
ghost use Rattle.rc_layout.specs.Layouts.{linked};
ghost use Rattle.rc_cli.specs.Command.{file_words};
ghost use Rattle.rc_cli.specs.Lines.{no_names};
ghost use Rattle.rc_cli.specs.Outcome.{Done, settled, micron, technology as technology_of, design as design_of, ruled as ruled_of, layout as layout_of};
ghost use Rattle.rc_cli.specs.Answers.{shelf};
ghost use Rattle.rc_cli.specs.Work.{Keeps, HasStopped, IsRefusedBy};

use crate::command::Request;
use crate::reading::{read_def, read_lef, read_rules};
use crate::stop::{Stop, refused};
use rc_def::RawDesign;
use rc_io::Files;
use rc_keys::{Code, Fault, Refusal};
use rc_layout::{Layout, link};
use rc_lef::{Tech, TechReader};
use rc_rules::Rules;
use std::alloc::Global;

/// The most bytes that all files of a run may have.
const MOST_BYTES: u64 = 1 << 30;

/// A design over a technology, and how many bytes the files after it may have.
#[derive(Drop)]
pub struct Drawn {
    pub tech: Tech,
    pub design: RawDesign,
    pub room: u64,
}

/// The same with rules.
#[derive(Drop)]
pub struct Ruled {
    pub tech: Tech,
    pub design: RawDesign,
    pub rules: Rules,
    pub room: u64,
}

/// A linked design with its rules, and how many bytes the files after them may have.
#[derive(Drop)]
pub struct Placed {
    pub layout: Layout,
    pub rules: Rules,
    pub room: u64,
}

/// Lets a value go.
fn discard<T: Drop>(_value: T) {}

/// Reads the LEF files, one after another. The second value is how many bytes the files after them may have.
fn read_technology<F: Files>(
    alloc: Global,
    files: &mut F,
    lefs: &[String],
) -> Result<(Tech, u64), Stop>
    ensures keeps { Keeps (shelf (F.tells files.old) (F.text files.old) (F.faults files.old)) (shelf (F.tells files.new) (F.text files.new) (F.faults files.new)) }
    ensures done { IfOk result (λ read. IsTrue (F.tells files.old) → technology_of (F.text files.old) (map string_bytes lefs.now) ≡ Done read) }
    ensures left { IfOk result (λ read. read.1 ≤ 2 ^ 30) }
    ensures stopped { IfErr result (HasStopped (shelf (F.tells files.old) (F.text files.old) (F.faults files.old)) (shelf (F.tells files.new) (F.text files.new) (F.faults files.new))
        (map string_bytes lefs.now) (λ texts. technology_of texts (map string_bytes lefs.now))) }
{
    let mut reader = TechReader::new(alloc);
    let mut room = MOST_BYTES;
    for lef in lefs {
        match read_lef(alloc, files, lef.as_str(), room, &mut reader) {
            Ok(left) => room = left,
            Err(why) => {
                discard(reader);
                return Err(why);
            }
        }
    }
    Ok((reader.finish(), room))
}

/// Reads the LEF files, and the DEF file behind them.
fn read_design<F: Files>(alloc: Global, files: &mut F, asked: &Request<'_>) -> Result<Drawn, Stop>
    ensures keeps { Keeps (shelf (F.tells files.old) (F.text files.old) (F.faults files.old)) (shelf (F.tells files.new) (F.text files.new) (F.faults files.new)) }
    ensures done { IfOk result (λ drawn. IsTrue (F.tells files.old) → design_of (F.text files.old) asked.now.inputs ≡ Done drawn) }
    ensures form { IfOk result (λ drawn. IsRawDesign drawn.design) }
    ensures left { IfOk result (λ drawn. drawn.room ≤ 2 ^ 30) }
    ensures stopped { IfErr result (HasStopped (shelf (F.tells files.old) (F.text files.old) (F.faults files.old)) (shelf (F.tells files.new) (F.text files.new) (F.faults files.new))
        (file_words asked.now) (λ texts. design_of texts asked.now.inputs)) }
{
    let (tech, room) = match read_technology(alloc, files, asked.lefs()) {
        Ok(read) => read,
        Err(why) => return Err(why),
    };
    match read_def(alloc, files, asked.def(), room) {
        Ok((design, room)) => Ok(Drawn { tech, design, room }),
        Err(why) => {
            discard(tech);
            Err(why)
        }
    }
}

/// Refuses a technology without the units of a micron, at the UNITS line of the design.
fn require_units(alloc: Global, def: &str, drawn: &Drawn) -> Result<(), Stop>
    ensures some { IfOk result (λ _. IsSome drawn.now.tech.units) }
    ensures refused { IfErr result (IsRefusedBy (settled no_names def.now (micron drawn.now))) }
{
    match drawn.tech.units() {
        Some(_) => Ok(()),
        None => Err(refused(
            alloc,
            None,
            def,
            &Fault::Refused(Refusal::At {
                code: Code::E08,
                line: drawn.design.units_line,
            }),
        )),
    }
}

/// Reads the LEF files, the DEF file, and the rule file behind them.
fn read_with_rules<F: Files>(
    alloc: Global,
    files: &mut F,
    asked: &Request<'_>,
) -> Result<Ruled, Stop>
    ensures keeps { Keeps (shelf (F.tells files.old) (F.text files.old) (F.faults files.old)) (shelf (F.tells files.new) (F.text files.new) (F.faults files.new)) }
    ensures done { IfOk result (λ ruled. IsTrue (F.tells files.old) → ruled_of (F.text files.old) asked.now.inputs ≡ Done ruled) }
    ensures form { IfOk result (λ ruled. IsRawDesign ruled.design) }
    ensures left { IfOk result (λ ruled. ruled.room ≤ 2 ^ 30) }
    ensures stopped { IfErr result (HasStopped (shelf (F.tells files.old) (F.text files.old) (F.faults files.old)) (shelf (F.tells files.new) (F.text files.new) (F.faults files.new))
        (file_words asked.now) (λ texts. ruled_of texts asked.now.inputs)) }
{
    let drawn = match read_design(alloc, files, asked) {
        Ok(drawn) => drawn,
        Err(why) => return Err(why),
    };
    if let Err(why) = require_units(alloc, asked.def(), &drawn) {
        discard(drawn);
        return Err(why);
    }
    let Drawn { tech, design, room } = drawn;
    match read_rules(alloc, files, asked.rules(), room, &tech) {
        Ok((rules, room)) => Ok(Ruled {
            tech,
            design,
            rules,
            room,
        }),
        Err(why) => {
            discard(tech);
            discard(design);
            Err(why)
        }
    }
}

/// Reads the files of a design in the order of work, and links them.
///
/// # Errors
///
/// Why there is no layout: the first refusal, a file that failed, or want of memory.
pub fn place<F: Files>(alloc: Global, files: &mut F, asked: &Request<'_>) -> Result<Placed, Stop>
    ensures keeps { Keeps (shelf (F.tells files.old) (F.text files.old) (F.faults files.old)) (shelf (F.tells files.new) (F.text files.new) (F.faults files.new)) }
    ensures done { IfOk result (λ placed. IsTrue (F.tells files.old) → layout_of (F.text files.old) asked.now.inputs ≡ Done placed) }
    ensures left { IfOk result (λ placed. placed.room ≤ 2 ^ 30) }
    ensures stopped { IfErr result (HasStopped (shelf (F.tells files.old) (F.text files.old) (F.faults files.old)) (shelf (F.tells files.new) (F.text files.new) (F.faults files.new))
        (file_words asked.now) (λ texts. layout_of texts asked.now.inputs)) }
{
    let Ruled {
        tech,
        design,
        rules,
        room,
    } = match read_with_rules(alloc, files, asked) {
        Ok(ruled) => ruled,
        Err(why) => return Err(why),
    };
    match link(alloc, tech, design) {
        Ok(layout) => Ok(Placed {
            layout,
            rules,
            room,
        }),
        Err(fault) => {
            discard(rules);
            Err(refused(alloc, None, asked.def(), &fault))
        }
    }
}
