//! Reading a file, and what it is read as.

ghost use Rattle.std.specs.Prelude.{◌≡◌, ◌≤◌, ◌+◌, ◌^◌, IsTrue, IsSome, IfSome, IfOk, IfErr, All, Some, length};
ghost use Rattle.rc_lef.specs.Rows.{lef_outcome};
ghost use Rattle.rc_def.specs.File.{def_outcome};
ghost use Rattle.rc_def.specs.Forms.{IsRawDesign};
ghost use Rattle.rc_rules.specs.Rows.{rules_outcome};
ghost use Rattle.rc_script.specs.Forms.{IsCommand};
ghost use Rattle.rc_script.specs.Rows.{script_outcome};
ghost use Rattle.rc_spef.specs.Rows.{spef_outcome};
ghost use Rattle.rc_cli.specs.Outcome.{Done, read_file};
ghost use Rattle.rc_cli.specs.Answers.{shelf};
ghost use Rattle.rc_cli.specs.Work.{Keeps, IsUnread, IsTextless};

use crate::stop::{Stop, failed, refused};
use rc_def::RawDesign;
use rc_fixed::List;
use rc_io::{Files, ReadEnd, read_whole};
use rc_keys::{Fault, Quantity, Refusal};
use rc_lef::{Tech, TechReader};
use rc_rules::Rules;
use rc_script::{Command, read_script};
use rc_spef::Spef;
use std::alloc::Global;

/// Reads a file whole, at most `room` bytes.
fn read_text<F: Files>(
    alloc: Global,
    files: &mut F,
    name: &str,
    room: u64,
) -> Result<List<u8>, Stop>
    requires { room ≤ 2 ^ 30 }
    ensures keeps { Keeps (shelf (F.tells files.old) (F.text files.old) (F.faults files.old)) (shelf (F.tells files.new) (F.text files.new) (F.faults files.new)) }
    ensures short { IfOk result (λ bytes. length bytes ≤ room) }
    ensures whole { IfOk result (λ bytes. IsTrue (F.tells files.old) → F.text files.old name.now ≡ Some bytes) }
    ensures textless { IfErr result (IsTextless (shelf (F.tells files.old) (F.text files.old) (F.faults files.old)) (shelf (F.tells files.new) (F.text files.new) (F.faults files.new)) name.now room) }
{
    match read_whole(alloc, files, name, room) {
        Ok(bytes) => Ok(bytes),
        Err(ReadEnd::Fault) => Err(failed(alloc, name)),
        Err(ReadEnd::Long) => Err(refused(
            alloc,
            None,
            name,
            &Fault::Refused(Refusal::Limit {
                what: Quantity::Bytes,
            }),
        )),
        Err(ReadEnd::NoMemory) => Err(Stop::NoMemory),
    }
}

/// Reads a LEF file behind those that were read before it. The answer is how many bytes the files after it may have.
pub fn read_lef<F: Files>(
    alloc: Global,
    files: &mut F,
    name: &str,
    room: u64,
    reader: &mut TechReader,
) -> Result<u64, Stop>
    requires { reader.old.bytes + room ≤ 2 ^ 30 }
    ensures keeps { Keeps (shelf (F.tells files.old) (F.text files.old) (F.faults files.old)) (shelf (F.tells files.new) (F.text files.new) (F.faults files.new)) }
    ensures done { IfOk result (λ left. IsTrue (F.tells files.old) → read_file (F.text files.old) name.now room (lef_outcome reader.old.tech) ≡ Done (reader.new.tech, left)) }
    ensures left { IfOk result (λ left. reader.new.bytes + left ≤ 2 ^ 30) }
    ensures unread { IfErr result (IsUnread (shelf (F.tells files.old) (F.text files.old) (F.faults files.old)) (shelf (F.tells files.new) (F.text files.new) (F.faults files.new)) name.now (read_file (F.text files.old) name.now room (lef_outcome reader.old.tech))) }
{
    let text = match read_text(alloc, files, name, room) {
        Ok(text) => text,
        Err(why) => return Err(why),
    };
    match reader.file(text.items()) {
        Ok(()) => Ok(room - text.len() as u64),
        Err(fault) => Err(refused(alloc, None, name, &fault)),
    }
}

/// Reads a DEF file. The second value is how many bytes the files after it may have.
pub fn read_def<F: Files>(
    alloc: Global,
    files: &mut F,
    name: &str,
    room: u64,
) -> Result<(RawDesign, u64), Stop>
    requires { room ≤ 2 ^ 30 }
    ensures keeps { Keeps (shelf (F.tells files.old) (F.text files.old) (F.faults files.old)) (shelf (F.tells files.new) (F.text files.new) (F.faults files.new)) }
    ensures done { IfOk result (λ read. IsTrue (F.tells files.old) → read_file (F.text files.old) name.now room def_outcome ≡ Done read) }
    ensures form { IfOk result (λ read. IsRawDesign read.0) }
    ensures left { IfOk result (λ read. read.1 ≤ 2 ^ 30) }
    ensures unread { IfErr result (IsUnread (shelf (F.tells files.old) (F.text files.old) (F.faults files.old)) (shelf (F.tells files.new) (F.text files.new) (F.faults files.new)) name.now (read_file (F.text files.old) name.now room def_outcome)) }
{
    let text = match read_text(alloc, files, name, room) {
        Ok(text) => text,
        Err(why) => return Err(why),
    };
    match rc_def::read(alloc, text.items()) {
        Ok(design) => Ok((design, room - text.len() as u64)),
        Err(fault) => Err(refused(alloc, None, name, &fault)),
    }
}

/// Reads a rule file over a technology, which has units of a micron. The second value is how many bytes the files after it
/// may have.
pub fn read_rules<F: Files>(
    alloc: Global,
    files: &mut F,
    name: &str,
    room: u64,
    tech: &Tech,
) -> Result<(Rules, u64), Stop>
    requires room { room ≤ 2 ^ 30 }
    requires units { IsSome tech.now.units }
    ensures keeps { Keeps (shelf (F.tells files.old) (F.text files.old) (F.faults files.old)) (shelf (F.tells files.new) (F.text files.new) (F.faults files.new)) }
    ensures done { IfSome tech.now.units (λ units. IfOk result (λ read. IsTrue (F.tells files.old) → read_file (F.text files.old) name.now room (rules_outcome units tech.now) ≡ Done read)) }
    ensures left { IfOk result (λ read. read.1 ≤ 2 ^ 30) }
    ensures unread { IfSome tech.now.units (λ units. IfErr result (IsUnread (shelf (F.tells files.old) (F.text files.old) (F.faults files.old)) (shelf (F.tells files.new) (F.text files.new) (F.faults files.new)) name.now (read_file (F.text files.old) name.now room (rules_outcome units tech.now)))) }
{
    let text = match read_text(alloc, files, name, room) {
        Ok(text) => text,
        Err(why) => return Err(why),
    };
    match rc_rules::read(alloc, text.items(), tech) {
        Ok(rules) => Ok((rules, room - text.len() as u64)),
        Err(fault) => Err(refused(alloc, None, name, &fault)),
    }
}

/// Reads a SPEF file, behind which no other is read.
pub fn read_spef<F: Files>(
    alloc: Global,
    files: &mut F,
    name: &str,
    room: u64,
) -> Result<(Spef, u64), Stop>
    requires { room ≤ 2 ^ 30 }
    ensures keeps { Keeps (shelf (F.tells files.old) (F.text files.old) (F.faults files.old)) (shelf (F.tells files.new) (F.text files.new) (F.faults files.new)) }
    ensures done { IfOk result (λ read. IsTrue (F.tells files.old) → read_file (F.text files.old) name.now room spef_outcome ≡ Done read) }
    ensures unread { IfErr result (IsUnread (shelf (F.tells files.old) (F.text files.old) (F.faults files.old)) (shelf (F.tells files.new) (F.text files.new) (F.faults files.new)) name.now (read_file (F.text files.old) name.now room spef_outcome)) }
{
    let text = match read_text(alloc, files, name, room) {
        Ok(text) => text,
        Err(why) => return Err(why),
    };
    match rc_spef::read(alloc, text.items()) {
        Ok(spef) => Ok((spef, room - text.len() as u64)),
        Err(fault) => Err(refused(alloc, None, name, &fault)),
    }
}

/// Reads a script, behind which no other file is read.
pub fn read_commands<F: Files>(
    alloc: Global,
    files: &mut F,
    name: &str,
    room: u64,
) -> Result<(List<Command>, u64), Stop>
    requires { room ≤ 2 ^ 30 }
    ensures keeps { Keeps (shelf (F.tells files.old) (F.text files.old) (F.faults files.old)) (shelf (F.tells files.new) (F.text files.new) (F.faults files.new)) }
    ensures done { IfOk result (λ read. IsTrue (F.tells files.old) → read_file (F.text files.old) name.now room script_outcome ≡ Done read) }
    ensures commands { IfOk result (λ read. All IsCommand read.0) }
    ensures few { IfOk result (λ read. length read.0 ≤ 2 ^ 30) }
    ensures unread { IfErr result (IsUnread (shelf (F.tells files.old) (F.text files.old) (F.faults files.old)) (shelf (F.tells files.new) (F.text files.new) (F.faults files.new)) name.now (read_file (F.text files.old) name.now room script_outcome)) }
{
    let text = match read_text(alloc, files, name, room) {
        Ok(text) => text,
        Err(why) => return Err(why),
    };
    match read_script(alloc, text.items()) {
        Ok(commands) => Ok((commands, room - text.len() as u64)),
        Err(fault) => Err(refused(alloc, None, name, &fault)),
    }
}
