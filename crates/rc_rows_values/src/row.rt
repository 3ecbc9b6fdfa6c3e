//! What a row comes to.

ghost use Rattle.std.specs.Prelude.{◌≤◌, ◌+◌, ◌^◌};

use crate::rates::ask_all;
use crate::shown::{places, technology};
use anyhow::bail;
use rc_fixed::NoMemory;
use rc_keys::{Fault, Refusal};
use rc_lef::{Tech, TechReader};
use std::alloc::Global;
use std::fmt::Write;

/// The greatest text.
const MOST: usize = 1 << 20;

/// A text of many lines from one line.
fn lines(alloc: Global, row: &str) -> Result<Vec<u8>, NoMemory> {
    let mut text = Vec::from_slice(alloc, row.as_bytes())?;
    for byte in text.iter_mut() {
        if *byte == b'^' {
            *byte = b'\n';
        } else if *byte == b'$' {
            *byte = 200;
        }
    }
    Ok(text)
}

/// Writes what is refused of a text.
fn refused(answer: &mut String, fault: Fault) -> anyhow::Result<()> {
    match fault {
        Fault::Refused(Refusal::At { code, line }) => write!(answer, "{code:?} {line}; ")?,
        Fault::Refused(Refusal::Limit { what }) => write!(answer, "E14 {}; ", what.name())?,
        Fault::Refused(_) => bail!("another refusal"),
        Fault::NoMemory => bail!("no memory"),
    }
    Ok(())
}

/// Reads a text, and writes what is refused of it.
fn read(reader: &mut TechReader, answer: &mut String, text: &[u8]) -> anyhow::Result<()>
    requires { reader.old.bytes + 2 ^ 20 ≤ 2 ^ 30 }
    ensures { reader.new.bytes ≤ reader.old.bytes + 2 ^ 20 }
{
    if text.len() > MOST {
        bail!("a text is too long");
    }
    match reader.file(text) {
        Ok(()) => Ok(()),
        Err(fault) => refused(answer, fault),
    }
}

/// Reads a text, where there is one more.
fn read_next(
    alloc: Global,
    reader: &mut TechReader,
    answer: &mut String,
    text: Option<&str>,
) -> anyhow::Result<()>
    requires { reader.old.bytes + 2 ^ 20 ≤ 2 ^ 30 }
    ensures { reader.new.bytes ≤ reader.old.bytes + 2 ^ 20 }
{
    match text {
        Some(text) => read(reader, answer, &lines(alloc, text)?),
        None => Ok(()),
    }
}

/// Reads up to four texts one after the other, and writes what is refused of each.
fn read_all(
    alloc: Global,
    reader: &mut TechReader,
    answer: &mut String,
    texts: &str,
) -> anyhow::Result<()>
    requires { reader.old.bytes ≤ 0 }
{
    let mut parts = texts.split('~');
    read_next(alloc, reader, answer, parts.next())?;
    read_next(alloc, reader, answer, parts.next())?;
    read_next(alloc, reader, answer, parts.next())?;
    read_next(alloc, reader, answer, parts.next())?;
    match parts.next() {
        Some(_) => bail!("more than four texts"),
        None => Ok(()),
    }
}

/// Lets a value go.
fn discard<T: Drop>(value: T) {
    drop(value);
}

/// Writes where the things of a name stand, and the technology.
fn tell(answer: &mut String, tech: &Tech, name: &str) -> anyhow::Result<()> {
    places(answer, tech, name.as_bytes())?;
    technology(answer, tech)
}

/// The technology of LEF texts, what is refused of each, and where the things of a name stand.
fn technology_of(
    alloc: Global,
    answer: &mut String,
    name: &str,
    texts: &str,
) -> anyhow::Result<()> {
    let mut reader = TechReader::new(alloc);
    let read = read_all(alloc, &mut reader, answer, texts);
    let tech = reader.finish();
    let told = match read {
        Ok(()) => tell(answer, &tech, name),
        Err(error) => Err(error),
    };
    discard(tech);
    told
}

/// What rules say over a technology, question by question.
fn rates_over(
    alloc: Global,
    answer: &mut String,
    tech: &Tech,
    rules: &str,
    questions: &str,
) -> anyhow::Result<()> {
    if tech.units().is_none() {
        bail!("no units");
    }
    let text = lines(alloc, rules)?;
    if text.len() > MOST {
        bail!("a text is too long");
    }
    match rc_rules::read(alloc, &text, tech) {
        Ok(rules) => {
            let told = ask_all(alloc, answer, &rules, questions);
            discard(rules);
            told
        }
        Err(fault) => refused(answer, fault),
    }
}

/// What rules say over the technology of a LEF text.
fn rates_of(
    alloc: Global,
    answer: &mut String,
    lef: &str,
    rules: &str,
    questions: &str,
) -> anyhow::Result<()> {
    let text = lines(alloc, lef)?;
    let mut reader = TechReader::new(alloc);
    let read = read(&mut reader, answer, &text);
    let tech = reader.finish();
    let told = match read {
        Ok(()) => rates_over(alloc, answer, &tech, rules, questions),
        Err(error) => Err(error),
    };
    discard(tech);
    told
}

/// What a row comes to.
pub fn answer(alloc: Global, row: &str) -> anyhow::Result<String> {
    let mut answer = String::new(alloc);
    let Some((word, rest)) = row.split_once(' ') else {
        bail!("no row");
    };
    match word {
        "tech" => {
            let Some((name, texts)) = rest.split_once(' ') else {
                bail!("no name");
            };
            technology_of(alloc, &mut answer, name, texts)?;
        }
        _ => {
            let Some((lef, others)) = rest.split_once('~') else {
                bail!("no rules");
            };
            let Some((rules, questions)) = others.split_once('~') else {
                bail!("no questions");
            };
            rates_of(alloc, &mut answer, lef, rules, questions)?;
        }
    }
    Ok(answer)
}
