//! What a row comes to.

use crate::shown::commands;
use anyhow::bail;
use rc_fixed::NoMemory;
use rc_keys::{Fault, Refusal};
use rc_script::read_script;
use std::alloc::Global;
use std::fmt::Write;

/// The greatest text.
const MOST: usize = 1 << 20;

/// A text of many lines from one line.
fn lines(alloc: Global, row: &str) -> Result<Vec<u8>, NoMemory> {
    let mut text = Vec::new(alloc);
    for byte in row.bytes() {
        match byte {
            b'^' => text.push(b'\n')?,
            b'~' => long_token(&mut text)?,
            _ => text.push(byte)?,
        }
    }
    Ok(text)
}

/// Appends a quoted token of 4,097 bytes.
fn long_token(text: &mut Vec<u8>) -> Result<(), NoMemory> {
    text.push(b'"')?;
    for _byte in 0..4097 {
        text.push(b'x')?;
    }
    Ok(text.push(b'"')?)
}

/// Writes what is refused of a script.
fn refused(answer: &mut String, fault: Fault) -> anyhow::Result<()> {
    match fault {
        Fault::Refused(Refusal::At { code, line }) => Ok(write!(answer, "{code:?} {line}")?),
        Fault::Refused(_) => bail!("another refusal"),
        Fault::NoMemory => bail!("no memory"),
    }
}

/// What a row comes to.
pub fn answer(alloc: Global, row: &str) -> anyhow::Result<String> {
    let mut answer = String::new(alloc);
    let text = lines(alloc, row)?;
    if text.len() > MOST {
        bail!("a text is too long");
    }
    match read_script(alloc, &text) {
        Ok(list) => commands(&mut answer, list.items())?,
        Err(fault) => refused(&mut answer, fault)?,
    }
    Ok(answer)
}
