//! Many texts that differ in a token.

use crate::row::lines;
use anyhow::bail;
use rc_fixed::NoMemory;
use rc_keys::{Fault, Refusal};
use std::alloc::Global;
use std::fmt::Write;

/// The greatest text.
const MOST: usize = 1 << 20;

/// What is asked of each token.
#[derive(Clone, Copy, Debug)]
pub enum Change<'a> {
    /// That it is replaced by a word.
    Swap(&'a str),
    /// That the text ends behind it.
    Cut,
}

/// Appends a blank and a word.
fn append(text: &mut String, word: &str) -> Result<(), NoMemory> {
    text.push(' ')?;
    Ok(text.push_str(word)?)
}

/// The text in which the token of that number is changed.
fn changed(
    alloc: Global,
    change: Change<'_>,
    parts: (&str, &str, &str),
    number: usize,
) -> Result<String, NoMemory> {
    let (front, tokens, back) = parts;
    let mut text = String::from_str(alloc, front)?;
    for (place, token) in tokens.split(' ').enumerate() {
        match change {
            Change::Swap(word) if place == number => append(&mut text, word)?,
            Change::Cut if place > number => {}
            _ => append(&mut text, token)?,
        }
    }
    match change {
        Change::Swap(_) => append(&mut text, back)?,
        Change::Cut => {}
    }
    Ok(text)
}

/// Writes what a text comes to: `ok`, or its code.
fn told(alloc: Global, answer: &mut String, text: &str) -> anyhow::Result<()> {
    let text = lines(alloc, text)?;
    if text.len() > MOST {
        bail!("a text is too long");
    }
    match rc_def::read(alloc, &text) {
        Ok(_) => Ok(write!(answer, " ok")?),
        Err(Fault::Refused(Refusal::At { code, line: _ })) => Ok(write!(answer, " {code:?}")?),
        Err(_) => bail!("another answer"),
    }
}

/// Writes what each text comes to in which a token between two bars is changed.
pub fn each(
    alloc: Global,
    answer: &mut String,
    change: Change<'_>,
    row: &str,
) -> anyhow::Result<()> {
    let Some((front, rest)) = row.split_once('|') else {
        bail!("no bar");
    };
    let Some((tokens, back)) = rest.split_once('|') else {
        bail!("no second bar");
    };
    for (number, _token) in tokens.split(' ').enumerate() {
        let text = changed(alloc, change, (front, tokens, back), number)?;
        told(alloc, answer, text.as_str())?;
    }
    Ok(())
}
