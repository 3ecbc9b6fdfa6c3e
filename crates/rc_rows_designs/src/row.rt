//! What a row comes to.

ghost use Rattle.std.specs.Prelude.{◌≤◌, ◌^◌, true, IsTrue, length, All};
ghost use Rattle.rc_keys.specs.Slices.{LiesIn};

use crate::many::{Change, each};
use crate::paths::paths;
use crate::shown::design;
use anyhow::bail;
use rc_fixed::{List, NoMemory};
use rc_keys::{Fault, Lexer, Mode, Refusal, Token};
use rc_wire::{RawPath, read_regular, read_special};
use std::alloc::Global;
use std::fmt::Write;

/// The greatest text.
const MOST: usize = 1 << 20;

/// A text of many lines from one line.
pub fn lines(alloc: Global, row: &str) -> Result<Vec<u8>, NoMemory> {
    let mut text = Vec::new(alloc);
    for byte in row.bytes() {
        match byte {
            b'^' => text.push(b'\n')?,
            b'~' => long_token(&mut text)?,
            _ => text.push(byte)?,
        }
    }
    Ok(text)
}

/// Appends a quoted token of 4,097 bytes.
fn long_token(text: &mut Vec<u8>) -> Result<(), NoMemory> {
    text.push(b'"')?;
    for _byte in 0..4097 {
        text.push(b'x')?;
    }
    Ok(text.push(b'"')?)
}

/// Writes what is refused of a text.
fn refused(answer: &mut String, fault: Fault) -> anyhow::Result<()> {
    match fault {
        Fault::Refused(Refusal::At { code, line }) => Ok(write!(answer, "{code:?} {line}")?),
        Fault::Refused(_) => bail!("another refusal"),
        Fault::NoMemory => bail!("no memory"),
    }
}

/// Whether the tokens lie in a text.
fn lie_in(text: &[u8], tokens: &[Token]) -> bool
    ensures { IsTrue result → All (LiesIn text.now) tokens.now }
{
    for token in tokens {
        if token.start > token.end || token.end as usize > text.len() {
            return false;
        }
    }
    true
}

/// The tokens of a text.
fn tokens_of(alloc: Global, text: &[u8]) -> Result<List<Token>, Fault>
    requires { length text.now ≤ 2 ^ 20 }
{
    let mut tokens = List::new(alloc);
    let mut lexer = Lexer::new(alloc, Mode::Lef);
    lexer.feed(text, &mut tokens)?;
    lexer.finish(&mut tokens)?;
    Ok(tokens)
}

/// Writes paths, and how many tokens stand before the one that ends them.
fn list(answer: &mut String, read: Result<(List<RawPath>, usize), Fault>) -> anyhow::Result<()> {
    match read {
        Ok((list, count)) => {
            write!(answer, "#{count}")?;
            paths(answer, list.items())
        }
        Err(fault) => refused(answer, fault),
    }
}

/// Writes what a text of paths comes to, in a statement of line 7.
fn paths_of(alloc: Global, answer: &mut String, text: &[u8], is_wide: bool) -> anyhow::Result<()>
    requires { length text.now ≤ 2 ^ 20 }
{
    let tokens = match tokens_of(alloc, text) {
        Ok(tokens) => tokens,
        Err(fault) => return refused(answer, fault),
    };
    let tokens = tokens.items();
    if !lie_in(text, tokens) {
        bail!("a token outside the text");
    }
    if is_wide {
        return list(answer, read_special(alloc, text, tokens, 0, 7));
    }
    list(answer, read_regular(alloc, text, tokens, 0, 7))
}

/// Writes what a text of one of the three words comes to.
fn of_text(alloc: Global, answer: &mut String, word: &str, text: &str) -> anyhow::Result<()> {
    let text = lines(alloc, text)?;
    if text.len() > MOST {
        bail!("a text is too long");
    }
    match word {
        "regular" => paths_of(alloc, answer, &text, false),
        "special" => paths_of(alloc, answer, &text, true),
        _ => match rc_def::read(alloc, &text) {
            Ok(read) => design(answer, &read),
            Err(fault) => refused(answer, fault),
        },
    }
}

/// What a row comes to.
pub fn answer(alloc: Global, row: &str) -> anyhow::Result<String> {
    let mut answer = String::new(alloc);
    let Some((word, text)) = row.split_once(' ') else {
        bail!("no row");
    };
    match word {
        "cut" => each(alloc, &mut answer, Change::Cut, text)?,
        "swap" => match text.split_once(' ') {
            Some((other, text)) => each(alloc, &mut answer, Change::Swap(other), text)?,
            None => bail!("no word"),
        },
        _ => of_text(alloc, &mut answer, word, text)?,
    }
    Ok(answer)
}
