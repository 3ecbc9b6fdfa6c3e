//! Reads rows from the standard input, and prints what each comes to: a row is a format and a text, in which `^` stands for a
//! line's end. The answer is `ok`, or the code and the line of the first refused place.
#![tactic(auto)]

mod format;

use format::Format;
use rc_lef::Tech;
use std::io::{BufRead, BufReader};

/// Reads a row and prints what it comes to.
fn answer<R: Print + AllocGlobal>(rt: &R, tech: &Tech, row: &str) -> anyhow::Result<()> {
    match row.split_once(' ') {
        Some((word, text)) => {
            let comes = Format::named(word).comes_to(rt.alloc(), tech, text)?;
            Ok(println!(rt; "{comes}")?)
        }
        None => Ok(println!(rt; "no row")?),
    }
}

fn main(rt: HostRuntime) -> anyhow::Result<()> {
    let tech = format::technology(rt.alloc())?;
    for line in BufReader::new(rt.alloc(), rt.reader())?.lines(rt.alloc()) {
        answer(&rt, &tech, line?.as_str())?;
    }
    Ok(())
}
