//! Reads rows from the standard input, and prints the nodes, the tiles and the resistors of the nets of each design, and the tiles
//! of its grounded nets. A row is how many nodes a net may have, and a DEF text, in which `^` stands for a line's end; or, before the
//! DEF text, a LEF and a rule text of the row's own, each with `~` behind it.
#![tactic(auto)]

mod given;
mod shown;

use given::{Files, Outcome, design, discard, link_all, rules, technology};
use rc_lef::Tech;
use rc_rules::Rules;
use shown::show;
use std::io::{BufRead, BufReader};

/// Prints what the nets of a layout have.
fn with_layout<R: Print + AllocGlobal>(
    rt: &R,
    room: u32,
    rules: &Rules,
    linked: Outcome,
) -> anyhow::Result<()> {
    match linked {
        Outcome::Layout(layout) => {
            let told = show(rt, &layout, rules, room);
            discard(layout);
            told
        }
        Outcome::Fault => Ok(println!(rt; "refused")?),
    }
}

/// Links a design, and prints what its nets have.
fn with_rules<R: Print + AllocGlobal>(
    rt: &R,
    room: u32,
    tech: Tech,
    rules: &Rules,
    text: &str,
) -> anyhow::Result<()> {
    match design(rt.alloc(), text) {
        Ok(design) => with_layout(rt, room, rules, link_all(rt.alloc(), tech, design)),
        Err(error) => {
            discard(tech);
            Err(error)
        }
    }
}

/// Reads the rules, links a design, and prints what its nets have.
fn with_technology<R: Print + AllocGlobal>(
    rt: &R,
    room: u32,
    tech: Tech,
    files: Files,
) -> anyhow::Result<()> {
    match rules(rt.alloc(), files.rules, &tech) {
        Ok(rules) => {
            let told = with_rules(rt, room, tech, &rules, files.design);
            discard(rules);
            told
        }
        Err(error) => {
            discard(tech);
            Err(error)
        }
    }
}

/// Reads a row and prints what its nets have.
fn answer<R: Print + AllocGlobal>(rt: &R, row: &str) -> anyhow::Result<()> {
    let Some((room, texts)) = row.split_once(' ') else {
        return Ok(println!(rt; "no row")?);
    };
    let room: u32 = room.parse()?;
    let files = Files::of(texts);
    with_technology(rt, room, technology(rt.alloc(), files.tech)?, files)
}

fn main(rt: HostRuntime) -> anyhow::Result<()> {
    for line in BufReader::new(rt.alloc(), rt.reader())?.lines(rt.alloc()) {
        answer(&rt, line?.as_str())?;
    }
    Ok(())
}
