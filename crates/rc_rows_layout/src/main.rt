//! Reads rows from the standard input, and prints the layout that each links to, or what it is refused as. In the texts of a row `^`
//! stands for a line's end. A row is one of three:
//!
//! - the word of a technology and a DEF text, that is linked;
//! - `short`, two LEF texts and a DEF text, with `~` between them, of which the first short alone is printed;
//! - `edit`, the number of a net, the word of a technology, a DEF text, `~` and a second DEF text, the paths of whose first net that
//!   net is given.
#![tactic(auto)]

mod edit;
mod given;
mod short;
mod shown;

use edit::edited;
use given::link_text;
use short::tell_short;
use shown::tell;
use std::io::{BufRead, BufReader};

/// Reads a row and prints what it comes to.
fn answer<R: Print + AllocGlobal>(rt: &R, row: &str) -> anyhow::Result<()> {
    match row.split_once(' ') {
        Some(("edit", edit)) => edited(rt, edit),
        Some(("short", texts)) => tell_short(rt, texts),
        Some((word, text)) => tell(rt, link_text(rt.alloc(), word, text)?),
        None => Ok(println!(rt; "no row")?),
    }
}

fn main(rt: HostRuntime) -> anyhow::Result<()> {
    for line in BufReader::new(rt.alloc(), rt.reader())?.lines(rt.alloc()) {
        answer(&rt, line?.as_str())?;
    }
    Ok(())
}
