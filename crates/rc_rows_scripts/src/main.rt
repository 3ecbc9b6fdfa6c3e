//! Reads rows from the standard input, and prints what each comes to. A row is an edit script, in which `^` stands for a line's
//! end and `~` for a quoted token of 4,097 bytes.
//!
//! The answer is the script's commands as `shown` writes them, with ` | ` between two and `none` where there is none, or the code
//! and the line of the first refused place.
#![tactic(auto)]

mod paths;
mod row;
mod shown;

use std::io::{BufRead, BufReader};

fn main(rt: HostRuntime) -> anyhow::Result<()> {
    for line in BufReader::new(rt.alloc(), rt.reader())?.lines(rt.alloc()) {
        let answer = row::answer(rt.alloc(), line?.as_str())?;
        println!(rt; "{answer}")?;
    }
    Ok(())
}
