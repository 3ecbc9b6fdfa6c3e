//! Reads rows from the standard input, and prints what each comes to. In the texts of a row `^` stands for a line's end, `$` for a
//! byte that no word may hold, and `~` between two texts. A row is one of two:
//!
//! - `tech NAME TEXTS`: LEF texts, which a reader reads one after the other. The answer has what is refused of each text, where
//!   the things of that name stand, and the technology that was read.
//! - `rates LEF~RULES~QUESTIONS`: what the rules say, question by question.
#![tactic(auto)]

mod rates;
mod row;
mod shown;

use std::io::{BufRead, BufReader};

fn main(rt: HostRuntime) -> anyhow::Result<()> {
    for line in BufReader::new(rt.alloc(), rt.reader())?.lines(rt.alloc()) {
        let answer = row::answer(rt.alloc(), line?.as_str())?;
        println!(rt; "{answer}")?;
    }
    Ok(())
}
