//! Reads rows from the standard input, and prints what each comes to: a row is a question and a text of SPEF, in which `^` stands
//! for a line's end. `read` asks whether the text is read, `again` what it is when it is written, `balanced` whether its value is
//! balanced, `same` whether two texts, with `~` between them, hold the same nets, and `escape` how a name is escaped.
#![tactic(auto)]

mod question;

use question::answer;
use std::io::{BufRead, BufReader};

/// Answers a row.
fn row<R: Print + AllocGlobal>(rt: &R, row: &str) -> anyhow::Result<()> {
    match row.split_once(' ') {
        Some((word, text)) => {
            let told = answer(rt.alloc(), word, text)?;
            Ok(println!(rt; "{told}")?)
        }
        None => Ok(println!(rt; "no row")?),
    }
}

fn main(rt: HostRuntime) -> anyhow::Result<()> {
    for line in BufReader::new(rt.alloc(), rt.reader())?.lines(rt.alloc()) {
        row(&rt, line?.as_str())?;
    }
    Ok(())
}
