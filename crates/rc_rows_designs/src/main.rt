//! Reads rows from the standard input, and prints what each comes to. A row is a word and a text, in which `^` stands for a line's
//! end and `~` for a quoted token of 4,097 bytes:
//!
//! - `def TEXT`: the design of a DEF file, as `shown` writes it.
//! - `regular TEXT` and `special TEXT`: behind `#` how many tokens stand before the one that ends the paths, and the paths, as
//!   `paths` writes them.
//!
//! A text that is refused comes to the code and the line of its first refused place. Two further words ask of many texts at once,
//! and each of them comes to `ok` or its code alone:
//!
//! - `swap WORD FRONT|TOKENS|BACK`: a DEF file with each of the tokens in turn replaced by that word.
//! - `cut FRONT|TOKENS|BACK`: a DEF file that ends behind each of the tokens.
#![tactic(auto)]

mod many;
mod paths;
mod row;
mod shown;

use std::io::{BufRead, BufReader};

fn main(rt: HostRuntime) -> anyhow::Result<()> {
    for line in BufReader::new(rt.alloc(), rt.reader())?.lines(rt.alloc()) {
        let answer = row::answer(rt.alloc(), line?.as_str())?;
        println!(rt; "{answer}")?;
    }
    Ok(())
}
