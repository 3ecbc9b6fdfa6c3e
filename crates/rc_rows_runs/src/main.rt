//! Reads a script from the standard input, and prints how each of its runs ends. A line of the script is
//!
//! * `file NAME`: a file begins, in place of what has that name; `|TEXT` is a line of it, and `:TEXT` its end where no line feed is
//! * `byte N`: the file goes on with a byte that no line of a script can have
//! * `remove NAME`: the file goes
//! * `workers N ..`: the next run is made with each of these numbers in place of the word `W`
//! * `reads N`, `writes N`: in the next run a read gives, or a write takes, at most so many bytes
//! * `failing files N`, `failing out N`, `failing err N`: in the next run this call, from 1, fails
//! * `passes told`: the passes that the next run draws are told
//! * `fronts NAME WORD ..`: the program runs over each front of a file, from the whole down to nothing, which is left
//! * `calls KIND N WORD ..`: the program runs N times, each time with another call on the files, on `out` or on `err` failing
//! * `run WORD ..`: the program runs over these words and the files, where `''` is an empty word
//!
//! and any other line is a remark. Of a run are printed its words, its status, each line on `out` behind
//! `|` and each line on `err` behind `!`; a last line without line feed stands behind `:`. Where a run is made with several numbers
//! of workers it is told once, and again for each number with which it ends otherwise. Of fronts the lengths
//! are told from which on downwards a run ends with another status.
#![tactic(auto)]

mod ending;
mod files;
mod script;
mod settings;

use script::Script;
use std::io::{BufRead, BufReader};

fn main(rt: HostRuntime) -> anyhow::Result<()> {
    let mut script = Script::new(rt.alloc());
    for line in BufReader::new(rt.alloc(), rt.reader())?.lines(rt.alloc()) {
        script.obey(&rt, line?.as_str())?;
    }
    Ok(())
}
