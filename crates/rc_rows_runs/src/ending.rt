//! How a run ends.

use rc_io::MemSink;
use std::str;

/// How a run ends: its status, the passes that it drew, and what `out` and `err` hold then.
#[derive(Drop)]
pub struct Ending {
    pub status: u8,
    pub passes: u64,
    pub out: MemSink,
    pub err: MemSink,
}

impl Ending {
    /// Whether another run ended in the same way.
    pub fn is_like(&self, other: &Ending) -> bool {
        self.status == other.status
            && self.passes == other.passes
            && self.out.bytes() == other.out.bytes()
            && self.err.bytes() == other.err.bytes()
    }

    /// Prints it, with the passes where they are to be told.
    pub fn print<R: Print + AllocGlobal>(&self, rt: &R, tells_passes: bool) -> anyhow::Result<()> {
        if tells_passes {
            println!(rt; "status {}, passes {}", self.status, self.passes)?;
        } else {
            println!(rt; "status {}", self.status)?;
        }
        print_lines(rt, "|", self.out.bytes())?;
        print_lines(rt, "!", self.err.bytes())
    }
}

impl Ending {
    /// Prints what `err` holds behind what stands in the line so far, and ends the line.
    pub fn print_line<R: Print + AllocGlobal>(&self, rt: &R) -> anyhow::Result<()> {
        match str::from_utf8(self.err.bytes()) {
            Ok(text) => println!(rt; ", err: {}", text.trim_end())?,
            Err(_) => println!(rt; ", no text")?,
        }
        Ok(())
    }
}

/// Prints each line of a text behind a mark, and what no line feed ends behind `:`.
fn print_lines<R: Print + AllocGlobal>(rt: &R, mark: &str, bytes: &[u8]) -> anyhow::Result<()> {
    let Ok(text) = str::from_utf8(bytes) else {
        return Ok(println!(rt; "no text")?);
    };
    for line in text.split_inclusive('\n') {
        match line.strip_suffix('\n') {
            Some(line) => println!(rt; "{mark}{line}")?,
            None => println!(rt; ":{line}")?,
        }
    }
    Ok(())
}
