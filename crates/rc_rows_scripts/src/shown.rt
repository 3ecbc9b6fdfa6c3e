//! Commands as text.

use crate::paths::{paths, text_of};
use rc_script::Command;
use std::fmt::Write;

/// Writes a command: its word, the net, `@` and the line, and the paths of an edit.
fn command(answer: &mut String, command: &Command) -> anyhow::Result<()> {
    match command {
        Command::Replace {
            name,
            paths: list,
            line,
        } => {
            write!(answer, "replace {} @{line}", text_of(name))?;
            paths(answer, list.items())?;
        }
        Command::Spef => write!(answer, "spef")?,
        Command::Net { name, line } => write!(answer, "net {} @{line}", text_of(name))?,
        Command::Stat => write!(answer, "stat")?,
    }
    Ok(())
}

/// Writes commands.
pub fn commands(answer: &mut String, list: &[Command]) -> anyhow::Result<()> {
    if list.is_empty() {
        write!(answer, "none")?;
    }
    for (place, item) in list.iter().enumerate() {
        if place > 0 {
            write!(answer, " | ")?;
        }
        command(answer, item)?;
    }
    Ok(())
}
