//! Paths as text.

use rc_fixed::Text;
use rc_geom::Orient;
use rc_wire::{RawPath, Step, Taper};
use std::fmt::Write;

/// A name as text.
pub fn text_of(name: &Text) -> &str {
    match std::str::from_utf8(name.bytes()) {
        Ok(text) => text,
        Err(_) => "?",
    }
}

/// The word of an orientation.
pub fn word_of(orient: Orient) -> &'static str {
    match orient {
        Orient::N => "N",
        Orient::S => "S",
        Orient::W => "W",
        Orient::E => "E",
        Orient::FN => "FN",
        Orient::FS => "FS",
        Orient::FW => "FW",
        Orient::FE => "FE",
    }
}

/// Writes a step: `x,y` or `x,y+e` for a point, `v/N` for a via, `[a,b,c,d]` for a patch.
fn step(line: &mut String, step: &Step) -> anyhow::Result<()> {
    match step {
        Step::Point { at, ext: None } => write!(line, " {},{}", at.x, at.y)?,
        Step::Point { at, ext: Some(e) } => write!(line, " {},{}+{e}", at.x, at.y)?,
        Step::Via { name, orient } => write!(line, " {}/{}", text_of(name), word_of(*orient))?,
        Step::Patch { x0, y0, x1, y1 } => write!(line, " [{x0},{y0},{x1},{y1}]")?,
    }
    Ok(())
}

/// Writes a path: its layer, `w` and its width, `T` or `T=r` for a nondefault rule, its steps and its line.
fn path(line: &mut String, path: &RawPath) -> anyhow::Result<()> {
    write!(line, " <{}", text_of(&path.layer))?;
    if let Some(width) = path.width {
        write!(line, " w{width}")?;
    }
    match &path.taper {
        Taper::Net => {}
        Taper::Layer => write!(line, " T")?,
        Taper::Rule(rule) => write!(line, " T={}", text_of(rule))?,
    }
    for item in path.steps.items() {
        step(line, item)?;
    }
    Ok(write!(line, " @{}>", path.line)?)
}

/// Writes paths.
pub fn paths(line: &mut String, list: &[RawPath]) -> anyhow::Result<()> {
    for item in list {
        path(line, item)?;
    }
    Ok(())
}
