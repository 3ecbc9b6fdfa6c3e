//! A design as one line.

use crate::paths::{paths, text_of, word_of};
use rc_def::{RawComp, RawDesign, RawNet, RawPin, RawPort, RawRule, RawVia};
use rc_fixed::Text;
use rc_geom::{Orient, Pt, Rect};
use std::fmt::Write;

/// Writes rectangles, each behind its layer.
fn rects(line: &mut String, rects: &[(Text, Rect)]) -> anyhow::Result<()> {
    for (layer, rect) in rects {
        let layer = text_of(layer);
        write!(
            line,
            " {layer}:{},{},{},{}",
            rect.x0, rect.y0, rect.x1, rect.y1
        )?;
    }
    Ok(())
}

/// Writes where something is placed, or `-`.
fn placed(line: &mut String, at: Option<(Pt, Orient)>) -> anyhow::Result<()> {
    match at {
        Some((at, orient)) => Ok(write!(line, " {},{} {}", at.x, at.y, word_of(orient))?),
        None => Ok(write!(line, " -")?),
    }
}

/// Writes a via: whether it isn't plain, its rectangles, its layers, and the numbers of a generated one.
fn via(line: &mut String, via: &RawVia) -> anyhow::Result<()> {
    write!(line, "; via {}@{}", text_of(&via.name), via.line)?;
    if !via.plain {
        write!(line, " unusual")?;
    }
    rects(line, via.rects.items())?;
    for layer in via.layers.items() {
        write!(line, " /{}", text_of(layer))?;
    }
    if let Some(made) = via.made {
        write!(line, " made")?;
        for number in made.iter() {
            write!(line, " {number}")?;
        }
    }
    Ok(())
}

/// Writes a nondefault rule: its widths.
fn rule(line: &mut String, rule: &RawRule) -> anyhow::Result<()> {
    write!(line, "; rule {}@{}", text_of(&rule.name), rule.line)?;
    for (layer, width) in rule.widths.items() {
        write!(line, " {}={width}", text_of(layer))?;
    }
    Ok(())
}

/// Writes a component: its cell, and where it is placed.
fn comp(line: &mut String, comp: &RawComp) -> anyhow::Result<()> {
    write!(
        line,
        "; comp {}@{} {}",
        text_of(&comp.name),
        comp.line,
        text_of(&comp.cell)
    )?;
    placed(line, comp.at)
}

/// Writes a port: its rectangles, and where it is placed.
fn port(line: &mut String, port: &RawPort) -> anyhow::Result<()> {
    write!(line, " {{")?;
    rects(line, port.rects.items())?;
    placed(line, port.at)?;
    Ok(write!(line, " }}")?)
}

/// Writes a die pin: its direction and its ports.
fn pin(line: &mut String, pin: &RawPin) -> anyhow::Result<()> {
    let dir = char::from(pin.dir);
    write!(line, "; pin {}@{} {dir}", text_of(&pin.name), pin.line)?;
    for item in pin.ports.items() {
        port(line, item)?;
    }
    Ok(())
}

/// Writes what stands in a net: whether it is a supply, its rule, connections, paths, rectangles and vias.
fn net(line: &mut String, net: &RawNet) -> anyhow::Result<()> {
    write!(line, " {}@{}", text_of(&net.name), net.line)?;
    if net.power {
        write!(line, " power")?;
    }
    if let Some(rule) = &net.rule {
        write!(line, " rule {}", text_of(rule))?;
    }
    for (comp, pin) in net.conns.items() {
        write!(line, " ({} {})", text_of(comp), text_of(pin))?;
    }
    paths(line, net.paths.items())?;
    rects(line, net.rects.items())?;
    for (name, orient, at) in net.vias.items() {
        write!(
            line,
            " {}/{} {},{}",
            text_of(name),
            word_of(*orient),
            at.x,
            at.y
        )?;
    }
    Ok(())
}

/// Writes nets behind a word.
fn nets(line: &mut String, word: &str, list: &[RawNet]) -> anyhow::Result<()> {
    for item in list {
        write!(line, "; {word}")?;
        net(line, item)?;
    }
    Ok(())
}

/// Writes the entries before the nets.
fn entries(line: &mut String, design: &RawDesign) -> anyhow::Result<()> {
    for item in design.vias.items() {
        via(line, item)?;
    }
    for item in design.rules.items() {
        rule(line, item)?;
    }
    for item in design.comps.items() {
        comp(line, item)?;
    }
    for item in design.pins.items() {
        pin(line, item)?;
    }
    Ok(())
}

/// Writes a design: its name, the divider, what a bit's number stands in, the units of a micron with their line, and its
/// entries.
pub fn design(line: &mut String, design: &RawDesign) -> anyhow::Result<()> {
    let divider = char::from(design.divider);
    let left = char::from(design.bus_left);
    let right = char::from(design.bus_right);
    let name = text_of(&design.design);
    write!(
        line,
        "{name} {divider} {left}{right} {}@{}",
        design.units, design.units_line
    )?;
    entries(line, design)?;
    nets(line, "special", design.specials.items())?;
    nets(line, "net", design.nets.items())
}
