//! A technology as one line.

use rc_fixed::Text;
use rc_geom::Rect;
use rc_lef::{Dir, Layer, LayerKind, Macro, MacroPin, Ndr, Tech, Via};
use std::fmt::Write;

/// A name as text.
fn text_of(name: &Text) -> &str {
    match std::str::from_utf8(name.bytes()) {
        Ok(text) => text,
        Err(_) => "?",
    }
}

/// Writes where a thing stands.
fn place(line: &mut String, word: &str, place: Option<u32>) -> anyhow::Result<()> {
    match place {
        Some(place) => Ok(write!(line, "{word}{place} ")?),
        None => Ok(write!(line, "{word}- ")?),
    }
}

/// Writes where the layer, the via, the cell and the rule of a name stand.
pub fn places(line: &mut String, tech: &Tech, name: &[u8]) -> anyhow::Result<()> {
    place(line, "l", tech.layer(name))?;
    place(line, "v", tech.via(name))?;
    place(line, "c", tech.cell(name))?;
    place(line, "r", tech.rule(name))
}

/// Writes rectangles, each with the number of its layer.
fn rects(line: &mut String, rects: &[(u8, Rect)]) -> anyhow::Result<()> {
    for (layer, rect) in rects {
        write!(
            line,
            " {layer}:{},{},{},{}",
            rect.x0, rect.y0, rect.x1, rect.y1
        )?;
    }
    Ok(())
}

/// Writes a layer: its kind and number, and its width.
fn layer(line: &mut String, layer: &Layer) -> anyhow::Result<()> {
    write!(line, "; layer {}", text_of(&layer.name))?;
    match layer.kind {
        LayerKind::Routing(number) => write!(line, " routing {number}")?,
        LayerKind::Cut(number) => write!(line, " cut {number}")?,
        LayerKind::Other => write!(line, " O")?,
    }
    Ok(write!(line, " {}", layer.width)?)
}

/// Writes a via: its two layers, its cut layer between them, how many cuts it has, and its pads.
fn via(line: &mut String, via: &Via) -> anyhow::Result<()> {
    write!(line, "; via {}", text_of(&via.name))?;
    if via.usable {
        write!(
            line,
            " {} {} {} x{}",
            via.lower, via.cut, via.upper, via.cuts
        )?;
    } else {
        write!(line, " unusable")?;
    }
    rects(line, via.pads.items())
}

/// Writes a pin: its direction and its rectangles.
fn pin(line: &mut String, pin: &MacroPin) -> anyhow::Result<()> {
    let dir = match pin.dir {
        Dir::I => 'I',
        Dir::O => 'O',
        Dir::B => 'B',
    };
    write!(line, ", {} {dir}", text_of(&pin.name))?;
    rects(line, pin.rects.items())
}

/// Writes a cell: its origin, its size and its pins.
fn cell(line: &mut String, cell: &Macro) -> anyhow::Result<()> {
    let name = text_of(&cell.name);
    write!(
        line,
        "; cell {name} {},{} {}x{}",
        cell.origin.x, cell.origin.y, cell.w, cell.h
    )?;
    for item in cell.pins.items() {
        pin(line, item)?;
    }
    Ok(())
}

/// Writes a nondefault rule: the widths on its layers.
fn rule(line: &mut String, rule: &Ndr) -> anyhow::Result<()> {
    write!(line, "; rule {}", text_of(&rule.name))?;
    for (layer, width) in rule.widths.items() {
        write!(line, " {layer}={width}")?;
    }
    Ok(())
}

/// Writes a technology: the units of a micron, and each thing of its lists.
pub fn technology(line: &mut String, tech: &Tech) -> anyhow::Result<()> {
    match tech.m() {
        Some(units) => write!(line, "M {units}")?,
        None => write!(line, "M -")?,
    }
    for item in tech.layers() {
        layer(line, item)?;
    }
    for item in tech.vias() {
        via(line, item)?;
    }
    for item in tech.macros() {
        cell(line, item)?;
    }
    for item in tech.rules() {
        rule(line, item)?;
    }
    Ok(())
}
