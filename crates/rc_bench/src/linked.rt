//! Layers that stand over a linked layout: each reads the LEF files and the DEF file first, and links them.

ghost use Rattle.std.specs.Prelude.{◌≤◌, ◌^◌, All, IfSome, IsTrue, length};
ghost use Rattle.rc_def.specs.Forms.{IsRawDesign};
ghost use Rattle.rc_layout.specs.Nets.{IsWellFormed};
ghost use Rattle.rc_rules.specs.RuleFile.{HasRules};

use crate::input::{Input, Kind};
use rc_def::RawDesign;
use rc_keys::Fault;
use rc_layout::{Item, Layout, Net, link};
use rc_lef::{Tech, TechReader};
use rc_nodes::{nodes, resistors, tiles};
use rc_rules::Rules;
use rc_shorts::first_short;
use std::alloc::Global;

/// Lets a value go.
pub fn discard<T: Drop>(value: T) {
    drop(value);
}

/// The greatest number of bytes that are read.
const MOST_BYTES: usize = 1 << 30;

/// Reads the LEF files, one after the other, and tells whether all of them are read.
fn read_lefs(reader: &mut TechReader, inputs: &[Input]) -> bool
    requires { reader.old.bytes ≤ 0 }
{
    let mut room = MOST_BYTES;
    for input in inputs {
        if input.kind == Kind::Lef {
            let text = input.text.items();
            if text.len() > room || reader.file(text).is_err() {
                return false;
            }
            room -= text.len();
        }
    }
    true
}

/// The technology of the LEF files.
pub fn technology(alloc: Global, inputs: &[Input]) -> Option<Tech> {
    let mut reader = TechReader::new(alloc);
    let read = read_lefs(&mut reader, inputs);
    let tech = reader.finish();
    if read {
        return Some(tech);
    }
    discard(tech);
    None
}

/// The text of the first file of a kind.
fn text_of(inputs: &[Input], kind: Kind) -> Option<&[u8]> {
    for input in inputs {
        if input.kind == kind {
            return Some(input.text.items());
        }
    }
    None
}

/// The design of the DEF file.
fn design(alloc: Global, inputs: &[Input]) -> Option<RawDesign>
    ensures { IfSome result IsRawDesign }
{
    let Some(text) = text_of(inputs, Kind::Def) else {
        return None;
    };
    if text.len() > MOST_BYTES {
        return None;
    }
    match rc_def::read(alloc, text) {
        Ok(design) => Some(design),
        Err(_) => None,
    }
}

/// The layout of a design.
pub fn layout_over(alloc: Global, tech: Tech, inputs: &[Input]) -> Option<Layout> {
    match design(alloc, inputs) {
        Some(design) => link(alloc, tech, design).ok(),
        None => {
            discard(tech);
            None
        }
    }
}

/// The layout of the files.
fn layout(alloc: Global, inputs: &[Input]) -> Option<Layout> {
    match technology(alloc, inputs) {
        Some(tech) => layout_over(alloc, tech, inputs),
        None => None,
    }
}

/// How many items the layout of the files has; 0 where a file is refused.
pub fn shapes(alloc: Global, inputs: &[Input]) -> u64 {
    match layout(alloc, inputs) {
        Some(layout) => {
            let count = layout.shapes();
            discard(layout);
            count
        }
        None => 0,
    }
}

/// How many items the layout of the files has where it has no short; else 0.
pub fn shapes_apart(alloc: Global, inputs: &[Input]) -> u64 {
    match layout(alloc, inputs) {
        Some(layout) => {
            let count = match first_short(alloc, &layout) {
                Ok(None) => layout.shapes(),
                _ => 0,
            };
            discard(layout);
            count
        }
        None => 0,
    }
}

/// The rules of the rule file.
pub fn rules(alloc: Global, tech: &Tech, inputs: &[Input]) -> Option<Rules> {
    let Some(text) = text_of(inputs, Kind::Rules) else {
        return None;
    };
    if text.len() > MOST_BYTES || tech.units().is_none() {
        return None;
    }
    rc_rules::read(alloc, text, tech).ok()
}

/// Whether the layer of each item has rules.
fn are_ruled(rules: &Rules, items: &[Item]) -> bool
    ensures { IsTrue result → All (λ item. HasRules rules.now item.layer) items.now }
{
    match items {
        [] => true,
        [first, others @ ..] => rules.has(first.layer) && are_ruled(rules, others),
    }
}

/// The greatest number of nodes of a net.
const MOST_NODES: u32 = 1 << 22;

/// How many tiles and resistors a net has.
fn parts_of(
    alloc: Global,
    layout: &Layout,
    rules: &Rules,
    number: u32,
    net: &Net,
) -> Result<u64, Fault>
    requires { IsWellFormed net.now }
{
    let nodes = nodes(alloc, net, MOST_NODES)?;
    let tiles = tiles(alloc, number, net, nodes.items())?;
    if !are_ruled(rules, net.items.items()) {
        return Ok(0);
    }
    let resistors = resistors(alloc, layout, net, nodes.items(), rules)?;
    Ok((tiles.len() as u64).saturating_add(resistors.len() as u64))
}

/// How many tiles and resistors the nets of a layout have.
fn parts_over(alloc: Global, layout: &Layout, rules: &Rules) -> u64 {
    layout.facts();
    let mut count: u64 = 0;
    for number in 0..layout.nets().len() {
        match parts_of(alloc, layout, rules, number as u32, &layout.nets()[number]) {
            Ok(more) => count = count.saturating_add(more),
            Err(_) => return 0,
        }
    }
    count
}

/// How many tiles and resistors the nets of a design have.
fn parts_linked(alloc: Global, tech: Tech, rules: &Rules, inputs: &[Input]) -> u64 {
    match layout_over(alloc, tech, inputs) {
        Some(layout) => {
            let count = parts_over(alloc, &layout, rules);
            discard(layout);
            count
        }
        None => 0,
    }
}

/// How many tiles and resistors the nets of the files have; 0 where a file is refused.
pub fn parts(alloc: Global, inputs: &[Input]) -> u64 {
    let Some(tech) = technology(alloc, inputs) else {
        return 0;
    };
    match rules(alloc, &tech, inputs) {
        Some(rules) => {
            let count = parts_linked(alloc, tech, &rules, inputs);
            discard(rules);
            count
        }
        None => {
            discard(tech);
            0
        }
    }
}
