//! The layers that are timed. A further layer is a variant with its name, what it counts, and its turn.

use crate::input::Input;
use crate::{extracted, linked};
use rc_io::Gather;
use rc_keys::Words;
use rc_lef::{Tech, TechReader};
use std::alloc::Global;
use std::thread::Threads;

/// A layer of the program.
#[derive(Clone, Copy, Debug, PartialEq, Eq)]
pub enum Layer {
    /// Cutting the texts into tokens.
    Tokens,
    /// Reading the texts as DEF files.
    Def,
    /// Reading each of the texts as a LEF file.
    Lef,
    /// Reading the texts as SPEF files.
    Spef,
    /// Reading the texts as SPEF files, and writing what was read into memory.
    Rewrite,
    /// Reading the LEF files and the DEF file, and linking them.
    Link,
    /// That, and looking for the first short.
    Shorts,
    /// That of linking, the rule file, and the nodes, tiles and resistors of all nets.
    Nodes,
    /// That of linking, the rule file, and the start of an engine with one worker.
    Engine,
    /// The same with four workers.
    EngineOfFour,
    /// That with one worker, the SPEF value, and its text in memory.
    Text,
}

impl Layer {
    /// The layer of that name.
    pub fn named(name: &str) -> Option<Layer> {
        match name {
            "tokens" => Some(Layer::Tokens),
            "def" => Some(Layer::Def),
            "lef" => Some(Layer::Lef),
            "spef" => Some(Layer::Spef),
            "rewrite" => Some(Layer::Rewrite),
            "link" => Some(Layer::Link),
            "shorts" => Some(Layer::Shorts),
            "nodes" => Some(Layer::Nodes),
            "engine" => Some(Layer::Engine),
            "engine4" => Some(Layer::EngineOfFour),
            "text" => Some(Layer::Text),
            _ => None,
        }
    }

    /// What it counts.
    pub fn unit(self) -> &'static str {
        match self {
            Layer::Tokens => "tokens",
            Layer::Def => "nets",
            Layer::Lef => "definitions",
            Layer::Spef => "nets",
            Layer::Rewrite | Layer::Text => "bytes",
            Layer::Link | Layer::Shorts => "items",
            Layer::Nodes => "tiles and resistors",
            Layer::Engine | Layer::EngineOfFour => "passes",
        }
    }

    /// What it counts in one text.
    fn count(self, alloc: Global, input: &Input) -> u64 {
        match self {
            Layer::Tokens => tokens(input),
            Layer::Def => nets(alloc, input),
            Layer::Lef => defined(alloc, input),
            Layer::Spef => blocks(alloc, input),
            Layer::Rewrite => rewritten(alloc, input),
            Layer::Link
            | Layer::Shorts
            | Layer::Nodes
            | Layer::Engine
            | Layer::EngineOfFour
            | Layer::Text => 0,
        }
    }

    /// Does its work once over all inputs, and answers its count.
    pub fn turn<R: Threads + Sync>(self, rt: &R, alloc: Global, inputs: &[Input]) -> u64 {
        match self {
            Layer::Link => linked::shapes(alloc, inputs),
            Layer::Shorts => linked::shapes_apart(alloc, inputs),
            Layer::Nodes => linked::parts(alloc, inputs),
            Layer::Engine => extracted::passes(rt, alloc, inputs, 1),
            Layer::EngineOfFour => extracted::passes(rt, alloc, inputs, 4),
            Layer::Text => extracted::text_bytes(rt, alloc, inputs),
            _ => inputs.iter().fold(
                0,
                |count: u64, input| count.saturating_add(self.count(alloc, input)),
            ),
        }
    }
}

/// How many tokens a text has.
fn tokens(input: &Input) -> u64 {
    let text = input.text.items();
    if text.len() > 1 << 30 {
        return 0;
    }
    let mut words = Words::new(input.kind.mode(), text);
    for count in 0..text.len() {
        if words.next_word().is_none() {
            return count as u64;
        }
    }
    text.len() as u64
}

/// How many nets a DEF file has, special ones too. A text that is refused has none.
fn nets(alloc: Global, input: &Input) -> u64 {
    let text = input.text.items();
    if text.len() > 1 << 30 {
        return 0;
    }
    match rc_def::read(alloc, text) {
        Ok(design) => (design.nets.len() as u64).saturating_add(design.specials.len() as u64),
        Err(_) => 0,
    }
}

/// How many layers, vias, cells and nondefault rules a technology has.
fn definitions(tech: &Tech) -> u64 {
    let lists = [
        tech.layers().len(),
        tech.vias().len(),
        tech.macros().len(),
        tech.rules().len(),
    ];
    lists
        .iter()
        .fold(0, |count: u64, len| count.saturating_add(*len as u64))
}

/// How many things a text defines as a LEF file; 0 where it is none.
fn defined(alloc: Global, input: &Input) -> u64 {
    let text = input.text.items();
    if text.len() > 1 << 30 {
        return 0;
    }
    let mut reader = TechReader::new(alloc);
    match reader.file(text) {
        Ok(()) => definitions(&reader.finish()),
        Err(_) => 0,
    }
}

/// How many nets a SPEF file has. A text that is refused has none.
fn blocks(alloc: Global, input: &Input) -> u64 {
    let text = input.text.items();
    if text.len() > 1 << 30 {
        return 0;
    }
    match rc_spef::read(alloc, text) {
        Ok(spef) => spef.nets.len() as u64,
        Err(_) => 0,
    }
}

/// How many bytes what a SPEF file says has when it is written. A text that is refused has none.
fn rewritten(alloc: Global, input: &Input) -> u64 {
    let text = input.text.items();
    if text.len() > 1 << 30 {
        return 0;
    }
    let Ok(spef) = rc_spef::read(alloc, text) else {
        return 0;
    };
    let mut sink = Gather::new(alloc);
    match rc_spef::text(&spef, &mut sink) {
        Ok(()) => sink.bytes().len() as u64,
        Err(_) => 0,
    }
}
