//! The rows of UNITS and LAYER.

ghost use Rattle.std.specs.Prelude.{◌≡◌, ◌+◌, ◌≤◌, length, count_by, IfOk, OnOk, []};
ghost use Rattle.rc_keys.specs.Course.{Turned};
ghost use Rattle.rc_lef.specs.Technology.{is_routing, is_cut};
ghost use Rattle.rc_lef.specs.Layers as layers;

use crate::key::Key;
use crate::length::read_positive;
use crate::rows::Given;
use crate::state::{Block, LayerDraft, Row, State};
use crate::tech::{Layer, LayerKind, Tech};
use crate::units::Units;
use rc_fixed::{NoMemory, Text};
use rc_keys::{Code, Lexeme, Quantity, Refusal, Turn};
use std::alloc::Global;
use std::mem;

/// How many of the layers are routing layers.
fn routing_count(layers: &[Layer]) -> usize
    ensures count { result ≡ count_by (λ layer. is_routing layer.kind) layers.now }
    ensures small { result ≤ length layers.now }
{
    let mut count = 0;
    for layer in layers {
        count += usize::from(matches!(layer.kind, LayerKind::Routing(_)));
    }
    count
}

/// How many of the layers are cut layers.
fn cut_count(layers: &[Layer]) -> usize
    ensures count { result ≡ count_by (λ layer. is_cut layer.kind) layers.now }
    ensures small { result ≤ length layers.now }
{
    let mut count = 0;
    for layer in layers {
        count += usize::from(matches!(layer.kind, LayerKind::Cut(_)));
    }
    count
}

impl State {
    /// The word after END in UNITS.
    #[tactic(auto, unfolding(crate::specs::Layers::end_of_units))]
    pub fn end_of_units(&mut self, key: Key, word: &Lexeme<'_>) -> Turn
        ensures { Turned result self.new (layers.end_of_units self.old key word.now) }
    {
        match key {
            Key::Units => {
                self.block = Block::Top;
                self.ends()
            }
            _ => word.refuse(Code::E03),
        }
    }

    /// MICRONS is due.
    #[tactic(auto, unfolding(crate::specs::Layers::database_row))]
    pub fn database_row(&mut self, key: Key, word: &Lexeme<'_>) -> Turn
        ensures { Turned result self.new (layers.database_row self.old key word.now) }
    {
        match key {
            Key::Microns => self.goes(Row::Microns),
            _ => word.refuse(Code::E03),
        }
    }

    /// A word in UNITS.
    #[tactic(auto, unfolding(crate::specs::Layers::units_row))]
    pub fn units_row(&mut self, key: Key, word: &Lexeme<'_>) -> Turn
        ensures { Turned result self.new (layers.units_row self.old key word.now) }
    {
        match key {
            Key::Database => self.goes(Row::Database),
            Key::End => self.goes(Row::End),
            _ => self.other_statement(key, word),
        }
    }

    /// The units of a micron are due.
    #[tactic(auto, unfolding(crate::specs::Layers::microns_row))]
    pub fn microns_row(&mut self, key: Key, word: &Lexeme<'_>) -> Turn
        ensures { Turned result self.new (layers.microns_row self.old key word.now) }
    {
        if matches!(key, Key::Quoted) {
            return word.refuse(Code::E08);
        }
        let Some(named) = Units::named(word.bytes()) else {
            return word.refuse(Code::E08);
        };
        if self.units.is_none() {
            self.units = Some(named);
        }
        self.goes(Row::Due)
    }

    /// The name of a layer's block is due.
    #[tactic(auto, unfolding(crate::specs::Layers::layer_name_row))]
    pub fn layer_name_row(
        &mut self,
        alloc: Global,
        key: Key,
        word: &Lexeme<'_>,
    ) -> Result<Turn, NoMemory>
        ensures { IfOk result (λ turn. Turned turn self.new (layers.layer_name_row self.old key word.now)) }
    {
        if !key.is_name() {
            return Ok(word.refuse(Code::E03));
        }
        self.name = Text::from(alloc, word.bytes())?;
        self.line = word.line();
        self.layer = LayerDraft::NEW;
        self.block = Block::Layer;
        Ok(self.ends())
    }

    /// A word in LAYER.
    #[tactic(auto, unfolding(crate::specs::Layers::layer_row))]
    pub fn layer_row(&mut self, key: Key, word: &Lexeme<'_>) -> Turn
        ensures { Turned result self.new (layers.layer_row self.old key word.now) }
    {
        match key {
            Key::Type => self.goes(Row::Type),
            Key::Width => self.goes(Row::Width),
            Key::End => self.goes(Row::End),
            _ => self.other_statement(key, word),
        }
    }

    /// Whether a layer of the block's name is there.
    #[tactic(auto, unfolding(crate::specs::Layers::is_known))]
    fn is_known(&self, tech: &Tech) -> bool
        ensures { result ≡ layers.is_known tech.now self.now }
    {
        tech.has_layer(self.name.bytes()) || self.layers.has(self.name.bytes())
    }

    /// The layer's kind, where it is the first.
    fn takes_kind(&mut self, kind: LayerKind) -> Turn
        ensures { Turned result self.new (layers.takes_kind self.old kind) }
    {
        if self.layer.kind.is_none() {
            self.layer.kind = Some(kind);
        }
        self.goes(Row::Due)
    }

    /// The first token of WIDTH.
    #[tactic(auto, unfolding(crate::specs::Layers::width_row))]
    pub fn width_row(&mut self, key: Key, word: &Lexeme<'_>) -> Turn
        ensures { Turned result self.new (layers.width_row self.old key word.now) }
    {
        match key {
            Key::Semicolon => self.ends(),
            Key::Quoted => self.goes(Row::Over),
            _ => {
                self.layer.pending = read_positive(self.units, word.bytes());
                self.goes(Row::WidthEnd)
            }
        }
    }

    /// The token after a word of WIDTH.
    #[tactic(auto, unfolding(crate::specs::Layers::width_end_row))]
    pub fn width_end_row(&mut self, key: Key, word: &Lexeme<'_>) -> Turn
        ensures { Turned result self.new (layers.width_end_row self.old key word.now) }
    {
        match key {
            Key::Semicolon => match self.layer.pending {
                Ok(width) => {
                    if self.layer.width.is_none() {
                        self.layer.width = Some(width);
                    }
                    self.ends()
                }
                Err(code) => word.refuse(code),
            },
            _ => self.goes(Row::Over),
        }
    }

    /// The kind of a layer is due.
    #[tactic(auto, unfolding(crate::specs::Layers::type_row))]
    pub fn type_row(&mut self, tech: &Tech, key: Key, word: &Lexeme<'_>) -> Turn
        ensures { Turned result self.new (layers.type_row tech.now self.old key word.now) }
    {
        match key {
            Key::Routing => {
                if self.layer.kind.is_some() || self.is_known(tech) {
                    return self.takes_kind(LayerKind::Routing(0));
                }
                let count = routing_count(tech.layers()) + routing_count(self.layers.items());
                if count >= 32 {
                    return Turn::Refuse(Refusal::Limit {
                        what: Quantity::Layers,
                    });
                }
                self.takes_kind(LayerKind::Routing(count as u8))
            }
            Key::Cut => {
                if self.layer.kind.is_some() || self.is_known(tech) {
                    return self.takes_kind(LayerKind::Cut(0));
                }
                let count = cut_count(tech.layers()) + cut_count(self.layers.items());
                if count >= 32 {
                    return Turn::Refuse(Refusal::Limit {
                        what: Quantity::Cuts,
                    });
                }
                self.takes_kind(LayerKind::Cut(count as u8))
            }
            _ => {
                if key.is_name() {
                    self.takes_kind(LayerKind::Other)
                } else {
                    word.refuse(Code::E03)
                }
            }
        }
    }

    /// The layer that is made of the block's statements. It takes the block's name.
    fn made_layer(&mut self, alloc: Global) -> Layer
        ensures layer { result ≡ layers.made_layer self.old }
        ensures state { self.new ≡ record self.old { name = [] } }
    {
        Layer {
            name: mem::replace(&mut self.name, Text::new(alloc)),
            kind: self.layer.kind.unwrap_or(LayerKind::Other),
            width: self.layer.counted_width(),
        }
    }

    /// The layer joins the others, where its name isn't there.
    #[tactic(auto, unfolding(crate::specs::Layers::is_known))]
    fn with_layer(&mut self, given: &Given<'_>) -> Result<(), NoMemory>
        ensures { OnOk result (self.new ≡ layers.with_layer given.now.tech.now self.old) }
    {
        let known = self.is_known(given.tech);
        let layer = self.made_layer(given.alloc);
        self.block = Block::Top;
        if !known {
            self.layers.put(layer)?;
        }
        Ok(())
    }

    /// The word after END in LAYER.
    #[tactic(auto, unfolding(crate::specs::Layers::end_of_layer))]
    pub fn end_of_layer(
        &mut self,
        given: &Given<'_>,
        key: Key,
        word: &Lexeme<'_>,
    ) -> Result<Turn, NoMemory>
        ensures { IfOk result (λ turn. Turned turn self.new (layers.end_of_layer given.now.tech.now self.old key word.now)) }
    {
        if !(key.is_name() && word.bytes() == self.name.bytes()) {
            return Ok(word.refuse(Code::E03));
        }
        if self.layer.routes() && self.layer.width.is_none() {
            return Ok(Turn::Refuse(Refusal::At {
                code: Code::E16,
                line: self.line,
            }));
        }
        self.with_layer(given)?;
        Ok(self.ends())
    }
}
