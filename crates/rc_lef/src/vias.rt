//! The rows of VIA.

ghost use Rattle.std.specs.Prelude.{◌≡◌, ◌||◌, [], IfOk, OnOk};
ghost use Rattle.std.specs.List.{list_any};
ghost use Rattle.rc_keys.specs.Course.{Turned};
ghost use Rattle.rc_lef.specs.Operands.{count_at};
ghost use Rattle.rc_lef.specs.Usable.{IsModest};
ghost use Rattle.rc_lef.specs.Vias as vias;

use crate::key::Key;
use crate::length::read_count;
use crate::rows::Given;
use crate::state::{Block, Form, Home, Row, State, ViaDraft};
use crate::tech::{LayerKind, Tech};
use crate::usable::{Array, drawn_via, made_via, unusable};
use crate::via::Via;
use rc_fixed::{NoMemory, Text, parse_whole};
use rc_geom::Pt;
use rc_keys::{Code, Lexeme, Turn};
use std::alloc::Global;
use std::mem;

impl Home {
    /// The block around a via.
    fn block(self) -> Block
        ensures { result ≡ vias.block_of self }
    {
        match self {
            Home::Top => Block::Top,
            Home::Rule => Block::Rule,
        }
    }
}

/// How many rows or columns of cuts there are, or the code of a refusal.
fn read_count_at(key: Key, word: &Lexeme<'_>) -> Result<u16, Code>
    ensures { result ≡ count_at key word.now.bytes }
{
    if key.is_quoted() {
        return Err(Code::E05);
    }
    match read_count(word.bytes()) {
        Some(count) => Ok(count),
        None => Err(Code::E05),
    }
}

/// The array of these parts, of one cut where there is no ROWCOL.
fn array_of(cut: Pt, space: Pt, enclosure: (Pt, Pt), counts: (u16, u16)) -> Array
    ensures value { result ≡ vias.array_of cut space enclosure counts }
    ensures modest { IsModest result }
{
    Array {
        cut_x: i64::from(cut.x),
        cut_y: i64::from(cut.y),
        space_x: i64::from(space.x),
        space_y: i64::from(space.y),
        first_x: i64::from(enclosure.0.x),
        first_y: i64::from(enclosure.0.y),
        third_x: i64::from(enclosure.1.x),
        third_y: i64::from(enclosure.1.y),
        rows: i64::from(counts.0),
        columns: i64::from(counts.1),
    }
}

/// Whether any part of the generated form stands in a via.
fn is_generated(via: &ViaDraft) -> bool
    ensures { result ≡ vias.is_generated via.now }
{
    via.has_rule
        || (via.cut_size.is_some()
            || (via.layers.is_some()
                || (via.spacing.is_some()
                    || (via.enclosure.is_some() || via.rows_columns.is_some()))))
}

/// A via by the parts of its generated form; one that lacks a part but ROWCOL can't be used.
fn generated(alloc: Global, name: Text, via: &ViaDraft) -> Result<Via, NoMemory>
    ensures { IfOk result (λ made. made ≡ vias.generated name via.now.is_plain via.now.rows_columns via.now.has_rule via.now.cut_size via.now.layers via.now.spacing via.now.enclosure) }
{
    if !via.has_rule {
        return Ok(unusable(alloc, name));
    }
    let Some(cut) = via.cut_size else {
        return Ok(unusable(alloc, name));
    };
    let Some(layers) = via.layers else {
        return Ok(unusable(alloc, name));
    };
    let Some(space) = via.spacing else {
        return Ok(unusable(alloc, name));
    };
    let Some(enclosure) = via.enclosure else {
        return Ok(unusable(alloc, name));
    };
    let counts = via.rows_columns.unwrap_or((1, 1));
    let array = array_of(cut, space, enclosure, counts);
    made_via(alloc, name, via.is_plain, layers, &array)
}

/// The via that is made of the block's statements.
#[tactic(auto, unfolding(crate::specs::Vias::via_of))]
fn via_of(alloc: Global, name: Text, via: &ViaDraft) -> Result<Via, NoMemory>
    ensures { IfOk result (λ made. made ≡ vias.via_of name via.now) }
{
    if is_generated(via) {
        return generated(alloc, name, via);
    }
    drawn_via(alloc, name, via.is_plain, via.rects.items())
}

impl State {
    /// The name of a via is due.
    #[tactic(auto, unfolding(crate::specs::Vias::via_name_row))]
    pub fn via_name_row(
        &mut self,
        alloc: Global,
        home: Home,
        key: Key,
        word: &Lexeme<'_>,
    ) -> Result<Turn, NoMemory>
        ensures { IfOk result (λ turn. Turned turn self.new (vias.via_name_row self.old home key word.now)) }
    {
        if !key.is_name() {
            return Ok(word.refuse(Code::E03));
        }
        self.name = Text::from(alloc, word.bytes())?;
        self.via = ViaDraft::new(alloc);
        self.block = Block::Via(home);
        self.row = Row::ViaHead;
        Ok(Turn::Done)
    }

    /// A word in VIA.
    #[tactic(auto, unfolding(crate::specs::Vias::via_row))]
    pub fn via_row(&mut self, key: Key, word: &Lexeme<'_>) -> Turn
        ensures { Turned result self.new (vias.via_row self.old key word.now) }
    {
        match key {
            Key::Layer => self.goes(Row::ViaLayer),
            Key::Rect => {
                if self.via.layer.is_none() {
                    return word.refuse(Code::E03);
                }
                self.numbers.clear();
                self.goes(Row::ViaRect)
            }
            Key::End => self.goes(Row::End),
            Key::Polygon | Key::Origin | Key::Offset | Key::Pattern => {
                self.via.is_plain = false;
                self.goes(Row::Over)
            }
            Key::ViaRule => self.goes(Row::ViaRule),
            Key::CutSize => self.numbers_due(Form::CutSize),
            Key::Layers => self.goes(Row::FirstLayer),
            Key::CutSpacing => self.numbers_due(Form::CutSpacing),
            Key::Enclosure => self.numbers_due(Form::Enclosure),
            Key::RowCol => self.goes(Row::Rows),
            _ => self.other_statement(key, word),
        }
    }

    /// TOPOFSTACKONLY, or a statement.
    #[tactic(auto, unfolding(crate::specs::Vias::via_stack_row))]
    pub fn via_stack_row(&mut self, key: Key, word: &Lexeme<'_>) -> Turn
        ensures { Turned result self.new (vias.via_stack_row self.old key word.now) }
    {
        match key {
            Key::TopOfStackOnly => self.ends(),
            _ => {
                self.row = Row::Begin;
                self.via_row(key, word)
            }
        }
    }

    /// DEFAULT, TOPOFSTACKONLY, or a statement.
    #[tactic(auto, unfolding(crate::specs::Vias::via_head_row))]
    pub fn via_head_row(&mut self, key: Key, word: &Lexeme<'_>) -> Turn
        ensures { Turned result self.new (vias.via_head_row self.old key word.now) }
    {
        match key {
            Key::Default => {
                self.row = Row::ViaStack;
                Turn::Done
            }
            _ => self.via_stack_row(key, word),
        }
    }

    /// The layer of a via's rectangles is due.
    #[tactic(auto, unfolding(crate::specs::Vias::via_layer_row))]
    pub fn via_layer_row(&mut self, tech: &Tech, key: Key, word: &Lexeme<'_>) -> Turn
        ensures { Turned result self.new (vias.via_layer_row tech.now self.old key word.now) }
    {
        match self.read_layer(tech, key, word) {
            Ok(kind) => {
                self.via.layer = Some(kind);
                self.goes(Row::Due)
            }
            Err(code) => word.refuse(code),
        }
    }

    /// MASK or the first number of a rectangle.
    #[tactic(auto, unfolding(crate::specs::Vias::via_rect_row))]
    pub fn via_rect_row(&mut self, key: Key, word: &Lexeme<'_>) -> Result<Turn, NoMemory>
        ensures { IfOk result (λ turn. Turned turn self.new (vias.via_rect_row self.old key word.now)) }
    {
        match key {
            Key::Mask => Ok(self.goes(Row::ViaMask)),
            _ => self.number_row(Form::ViaRect, key, word),
        }
    }

    /// The number of a mask.
    #[tactic(auto, unfolding(crate::specs::Vias::via_mask_row))]
    pub fn via_mask_row(&mut self, key: Key, word: &Lexeme<'_>) -> Turn
        ensures { Turned result self.new (vias.via_mask_row self.old key word.now) }
    {
        if key.is_quoted() || parse_whole(word.bytes()).is_none() {
            return word.refuse(Code::E05);
        }
        self.goes(Row::Number(Form::ViaRect))
    }

    /// The name of a via rule.
    #[tactic(auto, unfolding(crate::specs::Vias::via_rule_row))]
    pub fn via_rule_row(&mut self, key: Key, word: &Lexeme<'_>) -> Turn
        ensures { Turned result self.new (vias.via_rule_row self.old key word.now) }
    {
        if !key.is_name() {
            return word.refuse(Code::E03);
        }
        self.via.has_rule = true;
        self.goes(Row::Due)
    }

    /// The first layer of LAYERS.
    #[tactic(auto, unfolding(crate::specs::Vias::first_layer_row))]
    pub fn first_layer_row(&mut self, tech: &Tech, key: Key, word: &Lexeme<'_>) -> Turn
        ensures { Turned result self.new (vias.first_layer_row tech.now self.old key word.now) }
    {
        match self.read_layer(tech, key, word) {
            Ok(kind) => self.goes(Row::SecondLayer(kind)),
            Err(code) => word.refuse(code),
        }
    }

    /// The second layer of LAYERS.
    #[tactic(auto, unfolding(crate::specs::Vias::second_layer_row))]
    pub fn second_layer_row(
        &mut self,
        tech: &Tech,
        below: LayerKind,
        key: Key,
        word: &Lexeme<'_>,
    ) -> Turn
        ensures { Turned result self.new (vias.second_layer_row tech.now self.old below key word.now) }
    {
        match self.read_layer(tech, key, word) {
            Ok(kind) => self.goes(Row::ThirdLayer(below, kind)),
            Err(code) => word.refuse(code),
        }
    }

    /// The third layer of LAYERS.
    #[tactic(auto, unfolding(crate::specs::Vias::third_layer_row))]
    pub fn third_layer_row(
        &mut self,
        tech: &Tech,
        below: LayerKind,
        cut: LayerKind,
        key: Key,
        word: &Lexeme<'_>,
    ) -> Turn
        ensures { Turned result self.new (vias.third_layer_row tech.now self.old below cut key word.now) }
    {
        match self.read_layer(tech, key, word) {
            Ok(kind) => {
                if self.via.layers.is_none() {
                    self.via.layers = Some((below, cut, kind));
                }
                self.goes(Row::Due)
            }
            Err(code) => word.refuse(code),
        }
    }

    /// The number of rows of cuts.
    #[tactic(auto, unfolding(crate::specs::Vias::rows_row))]
    pub fn rows_row(&mut self, key: Key, word: &Lexeme<'_>) -> Turn
        ensures { Turned result self.new (vias.rows_row self.old key word.now) }
    {
        match read_count_at(key, word) {
            Ok(count) => self.goes(Row::Columns(count)),
            Err(code) => word.refuse(code),
        }
    }

    /// The number of columns of cuts.
    #[tactic(auto, unfolding(crate::specs::Vias::columns_row))]
    pub fn columns_row(&mut self, rows: u16, key: Key, word: &Lexeme<'_>) -> Turn
        ensures { Turned result self.new (vias.columns_row self.old rows key word.now) }
    {
        match read_count_at(key, word) {
            Ok(columns) => {
                if self.via.rows_columns.is_none() {
                    self.via.rows_columns = Some((rows, columns));
                }
                self.goes(Row::Due)
            }
            Err(code) => word.refuse(code),
        }
    }

    /// Whether a via of the block's name is there.
    #[tactic(auto, unfolding(crate::specs::Vias::knows_via))]
    fn knows_via(&self, tech: &Tech) -> bool
        ensures { result ≡ vias.knows_via tech.now self.now }
    {
        tech.has_via(self.name.bytes()) || self.vias.has(self.name.bytes())
    }

    /// The via of the block's statements, which takes its name and leaves none.
    fn made_via(&mut self, alloc: Global) -> Result<Via, NoMemory>
        ensures made { IfOk result (λ via. via ≡ vias.via_of self.old.name self.old.via) }
        ensures state { OnOk result (self.new ≡ record self.old { name = []; via = vias.no_via }) }
    {
        let name = mem::replace(&mut self.name, Text::new(alloc));
        let draft = mem::replace(&mut self.via, ViaDraft::new(alloc));
        via_of(alloc, name, &draft)
    }

    /// The via joins the others, where its name isn't there.
    fn with_via(&mut self, given: &Given<'_>, home: Home) -> Result<(), NoMemory>
        ensures { OnOk result (self.new ≡ vias.with_via given.now.tech.now home self.old) }
    {
        let known = self.knows_via(given.tech);
        let Ok(via) = self.made_via(given.alloc) else {
            return Err(NoMemory);
        };
        self.block = home.block();
        if !known {
            self.vias.put(via)?;
        }
        Ok(())
    }

    /// The word after END in VIA.
    #[tactic(auto, unfolding(crate::specs::Vias::end_of_via))]
    pub fn end_of_via(
        &mut self,
        given: &Given<'_>,
        home: Home,
        key: Key,
        word: &Lexeme<'_>,
    ) -> Result<Turn, NoMemory>
        ensures { IfOk result (λ turn. Turned turn self.new (vias.end_of_via given.now.tech.now home self.old key word.now)) }
    {
        if !(key.is_name() && word.bytes() == self.name.bytes()) {
            return Ok(word.refuse(Code::E03));
        }
        self.with_via(given, home)?;
        Ok(self.ends())
    }
}
