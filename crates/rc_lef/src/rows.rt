//! The rows of LEF.

ghost use Rattle.std.specs.Prelude.{◌≡◌, ◌+◌, ◌<◌, ◌≤◌, length, position, IfOk, OnOk, IfSome};
ghost use Rattle.rc_keys.specs.Course.{Turned, Done};
ghost use Rattle.rc_lef.specs.Moves as moves;
ghost use Rattle.rc_lef.specs.Operands.{is_named, kind_named};
ghost use Rattle.rc_lef.specs.Rows as rows;

use crate::key::{Key, Keys};
use crate::state::{Block, Home, Row, State};
use crate::tech::{Layer, LayerKind, Tech};
use rc_fixed::{NoMemory, Text};
use rc_keys::{Code, Grammar, Lexeme, Turn};
use std::alloc::Global;

/// The kind of the layer at the place where the name stands.
pub fn kind_at(layers: &[Layer], name: &[u8], place: Option<usize>) -> Option<LayerKind>
    requires place { place ≡ position (is_named name.now) layers.now }
    requires within { IfSome place (λ place. place < length layers.now) }
    ensures { result ≡ kind_named name.now layers.now }
{
    let _name = name;
    match place {
        Some(place) => Some(layers[place].kind),
        None => None,
    }
}

impl State {
    /// The statement goes on in a row.
    pub fn goes(&mut self, row: Row) -> Turn
        ensures { Turned result self.new (moves.goes row self.old) }
    {
        self.row = row;
        Turn::More
    }

    /// The statement is complete.
    pub fn ends(&mut self) -> Turn
        ensures { Turned result self.new (moves.ends self.old) }
    {
        self.row = Row::Begin;
        Turn::Done
    }

    /// Up to and including the next `;`.
    #[tactic(auto, unfolding(crate::specs::Moves::over_row))]
    fn over_row(&mut self, key: Key) -> Turn
        ensures { Turned result self.new (moves.over_row self.old key) }
    {
        match key {
            Key::Semicolon => self.ends(),
            _ => Turn::More,
        }
    }

    /// A `;` is due.
    #[tactic(auto, unfolding(crate::specs::Moves::due_row))]
    fn due_row(&mut self, key: Key, word: &Lexeme<'_>) -> Turn
        ensures { Turned result self.new (moves.due_row self.old key word.now) }
    {
        match key {
            Key::Semicolon => self.ends(),
            _ => word.refuse(Code::E03),
        }
    }

    /// A statement that begins with none of the block's words.
    pub fn other_statement(&mut self, key: Key, word: &Lexeme<'_>) -> Turn
        ensures { Turned result self.new (moves.other_statement self.old key word.now) }
    {
        match key {
            Key::Semicolon => self.ends(),
            Key::Quoted => word.refuse(Code::E03),
            _ => self.goes(Row::Over),
        }
    }

    /// The kind of a layer, in the technology before the file or behind it.
    #[tactic(auto, unfolding(crate::specs::Moves::layer_kind))]
    fn layer_kind(&self, tech: &Tech, name: &[u8]) -> Option<LayerKind>
        ensures { result ≡ moves.layer_kind tech.now self.now name.now }
    {
        match tech.layer_kind(name) {
            Some(kind) => Some(kind),
            None => kind_at(self.layers.items(), name, self.layers.place(name)),
        }
    }

    /// The kind of the layer that a token names, or the code of its refusal.
    pub fn read_layer(&self, tech: &Tech, key: Key, word: &Lexeme<'_>) -> Result<LayerKind, Code>
        ensures { result ≡ moves.layer_of tech.now self.now key word.now }
    {
        if !key.is_name() {
            return Err(Code::E03);
        }
        match self.layer_kind(tech, word.bytes()) {
            Some(kind) => Ok(kind),
            None => Err(Code::E06),
        }
    }

    /// A block is skipped up to END and this word.
    pub fn skips(&mut self, alloc: Global, word: &Lexeme<'_>) -> Result<Turn, NoMemory>
        ensures { IfOk result (λ turn. Turned turn self.new (moves.skips self.old word.now.bytes)) }
    {
        self.name = Text::from(alloc, word.bytes())?;
        Ok(self.goes(Row::Skip))
    }

    /// The name of a block that is skipped is due.
    #[tactic(auto, unfolding(crate::specs::Rows::skip_name_row))]
    fn skip_name_row(
        &mut self,
        alloc: Global,
        key: Key,
        word: &Lexeme<'_>,
    ) -> Result<Turn, NoMemory>
        ensures { IfOk result (λ turn. Turned turn self.new (rows.skip_name_row self.old key word.now)) }
    {
        if !key.is_name() {
            return Ok(word.refuse(Code::E03));
        }
        self.skips(alloc, word)
    }

    /// A token in what is skipped.
    #[tactic(auto, unfolding(crate::specs::Rows::skip_row))]
    fn skip_row(&mut self, key: Key) -> Turn
        ensures { Turned result self.new (rows.skip_row self.old key) }
    {
        match key {
            Key::End => self.goes(Row::SkipEnd),
            _ => self.goes(Row::Skip),
        }
    }

    /// The token after END in what is skipped.
    #[tactic(auto, unfolding(crate::specs::Rows::skip_end_row))]
    fn skip_end_row(&mut self, key: Key, word: &Lexeme<'_>) -> Turn
        ensures { Turned result self.new (rows.skip_end_row self.old key word.now) }
    {
        if !key.is_quoted() && word.bytes() == self.name.bytes() {
            return self.ends();
        }
        self.skip_row(key)
    }

    /// A token in what is skipped up to ENDEXT.
    #[tactic(auto, unfolding(crate::specs::Rows::skip_ext_row))]
    fn skip_ext_row(&mut self, key: Key) -> Turn
        ensures { Turned result self.new (rows.skip_ext_row self.old key) }
    {
        match key {
            Key::EndExt => self.ends(),
            _ => Turn::More,
        }
    }

    /// A token in a statement of what is skipped up to a statement that begins with END.
    #[tactic(auto, unfolding(crate::specs::Rows::skip_over_row))]
    fn skip_over_row(&mut self, key: Key) -> Turn
        ensures { Turned result self.new (rows.skip_over_row self.old key) }
    {
        match key {
            Key::Semicolon => self.goes(Row::SkipStatements),
            _ => self.goes(Row::SkipOver),
        }
    }

    /// A token where a statement may begin in what is skipped up to a statement that begins with END.
    #[tactic(auto, unfolding(crate::specs::Rows::skip_statements_row))]
    fn skip_statements_row(&mut self, key: Key) -> Turn
        ensures { Turned result self.new (rows.skip_statements_row self.old key) }
    {
        match key {
            Key::End => self.ends(),
            _ => self.skip_over_row(key),
        }
    }

    /// A word between the blocks.
    #[tactic(auto, unfolding(crate::specs::Rows::top_row))]
    fn top_row(&mut self, alloc: Global, key: Key, word: &Lexeme<'_>) -> Result<Turn, NoMemory>
        ensures { IfOk result (λ turn. Turned turn self.new (rows.top_row self.old key word.now)) }
    {
        match key {
            Key::Units => {
                self.block = Block::Units;
                Ok(self.ends())
            }
            Key::Layer => Ok(self.goes(Row::LayerName)),
            Key::Via => Ok(self.goes(Row::ViaName(Home::Top))),
            Key::NonDefaultRule => Ok(self.goes(Row::RuleName)),
            Key::Macro => Ok(self.goes(Row::MacroName)),
            Key::ViaRule | Key::Site | Key::Array => Ok(self.goes(Row::SkipName)),
            Key::PropertyDefinitions | Key::Spacing => self.skips(alloc, word),
            Key::BeginExt => Ok(self.goes(Row::SkipExt)),
            Key::End => Ok(self.goes(Row::End)),
            _ => Ok(self.other_statement(key, word)),
        }
    }

    /// The word after END between the blocks.
    #[tactic(auto, unfolding(crate::specs::Rows::end_of_file))]
    fn end_of_file(&mut self, key: Key, word: &Lexeme<'_>) -> Turn
        ensures { Turned result self.new (rows.end_of_file self.old key word.now) }
    {
        match key {
            Key::Library => Turn::Close,
            _ => word.refuse(Code::E03),
        }
    }

    /// A token where a statement may begin.
    fn begin_row(
        &mut self,
        given: &Given<'_>,
        key: Key,
        word: &Lexeme<'_>,
    ) -> Result<Turn, NoMemory>
        ensures { IfOk result (λ turn. Turned turn self.new (rows.begin_in self.old.block self.old key word.now)) }
    {
        match self.block {
            Block::Top => self.top_row(given.alloc, key, word),
            Block::Units => Ok(self.units_row(key, word)),
            Block::Layer => Ok(self.layer_row(key, word)),
            Block::Via(_) => Ok(self.via_row(key, word)),
            Block::Rule => self.rule_row(given.alloc, key, word),
            Block::RuleLayer => Ok(self.rule_layer_row(key, word)),
            Block::Macro => self.macro_row(given.alloc, key, word),
            Block::Pin => Ok(self.pin_row(key, word)),
            Block::Port => Ok(self.port_row(key, word)),
        }
    }

    /// The word after END.
    fn end_row(&mut self, given: &Given<'_>, key: Key, word: &Lexeme<'_>) -> Result<Turn, NoMemory>
        ensures { IfOk result (λ turn. Turned turn self.new (rows.end_in given.now.tech.now self.old.block self.old key word.now)) }
    {
        match self.block {
            Block::Top => Ok(self.end_of_file(key, word)),
            Block::Units => Ok(self.end_of_units(key, word)),
            Block::Layer => self.end_of_layer(given, key, word),
            Block::Via(home) => self.end_of_via(given, home, key, word),
            Block::Rule => self.end_of_rule(given, key, word),
            Block::RuleLayer => Ok(self.end_of_rule_layer(key, word)),
            Block::Macro => self.end_of_macro(given, key, word),
            Block::Pin => self.end_of_pin(given.alloc, key, word),
            Block::Port => Ok(word.refuse(Code::E03)),
        }
    }

    /// A token of what is skipped, by the row that reads it.
    fn skipping_row(
        &mut self,
        given: &Given<'_>,
        key: Key,
        word: &Lexeme<'_>,
    ) -> Result<Turn, NoMemory>
        ensures { IfOk result (λ turn. Turned turn self.new (rows.skipping_in given.now.tech.now self.old.row self.old key word.now)) }
    {
        match self.row {
            Row::SkipName => self.skip_name_row(given.alloc, key, word),
            Row::Skip => Ok(self.skip_row(key)),
            Row::SkipEnd => Ok(self.skip_end_row(key, word)),
            Row::SkipExt => Ok(self.skip_ext_row(key)),
            Row::SkipStatements => Ok(self.skip_statements_row(key)),
            Row::SkipOver => Ok(self.skip_over_row(key)),
            _ => self.via_part_row(given, key, word),
        }
    }

    /// A token of a statement in VIA, by the row that reads it.
    fn via_part_row(
        &mut self,
        given: &Given<'_>,
        key: Key,
        word: &Lexeme<'_>,
    ) -> Result<Turn, NoMemory>
        ensures { IfOk result (λ turn. Turned turn self.new (rows.via_part_in given.now.tech.now self.old.row self.old key word.now)) }
    {
        match self.row {
            Row::ViaName(home) => self.via_name_row(given.alloc, home, key, word),
            Row::ViaHead => Ok(self.via_head_row(key, word)),
            Row::ViaStack => Ok(self.via_stack_row(key, word)),
            Row::ViaLayer => Ok(self.via_layer_row(given.tech, key, word)),
            Row::ViaRect => self.via_rect_row(key, word),
            Row::ViaMask => Ok(self.via_mask_row(key, word)),
            Row::ViaRule => Ok(self.via_rule_row(key, word)),
            Row::FirstLayer => Ok(self.first_layer_row(given.tech, key, word)),
            Row::SecondLayer(below) => Ok(self.second_layer_row(given.tech, below, key, word)),
            Row::ThirdLayer(below, cut) => {
                Ok(self.third_layer_row(given.tech, below, cut, key, word))
            }
            Row::Rows => Ok(self.rows_row(key, word)),
            Row::Columns(rows) => Ok(self.columns_row(rows, key, word)),
            _ => self.cell_part_row(given, key, word),
        }
    }

    /// A token of a statement in NONDEFAULTRULE or MACRO, by the row that reads it.
    fn cell_part_row(
        &mut self,
        given: &Given<'_>,
        key: Key,
        word: &Lexeme<'_>,
    ) -> Result<Turn, NoMemory>
        ensures { IfOk result (λ turn. Turned turn self.new (rows.cell_part_in given.now.tech.now self.old.row self.old key word.now)) }
    {
        match self.row {
            Row::RuleName => self.rule_name_row(given.alloc, key, word),
            Row::RuleLayer => self.rule_layer_name_row(given, key, word),
            Row::MacroName => self.macro_name_row(given.alloc, key, word),
            Row::SizeBy => Ok(self.size_by_row(key, word)),
            Row::PinName => self.pin_name_row(given.alloc, key, word),
            Row::Direction => Ok(self.direction_row(key, word)),
            Row::TriState => Ok(self.tri_state_row(key, word)),
            Row::PortLayer => Ok(self.port_layer_row(given.tech, key, word)),
            Row::PortRect => self.port_rect_row(key, word),
            Row::PortMask => Ok(self.port_mask_row(key, word)),
            _ => Ok(word.refuse(Code::E03)),
        }
    }

    /// A token, by the row that reads it.
    fn row(&mut self, given: &Given<'_>, key: Key, word: &Lexeme<'_>) -> Result<Turn, NoMemory>
        ensures { IfOk result (λ turn. Turned turn self.new (rows.row_in given.now.tech.now self.old.row self.old key word.now)) }
    {
        match self.row {
            Row::Begin => self.begin_row(given, key, word),
            Row::Over => Ok(self.over_row(key)),
            Row::Due => Ok(self.due_row(key, word)),
            Row::End => self.end_row(given, key, word),
            Row::Number(form) => self.number_row(form, key, word),
            Row::Database => Ok(self.database_row(key, word)),
            Row::Microns => Ok(self.microns_row(key, word)),
            Row::LayerName => self.layer_name_row(given.alloc, key, word),
            Row::Type => Ok(self.type_row(given.tech, key, word)),
            Row::Width => Ok(self.width_row(key, word)),
            Row::WidthEnd => Ok(self.width_end_row(key, word)),
            _ => self.skipping_row(given, key, word),
        }
    }
}

/// What reading a LEF file takes as given: the technology before it, besides an allocator and the keywords.
#[derive(Drop)]
pub struct Given<'a> {
    pub alloc: Global,
    pub keys: &'a Keys,
    pub tech: &'a Tech,
}

impl<'a> Grammar<Given<'a>> for State {
    ghost use Rattle.rc_lef.specs.Rows.{lef_turn, lef_may_end};

    ghost turn_of = { λ given. lef_turn given.tech.now };

    ghost may_end = { lef_may_end };

    #[tactic(auto, unfolding(crate::specs::Rows::lef_turn))]
    fn advance(&mut self, given: &Given<'a>, word: &Lexeme<'_>) -> Result<Turn, NoMemory> {
        let key = given.keys.key(word);
        self.row(given, key, word)
    }

    fn is_complete(&self) -> bool
        ensures { result ≡ lef_may_end self.now }
    {
        matches!(self.block, Block::Top) && matches!(self.row, Row::Begin)
    }
}
