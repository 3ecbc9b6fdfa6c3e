//! The rows of rule files: the heading, what stands between the blocks, and ends.

ghost use Rattle.std.specs.Prelude.{◌≡◌, true, is_some, IfOk, OnOk};
ghost use Rattle.rc_keys.specs.Course.{Turned};
ghost use Rattle.rc_rules.specs.Numbers.{resistance_of};
ghost use Rattle.rc_rules.specs.RuleFile.{layer_in, cut_in};
ghost use Rattle.rc_rules.specs.Rows as rows;
ghost use Rattle.rc_rules.specs.Blocks.{is_complete as is_complete_block};

use crate::key::{Key, Keys};
use crate::layer::{LayerRules, LayerValues};
use crate::layers::{cut_named, routing_named};
use crate::number::resistance;
use crate::state::{Row, Stage, State};
use rc_fixed::{NoMemory, is_decimal};
use rc_keys::{Code, Grammar, Lexeme, Turn};
use rc_lef::{Tech, Units};
use std::alloc::Global;
use std::mem;

/// What reading a rule file takes as given: an allocator, the keywords, the technology, and its units of a micron.
#[derive(Drop)]
pub struct Given<'a> {
    pub alloc: Global,
    pub keys: &'a Keys,
    pub tech: &'a Tech,
    pub units: Units,
}

/// The resistance that a token is.
fn resistance_in(key: Key, word: &Lexeme<'_>) -> Option<u64>
    ensures { result ≡ rows.unquoted key (resistance_of word.now.bytes) }
{
    match key {
        Key::Quoted => None,
        _ => resistance(word.bytes()),
    }
}

impl State {
    /// The statement goes on in a row.
    pub fn goes(&mut self, row: Row) -> Turn
        ensures { Turned result self.new (rows.goes row self.old) }
    {
        self.row = row;
        Turn::More
    }

    /// The statement is complete.
    pub fn ends(&mut self) -> Turn
        ensures { Turned result self.new (rows.ends self.old) }
    {
        self.row = Row::Begin;
        Turn::Done
    }

    /// A `;` is due.
    #[tactic(auto, unfolding(crate::specs::Rows::due_row))]
    fn due_row(&mut self, key: Key, word: &Lexeme<'_>) -> Turn
        ensures { Turned result self.new (rows.due_row self.old key word.now) }
    {
        match key {
            Key::Semicolon => self.ends(),
            _ => word.refuse(Code::E03),
        }
    }

    /// RCXRULES is due.
    #[tactic(auto, unfolding(crate::specs::Rows::heading_row))]
    fn heading_row(&mut self, key: Key, word: &Lexeme<'_>) -> Turn
        ensures { Turned result self.new (rows.heading_row self.old key word.now) }
    {
        match key {
            Key::RcxRules => self.goes(Row::Version),
            _ => word.refuse(Code::E03),
        }
    }

    /// The number after RCXRULES.
    #[tactic(auto, unfolding(crate::specs::Rows::version_row))]
    fn version_row(&mut self, key: Key, word: &Lexeme<'_>) -> Turn
        ensures { Turned result self.new (rows.version_row self.old key word.now) }
    {
        if key.is_quoted() {
            return word.refuse(Code::E03);
        }
        if word.bytes() == b"1".as_slice() {
            self.progress.stage = Stage::Entries;
            return self.goes(Row::Due);
        }
        if is_decimal(word.bytes()) {
            return word.refuse(Code::E04);
        }
        word.refuse(Code::E03)
    }

    /// The first word of a statement between the blocks.
    #[tactic(auto, unfolding(crate::specs::Rows::entry_row))]
    fn entry_row(&mut self, key: Key, word: &Lexeme<'_>) -> Turn
        ensures { Turned result self.new (rows.entry_row self.old key word.now) }
    {
        match key {
            Key::Layer => self.goes(Row::LayerName),
            Key::Via => self.goes(Row::ViaName),
            Key::Contact => {
                if self.progress.contact.is_some() {
                    return word.refuse(Code::E07);
                }
                self.goes(Row::Contact)
            }
            Key::End => self.goes(Row::End),
            _ => word.refuse(Code::E03),
        }
    }

    /// Whether there is a block of a layer.
    fn has_layer(&self, number: u8) -> bool
        ensures { result ≡ is_some (layer_in self.now.progress.layers number) }
    {
        matches!(
            self.progress.layers.items().get(number as usize),
            Some(Some(_))
        )
    }

    /// Whether a cut layer has its resistance.
    fn has_cut(&self, number: u8) -> bool
        ensures { result ≡ is_some (cut_in self.now.progress.cuts number) }
    {
        matches!(
            self.progress.cuts.items().get(number as usize),
            Some(Some(_))
        )
    }

    /// The name after LAYER.
    #[tactic(auto, unfolding(crate::specs::Rows::layer_name_row))]
    fn layer_name_row(&mut self, given: &Given<'_>, key: Key, word: &Lexeme<'_>) -> Turn
        ensures { Turned result self.new (rows.layer_name_row given.now.tech.now self.old key word.now) }
    {
        if !key.is_name() {
            return word.refuse(Code::E03);
        }
        let Some(number) = routing_named(given.tech, word.bytes()) else {
            return word.refuse(Code::E06);
        };
        if self.has_layer(number) {
            return word.refuse(Code::E07);
        }
        self.progress.stage = Stage::Widths;
        self.progress.number = number;
        self.progress.block = LayerValues::new(given.alloc);
        self.goes(Row::Due)
    }

    /// The name after VIA.
    #[tactic(auto, unfolding(crate::specs::Rows::via_name_row))]
    fn via_name_row(&mut self, tech: &Tech, key: Key, word: &Lexeme<'_>) -> Turn
        ensures { Turned result self.new (rows.via_name_row tech.now self.old key word.now) }
    {
        if !key.is_name() {
            return word.refuse(Code::E03);
        }
        let Some(number) = cut_named(tech, word.bytes()) else {
            return word.refuse(Code::E06);
        };
        if self.has_cut(number) {
            return word.refuse(Code::E07);
        }
        self.cut = number;
        self.goes(Row::ViaNumber)
    }

    /// The cut of a VIA has this resistance.
    fn with_cut(&mut self, resistance: u64)
        ensures { self.new ≡ rows.with_cut self.old resistance }
    {
        let place = self.cut as usize;
        if place < self.progress.cuts.len() {
            self.progress.cuts.swap(place, Some(resistance));
        }
    }

    /// The resistance of a cut.
    #[tactic(auto, unfolding(crate::specs::Rows::via_number_row))]
    fn via_number_row(&mut self, key: Key, word: &Lexeme<'_>) -> Turn
        ensures { Turned result self.new (rows.via_number_row self.old key word.now) }
    {
        match resistance_in(key, word) {
            Some(resistance) => {
                self.with_cut(resistance);
                self.goes(Row::Due)
            }
            None => word.refuse(Code::E05),
        }
    }

    /// The resistance of a contact.
    #[tactic(auto, unfolding(crate::specs::Rows::contact_row))]
    fn contact_row(&mut self, key: Key, word: &Lexeme<'_>) -> Turn
        ensures { Turned result self.new (rows.contact_row self.old key word.now) }
    {
        match resistance_in(key, word) {
            Some(resistance) => {
                self.progress.contact = Some(resistance);
                self.goes(Row::Due)
            }
            None => word.refuse(Code::E05),
        }
    }

    /// The word after END between the blocks.
    #[tactic(auto, unfolding(crate::specs::Rows::end_of_rules))]
    fn end_of_rules(&mut self, key: Key, word: &Lexeme<'_>) -> Turn
        ensures { Turned result self.new (rows.end_of_rules self.old key word.now) }
    {
        match key {
            Key::Rules => self.goes(Row::Close),
            _ => word.refuse(Code::E03),
        }
    }

    /// The `;` after END RULES.
    #[tactic(auto, unfolding(crate::specs::Rows::close_row))]
    fn close_row(&mut self, key: Key, word: &Lexeme<'_>) -> Turn
        ensures { Turned result self.new (rows.close_row self.old key word.now) }
    {
        match key {
            Key::Semicolon => Turn::Close,
            _ => word.refuse(Code::E03),
        }
    }

    /// The open block is closed.
    fn closes_layer(&mut self, alloc: Global) -> Result<(), NoMemory>
        requires { is_complete_block self.old.progress.block ≡ true }
        ensures { OnOk result (self.new ≡ rows.closes_layer self.old) }
    {
        let values = mem::replace(&mut self.progress.block, LayerValues::new(alloc));
        let rules = LayerRules::new(alloc, values)?;
        let place = self.progress.number as usize;
        if place < self.progress.layers.len() {
            self.progress.layers.swap(place, Some(rules));
        }
        self.progress.stage = Stage::Entries;
        Ok(())
    }

    /// The word after END in a block.
    #[tactic(auto, unfolding(crate::specs::Rows::end_of_layer))]
    fn end_of_layer(&mut self, alloc: Global, key: Key, word: &Lexeme<'_>) -> Result<Turn, NoMemory>
        ensures { IfOk result (λ turn. Turned turn self.new (rows.end_of_layer self.old key word.now)) }
    {
        match key {
            Key::Layer => {
                if !self.progress.block.is_complete() {
                    return Ok(word.refuse(Code::E12));
                }
                self.closes_layer(alloc)?;
                Ok(self.goes(Row::Due))
            }
            _ => Ok(word.refuse(Code::E03)),
        }
    }

    /// The first token of a statement.
    fn begin_row(&mut self, given: &Given<'_>, key: Key, word: &Lexeme<'_>) -> Turn
        ensures { Turned result self.new (rows.begin_in self.old.progress.stage self.old key word.now) }
    {
        match self.progress.stage {
            Stage::Heading => self.heading_row(key, word),
            Stage::Entries => self.entry_row(key, word),
            Stage::Widths => self.widths_row(given.alloc, key, word),
            Stage::Distances => self.distances_row(given.alloc, key, word),
            Stage::Resistances => self.resistances_row(given.alloc, key, word),
            Stage::Tables => self.table_row(given.alloc, key, word),
        }
    }

    /// The word after END.
    fn end_row(&mut self, alloc: Global, key: Key, word: &Lexeme<'_>) -> Result<Turn, NoMemory>
        ensures { IfOk result (λ turn. Turned turn self.new (rows.end_in self.old.progress.stage self.old key word.now)) }
    {
        match self.progress.stage {
            Stage::Tables => self.end_of_layer(alloc, key, word),
            _ => Ok(self.end_of_rules(key, word)),
        }
    }

    /// A token, by the row that is due.
    fn row(&mut self, given: &Given<'_>, key: Key, word: &Lexeme<'_>) -> Result<Turn, NoMemory>
        ensures { IfOk result (λ turn. Turned turn self.new (rows.row_in given.now.units given.now.tech.now self.old.row self.old key word.now)) }
    {
        let alloc = given.alloc;
        match self.row {
            Row::Begin => Ok(self.begin_row(given, key, word)),
            Row::Due => Ok(self.due_row(key, word)),
            Row::End => self.end_row(alloc, key, word),
            Row::Close => Ok(self.close_row(key, word)),
            Row::Version => Ok(self.version_row(key, word)),
            Row::LayerName => Ok(self.layer_name_row(given, key, word)),
            Row::Widths => self.width_row(given, key, word),
            Row::Distances => self.distance_row(given, key, word),
            Row::Resistances => self.resistance_row(given, key, word),
            Row::Under => Ok(self.under_row(key, word)),
            Row::UnderLayer => Ok(self.under_layer_row(given.tech, key, word)),
            Row::Over => Ok(self.over_row(key, word)),
            Row::OverLayer => self.over_layer_row(given.tech, key, word),
            Row::Numbers => self.number_row(given, key, word),
            Row::ViaName => Ok(self.via_name_row(given.tech, key, word)),
            Row::ViaNumber => Ok(self.via_number_row(key, word)),
            Row::Contact => Ok(self.contact_row(key, word)),
        }
    }
}

impl<'a> Grammar<Given<'a>> for State {
    ghost use Rattle.rc_rules.specs.Rows.{rules_turn, rules_may_end};

    ghost turn_of = { λ given. rules_turn given.units given.tech.now };

    ghost may_end = { rules_may_end };

    #[tactic(auto, unfolding(crate::specs::Rows::rules_turn))]
    fn advance(&mut self, given: &Given<'a>, word: &Lexeme<'_>) -> Result<Turn, NoMemory> {
        let key = given.keys.key(word);
        self.row(given, key, word)
    }

    fn is_complete(&self) -> bool
        ensures { result ≡ rules_may_end self.now }
    {
        let _ = self;
        false
    }
}
