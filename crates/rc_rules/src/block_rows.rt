//! The rows of rule files inside a layer's block.

ghost use Rattle.std.specs.Prelude.{◌≡◌, ◌≤◌, IfOk, IfSome, OnOk};
ghost use Rattle.rc_keys.specs.Course.{Turned};
ghost use Rattle.rc_rules.specs.Rows as rows;
ghost use Rattle.rc_rules.specs.Numbers.{length_of, share_of, IsNumber};
ghost use Rattle.rc_rules.specs.Scales.{IsLength};

use crate::key::Key;
use crate::layers::routing_named;
use crate::number::{length, share};
use crate::numbers::Numbers;
use crate::pair::Pair;
use crate::rows::Given;
use crate::scale::Scale;
use crate::state::{Row, Stage, State};
use rc_fixed::NoMemory;
use rc_keys::{Code, Lexeme, Turn};
use rc_lef::{Tech, Units};
use std::alloc::Global;
use std::mem;

/// The length that a token is.
fn length_in(units: Units, key: Key, word: &Lexeme<'_>) -> Option<u32>
    ensures value { result ≡ rows.unquoted key (length_of units word.now.bytes) }
    ensures range { IfSome result IsLength }
{
    match key {
        Key::Quoted => None,
        _ => length(units, word.bytes()),
    }
}

/// The number for one unit that a token is.
fn share_in(units: Units, key: Key, word: &Lexeme<'_>) -> Option<u64>
    ensures value { result ≡ rows.unquoted key (share_of units word.now.bytes) }
    ensures range { IfSome result IsNumber }
{
    match key {
        Key::Quoted => None,
        _ => share(units, word.bytes()),
    }
}

impl State {
    /// WIDTHS is due.
    #[tactic(auto, unfolding(crate::specs::Rows::widths_row))]
    pub fn widths_row(&mut self, alloc: Global, key: Key, word: &Lexeme<'_>) -> Turn
        ensures { Turned result self.new (rows.widths_row self.old key word.now) }
    {
        match key {
            Key::Widths => {
                self.steps = Scale::new(alloc);
                self.goes(Row::Widths)
            }
            _ => word.refuse(Code::E03),
        }
    }

    /// DISTS is due.
    #[tactic(auto, unfolding(crate::specs::Rows::distances_row))]
    pub fn distances_row(&mut self, alloc: Global, key: Key, word: &Lexeme<'_>) -> Turn
        ensures { Turned result self.new (rows.distances_row self.old key word.now) }
    {
        match key {
            Key::Dists => {
                self.steps = Scale::new(alloc);
                self.goes(Row::Distances)
            }
            _ => word.refuse(Code::E03),
        }
    }

    /// The next length of a list of at most so many.
    fn takes_step(
        &mut self,
        most: usize,
        word: &Lexeme<'_>,
        step: Option<u32>,
    ) -> Result<Turn, NoMemory>
        requires most { most ≤ 32 }
        requires length { IfSome step IsLength }
        ensures { IfOk result (λ turn. Turned turn self.new (rows.takes_step most self.old word.now step)) }
    {
        let Some(step) = step else {
            return Ok(word.refuse(Code::E05));
        };
        if self.steps.len() >= most || !self.steps.rises_to(step) {
            return Ok(word.refuse(Code::E12));
        }
        self.steps.push(step)?;
        Ok(Turn::More)
    }

    /// A width, or the `;` of WIDTHS.
    #[tactic(auto, unfolding(crate::specs::Rows::width_row))]
    pub fn width_row(
        &mut self,
        given: &Given<'_>,
        key: Key,
        word: &Lexeme<'_>,
    ) -> Result<Turn, NoMemory>
        ensures { IfOk result (λ turn. Turned turn self.new (rows.width_row given.now.units self.old key word.now)) }
    {
        match key {
            Key::Semicolon => {
                if self.steps.len() < 1 {
                    return Ok(word.refuse(Code::E12));
                }
                self.progress.block.widths = mem::replace(&mut self.steps, Scale::new(given.alloc));
                self.progress.stage = Stage::Distances;
                Ok(self.ends())
            }
            _ => self.takes_step(16, word, length_in(given.units, key, word)),
        }
    }

    /// A distance, or the `;` of DISTS.
    #[tactic(auto, unfolding(crate::specs::Rows::distance_row))]
    pub fn distance_row(
        &mut self,
        given: &Given<'_>,
        key: Key,
        word: &Lexeme<'_>,
    ) -> Result<Turn, NoMemory>
        ensures { IfOk result (λ turn. Turned turn self.new (rows.distance_row given.now.units self.old key word.now)) }
    {
        match key {
            Key::Semicolon => {
                if self.steps.len() < 1 {
                    return Ok(word.refuse(Code::E12));
                }
                self.progress.block.distances = mem::replace(
                    &mut self.steps,
                    Scale::new(given.alloc),
                );
                self.progress.stage = Stage::Resistances;
                Ok(self.ends())
            }
            _ => self.takes_step(32, word, length_in(given.units, key, word)),
        }
    }

    /// RES is due.
    #[tactic(auto, unfolding(crate::specs::Rows::resistances_row))]
    pub fn resistances_row(&mut self, alloc: Global, key: Key, word: &Lexeme<'_>) -> Turn
        ensures { Turned result self.new (rows.resistances_row self.old key word.now) }
    {
        match key {
            Key::Res => {
                self.numbers = Numbers::new(alloc);
                self.goes(Row::Resistances)
            }
            _ => word.refuse(Code::E03),
        }
    }

    /// The next number of a list of at most so many.
    fn takes_number(
        &mut self,
        most: usize,
        word: &Lexeme<'_>,
        number: Option<u64>,
    ) -> Result<Turn, NoMemory>
        requires { IfSome number IsNumber }
        ensures { IfOk result (λ turn. Turned turn self.new (rows.takes_number most self.old word.now number)) }
    {
        let Some(number) = number else {
            return Ok(word.refuse(Code::E05));
        };
        if self.numbers.len() >= most {
            return Ok(word.refuse(Code::E12));
        }
        self.numbers.push(number)?;
        Ok(Turn::More)
    }

    /// A resistance, or the `;` of RES.
    #[tactic(auto, unfolding(crate::specs::Rows::resistance_row))]
    pub fn resistance_row(
        &mut self,
        given: &Given<'_>,
        key: Key,
        word: &Lexeme<'_>,
    ) -> Result<Turn, NoMemory>
        ensures { IfOk result (λ turn. Turned turn self.new (rows.resistance_row given.now.units self.old key word.now)) }
    {
        let widths = self.progress.block.widths.len();
        match key {
            Key::Semicolon => {
                if self.numbers.len() != widths {
                    return Ok(word.refuse(Code::E12));
                }
                self.progress.block.resistances = mem::replace(
                    &mut self.numbers,
                    Numbers::new(given.alloc),
                );
                self.progress.stage = Stage::Tables;
                Ok(self.ends())
            }
            _ => self.takes_number(widths, word, share_in(given.units, key, word)),
        }
    }

    /// The row of a table is complete.
    fn with_row(&mut self, alloc: Global) -> Result<(), NoMemory>
        ensures { OnOk result (self.new ≡ rows.with_row self.old) }
    {
        let row = mem::replace(&mut self.numbers, Numbers::new(alloc));
        self.progress.block.rows.push(row)
    }

    /// A number of a row, or the `;` of ROW.
    #[tactic(auto, unfolding(crate::specs::Rows::number_row))]
    pub fn number_row(
        &mut self,
        given: &Given<'_>,
        key: Key,
        word: &Lexeme<'_>,
    ) -> Result<Turn, NoMemory>
        ensures { IfOk result (λ turn. Turned turn self.new (rows.number_row given.now.units self.old key word.now)) }
    {
        let columns = 2 * self.progress.block.distances.len() + 1;
        match key {
            Key::Semicolon => {
                if self.numbers.len() != columns {
                    return Ok(word.refuse(Code::E12));
                }
                self.with_row(given.alloc)?;
                Ok(self.ends())
            }
            _ => self.takes_number(columns, word, share_in(given.units, key, word)),
        }
    }

    /// TABLE, ROW or END.
    #[tactic(auto, unfolding(crate::specs::Rows::table_row))]
    pub fn table_row(&mut self, alloc: Global, key: Key, word: &Lexeme<'_>) -> Turn
        ensures { Turned result self.new (rows.table_row self.old key word.now) }
    {
        let is_full = self.progress.block.is_full();
        let count = self.progress.block.pairs.len();
        match key {
            Key::Row => {
                if !is_full {
                    self.numbers = Numbers::new(alloc);
                    return self.goes(Row::Numbers);
                }
                if count == 0 {
                    return word.refuse(Code::E03);
                }
                word.refuse(Code::E12)
            }
            Key::Table => {
                if is_full && count < 256 {
                    return self.goes(Row::Under);
                }
                word.refuse(Code::E12)
            }
            Key::End => {
                if is_full {
                    return self.goes(Row::End);
                }
                word.refuse(Code::E12)
            }
            _ => word.refuse(Code::E03),
        }
    }

    /// UNDER is due.
    #[tactic(auto, unfolding(crate::specs::Rows::under_row))]
    pub fn under_row(&mut self, key: Key, word: &Lexeme<'_>) -> Turn
        ensures { Turned result self.new (rows.under_row self.old key word.now) }
    {
        match key {
            Key::Under => self.goes(Row::UnderLayer),
            _ => word.refuse(Code::E03),
        }
    }

    /// OVER is due.
    #[tactic(auto, unfolding(crate::specs::Rows::over_row))]
    pub fn over_row(&mut self, key: Key, word: &Lexeme<'_>) -> Turn
        ensures { Turned result self.new (rows.over_row self.old key word.now) }
    {
        match key {
            Key::Over => self.goes(Row::OverLayer),
            _ => word.refuse(Code::E03),
        }
    }

    /// The layer under a table's faces.
    #[tactic(auto, unfolding(crate::specs::Rows::under_layer_row))]
    pub fn under_layer_row(&mut self, tech: &Tech, key: Key, word: &Lexeme<'_>) -> Turn
        ensures { Turned result self.new (rows.under_layer_row tech.now self.old key word.now) }
    {
        if let Key::Nothing = key {
            self.under = None;
            return self.goes(Row::Over);
        }
        if !key.is_name() {
            return word.refuse(Code::E03);
        }
        let Some(number) = routing_named(tech, word.bytes()) else {
            return word.refuse(Code::E06);
        };
        if number >= self.progress.number {
            return word.refuse(Code::E12);
        }
        self.under = Some(number);
        self.goes(Row::Over)
    }

    /// The layers of a table, where no table before it has them.
    #[tactic(auto, unfolding(crate::specs::Rows::takes_pair))]
    fn takes_pair(&mut self, word: &Lexeme<'_>, over: Option<u8>) -> Result<Turn, NoMemory>
        ensures { IfOk result (λ turn. Turned turn self.new (rows.takes_pair self.old word.now over)) }
    {
        if self.progress.block.pairs.find(self.under, over).is_some() {
            return Ok(word.refuse(Code::E07));
        }
        if self.progress.block.pairs.len() >= 256 {
            return Ok(word.refuse(Code::E12));
        }
        self.progress.block.pairs.push(Pair {
            under: self.under,
            over,
        })?;
        Ok(self.goes(Row::Due))
    }

    /// The layer over a table's faces.
    #[tactic(auto, unfolding(crate::specs::Rows::over_layer_row))]
    pub fn over_layer_row(
        &mut self,
        tech: &Tech,
        key: Key,
        word: &Lexeme<'_>,
    ) -> Result<Turn, NoMemory>
        ensures { IfOk result (λ turn. Turned turn self.new (rows.over_layer_row tech.now self.old key word.now)) }
    {
        if let Key::Nothing = key {
            return self.takes_pair(word, None);
        }
        if !key.is_name() {
            return Ok(word.refuse(Code::E03));
        }
        let Some(number) = routing_named(tech, word.bytes()) else {
            return Ok(word.refuse(Code::E06));
        };
        if number <= self.progress.number {
            return Ok(word.refuse(Code::E12));
        }
        self.takes_pair(word, Some(number))
    }
}
