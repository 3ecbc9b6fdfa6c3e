//! The rows of the map of names, of the ports, and of attributes.

ghost use Rattle.std.specs.Prelude.{◌≡◌, ◌&&◌, true, not, OnOk, IfOk, MatchOption};
ghost use Rattle.rc_keys.specs.Course.{Turned, Turn as TurnOf};
ghost use Rattle.rc_spef.specs.Means.{Means};
ghost use Rattle.rc_spef.specs.References.{is_entry as is_entry_word};
ghost use Rattle.rc_spef.specs.NameRows as rows;
ghost use Rattle.rc_spef.specs.declared.state.State.{State as StateOf};

use crate::key::{Key, Keys};
use crate::moves::name_in;
use crate::numbers::{begins_star, is_entry};
use crate::state::{Row, State};
use crate::value::{SpefConn, SpefPort};
use rc_fixed::{List, NoMemory, Text};
use rc_keys::{Code, Lexeme, Turn};
use std::alloc::Global;

/// The name or cell that a token stands for.
fn name_of_word<'a>(key: Key, word: &Lexeme<'a>) -> Result<&'a [u8], Code>
    ensures { Means (λ name. name.now) result (rows.name_of_word key word.now) }
{
    if key.is_quoted() {
        return Err(Code::E03);
    }
    let bytes = word.bytes();
    if begins_star(bytes) {
        return Err(key.unexpected(word));
    }
    Ok(bytes)
}

/// The first of two cells counts.
fn first_cell(cell: Option<Text>, name: Text) -> Option<Text>
    ensures { result ≡ rows.first_cell cell name }
{
    match cell {
        None => Some(name),
        Some(earlier) => Some(earlier),
    }
}

/// Gives the last connection a cell, where it has none yet.
fn with_cell(conns: &mut List<SpefConn>, name: Text) -> Result<(), NoMemory>
    ensures { OnOk result (conns.new ≡ rows.with_cell conns.old name) }
{
    let Some(conn) = conns.pop() else {
        return Ok(());
    };
    let cell = first_cell(conn.cell, name);
    conns.push(SpefConn {
        port: conn.port,
        end: conn.end,
        dir: conn.dir,
        cell,
    })
}

impl State {
    /// An entry of the map of names begins.
    #[tactic(auto, unfolding(crate::specs::NameRows::entry_row))]
    fn entry_row(&mut self, alloc: Global, word: &Lexeme<'_>) -> Result<Turn, NoMemory>
        requires { is_entry_word word.now.bytes ≡ true }
        ensures { IfOk result (λ turn. Turned turn self.new (rows.entry_row self.old word.now)) }
    {
        let digits = &word.bytes()[1..];
        if self.map.has(digits) {
            return Ok(word.refuse(Code::E07));
        }
        self.map.push(alloc, digits)?;
        Ok(self.goes(Row::Name))
    }

    /// An entry of the map of names may stand here.
    #[tactic(auto, unfolding(crate::specs::NameRows::names_row))]
    pub fn names_row(
        &mut self,
        alloc: Global,
        key: Key,
        word: &Lexeme<'_>,
    ) -> Result<Turn, NoMemory>
        ensures { IfOk result (λ turn. Turned turn self.new (rows.names_row self.old key word.now)) }
    {
        if !key.is_quoted() && is_entry(word.bytes()) {
            return self.entry_row(alloc, word);
        }
        Ok(self.behind_names(key, word))
    }

    /// The name of an entry is due.
    #[tactic(auto, unfolding(crate::specs::NameRows::name_row))]
    pub fn name_row(&mut self, alloc: Global, key: Key, word: &Lexeme<'_>) -> Result<Turn, NoMemory>
        ensures { IfOk result (λ turn. Turned turn self.new (rows.name_row self.old key word.now)) }
    {
        match name_of_word(key, word) {
            Ok(name) => {
                let name = Text::from(alloc, name)?;
                self.names.push(name)?;
                Ok(self.done(Row::Names))
            }
            Err(code) => Ok(word.refuse(code)),
        }
    }

    /// A port may stand here.
    #[tactic(auto, unfolding(crate::specs::NameRows::ports_row))]
    pub fn ports_row(&mut self, keys: &Keys, key: Key, word: &Lexeme<'_>) -> Turn
        ensures { Turned result self.new (rows.ports_row self.old key word.now) }
    {
        if let Key::DNet = key {
            return self.net_begins(word);
        }
        match name_in(keys, &self.map, word) {
            Ok(name) => {
                self.name = name;
                self.line = word.line();
                self.goes(Row::PortDirection)
            }
            Err(code) => word.refuse(code),
        }
    }

    /// The direction of a port is due.
    #[tactic(auto, unfolding(crate::specs::NameRows::port_direction_row))]
    pub fn port_direction_row(&mut self, key: Key, word: &Lexeme<'_>) -> Result<Turn, NoMemory>
        ensures { IfOk result (λ turn. Turned turn self.new (rows.port_direction_row self.old key word.now)) }
    {
        match key.direction() {
            None => Ok(word.refuse(key.unexpected(word))),
            Some(dir) => {
                self.ports.push(SpefPort {
                    name: self.name,
                    dir,
                })?;
                Ok(self.done(Row::PortTail))
            }
        }
    }

    /// An attribute begins, and behind it the row goes on that stands now. None where none begins.
    pub fn attribute(&mut self, key: Key) -> Option<Turn>
        ensures { MatchOption result ((self.new ≡ self.old) × ((other : TurnOf StateOf) → rows.or_attribute self.old key other ≡ other)) (λ turn. (other : TurnOf StateOf) → Turned turn self.new (rows.or_attribute self.old key other)) }
    {
        let row = match key {
            Key::Coordinates => Row::FirstCoordinate,
            Key::Load => Row::Load,
            Key::DrivingCell => Row::Cell,
            Key::Slews => return Some(self.refuse_there(Code::E04)),
            _ => return None,
        };
        self.back = self.row;
        Some(self.goes(row))
    }

    /// An attribute of a port may stand here, or the next port.
    #[tactic(auto, unfolding(crate::specs::NameRows::port_tail_row))]
    pub fn port_tail_row(&mut self, keys: &Keys, key: Key, word: &Lexeme<'_>) -> Turn
        ensures { Turned result self.new (rows.port_tail_row self.old key word.now) }
    {
        match self.attribute(key) {
            Some(turn) => turn,
            None => self.ports_row(keys, key, word),
        }
    }

    /// The first coordinate of an attribute is due.
    #[tactic(auto, unfolding(crate::specs::NameRows::first_coordinate_row))]
    pub fn first_coordinate_row(&mut self, key: Key) -> Turn
        ensures { Turned result self.new (rows.first_coordinate_row self.old key) }
    {
        match key {
            Key::Quoted => self.refuse_there(Code::E03),
            _ => self.goes(Row::SecondCoordinate),
        }
    }

    /// The last token of an attribute that is passed over is due.
    #[tactic(auto, unfolding(crate::specs::NameRows::passed_row))]
    pub fn passed_row(&mut self, key: Key) -> Turn
        ensures { Turned result self.new (rows.passed_row self.old key) }
    {
        match key {
            Key::Quoted => self.refuse_there(Code::E03),
            _ => self.done(self.back),
        }
    }

    /// Keeps the cell of a connection.
    fn keep_cell(&mut self, alloc: Global, name: &[u8]) -> Result<(), NoMemory>
        ensures { OnOk result (self.new ≡ rows.cell_kept self.old name.now) }
    {
        if !matches!(self.back, Row::ConnTail) {
            return Ok(());
        }
        let name = Text::from(alloc, name)?;
        with_cell(&mut self.net.conns, name)
    }

    /// The cell of an attribute is due.
    #[tactic(auto, unfolding(crate::specs::NameRows::cell_row))]
    pub fn cell_row(&mut self, alloc: Global, key: Key, word: &Lexeme<'_>) -> Result<Turn, NoMemory>
        ensures { IfOk result (λ turn. Turned turn self.new (rows.cell_row self.old key word.now)) }
    {
        match name_of_word(key, word) {
            Ok(name) => {
                self.keep_cell(alloc, name)?;
                Ok(self.done(self.back))
            }
            Err(code) => Ok(self.refuse_there(code)),
        }
    }
}
