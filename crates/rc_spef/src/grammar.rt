//! The rows as a grammar.

ghost use Rattle.std.specs.Prelude.{◌≡◌, IfOk};
ghost use Rattle.rc_keys.specs.Course.{Turned};
ghost use Rattle.rc_spef.specs.Keys.{key_of};
ghost use Rattle.rc_spef.specs.Rows.{row_in};

use crate::key::{Key, Keys};
use crate::state::{Row, State};
use rc_fixed::NoMemory;
use rc_keys::{Grammar, Lexeme, Turn};
use std::alloc::Global;

/// What reading a SPEF text takes as given: an allocator and the keywords.
#[derive(Drop)]
pub struct Given<'a> {
    pub alloc: Global,
    pub keys: &'a Keys,
}

impl<'a> Given<'a> {
    /// What a token is among the keywords.
    fn key(&self, word: &Lexeme<'_>) -> Key
        ensures { result ≡ key_of word.now }
    {
        self.keys.key(word)
    }
}

impl State {
    /// A token, by the row that reads it.
    fn row(&mut self, given: &Given<'_>, word: &Lexeme<'_>) -> Result<Turn, NoMemory>
        ensures { IfOk result (λ turn. Turned turn self.new (row_in self.old.row self.old word.now)) }
    {
        match self.row {
            Row::Begin => Ok(self.begin_row(given.key(word), word)),
            Row::Version => Ok(self.version_row(given.key(word), word)),
            Row::Header => self.header_row(given.alloc, given.key(word), word),
            Row::Design => self.design_row(given.alloc, given.key(word), word),
            Row::Quoted => Ok(self.quoted_row(given.key(word), word)),
            Row::Flow => Ok(self.flow_row(given.key(word), word)),
            Row::Flows => self.flows_row(given.alloc, given.key(word), word),
            Row::Divider => Ok(self.divider_row(given.key(word), word)),
            Row::Delimiter => Ok(self.delimiter_row(given.key(word), word)),
            Row::BusLeft => Ok(self.bus_left_row(given.key(word), word)),
            Row::BusRight => Ok(self.bus_right_row(given.key(word), word)),
            Row::OtherNumber => Ok(self.number_row(Row::OtherUnit, word)),
            Row::OtherUnit => Ok(self.other_unit_row(given.key(word), word)),
            Row::CapNumber => Ok(self.number_row(Row::CapUnit, word)),
            Row::CapUnit => Ok(self.cap_unit_row(given.key(word), word)),
            Row::ResNumber => Ok(self.number_row(Row::ResUnit, word)),
            Row::ResUnit => Ok(self.res_unit_row(given.key(word), word)),
            Row::Names => self.names_row(given.alloc, given.key(word), word),
            Row::Name => self.name_row(given.alloc, given.key(word), word),
            Row::Ports => Ok(self.ports_row(given.keys, given.key(word), word)),
            Row::PortDirection => self.port_direction_row(given.key(word), word),
            Row::PortTail => Ok(self.port_tail_row(given.keys, given.key(word), word)),
            Row::FirstCoordinate => Ok(self.first_coordinate_row(given.key(word))),
            Row::SecondCoordinate => Ok(self.passed_row(given.key(word))),
            Row::Load => Ok(self.passed_row(given.key(word))),
            Row::Cell => self.cell_row(given.alloc, given.key(word), word),
            Row::Nets => Ok(self.nets_row(given.key(word), word)),
            Row::NetName => Ok(self.net_name_row(given.alloc, given.keys, word)),
            Row::NetTotal => Ok(self.net_total_row(word)),
            Row::NetTail => self.net_tail_row(given.alloc, given.key(word), word),
            Row::Confidence => Ok(self.passed_row(given.key(word))),
            Row::Sections => self.sections_row(given.alloc, given.key(word), word),
            Row::Conns => self.conns_row(given.alloc, given.key(word), word),
            Row::ConnEnd => self.conn_end_row(given.alloc, given.keys, word),
            Row::ConnDirection => self.conn_direction_row(given.key(word), word),
            Row::ConnTail => self.conn_tail_row(given.alloc, given.key(word), word),
            Row::NodeTail => self.conn_tail_row(given.alloc, given.key(word), word),
            Row::Caps => self.caps_row(given.alloc, given.keys, word),
            Row::CapFirst => self.cap_first_row(given.alloc, given.keys, word),
            Row::CapSecond => self.cap_second_row(given.alloc, given.keys, word),
            Row::CapValue => self.cap_value_row(word),
            Row::Resistors => self.resistors_row(given.alloc, given.keys, word),
            Row::ResFirst => self.res_first_row(given.alloc, given.keys, word),
            Row::ResSecond => self.res_second_row(given.alloc, given.keys, word),
            Row::ResValue => self.res_value_row(word),
        }
    }
}

impl<'a> Grammar<Given<'a>> for State {
    ghost use Rattle.rc_spef.specs.Rows.{spef_turn, spef_may_end};

    ghost turn_of = { λ given. spef_turn };

    ghost may_end = { spef_may_end };

    #[tactic(auto, unfolding(crate::specs::Rows::spef_turn))]
    fn advance(&mut self, given: &Given<'a>, word: &Lexeme<'_>) -> Result<Turn, NoMemory> {
        self.row(given, word)
    }

    #[tactic(auto, unfolding(crate::specs::Rows::spef_may_end))]
    fn is_complete(&self) -> bool
        ensures { result ≡ spef_may_end self.now }
    {
        match self.row {
            Row::Header | Row::Flows => self.header.is_complete(),
            Row::Names | Row::Ports | Row::PortTail | Row::Nets => true,
            _ => false,
        }
    }
}
