//! The rows of a net.

ghost use Rattle.std.specs.Prelude.{◌≡◌, ◌&&◌, not, IfOk, OnOk};
ghost use Rattle.rc_keys.specs.Course.{Turned};
ghost use Rattle.rc_spef.specs.NetRows as rows;

use crate::key::{Key, Keys};
use crate::moves::{end_in, is_quoted, name_in, owned_end, value_in};
use crate::numbers::{begins_star, is_plain};
use crate::state::{ConnKind, Row, State};
use crate::value::{Cap, DNet, End, SpefConn, SpefRes};
use rc_fixed::NoMemory;
use rc_keys::{Code, Lexeme, Turn};
use std::alloc::Global;
use std::mem;

/// Whether a token is a plain number.
fn is_number(word: &Lexeme<'_>) -> bool
    ensures { result ≡ rows.is_number word.now }
{
    !is_quoted(word) && is_plain(word.bytes())
}

/// Whether a token is a word that begins with `*`.
fn is_reference(word: &Lexeme<'_>) -> bool
    ensures { result ≡ rows.is_reference word.now }
{
    !is_quoted(word) && begins_star(word.bytes())
}

/// The end that is told, or none.
fn end_or_none(end: Option<End>) -> End
    ensures { result ≡ rows.end_or_none end }
{
    match end {
        Some(end) => end,
        None => End::none(),
    }
}

impl ConnKind {
    /// Whether it is a die pin.
    fn is_external(self) -> bool
        ensures { result ≡ rows.is_external self }
    {
        matches!(self, ConnKind::External)
    }
}

impl State {
    /// The name of a net is due.
    #[tactic(auto, unfolding(crate::specs::NetRows::net_name_row))]
    pub fn net_name_row(&mut self, alloc: Global, keys: &Keys, word: &Lexeme<'_>) -> Turn
        ensures { Turned result self.new (rows.net_name_row self.old word.now) }
    {
        match name_in(keys, &self.map, word) {
            Ok(name) => {
                self.net = DNet::none(alloc);
                self.net.name = name;
                self.goes(Row::NetTotal)
            }
            Err(code) => word.refuse(code),
        }
    }

    /// The total of a net is due.
    #[tactic(auto, unfolding(crate::specs::NetRows::net_total_row))]
    pub fn net_total_row(&mut self, word: &Lexeme<'_>) -> Turn
        ensures { Turned result self.new (rows.net_total_row self.old word.now) }
    {
        match value_in(self.header.cap_scale, word) {
            Some(total) => {
                self.net.total = total;
                self.done(Row::NetTail)
            }
            None => word.refuse(Code::E05),
        }
    }

    /// A net ends.
    fn net_ends(&mut self, alloc: Global) -> Result<Turn, NoMemory>
        ensures { IfOk result (λ turn. Turned turn self.new (rows.net_ends self.old)) }
    {
        let net = mem::replace(&mut self.net, DNet::none(alloc));
        self.nets.push(net)?;
        Ok(self.done(Row::Nets))
    }

    /// What stands behind the resistors.
    #[tactic(auto, unfolding(crate::specs::NetRows::behind_resistors))]
    fn behind_resistors(
        &mut self,
        alloc: Global,
        key: Key,
        word: &Lexeme<'_>,
    ) -> Result<Turn, NoMemory>
        ensures { IfOk result (λ turn. Turned turn self.new (rows.behind_resistors self.old key word.now)) }
    {
        match key {
            Key::End => self.net_ends(alloc),
            _ => Ok(word.refuse(key.unexpected(word))),
        }
    }

    /// What stands behind the capacitances.
    #[tactic(auto, unfolding(crate::specs::NetRows::behind_caps))]
    fn behind_caps(&mut self, alloc: Global, key: Key, word: &Lexeme<'_>) -> Result<Turn, NoMemory>
        ensures { IfOk result (λ turn. Turned turn self.new (rows.behind_caps self.old key word.now)) }
    {
        match key {
            Key::Res => Ok(self.done(Row::Resistors)),
            _ => self.behind_resistors(alloc, key, word),
        }
    }

    /// What stands behind the connections.
    #[tactic(auto, unfolding(crate::specs::NetRows::behind_conns))]
    fn behind_conns(&mut self, alloc: Global, key: Key, word: &Lexeme<'_>) -> Result<Turn, NoMemory>
        ensures { IfOk result (λ turn. Turned turn self.new (rows.behind_conns self.old key word.now)) }
    {
        match key {
            Key::Cap => Ok(self.done(Row::Caps)),
            _ => self.behind_caps(alloc, key, word),
        }
    }

    /// The sections of a net may stand here.
    #[tactic(auto, unfolding(crate::specs::NetRows::sections_row))]
    pub fn sections_row(
        &mut self,
        alloc: Global,
        key: Key,
        word: &Lexeme<'_>,
    ) -> Result<Turn, NoMemory>
        ensures { IfOk result (λ turn. Turned turn self.new (rows.sections_row self.old key word.now)) }
    {
        match key {
            Key::Conn => Ok(self.done(Row::Conns)),
            _ => self.behind_conns(alloc, key, word),
        }
    }

    /// `*V` may stand here, or the sections of a net.
    #[tactic(auto, unfolding(crate::specs::NetRows::net_tail_row))]
    pub fn net_tail_row(
        &mut self,
        alloc: Global,
        key: Key,
        word: &Lexeme<'_>,
    ) -> Result<Turn, NoMemory>
        ensures { IfOk result (λ turn. Turned turn self.new (rows.net_tail_row self.old key word.now)) }
    {
        match key {
            Key::Confidence => {
                self.back = Row::Sections;
                Ok(self.goes(Row::Confidence))
            }
            _ => self.sections_row(alloc, key, word),
        }
    }

    /// A connection begins.
    fn conn_begins(&mut self, kind: ConnKind, word: &Lexeme<'_>) -> Turn
        ensures { Turned result self.new (rows.conn_begins kind self.old word.now) }
    {
        self.kind = kind;
        self.line = word.line();
        self.goes(Row::ConnEnd)
    }

    /// A connection may stand here.
    #[tactic(auto, unfolding(crate::specs::NetRows::conns_row))]
    pub fn conns_row(
        &mut self,
        alloc: Global,
        key: Key,
        word: &Lexeme<'_>,
    ) -> Result<Turn, NoMemory>
        ensures { IfOk result (λ turn. Turned turn self.new (rows.conns_row self.old key word.now)) }
    {
        match key {
            Key::ExternalConn => Ok(self.conn_begins(ConnKind::External, word)),
            Key::InternalConn => Ok(self.conn_begins(ConnKind::Internal, word)),
            Key::InternalNode => Ok(self.conn_begins(ConnKind::Node, word)),
            _ => self.behind_conns(alloc, key, word),
        }
    }

    /// The end of a connection is known.
    fn end_of_conn(&mut self, end: End) -> Turn
        ensures { Turned result self.new (rows.end_of_conn self.old.kind end self.old) }
    {
        match self.kind {
            ConnKind::Node => self.done(Row::NodeTail),
            ConnKind::External | ConnKind::Internal => {
                self.first = end;
                self.goes(Row::ConnDirection)
            }
        }
    }

    /// The end of a connection is due.
    #[tactic(auto, unfolding(crate::specs::NetRows::conn_end_row))]
    pub fn conn_end_row(
        &mut self,
        alloc: Global,
        keys: &Keys,
        word: &Lexeme<'_>,
    ) -> Result<Turn, NoMemory>
        ensures { IfOk result (λ turn. Turned turn self.new (rows.conn_end_row self.old word.now)) }
    {
        match end_in(keys, &self.map, word) {
            Ok(reference) => {
                let end = owned_end(alloc, reference)?;
                Ok(self.end_of_conn(end))
            }
            Err(code) => Ok(word.refuse(code)),
        }
    }

    /// The direction of a connection is due.
    #[tactic(auto, unfolding(crate::specs::NetRows::conn_direction_row))]
    pub fn conn_direction_row(&mut self, key: Key, word: &Lexeme<'_>) -> Result<Turn, NoMemory>
        ensures { IfOk result (λ turn. Turned turn self.new (rows.conn_direction_row self.old key word.now)) }
    {
        match key.direction() {
            None => Ok(word.refuse(key.unexpected(word))),
            Some(dir) => {
                let end = mem::replace(&mut self.first, End::none());
                self.net.conns.push(SpefConn {
                    port: self.kind.is_external(),
                    end,
                    dir,
                    cell: None,
                })?;
                Ok(self.done(Row::ConnTail))
            }
        }
    }

    /// An attribute of a connection may stand here, or the next connection.
    #[tactic(auto, unfolding(crate::specs::NetRows::conn_tail_row))]
    pub fn conn_tail_row(
        &mut self,
        alloc: Global,
        key: Key,
        word: &Lexeme<'_>,
    ) -> Result<Turn, NoMemory>
        ensures { IfOk result (λ turn. Turned turn self.new (rows.conn_tail_row self.old key word.now)) }
    {
        match self.attribute(key) {
            Some(turn) => Ok(turn),
            None => self.conns_row(alloc, key, word),
        }
    }

    /// A capacitance may stand here.
    #[tactic(auto, unfolding(crate::specs::NetRows::caps_row))]
    pub fn caps_row(
        &mut self,
        alloc: Global,
        keys: &Keys,
        word: &Lexeme<'_>,
    ) -> Result<Turn, NoMemory>
        ensures { IfOk result (λ turn. Turned turn self.new (rows.caps_row self.old word.now)) }
    {
        if is_number(word) {
            return Ok(self.goes(Row::CapFirst));
        }
        self.behind_caps(alloc, keys.key(word), word)
    }

    /// The first end of a capacitance is due.
    #[tactic(auto, unfolding(crate::specs::NetRows::cap_first_row))]
    pub fn cap_first_row(
        &mut self,
        alloc: Global,
        keys: &Keys,
        word: &Lexeme<'_>,
    ) -> Result<Turn, NoMemory>
        ensures { IfOk result (λ turn. Turned turn self.new (rows.cap_first_row self.old word.now)) }
    {
        match end_in(keys, &self.map, word) {
            Ok(reference) => {
                self.first = owned_end(alloc, reference)?;
                Ok(self.goes(Row::CapSecond))
            }
            Err(code) => Ok(word.refuse(code)),
        }
    }

    /// The value of a capacitance is due.
    #[tactic(auto, unfolding(crate::specs::NetRows::cap_value_row))]
    pub fn cap_value_row(&mut self, word: &Lexeme<'_>) -> Result<Turn, NoMemory>
        ensures { IfOk result (λ turn. Turned turn self.new (rows.cap_value_row self.old word.now)) }
    {
        match value_in(self.header.cap_scale, word) {
            Some(value) => {
                let a = mem::replace(&mut self.first, End::none());
                let b = mem::replace(&mut self.second, None);
                self.net.caps.push(Cap { a, b, value })?;
                Ok(self.done(Row::Caps))
            }
            None => Ok(word.refuse(Code::E05)),
        }
    }

    /// The second end of a capacitance is due, or its value.
    #[tactic(auto, unfolding(crate::specs::NetRows::cap_second_row))]
    pub fn cap_second_row(
        &mut self,
        alloc: Global,
        keys: &Keys,
        word: &Lexeme<'_>,
    ) -> Result<Turn, NoMemory>
        ensures { IfOk result (λ turn. Turned turn self.new (rows.cap_second_row self.old word.now)) }
    {
        if !is_reference(word) {
            return self.cap_value_row(word);
        }
        match end_in(keys, &self.map, word) {
            Ok(reference) => {
                self.second = Some(owned_end(alloc, reference)?);
                Ok(self.goes(Row::CapValue))
            }
            Err(code) => Ok(word.refuse(code)),
        }
    }

    /// A resistor may stand here.
    #[tactic(auto, unfolding(crate::specs::NetRows::resistors_row))]
    pub fn resistors_row(
        &mut self,
        alloc: Global,
        keys: &Keys,
        word: &Lexeme<'_>,
    ) -> Result<Turn, NoMemory>
        ensures { IfOk result (λ turn. Turned turn self.new (rows.resistors_row self.old word.now)) }
    {
        if is_number(word) {
            return Ok(self.goes(Row::ResFirst));
        }
        self.behind_resistors(alloc, keys.key(word), word)
    }

    /// The first end of a resistor is due.
    #[tactic(auto, unfolding(crate::specs::NetRows::res_first_row))]
    pub fn res_first_row(
        &mut self,
        alloc: Global,
        keys: &Keys,
        word: &Lexeme<'_>,
    ) -> Result<Turn, NoMemory>
        ensures { IfOk result (λ turn. Turned turn self.new (rows.res_first_row self.old word.now)) }
    {
        match end_in(keys, &self.map, word) {
            Ok(reference) => {
                self.first = owned_end(alloc, reference)?;
                Ok(self.goes(Row::ResSecond))
            }
            Err(code) => Ok(word.refuse(code)),
        }
    }

    /// The second end of a resistor is due.
    #[tactic(auto, unfolding(crate::specs::NetRows::res_second_row))]
    pub fn res_second_row(
        &mut self,
        alloc: Global,
        keys: &Keys,
        word: &Lexeme<'_>,
    ) -> Result<Turn, NoMemory>
        ensures { IfOk result (λ turn. Turned turn self.new (rows.res_second_row self.old word.now)) }
    {
        match end_in(keys, &self.map, word) {
            Ok(reference) => {
                self.second = Some(owned_end(alloc, reference)?);
                Ok(self.goes(Row::ResValue))
            }
            Err(code) => Ok(word.refuse(code)),
        }
    }

    /// The value of a resistor is due.
    #[tactic(auto, unfolding(crate::specs::NetRows::res_value_row))]
    pub fn res_value_row(&mut self, word: &Lexeme<'_>) -> Result<Turn, NoMemory>
        ensures { IfOk result (λ turn. Turned turn self.new (rows.res_value_row self.old word.now)) }
    {
        match value_in(self.header.res_scale, word) {
            Some(value) => {
                let a = mem::replace(&mut self.first, End::none());
                let b = end_or_none(mem::replace(&mut self.second, None));
                self.net.res.push(SpefRes { a, b, value })?;
                Ok(self.done(Row::Resistors))
            }
            None => Ok(word.refuse(Code::E05)),
        }
    }
}
