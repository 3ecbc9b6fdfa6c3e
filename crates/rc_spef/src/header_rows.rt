//! The rows of the header.

ghost use Rattle.std.specs.Prelude.{◌≡◌, ◌&&◌, ◌==◌, not, length, is_some, IfOk};
ghost use Rattle.std.specs.List.{list_any};
ghost use Rattle.std.specs.Str.{bytes_eq};
ghost use Rattle.rc_keys.specs.Course.{Turned};
ghost use Rattle.rc_spef.specs.HeaderRows as rows;

use crate::key::Key;
use crate::moves::value_in;
use crate::state::{Header, Row, Scale, State};
use rc_fixed::{Fixed, NoMemory, Text};
use rc_keys::{Code, Lexeme, Turn};
use std::alloc::Global;

/// Whether a word is among these.
fn is_among(word: &[u8], words: &[Text]) -> bool
    ensures { result ≡ list_any (bytes_eq word.now) words.now }
{
    words.iter().any(|other| word == other.bytes())
}

/// Whether a token is a word of so many bytes.
fn has_bytes(count: usize, key: Key, word: &Lexeme<'_>) -> bool
    ensures { result ≡ rows.has_bytes count key word.now }
{
    !key.is_quoted() && word.bytes().len() == count
}

/// Whether a value is 1.
fn is_one(value: Option<Fixed>) -> bool
    ensures { result ≡ rows.is_one value }
{
    match value {
        None => false,
        Some(value) => value.0 == 1_000_000_000_000_000,
    }
}

impl Key {
    /// Whether it may stand behind a header.
    fn is_part(self) -> bool
        ensures { result ≡ rows.is_part self }
    {
        matches!(self, Key::NameMap | Key::Ports | Key::DNet)
    }
}

impl Header {
    /// Whether it lacks no required word.
    pub fn is_complete(&self) -> bool
        ensures { result ≡ rows.is_complete self.now }
    {
        self.design.is_some() && self.cap_scale.is_some() && self.res_scale.is_some()
    }
}

impl State {
    /// `*SPEF` is due.
    #[tactic(auto, unfolding(crate::specs::HeaderRows::begin_row))]
    pub fn begin_row(&mut self, key: Key, word: &Lexeme<'_>) -> Turn
        ensures { Turned result self.new (rows.begin_row self.old key word.now) }
    {
        match key {
            Key::Spef => self.goes(Row::Version),
            _ => word.refuse(Code::E03),
        }
    }

    /// The quoted version of the standard is due.
    #[tactic(auto, unfolding(crate::specs::HeaderRows::version_row))]
    pub fn version_row(&mut self, key: Key, word: &Lexeme<'_>) -> Turn
        ensures { Turned result self.new (rows.version_row self.old key word.now) }
    {
        match key {
            Key::Quoted => self.done(Row::Header),
            _ => word.refuse(Code::E03),
        }
    }

    /// A net begins.
    pub fn net_begins(&mut self, word: &Lexeme<'_>) -> Turn
        ensures { Turned result self.new (rows.net_begins self.old word.now) }
    {
        self.line = word.line();
        self.goes(Row::NetName)
    }

    /// A net may stand here.
    #[tactic(auto, unfolding(crate::specs::HeaderRows::nets_row))]
    pub fn nets_row(&mut self, key: Key, word: &Lexeme<'_>) -> Turn
        ensures { Turned result self.new (rows.nets_row self.old key word.now) }
    {
        match key {
            Key::DNet => self.net_begins(word),
            _ => word.refuse(key.unexpected(word)),
        }
    }

    /// What stands behind the map of names.
    #[tactic(auto, unfolding(crate::specs::HeaderRows::behind_names))]
    pub fn behind_names(&mut self, key: Key, word: &Lexeme<'_>) -> Turn
        ensures { Turned result self.new (rows.behind_names self.old key word.now) }
    {
        match key {
            Key::Ports => self.done(Row::Ports),
            _ => self.nets_row(key, word),
        }
    }

    /// What stands behind the header.
    #[tactic(auto, unfolding(crate::specs::HeaderRows::behind_header))]
    fn behind_header(&mut self, key: Key, word: &Lexeme<'_>) -> Turn
        ensures { Turned result self.new (rows.behind_header self.old key word.now) }
    {
        match key {
            Key::NameMap => self.done(Row::Names),
            _ => self.behind_names(key, word),
        }
    }

    /// The header ends. Where it lacks a required word, the statement behind it is refused.
    #[tactic(auto, unfolding(crate::specs::HeaderRows::header_ends))]
    fn header_ends(&mut self, key: Key, word: &Lexeme<'_>) -> Turn
        ensures { Turned result self.new (rows.header_ends self.old key word.now) }
    {
        if key.is_part() && !self.header.is_complete() {
            return word.refuse(Code::E16);
        }
        self.behind_header(key, word)
    }

    /// A word of the header, which stands once.
    #[tactic(auto, unfolding(crate::specs::HeaderRows::header_word))]
    fn header_word(&mut self, alloc: Global, row: Row, word: &Lexeme<'_>) -> Result<Turn, NoMemory>
        ensures { IfOk result (λ turn. Turned turn self.new (rows.header_word row self.old word.now)) }
    {
        if is_among(word.bytes(), self.header.seen.items()) {
            return Ok(word.refuse(Code::E07));
        }
        let seen = Text::from(alloc, word.bytes())?;
        self.header.seen.push(seen)?;
        Ok(self.goes(row))
    }

    /// A word of the header may stand here, or what follows the header.
    #[tactic(auto, unfolding(crate::specs::HeaderRows::header_row))]
    pub fn header_row(
        &mut self,
        alloc: Global,
        key: Key,
        word: &Lexeme<'_>,
    ) -> Result<Turn, NoMemory>
        ensures { IfOk result (λ turn. Turned turn self.new (rows.header_row self.old key word.now)) }
    {
        let row = match key {
            Key::Design => Row::Design,
            Key::Date | Key::Vendor | Key::Program | Key::Version => Row::Quoted,
            Key::DesignFlow => Row::Flow,
            Key::Divider => Row::Divider,
            Key::Delimiter => Row::Delimiter,
            Key::BusDelimiter => Row::BusLeft,
            Key::TimeUnit | Key::InductUnit => Row::OtherNumber,
            Key::CapUnit => Row::CapNumber,
            Key::ResUnit => Row::ResNumber,
            _ => return Ok(self.header_ends(key, word)),
        };
        self.header_word(alloc, row, word)
    }

    /// The quoted design is due.
    #[tactic(auto, unfolding(crate::specs::HeaderRows::design_row))]
    pub fn design_row(
        &mut self,
        alloc: Global,
        key: Key,
        word: &Lexeme<'_>,
    ) -> Result<Turn, NoMemory>
        ensures { IfOk result (λ turn. Turned turn self.new (rows.design_row self.old key word.now)) }
    {
        match key {
            Key::Quoted => {
                self.header.design = Some(Text::from(alloc, word.bytes())?);
                Ok(self.done(Row::Header))
            }
            _ => Ok(word.refuse(Code::E03)),
        }
    }

    /// A quoted token of the header is due.
    #[tactic(auto, unfolding(crate::specs::HeaderRows::quoted_row))]
    pub fn quoted_row(&mut self, key: Key, word: &Lexeme<'_>) -> Turn
        ensures { Turned result self.new (rows.quoted_row self.old key word.now) }
    {
        match key {
            Key::Quoted => self.done(Row::Header),
            _ => word.refuse(Code::E03),
        }
    }

    /// The first quoted token of a design flow is due.
    #[tactic(auto, unfolding(crate::specs::HeaderRows::flow_row))]
    pub fn flow_row(&mut self, key: Key, word: &Lexeme<'_>) -> Turn
        ensures { Turned result self.new (rows.flow_row self.old key word.now) }
    {
        match key {
            Key::Quoted => self.done(Row::Flows),
            _ => word.refuse(Code::E03),
        }
    }

    /// Further quoted tokens of a design flow may stand here.
    #[tactic(auto, unfolding(crate::specs::HeaderRows::flows_row))]
    pub fn flows_row(
        &mut self,
        alloc: Global,
        key: Key,
        word: &Lexeme<'_>,
    ) -> Result<Turn, NoMemory>
        ensures { IfOk result (λ turn. Turned turn self.new (rows.flows_row self.old key word.now)) }
    {
        match key {
            Key::Quoted => Ok(Turn::Done),
            _ => self.header_row(alloc, key, word),
        }
    }

    /// The byte between the levels of a name is due.
    #[tactic(auto, unfolding(crate::specs::HeaderRows::divider_row))]
    pub fn divider_row(&mut self, key: Key, word: &Lexeme<'_>) -> Turn
        ensures { Turned result self.new (rows.divider_row self.old key word.now) }
    {
        if !has_bytes(1, key, word) {
            return word.refuse(Code::E03);
        }
        self.header.divider = word.bytes()[0];
        self.done(Row::Header)
    }

    /// `:` is due.
    #[tactic(auto, unfolding(crate::specs::HeaderRows::delimiter_row))]
    pub fn delimiter_row(&mut self, key: Key, word: &Lexeme<'_>) -> Turn
        ensures { Turned result self.new (rows.delimiter_row self.old key word.now) }
    {
        match key {
            Key::Colon => self.done(Row::Header),
            _ => word.refuse(Code::E04),
        }
    }

    /// The bytes around a bit's number are due, in one word or two.
    #[tactic(auto, unfolding(crate::specs::HeaderRows::bus_left_row))]
    pub fn bus_left_row(&mut self, key: Key, word: &Lexeme<'_>) -> Turn
        ensures { Turned result self.new (rows.bus_left_row self.old key word.now) }
    {
        if has_bytes(2, key, word) {
            self.header.bus_left = word.bytes()[0];
            self.header.bus_right = word.bytes()[1];
            return self.done(Row::Header);
        }
        if !has_bytes(1, key, word) {
            return word.refuse(Code::E03);
        }
        self.header.bus_left = word.bytes()[0];
        self.goes(Row::BusRight)
    }

    /// The byte behind a bit's number is due.
    #[tactic(auto, unfolding(crate::specs::HeaderRows::bus_right_row))]
    pub fn bus_right_row(&mut self, key: Key, word: &Lexeme<'_>) -> Turn
        ensures { Turned result self.new (rows.bus_right_row self.old key word.now) }
    {
        if !has_bytes(1, key, word) {
            return word.refuse(Code::E03);
        }
        self.header.bus_right = word.bytes()[0];
        self.done(Row::Header)
    }

    /// The number of a unit is due, which is 1.
    #[tactic(auto, unfolding(crate::specs::HeaderRows::number_row))]
    pub fn number_row(&mut self, row: Row, word: &Lexeme<'_>) -> Turn
        ensures { Turned result self.new (rows.number_row row self.old word.now) }
    {
        if is_one(value_in(None, word)) {
            self.goes(row)
        } else {
            word.refuse(Code::E04)
        }
    }

    /// The word of a unit that doesn't count is due.
    #[tactic(auto, unfolding(crate::specs::HeaderRows::other_unit_row))]
    pub fn other_unit_row(&mut self, key: Key, word: &Lexeme<'_>) -> Turn
        ensures { Turned result self.new (rows.other_unit_row self.old key word.now) }
    {
        match key {
            Key::Quoted => word.refuse(Code::E04),
            _ => self.done(Row::Header),
        }
    }

    /// The word of the unit of capacitance is due.
    #[tactic(auto, unfolding(crate::specs::HeaderRows::cap_unit_row))]
    pub fn cap_unit_row(&mut self, key: Key, word: &Lexeme<'_>) -> Turn
        ensures { Turned result self.new (rows.cap_unit_row self.old key word.now) }
    {
        let scale = match key {
            Key::FemtoFarad => Scale::One,
            Key::PicoFarad => Scale::Thousand,
            _ => return word.refuse(Code::E04),
        };
        self.header.cap_scale = Some(scale);
        self.done(Row::Header)
    }

    /// The word of the unit of resistance is due.
    #[tactic(auto, unfolding(crate::specs::HeaderRows::res_unit_row))]
    pub fn res_unit_row(&mut self, key: Key, word: &Lexeme<'_>) -> Turn
        ensures { Turned result self.new (rows.res_unit_row self.old key word.now) }
    {
        let scale = match key {
            Key::Ohm => Scale::One,
            Key::KiloOhm => Scale::Thousand,
            _ => return word.refuse(Code::E04),
        };
        self.header.res_scale = Some(scale);
        self.done(Row::Header)
    }
}
