//! What a token of SPEF is among its keywords.

ghost use Rattle.std.specs.Prelude.{◌≡◌};
ghost use Rattle.std.specs.Map.{lookup};
ghost use Rattle.std.specs.Str.{bytes_eq};
ghost use Rattle.rc_keys.specs.KeyWords.{spef_words};
ghost use Rattle.rc_spef.specs.Keys.{spef_keywords, key_of, is_quoted as is_quoted_key, is_left_out as is_left_out_key, unexpected as unexpected_code, opens_block_comment};

use rc_keys::{Code, KeyTable, Kind, Lexeme, SPEF_KEYS, find_key, spef_keys};
use std::marker::Model;

/// What a token is among the keywords.
#[derive(Clone, Copy, Debug, PartialEq, Eq)]
pub enum Key {
    /// `*SPEF`
    Spef,
    /// `*DESIGN`
    Design,
    /// `*DATE`
    Date,
    /// `*VENDOR`
    Vendor,
    /// `*PROGRAM`
    Program,
    /// `*VERSION`
    Version,
    /// `*DESIGN_FLOW`
    DesignFlow,
    /// `*DIVIDER`
    Divider,
    /// `*DELIMITER`
    Delimiter,
    /// `*BUS_DELIMITER`
    BusDelimiter,
    /// `*T_UNIT`
    TimeUnit,
    /// `*C_UNIT`
    CapUnit,
    /// `*R_UNIT`
    ResUnit,
    /// `*L_UNIT`
    InductUnit,
    /// `*NAME_MAP`
    NameMap,
    /// `*PORTS`
    Ports,
    /// `*D_NET`
    DNet,
    /// `*V`
    Confidence,
    /// `*CONN`
    Conn,
    /// `*CAP`
    Cap,
    /// `*RES`
    Res,
    /// `*END`
    End,
    /// `*P`
    ExternalConn,
    /// `*I`
    InternalConn,
    /// `*N`
    InternalNode,
    /// `*C`
    Coordinates,
    /// `*L`
    Load,
    /// `*D`
    DrivingCell,
    /// `*S`
    Slews,
    /// `*R_NET`
    RNet,
    /// `*POWER_NETS`
    PowerNets,
    /// `*GROUND_NETS`
    GroundNets,
    /// `*DEFINE`
    Define,
    /// `*PHYSICAL_PORTS`
    PhysicalPorts,
    /// `*INDUC`
    Induc,
    /// `FF`
    FemtoFarad,
    /// `PF`
    PicoFarad,
    /// `OHM`
    Ohm,
    /// `KOHM`
    KiloOhm,
    /// `:`
    Colon,
    /// `I`
    In,
    /// `O`
    Out,
    /// `B`
    Both,
    /// A quoted token.
    Quoted,
    /// A word that is no keyword.
    Other,
}

/// The keys of the keywords, by their numbers.
const KEYS: [Key; SPEF_KEYS] = [
    Key::Spef,
    Key::Design,
    Key::Date,
    Key::Vendor,
    Key::Program,
    Key::Version,
    Key::DesignFlow,
    Key::Divider,
    Key::Delimiter,
    Key::BusDelimiter,
    Key::TimeUnit,
    Key::CapUnit,
    Key::ResUnit,
    Key::InductUnit,
    Key::NameMap,
    Key::Ports,
    Key::DNet,
    Key::Confidence,
    Key::Conn,
    Key::Cap,
    Key::Res,
    Key::End,
    Key::ExternalConn,
    Key::InternalConn,
    Key::InternalNode,
    Key::Coordinates,
    Key::Load,
    Key::DrivingCell,
    Key::Slews,
    Key::RNet,
    Key::PowerNets,
    Key::GroundNets,
    Key::Define,
    Key::PhysicalPorts,
    Key::Induc,
    Key::FemtoFarad,
    Key::PicoFarad,
    Key::Ohm,
    Key::KiloOhm,
    Key::Colon,
    Key::In,
    Key::Out,
    Key::Both,
];

/// The key of a keyword.
fn keyword(table: &KeyTable<SPEF_KEYS>, word: &[u8]) -> Option<Key>
    requires { table.now ≡ spef_words }
    ensures { result ≡ lookup (bytes_eq word.now) spef_keywords }
{
    find_key(table, &KEYS, word)
}

/// The keywords of SPEF.
#[derive(Debug, Drop)]
pub struct Keys {
    table: KeyTable<SPEF_KEYS>,
}

impl Model for Keys {
    ghost use Rattle.std.specs.Prelude.{ℕ, ◌≡◌};
    ghost use Rattle.rc_keys.specs.KeyWords.{spef_words};

    ghost Value = { ℕ };

    ghost view = { λ _. 0 };

    ghost invariant = { λ keys. keys.table ≡ spef_words };
}

impl Keys {
    /// The keywords of SPEF.
    pub fn new() -> Keys {
        Keys { table: spef_keys() }
    }

    /// What a token is among them.
    #[tactic(auto, unfolding(crate::specs::Keys::key_of))]
    pub fn key(&self, word: &Lexeme<'_>) -> Key
        ensures { result ≡ key_of word.now }
    {
        match word.kind() {
            Kind::Quoted => Key::Quoted,
            Kind::Word => match keyword(&self.table, word.bytes()) {
                Some(key) => key,
                None => Key::Other,
            },
        }
    }
}

/// Whether a word opens a block comment.
fn opens_comment(word: &[u8]) -> bool
    ensures { result ≡ opens_block_comment word.now }
{
    matches!(word, [b'/', b'*', ..])
}

impl Key {
    /// Whether it is a quoted token.
    pub fn is_quoted(self) -> bool
        ensures { result ≡ is_quoted_key self }
    {
        matches!(self, Key::Quoted)
    }

    /// Whether the profile leaves it out by name.
    pub fn is_left_out(self) -> bool
        ensures { result ≡ is_left_out_key self }
    {
        matches!(
            self,
            Key::Slews
                | Key::RNet
                | Key::PowerNets
                | Key::GroundNets
                | Key::Define
                | Key::PhysicalPorts
                | Key::Induc
        )
    }

    /// Why a token of this key doesn't fit where something else is due.
    pub fn unexpected(self, word: &Lexeme<'_>) -> Code
        ensures { result ≡ unexpected_code self word.now }
    {
        if self.is_quoted() {
            return Code::E03;
        }
        if self.is_left_out() || opens_comment(word.bytes()) {
            return Code::E04;
        }
        Code::E03
    }
}
