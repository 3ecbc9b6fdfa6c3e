//! What a token of DEF is among its keywords.

ghost use Rattle.std.specs.Prelude.{◌≡◌};
ghost use Rattle.std.specs.Map.{lookup};
ghost use Rattle.std.specs.Str.{bytes_eq};
ghost use Rattle.rc_keys.specs.KeyWords.{def_words};
ghost use Rattle.rc_wire.specs.Keys.{def_keys as def_keys_of, key_of, is_mark as is_mark_key, is_quoted as is_quoted_key, is_name as is_name_key, is_orientation as is_orientation_key};

use rc_keys::{DEF_KEYS, KeyTable, Kind, Lexeme, def_keys, find_key};
use std::marker::Model;

/// What a token is among the keywords of DEF (LEF/DEF 5.8 Language Reference, chapter 'DEF Syntax').
#[derive(Clone, Copy, Debug, PartialEq, Eq)]
pub enum Key {
    Semicolon,
    Open,
    Close,
    Plus,
    Minus,
    Star,
    Design,
    Units,
    Distance,
    Microns,
    DividerChar,
    BusBitChars,
    End,
    Vias,
    NonDefaultRules,
    Components,
    Pins,
    SpecialNets,
    Nets,
    Regions,
    Groups,
    Blockages,
    Slots,
    Fills,
    ScanChains,
    Styles,
    PinProperties,
    PropertyDefinitions,
    BeginExt,
    EndExt,
    Rect,
    Mask,
    ViaRule,
    CutSize,
    Layers,
    CutSpacing,
    Enclosure,
    RowCol,
    Polygon,
    Origin,
    Offset,
    Pattern,
    Layer,
    Width,
    Placed,
    Fixed,
    Cover,
    N,
    S,
    W,
    E,
    FN,
    FS,
    FW,
    FE,
    Direction,
    Input,
    Output,
    InOut,
    FeedThru,
    Port,
    Spacing,
    DesignRuleWidth,
    Pin,
    Synthesized,
    NonDefaultRule,
    Routed,
    NoShield,
    MustJoin,
    SubNet,
    VPin,
    Use,
    Signal,
    Power,
    Ground,
    Shield,
    Shape,
    Via,
    New,
    Taper,
    TaperRule,
    Style,
    Virtual,
    Do,
    /// A quoted token.
    Quoted,
    /// A word that is no keyword.
    Other,
}

/// The keys of the keywords, by their numbers.
const KEYS: [Key; DEF_KEYS] = [
    Key::Semicolon,
    Key::Open,
    Key::Close,
    Key::Plus,
    Key::Minus,
    Key::Star,
    Key::Design,
    Key::Units,
    Key::Distance,
    Key::Microns,
    Key::DividerChar,
    Key::BusBitChars,
    Key::End,
    Key::Vias,
    Key::NonDefaultRules,
    Key::Components,
    Key::Pins,
    Key::SpecialNets,
    Key::Nets,
    Key::Regions,
    Key::Groups,
    Key::Blockages,
    Key::Slots,
    Key::Fills,
    Key::ScanChains,
    Key::Styles,
    Key::PinProperties,
    Key::PropertyDefinitions,
    Key::BeginExt,
    Key::EndExt,
    Key::Rect,
    Key::Mask,
    Key::ViaRule,
    Key::CutSize,
    Key::Layers,
    Key::CutSpacing,
    Key::Enclosure,
    Key::RowCol,
    Key::Polygon,
    Key::Origin,
    Key::Offset,
    Key::Pattern,
    Key::Layer,
    Key::Width,
    Key::Placed,
    Key::Fixed,
    Key::Cover,
    Key::N,
    Key::S,
    Key::W,
    Key::E,
    Key::FN,
    Key::FS,
    Key::FW,
    Key::FE,
    Key::Direction,
    Key::Input,
    Key::Output,
    Key::InOut,
    Key::FeedThru,
    Key::Port,
    Key::Spacing,
    Key::DesignRuleWidth,
    Key::Pin,
    Key::Synthesized,
    Key::NonDefaultRule,
    Key::Routed,
    Key::NoShield,
    Key::MustJoin,
    Key::SubNet,
    Key::VPin,
    Key::Use,
    Key::Signal,
    Key::Power,
    Key::Ground,
    Key::Shield,
    Key::Shape,
    Key::Via,
    Key::New,
    Key::Taper,
    Key::TaperRule,
    Key::Style,
    Key::Virtual,
    Key::Do,
];

/// The key of a keyword. None where the word is none.
fn keyword(table: &KeyTable<DEF_KEYS>, word: &[u8]) -> Option<Key>
    requires { table.now ≡ def_words }
    ensures { result ≡ lookup (bytes_eq word.now) def_keys_of }
{
    find_key(table, &KEYS, word)
}

/// The keywords of DEF.
#[derive(Debug, Drop)]
pub struct Keys {
    table: KeyTable<DEF_KEYS>,
}

impl Model for Keys {
    ghost use Rattle.std.specs.Prelude.{ℕ, ◌≡◌};
    ghost use Rattle.rc_keys.specs.KeyWords.{def_words};

    ghost Value = { ℕ };

    ghost view = { λ _. 0 };

    ghost invariant = { λ keys. keys.table ≡ def_words };
}

impl Default for Keys {
    fn default() -> Keys {
        Keys::new()
    }
}

impl Keys {
    /// The keywords of DEF.
    pub fn new() -> Keys {
        Keys { table: def_keys() }
    }

    /// What a token is among them.
    #[tactic(auto, unfolding(crate::specs::Keys::key_of))]
    pub fn key(&self, word: &Lexeme<'_>) -> Key
        ensures { result ≡ key_of word.now }
    {
        match word.kind() {
            Kind::Quoted => Key::Quoted,
            Kind::Word => match keyword(&self.table, word.bytes()) {
                Some(key) => key,
                None => Key::Other,
            },
        }
    }
}

impl Key {
    /// Whether it is one of the five marks `;`, `(`, `)`, `+` and `-`.
    pub fn is_mark(self) -> bool
        ensures { result ≡ is_mark_key self }
    {
        matches!(
            self,
            Key::Semicolon | Key::Open | Key::Close | Key::Plus | Key::Minus
        )
    }

    /// Whether it is a quoted token.
    pub fn is_quoted(self) -> bool
        ensures { result ≡ is_quoted_key self }
    {
        matches!(self, Key::Quoted)
    }

    /// Whether it can be a name: a word that is no mark.
    pub fn is_name(self) -> bool
        ensures { result ≡ is_name_key self }
    {
        !self.is_mark() && !self.is_quoted()
    }

    /// Whether it says how something is placed.
    pub fn is_orientation(self) -> bool
        ensures { result ≡ is_orientation_key self }
    {
        matches!(
            self,
            Key::N | Key::S | Key::W | Key::E | Key::FN | Key::FS | Key::FW | Key::FE
        )
    }
}
