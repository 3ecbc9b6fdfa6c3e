//! What a token of LEF is among its keywords.

ghost use Rattle.std.specs.Prelude.{◌≡◌};
ghost use Rattle.std.specs.Map.{lookup};
ghost use Rattle.std.specs.Str.{bytes_eq};
ghost use Rattle.rc_keys.specs.KeyWords.{lef_words};
ghost use Rattle.rc_lef.specs.Keys.{lef_keys as lef_keys_of, key_of, is_mark as is_mark_key, is_quoted as is_quoted_key, is_name as is_name_key};

use rc_keys::{KeyTable, Kind, LEF_KEYS, Lexeme, find_key, lef_keys};
use std::marker::Model;

/// What a token is among the keywords.
#[derive(Clone, Copy, Debug, PartialEq, Eq)]
pub enum Key {
    Semicolon,
    Open,
    Close,
    Plus,
    Minus,
    Units,
    Database,
    Microns,
    End,
    Library,
    Layer,
    Type,
    Routing,
    Cut,
    Width,
    Via,
    Default,
    TopOfStackOnly,
    ViaRule,
    CutSize,
    Layers,
    CutSpacing,
    Enclosure,
    RowCol,
    Rect,
    Mask,
    Polygon,
    Origin,
    Offset,
    Pattern,
    NonDefaultRule,
    Spacing,
    Macro,
    Size,
    By,
    Pin,
    Direction,
    Input,
    Output,
    TriState,
    InOut,
    FeedThru,
    Port,
    Iterate,
    Obs,
    Density,
    Timing,
    Site,
    Array,
    PropertyDefinitions,
    BeginExt,
    EndExt,
    /// A quoted token.
    Quoted,
    /// A word that is no keyword.
    Other,
}

/// The keys of the keywords, by their numbers.
pub const KEYS: [Key; LEF_KEYS] = [
    Key::Semicolon,
    Key::Open,
    Key::Close,
    Key::Plus,
    Key::Minus,
    Key::Units,
    Key::Database,
    Key::Microns,
    Key::End,
    Key::Library,
    Key::Layer,
    Key::Type,
    Key::Routing,
    Key::Cut,
    Key::Width,
    Key::Via,
    Key::Default,
    Key::TopOfStackOnly,
    Key::ViaRule,
    Key::CutSize,
    Key::Layers,
    Key::CutSpacing,
    Key::Enclosure,
    Key::RowCol,
    Key::Rect,
    Key::Mask,
    Key::Polygon,
    Key::Origin,
    Key::Offset,
    Key::Pattern,
    Key::NonDefaultRule,
    Key::Spacing,
    Key::Macro,
    Key::Size,
    Key::By,
    Key::Pin,
    Key::Direction,
    Key::Input,
    Key::Output,
    Key::TriState,
    Key::InOut,
    Key::FeedThru,
    Key::Port,
    Key::Iterate,
    Key::Obs,
    Key::Density,
    Key::Timing,
    Key::Site,
    Key::Array,
    Key::PropertyDefinitions,
    Key::BeginExt,
    Key::EndExt,
];

/// The key of a keyword.
fn keyword(table: &KeyTable<LEF_KEYS>, word: &[u8]) -> Option<Key>
    requires { table.now ≡ lef_words }
    ensures { result ≡ lookup (bytes_eq word.now) lef_keys_of }
{
    find_key(table, &KEYS, word)
}

/// The keywords of LEF.
#[derive(Debug, Drop)]
pub struct Keys {
    table: KeyTable<LEF_KEYS>,
}

impl Model for Keys {
    ghost use Rattle.std.specs.Prelude.{ℕ, ◌≡◌};
    ghost use Rattle.rc_keys.specs.KeyWords.{lef_words};

    ghost Value = { ℕ };

    ghost view = { λ _. 0 };

    ghost invariant = { λ keys. keys.table ≡ lef_words };
}

impl Keys {
    /// The keywords of LEF.
    pub fn new() -> Keys {
        Keys { table: lef_keys() }
    }

    /// What a token is among them.
    #[tactic(auto, unfolding(crate::specs::Keys::key_of))]
    pub fn key(&self, word: &Lexeme<'_>) -> Key
        ensures { result ≡ key_of word.now }
    {
        match word.kind() {
            Kind::Quoted => Key::Quoted,
            Kind::Word => match keyword(&self.table, word.bytes()) {
                Some(key) => key,
                None => Key::Other,
            },
        }
    }
}

impl Key {
    /// Whether it is one of the five marks.
    pub fn is_mark(self) -> bool
        ensures { result ≡ is_mark_key self }
    {
        matches!(
            self,
            Key::Semicolon | Key::Open | Key::Close | Key::Plus | Key::Minus
        )
    }

    /// Whether it is a quoted token.
    pub fn is_quoted(self) -> bool
        ensures { result ≡ is_quoted_key self }
    {
        matches!(self, Key::Quoted)
    }

    /// Whether it can be a name: a word that is no mark.
    pub fn is_name(self) -> bool
        ensures { result ≡ is_name_key self }
    {
        !self.is_mark() && !self.is_quoted()
    }
}
