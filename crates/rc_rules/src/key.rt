//! What a token of a rule file is among the keywords.

ghost use Rattle.std.specs.Prelude.{◌≡◌, unwrap_or};
ghost use Rattle.std.specs.Map.{lookup};
ghost use Rattle.std.specs.Str.{bytes_eq};
ghost use Rattle.rc_keys.specs.KeyWords.{rule_words};
ghost use Rattle.rc_rules.specs.Keys.{rule_keys as keys_of_words, key_of, is_mark as is_mark_key, is_quoted as is_quoted_key, is_name as is_name_key};

use rc_keys::{KeyTable, Kind, Lexeme, RULE_KEYS, find_key, rule_keys};
use std::marker::Model;

/// What a token is among the keywords.
#[derive(Clone, Copy, Debug, PartialEq, Eq)]
pub enum Key {
    Semicolon,
    Open,
    Close,
    Plus,
    Minus,
    RcxRules,
    Via,
    Contact,
    End,
    Rules,
    Layer,
    Widths,
    Dists,
    Res,
    Table,
    Under,
    Over,
    /// The word `NONE`.
    Nothing,
    Row,
    /// A quoted token.
    Quoted,
    /// A word that is no keyword.
    Other,
}

/// The keys of the keywords, by their numbers.
const KEYS: [Key; RULE_KEYS] = [
    Key::Semicolon,
    Key::Open,
    Key::Close,
    Key::Plus,
    Key::Minus,
    Key::RcxRules,
    Key::Via,
    Key::Contact,
    Key::End,
    Key::Rules,
    Key::Layer,
    Key::Widths,
    Key::Dists,
    Key::Res,
    Key::Table,
    Key::Under,
    Key::Over,
    Key::Nothing,
    Key::Row,
];

/// The key of a keyword.
fn keyword(table: &KeyTable<RULE_KEYS>, word: &[u8]) -> Option<Key>
    requires { table.now ≡ rule_words }
    ensures { result ≡ lookup (bytes_eq word.now) keys_of_words }
{
    find_key(table, &KEYS, word)
}

/// The keywords of rule files.
#[derive(Debug, Drop)]
pub struct Keys {
    table: KeyTable<RULE_KEYS>,
}

impl Model for Keys {
    ghost use Rattle.std.specs.Prelude.{ℕ, ◌≡◌};
    ghost use Rattle.rc_keys.specs.KeyWords.{rule_words};

    ghost Value = { ℕ };

    ghost view = { λ _. 0 };

    ghost invariant = { λ keys. keys.table ≡ rule_words };
}

impl Keys {
    /// The keywords of rule files.
    pub fn new() -> Keys {
        Keys { table: rule_keys() }
    }

    /// What a token is among them.
    #[tactic(auto, unfolding(crate::specs::Keys::key_of))]
    pub fn key(&self, word: &Lexeme<'_>) -> Key
        ensures { result ≡ key_of word.now }
    {
        match word.kind() {
            Kind::Quoted => Key::Quoted,
            Kind::Word => match keyword(&self.table, word.bytes()) {
                Some(key) => key,
                None => Key::Other,
            },
        }
    }
}

impl Key {
    /// Whether it is one of the five marks.
    pub fn is_mark(self) -> bool
        ensures { result ≡ is_mark_key self }
    {
        matches!(
            self,
            Key::Semicolon | Key::Open | Key::Close | Key::Plus | Key::Minus
        )
    }

    /// Whether it is a quoted token.
    pub fn is_quoted(self) -> bool
        ensures { result ≡ is_quoted_key self }
    {
        matches!(self, Key::Quoted)
    }

    /// Whether it can be a name: a word that is no mark.
    pub fn is_name(self) -> bool
        ensures { result ≡ is_name_key self }
    {
        !self.is_mark() && !self.is_quoted()
    }
}
