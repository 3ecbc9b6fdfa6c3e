//! What all rows share: moves, and what tokens say.

ghost use Rattle.std.specs.Prelude.{◌≡◌, IfOk};
ghost use Rattle.rc_fixed.specs.Numeral.{fixed_of};
ghost use Rattle.rc_keys.specs.Course.{Turned};
ghost use Rattle.rc_spef.specs.Moves as moves;
ghost use Rattle.rc_spef.specs.Means.{Means, sub_seen, end_seen};

use crate::key::{Key, Keys};
use crate::name_map::{Behind, NameMap, Reference};
use crate::state::{Row, Scale, State};
use crate::value::{Dir3, End, Sub};
use rc_fixed::{Fixed, NoMemory, Text, parse_fixed};
use rc_keys::{Code, Kind, Lexeme, Refusal, Turn};
use std::alloc::Global;

/// Whether a token is quoted.
pub fn is_quoted(word: &Lexeme<'_>) -> bool
    ensures { result ≡ moves.is_quoted_kind word.now.kind }
{
    match word.kind() {
        Kind::Quoted => true,
        Kind::Word => false,
    }
}

/// The code of a word that isn't what is due: one that is left out by name has its own.
fn told(keys: &Keys, word: &Lexeme<'_>, code: Code) -> Code
    ensures { result ≡ moves.code_of word.now code }
{
    if keys.key(word).is_left_out() {
        Code::E04
    } else {
        code
    }
}

/// The end that a token stands for.
#[tactic(auto, unfolding(crate::specs::Moves::end_read))]
pub fn end_in<'a>(keys: &Keys, map: &NameMap, word: &Lexeme<'a>) -> Result<Reference<'a>, Code>
    ensures { Means end_seen result (moves.end_read map.now word.now) }
{
    if is_quoted(word) {
        return Err(Code::E03);
    }
    match map.end(word.bytes()) {
        Ok(reference) => Ok(reference),
        Err(code) => Err(told(keys, word, code)),
    }
}

/// The name, by its place from 1, that a token stands for.
#[tactic(auto, unfolding(crate::specs::Moves::name_read))]
pub fn name_in(keys: &Keys, map: &NameMap, word: &Lexeme<'_>) -> Result<u32, Code>
    ensures { Means (λ name. name) result (moves.name_read map.now word.now) }
{
    if is_quoted(word) {
        return Err(Code::E03);
    }
    match map.only_name(word.bytes()) {
        Ok(name) => Ok(name),
        Err(code) => Err(told(keys, word, code)),
    }
}

/// The scale that is told, or one.
fn scale_or_one(scale: Option<Scale>) -> Scale
    ensures { result ≡ moves.scale_or_one scale }
{
    match scale {
        Some(scale) => scale,
        None => Scale::One,
    }
}

/// The value that a word stands for.
fn value_of(scale: Scale, word: &[u8]) -> Option<Fixed>
    ensures { result ≡ moves.if_ok (fixed_of (moves.shift_of scale) word.now) }
{
    let value = match scale {
        Scale::One => parse_fixed(word, 0),
        Scale::Thousand => parse_fixed(word, 3),
    };
    match value {
        Ok(value) => Some(value),
        Err(_) => None,
    }
}

/// The value that a token stands for.
#[tactic(auto, unfolding(crate::specs::Moves::value_read))]
pub fn value_in(scale: Option<Scale>, word: &Lexeme<'_>) -> Option<Fixed>
    ensures { result ≡ moves.value_read scale word.now }
{
    if is_quoted(word) {
        return None;
    }
    value_of(scale_or_one(scale), word.bytes())
}

impl Key {
    /// The direction that it stands for.
    pub fn direction(self) -> Option<Dir3>
        ensures { result ≡ moves.direction_of self }
    {
        match self {
            Key::In => Some(Dir3::I),
            Key::Out => Some(Dir3::O),
            Key::Both => Some(Dir3::B),
            _ => None,
        }
    }
}

/// What stands behind the number of a name, in memory of its own.
fn owned_sub(alloc: Global, behind: Behind<'_>) -> Result<Sub, NoMemory>
    ensures { IfOk result (λ sub. sub ≡ sub_seen behind.entry) }
{
    match behind {
        Behind::Bare => Ok(Sub::Bare),
        Behind::Num(number) => Ok(Sub::Num(number)),
        Behind::Word(word) => Ok(Sub::Word(Text::from(alloc, word)?)),
    }
}

/// An end in memory of its own.
pub fn owned_end(alloc: Global, reference: Reference<'_>) -> Result<End, NoMemory>
    ensures { IfOk result (λ end. end ≡ end_seen reference.entry) }
{
    let sub = owned_sub(alloc, reference.sub)?;
    Ok(End {
        name: reference.name,
        sub,
    })
}

impl State {
    /// The statement goes on in a row.
    pub fn goes(&mut self, row: Row) -> Turn
        ensures { Turned result self.new (moves.goes row self.old) }
    {
        self.row = row;
        Turn::More
    }

    /// The statement is complete, and a row goes on.
    pub fn done(&mut self, row: Row) -> Turn
        ensures { Turned result self.new (moves.done row self.old) }
    {
        self.row = row;
        Turn::Done
    }

    /// A token that belongs to an earlier statement is refused at its line.
    pub fn refuse_there(&self, code: Code) -> Turn
        ensures { Turned result self.now (moves.refuse_there code self.now) }
    {
        Turn::Refuse(Refusal::At {
            code,
            line: self.line,
        })
    }
}
