//! What the parts of an item say.

ghost use Rattle.std.specs.Prelude.{◌≡◌, [], OnOk, IfOk};
ghost use Rattle.rc_wire.specs.Parts as parts;

use crate::key::Key;
use crate::part::Part;
use rc_fixed::{List, NoMemory, Text, parse_whole};
use rc_geom::Pt;
use rc_keys::{Code, Lexeme};
use std::alloc::Global;
use std::mem;

/// What the parts of an item say so far: up to three names, numbers, the extension of a point, the keyword that was
/// chosen, the point before it, which `*` refers to, and the line of its statement.
#[derive(Debug, Drop)]
pub struct Operands {
    pub name: Text,
    pub second: Text,
    pub third: Text,
    pub numbers: List<i32>,
    pub extension: Option<i32>,
    pub chosen: Key,
    pub last: Option<Pt>,
    pub line: u32,
}

/// The whole number that a token is.
fn number_of(key: Key, word: &Lexeme<'_>) -> Option<i32>
    ensures { result ≡ parts.number_of key word.now.bytes }
{
    if key.is_quoted() {
        return None;
    }
    parse_whole(word.bytes())
}

/// A number from 0 on.
fn at_least_0(number: Option<i32>) -> Option<i32>
    ensures { result ≡ parts.within parts.is_at_least_0 number }
{
    match number {
        Some(z) => { if z < 0 { None } else { Some(z) } }
        None => None,
    }
}

/// A number above 0.
fn above_0(number: Option<i32>) -> Option<i32>
    ensures { result ≡ parts.within parts.is_above_0 number }
{
    match number {
        Some(z) => { if 0 < z { Some(z) } else { None } }
        None => None,
    }
}

/// A number from 1 to 1024.
fn up_to_1024(number: Option<i32>) -> Option<i32>
    ensures { result ≡ parts.within parts.is_up_to_1024 number }
{
    match number {
        Some(z) => { if 0 < z && z < 1025 { Some(z) } else { None } }
        None => None,
    }
}

/// Whether it is one of the dividers of names.
#[tactic(auto, unfolding(crate::specs::Parts::is_divider))]
fn is_divider(text: &[u8]) -> bool
    ensures { result ≡ parts.is_divider text.now }
{
    matches!(text, b"/" | b"." | b"|")
}

/// Whether it is one of the pairs that a bit's number stands in.
#[tactic(auto, unfolding(crate::specs::Parts::is_bus))]
fn is_bus(text: &[u8]) -> bool
    ensures { result ≡ parts.is_bus text.now }
{
    matches!(text, b"[]" | b"{}" | b"<>" | b"()")
}

/// The text has no bytes from then on.
fn empties(alloc: Global, text: &mut Text)
    ensures { text.new ≡ [] }
{
    if !text.bytes().is_empty() {
        *text = Text::new(alloc);
    }
}

impl Operands {
    /// Nothing is said.
    pub fn new(alloc: Global) -> Operands
        ensures { result ≡ parts.nothing }
    {
        Operands {
            name: Text::new(alloc),
            second: Text::new(alloc),
            third: Text::new(alloc),
            numbers: List::new(alloc),
            extension: None,
            chosen: Key::Other,
            last: None,
            line: 0,
        }
    }

    /// Nothing is said any more. The memory of numbers stays.
    pub fn clear(&mut self, alloc: Global)
        ensures { self.new ≡ parts.nothing }
    {
        empties(alloc, &mut self.name);
        empties(alloc, &mut self.second);
        empties(alloc, &mut self.third);
        self.numbers.clear();
        self.extension = None;
        self.chosen = Key::Other;
        self.last = None;
        self.line = 0;
    }

    /// The number is the next one.
    fn with_number(&mut self, number: Option<i32>) -> Result<Result<(), Code>, NoMemory>
        ensures { IfOk result (λ taken. parts.Took taken self.new (parts.with_number self.old number)) }
    {
        match number {
            Some(z) => {
                self.numbers.push(z)?;
                Ok(Ok(()))
            }
            None => Ok(Err(Code::E05)),
        }
    }

    /// The number is the extension.
    fn with_extension(&mut self, number: Option<i32>) -> Result<(), Code>
        ensures { parts.Took result self.new (parts.with_extension self.old number) }
    {
        match number {
            Some(z) => {
                self.extension = Some(z);
                Ok(())
            }
            None => Err(Code::E05),
        }
    }

    /// A coordinate, which may be that of the last point.
    fn with_coordinate(
        &mut self,
        last: Option<i32>,
        key: Key,
        word: &Lexeme<'_>,
    ) -> Result<Result<(), Code>, NoMemory>
        ensures { IfOk result (λ taken. parts.Took taken self.new (parts.with_coordinate self.old last key word.now.bytes)) }
    {
        match key {
            Key::Star => match last {
                Some(z) => self.with_number(Some(z)),
                None => Ok(Err(Code::E03)),
            },
            _ => self.with_number(number_of(key, word)),
        }
    }

    /// The x of the last point.
    fn last_x(&self) -> Option<i32>
        ensures { result ≡ parts.last_x self.now }
    {
        match self.last {
            Some(p) => Some(p.x),
            None => None,
        }
    }

    /// The y of the last point.
    fn last_y(&self) -> Option<i32>
        ensures { result ≡ parts.last_y self.now }
    {
        match self.last {
            Some(p) => Some(p.y),
            None => None,
        }
    }

    /// A number.
    fn takes_number(
        &mut self,
        part: Part,
        key: Key,
        word: &Lexeme<'_>,
    ) -> Result<Result<(), Code>, NoMemory>
        ensures { IfOk result (λ taken. parts.Took taken self.new (parts.take_number part self.old key word.now.bytes)) }
    {
        match part {
            Part::Whole => self.with_number(number_of(key, word)),
            Part::AtLeast0 => self.with_number(at_least_0(number_of(key, word))),
            Part::Above0 => self.with_number(above_0(number_of(key, word))),
            Part::UpTo1024 => self.with_number(up_to_1024(number_of(key, word))),
            Part::Extension => Ok(self.with_extension(at_least_0(number_of(key, word)))),
            Part::X => self.with_coordinate(self.last_x(), key, word),
            Part::Y => self.with_coordinate(self.last_y(), key, word),
            _ => {
                if number_of(key, word).is_none() {
                    return Ok(Err(Code::E05));
                }
                Ok(Ok(()))
            }
        }
    }

    /// A name.
    fn takes_name(
        &mut self,
        alloc: Global,
        part: Part,
        key: Key,
        word: &Lexeme<'_>,
    ) -> Result<Result<(), Code>, NoMemory>
        ensures { IfOk result (λ taken. parts.Took taken self.new (parts.take_name part self.old key word.now.bytes)) }
    {
        if !key.is_name() {
            return Ok(Err(Code::E03));
        }
        match part {
            Part::Name => self.name = Text::from(alloc, word.bytes())?,
            Part::SecondName => self.second = Text::from(alloc, word.bytes())?,
            Part::ThirdName => self.third = Text::from(alloc, word.bytes())?,
            _ => self.chosen = key,
        }
        Ok(Ok(()))
    }

    /// A keyword of several, which is kept.
    fn chooses(&mut self, is_one: bool, key: Key) -> Result<(), Code>
        ensures { parts.Took result self.new (parts.choose self.old is_one key) }
    {
        if !is_one {
            return Err(Code::E03);
        }
        self.chosen = key;
        Ok(())
    }

    /// A text in quotes, of some.
    fn takes_quoted(
        &mut self,
        alloc: Global,
        key: Key,
        is_one: bool,
        word: &Lexeme<'_>,
    ) -> Result<Result<(), Code>, NoMemory>
        ensures { IfOk result (λ taken. parts.Took taken self.new (parts.take_quoted self.old key is_one word.now.bytes)) }
    {
        if !key.is_quoted() {
            return Ok(Err(Code::E03));
        }
        if !is_one {
            return Ok(Err(Code::E04));
        }
        self.name = Text::from(alloc, word.bytes())?;
        Ok(Ok(()))
    }

    /// A mark or a keyword that is due.
    fn is_due(part: Part, key: Key) -> Result<(), Code>
        ensures { parts.IsTaken result (parts.due part key) }
    {
        let is_due = match part {
            Part::First => true,
            Part::Open => matches!(key, Key::Open),
            Part::Close => matches!(key, Key::Close),
            Part::Semicolon => matches!(key, Key::Semicolon),
            Part::Distance => matches!(key, Key::Distance),
            Part::Microns => matches!(key, Key::Microns),
            Part::Mask => matches!(key, Key::Mask),
            Part::Synthesized => matches!(key, Key::Synthesized),
            Part::Width => matches!(key, Key::Width),
            Part::Shape => match key {
                Key::Style => return Err(Code::E04),
                _ => matches!(key, Key::Shape),
            },
            _ => false,
        };
        if is_due { Ok(()) } else { Err(Code::E03) }
    }

    /// A token in the place of a part.
    ///
    /// # Errors
    ///
    /// `NoMemory` for want of memory. The inner result has the code of a token that isn't that part.
    #[tactic(auto, unfolding(crate::specs::Parts::take))]
    pub fn take(
        &mut self,
        alloc: Global,
        part: Part,
        key: Key,
        word: &Lexeme<'_>,
    ) -> Result<Result<(), Code>, NoMemory>
        ensures { IfOk result (λ taken. parts.Took taken self.new (parts.take part self.old key word.now.bytes)) }
    {
        match part {
            Part::Name | Part::SecondName | Part::ThirdName | Part::Choice => {
                self.takes_name(alloc, part, key, word)
            }
            Part::Orientation => Ok(self.chooses(key.is_orientation(), key)),
            Part::Direction => Ok(self.chooses(
                matches!(key, Key::Input | Key::Output | Key::InOut | Key::FeedThru),
                key,
            )),
            Part::Whole
            | Part::Passed
            | Part::AtLeast0
            | Part::Above0
            | Part::UpTo1024
            | Part::X
            | Part::Y
            | Part::Extension => self.takes_number(part, key, word),
            Part::Divider => self.takes_quoted(alloc, key, is_divider(word.bytes()), word),
            Part::BusBits => self.takes_quoted(alloc, key, is_bus(word.bytes()), word),
            _ => Ok(Operands::is_due(part, key)),
        }
    }
}
