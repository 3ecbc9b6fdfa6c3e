//! The map of names, and references to it.

ghost use Rattle.std.specs.Prelude.{◌≡◌, ◌<◌, ◌≤◌, ◌+◌, ◌^◌, ◌==◌, ◌++◌, ◌∷◌, [], true, false, ◌&&◌, length, map, position, Ok, Err, OnOk, IfSome, drop, ◌-◌};
ghost use Rattle.std.specs.List.{before_first, range_with_len, AllByRecursion};
ghost use Rattle.std.specs.Str.{all_ascii_digits};
ghost use Rattle.std.specs.Str.Parse.{digits_value};
ghost use Rattle.rc_spef.specs.References.{is_plain as is_plain_word, is_colon, is_in_map, sub_of, behind_of, end_of, name_of, name_at, reference as reference_of};
ghost use Rattle.rc_spef.specs.Means.{Means, sub_seen, end_seen, IsShortest, value_of_number};

use crate::numbers::{begins_star, first_place, is_plain, number, sub_number, without_zeros};
use rc_fixed::{NoMemory, Text};
use rc_keys::{Code, Named, Table};
use std::alloc::Global;
use std::marker::Model;

/// What stands behind the number of a name, as it lies in a text.
#[derive(Clone, Copy, Debug, PartialEq, Eq, Hash)]
pub enum Behind<'a> {
    /// Nothing.
    Bare,
    /// A number.
    Num(u32),
    /// Another word.
    Word(&'a [u8]),
}

/// A reference to a name, as it lies in a text.
#[derive(Clone, Copy, Debug, PartialEq, Eq, Hash)]
pub struct Reference<'a> {
    /// The name's place, from 1.
    pub name: u32,
    /// What stands behind its number.
    pub sub: Behind<'a>,
}

/// A number of the map: its digits, without zeros in front.
#[derive(Drop)]
pub struct Number {
    digits: Text,
}

impl Named for Number {
    ghost called = { λ number. number.digits };

    fn name(&self) -> &[u8] {
        self.digits.bytes()
    }
}

/// The numbers that a map gives to names, in their order. Contracts see the list of them.
#[derive(Drop)]
pub struct NameMap {
    numbers: Table<Number>,
    counted: bool,
}

impl Model for NameMap {
    ghost use Rattle.std.specs.Prelude.{List, ℕ, ◌≡◌, ◌<◌, ◌^◌, ◌-◌, true, map, length};
    ghost use Rattle.std.specs.List.{AllByRecursion, range_with_len};
    ghost use Rattle.rc_spef.specs.Means.{IsShortest, value_of_number};

    ghost Value = { List ℕ };

    ghost view = { λ kept. map value_of_number kept.numbers };

    ghost invariant = { λ kept. AllByRecursion IsShortest kept.numbers × (length kept.numbers < 2 ^ 32 - 1) × (kept.counted ≡ true → map value_of_number kept.numbers ≡ range_with_len 1 (length kept.numbers)) };
}

/// The place of a number among 1, 2, 3 and so on, up to a count.
fn counted_place(count: usize, number: u128) -> Option<usize>
    ensures { result ≡ position (λ other. other == number) (range_with_len 1 count) }
{
    if number == 0 {
        return None;
    }
    if number > count as u128 {
        return None;
    }
    Some((number - 1) as usize)
}

/// The place of the number that digits write.
fn listed_place(numbers: &Table<Number>, digits: &[u8]) -> Option<usize>
    requires digits { all_ascii_digits digits.now ≡ true }
    requires shortest { AllByRecursion IsShortest numbers.now }
    ensures { result ≡ position (λ other. other == digits_value 10 digits.now) (map value_of_number numbers.now) }
{
    numbers.place(without_zeros(digits))
}

/// What stands before the first colon.
fn before_colon(word: &[u8]) -> &[u8]
    ensures { result.now ≡ before_first is_colon word.now }
{
    &word[..first_place(word, b':')]
}

/// What a word behind the number of a name stands for.
#[tactic(auto, unfolding(crate::specs::References::sub_of))]
fn what_behind(word: &[u8]) -> Behind<'_>
    ensures { sub_seen result ≡ sub_of word.now }
{
    match sub_number(word) {
        Some(number) => Behind::Num(number),
        None => Behind::Word(word),
    }
}

/// What the word behind the first colon stands for.
fn behind_colon(word: &[u8]) -> Result<Behind<'_>, Code>
    ensures { Means sub_seen result (behind_of word.now) }
{
    let at = first_place(word, b':');
    if at >= word.len() {
        return Ok(Behind::Bare);
    }
    let rest = &word[at + 1..];
    if rest.is_empty() {
        return Err(Code::E03);
    }
    Ok(what_behind(rest))
}

impl NameMap {
    /// A map without names.
    pub fn new(alloc: Global) -> NameMap
        ensures { result ≡ [] }
    {
        NameMap {
            numbers: Table::new(alloc),
            counted: true,
        }
    }

    /// The place of the number that digits write.
    fn place(&self, digits: &[u8]) -> Option<usize>
        requires { all_ascii_digits digits.now ≡ true }
        ensures place { result ≡ position (λ other. other == digits_value 10 digits.now) self.now }
        ensures within { IfSome result (λ place. place < 2 ^ 32 - 1) }
    {
        if self.counted {
            if let Some(number) = number(digits) {
                return counted_place(self.numbers.len(), number);
            }
        }
        listed_place(&self.numbers, digits)
    }

    /// Whether the number that digits write has a name.
    pub fn has(&self, digits: &[u8]) -> bool
        requires { all_ascii_digits digits.now ≡ true }
        ensures { result ≡ is_in_map self.now (digits_value 10 digits.now) }
    {
        self.place(digits).is_some()
    }

    /// The name, by its place from 1, that digits stand for.
    #[tactic(auto, unfolding(crate::specs::References::name_at))]
    fn name(&self, digits: &[u8]) -> Result<u32, Code>
        requires { is_plain_word digits.now ≡ true }
        ensures { Means (λ name. name) result (name_at self.now digits.now) }
    {
        match self.place(digits) {
            Some(place) => Ok(place as u32 + 1),
            None => Err(Code::E06),
        }
    }

    /// The end that `k` or `k:sub` stands for.
    #[tactic(auto, unfolding(crate::specs::References::reference))]
    fn reference<'a>(&self, word: &'a [u8]) -> Result<Reference<'a>, Code>
        ensures { Means end_seen result (reference_of self.now word.now) }
    {
        let digits = before_colon(word);
        if !is_plain(digits) {
            return Err(Code::E03);
        }
        let sub = behind_colon(word)?;
        let name = self.name(digits)?;
        Ok(Reference { name, sub })
    }

    /// The end that `*k` or `*k:sub` stands for.
    #[tactic(auto, unfolding(crate::specs::References::end_of))]
    pub fn end<'a>(&self, word: &'a [u8]) -> Result<Reference<'a>, Code>
        ensures { Means end_seen result (end_of self.now word.now) }
    {
        if !begins_star(word) {
            return Err(Code::E04);
        }
        self.reference(&word[1..])
    }

    /// The name that `*k` stands for.
    #[tactic(auto, unfolding(crate::specs::References::name_of))]
    pub fn only_name(&self, word: &[u8]) -> Result<u32, Code>
        ensures { Means (λ name. name) result (name_of self.now word.now) }
    {
        if !begins_star(word) {
            return Err(Code::E04);
        }
        let digits = &word[1..];
        if !is_plain(digits) {
            return Err(Code::E03);
        }
        self.name(digits)
    }

    /// Appends the number that digits write, which has no name yet.
    ///
    /// # Errors
    ///
    /// `NoMemory` for want of memory.
    pub fn push(&mut self, alloc: Global, digits: &[u8]) -> Result<(), NoMemory>
        requires digits { all_ascii_digits digits.now ≡ true }
        requires absent { is_in_map self.old (digits_value 10 digits.now) ≡ false }
        ensures { OnOk result (self.new ≡ self.old ++ digits_value 10 digits.now ∷ []) }
    {
        let len = self.numbers.len();
        if len >= 4_294_967_294 {
            return Err(NoMemory);
        }
        let counted = goes_on(self.counted, digits, len);
        let number = Number {
            digits: Text::from(alloc, without_zeros(digits))?,
        };
        self.numbers.put(number)?;
        self.counted = counted;
        Ok(())
    }
}

/// Whether numbers that are 1, 2, 3 and so on, where `counted`, go on with the one that digits write.
fn goes_on(counted: bool, digits: &[u8], len: usize) -> bool
    requires digits { all_ascii_digits digits.now ≡ true }
    ensures { result ≡ true → (counted ≡ true) × (digits_value 10 digits.now ≡ len + 1) }
{
    match number(digits) {
        Some(number) => counted && number == len as u128 + 1,
        None => false,
    }
}
