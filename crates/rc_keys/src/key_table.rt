//! Tables of keywords.

ghost use Rattle.std.specs.Prelude.{◌≡◌, ◌<◌, ◌≤◌, ◌^◌, ◌↔◌, IsTrue, IfSome, Some, ℕ, length, position, slice_get, slice_index_or};
ghost use Rattle.std.specs.Str.{bytes_eq};
ghost use Rattle.rc_keys.specs.Inner.Slots.{slot_of, HaveSlots};
ghost use Rattle.rc_keys.specs.KeyWords.{AreDifferent};

use crate::key_word::KeyWord;
use std::marker::Model;

/// How many slots a table has.
const SLOTS: usize = 1024;

/// A slot without a word.
const NONE: u8 = 255;

/// Different words, each with its number. Contracts see the list of the words.
#[derive(Debug, Drop)]
pub struct KeyTable<const N: usize> {
    words: [KeyWord; N],
    slots: [u8; SLOTS],
    has_slots: bool,
}

impl<const N: usize> Model for KeyTable<N> {
    ghost use Rattle.std.specs.Prelude.{List, ℕ, IsTrue, ◌<◌, ◌^◌, length};
    ghost use Rattle.rc_keys.specs.KeyWords.{AreDifferent};
    ghost use Rattle.rc_keys.specs.Inner.Slots.{HaveSlots};

    ghost Value = { List (List ℕ) };

    ghost view = { λ table. table.words };

    ghost invariant = { λ table. (IsTrue table.has_slots → HaveSlots table.words table.slots (length table.words)) × (length table.words < 2 ^ 16) × AreDifferent table.words };
}

/// The byte at this place, or 0 past the end.
fn byte_or_0(word: &[u8], at: usize) -> usize
    ensures value { result ≡ slice_index_or word.now at 0 }
    ensures small { result < 256 }
{
    if at < word.len() {
        word[at] as usize
    } else {
        0
    }
}

/// Where a word's slot lies.
#[tactic(auto, unfolding(crate::specs::Inner::Slots::slot_of))]
fn slot(word: &[u8]) -> usize
    ensures slot { result ≡ slot_of word.now }
    ensures small { result < 1024 }
{
    let last = byte_or_0(word, word.len().saturating_sub(1));
    (word.len() % 32 * 7
        + byte_or_0(word, 0) * 1855
        + byte_or_0(word, 1) * 995
        + byte_or_0(word, 2) * 1092
        + last * 1715)
        % SLOTS
}

/// The first place of a word, looked for at each place.
fn searched(words: &[KeyWord], word: &[u8]) -> Option<usize>
    ensures exact { result ≡ position (bytes_eq word.now) words.now }
    ensures within { IfSome result (λ k. k < length words.now) }
{
    words.iter().position(|key| word == key.bytes())
}

/// The slots of these words. Where two words share one, the later has it.
fn filled(words: &[KeyWord]) -> [u8; SLOTS] {
    let mut slots = [NONE; SLOTS];
    for k in 0..words.len() {
        if k < NONE as usize {
            slots[slot(words[k].bytes())] = k as u8;
        }
    }
    slots
}

/// Whether each word has a slot of its own.
fn have_slots(words: &[KeyWord], slots: &[u8; SLOTS]) -> bool
    ensures { IsTrue result → HaveSlots words.now slots.now (length words.now) }
{
    for k in 0..words.len() {
        if slots[slot(words[k].bytes())] as usize != k {
            return false;
        }
    }
    true
}

/// The first place of a word, where each word has a slot of its own.
fn direct(words: &[KeyWord], slots: &[u8; SLOTS], word: &[u8]) -> Option<usize>
    requires { HaveSlots words.now slots.now (length words.now) }
    ensures exact { result ≡ position (bytes_eq word.now) words.now }
    ensures within { IfSome result (λ k. k < length words.now) }
{
    let k = slots[slot(word)] as usize;
    if k >= words.len() {
        return None;
    }
    if word != words[k].bytes() {
        return None;
    }
    Some(k)
}

impl<const N: usize> KeyTable<N> {
    /// A table of these words.
    pub fn new(words: [KeyWord; N]) -> KeyTable<N>
        requires few { length words < 2 ^ 16 }
        requires differ { AreDifferent words }
        ensures { result ≡ words.entry }
    {
        let slots = filled(&words);
        let has_slots = have_slots(&words, &slots);
        KeyTable {
            words,
            slots,
            has_slots,
        }
    }

    /// The place of a word.
    fn place(&self, word: &[u8]) -> Option<usize>
        ensures exact { result ≡ position (bytes_eq word.now) self.now }
        ensures within { IfSome result (λ k. k < 2 ^ 16) }
    {
        if self.has_slots {
            direct(&self.words, &self.slots, word)
        } else {
            searched(&self.words, word)
        }
    }

    /// The number of a word, from 0. None comes exactly where the table doesn't have it.
    pub fn find(&self, word: &[u8]) -> Option<u16>
        ensures place { result ≡ position (bytes_eq word.now) self.now }
        ensures exact { (k : ℕ) → (result ≡ Some k) ↔ (slice_get self.now k ≡ Some word.now) }
    {
        let _differ = &self.words;
        match self.place(word) {
            Some(k) => Some(k as u16),
            None => None,
        }
    }
}
