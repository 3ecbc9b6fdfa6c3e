//! The tokens of a whole text, one by one.

ghost use Rattle.std.specs.Prelude.{◌≡◌, ◌<◌, ◌≤◌, ◌^◌, ◌+◌, ◌-◌, ◌∷◌, [], length, drop, None, IfSome, MatchOption, true, ℕ, slice_index_or};
ghost use Rattle.rc_keys.specs.Tokens.{after, tokens_from, IsSound};
ghost use Rattle.rc_keys.specs.Lexemes.{words_of, end_fault, between};
ghost use Rattle.rc_keys.specs.TokenLaws.{AreWords};
ghost use Rattle.rc_keys.specs.Inner.Leads.{Leads, begins_word as begins_word_of, word_token as word_token_of, behind_word as behind_word_of};
ghost use Rattle.rc_keys.specs.Tokens.{is_graphic as is_graphic_byte};
ghost use Rattle.rc_keys.specs.declared.token.Inside.TheVariants as Inside;

use crate::lexeme::Lexeme;
use crate::token::{Inside, Place, is_blank, is_graphic};
use crate::{Code, Mode, Token};
use std::marker::Model;

/// The tokens of a text that are not yet read. Contracts see what they say, and the fault that ends them.
#[derive(Drop)]
pub struct Words<'a> {
    mode: Mode,
    text: &'a [u8],
    at: usize,
    place: Place,
}

impl<'a> Model for Words<'a> {
    ghost use Rattle.std.specs.Prelude.{◌≤◌, ◌^◌, length};
    ghost use Rattle.rc_keys.specs.Lexemes.{Remaining, remaining_from};
    ghost use Rattle.rc_keys.specs.Tokens.{IsSound};

    ghost Value = { Remaining };

    ghost view = { λ w. remaining_from w.mode w.text.now w.at w.place };

    ghost invariant = { λ w. IsSound w.place × (w.place.at ≤ w.at) × (w.at ≤ length w.text.now) × (length w.text.now ≤ 2 ^ 30) };
}

/// A token, where there is one, and where it ends.
#[derive(Clone, Copy, Debug)]
struct Cut {
    token: Option<Token>,
    at: usize,
    place: Place,
}

/// Where the word ends that the end of the text closes.
fn ended(place: Place) -> Place
    ensures { result ≡ between place }
{
    Place {
        inside: Inside::Between,
        ..place
    }
}

/// Goes over blanks.
#[tactic(auto, using(crate::proofs::Runs::leads_blank))]
fn skip_blanks(mode: Mode, text: &[u8], at: usize, place: Place) -> Cut
    requires sound { IsSound place }
    requires place { place.at ≤ at }
    requires between { place.inside ≡ Inside.Between }
    requires at { at ≤ length text.now }
    requires size { length text.now ≤ 2 ^ 30 }
    ensures leads { Leads mode text.now at place [] result.at result.place }
    ensures between { result.place.inside ≡ Inside.Between }
    ensures sound { IsSound result.place }
    ensures place { result.place.at ≤ result.at }
    ensures at { result.at ≤ length text.now }
{
    let _ = mode;
    let mut at = at;
    let mut place = place;
    while at < text.len() {
        let byte = text[at];
        if !is_blank(byte) {
            break;
        }
        place = place.behind_blank(byte);
        at += 1;
    }
    Cut {
        token: None,
        at,
        place,
    }
}

/// Where the bytes that a word may hold end, up to a limit.
fn word_end(text: &[u8], at: usize, limit: usize) -> usize
    requires at { at ≤ limit }
    requires limit { limit ≤ length text.now }
    ensures low { at ≤ result }
    ensures high { result ≤ limit }
    ensures graphic { (k : ℕ) → at ≤ k → k < result → is_graphic_byte (slice_index_or text.now k 0) ≡ true }
{
    let mut end = at;
    while end < limit {
        if !is_graphic(text[end]) {
            return end;
        }
        end += 1;
    }
    end
}

/// Whether a byte begins a word and nothing else.
fn begins_word(mode: Mode, byte: u8) -> bool
    ensures { result ≡ begins_word_of mode byte }
{
    let marks_comment = match mode {
        Mode::Lef => byte == b'#',
        Mode::Spef => byte == b'/',
    };
    is_graphic(byte) && byte != b'"' && !marks_comment
}

/// Where the word ends that begins at this byte, where a blank stands behind it.
#[tactic(auto, using(crate::proofs::Runs::leads_word))]
fn plain_word(mode: Mode, text: &[u8], at: usize, place: Place) -> Option<usize>
    requires between { place.inside ≡ Inside.Between }
    requires size { length text.now ≤ 2 ^ 30 }
    ensures leads { IfSome result (λ end. Leads mode text.now at place (word_token_of place (end - at) ∷ []) (end + 1) (behind_word_of place (end - at) (slice_index_or text.now end 0))) }
    ensures low { IfSome result (λ end. at < end) }
    ensures high { IfSome result (λ end. end < length text.now) }
{
    if at >= text.len() {
        return None;
    }
    if !begins_word(mode, text[at]) {
        return None;
    }
    let limit = usize::min(at + 4096, text.len());
    let end = word_end(text, at + 1, limit);
    if end >= text.len() {
        return None;
    }
    if !is_blank(text[end]) {
        return None;
    }
    Some(end)
}

/// The first token from this byte on, which has this place, byte by byte.
fn slow_token(mode: Mode, text: &[u8], at: usize, place: Place) -> Cut
    requires sound { IsSound place }
    requires place { place.at ≤ at }
    requires at { at ≤ length text.now }
    requires size { length text.now ≤ 2 ^ 30 }
    ensures token { MatchOption result.token (tokens_from mode place (drop at text.now) ≡ [])
        (λ t. tokens_from mode place (drop at text.now) ≡ t ∷ tokens_from mode result.place (drop result.at text.now)) }
    ensures none { (result.token ≡ None) → tokens_from mode result.place (drop result.at text.now) ≡ [] }
    ensures fault { end_fault (after mode result.place (drop result.at text.now)) ≡ end_fault (after mode place (drop at text.now)) }
    ensures end { tokens_from mode place (drop at text.now) ≡ [] → end_fault result.place ≡ end_fault (after mode place (drop at text.now)) }
    ensures span { IfSome result.token (λ t. (t.start ≤ t.end) × (t.end ≤ length text.now)) }
    ensures sound { IsSound result.place }
    ensures place { result.place.at ≤ result.at }
    ensures at { result.at ≤ length text.now }
{
    let mut at = at;
    let mut place = place;
    while at < text.len() {
        let byte = text[at];
        let token = place.closed_by(byte);
        place = place.after_byte(mode, byte);
        at += 1;
        if let Some(token) = token {
            return Cut {
                token: Some(token),
                at,
                place,
            };
        }
    }
    match place.closed_at_end() {
        Some(token) => Cut {
            token: Some(token),
            at,
            place: ended(place),
        },
        None => Cut {
            token: None,
            at,
            place,
        },
    }
}

/// The first token from this byte on, which has this place.
fn next_token(mode: Mode, text: &[u8], at: usize, place: Place) -> Cut
    requires sound { IsSound place }
    requires place { place.at ≤ at }
    requires at { at ≤ length text.now }
    requires size { length text.now ≤ 2 ^ 30 }
    ensures token { MatchOption result.token (tokens_from mode place (drop at text.now) ≡ [])
        (λ t. tokens_from mode place (drop at text.now) ≡ t ∷ tokens_from mode result.place (drop result.at text.now)) }
    ensures none { (result.token ≡ None) → tokens_from mode result.place (drop result.at text.now) ≡ [] }
    ensures fault { end_fault (after mode result.place (drop result.at text.now)) ≡ end_fault (after mode place (drop at text.now)) }
    ensures end { tokens_from mode place (drop at text.now) ≡ [] → end_fault result.place ≡ end_fault (after mode place (drop at text.now)) }
    ensures span { IfSome result.token (λ t. (t.start ≤ t.end) × (t.end ≤ length text.now)) }
    ensures sound { IsSound result.place }
    ensures place { result.place.at ≤ result.at }
    ensures at { result.at ≤ length text.now }
{
    if !place.is_between() {
        return slow_token(mode, text, at, place);
    }
    let skipped = skip_blanks(mode, text, at, place);
    let Some(end) = plain_word(mode, text, skipped.at, skipped.place) else {
        return slow_token(mode, text, skipped.at, skipped.place);
    };
    let size = (end - skipped.at) as u32;
    Cut {
        token: Some(skipped.place.word_token(size)),
        at: end + 1,
        place: skipped.place.behind_word(size, text[end]),
    }
}

impl<'a> Words<'a> {
    /// The tokens of this text, of which none is read: what the pieces say that it is cut into.
    pub fn new(mode: Mode, text: &'a [u8]) -> Words<'a>
        requires { length text.now ≤ 2 ^ 30 }
        ensures is { result ≡ words_of mode text.now }
        ensures cut { AreWords mode text.now result }
    {
        Words {
            mode,
            text,
            at: 0,
            place: Place::BEGIN,
        }
    }

    /// Takes the next token. None comes exactly where there is none.
    pub fn next_word(&mut self) -> Option<Lexeme<'a>>
        ensures { MatchOption result ((self.old.words ≡ []) × (self.new ≡ self.old)) (λ word. self.old ≡ record self.new { words = word ∷ self.new.words }) }
    {
        let cut = next_token(self.mode, self.text, self.at, self.place);
        self.at = cut.at;
        self.place = cut.place;
        let token = cut.token?;
        let bytes = &self.text[token.start as usize..token.end as usize];
        Some(Lexeme::new(token.kind, bytes, token.line))
    }

    /// The fault that ends the tokens, once all are read: its code, and the line of its token.
    pub fn fault(&self) -> Option<(Code, u32)>
        requires { self.now.words ≡ [] }
        ensures { result ≡ self.now.fault }
    {
        let cut = next_token(self.mode, self.text, self.at, self.place);
        cut.place.fault_at_end()
    }
}
