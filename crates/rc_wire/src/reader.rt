//! Reading lists of paths.

ghost use Rattle.std.specs.Prelude.{◌≡◌, ◌≤◌, length, true, false, IfOk};
ghost use Rattle.std.specs.List.{All};
ghost use Rattle.rc_keys.specs.Course.{Turned};
ghost use Rattle.rc_keys.specs.Slices.{LiesIn};
ghost use Rattle.rc_wire.specs.Forms.{IsRegular, IsSpecial, IsPathOf};
ghost use Rattle.rc_wire.specs.Items as items;
ghost use Rattle.rc_wire.specs.Paths.{path_format};
ghost use Rattle.rc_wire.specs.Reading.{reader_of, path_begin, path_turn, paths_outcome, words_from, end_line as end_line_of, IsPaths, AnswersPaths};

use crate::item::PathItem;
use crate::key::{Key, Keys};
use crate::operands::Operands;
use crate::part::place_of;
use crate::path::RawPath;
use crate::wiring::Wiring;
use rc_fixed::{List, NoMemory};
use rc_keys::{Code, Fault, Grammar, Lexeme, Refusal, Stop, Token, Turn, read_tokens};
use std::alloc::Global;

/// What reading takes as given: an allocator and the keywords.
#[derive(Drop)]
pub struct Given<'a> {
    pub alloc: Global,
    pub keys: &'a Keys,
}

/// What is read of a list of paths so far. `item` is the one that is open, `place` the next part of it, and `said` what
/// its parts say so far.
#[derive(Debug, Drop)]
pub struct PathReader {
    pub wiring: Wiring,
    pub item: Option<PathItem>,
    pub place: usize,
    pub said: Operands,
}

impl PathReader {
    /// Nothing is read.
    fn new(alloc: Global, is_wide: bool, line: u32) -> PathReader
        ensures { result ≡ path_begin is_wide line }
    {
        PathReader {
            wiring: Wiring::new(alloc, is_wide, line),
            item: None,
            place: 0,
            said: Operands::new(alloc),
        }
    }

    /// The item goes on at a place, or is complete.
    fn goes_on(&mut self, alloc: Global, item: PathItem, place: usize) -> Result<Turn, NoMemory>
        ensures { IfOk result (λ turn. Turned turn self.new (items.goes_on reader_of path_format self.old.wiring item place self.old.said)) }
    {
        if place < item.form().len() {
            self.item = Some(item);
            self.place = place;
            return Ok(Turn::More);
        }
        self.wiring.means(alloc, item, &mut self.said)?;
        self.item = None;
        self.place = 0;
        self.said.clear(alloc);
        Ok(Turn::More)
    }

    /// A token inside an item.
    #[tactic(auto, unfolding(crate::specs::Items::inside))]
    fn inside(
        &mut self,
        alloc: Global,
        item: PathItem,
        key: Key,
        word: &Lexeme<'_>,
    ) -> Result<Turn, NoMemory>
        ensures { IfOk result (λ turn. Turned turn self.new (items.inside reader_of path_format self.old.wiring item self.old.place self.old.said key word.now)) }
    {
        let form = item.form();
        let place = place_of(form, self.place, key);
        let Some(part) = form.get(place) else {
            return Ok(word.refuse(Code::E03));
        };
        if let Err(code) = self.said.take(alloc, *part, key, word)? {
            return Ok(word.refuse(code));
        }
        self.goes_on(alloc, item, place + 1)
    }

    /// A token.
    fn turns(&mut self, alloc: Global, key: Key, word: &Lexeme<'_>) -> Result<Turn, NoMemory>
        ensures { IfOk result (λ turn. Turned turn self.new (items.by_item reader_of path_format self.old.wiring self.old.item self.old.place self.old.said key word.now)) }
    {
        if let Some(item) = self.item {
            return self.inside(alloc, item, key, word);
        }
        match self.wiring.begins(key) {
            Ok(Some(item)) => {
                self.said.last = self.wiring.last;
                self.said.line = word.line();
                self.place = 0;
                self.inside(alloc, item, key, word)
            }
            Ok(None) => Ok(Turn::Close),
            Err(code) => Ok(word.refuse(code)),
        }
    }
}

impl<'a> Grammar<Given<'a>> for PathReader {
    ghost use Rattle.std.specs.Prelude.{false};
    ghost use Rattle.rc_wire.specs.Reading.{path_turn};

    ghost turn_of = { λ given. path_turn };

    ghost may_end = { λ _. false };

    #[tactic(auto, unfolding(crate::specs::Reading::path_turn, crate::specs::Items::item_turn))]
    fn advance(&mut self, given: &Given<'a>, word: &Lexeme<'_>) -> Result<Turn, NoMemory> {
        let key = given.keys.key(word);
        self.turns(given.alloc, key, word)
    }

    fn is_complete(&self) -> bool
        ensures { result ≡ false }
    {
        false
    }
}

/// The line of the last token, 1 where there is none.
fn end_line(tokens: &[Token]) -> u32
    ensures { result ≡ end_line_of tokens.now }
{
    match tokens.get(tokens.len().saturating_sub(1)) {
        Some(token) => token.line,
        None => 1,
    }
}

/// Reads a list of paths.
fn read_paths(
    alloc: Global,
    text: &[u8],
    tokens: &[Token],
    at: usize,
    line: u32,
    is_wide: bool,
) -> Result<(List<RawPath>, usize), Fault>
    requires tokens { All (LiesIn text.now) tokens.now }
    requires at { at ≤ length tokens.now }
    ensures outcome { IsPaths at result (paths_outcome is_wide line (end_line_of tokens.now) (words_from text.now tokens.now at)) }
    ensures paths { IfOk result (AnswersPaths is_wide line (words_from text.now tokens.now at) at) }
    ensures form { IfOk result (λ read. All (IsPathOf is_wide) read.0) }
{
    let keys = Keys::new();
    let given = Given { alloc, keys: &keys };
    let mut reader = PathReader::new(alloc, is_wide, line);
    match read_tokens(&mut reader, &given, text, tokens, at, line)? {
        Stop::Before(place) => Ok((reader.wiring.finish(alloc)?, place)),
        Stop::Refuses(refusal) => Err(Fault::Refused(refusal)),
        Stop::Short => Err(Fault::Refused(Refusal::At {
            code: Code::E16,
            line: end_line(tokens),
        })),
    }
}

/// Reads a list of regular paths from a token on, in a statement of this line: the paths, and the place of the `+` or `;`
/// behind them (LEF/DEF 5.8 Language Reference, 'NETS').
///
/// # Errors
///
/// The first refused token, with E03, E04 or E05; E16 at the last token's line where the tokens end before; or `NoMemory` for want of memory.
pub fn read_regular(
    alloc: Global,
    text: &[u8],
    tokens: &[Token],
    at: usize,
    line: u32,
) -> Result<(List<RawPath>, usize), Fault>
    requires tokens { All (LiesIn text.now) tokens.now }
    requires at { at ≤ length tokens.now }
    ensures outcome { IsPaths at result (paths_outcome false line (end_line_of tokens.now) (words_from text.now tokens.now at)) }
    ensures paths { IfOk result (AnswersPaths false line (words_from text.now tokens.now at) at) }
    ensures form { IfOk result (λ read. All IsRegular read.0) }
{
    read_paths(alloc, text, tokens, at, line, false)
}

/// Reads a list of special paths from a token on, as `read_regular` does regular ones (LEF/DEF 5.8 Language Reference,
/// 'SPECIALNETS').
///
/// # Errors
///
/// Those of `read_regular`.
pub fn read_special(
    alloc: Global,
    text: &[u8],
    tokens: &[Token],
    at: usize,
    line: u32,
) -> Result<(List<RawPath>, usize), Fault>
    requires tokens { All (LiesIn text.now) tokens.now }
    requires at { at ≤ length tokens.now }
    ensures outcome { IsPaths at result (paths_outcome true line (end_line_of tokens.now) (words_from text.now tokens.now at)) }
    ensures paths { IfOk result (AnswersPaths true line (words_from text.now tokens.now at) at) }
    ensures form { IfOk result (λ read. All IsSpecial read.0) }
{
    read_paths(alloc, text, tokens, at, line, true)
}
