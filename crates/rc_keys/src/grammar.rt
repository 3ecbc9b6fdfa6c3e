//! Reading a text by the rows of a grammar.

ghost use Rattle.std.specs.Prelude.{◌≡◌, ◌≤◌, ◌^◌, Bool, length, IfOk};
ghost use Rattle.rc_keys.specs.Lexemes.{Lexeme as LexemeOf, words_of};
ghost use Rattle.rc_keys.specs.Course.{Turn as TurnOf, Turned, IsAnswer, line_or as line_or_of, reading};

use crate::{Ending, Lexeme, Mode, Refusal, Turn, Words};
use rc_fixed::NoMemory;

/// A grammar, with what it has read so far.
///
/// Contracts see what is read so far as a value of the type itself. `C` is what reading takes as given: an
/// allocator, keyword tables, and what the grammar is over, as the technology before a file.
pub trait Grammar<C> {
    /// What a token does after what was read. Its line is that of its statement's first token.
    ghost turn_of: { C → Self → LexemeOf → TurnOf Self };

    /// Whether the text may end between two statements.
    ghost may_end: { Self → Bool };

    /// Takes a token.
    ///
    /// # Errors
    ///
    /// `NoMemory` for want of memory.
    fn advance(&mut self, given: &C, word: &Lexeme<'_>) -> Result<Turn, NoMemory>
        ensures { IfOk result (λ turn. Turned turn self.new (turn_of given.now self.old word.now)) };

    /// Whether the text may end between two statements.
    fn is_complete(&self) -> bool
        ensures { result ≡ may_end self.now };
}

/// The line of the statement that is begun, or else this one.
fn line_or(begun: Option<u32>, line: u32) -> u32
    ensures { result ≡ line_or_of begun line }
{
    match begun {
        Some(begun) => begun,
        None => line,
    }
}

/// Reads a text up to its end, to the end that its grammar closes it with, or to the first token that is
/// refused. `words_are_pieces` says what the tokens of a text are.
///
/// # Errors
///
/// `NoMemory` for want of memory.
pub fn read<C, G: Grammar<C>>(
    grammar: &mut G,
    given: &C,
    mode: Mode,
    text: &[u8],
) -> Result<Ending, NoMemory>
    requires { length text.now ≤ 2 ^ 30 }
    ensures { IfOk result (λ ending. IsAnswer ending grammar.new (reading (G.turn_of given.now) G.may_end grammar.old (words_of mode text.now))) }
{
    let mut words = Words::new(mode, text);
    let mut begun: Option<u32> = None;
    let mut last = 1;
    while let Some(word) = words.next_word() {
        last = word.line();
        let line = line_or(begun, last);
        match grammar.advance(given, &word.at_line(line))? {
            Turn::Refuse(refusal) => return Ok(Ending::Refuses(refusal)),
            Turn::More => begun = Some(line),
            Turn::Done => begun = None,
            Turn::Close => return Ok(Ending::Read),
        }
    }
    if let Some((code, line)) = words.fault() {
        return Ok(Ending::Refuses(Refusal::At { code, line }));
    }
    if let Some(_) = begun {
        return Ok(Ending::Unfinished { begun, last });
    }
    if !grammar.is_complete() {
        return Ok(Ending::Unfinished { begun: None, last });
    }
    Ok(Ending::Read)
}
