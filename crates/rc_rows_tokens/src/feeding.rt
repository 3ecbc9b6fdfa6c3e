//! Texts that are fed in pieces, or read token by token.

ghost use Rattle.std.specs.Prelude.{◌≤◌, ◌^◌, length};

use rc_fixed::{List, NoMemory};
use rc_keys::{Code, Fault, Lexer, Mode, Refusal, Token, Words};
use std::alloc::Global;

/// What a text is cut into: its tokens, and the fault that ends them.
#[derive(Drop)]
pub struct Cut {
    pub tokens: List<Token>,
    pub fault: Option<(Code, u32)>,
}

/// The code and the line of a fault. Want of memory is an error.
fn place_of(fault: Fault) -> Result<Option<(Code, u32)>, NoMemory> {
    match fault {
        Fault::Refused(Refusal::At { code, line }) => Ok(Some((code, line))),
        _ => Err(NoMemory),
    }
}

/// A text that is fed in pieces of so many bytes, the last one shorter.
pub fn fed(alloc: Global, mode: Mode, text: &[u8], size: usize) -> Result<Cut, NoMemory>
    requires size { 1 ≤ size }
    requires text { length text.now ≤ 2 ^ 30 }
{
    let mut lexer = Lexer::new(alloc, mode);
    let mut tokens = List::new(alloc);
    let mut at = 0;
    while at < text.len() {
        let piece = &text[at..at + usize::min(size, text.len() - at)];
        if let Err(fault) = lexer.feed(piece, &mut tokens) {
            let fault = place_of(fault)?;
            return Ok(Cut { tokens, fault });
        }
        at += piece.len();
    }
    match lexer.finish(&mut tokens) {
        Ok(()) => Ok(Cut {
            tokens,
            fault: None,
        }),
        Err(fault) => {
            let fault = place_of(fault)?;
            Ok(Cut { tokens, fault })
        }
    }
}

/// Whether reading a text token by token gives these tokens, with their bytes, and then this fault.
pub fn reads_as(mode: Mode, text: &[u8], cut: &Cut) -> bool
    requires { length text.now ≤ 2 ^ 30 }
{
    let mut words = Words::new(mode, text);
    for token in cut.tokens.items() {
        let (start, end) = (token.start as usize, token.end as usize);
        let Some(bytes) = text.get(start..end) else {
            return false;
        };
        let Some(word) = words.next_word() else {
            return false;
        };
        if word.kind() != token.kind || word.line() != token.line || word.bytes() != bytes {
            return false;
        }
    }
    if words.next_word().is_some() {
        return false;
    }
    words.fault() == cut.fault
}

/// Whether a text is cut alike when it is fed byte by byte, in pieces of 7 bytes and whole, and when it is read token by
/// token.
pub fn is_cut_alike(alloc: Global, mode: Mode, text: &[u8]) -> Result<bool, NoMemory>
    requires { length text.now ≤ 2 ^ 30 }
{
    let whole = fed(alloc, mode, text, text.len() + 1)?;
    for size in [1, 7] {
        let cut = fed(alloc, mode, text, size)?;
        if cut.tokens.items() != whole.tokens.items() || cut.fault != whole.fault {
            return Ok(false);
        }
    }
    Ok(reads_as(mode, text, &whole))
}
