//! Tokens, and where in a text a lexer stands.

ghost use Rattle.std.specs.Prelude.{◌≡◌, ◌<◌, ◌≤◌, ◌^◌, ◌+◌, ◌↔◌, IsTrue, length};
ghost use Rattle.rc_keys.specs.Inner.Leads.{line_after, word_token, behind_word};
ghost use Rattle.rc_keys.specs.declared.token.Inside.TheVariants as Inside;
ghost use Rattle.rc_keys.specs.Tokens.{is_blank as is_blank_byte, is_graphic as is_graphic_byte, is_full as is_full_at, moved, begins, continues, next, token_at, end_fault_in, closed_by as closed_by_byte, closed_at_end as closed_at_end_of, IsSound};

use crate::Code;

/// What a token is.
#[derive(Clone, Copy, Debug, PartialEq, Eq)]
pub enum Kind {
    /// A word.
    Word,
    /// What stands between two quotes.
    Quoted,
}

/// How comments begin: the one thing in which the tokens of SPEF (IEEE 1481) differ from those of LEF, DEF (LEF/DEF 5.8
/// Language Reference, "Character Information"), rule files and scripts.
#[derive(Clone, Copy, Debug, PartialEq, Eq)]
pub enum Mode {
    /// With `#`.
    Lef,
    /// With `//`.
    Spef,
}

/// A token of a text: from the byte at `start` to below the byte at `end`, and the line, from 1, in
/// which it begins. The quotes of a quoted token lie outside of it.
#[derive(Clone, Copy, Debug, PartialEq, Eq)]
pub struct Token {
    pub kind: Kind,
    pub start: u32,
    pub end: u32,
    pub line: u32,
}

/// What the byte before a place belongs to.
#[derive(Clone, Copy, Debug, PartialEq, Eq)]
pub enum Inside {
    /// Nothing: the next byte may begin a token.
    Between,
    /// A comment.
    Comment,
    /// A slash that begins a word or a comment.
    Slash,
    /// A word.
    Word,
    /// A quoted token.
    Quoted,
    /// A backslash in a quoted token.
    Escaped,
    /// A fault. Nothing after it is looked at.
    Stopped(Code),
}

/// A place in a text: the bytes and the line before it, the token that was begun last, and what the
/// byte before it belongs to.
#[derive(Clone, Copy, Debug, PartialEq, Eq)]
pub struct Place {
    pub at: u32,
    pub line: u32,
    pub start: u32,
    pub start_line: u32,
    pub inside: Inside,
}

#[inline(always)]
pub fn is_blank(byte: u8) -> bool
    ensures { result ≡ is_blank_byte byte }
{
    matches!(byte, 9 | 10 | 13 | 32)
}

#[inline(always)]
pub fn is_graphic(byte: u8) -> bool
    ensures { result ≡ is_graphic_byte byte }
{
    byte > 32 && byte < 127
}

impl Place {
    /// The front of a text.
    pub const BEGIN: Place = Place {
        at: 0,
        line: 1,
        start: 0,
        start_line: 1,
        inside: Inside::Between,
    };

    /// The fault of a text that ends here: its code, and the line of its token.
    pub fn fault_at_end(self) -> Option<(Code, u32)>
        ensures { result ≡ end_fault_in self.inside self.start_line }
    {
        match self.inside {
            Inside::Stopped(code) => Some((code, self.start_line)),
            Inside::Quoted | Inside::Escaped => Some((Code::E02, self.start_line)),
            _ => None,
        }
    }

    /// Whether the token that is begun has as many bytes as one may have.
    #[inline(always)]
    fn is_full(self) -> bool
        requires { self.start ≤ self.at }
        ensures { result ≡ is_full_at self }
    {
        self.at - self.start >= 4096
    }

    /// The place behind a byte, with what that byte belongs to.
    #[inline(always)]
    fn on(self, byte: u8, inside: Inside) -> Place
        requires at { self.at < 2 ^ 30 }
        requires line { self.line ≤ self.at + 1 }
        ensures { result ≡ moved self byte inside }
    {
        let line = if byte == b'\n' {
            self.line + 1
        } else {
            self.line
        };
        Place {
            at: self.at + 1,
            line,
            inside,
            ..self
        }
    }

    /// The place behind a blank between tokens.
    #[inline(always)]
    pub fn behind_blank(self, byte: u8) -> Place
        requires at { self.at < 2 ^ 30 }
        requires line { self.line ≤ self.at + 1 }
        ensures { result ≡ record self { at = self.at + 1; line = line_after byte self.line } }
    {
        self.on(byte, self.inside)
    }

    /// Whether a token may begin here.
    pub fn is_between(self) -> bool
        ensures { IsTrue result ↔ (self.inside ≡ Inside.Between) }
    {
        matches!(self.inside, Inside::Between)
    }

    /// The word of so many bytes that begins here.
    #[inline(always)]
    pub fn word_token(self, size: u32) -> Token
        requires { self.at + size ≤ 2 ^ 30 }
        ensures { result ≡ word_token self size }
    {
        Token {
            kind: Kind::Word,
            start: self.at,
            end: self.at + size,
            line: self.line,
        }
    }

    /// The place behind that word and the blank after it.
    #[inline(always)]
    pub fn behind_word(self, size: u32, blank: u8) -> Place
        requires at { self.at + size < 2 ^ 30 }
        requires line { self.line ≤ self.at + 1 }
        ensures exact { result ≡ behind_word self size blank }
    {
        let line = if blank == b'\n' {
            self.line + 1
        } else {
            self.line
        };
        Place {
            at: self.at + size + 1,
            line,
            start: self.at,
            start_line: self.line,
            inside: Inside::Between,
        }
    }

    /// The place behind a byte that may begin a token.
    #[inline(always)]
    fn after_first(self, mode: Mode, byte: u8) -> Place
        requires at { self.at < 2 ^ 30 }
        requires line { self.line ≤ self.at + 1 }
        ensures { result ≡ begins mode self byte }
    {
        if is_blank(byte) {
            return self.on(byte, Inside::Between);
        }
        let begun = Place {
            start: self.at,
            start_line: self.line,
            ..self
        };
        if byte == b'"' {
            let quoted = begun.on(byte, Inside::Quoted);
            return Place {
                start: self.at + 1,
                ..quoted
            };
        }
        if !is_graphic(byte) {
            return begun.on(byte, Inside::Stopped(Code::E01));
        }
        match mode {
            Mode::Lef => {
                if byte == b'#' {
                    return begun.on(byte, Inside::Comment);
                }
            }
            Mode::Spef => {
                if byte == b'/' {
                    return begun.on(byte, Inside::Slash);
                }
            }
        }
        begun.on(byte, Inside::Word)
    }

    /// The place behind a byte that ends a word or belongs to it.
    #[inline(always)]
    fn after_word_byte(self, byte: u8) -> Place
        requires at { self.at < 2 ^ 30 }
        requires sound { IsSound self }
        ensures { result ≡ continues self byte }
    {
        if is_blank(byte) {
            return self.on(byte, Inside::Between);
        }
        if !is_graphic(byte) {
            return self.on(byte, Inside::Stopped(Code::E01));
        }
        if self.is_full() {
            return self.on(byte, Inside::Stopped(Code::E02));
        }
        self.on(byte, Inside::Word)
    }

    /// The token from its start to this place.
    #[inline(always)]
    fn token(self, kind: Kind) -> Token
        ensures { result ≡ token_at kind self }
    {
        Token {
            kind,
            start: self.start,
            end: self.at,
            line: self.start_line,
        }
    }

    /// The token that a byte closes.
    #[tactic(auto, unfolding(crate::specs::Tokens::closed_by))]
    #[inline(always)]
    pub fn closed_by(self, byte: u8) -> Option<Token>
        ensures { result ≡ closed_by_byte self byte }
    {
        match self.inside {
            Inside::Word | Inside::Slash => {
                if is_blank(byte) {
                    Some(self.token(Kind::Word))
                } else {
                    None
                }
            }
            Inside::Quoted => {
                if byte == b'"' {
                    Some(self.token(Kind::Quoted))
                } else {
                    None
                }
            }
            _ => None,
        }
    }

    /// The word that the text's end closes here.
    #[tactic(auto, unfolding(crate::specs::Tokens::closed_at_end))]
    pub fn closed_at_end(self) -> Option<Token>
        ensures { result ≡ closed_at_end_of self }
    {
        match self.inside {
            Inside::Word | Inside::Slash => Some(self.token(Kind::Word)),
            _ => None,
        }
    }

    /// The place behind a byte.
    #[tactic(auto, unfolding(crate::specs::Tokens::next))]
    #[inline(always)]
    pub fn after_byte(self, mode: Mode, byte: u8) -> Place
        requires at { self.at < 2 ^ 30 }
        requires sound { IsSound self }
        ensures exact { result ≡ next mode self byte }
        ensures at { result.at ≤ self.at + 1 }
        ensures sound { IsSound result }
    {
        match self.inside {
            Inside::Between => self.after_first(mode, byte),
            Inside::Comment => {
                if byte == b'\n' {
                    return self.on(byte, Inside::Between);
                }
                self.on(byte, Inside::Comment)
            }
            Inside::Slash => {
                if byte == b'/' {
                    return self.on(byte, Inside::Comment);
                }
                self.after_word_byte(byte)
            }
            Inside::Word => self.after_word_byte(byte),
            Inside::Quoted => {
                if byte == b'"' {
                    return self.on(byte, Inside::Between);
                }
                if self.is_full() {
                    return self.on(byte, Inside::Stopped(Code::E02));
                }
                if byte == b'\\' {
                    return self.on(byte, Inside::Escaped);
                }
                self.on(byte, Inside::Quoted)
            }
            Inside::Escaped => {
                if self.is_full() {
                    return self.on(byte, Inside::Stopped(Code::E02));
                }
                self.on(byte, Inside::Quoted)
            }
            Inside::Stopped(_) => self,
        }
    }
}
