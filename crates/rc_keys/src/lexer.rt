//! The lexer of a text that comes in pieces.

ghost use Rattle.std.specs.Prelude.{◌≡◌, ◌<◌, ◌≤◌, ◌^◌, ◌+◌, ◌++◌, List, ℕ, length, false, IfSome, IfOk, IsNone, OnOk, OnErr, [], Some, None};
ghost use Rattle.rc_keys.specs.Tokens.{after, closed_from, listed, IsSound};
ghost use Rattle.rc_keys.specs.Lexing.{Fed, FedTells, Finished, FinishTells, Again};
ghost use Rattle.rc_keys.specs.declared.token.Token.{Token};

use crate::token::{Inside, Place};
use crate::{Fault, Mode, Refusal, Token};
use rc_fixed::{List, NoMemory};
use std::alloc::Global;
use std::marker::Model;

/// Cuts a text into tokens, piece by piece.
///
/// It keeps the bytes of the feeds that answered Ok. After a fault it answers that fault again. What the tokens and the
/// first fault of a text are is a relation, `AreTokens`: the text is cut into blanks, comments, words and quoted texts.
/// `tokens_are_pieces` says that the lexer's are these, and `parts_make_tokens` that they come in any parts of the text.
#[derive(Drop)]
pub struct Lexer {
    mode: Mode,
    text: Vec<u8>,
    place: Place,
    finished: bool,
    fault: Option<Fault>,
}

impl Model for Lexer {
    ghost use Rattle.std.specs.Prelude.{◌≡◌, ◌≤◌, length};
    ghost use Rattle.rc_keys.specs.Lexing.{Lexing};
    ghost use Rattle.rc_keys.specs.Tokens.{begin, after, IsSound};

    ghost Value = { Lexing };

    ghost view = { λ l. record { mode = l.mode; text = l.text.items; finished = l.finished; fault = l.fault } };

    ghost invariant = { λ l. (l.place ≡ after l.mode begin l.text.items) × IsSound l.place × (l.place.at ≤ length l.text.items) };
}

/// Appends the token, where there is one.
fn append(out: &mut List<Token>, token: Option<Token>) -> Result<(), NoMemory>
    ensures ok { OnOk result (out.new ≡ out.old ++ listed token) }
    ensures err { OnErr result (out.new ≡ out.old) }
{
    if let Some(token) = token {
        out.push(token)?;
    }
    Ok(())
}

/// Goes over a piece, and appends each token that is closed in it.
fn over(mode: Mode, place: Place, piece: &[u8], out: &mut List<Token>) -> Result<Place, NoMemory>
    requires at { place.at + length piece.now ≤ 2 ^ 30 }
    requires sound { IsSound place }
    ensures place { IfOk result (λ p. p ≡ after mode place piece.now) }
    ensures sound { IfOk result (λ p. IsSound p × (p.at ≤ place.at + length piece.now)) }
    ensures tokens { OnOk result (out.new ≡ out.old ++ closed_from mode place piece.now) }
    ensures part { OnErr result ((added rest : List Token) × (closed_from mode place piece.now ≡ added ++ rest) × (out.new ≡ out.old ++ added)) }
{
    let mut place = place;
    for byte in piece {
        let Ok(()) = append(out, place.closed_by(*byte)) else {
            return Err(NoMemory);
        };
        place = place.after_byte(mode, *byte);
    }
    Ok(place)
}

impl Lexer {
    /// A lexer of an empty text.
    #[tactic(auto, unfolding(crate::specs::Tokens::after))]
    pub fn new(alloc: Global, mode: Mode) -> Lexer
        ensures { result ≡ record { mode = mode; text = []; finished = false; fault = None } }
    {
        Lexer {
            mode,
            text: Vec::new(alloc),
            place: Place::BEGIN,
            finished: false,
            fault: None,
        }
    }

    /// The bytes of the feeds that answered Ok.
    pub fn text(&self) -> &[u8]
        ensures { result.now ≡ self.now.text }
    {
        &self.text
    }

    /// Answers this fault, now and from then on.
    fn fail(&mut self, fault: Fault) -> Result<(), Fault>
        ensures result { result ≡ Err fault }
        ensures lexer { self.new ≡ record self.old { fault = Some fault } }
    {
        self.fault = Some(fault);
        Err(fault)
    }

    /// Takes the next piece of the text, and appends the tokens that it closes.
    ///
    /// `closed_are_tokens` says which tokens of a text are closed in it.
    ///
    /// # Errors
    ///
    /// E01 or E02 at the text's first fault; all tokens before it have been appended. `NoMemory` for want of
    /// memory; some first tokens have been appended.
    pub fn feed(&mut self, piece: &[u8], out: &mut List<Token>) -> Result<(), Fault>
        requires room { length self.old.text + length piece.now ≤ 2 ^ 30 }
        requires open { self.old.finished ≡ false }
        ensures fed { IsNone self.old.fault → Fed result piece.now self.old self.new out.old out.new }
        ensures cut { IsNone self.old.fault → FedTells result piece.now self.old }
        ensures again { IfSome self.old.fault (λ fault. Again fault result self.old self.new out.old out.new) }
    {
        if let Some(fault) = self.fault {
            return Err(fault);
        }
        let Ok(place) = over(self.mode, self.place, piece, out) else {
            return self.fail(Fault::NoMemory);
        };
        if let Inside::Stopped(code) = place.inside {
            let line = place.start_line;
            return self.fail(Fault::Refused(Refusal::At { code, line }));
        }
        let Ok(()) = self.text.extend_from_slice(piece) else {
            return self.fail(Fault::NoMemory);
        };
        self.place = place;
        Ok(())
    }

    /// Ends the text, and appends the token that its end closes. So all tokens of the text have been appended: those of
    /// the pieces that it is cut into.
    ///
    /// # Errors
    ///
    /// E02 where a quote is open. `NoMemory` for want of memory.
    pub fn finish(&mut self, out: &mut List<Token>) -> Result<(), Fault>
        requires { self.old.finished ≡ false }
        ensures finished { IsNone self.old.fault → Finished result self.old self.new out.old out.new }
        ensures cut { IsNone self.old.fault → FinishTells result self.old }
        ensures again { IfSome self.old.fault (λ fault. Again fault result self.old self.new out.old out.new) }
    {
        if let Some(fault) = self.fault {
            return Err(fault);
        }
        let place = self.place;
        if let Some((code, line)) = place.fault_at_end() {
            return self.fail(Fault::Refused(Refusal::At { code, line }));
        }
        let Ok(()) = append(out, place.closed_at_end()) else {
            return self.fail(Fault::NoMemory);
        };
        self.finished = true;
        Ok(())
    }
}
