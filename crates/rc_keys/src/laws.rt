//! What holds of all texts and of all grammars. Nothing is computed here.

ghost use Rattle.rc_keys.specs.Statements.{AcceptsStatements, EndsAtLast, RefusesTokens, StaysRefused};
ghost use Rattle.rc_keys.specs.TokenLaws.{TokensArePieces, TokensAreOne, PiecesAreOne, FaultsFollowPieces, FaultsStay, ClosedAreTokens, WordsArePieces, LefExample, SpefExample, ForeignExample};
ghost use Rattle.rc_keys.specs.Parts.{PartsMakeTokens, EndIsFault, PartIsFault};

use crate::Grammar;

/// What is refused stays refused, and the refusal is at the first token that the rows refuse after those before it.
pub fn refusals_stay<C, G: Grammar<C>>(given: &C)
    ensures first { RefusesTokens (G.turn_of given.now) }
    ensures stays { StaysRefused (G.turn_of given.now) }
{
    let _ = given;
}

/// A text is accepted exactly where it is a row of statements.
///
/// A statement is here what the rows make one: tokens that they answer with `More`, and a last one with `Done`. Rows that
/// answer `Done` to each token, as those that skip a block may, make each token a statement. What a format calls a
/// statement is said by its own relation, which stands above its rows.
pub fn accepted_are_statements<C, G: Grammar<C>>(given: &C)
    ensures { AcceptsStatements (G.turn_of given.now) G.may_end }
{
    let _ = given;
}

/// A text that is unfinished is so at the line of its last token, or at line 1 where it has none.
pub fn unfinished_at_last<C, G: Grammar<C>>(given: &C)
    ensures { EndsAtLast (G.turn_of given.now) G.may_end }
{
    let _ = given;
}

/// The tokens of a text and its first fault are those of the pieces that it is cut into, and no others; so too a fault that
/// it has already, with the tokens before it. Each text that goes on from there has that fault.
pub fn tokens_are_pieces()
    ensures whole { TokensArePieces }
    ensures one { TokensAreOne }
    ensures cut { PiecesAreOne }
    ensures so_far { FaultsFollowPieces }
    ensures stays { FaultsStay }
{}

/// The tokens that are closed in a text are those of its tokens behind which a blank stands, and the quoted ones.
pub fn closed_are_tokens()
    ensures { ClosedAreTokens }
{}

/// What there is to read in a text is what the pieces say that it is cut into.
pub fn words_are_pieces()
    ensures { WordsArePieces }
{}

/// A text that is fed in any parts and finished: the calls append its tokens, or those before its fault, and answer the
/// fault.
pub fn parts_make_tokens()
    ensures tokens { PartsMakeTokens }
    ensures end { EndIsFault }
    ensures part { PartIsFault }
{}

/// Three small texts, with their tokens and faults worked by hand.
pub fn tokens_are_worked()
    ensures lef { LefExample }
    ensures spef { SpefExample }
    ensures foreign { ForeignExample }
{}
