//! The reader of SPEF texts.

ghost use Rattle.std.specs.Prelude.{◌≡◌, ◌≤◌, ◌^◌, Ok, length, IfOk, IfErr};
ghost use Rattle.rc_spef.specs.Rows.{spef_outcome};
ghost use Rattle.rc_keys.specs.declared.token.Mode.TheVariants as mode;
ghost use Rattle.rc_keys.specs.Lexemes.{words_of};
ghost use Rattle.rc_spef.specs.declared.value.Spef.{Spef as SpefOf};
ghost use Rattle.rc_spef.specs.Text.{spef_text};
ghost use Rattle.rc_spef.specs.Writable.{IsWritable};
ghost use Rattle.rc_spef.specs.Grammar.{IsSpef};
ghost use Rattle.rc_spef.specs.Reading.{IsRefused, ReadsAs};

use crate::grammar::Given;
use crate::key::Keys;
use crate::state::State;
use crate::value::Spef;
use rc_keys::{Code, Ending, Fault, Mode, Refusal};
use std::alloc::Global;

/// Reads a SPEF text (IEEE 1481, the chapter on SPEF, in the profile of [`crate::Spef`]). A text is read as a value exactly where it
/// says that value by the grammar, and what [`crate::text`] wrote says the value that it was given.
///
/// # Errors
///
/// The first refused token, with its code and its statement's line: E01 and E02 for a byte that no word may hold and a token that is
/// too long or not closed, E03 for a token that doesn't fit, E04 for what the profile leaves out by name, E05 for a number, E06 for a
/// number that the map doesn't have, E07 for what stands twice, E16 for a text that ends too early or a header that lacks a required
/// word. `NoMemory` for want of memory.
pub fn read(alloc: Global, text: &[u8]) -> Result<Spef, Fault>
    requires { length text.now ≤ 2 ^ 30 }
    ensures value { IfOk result (λ spef. spef_outcome text.now ≡ Ok spef) }
    ensures refused { IfErr result (IsRefused (spef_outcome text.now)) }
    ensures says { IfOk result (λ spef. IsSpef (words_of mode.Spef text.now) spef) }
    ensures said { (spef : SpefOf) → IsSpef (words_of mode.Spef text.now) spef → ReadsAs result spef }
    ensures back { (spef : SpefOf) → IsWritable spef → text.now ≡ spef_text spef → ReadsAs result spef }
{
    let keys = Keys::new();
    let given = Given { alloc, keys: &keys };
    let mut state = State::new(alloc);
    match rc_keys::read(&mut state, &given, Mode::Spef, text)? {
        Ending::Read => Ok(state.into_spef(alloc)),
        Ending::Refuses(refusal) => Err(Fault::Refused(refusal)),
        Ending::Unfinished { begun: _, last } => Err(Fault::Refused(Refusal::At {
            code: Code::E16,
            line: last,
        })),
    }
}
