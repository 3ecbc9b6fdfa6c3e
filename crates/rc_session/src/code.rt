//! The codes of refusals.

ghost use Rattle.std.specs.Prelude.{◌≡◌};
ghost use Rattle.rc_session.specs.Replies.{refusal_code};

use rc_keys::{Code, Refusal};

/// The code that a refusal is told by.
pub fn code_of(refusal: &Refusal) -> Code
    ensures { result ≡ refusal_code refusal.now }
{
    match *refusal {
        Refusal::At { code, .. } => code,
        Refusal::NoRules { .. } => Code::E11,
        Refusal::Short { .. } => Code::E13,
        Refusal::Limit { .. } => Code::E14,
    }
}
