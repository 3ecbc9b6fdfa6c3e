//! Refusals, and the faults of readers.

ghost use Rattle.std.specs.Prelude.{◌≡◌};
ghost use Rattle.rc_keys.specs.declared.fault.Fault.TheVariants as fault;

use crate::{Code, Quantity};
use rc_fixed::NoMemory;
use thiserror::Error;

/// Why an input is refused, with its place where it has one.
#[derive(Clone, Copy, Debug, PartialEq, Eq, Error)]
pub enum Refusal {
    /// A token or a file's end: its code and the line, from 1, of its statement's first token.
    #[error("{code} in line {line}")]
    At {
        code: Code,
        line: u32,
    },
    /// A routing layer, or a cut layer where `cut`, that is in use and has no rules, by its number.
    #[error("a layer in use without rules")]
    NoRules {
        cut: bool,
        number: u8,
    },
    /// Two nets that meet on a routing layer; the place is the lower left corner of what their shapes
    /// have in common, in units of 1/M micron. The earlier shape's net is first.
    #[error("a short")]
    Short {
        first: u32,
        second: u32,
        layer: u8,
        x: i32,
        y: i32,
    },
    /// A count above its limit.
    #[error("a count above its limit")]
    Limit {
        what: Quantity,
    },
}

/// Why a reader or the engine gives no value.
#[derive(Clone, Copy, Debug, PartialEq, Eq, Error)]
pub enum Fault {
    /// The input is refused.
    #[error(transparent)]
    Refused(Refusal),
    /// Memory ran out.
    #[error("no memory")]
    NoMemory,
}

impl From<Refusal> for Fault {
    ghost from_gives = { λ refusal answer. answer ≡ fault.Refused refusal };

    fn from(refusal: Refusal) -> Self {
        Fault::Refused(refusal)
    }
}

impl From<NoMemory> for Fault {
    ghost from_gives = { λ _ answer. answer ≡ fault.NoMemory };

    fn from(_: NoMemory) -> Self {
        Fault::NoMemory
    }
}
