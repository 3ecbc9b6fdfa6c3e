//! Sums of capacitances.

ghost use Rattle.std.specs.Prelude.{◌≡◌, ◌+◌, ◌*◌, ◌<◌, ◌^◌, ◌++◌, drop, OnOk};
ghost use Rattle.std.specs.Fmt.{decimal};
ghost use Rattle.rc_fixed.specs.Decimal.{decimal_text, fraction_text};

use itoa::Buffer;
use rc_fixed::{Fixed, NoMemory, digits};
use std::marker::Model;

/// One, in units of 10^-15.
const ONE: u64 = 1_000_000_000_000_000;

/// A sum, as whole fF and the rest in 10^-15 fF. Contracts see it in 10^-15 fF.
#[derive(Drop)]
pub struct Amount {
    whole: u128,
    rest: u64,
}

impl Model for Amount {
    ghost use Rattle.std.specs.Prelude.{ℕ, ◌+◌, ◌*◌, ◌<◌, ◌^◌};

    ghost Value = { ℕ };

    ghost view = { λ amount. amount.whole * 10 ^ 15 + amount.rest };

    ghost invariant = { λ amount. amount.rest < 10 ^ 15 };
}

impl Amount {
    /// Nothing.
    pub fn zero() -> Amount
        ensures { result ≡ 0 }
    {
        Amount { whole: 0, rest: 0 }
    }

    /// Adds a value, where the sum stays below 2^128 fF.
    pub fn add(&mut self, value: Fixed)
        requires { self.old + value.0 < 10 ^ 15 * 2 ^ 128 }
        ensures { self.new ≡ self.old + value.0 }
    {
        let one = u128::from(ONE);
        let rest = self.rest + (value.0 % one) as u64;
        self.whole += value.0 / one + u128::from(rest / ONE);
        self.rest = rest % ONE;
    }

    /// Appends the exact decimal, in fF.
    pub fn push_to(&self, text: &mut Vec<u8>) -> Result<(), NoMemory>
        ensures { OnOk result (text.new.items ≡ text.old.items ++ decimal_text self.now) }
    {
        let mut whole = Buffer::new();
        text.extend_from_slice(whole.format(self.whole).as_bytes())?;
        push_fraction(text, self.rest)
    }
}

/// Appends the point and the digits behind it of so many units, or nothing where there are none.
fn push_fraction(text: &mut Vec<u8>, rest: u64) -> Result<(), NoMemory>
    requires { rest < 10 ^ 15 }
    ensures { OnOk result (text.new.items ≡ text.old.items ++ fraction_text rest) }
{
    let mut digits_of = [0; 48];
    let end = digits(Fixed(u128::from(rest)), &mut digits_of);
    text.extend_from_slice(without_first(&digits_of[..end]))?;
    Ok(())
}

/// What stands behind the first byte.
fn without_first(bytes: &[u8]) -> &[u8]
    ensures { result.now ≡ drop 1 bytes.now }
{
    match bytes {
        [] => bytes,
        [_, rest @ ..] => rest,
    }
}
