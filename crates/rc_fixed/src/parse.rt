//! The numbers of the formats.

ghost use Rattle.std.specs.Prelude.{◌≡◌, ◌≤◌, ◌<◌, ◌*◌, ◌^◌, ◌⊎◌, min, true, if◌then◌else◌, IfOk, IfSome, pos, negsuc, neg_ℤ, ◌≤ℤ◌};
ghost use Rattle.std.specs.List.{list_all};
ghost use Rattle.std.specs.Str.Parse.{digits_value};
ghost use Rattle.rc_fixed.specs.Numeral.{is_digit as is_digit_byte, scaled_value, rule_of, fixed_of, len_of, whole_of};
ghost use Rattle.rc_fixed.specs.Steps.{most};
ghost use Rattle.rc_fixed.specs.Units.{IsUnits};

use crate::numeral::{are_digits, digits_of, is_negative, without_sign};
use crate::scale::scaled;
use crate::{Fixed, NumFault};

/// A decimal that doesn't begin with `-`, times 10^places: a whole number, and at most this.
#[tactic(auto, unfolding(crate::specs::Numeral::scaled_value))]
fn scaled_number(text: &[u8], places: usize, limit: u128) -> Result<u128, NumFault>
    requires places { places ≤ 18 }
    requires limit { limit < most }
    ensures value { result ≡ scaled_value places limit text.now }
    ensures small { IfOk result (λ number. number ≤ limit) }
{
    if is_negative(text) {
        return Err(NumFault::Form);
    }
    let Some(decimal) = digits_of(text) else {
        return Err(NumFault::Form);
    };
    let up = decimal.raised + places;
    let down = decimal.fraction.len() + decimal.lowered;
    let quotient = scaled(decimal.whole, decimal.fraction, up, down);
    if !quotient.is_whole {
        return Err(NumFault::TooFine);
    }
    if quotient.floor > limit {
        return Err(NumFault::TooLarge);
    }
    Ok(quotient.floor)
}

/// A capacitance or a resistance, in units of 10^-9: a decimal that doesn't begin with `-`.
///
/// # Errors
///
/// In this order: `Form` where it is no such decimal; `TooFine` where it isn't whole in those units; `TooLarge`
/// where it is above 10^13 of them.
#[tactic(auto, unfolding(crate::specs::Numeral::rule_of))]
pub fn parse_rule(text: &[u8]) -> Result<u64, NumFault>
    ensures { result ≡ rule_of text.now }
{
    match scaled_number(text, 9, 10_000_000_000_000) {
        Ok(number) => Ok(number as u64),
        Err(fault) => Err(fault),
    }
}

/// A number in units of 10^-15, raised by 10^shift, where the shift is 0 or 3: a decimal that doesn't begin with `-`.
///
/// # Errors
///
/// In this order: `Form` where it is no such decimal; `TooFine` where it isn't whole in those units; `TooLarge`
/// where it is above 10^36 of them.
#[tactic(auto, unfolding(crate::specs::Numeral::fixed_of))]
pub fn parse_fixed(text: &[u8], shift: u8) -> Result<Fixed, NumFault>
    requires { (shift ≡ 0) ⊎ (shift ≡ 3) }
    ensures { result ≡ fixed_of shift text.now }
{
    match scaled_number(
        text,
        15 + shift as usize,
        1_000_000_000_000_000_000_000_000_000_000_000_000,
    ) {
        Ok(number) => Ok(Fixed(number)),
        Err(fault) => Err(fault),
    }
}

/// How many parts of 10^-7 half a unit has.
fn parts_of_half(m: u32) -> u128
    requires { IsUnits m }
    ensures product { 2 * (m * result) ≡ 10 ^ 7 }
    ensures few { result ≤ 50000 }
    ensures some { 1 ≤ result }
{
    5_000_000 / u128::from(m)
}

/// A number with a sign.
fn signed(size: u32, negative: bool) -> i32
    requires { size ≤ 2 ^ 29 }
    ensures value { result ≡ (if negative then neg_ℤ (pos size) else pos size) }
    ensures range { (negsuc 536870911 ≤ℤ result) × (result ≤ℤ pos 536870912) }
{
    if negative {
        -(size as i32)
    } else {
        size as i32
    }
}

/// A length in units of 1/m: the nearest whole number, halves away from zero.
///
/// # Errors
///
/// `Form` where it is no decimal; `TooLarge` where it is more than 2^29 from zero. `TooFine` never comes.
#[tactic(auto, unfolding(crate::specs::Numeral::len_of))]
pub fn parse_len(text: &[u8], m: u32) -> Result<i32, NumFault>
    requires { IsUnits m }
    ensures value { result ≡ len_of m text.now }
    ensures range { IfOk result (λ z. (negsuc 536870911 ≤ℤ z) × (z ≤ℤ pos 536870912)) }
{
    let Some(decimal) = digits_of(text) else {
        return Err(NumFault::Form);
    };
    let up = decimal.raised + 7;
    let down = decimal.fraction.len() + decimal.lowered;
    let quotient = scaled(decimal.whole, decimal.fraction, up, down);
    let size = (quotient.floor / parts_of_half(m) + 1) / 2;
    if size > 1 << 29 {
        return Err(NumFault::TooLarge);
    }
    Ok(signed(size as u32, is_negative(text)))
}

/// What digits are worth, up to 10^9.
fn small_value(digits: &[u8]) -> u64
    requires { list_all is_digit_byte digits.now ≡ true }
    ensures { result ≡ min (10 ^ 9) (digits_value 10 digits.now) }
{
    let mut value = 0;
    for digit in digits {
        value = u64::min(1_000_000_000, value * 10 + u64::from(*digit - b'0'));
    }
    value
}

/// A whole number: an optional sign and digits, at most 2^29 from zero. None exactly where the text is none.
#[tactic(auto, unfolding(crate::specs::Numeral::whole_of), using(crate::proofs::Wholes::whole_steps))]
pub fn parse_whole(text: &[u8]) -> Option<i32>
    ensures value { result ≡ whole_of text.now }
    ensures range { IfSome result (λ z. (negsuc 536870911 ≤ℤ z) × (z ≤ℤ pos 536870912)) }
{
    let digits = without_sign(text);
    if digits.is_empty() {
        return None;
    }
    if !are_digits(digits) {
        return None;
    }
    let size = small_value(digits);
    if size > 1 << 29 {
        return None;
    }
    Some(signed(size as u32, is_negative(text)))
}
