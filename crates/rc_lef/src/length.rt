//! Numbers of LEF.

ghost use Rattle.std.specs.Prelude.{◌≡◌, ◌≤ℤ◌, ◌≤◌, pos, negsuc, IfOk};
ghost use Rattle.rc_lef.specs.Lengths.{length_read, positive, not_negative, length_in, count_read};

use crate::units::Units;
use rc_fixed::{is_decimal, parse_len, parse_whole};
use rc_keys::Code;

/// Which lengths a statement takes.
#[derive(Clone, Copy, Debug, PartialEq, Eq)]
pub enum Range {
    Any,
    Above0,
    AtLeast0,
}

/// A length in units, or the code of its refusal.
#[tactic(auto, unfolding(crate::specs::Lengths::length_read))]
pub fn read_length(units: Option<Units>, text: &[u8]) -> Result<i32, Code>
    ensures value { result ≡ length_read units text.now }
    ensures range { IfOk result (λ z. (negsuc 536870911 ≤ℤ z) × (z ≤ℤ pos 536870912)) }
{
    let Some(units) = units else {
        if is_decimal(text) {
            return Err(Code::E08);
        }
        return Err(Code::E05);
    };
    match parse_len(text, units.in_a_micron()) {
        Ok(length) => Ok(length),
        Err(_) => Err(Code::E05),
    }
}

/// A length above 0 in units, or the code of its refusal.
pub fn read_positive(units: Option<Units>, text: &[u8]) -> Result<i32, Code>
    ensures { result ≡ positive (length_read units text.now) }
{
    match read_length(units, text) {
        Ok(length) => {
            if length > 0 {
                Ok(length)
            } else {
                Err(Code::E05)
            }
        }
        Err(code) => Err(code),
    }
}

/// A length of at least 0 in units, or the code of its refusal.
fn read_not_negative(units: Option<Units>, text: &[u8]) -> Result<i32, Code>
    ensures { result ≡ not_negative (length_read units text.now) }
{
    match read_length(units, text) {
        Ok(length) => {
            if length < 0 {
                Err(Code::E05)
            } else {
                Ok(length)
            }
        }
        Err(code) => Err(code),
    }
}

/// A length of this range in units, or the code of its refusal.
pub fn read_in_range(range: Range, units: Option<Units>, text: &[u8]) -> Result<i32, Code>
    ensures { result ≡ length_in range (length_read units text.now) }
{
    match range {
        Range::Any => read_length(units, text),
        Range::Above0 => read_positive(units, text),
        Range::AtLeast0 => read_not_negative(units, text),
    }
}

/// How many rows or columns of cuts there are: a whole number from 1 to 1024.
#[tactic(auto, unfolding(crate::specs::Lengths::count_read))]
pub fn read_count(text: &[u8]) -> Option<u16>
    ensures { result ≡ count_read text.now }
{
    let Some(count) = parse_whole(text) else {
        return None;
    };
    if count < 1 {
        return None;
    }
    if count > 1024 {
        return None;
    }
    Some(count as u16)
}
