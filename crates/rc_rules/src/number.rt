//! The numbers of a rule file.

ghost use Rattle.std.specs.Prelude.{◌≡◌, ◌≤◌, ◌^◌, IfSome};
ghost use Rattle.rc_rules.specs.Numbers.{length_of, share_of, resistance_of, IsNumber};
ghost use Rattle.rc_rules.specs.Scales.{IsLength};

use rc_fixed::{parse_len, parse_rule, per_unit};
use rc_lef::Units;

/// A length of at least one unit, in units of 1/M micron. None comes for all else.
#[tactic(auto, unfolding(crate::specs::Numbers::length_of))]
pub fn length(units: Units, word: &[u8]) -> Option<u32>
    ensures value { result ≡ length_of units word.now }
    ensures range { IfSome result IsLength }
{
    match parse_len(word, units.in_a_micron()) {
        Ok(length) => {
            if length >= 1 {
                Some(length as u32)
            } else {
                None
            }
        }
        Err(_) => None,
    }
}

/// A capacitance or a resistance for a micron, for one unit of length, in units of 10^-15. None comes for what is no such
/// number.
#[tactic(auto, unfolding(crate::specs::Numbers::share_of))]
pub fn share(units: Units, word: &[u8]) -> Option<u64>
    ensures value { result ≡ share_of units word.now }
    ensures range { IfSome result IsNumber }
{
    match parse_rule(word) {
        Ok(number) => Some(per_unit(number, units.in_a_micron()) as u64),
        Err(_) => None,
    }
}

/// A resistance in 10^-15 ohm. None comes for what is no such number.
#[tactic(auto, unfolding(crate::specs::Numbers::resistance_of))]
pub fn resistance(word: &[u8]) -> Option<u64>
    ensures { result ≡ resistance_of word.now }
{
    match parse_rule(word) {
        Ok(number) => Some(number * 1_000_000),
        Err(_) => None,
    }
}
