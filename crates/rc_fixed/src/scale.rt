//! What digits are worth, times and over powers of ten.

ghost use Rattle.std.specs.Prelude.{◌≡◌, ◌≤◌, ◌<◌, ◌+◌, ◌-◌, ◌*◌, ◌^◌, ◌++◌, min, take, drop, length, true, slice_index_or};
ghost use Rattle.std.specs.List.{list_all};
ghost use Rattle.std.specs.Str.Parse.{digits_value};
ghost use Rattle.rc_fixed.specs.Numeral.{is_digit as is_digit_byte};
ghost use Rattle.rc_fixed.specs.Steps.{most, IsQuotient};

/// Numbers are counted up to this one.
const MOST: u128 = 10_000_000_000_000_000_000_000_000_000_000_000_000;

/// A number with one digit more.
fn push_digit(value: u128, digit: u8) -> u128
    requires value { value ≤ most }
    requires digit { is_digit_byte digit ≡ true }
    ensures { result ≡ min most (value * 10 + (digit - 48)) }
{
    u128::min(MOST, value * 10 + u128::from(digit - b'0'))
}

/// A number times a power of ten.
fn raised(value: u128, times: usize) -> u128
    requires { value ≤ most }
    ensures value { result ≡ min most (value * 10 ^ times) }
    ensures small { result ≤ most }
{
    let mut value = value;
    for _turn in 0..times {
        value = u128::min(MOST, value * 10);
    }
    value
}

/// A digit of those before and behind the point.
fn digit_at(whole: &[u8], fraction: &[u8], at: usize) -> u8
    requires { at < length (whole.now ++ fraction.now) }
    ensures { result ≡ slice_index_or (whole.now ++ fraction.now) at 0 }
{
    if at < whole.len() {
        whole[at]
    } else {
        fraction[at - whole.len()]
    }
}

/// What the digits from one place to another are worth.
fn digits_between(whole: &[u8], fraction: &[u8], from: usize, to: usize) -> u128
    requires digits { list_all is_digit_byte (whole.now ++ fraction.now) ≡ true }
    requires from { from ≤ to }
    requires to { to ≤ length (whole.now ++ fraction.now) }
    ensures value { result ≡ min most (digits_value 10 (take (to - from) (drop from (whole.now ++ fraction.now)))) }
    ensures small { result ≤ most }
{
    let mut value = 0;
    for at in from..to {
        value = push_digit(value, digit_at(whole, fraction, at));
    }
    value
}

/// The whole part of a number, up to `MOST`, and whether that is all of it.
#[derive(Clone, Copy, Debug)]
pub struct Quotient {
    pub floor: u128,
    pub is_whole: bool,
}

/// The number of these digits, raised by one power of ten and lowered by another.
pub fn scaled(whole: &[u8], fraction: &[u8], up: usize, down: usize) -> Quotient
    requires digits { list_all is_digit_byte (whole.now ++ fraction.now) ≡ true }
    ensures { IsQuotient result (digits_value 10 (whole.now ++ fraction.now) * 10 ^ up) (10 ^ down) }
{
    let total = whole.len() + fraction.len();
    if up >= down {
        let floor = raised(digits_between(whole, fraction, 0, total), up - down);
        return Quotient {
            floor,
            is_whole: true,
        };
    }
    let kept = total.saturating_sub(down - up);
    Quotient {
        floor: digits_between(whole, fraction, 0, kept),
        is_whole: digits_between(whole, fraction, kept, total) == 0,
    }
}
