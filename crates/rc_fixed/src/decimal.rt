//! The exact decimal of a number.

ghost use Rattle.std.specs.Prelude.{◌≡◌, ◌+◌, ◌<◌, ◌≤◌, ◌^◌, ◌++◌, drop, length, take};
ghost use Rattle.std.specs.Fmt.{decimal};
ghost use Rattle.rc_fixed.specs.Decimal.{decimal_text, fraction_text};

use itoa::Buffer;

/// A number in units of 10^-15.
#[derive(Clone, Copy, Debug, PartialEq, Eq, PartialOrd, Ord)]
pub struct Fixed(pub u128);

/// One, in units of 10^-15.
const ONE: u128 = 1_000_000_000_000_000;

/// Writes the exact decimal of the value at the front of `out`, and answers its length in bytes.
///
/// It has a digit before the point, no zeros at its end, no point where the value is whole, and no
/// exponent. What stands behind it in `out` stays.
#[tactic(auto, using(crate::proofs::Behind::same_past))]
pub fn digits(value: Fixed, out: &mut [u8; 48]) -> usize
    ensures text { take result out.new ≡ decimal_text value.0 }
    ensures length { result ≡ length (decimal_text value.0) }
    ensures within { result ≤ 48 }
    ensures behind { drop result out.new ≡ drop result out.old }
{
    let end = put_whole(value.0 / ONE, out);
    put_fraction((value.0 % ONE) as u64, out, end)
}

/// Writes the digits before the point at the front, and answers where they end.
fn put_whole(whole: u128, out: &mut [u8; 48]) -> usize
    requires { whole < 10 ^ 24 }
    ensures end { result ≤ 24 }
    ensures text { take result out.new ≡ decimal whole }
    ensures behind { drop result out.new ≡ drop result out.old }
{
    let mut buffer = Buffer::new();
    let text = buffer.format(whole).as_bytes();
    out[..text.len()].copy_from_slice(text);
    text.len()
}

/// Writes from `at` on the point and behind it the digits of `rest` / 10^15, or nothing where `rest`
/// is 0, and answers where they end.
fn put_fraction(rest: u64, out: &mut [u8; 48], at: usize) -> usize
    requires rest { rest < 10 ^ 15 }
    requires room { at ≤ 24 }
    ensures end { (at ≤ result) × (result ≤ at + 16) }
    ensures text { take result out.new ≡ take at out.old ++ fraction_text rest }
    ensures behind { drop result out.new ≡ drop result out.old }
{
    if rest == 0 {
        return at;
    }
    out[at] = b'.';
    let mut rest = rest;
    let mut unit = ONE as u64;
    let mut end = at + 1;
    while rest != 0 {
        unit /= 10;
        out[end] = b'0' + (rest / unit) as u8;
        end += 1;
        rest %= unit;
    }
    end
}
