//! Decimals with a sign and an exponent, taken apart.

ghost use Rattle.std.specs.Prelude.{◌≡◌, ◌≤◌, ◌+◌, position, length, true, false, MatchOption};
ghost use Rattle.std.specs.List.{list_all, list_any, before_first, after_first};
ghost use Rattle.std.specs.Str.Parse.{digits_value};
ghost use Rattle.rc_fixed.specs.Decimal.{is_point as is_point_byte};
ghost use Rattle.rc_fixed.specs.Numeral.{is_digit as is_digit_byte, is_e as is_e_byte, without_sign as without_sign_of, is_negative as is_negative_text, is_exponent as is_exponent_text, is_decimal as is_decimal_text};
ghost use Rattle.rc_fixed.specs.Steps.{AreDigits};

/// Whether a byte is a decimal digit.
fn is_digit(byte: u8) -> bool
    ensures { result ≡ is_digit_byte byte }
{
    byte.is_ascii_digit()
}

/// Whether a byte is `e` or `E`.
fn is_e(byte: u8) -> bool
    ensures { result ≡ is_e_byte byte }
{
    byte == b'e' || byte == b'E'
}

/// Whether all bytes are decimal digits.
pub fn are_digits(digits: &[u8]) -> bool
    ensures { result ≡ list_all is_digit_byte digits.now }
{
    digits.iter().all(|byte| is_digit(*byte))
}

/// A text without its sign.
pub fn without_sign(text: &[u8]) -> &[u8]
    ensures { result.now ≡ without_sign_of text.now }
{
    match text {
        [first, rest @ ..] => {
            if *first == b'+' || *first == b'-' {
                rest
            } else {
                text
            }
        }
        [] => text,
    }
}

/// Whether a text begins with `-`.
pub fn is_negative(text: &[u8]) -> bool
    ensures { result ≡ is_negative_text text.now }
{
    match text {
        [first, ..] => *first == b'-',
        [] => false,
    }
}

/// A text cut in two: what stands before a byte, what stands behind it, and whether it is there.
#[derive(Debug, Drop)]
pub struct Cut<'a> {
    pub before: &'a [u8],
    pub behind: &'a [u8],
    pub found: bool,
}

/// Where the first `e` or `E` stands.
fn first_e(text: &[u8]) -> Option<usize>
    ensures { result ≡ position is_e_byte text.now }
{
    text.iter().position(|byte| is_e(*byte))
}

/// Where the first point stands.
fn first_point(text: &[u8]) -> Option<usize>
    ensures { result ≡ position is_point_byte text.now }
{
    text.iter().position(|byte| *byte == b'.')
}

/// A text cut at its first `e` or `E`.
#[tactic(auto, using(crate::proofs::Cuts::cut_steps))]
pub fn cut_at_e(text: &[u8]) -> Cut<'_>
    ensures before { result.before.now ≡ before_first is_e_byte text.now }
    ensures behind { result.behind.now ≡ after_first is_e_byte text.now }
    ensures found { result.found ≡ list_any is_e_byte text.now }
{
    match first_e(text) {
        Some(at) => Cut {
            before: &text[..at],
            behind: &text[at + 1..],
            found: true,
        },
        None => Cut {
            before: text,
            behind: b"",
            found: false,
        },
    }
}

/// A text cut at its first point.
#[tactic(auto, using(crate::proofs::Cuts::cut_steps))]
pub fn cut_at_point(text: &[u8]) -> Cut<'_>
    ensures before { result.before.now ≡ before_first is_point_byte text.now }
    ensures behind { result.behind.now ≡ after_first is_point_byte text.now }
{
    match first_point(text) {
        Some(at) => Cut {
            before: &text[..at],
            behind: &text[at + 1..],
            found: true,
        },
        None => Cut {
            before: text,
            behind: b"",
            found: false,
        },
    }
}

/// Whether a text is an optional sign and one or two digits.
fn is_exponent(text: &[u8]) -> bool
    ensures { result ≡ is_exponent_text text.now }
{
    let digits = without_sign(text);
    if digits.is_empty() {
        return false;
    }
    if digits.len() > 2 {
        return false;
    }
    are_digits(digits)
}

/// The number of an exponent's digits.
fn exponent_value(digits: &[u8]) -> u32
    requires digits { list_all is_digit_byte digits.now ≡ true }
    requires short { length digits.now ≤ 2 }
    ensures value { result ≡ digits_value 10 digits.now }
    ensures small { result ≤ 99 }
{
    let mut value = 0;
    for digit in digits {
        value = 10 * value + u32::from(*digit - b'0');
    }
    value
}

/// The digits of a decimal, and how far its exponent raises and lowers it.
#[derive(Debug, Drop)]
pub struct Decimal<'a> {
    pub whole: &'a [u8],
    pub fraction: &'a [u8],
    pub raised: usize,
    pub lowered: usize,
}

/// The digits of a decimal without its sign. None exactly where the text is no decimal.
pub fn digits_of(text: &[u8]) -> Option<Decimal<'_>>
    ensures { MatchOption result (is_decimal_text text.now ≡ false) (λ decimal. AreDigits text.now decimal.whole.now decimal.fraction.now decimal.raised decimal.lowered) }
{
    let cut = cut_at_e(without_sign(text));
    let digits = cut_at_point(cut.before);
    let whole = digits.before;
    let fraction = digits.behind;
    if !are_digits(whole) {
        return None;
    }
    if !are_digits(fraction) {
        return None;
    }
    let size = whole.len() + fraction.len();
    if size == 0 {
        return None;
    }
    if !cut.found {
        return Some(Decimal {
            whole,
            fraction,
            raised: 0,
            lowered: 0,
        });
    }
    if !is_exponent(cut.behind) {
        return None;
    }
    let shift = exponent_value(without_sign(cut.behind)) as usize;
    if is_negative(cut.behind) {
        return Some(Decimal {
            whole,
            fraction,
            raised: 0,
            lowered: shift,
        });
    }
    Some(Decimal {
        whole,
        fraction,
        raised: shift,
        lowered: 0,
    })
}

/// Whether a text is a decimal.
pub fn is_decimal(text: &[u8]) -> bool
    ensures { result ≡ is_decimal_text text.now }
{
    digits_of(text).is_some()
}
