//! Numbers, as words.

ghost use Rattle.std.specs.Prelude.{◌≡◌, ◌<◌, ◌≤◌, ◌+◌, ◌*◌, ◌^◌, ◌==◌, true, false, length, drop, slice_index, MatchOption, nat_lt, not, ◌&&◌, ◌||◌};
ghost use Rattle.std.specs.Str.{all_ascii_digits};
ghost use Rattle.std.specs.Str.Parse.{digits_value};
ghost use Rattle.std.specs.List.{list_any, position_or_len};
ghost use Rattle.rc_spef.specs.References.{is_plain as is_plain_word, begins_star as begins_star_word, is_entry as is_entry_word, is_num as is_num_word};

/// Whether all bytes are digits.
fn are_digits(word: &[u8]) -> bool
    ensures { result ≡ all_ascii_digits word.now }
{
    for byte in word {
        if !byte.is_ascii_digit() {
            return false;
        }
    }
    true
}

/// Whether a word is one or more digits.
pub fn is_plain(word: &[u8]) -> bool
    ensures { result ≡ is_plain_word word.now }
{
    !word.is_empty() && are_digits(word)
}

/// A digit more behind a number. None where the number is 2^128 or more.
fn with_digit(number: u128, digit: u8) -> Option<u128>
    requires { (48 ≤ digit) × (digit ≤ 57) }
    ensures { MatchOption result (2 ^ 128 + 48 ≤ number * 10 + digit) (λ more. more + 48 ≡ number * 10 + digit) }
{
    number
        .checked_mul(10)?
        .checked_add(u128::from(digit - b'0'))
}

/// The number that up to nineteen digits write.
fn short_number(digits: &[u8]) -> u64
    requires digits { all_ascii_digits digits.now ≡ true }
    requires short { length digits.now ≤ 19 }
    ensures value { result ≡ digits_value 10 digits.now }
{
    let mut number = 0;
    for digit in digits {
        number = 10 * number + u64::from(*digit - b'0');
    }
    number
}

/// The number that digits write. None where it is 2^128 or more.
fn long_number(digits: &[u8]) -> Option<u128>
    requires { all_ascii_digits digits.now ≡ true }
    ensures { MatchOption result (2 ^ 128 ≤ digits_value 10 digits.now) (λ number. number ≡ digits_value 10 digits.now) }
{
    let mut number = 0;
    for digit in digits {
        number = with_digit(number, *digit)?;
    }
    Some(number)
}

/// The number that digits write. None where it is 2^128 or more.
pub fn number(digits: &[u8]) -> Option<u128>
    requires { all_ascii_digits digits.now ≡ true }
    ensures { MatchOption result (2 ^ 128 ≤ digits_value 10 digits.now) (λ number. number ≡ digits_value 10 digits.now) }
{
    if digits.len() <= 19 {
        return Some(u128::from(short_number(digits)));
    }
    long_number(digits)
}

/// Whether a word begins with `*`.
pub fn begins_star(word: &[u8]) -> bool
    ensures { result ≡ begins_star_word word.now }
{
    match word {
        [] => false,
        [byte, ..] => *byte == b'*',
    }
}

/// Whether a word is `*` and digits.
pub fn is_entry(word: &[u8]) -> bool
    ensures { result ≡ is_entry_word word.now }
{
    begins_star(word) && is_plain(&word[1..])
}

/// Where this byte stands first, or the length where it stands nowhere.
pub fn first_place(word: &[u8], mark: u8) -> usize
    ensures place { result ≡ position_or_len (λ byte. byte == mark) word.now }
    ensures within { result ≤ length word.now }
    ensures none { result ≡ length word.now → list_any (λ byte. byte == mark) word.now ≡ false }
    ensures some { result < length word.now → list_any (λ byte. byte == mark) word.now ≡ true }
{
    for (at, byte) in word.iter().enumerate() {
        if *byte == mark {
            return at;
        }
    }
    word.len()
}

/// The number that a word is: below 2^32, and without a zero in front of another digit.
pub fn sub_number(word: &[u8]) -> Option<u32>
    ensures { MatchOption result (is_num_word word.now ≡ false) (λ number. (is_num_word word.now ≡ true) × (number ≡ digits_value 10 word.now)) }
{
    if !is_plain(word) {
        return None;
    }
    if word[0] == b'0' && word.len() > 1 {
        return None;
    }
    let number = number(word)?;
    u32::try_from(number).ok()
}

/// Digits without the zeros in front of them.
pub fn without_zeros(digits: &[u8]) -> &[u8]
    requires { all_ascii_digits digits.now ≡ true }
    ensures digits { all_ascii_digits result.now ≡ true }
    ensures value { digits_value 10 result.now ≡ digits_value 10 digits.now }
    ensures front { (slice_index result.now 0 == 48) ≡ false }
{
    let mut digits = digits;
    'zeros: while let [first, rest @ ..] = digits {
        if *first != b'0' {
            return digits;
        }
        digits = rest;
    }
    digits
}
