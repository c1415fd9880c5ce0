//! Numerals and the exact decimals that they stand for (Numbers).
ghost use Rattle.std.specs.Prelude.{◌-ℤ◌, ◌==◌, ◌*◌, ◌≡◌, ◌<◌, ◌≤◌, ◌+◌, ◌^◌, ℕ, ℤ, pos, Some, None, IsTrue, IfSome, IfNone, MatchOption, SomeIff, length, drop, unwrap_or};
ghost use Rattle.std.specs.List.{position, prefix_len};
ghost use Rattle.va_base.specs.Longest.{longest};
ghost use Rattle.va_base.specs.Spelling as spelling;
ghost use Rattle.va_base.specs.Spelling.{are_digits, is_exponent, is_tail, is_after_whole};
ghost use Rattle.va_base.specs.Numerals as numerals;
ghost use Rattle.va_base.specs.Numerals.{number_of, digit_count, mantissa_of, tail_of, fraction_of, exponent_of, IsPower, power_limited, decimal_of};

use crate::exact::Decimal;

fn is_digit(byte: u8) -> bool
    ensures { result ≡ spelling.is_digit byte }
{
    byte.is_ascii_digit()
}

/// The length of the longest front of `text` that is digits: a digit, then groups of zero or more `_` and one digit.
fn digits_len(text: &[u8]) -> Option<usize>
    ensures longest { result ≡ longest are_digits text.now }
    ensures within { IfSome result (λ n. n ≤ length text.now) }
{
    let mut len = 0;
    for (at, byte) in text.iter().enumerate() {
        if is_digit(*byte) {
            len = at + 1;
        } else if *byte != b'_' || len == 0 {
            break;
        }
    }
    (len > 0).then_some(len)
}

/// The power of ten of a scale factor.
fn scale_power(letter: u8) -> Option<i128>
    ensures { result ≡ spelling.scale_power letter }
{
    match letter {
        b'T' => Some(12),
        b'G' => Some(9),
        b'M' => Some(6),
        b'K' => Some(3),
        b'k' => Some(3),
        b'm' => Some(-3),
        b'u' => Some(-6),
        b'n' => Some(-9),
        b'p' => Some(-12),
        b'f' => Some(-15),
        b'a' => Some(-18),
        _ => None,
    }
}

fn is_sign(byte: u8) -> bool
    ensures { result ≡ spelling.is_sign byte }
{
    byte == b'+' || byte == b'-'
}

fn is_exponent_letter(byte: u8) -> bool
    ensures { result ≡ spelling.is_exponent_letter byte }
{
    byte == b'e' || byte == b'E'
}

/// The length of the longest exponent at the front, the sign with it.
fn exponent_len(text: &[u8]) -> Option<usize>
    ensures longest { result ≡ longest is_exponent text.now }
    ensures within { IfSome result (λ n. n ≤ length text.now) }
{
    let (first, rest) = text.split_first()?;
    if is_sign(*first) {
        Some(1 + digits_len(rest)?)
    } else {
        digits_len(text)
    }
}

/// The length of the longest tail of a numeral at the front: a scale factor, an exponent, or nothing.
fn tail_len(text: &[u8]) -> usize
    ensures longest { longest is_tail text.now ≡ Some result }
    ensures within { result ≤ length text.now }
{
    let Some((first, rest)) = text.split_first() else {
        return 0;
    };
    if scale_power(*first).is_some() {
        return 1;
    }
    if !is_exponent_letter(*first) {
        return 0;
    }
    match exponent_len(rest) {
        Some(len) => 1 + len,
        None => 0,
    }
}

/// The length of the longest front that may follow the digits before the point: a point and digits, where they stand there,
/// and then a tail.
fn after_whole_len(text: &[u8]) -> usize
    ensures longest { longest is_after_whole text.now ≡ Some result }
    ensures within { result ≤ length text.now }
{
    let Some((first, rest)) = text.split_first() else {
        return 0;
    };
    if *first != b'.' {
        return tail_len(text);
    }
    match digits_len(rest) {
        Some(digits) => 1 + digits + tail_len(&rest[digits..]),
        None => 0,
    }
}

/// The length of the longest numeral at the front of `text`, within the limits or not, or None where none stands there.
/// Each byte is read at most twice. It takes no memory.
pub fn numeral_len(text: &[u8]) -> Option<usize>
    ensures longest { result ≡ longest spelling.is_numeral text.now }
    ensures within { IfSome result (λ n. n ≤ length text.now) }
{
    let whole = digits_len(text)?;
    Some(whole + after_whole_len(&text[whole..]))
}

/// A mantissa is below this number.
const MANTISSA_LIMIT: u128 = 1 << 127;

/// A number with one digit more, where that is below the limit.
fn with_digit(number: u128, digit: u8) -> Option<u128>
    requires { digit < 10 }
    ensures { SomeIff result (10 * number + digit < 2 ^ 127) (10 * number + digit) }
{
    let next = number.checked_mul(10)?.checked_add(u128::from(digit))?;
    (next < MANTISSA_LIMIT).then_some(next)
}

/// The number that the digits among `bytes` give, or None where it is not below the limit.
fn number(bytes: &[u8]) -> Option<u128>
    ensures { SomeIff result (number_of bytes.now < 2 ^ 127) (number_of bytes.now) }
{
    let mut number: u128 = 0;
    for byte in bytes {
        if is_digit(*byte) {
            number = with_digit(number, *byte - b'0')?;
        }
    }
    Some(number)
}

fn is_mantissa_byte(byte: u8) -> bool
    ensures { result ≡ numerals.is_mantissa_byte byte }
{
    is_digit(byte) || byte == b'_' || byte == b'.'
}

/// How many bytes the digits of a numeral have, with its point.
fn mantissa_len(bytes: &[u8]) -> usize
    ensures length { result ≡ prefix_len numerals.is_mantissa_byte bytes.now }
    ensures within { result ≤ length bytes.now }
{
    for (at, byte) in bytes.iter().enumerate() {
        if !is_mantissa_byte(*byte) {
            return at;
        }
    }
    bytes.len()
}

/// The digits of a numeral, with its point, and what follows them.
fn split_mantissa(bytes: &[u8]) -> (&[u8], &[u8])
    ensures mantissa { result.0.now ≡ mantissa_of bytes.now }
    ensures tail { result.1.now ≡ tail_of bytes.now }
{
    bytes.split_at(mantissa_len(bytes))
}

#[tactic(auto, unfolding(crate::specs::Numerals::digit_count))]
fn count_digits(bytes: &[u8]) -> usize
    ensures { result ≡ digit_count bytes.now }
{
    bytes.iter().filter(|byte| is_digit(**byte)).count()
}

/// How many digits stand after the point.
#[tactic(auto, unfolding(crate::specs::Numerals::digit_count))]
fn fraction_digits(mantissa: &[u8]) -> usize
    ensures { result ≡ digit_count (fraction_of mantissa.now) }
{
    match point_at(mantissa) {
        Some(point) => count_digits(&mantissa[point + 1..]),
        None => 0,
    }
}

fn point_at(mantissa: &[u8]) -> Option<usize>
    ensures value { result ≡ position (λ byte. byte == 46) mantissa.now }
    ensures within { IfSome result (λ point. point < length mantissa.now) }
{
    mantissa.iter().position(|byte| *byte == b'.')
}

/// An exponent of this size leaves the limits, however many digits stand after the point.
const EXPONENT_LIMIT: u128 = 1 << 65;

/// The number that the digits of an exponent give, or None where it is not below the limit.
fn magnitude(digits: &[u8]) -> Option<i128>
    ensures { MatchOption result (2 ^ 65 ≤ number_of digits.now) (λ m. (m ≡ pos (number_of digits.now)) × (number_of digits.now < 2 ^ 65)) }
{
    match number(digits) {
        Some(number) if number < EXPONENT_LIMIT => Some(number as i128),
        _ => None,
    }
}

/// The exponent that stands after its letter, or None where its size is not below the limit.
fn exponent(text: &[u8]) -> Option<i128>
    ensures { IsPower result (exponent_of text.now) }
{
    let Some((first, rest)) = text.split_first() else {
        return Some(0);
    };
    if *first == b'-' {
        Some(-magnitude(rest)?)
    } else {
        magnitude(text)
    }
}

/// The power of ten of a tail, or None where its size is not below the limit.
fn tail_power(tail: &[u8]) -> Option<i128>
    ensures { IsPower result (numerals.tail_power tail.now) }
{
    let Some((first, rest)) = tail.split_first() else {
        return Some(0);
    };
    match scale_power(*first) {
        Some(power) => Some(power),
        None => exponent(rest),
    }
}

/// The largest power of a numeral; the least is its negative.
const POWER_LIMIT: i128 = 9999;

/// A power that lies within the limits.
fn power_within(power: i128) -> Option<i32>
    ensures { result ≡ power_limited power }
{
    if -POWER_LIMIT <= power && power <= POWER_LIMIT {
        Some(power as i32)
    } else {
        None
    }
}

/// The power of a numeral with this tail and so many digits after the point, where it lies within the limits.
fn power(tail: &[u8], fraction: usize) -> Option<i32>
    ensures { result ≡ power_limited (numerals.tail_power tail.now -ℤ pos fraction) }
{
    power_within(tail_power(tail)? - fraction as i128)
}

fn is_numeral(bytes: &[u8]) -> bool
    ensures { result ≡ spelling.is_numeral bytes.now }
{
    numeral_len(bytes) == Some(bytes.len())
}

/// The decimal that `bytes` stand for, or None exactly where they are not one numeral whose mantissa is below 2^127 and whose
/// power is from -9999 to 9999. It takes no memory.
pub fn decimal(bytes: &[u8]) -> Option<Decimal>
    ensures { result ≡ decimal_of bytes.now }
{
    if !is_numeral(bytes) {
        return None;
    }
    let (digits, tail) = split_mantissa(bytes);
    let mantissa = number(digits)?;
    let power = power(tail, fraction_digits(digits))?;
    Some(Decimal { mantissa, power })
}
