//! Numbers: how far they go, their kinds, and their limits.
ghost use Rattle.std.specs.Prelude.{◌≡◌, ◌≤◌, ◌+◌, Some, drop, length};
ghost use Rattle.std.specs.List.{list_all};
ghost use Rattle.va_base.specs.Longest.{longest};
ghost use Rattle.va_base.specs.Spelling.{is_digit};
ghost use Rattle.c_tree.specs.tokens.Spelling as spelling;
ghost use Rattle.c_tree.specs.tokens.Limits as limits;
ghost use Rattle.c_syntax.specs.grammar.Kinds as kinds;
ghost use Rattle.c_syntax.specs.Fronts.{is_power_front};

use c_tree::token::CTokenKind;
use va_base::Decimal;
use va_base::bytes::{Digit, begins_with, front_len};
use va_base::numeral::decimal;

/// How many bytes at the front are a power of ten, or 0 where none stands there.
fn power_len(text: &[u8]) -> usize
    ensures power { is_power_front text.now result }
    ensures within { result ≤ length text.now }
{
    if !begins_with(text, b'-') {
        return front_len::<Digit>(text);
    }
    let digits = front_len::<Digit>(&text[1..]);
    if digits == 0 { 0 } else { 1 + digits }
}

/// How many bytes behind a number's digits belong to it.
pub fn tail_len(text: &[u8]) -> usize
    ensures longest { longest spelling.is_number_tail text.now ≡ Some result }
    ensures within { result ≤ length text.now }
{
    if begins_with(text, b'u') {
        return 1;
    }
    if !begins_with(text, b'e') {
        return 0;
    }
    let power = power_len(&text[1..]);
    if power == 0 { 0 } else { 1 + power }
}

/// The kind of a number with this tail.
pub fn tail_kind(tail: &[u8]) -> CTokenKind
    ensures { result ≡ spelling.tail_kind tail.now }
{
    match tail {
        [] => CTokenKind::Integer,
        [b'u', ..] => CTokenKind::Unsigned,
        _ => CTokenKind::Real,
    }
}

fn has_no_leading_zero(digits: &[u8]) -> bool
    ensures { result ≡ limits.has_no_leading_zero digits.now }
{
    digits.len() < 2 || digits[0] != b'0'
}

fn is_plain_negative(digits: &[u8]) -> bool
    ensures { result ≡ limits.is_plain_negative digits.now }
{
    !digits.is_empty() && digits[0] != b'0'
}

fn is_plain_power(power: &[u8]) -> bool
    ensures { result ≡ limits.is_plain_power power.now }
{
    if power.is_empty() {
        return false;
    }
    if power[0] == b'-' {
        is_plain_negative(&power[1..])
    } else {
        has_no_leading_zero(power)
    }
}

fn is_at_most(limit: u128, value: Option<Decimal>) -> bool
    ensures { result ≡ limits.is_at_most limit value }
{
    match value {
        None => false,
        Some(decimal) => decimal.mantissa <= limit,
    }
}

fn is_tail_within(bytes: &[u8], digits: &[u8], tail: &[u8]) -> bool
    ensures { result ≡ limits.is_tail_within bytes.now digits.now tail.now }
{
    if tail.is_empty() {
        return is_at_most(2147483647, decimal(digits));
    }
    if tail[0] == b'u' {
        return is_at_most(4294967295, decimal(digits));
    }
    is_plain_power(&tail[1..]) && decimal(bytes).is_some()
}

/// Whether a number is within the limits and has no leading zero.
pub fn is_within(bytes: &[u8]) -> bool
    ensures { result ≡ limits.is_within bytes.now }
{
    let end = front_len::<Digit>(bytes);
    let digits = &bytes[..end];
    has_no_leading_zero(digits) && is_tail_within(bytes, digits, &bytes[end..])
}

fn are_digits(bytes: &[u8]) -> bool
    ensures { result ≡ list_all is_digit bytes.now }
{
    front_len::<Digit>(bytes) == bytes.len()
}

/// Whether digits are a number as names hold it: without a leading zero, and at most 4294967295.
pub fn is_number_in_name(digits: &[u8]) -> bool
    ensures { result ≡ kinds.is_number_in_name digits.now }
{
    !digits.is_empty()
        && are_digits(digits)
        && has_no_leading_zero(digits)
        && is_at_most(4294967295, decimal(digits))
}
