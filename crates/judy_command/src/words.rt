//! Words as tokens say them and as answers.

ghost use Rattle.std.specs.Prelude.{◌≡◌, ◌<◌, ◌≤◌, ◌+◌, ◌-◌, ◌*◌, ◌^◌, ◌&&◌, length, nat_lt, if◌then◌else◌, Some, None, IfSome, IfOk, IsTrue};
ghost use Rattle.std.specs.Char.{is_ascii_digit, digit_value};
ghost use Rattle.std.specs.List.{list_all};
ghost use Rattle.std.specs.Str.Parse.{digits_value_after};
ghost use Rattle.judy_model.specs.Tokens.{word_of};
ghost use Rattle.judy_command.specs.Digits.{number_after};
ghost use Rattle.judy_command.specs.Replies.{checked, answer_of};
ghost use Rattle.judy_model.specs.Keys.{IsWord};
ghost use Rattle.judy_model.specs.Commands as model;
ghost use Rattle.judy_model.specs.Commands.{word_at};

use crate::reply::{Answer, Refusal};
use std::simd::prelude::*;

// So many digits always write a word; one more may or may not.
const SAFE_DIGITS: usize = 19;

/// The word that a token says: 1 to 20 decimal digits with a number below 2^64. Else `BadWord`.
pub(crate) fn word(token: &[u8]) -> Result<u64, Refusal>
    ensures said { checked result ≡ word_at token.now }
    ensures word { IfOk result IsWord }
{
    number(token).ok_or(Refusal::BadWord)
}

// The number of 1 to 20 decimal digits, where it is below 2^64. It is answered in registers, as a refusal beside it
// wouldn't be, and stands once: compiled into its callers it would make them too large to be compiled into theirs.
#[inline(never)]
fn number(token: &[u8]) -> Option<u64>
    ensures { result ≡ word_of token.now }
{
    match token.len() {
        0 => None,
        1..=SAFE_DIGITS => short_number(token),
        20 => long_number(token),
        _ => None,
    }
}

// The number of at most 19 decimal digits. Sixteen at the front are read at once, or eight where there are fewer: a
// length that the compiler knows needs no test behind each digit.
#[inline(always)]
fn short_number(digits: &[u8]) -> Option<u64>
    requires { length digits.now ≤ 19 }
    ensures { result ≡ number_after 0 digits.now }
{
    if let Some((front, rest)) = digits.split_first_chunk::<16>() {
        if !are_digits(front) {
            return None;
        }
        return after_digits(value_of_sixteen(u8x16::from_array(*front)), rest);
    }
    if let Some((front, rest)) = digits.split_first_chunk::<8>() {
        if !are_digits(front) {
            return None;
        }
        return after_digits(value_of_eight(*front), rest);
    }
    after_digits(0, digits)
}

// Whether all bytes are decimal digits. It leaves at no byte, so that a few can be tested at once.
#[inline(always)]
fn are_digits(bytes: &[u8]) -> bool
    ensures { result ≡ list_all is_ascii_digit bytes.now }
{
    let mut are = true;
    for byte in bytes {
        are &= byte.is_ascii_digit();
    }
    are
}

// The number that sixteen decimal digits write. Two stand in each lane of 16 bits, the second in the upper half: the
// product adds ten times the first to it. Then each lane takes the next, and fours are left in every other lane.
#[inline(always)]
fn value_of_sixteen(digits: u8x16) -> u64
    requires sixteen { length digits ≡ 16 }
    requires digits { IsTrue (list_all is_ascii_digit digits) }
    ensures { result ≡ digits_value_after 10 0 digits }
{
    let values = digits.strict_sub(u8x16::splat(b'0'));
    let pairs = (u16x8::from_le_bytes(values) * u16x8::splat(2561)) >> u16x8::splat(8);
    let weighed = pairs.strict_mul(u16x8::from_array([100, 1, 100, 1, 100, 1, 100, 1]));
    let fours = weighed.strict_add(weighed.rotate_elements_left::<1>());
    let [first, _, second, _, third, _, fourth, _] = fours.to_array();
    let front = u64::from(first) * 10_000 + u64::from(second);
    let back = u64::from(third) * 10_000 + u64::from(fourth);
    front * 100_000_000 + back
}

// The number that eight decimal digits write, as that of sixteen of which the first eight are zeros.
#[inline(always)]
fn value_of_eight(digits: [u8; 8]) -> u64
    requires eight { length digits ≡ 8 }
    requires digits { IsTrue (list_all is_ascii_digit digits) }
    ensures { result ≡ digits_value_after 10 0 digits }
{
    let (zeros, digits) = (u8x8::splat(b'0'), u8x8::from_array(digits));
    value_of_sixteen(zeros.shuffle(
        digits,
        [0, 1, 2, 3, 4, 5, 6, 7, 8, 9, 10, 11, 12, 13, 14, 15],
    ))
}

// The number that decimal digits make behind those of a number.
#[inline(always)]
fn after_digits(number: u64, digits: &[u8]) -> Option<u64>
    requires few { length digits.now ≤ 19 }
    requires small { number < 10 ^ (19 - length digits.now) }
    ensures { result ≡ number_after number digits.now }
{
    let mut number = number;
    for byte in digits {
        let Some(digit) = digit_of(*byte) else {
            return None;
        };
        number = number * 10 + digit;
    }
    Some(number)
}

// The number of 20 decimal digits, where it is below 2^64.
fn long_number(digits: &[u8]) -> Option<u64>
    requires { length digits.now ≡ 20 }
    ensures { result ≡ word_of digits.now }
{
    let front = short_number(&digits[..SAFE_DIGITS])?;
    with_digit(front, digits[SAFE_DIGITS])
}

// The number that one more decimal digit makes of a number, where that is a digit and below 2^64.
fn with_digit(number: u64, byte: u8) -> Option<u64>
    ensures { let longer = number * 10 + digit_value byte in
        result ≡ (if is_ascii_digit byte && nat_lt longer (2 ^ 64) then Some longer else None) }
{
    let digit = digit_of(byte)?;
    number.checked_mul(10)?.checked_add(digit)
}

// The value of a decimal digit.
fn digit_of(byte: u8) -> Option<u64>
    ensures value { result ≡ (if is_ascii_digit byte then Some (digit_value byte) else None) }
    ensures small { IfSome result (λ digit. digit < 10) }
{
    let digit = u64::from(byte).wrapping_sub(48);
    if digit > 9 {
        return None;
    }
    Some(digit)
}

/// The number that was found, or `none`.
pub(crate) fn number_or_nothing(found: Option<u64>) -> Answer<'static>
    ensures { answer_of result ≡ model.number_or_nothing found }
{
    match found {
        Some(number) => Answer::Number(number),
        None => Answer::Nothing,
    }
}
