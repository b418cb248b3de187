//! Number literals and their exact values (RFC 9535, 2.3.5.1).
ghost use Rattle.std.specs.Prelude.{◌≡◌, ◌≢◌, ℕ, ◌+◌, ◌*◌, ◌%◌, ◌^◌, ◌<◌, ◌≤◌, ◌++◌, length, min, slice_index, take, drop, IfOk, IfErr, IfSome, IfNone};
ghost use Rattle.jsonpath_parser.specs.Prelude.{digits_value, digits_value_after, down, exponent_view, is_ascii_digit, IsRun, IsTrimmed, IsUnheld, number_of, option_map, Reads, up};
ghost use Rattle.jsonpath_parser.specs.words.inner.ReadingNumbers as spec;

use crate::words::parse_error::ParseError;
use crate::words::text::{digit_run, first, skip};

/// An exponent as it is written: its digits, none where there is no exponent, and whether `-` stands before them.
#[derive(Clone, Copy)]
struct Exponent<'t> {
    lowers: bool,
    digits: &'t str,
}

/// A number: digits that do not end in 0, unless they are 0, and how many zeros follow them.
#[derive(Clone, Copy)]
struct Mantissa {
    digits: u64,
    zeros: u64,
}

/// A number literal at the front, as long as it goes on, and the text after it. Its value is exact; it is `None` where
/// the number is not whole, or lies outside -2^63 to 2^63 - 1. The time is linear in the length of the literal, and no
/// memory is taken.
///
/// # Errors
///
/// `ParseError::Syntax` where no number literal stands at the front.
#[tactic(auto, unfolding(crate::specs::words::inner::ReadingNumbers::number_at))]
pub fn number(s: &str) -> Result<(Option<i64>, &str), ParseError>
    ensures value { Reads (λ v. v) result (spec.number_at s.now) }
    ensures shorter { IfOk result (λ p. length p.1.now < length s.now) }
    ensures no_memory { IfErr result (λ e. e ≢ ParseError.Memory) }
{
    let (minus, start) = sign(s);
    let Some((integer, behind)) = integer_part(start) else {
        return Err(ParseError::Syntax(start.len()));
    };
    let (fraction, behind) = fraction_part(behind);
    let (exponent, rest) = exponent_part(behind);
    Ok((value(minus, integer, fraction, exponent), rest))
}

/// Whether `-` stands at the front, and what follows it.
#[tactic(auto, unfolding(crate::specs::words::inner::ReadingNumbers::sign_at))]
fn sign(s: &str) -> (bool, &str)
    ensures value { (result.0, result.1.now) ≡ spec.sign_at s.now }
    ensures within { length result.1.now ≤ length s.now }
{
    if first(s) == b'-' {
        (true, skip(s, 1))
    } else {
        (false, s)
    }
}

/// The first byte, which is ASCII, and what follows it.
fn split_first(s: &str) -> (&str, &str)
    requires there { 0 < slice_index s.now 0 }
    requires ascii { slice_index s.now 0 < 128 }
    ensures front { result.0.now ≡ take 1 s.now }
    ensures back { result.1.now ≡ drop 1 s.now }
    ensures parts { length result.0.now + length result.1.now ≡ length s.now }
    ensures shorter { length result.1.now < length s.now }
{
    s.split_at(1)
}

/// The digits at the front, where there is one, and what follows them.
#[tactic(auto, unfolding(crate::specs::words::inner::ReadingNumbers::digits_at))]
fn digits(s: &str) -> Option<(&str, &str)>
    ensures value { option_map (λ p. (p.0.now, p.1.now)) result ≡ spec.digits_at s.now }
    ensures run { IfSome result (λ p. IsRun is_ascii_digit p.0.now) }
    ensures parts { IfSome result (λ p. length p.0.now + length p.1.now ≡ length s.now) }
    ensures some { IfSome result (λ p. 0 < length p.0.now) }
{
    if !first(s).is_ascii_digit() {
        return None;
    }
    Some(digit_run(s))
}

/// `0`, or digits that do not begin with 0, and what follows them.
#[tactic(auto, unfolding(crate::specs::words::inner::ReadingNumbers::whole_part_at))]
fn integer_part(s: &str) -> Option<(&str, &str)>
    ensures value { option_map (λ p. (p.0.now, p.1.now)) result ≡ spec.whole_part_at s.now }
    ensures run { IfSome result (λ p. IsRun is_ascii_digit p.0.now) }
    ensures parts { IfSome result (λ p. length p.0.now + length p.1.now ≡ length s.now) }
    ensures some { IfSome result (λ p. 0 < length p.0.now) }
{
    if first(s) == b'0' {
        return Some(split_first(s));
    }
    digits(s)
}

/// The digits behind a point, and what follows them. Without a point, or without digits behind it, there are none.
#[tactic(auto, unfolding(crate::specs::words::inner::ReadingNumbers::fraction_at))]
fn fraction_part(s: &str) -> (&str, &str)
    ensures value { (result.0.now, result.1.now) ≡ spec.fraction_at s.now }
    ensures run { IsRun is_ascii_digit result.0.now }
    ensures parts { length result.0.now + length result.1.now ≤ length s.now }
{
    if first(s) != b'.' {
        return ("", s);
    }
    match digits(skip(s, 1)) {
        Some(parts) => parts,
        None => ("", s),
    }
}

/// What may follow the mark of an exponent: perhaps a sign, and digits.
#[tactic(auto, unfolding(crate::specs::words::inner::ReadingNumbers::signed_digits_at))]
fn signed_digits(s: &str) -> Option<(Exponent<'_>, &str)>
    ensures value { option_map (λ p. (exponent_view p.0, p.1.now)) result ≡ spec.signed_digits_at s.now }
    ensures run { IfSome result (λ p. IsRun is_ascii_digit p.0.digits.now) }
    ensures within { IfSome result (λ p. length p.1.now ≤ length s.now) }
{
    let lowers = first(s) == b'-';
    let start = if lowers || first(s) == b'+' {
        skip(s, 1)
    } else {
        s
    };
    let (digits, rest) = digits(start)?;
    Some((Exponent { lowers, digits }, rest))
}

/// The exponent at the front, and what follows it. It is 0 where none stands there.
#[tactic(auto, unfolding(crate::specs::words::inner::ReadingNumbers::exponent_at))]
fn exponent_part(s: &str) -> (Exponent<'_>, &str)
    ensures value { (exponent_view result.0, result.1.now) ≡ spec.exponent_at s.now }
    ensures run { IsRun is_ascii_digit result.0.digits.now }
    ensures within { length result.1.now ≤ length s.now }
{
    let none = Exponent {
        lowers: false,
        digits: "",
    };
    if first(s) != b'e' && first(s) != b'E' {
        return (none, s);
    }
    match signed_digits(skip(s, 1)) {
        Some(parts) => parts,
        None => (none, s),
    }
}

/// The value of a literal's parts.
fn value(minus: bool, integer: &str, fraction: &str, exponent: Exponent<'_>) -> Option<i64>
    requires integer_run { IsRun is_ascii_digit integer.now }
    requires fraction_run { IsRun is_ascii_digit fraction.now }
    requires exponent_run { IsRun is_ascii_digit exponent.digits.now }
    requires room { length integer.now + length fraction.now < 2 ^ 63 }
    ensures { result ≡ spec.scaled_value minus (digits_value 10 (integer.now ++ fraction.now)) (length fraction.now) (exponent_view exponent.entry) }
{
    let start = Mantissa {
        digits: 0,
        zeros: 0,
    };
    let mantissa = with_digits(with_digits(start, integer)?, fraction)?;
    let size = scaled(mantissa, fraction.len() as u64, exponent)?;
    long(minus, size)
}

/// The number with its sign.
#[tactic(auto, unfolding(crate::specs::words::inner::ReadingNumbers::long_of))]
fn long(minus: bool, size: u64) -> Option<i64>
    ensures { result ≡ spec.long_of minus size }
{
    let size = i128::from(size);
    i64::try_from(if minus { -size } else { size }).ok()
}

/// The number with the digits of a text behind it, where its own digits have 64 bits.
fn with_digits(start: Mantissa, digits: &str) -> Option<Mantissa>
    requires trimmed { IsTrimmed start }
    requires run { IsRun is_ascii_digit digits.now }
    requires room { start.zeros + length digits.now < 2 ^ 63 }
    ensures some { IfSome result (λ m. number_of m ≡ digits_value_after 10 (number_of start) digits.now) }
    ensures trimmed { IfSome result IsTrimmed }
    ensures zeros { IfSome result (λ m. m.zeros ≤ start.zeros + length digits.now) }
    ensures none { IfNone result (IsUnheld (digits_value_after 10 (number_of start) digits.now)) }
{
    let bytes = digits.as_bytes();
    let mut mantissa = start;
    for byte in bytes {
        mantissa = with_digit(mantissa, u64::from(*byte - b'0'))?;
    }
    Some(mantissa)
}

/// The number with one more digit.
#[tactic(auto, using(crate::proofs::laws::words::NumberPowers::one_more))]
fn with_digit(mantissa: Mantissa, digit: u64) -> Option<Mantissa>
    requires trimmed { IsTrimmed mantissa }
    requires digit { digit < 10 }
    requires room { mantissa.zeros + 1 < 2 ^ 64 }
    ensures some { IfSome result (λ m. number_of m ≡ number_of mantissa * 10 + digit) }
    ensures trimmed { IfSome result IsTrimmed }
    ensures zeros { IfSome result (λ m. m.zeros ≤ mantissa.zeros + 1) }
    ensures some_digit { IfNone result (digit ≢ 0) }
    ensures none { IfNone result (2 ^ 64 ≤ number_of mantissa * 10 + digit) }
{
    let zeros = mantissa.zeros + 1;
    if digit == 0 {
        return Some(Mantissa {
            digits: mantissa.digits,
            zeros,
        });
    }
    let digits = padded(mantissa.digits, zeros)?.checked_add(digit)?;
    Some(Mantissa { digits, zeros: 0 })
}

/// The number with so many zeros behind it, where it has 64 bits.
fn padded(number: u64, zeros: u64) -> Option<u64>
    ensures some { IfSome result (λ n. n ≡ number * 10 ^ zeros) }
    ensures fits { IfSome result (λ n. n < 2 ^ 64) }
    ensures none { IfNone result (2 ^ 64 ≤ number * 10 ^ zeros) }
{
    if number == 0 {
        return Some(0);
    }
    let Ok(zeros) = u32::try_from(zeros) else {
        return None;
    };
    10u64.checked_pow(zeros)?.checked_mul(number)
}

/// The number that the digits write, or the greatest of 64 bits.
fn saturated(digits: &str) -> u64
    requires { IsRun is_ascii_digit digits.now }
    ensures { result ≡ min (digits_value 10 digits.now) 18446744073709551615 }
{
    match digits.parse::<u64>() {
        Ok(number) => number,
        Err(_) => if digits.is_empty() { 0 } else { u64::MAX },
    }
}

/// The number times ten to (exponent - point), where that is a whole number of 64 bits.
fn scaled(mantissa: Mantissa, point: u64, exponent: Exponent<'_>) -> Option<u64>
    requires trimmed { IsTrimmed mantissa }
    requires run { IsRun is_ascii_digit exponent.digits.now }
    requires zeros { mantissa.zeros < 2 ^ 63 }
    requires point { point < 2 ^ 63 }
    ensures some { IfSome result (λ n. n * 10 ^ (point + down (exponent_view exponent.entry)) ≡ number_of mantissa * 10 ^ up (exponent_view exponent.entry)) }
    ensures none { IfNone result ((n : ℕ) → n < 2 ^ 64 → n * 10 ^ (point + down (exponent_view exponent.entry)) ≢ number_of mantissa * 10 ^ up (exponent_view exponent.entry)) }
{
    if mantissa.digits == 0 {
        return Some(0);
    }
    let size = saturated(exponent.digits);
    if exponent.lowers {
        shifted(mantissa.digits, mantissa.zeros, point.saturating_add(size))
    } else {
        shifted(mantissa.digits, mantissa.zeros.saturating_add(size), point)
    }
}

/// The number, which does not end in 0, times ten to (up - down), where that is a whole number of 64 bits.
fn shifted(number: u64, up: u64, down: u64) -> Option<u64>
    requires { number % 10 ≢ 0 }
    ensures some { IfSome result (λ n. n * 10 ^ down ≡ number * 10 ^ up) }
    ensures fits { IfSome result (λ n. n < 2 ^ 64) }
    ensures none { IfNone result ((n : ℕ) → n < 2 ^ 64 → n * 10 ^ down ≢ number * 10 ^ up) }
{
    padded(number, up.checked_sub(down)?)
}
