//! Quoted strings (RFC 9535, 2.3.1). Each function reads its text once, from the left, and never goes back over what
//! it has read.
ghost use Rattle.std.specs.Prelude.{◌≡◌, ◌≢◌, suc, ◌<◌, ◌≤◌, [], true, length, slice_index, IfOk, IfSome, if◌then◌else◌, string_bytes, IfErr};
ghost use Rattle.jsonpath_parser.specs.Prelude.{digit_value, is_quote, prefix_len, Reads, split_while};
ghost use Rattle.jsonpath_parser.specs.words.inner.ReadingStrings as spec;
ghost use Rattle.jsonpath_parser.specs.words.Strings as strings;

use crate::words::parse_error::ParseError;
use crate::words::text::{byte_at, first, skip};
use std::alloc::Global;

/// The value of the string at the front, without its quotes and with its escapes read, and the text after it (2.3.1).
/// It takes time in the length of the string. Where no string stands at the front it returns `ParseError::Syntax`, where a
/// growth is refused `ParseError::Memory`.
#[tactic(auto, unfolding(crate::specs::words::inner::ReadingStrings::string_at))]
pub fn string(alloc: Global, s: &str) -> Result<(String, &str), ParseError>
    ensures value { Reads string_bytes result (spec.string_at s.now) }
    ensures shorter { IfOk result (λ p. length p.1.now < length s.now) }
{
    let quote = first(s);
    if quote != b'"' && quote != b'\'' {
        return Err(ParseError::Syntax(s.len()));
    }
    chars(alloc, quote, skip(s, 1))
}

/// The characters up to the quote, and the text after it.
fn chars(alloc: Global, quote: u8, s: &str) -> Result<(String, &str), ParseError>
    requires { is_quote quote ≡ true }
    ensures value { Reads string_bytes result (spec.chars_at quote (suc (length s.now)) [] s.now) }
    ensures shorter { IfOk result (λ p. length p.1.now < length s.now) }
{
    let mut value = String::new(alloc);
    let mut rest = s;
    'chars: loop {
        let (run, after) = plain_run(quote, rest);
        value.push_str(run)?;
        if first(after) == quote {
            return Ok((value, skip(after, 1)));
        }
        if first(after) != b'\\' {
            return Err(ParseError::Syntax(after.len()));
        }
        let (c, next) = escape(quote, skip(after, 1))?;
        value.push(c)?;
        rest = next;
    }
}

/// Whether the byte stands for itself between these quotes.
#[inline(always)]
fn is_plain(quote: u8, byte: u8) -> bool
    ensures { result ≡ strings.is_plain quote byte }
{
    byte >= b' ' && byte != quote && byte != b'\\'
}

fn plain_len(quote: u8, bytes: &[u8]) -> usize
    ensures len { result ≡ prefix_len (strings.is_plain quote) bytes.now }
    ensures within { result ≤ length bytes.now }
{
    bytes.iter().take_while(|b| is_plain(quote, **b)).count()
}

/// The longest front of bytes that stand for themselves, and the rest.
#[tactic(auto, using(crate::proofs::laws::words::StringRuns::plain_boundary))]
fn plain_run(quote: u8, s: &str) -> (&str, &str)
    requires { is_quote quote ≡ true }
    ensures parts { (result.0.now, result.1.now) ≡ split_while (strings.is_plain quote) s.now }
    ensures within { length result.1.now ≤ length s.now }
{
    s.split_at(plain_len(quote, s.as_bytes()))
}

/// What stands behind a backslash: its character, and the text after it (2.3.1).
#[tactic(auto, unfolding(crate::specs::words::inner::ReadingStrings::escape_at))]
fn escape(quote: u8, s: &str) -> Result<(char, &str), ParseError>
    requires { is_quote quote ≡ true }
    ensures value { Reads (λ c. c) result (spec.escape_at quote s.now) }
    ensures shorter { IfOk result (λ p. length p.1.now < length s.now) }
    ensures no_memory { IfErr result (λ e. e ≢ ParseError.Memory) }
{
    if first(s) == b'u' {
        return unicode(skip(s, 1));
    }
    let Some(c) = escaped(quote, first(s)) else {
        return Err(ParseError::Syntax(s.len()));
    };
    Ok((char::from(c), skip(s, 1)))
}

/// The character that a backslash and this byte stand for.
fn escaped(quote: u8, byte: u8) -> Option<u8>
    requires { is_quote quote ≡ true }
    ensures value { result ≡ strings.escaped quote byte }
    ensures ascii { IfSome result (λ c. (0 < byte) × (byte < 128) × (c < 128)) }
{
    match byte {
        b'b' => Some(b'\x08'),
        b'f' => Some(b'\x0c'),
        b'n' => Some(b'\n'),
        b'r' => Some(b'\r'),
        b't' => Some(b'\t'),
        b'/' | b'\\' => Some(byte),
        _ if byte == quote => Some(byte),
        _ => None,
    }
}

/// What stands behind `\u`: a code that is no surrogate, or a high surrogate with a low one after it.
#[tactic(auto, unfolding(crate::specs::words::inner::ReadingStrings::unicode_at))]
fn unicode(s: &str) -> Result<(char, &str), ParseError>
    ensures value { Reads (λ c. c) result (spec.unicode_at s.now) }
    ensures shorter { IfOk result (λ p. length p.1.now < length s.now) }
    ensures no_memory { IfErr result (λ e. e ≢ ParseError.Memory) }
{
    let Some(code) = code(s) else {
        return Err(ParseError::Syntax(s.len()));
    };
    let after = skip(s, 4);
    if is_high_surrogate(code) {
        return low(code, after);
    }
    let Some(c) = char::from_u32(code) else {
        return Err(ParseError::Syntax(s.len()));
    };
    Ok((c, after))
}

/// The low surrogate that follows a high one, and the character of both.
#[tactic(auto, unfolding(crate::specs::words::inner::ReadingStrings::low_at))]
fn low(high: u32, s: &str) -> Result<(char, &str), ParseError>
    requires { strings.is_high_surrogate high ≡ true }
    ensures value { Reads (λ c. c) result (spec.low_at high s.now) }
    ensures shorter { IfOk result (λ p. length p.1.now < length s.now) }
    ensures no_memory { IfErr result (λ e. e ≢ ParseError.Memory) }
{
    if first(s) != b'\\' || byte_at(s, 1) != b'u' {
        return Err(ParseError::Syntax(s.len()));
    }
    let digits = skip(s, 2);
    let Some(low) = code(digits) else {
        return Err(ParseError::Syntax(digits.len()));
    };
    if !is_low_surrogate(low) {
        return Err(ParseError::Syntax(digits.len()));
    }
    let Some(c) = char::from_u32(0x10000 + (high - 0xD800) * 0x400 + (low - 0xDC00)) else {
        return Err(ParseError::Syntax(digits.len()));
    };
    Ok((c, skip(digits, 4)))
}

#[inline(always)]
fn is_high_surrogate(code: u32) -> bool
    ensures { result ≡ strings.is_high_surrogate code }
{
    code >= 0xD800 && code < 0xDC00
}

#[inline(always)]
fn is_low_surrogate(code: u32) -> bool
    ensures { result ≡ strings.is_low_surrogate code }
{
    code >= 0xDC00 && code < 0xE000
}

/// The code that four hex digits at the front spell.
#[tactic(auto, unfolding(crate::specs::words::inner::ReadingStrings::code_value))]
fn code(s: &str) -> Option<u32>
    ensures value { result ≡ spec.code_value s.now }
    ensures small { IfSome result (λ u. u < 65536) }
    ensures ascii { IfSome result (λ u. (0 < slice_index s.now 3) × (slice_index s.now 3 < 128)) }
{
    let a = hex_digit(byte_at(s, 0))?;
    let b = hex_digit(byte_at(s, 1))?;
    let c = hex_digit(byte_at(s, 2))?;
    let d = hex_digit(byte_at(s, 3))?;
    Some(((a * 16 + b) * 16 + c) * 16 + d)
}

/// The value of a hex digit of either case.
fn hex_digit(byte: u8) -> Option<u32>
    ensures value { result ≡ (if strings.is_hex_digit byte then Some (digit_value byte) else None) }
    ensures small { IfSome result (λ d. d < 16) }
    ensures ascii { IfSome result (λ d. (0 < byte) × (byte < 128)) }
{
    char::from(byte).to_digit(16)
}
