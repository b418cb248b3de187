//! Whole numbers, as indexes are written (RFC 9535, 2.1 and 2.3.3.1).
ghost use Rattle.std.specs.Prelude.{◌≢◌, ◌<◌, ◌≤◌, length, IfOk, IfErr};
ghost use Rattle.jsonpath_parser.specs.Prelude.{Reads};
ghost use Rattle.jsonpath_parser.specs.words.inner.Reading as spec;

use crate::words::parse_error::ParseError;
use crate::words::text::{digit_run, first, skip};

/// The greatest number that an index may be, 2^53 - 1.
const MAX_INT: u64 = 9007199254740991;

/// `0`, or digits that do not begin with 0, of a value up to `MAX_INT`.
#[tactic(auto, unfolding(crate::specs::words::inner::Reading::magnitude_at))]
fn magnitude(s: &str) -> Result<(u64, &str), ParseError>
    ensures value { Reads (λ n. n) result (spec.magnitude_at s.now) }
    ensures shorter { IfOk result (λ p. length p.1.now < length s.now) }
    ensures small { IfOk result (λ p. p.0 ≤ MAX_INT) }
    ensures no_memory { IfErr result (λ e. e ≢ ParseError.Memory) }
{
    let (digits, rest) = digit_run(s);
    if first(digits) == b'0' && digits.len() > 1 {
        return Err(ParseError::Syntax(s.len()));
    }
    let Ok(value) = digits.parse::<u64>() else {
        return Err(ParseError::Syntax(s.len()));
    };
    if value > MAX_INT {
        return Err(ParseError::Syntax(s.len()));
    }
    Ok((value, rest))
}

/// A whole number from -(2^53 - 1) to 2^53 - 1. Neither `-0` nor a leading 0 is one.
#[tactic(auto, unfolding(crate::specs::words::inner::Reading::int_at))]
pub fn int(s: &str) -> Result<(i64, &str), ParseError>
    ensures value { Reads (λ n. n) result (spec.int_at s.now) }
    ensures shorter { IfOk result (λ p. length p.1.now < length s.now) }
    ensures no_memory { IfErr result (λ e. e ≢ ParseError.Memory) }
{
    if first(s) != b'-' {
        let (value, rest) = magnitude(s)?;
        return Ok((value as i64, rest));
    }
    let digits = skip(s, 1);
    let (value, rest) = magnitude(digits)?;
    if value == 0 {
        return Err(ParseError::Syntax(digits.len()));
    }
    Ok((-(value as i64), rest))
}
