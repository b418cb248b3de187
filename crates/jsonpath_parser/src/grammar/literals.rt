//! Number literals in a query text (RFC 9535, 2.3.5.1).
ghost use Rattle.std.specs.Prelude.{◌<◌, ◌≢◌, length, IfOk, Some, IfErr};
ghost use Rattle.jsonpath_parser.specs.Prelude.{number_reading, Reads};

use crate::words::number::number;
use crate::words::parse_error::ParseError;

/// How number literals are read.
#[derive(Clone, Copy, Debug)]
pub enum NumberMode {
    /// Each as its value; one without a value is refused.
    Valued,
    /// Each as its value, and one without a value as 0.
    Any,
}

/// A number literal.
#[tactic(auto, unfolding(crate::specs::inner::ReadingGrammar::number_reading))]
pub fn number_literal(numbers: NumberMode, s: &str) -> Result<(i64, &str), ParseError>
    ensures value { Reads (λ n. Some n) result (number_reading numbers s.now) }
    ensures shorter { IfOk result (λ p. length p.1.now < length s.now) }
    ensures no_memory { IfErr result (λ e. e ≢ ParseError.Memory) }
{
    let (value, rest) = number(s)?;
    match (value, numbers) {
        (Some(value), _) => Ok((value, rest)),
        (None, NumberMode::Any) => Ok((0, rest)),
        (None, NumberMode::Valued) => Err(ParseError::Syntax(s.len())),
    }
}
