//! Names, words and operators (RFC 9535, 2.3.5.1, 2.4 and 2.5.1.1).
ghost use Rattle.std.specs.Prelude.{◌≡◌, ◌≢◌, ◌<◌, ◌≤◌, length, IfOk, option_map, string_bytes, IfErr};
ghost use Rattle.jsonpath_parser.specs.Prelude.{literal_view, operator_view, Reads, selector_view};
ghost use Rattle.jsonpath_parser.specs.words.inner.Reading as reading;
ghost use Rattle.jsonpath_parser.specs.inner.ReadingGrammar as spec;

use crate::tree::model::{Literal, Operator, Selector};
use crate::words::parse_error::ParseError;
use crate::words::text::{
    byte_at, first, function_run, is_function_first, is_name_first, name_run, skip,
};
use std::alloc::Global;

/// A shorthand name (2.5.1.1).
#[tactic(auto, unfolding(crate::specs::words::inner::Reading::name_at))]
fn name(alloc: Global, s: &str) -> Result<(String, &str), ParseError>
    ensures value { Reads string_bytes result (reading.name_at s.now) }
    ensures within { IfOk result (λ p. length p.1.now ≤ length s.now) }
{
    if !is_name_first(first(s)) {
        return Err(ParseError::Syntax(s.len()));
    }
    let (name, rest) = name_run(s);
    Ok((String::from_str(alloc, name)?, rest))
}

/// `*` or a shorthand name, behind a dot (2.5.1.1).
#[tactic(auto, unfolding(crate::specs::inner::ReadingGrammar::shorthand_at))]
pub fn shorthand(alloc: Global, s: &str) -> Result<(Selector, &str), ParseError>
    ensures value { Reads selector_view result (spec.shorthand_at s.now) }
    ensures within { IfOk result (λ p. length p.1.now ≤ length s.now) }
{
    if first(s) == b'*' {
        return Ok((Selector::Wildcard, skip(s, 1)));
    }
    let (name, rest) = name(alloc, s)?;
    Ok((Selector::Name(name), rest))
}

/// The name of a function, or a word (2.4).
#[tactic(auto, unfolding(crate::specs::inner::ReadingGrammar::word_at))]
pub fn word(s: &str) -> Result<(&str, &str), ParseError>
    ensures value { Reads (λ w. w.now) result (spec.word_at s.now) }
    ensures shorter { IfOk result (λ p. length p.1.now < length s.now) }
    ensures no_memory { IfErr result (λ e. e ≢ ParseError.Memory) }
{
    if !is_function_first(first(s)) {
        return Err(ParseError::Syntax(s.len()));
    }
    Ok(function_run(s))
}

/// The literal that a word is.
pub fn word_literal(word: &str) -> Option<Literal>
    ensures { option_map literal_view result ≡ spec.word_literal word.now }
{
    match word {
        "true" => Some(Literal::Bool(true)),
        "false" => Some(Literal::Bool(false)),
        "null" => Some(Literal::Null),
        _ => None,
    }
}

/// Whether an operator may begin with this byte.
#[inline]
pub fn is_operator_first(byte: u8) -> bool
    ensures { result ≡ spec.is_operator_first byte }
{
    byte == b'!' || byte == b'=' || byte == b'<' || byte == b'>'
}

/// An operator of a comparison.
#[tactic(auto, unfolding(crate::specs::inner::ReadingGrammar::operator_at))]
pub fn read_operator(s: &str) -> Result<(Operator, &str), ParseError>
    ensures value { Reads operator_view result (spec.operator_at s.now) }
    ensures shorter { IfOk result (λ p. length p.1.now < length s.now) }
    ensures no_memory { IfErr result (λ e. e ≢ ParseError.Memory) }
{
    match (first(s), byte_at(s, 1)) {
        (b'=', b'=') => Ok((Operator::Equal, skip(s, 2))),
        (b'!', b'=') => Ok((Operator::NotEqual, skip(s, 2))),
        (b'<', b'=') => Ok((Operator::LessOrEqual, skip(s, 2))),
        (b'>', b'=') => Ok((Operator::GreaterOrEqual, skip(s, 2))),
        (b'<', _) => Ok((Operator::Less, skip(s, 1))),
        (b'>', _) => Ok((Operator::Greater, skip(s, 1))),
        _ => Err(ParseError::Syntax(s.len())),
    }
}

/// Whether this ASCII character stands twice at the front.
#[inline]
pub fn is_twice(byte: u8, s: &str) -> bool
    ensures { result ≡ spec.is_twice byte s.now }
{
    first(s) == byte && byte_at(s, 1) == byte
}
