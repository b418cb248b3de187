//! What a call of the crates returns in place of a result.
ghost use Rattle.std.specs.Prelude.{◌≡◌, ℕ, List, IfOk, IfErr};
ghost use Rattle.jsonpath_parser.specs.Errors as error;
ghost use Rattle.jsonpath_parser.specs.Prelude.{error_view, OutOfMemory};

use std::alloc::{AllocError, AllocFailed, Global};
use std::num::ParseIntError;
use std::str::ParseBoolError;
use thiserror::Error;

/// Why a call refused. The calls of this project return only `PestError`, `InvalidNumber`, `InvalidJsonPath`,
/// `MaxNestingDepthExceeded` and `OutOfMemory`; the other variants are for callers.
#[derive(Debug, Drop, PartialEq, Error)]
pub enum JsonPathError {
    /// The text is no query; the place is a count of bytes, at most the text's length, and stands between two characters.
    #[error("Failed to parse rule: at byte {0}")]
    PestError(usize),
    #[error("Unexpected rule `{0}` when trying to parse `{1}`")]
    UnexpectedRuleLogicError(String, String),
    #[error("Unexpected `none` when trying to parse logic atom: {0} within {1}")]
    UnexpectedNoneLogicError(String, String),
    #[error("Pest returned successful parsing but did not produce any output, that should be unreachable due to .pest definition file: SOI ~ chain ~ EOI")]
    UnexpectedPestOutput,
    #[error("expected a `Rule::path` but found nothing")]
    NoRulePath,
    #[error("expected a `JsonPath::Descent` but found nothing")]
    NoJsonPathDescent,
    #[error("expected a `JsonPath::Field` but found nothing")]
    NoJsonPathField,
    /// A number literal, as written, without a value.
    #[error("expected an `i64`, but got {0}")]
    InvalidNumber(String),
    #[error("Invalid toplevel rule for JsonPath: {0}")]
    InvalidTopLevelRule(String),
    #[error("Failed to get inner pairs for {0}")]
    EmptyInner(String),
    #[error("Invalid json path: {0}")]
    InvalidJsonPath(String),
    /// More brackets stand open in the text than this depth.
    #[error("JSONPath nesting depth exceeds the maximum of {0}")]
    MaxNestingDepthExceeded(usize),
    /// Memory ran out.
    #[error("out of memory")]
    OutOfMemory,
}

impl From<AllocError> for JsonPathError {
    ghost from_gives = { λ _ e. e ≡ OutOfMemory };

    fn from(_error: AllocError) -> JsonPathError {
        JsonPathError::OutOfMemory
    }
}

impl<T: Drop> From<AllocFailed<T>> for JsonPathError {
    ghost from_gives = { λ _ e. e ≡ OutOfMemory };

    fn from(_error: AllocFailed<T>) -> JsonPathError {
        JsonPathError::OutOfMemory
    }
}

impl JsonPathError {
    /// `EmptyInner` with this text.
    ///
    /// # Errors
    ///
    /// `OutOfMemory` where memory ran out.
    pub fn empty(alloc: Global, text: &str) -> Parsed<Self>
        ensures made { IfOk result (λ e. error_view e ≡ error.empty_inner text.now) }
        ensures memory { IfErr result (λ e. e ≡ OutOfMemory) }
    {
        Ok(JsonPathError::EmptyInner(String::from_str(alloc, text)?))
    }

    /// The error that `empty` makes of this text.
    ///
    /// # Errors
    ///
    /// `OutOfMemory` where memory ran out.
    pub fn from_text(alloc: Global, text: &str) -> Parsed<Self>
        ensures made { IfOk result (λ e. error_view e ≡ error.empty_inner text.now) }
        ensures memory { IfErr result (λ e. e ≡ OutOfMemory) }
    {
        JsonPathError::empty(alloc, text)
    }

    /// `InvalidNumber` with the text that was read as a number. Nothing of the cause is kept.
    ///
    /// # Errors
    ///
    /// `OutOfMemory` where memory ran out.
    pub fn bad_int(alloc: Global, _cause: ParseIntError, text: &str) -> Parsed<Self>
        ensures made { IfOk result (λ e. error_view e ≡ error.invalid_number text.now) }
        ensures memory { IfErr result (λ e. e ≡ OutOfMemory) }
    {
        Ok(JsonPathError::InvalidNumber(String::from_str(alloc, text)?))
    }

    /// `InvalidJsonPath` with the text within which the cause was met. Nothing of the cause is kept.
    ///
    /// # Errors
    ///
    /// `OutOfMemory` where memory ran out.
    pub fn within(alloc: Global, cause: JsonPathError, text: &str) -> Parsed<Self>
        ensures made { IfOk result (λ e. error_view e ≡ error.invalid_json_path text.now) }
        ensures memory { IfErr result (λ e. e ≡ OutOfMemory) }
    {
        // A call of `drop` is proved at once; where a scope ends, each variant is a case.
        drop(cause);
        Ok(JsonPathError::InvalidJsonPath(String::from_str(alloc, text)?))
    }

    /// `InvalidJsonPath` for a text that is no truth. What its own text says is left open.
    ///
    /// # Errors
    ///
    /// `OutOfMemory` where memory ran out.
    pub fn bad_bool(alloc: Global, cause: ParseBoolError) -> Parsed<Self>
        ensures made { IfOk result (λ e. (said : List ℕ) × (error_view e ≡ error.invalid_json_path said)) }
        ensures memory { IfErr result (λ e. e ≡ OutOfMemory) }
    {
        Ok(JsonPathError::InvalidJsonPath(cause.to_string(alloc)?))
    }

    /// `UnexpectedRuleLogicError` with the rule, and the text that was read.
    ///
    /// # Errors
    ///
    /// `OutOfMemory` where memory ran out.
    pub fn unexpected_rule(alloc: Global, rule: &str, text: &str) -> Parsed<Self>
        ensures made { IfOk result (λ e. error_view e ≡ error.unexpected_rule rule.now text.now) }
        ensures memory { IfErr result (λ e. e ≡ OutOfMemory) }
    {
        let rule = String::from_str(alloc, rule)?;
        let text = String::from_str(alloc, text)?;
        Ok(JsonPathError::UnexpectedRuleLogicError(rule, text))
    }

    /// An error that equals this one: of the same variant, with the same texts and the same number. The time is linear
    /// in the texts.
    ///
    /// # Errors
    ///
    /// `OutOfMemory` where memory ran out.
    pub fn try_clone(&self, alloc: Global) -> Parsed<Self>
        ensures same { IfOk result (λ e. error_view e ≡ error_view self.now) }
        ensures memory { IfErr result (λ e. e ≡ OutOfMemory) }
    {
        match self {
            JsonPathError::PestError(place) => Ok(JsonPathError::PestError(*place)),
            JsonPathError::UnexpectedRuleLogicError(rule, text) => {
                JsonPathError::unexpected_rule(alloc, rule, text)
            }
            JsonPathError::UnexpectedNoneLogicError(part, text) => {
                unexpected_none(alloc, part, text)
            }
            JsonPathError::UnexpectedPestOutput => Ok(JsonPathError::UnexpectedPestOutput),
            JsonPathError::NoRulePath => Ok(JsonPathError::NoRulePath),
            JsonPathError::NoJsonPathDescent => Ok(JsonPathError::NoJsonPathDescent),
            JsonPathError::NoJsonPathField => Ok(JsonPathError::NoJsonPathField),
            JsonPathError::InvalidNumber(literal) => {
                Ok(JsonPathError::InvalidNumber(String::from_str(alloc, literal)?))
            }
            JsonPathError::InvalidTopLevelRule(rule) => {
                Ok(JsonPathError::InvalidTopLevelRule(String::from_str(alloc, rule)?))
            }
            JsonPathError::EmptyInner(text) => JsonPathError::empty(alloc, text),
            JsonPathError::InvalidJsonPath(said) => {
                Ok(JsonPathError::InvalidJsonPath(String::from_str(alloc, said)?))
            }
            JsonPathError::MaxNestingDepthExceeded(depth) => {
                Ok(JsonPathError::MaxNestingDepthExceeded(*depth))
            }
            JsonPathError::OutOfMemory => Ok(JsonPathError::OutOfMemory),
        }
    }
}

fn unexpected_none(alloc: Global, part: &str, text: &str) -> Parsed<JsonPathError>
    ensures made { IfOk result (λ e. error_view e ≡ error.unexpected_none part.now text.now) }
    ensures memory { IfErr result (λ e. e ≡ OutOfMemory) }
{
    let part = String::from_str(alloc, part)?;
    let text = String::from_str(alloc, text)?;
    Ok(JsonPathError::UnexpectedNoneLogicError(part, text))
}

/// What a call of the parser returns.
pub type Parsed<T> = Result<T, JsonPathError>;
