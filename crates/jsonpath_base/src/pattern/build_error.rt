//! The reasons why a pattern cannot be built. One becomes a `JsonPathError` only where it is returned to a caller, so
//! that nothing before that carries a text.
ghost use Rattle.std.specs.Prelude.{◌≡◌, Option};
ghost use Rattle.jsonpath_base.specs.Prelude.{IsPatternBuildError, Re};
ghost use Rattle.jsonpath_parser.specs.declared.errors.JsonPathError.TheVariants as error;
ghost use Rattle.jsonpath_base.specs.Pattern.{IsInvalid, IsPatternRefusal};
ghost use Rattle.jsonpath_base.specs.declared.pattern.build_error.PatternBuildError.TheVariants.{Memory};

use jsonpath_parser::errors::JsonPathError;
use std::alloc::{AllocError, AllocFailed, Global};

/// The reason why a pattern cannot be built.
#[derive(Clone, Copy)]
pub enum PatternBuildError {
    /// Memory ran out.
    Memory,
    /// `regex` can read the pattern and refuses it for its size.
    TooLarge,
}

/// The result of a call that builds a pattern.
pub type Built<T> = Result<T, PatternBuildError>;

impl PatternBuildError {
    /// Returns the error for a caller: `OutOfMemory`, or `InvalidJsonPath` if there is memory for its text.
    pub fn into_error(self, alloc: Global) -> JsonPathError
        ensures memory { self ≡ Memory → result ≡ error.OutOfMemory }
        ensures refused { (sought : Option Re) → IsPatternBuildError sought self → IsPatternRefusal sought result }
        ensures invalid { (result ≡ error.OutOfMemory → ⊥) → IsInvalid result }
    {
        match self {
            PatternBuildError::Memory => JsonPathError::OutOfMemory,
            PatternBuildError::TooLarge => match String::from_str(alloc, "a pattern is too large") {
                Ok(text) => JsonPathError::InvalidJsonPath(text),
                Err(_) => JsonPathError::OutOfMemory,
            },
        }
    }
}

impl From<AllocError> for PatternBuildError {
    ghost use Rattle.jsonpath_base.specs.declared.pattern.build_error.PatternBuildError.TheVariants.{Memory};

    ghost from_gives = { λ _ u. u ≡ Memory };

    fn from(_error: AllocError) -> PatternBuildError {
        PatternBuildError::Memory
    }
}

impl<T: Drop> From<AllocFailed<T>> for PatternBuildError {
    ghost use Rattle.jsonpath_base.specs.declared.pattern.build_error.PatternBuildError.TheVariants.{Memory};

    ghost from_gives = { λ _ u. u ≡ Memory };

    fn from(_error: AllocFailed<T>) -> PatternBuildError {
        PatternBuildError::Memory
    }
}
