//! The reasons why a walk ends with an error. One becomes a `JsonPathError` only where the walk began, so that no step
//! of the walk carries a text.
ghost use Rattle.std.specs.Prelude.{◌≡◌};
ghost use Rattle.jsonpath_base.specs.Prelude.Documents.{IsInvalid, Memory, Pattern};
ghost use Rattle.jsonpath_parser.specs.declared.errors.JsonPathError.TheVariants as error;

use crate::engine::PatternBuildError;
use jsonpath_parser::errors::JsonPathError;
use std::alloc::{AllocError, AllocFailed, Global};

/// The reason why a walk ends with an error.
#[derive(Clone, Copy)]
pub enum WalkError {
    /// Memory ran out.
    Memory,
    /// `regex` refused a pattern for its size.
    Pattern,
    /// The walk used up the units that it may spend. A walk without a limit never ends so.
    Spent,
}

/// The result of a step of a walk.
pub type WalkResult<T> = Result<T, WalkError>;

impl WalkError {
    /// Returns the error for the caller of the walk. It is not called for `Spent`.
    pub fn into_error(self, alloc: Global) -> JsonPathError
        ensures memory { self ≡ Memory → result ≡ error.OutOfMemory }
        ensures pattern { (result ≡ error.OutOfMemory → ⊥) → IsInvalid result }
    {
        match self {
            WalkError::Memory => JsonPathError::OutOfMemory,
            WalkError::Pattern => PatternBuildError::TooLarge.into_error(alloc),
            WalkError::Spent => PatternBuildError::TooLarge.into_error(alloc),
        }
    }
}

impl From<AllocError> for WalkError {
    ghost use Rattle.jsonpath_base.specs.declared.documents.walk_error.WalkError.TheVariants.{Memory};

    ghost from_gives = { λ _ h. h ≡ Memory };

    fn from(_error: AllocError) -> WalkError {
        WalkError::Memory
    }
}

impl<T: Drop> From<AllocFailed<T>> for WalkError {
    ghost use Rattle.jsonpath_base.specs.declared.documents.walk_error.WalkError.TheVariants.{Memory};

    ghost from_gives = { λ _ h. h ≡ Memory };

    fn from(_error: AllocFailed<T>) -> WalkError {
        WalkError::Memory
    }
}

/// For calls that build a pattern.
impl From<PatternBuildError> for WalkError {
    ghost use Rattle.jsonpath_base.specs.declared.pattern.build_error.PatternBuildError.TheVariants as build_error;
    ghost use Rattle.jsonpath_base.specs.declared.documents.walk_error.WalkError.TheVariants.{Memory};

    ghost from_gives = { λ u h. u ≡ build_error.Memory → h ≡ Memory };

    fn from(cause: PatternBuildError) -> WalkError {
        match cause {
            PatternBuildError::Memory => WalkError::Memory,
            PatternBuildError::TooLarge => WalkError::Pattern,
        }
    }
}

/// For calls that fail with `OutOfMemory` only.
impl From<JsonPathError> for WalkError {
    ghost use Rattle.jsonpath_parser.specs.declared.errors.JsonPathError.TheVariants.{OutOfMemory};
    ghost use Rattle.jsonpath_base.specs.declared.documents.walk_error.WalkError.TheVariants.{Memory};

    ghost from_gives = { λ e h. e ≡ OutOfMemory → h ≡ Memory };

    fn from(error: JsonPathError) -> WalkError {
        match &error {
            JsonPathError::OutOfMemory => WalkError::Memory,
            _ => WalkError::Pattern,
        }
    }
}
