//! Why reading stopped.
ghost use Rattle.std.specs.Prelude.{◌≡◌};

use std::alloc::{AllocError, AllocFailed};

/// What a reading function returns where it has no tree.
#[derive(Debug, Drop)]
pub enum ParseError {
    /// Memory ran out.
    Memory,
    /// The text does not go on as the grammar says; so many bytes were left.
    Syntax(usize),
}

impl From<AllocError> for ParseError {
    ghost use Rattle.jsonpath_parser.specs.declared.words.parse_error.ParseError.TheVariants.{Memory};

    ghost from_gives = { λ _ e. e ≡ Memory };

    fn from(_error: AllocError) -> ParseError {
        ParseError::Memory
    }
}

impl<T: Drop> From<AllocFailed<T>> for ParseError {
    ghost use Rattle.jsonpath_parser.specs.declared.words.parse_error.ParseError.TheVariants.{Memory};

    ghost from_gives = { λ _ e. e ≡ Memory };

    fn from(_error: AllocFailed<T>) -> ParseError {
        ParseError::Memory
    }
}
