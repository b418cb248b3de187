//! How a part of a query is read at a cursor, and what is refused there.
ghost use Rattle.std.specs.Prelude.{◌≡◌};
ghost use Rattle.jsonpath_parser.specs.Prelude.{IsAnswer, IsCursorRefusal, StaysInText, Accepts, Valued};

use super::Cursor;
use crate::errors::{JsonPathError, Parsed};
use crate::grammar::NumberMode;
use crate::parse::{literal_at, place_at};
use crate::words::parse_error::ParseError;
use std::alloc::Global;

/// The refusal of a text whose reading stopped; `again` is what reading gives where any number literal is taken.
pub fn refusal<T: Drop>(
    alloc: Global,
    cursor: &Cursor<'_>,
    stop: ParseError,
    again: Result<(T, &str), ParseError>,
) -> JsonPathError
    ensures { IsCursorRefusal cursor.now stop again.entry result }
{
    let ParseError::Syntax(remaining) = stop else {
        return JsonPathError::OutOfMemory;
    };
    let place = place_at(cursor.text, remaining);
    match again {
        Ok((_, rest)) => {
            if !rest.is_empty() {
                return JsonPathError::PestError(place);
            }
            match String::from_str(alloc, literal_at(cursor.rest, remaining)) {
                Ok(literal) => JsonPathError::InvalidNumber(literal),
                Err(_) => JsonPathError::OutOfMemory,
            }
        }
        Err(ParseError::Memory) => JsonPathError::OutOfMemory,
        Err(ParseError::Syntax(_)) => JsonPathError::PestError(place),
    }
}

/// What was read, as `take` turns it, where `is_typed`; and the text after it.
fn taken<'s, X: Drop, T: Drop, K, C>(
    read: Result<(X, &'s str), ParseError>,
    take: K,
    is_typed: C,
) -> Result<(T, &'s str), ParseError>
where
    K: FnOnce(X, usize) -> Result<T, ParseError>,
    C: FnOnce(&T) -> bool,
    requires take { (x : _) (remaining : _) → K.pre take x remaining }
    requires check { (t : _) → C.pre is_typed t }
    ensures { Accepts (λ numbers r. r ≡ read.entry) (λ x t. (remaining : _) × K.post take x remaining t) (C.post is_typed) Valued result }
{
    match read {
        Ok((base, rest)) => match take(base, rest.len()) {
            Ok(tree) => {
                if is_typed(&tree) {
                    Ok((tree, rest))
                } else {
                    Err(ParseError::Syntax(rest.len()))
                }
            }
            Err(stop) => Err(stop),
        },
        Err(stop) => Err(stop),
    }
}

/// Reads a part of a query at the cursor: what `read` finds there, as `take` turns it, where `is_typed`. A text that is
/// refused is read twice.
pub fn part<'t, X: Drop, T: Drop, R, K, C>(
    alloc: Global,
    cursor: &mut Cursor<'t>,
    read: R,
    take: K,
    is_typed: C,
) -> Parsed<T>
where
    R: FnOnce(Global, NumberMode, &'t str) -> Result<(X, &'t str), ParseError> + Copy,
    K: FnOnce(X, usize) -> Result<T, ParseError> + Copy,
    C: FnOnce(&T) -> bool + Copy,
    requires read { (a : _) (numbers : _) (s : _) → R.pre read a numbers s }
    requires take { (x : _) (remaining : _) → K.pre take x remaining }
    requires check { (t : _) → C.pre is_typed t }
    requires stays { StaysInText (λ numbers. R.post read alloc numbers cursor.old.rest) (λ x t. (remaining : _) × K.post take x remaining t) (C.post is_typed) cursor.old }
    ensures { IsAnswer (λ numbers. R.post read alloc numbers cursor.old.rest) (λ x t. (remaining : _) × K.post take x remaining t) (C.post is_typed) cursor.old cursor.new result }
{
    match taken(read(alloc, NumberMode::Valued, cursor.rest), take, is_typed) {
        Ok((tree, rest)) => {
            cursor.rest = rest;
            Ok(tree)
        }
        Err(stop) => {
            let again = taken(read(alloc, NumberMode::Any, cursor.rest), take, is_typed);
            Err(refusal(alloc, cursor, stop, again))
        }
    }
}
