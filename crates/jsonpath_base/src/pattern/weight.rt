//! Estimates what a pattern costs in `regex`, from its text. Each estimate is one pass over the text: `scale` reads it,
//! `piece` describes its parts and joins them, and `literals` counts the literals that are copied for them.
mod literals;
mod piece;
mod scale;

use crate::pattern::weight::scale::Scale;
use std::alloc::{AllocError, Global};

/// The greatest sum of the weights of the patterns of a query that are cached, and of those of a document in one call:
/// some 270 MB.
pub const MOST_WEIGHT: usize = 4_000_000;

/// The weight of the largest pattern that `regex` builds. It refuses what takes more than 10 MiB.
const LARGEST: usize = 1 << 20;

/// What a pattern weighs beside its characters.
const LEAST: usize = 256;

/// The weight of a class of a property, such as `\p{L}` or `\w`. It is built of many ranges, but few of them continue
/// at a byte. A class of digits or blanks has a tenth.
const BUILT: usize = 700;

const SEARCHED: usize = 8;

/// The number of characters of a pattern for which each byte of a text costs one more unit.
const CHARACTERS: usize = 8;

/// Returns the weight of a pattern, which says how much memory it takes: about the number of its characters where its
/// counted repetitions are written out, but at most [`LARGEST`].
pub fn weight_of(alloc: Global, pattern: &str) -> Result<usize, AllocError> {
    Ok(weight_within(&Scale::of(alloc, pattern, BUILT)?))
}

/// Returns what it costs to build a pattern, in units of work: its weight, and what reading it takes in addition.
pub fn building_cost(alloc: Global, pattern: &str) -> Result<usize, AllocError> {
    let scale = Scale::of(alloc, pattern, BUILT)?;
    Ok(weight_within(&scale).saturating_add(scale.beside()))
}

fn weight_within(scale: &Scale) -> usize {
    scale.length().saturating_add(LEAST).min(LARGEST)
}

/// Returns what each byte of a text costs, beside one unit, where it is searched for this pattern. Where the tables of
/// `regex` are not enough, it goes through the whole pattern at each byte.
pub fn byte_cost(alloc: Global, pattern: &str) -> Result<usize, AllocError> {
    let length = Scale::of(alloc, pattern, SEARCHED)?.length();
    Ok(length.min(LARGEST) / CHARACTERS)
}
