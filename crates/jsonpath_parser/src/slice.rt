//! The places that a slice selector picks in an array (RFC 9535, 2.3.4).
ghost use Rattle.std.specs.Prelude.{◌≡◌, ◌<◌, ◌≤◌, suc, pos, negsuc, ◌+ℤ◌, ◌-ℤ◌, neg_ℤ, unwrap_or, length, All, Some, IfSome, IfOk, IfErr};
ghost use Rattle.std.specs.Iterator.{UpTo, YieldsFirst, item_count};
ghost use Rattle.std.specs.Iterator.SizeHint.{IsWithinCount};
ghost use Rattle.jsonpath_parser.specs.Prelude.{clamped, normalized, picked_of, places_left, slice_of};

use crate::errors::{JsonPathError, Parsed};
use std::alloc::Global;

/// The places that a slice picks, one after another, from [`slice_places`]. It needs no memory, and each step takes constant time.
#[derive(Debug, Drop)]
pub struct SlicePlaces {
    /// The next place of a slice that rises, or one more than the next of one that falls.
    at: usize,
    /// Where a slice that rises ends, or the lowest place of one that falls.
    end: usize,
    /// How many places lie between two that are picked.
    between: usize,
    falls: bool,
}

impl Iterator for SlicePlaces {
    type Item = usize;

    ghost next_gives = { YieldsFirst places_left };

    ghost remaining = { item_count places_left };

    #[inline(always)]
    fn next(&mut self) -> Option<usize> {
        if self.falls {
            if self.at <= self.end {
                return None;
            }
            let index = self.at - 1;
            self.at = index.saturating_sub(self.between);
            Some(index)
        } else {
            if self.end <= self.at {
                return None;
            }
            let index = self.at;
            self.at = (index + 1).saturating_add(self.between);
            Some(index)
        }
    }

    /// Both bounds are the number of places that are left.
    fn size_hint(&self) -> (usize, Option<usize>)
        ensures lower { IsWithinCount result.0 (item_count places_left self.now) }
        ensures upper { IfSome result.1 (UpTo (item_count places_left self.now)) }
        ensures exact { result ≡ (length (places_left self.now), Some (length (places_left self.now))) }
    {
        let left = self.len();
        (left, Some(left))
    }
}

impl ExactSizeIterator for SlicePlaces {
    fn len(&self) -> usize {
        if self.falls {
            places_within(self.at.saturating_sub(self.end), self.between)
        } else {
            places_within(self.end.saturating_sub(self.at), self.between)
        }
    }
}

/// How many places a slice picks from so many, where so many lie between two that are picked.
fn places_within(room: usize, between: usize) -> usize
    ensures { result ≡ picked_of room (suc between) }
{
    if room == 0 {
        0
    } else {
        (room - 1) / between.saturating_add(1) + 1
    }
}

/// The places that a slice picks in an array of `len` elements, in order (RFC 9535, 2.3.4). A part that is not given has the default
/// of its step's sign, and the step is 1. A part or a step of any size is taken as it is; a step of 0 picks nothing. Each place is
/// below `len`. Takes constant time and no memory.
pub fn slice_places(
    start: Option<i64>,
    end: Option<i64>,
    step: Option<i64>,
    len: usize,
) -> SlicePlaces
    ensures value { places_left result ≡ slice_of start end step len }
    ensures below { All (λ i. i < len) (places_left result) }
{
    let step = step.unwrap_or(1);
    let between = (step.unsigned_abs() as usize).saturating_sub(1);
    if step > 0 {
        SlicePlaces {
            at: rising_start(start, len),
            end: rising_end(end, len),
            between,
            falls: false,
        }
    } else if step < 0 {
        SlicePlaces {
            at: falling_start(start, len),
            end: falling_end(end, len),
            between,
            falls: true,
        }
    } else {
        SlicePlaces {
            at: 0,
            end: 0,
            between,
            falls: false,
        }
    }
}

/// The places of [`slice_places`] as a list, in time and memory linear in their number.
///
/// # Errors
///
/// `OutOfMemory` where memory ran out.
pub fn picked(
    alloc: Global,
    start: Option<i64>,
    end: Option<i64>,
    step: Option<i64>,
    len: usize,
) -> Parsed<Vec<usize>>
    ensures value { IfOk result (λ v. v.items ≡ slice_of start end step len) }
    ensures below { IfOk result (λ v. All (λ i. i < len) v.items) }
    ensures memory { IfErr result (λ e. e ≡ JsonPathError.OutOfMemory) }
{
    let places = slice_places(start, end, step, len).collect(alloc)?;
    Ok(places)
}

/// Where a part of a slice that rises points, from 0 to the length.
fn rising_bound(part: i64, len: usize) -> usize
    ensures value { pos result ≡ clamped (pos 0) (pos len) (normalized len part) }
    ensures within { result ≤ len }
{
    if part < 0 {
        len.saturating_sub(part.unsigned_abs() as usize)
    } else {
        len.min(part as usize)
    }
}

/// One more than where a part of a slice that falls points, from 0 to the length.
fn falling_bound(part: i64, len: usize) -> usize
    ensures value { pos result ≡ clamped (negsuc 0) (pos len -ℤ pos 1) (normalized len part) +ℤ pos 1 }
    ensures within { result ≤ len }
{
    if part < 0 {
        len.saturating_sub(part.unsigned_abs() as usize - 1)
    } else if (part as usize) < len {
        part as usize + 1
    } else {
        len
    }
}

/// The first place of a slice that rises.
fn rising_start(start: Option<i64>, len: usize) -> usize
    ensures { pos result ≡ clamped (pos 0) (pos len) (normalized len (unwrap_or start (pos 0))) }
{
    match start {
        Some(part) => rising_bound(part, len),
        None => 0,
    }
}

/// The end of a slice that rises.
fn rising_end(end: Option<i64>, len: usize) -> usize
    ensures value { pos result ≡ clamped (pos 0) (pos len) (normalized len (unwrap_or end (pos len))) }
    ensures within { result ≤ len }
{
    match end {
        Some(part) => rising_bound(part, len),
        None => len,
    }
}

/// One more than the first place of a slice that falls.
fn falling_start(start: Option<i64>, len: usize) -> usize
    ensures value { pos result ≡ clamped (negsuc 0) (pos len -ℤ pos 1) (normalized len (unwrap_or start (pos len -ℤ pos 1))) +ℤ pos 1 }
    ensures within { result ≤ len }
{
    match start {
        Some(part) => falling_bound(part, len),
        None => len,
    }
}

/// One more than the end of a slice that falls.
fn falling_end(end: Option<i64>, len: usize) -> usize
    ensures { pos result ≡ clamped (negsuc 0) (pos len -ℤ pos 1) (normalized len (unwrap_or end (neg_ℤ (pos len) -ℤ pos 1))) +ℤ pos 1 }
{
    match end {
        Some(part) => falling_bound(part, len),
        None => 0,
    }
}
