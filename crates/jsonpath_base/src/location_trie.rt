//! The trie of locations: locations that are marked, in the order in which they were added.
ghost use Rattle.std.specs.Prelude.{◌≡◌, ℕ, ◌-◌, OnOk, ◌∷◌, [], length, take, slice_index_or, IsTrue, String, string_bytes};
ghost use Rattle.jsonpath_parser.specs.Location as location;
ghost use Rattle.jsonpath_base.specs.Prelude.{AddsIn, EndsWith, lent_location, LevelEnds, listed, LocationTrie, marks_count, to_member};
ghost use Rattle.jsonpath_base.specs.inner.LocationTries.{Adds};
ghost use Rattle.std.specs.Global.{Global};

use crate::step::StepRef;
use std::alloc::{AllocError, Global};

/// A set of locations, by their first steps. It says whether the location with no step is marked, and holds the rest of
/// each other location. A step may be there several times.
#[derive(Drop)]
pub struct LocationTrie {
    pub is_marked: bool,
    pub names: Vec<(String, LocationTrie)>,
    pub indexes: Vec<(usize, LocationTrie)>,
}

impl LocationTrie {
    /// Returns the empty set.
    pub fn new(alloc: Global) -> Self
        ensures none { listed result ≡ [] }
        ensures one { marks_count result ≡ 1 }
    {
        LocationTrie {
            is_marked: false,
            names: Vec::new(alloc),
            indexes: Vec::new(alloc),
        }
    }
}

/// Adds a location to the set: at each level to the last entry if that has the step, else to a new one. The first
/// `shared_len` steps are assumed to be in the last entries, and are not compared. Returns whether a new entry is
/// greater than those before it; true where there is no new entry.
#[cycle(mark)]
pub fn mark(
    alloc: Global,
    marks: &mut LocationTrie,
    steps: &[StepRef<'_>],
    shared_len: usize,
) -> Result<bool, AllocError>
    ensures { OnOk result (EndsWith (take shared_len (lent_location steps.now)) marks.old → Adds marks.old (lent_location steps.now) marks.new) }
{
    match steps.split_first() {
        None => {
            marks.is_marked = true;
            Ok(true)
        }
        Some((StepRef::Name(name), rest)) => mark_member(
            alloc,
            &mut marks.names,
            *name,
            rest,
            shared_len,
        ),
        Some((StepRef::Index(index), rest)) => mark_element(
            alloc,
            &mut marks.indexes,
            *index,
            rest,
            shared_len,
        ),
    }
}

/// Adds a location whose first step is the member of this name.
#[cycle(mark)]
fn mark_member(
    alloc: Global,
    below: &mut Vec<(String, LocationTrie)>,
    name: &str,
    rest: &[StepRef<'_>],
    shared_len: usize,
) -> Result<bool, AllocError>
    ensures { OnOk result (LevelEnds to_member (take shared_len (location.name name.now ∷ lent_location rest.now)) below.old.items
        → AddsIn to_member below.old.items (location.name name.now ∷ lent_location rest.now) below.new.items) }
{
    if ends_with_name(below, name, shared_len) {
        if let Some(last) = below.last_mut() {
            return mark(alloc, &mut last.1, rest, shared_len.saturating_sub(1));
        }
    }
    let rises = name_rises(below, name);
    let key = String::from_str(alloc, name)?;
    let mut marks = LocationTrie::new(alloc);
    mark(alloc, &mut marks, rest, 0)?;
    make_room(below)?;
    below.push((key, marks))?;
    Ok(rises)
}

/// Adds a location whose first step is the element of this index.
#[cycle(mark)]
fn mark_element(
    alloc: Global,
    below: &mut Vec<(usize, LocationTrie)>,
    index: usize,
    rest: &[StepRef<'_>],
    shared_len: usize,
) -> Result<bool, AllocError>
    ensures { OnOk result (LevelEnds location.index (take shared_len (location.index index ∷ lent_location rest.now)) below.old.items
        → AddsIn location.index below.old.items (location.index index ∷ lent_location rest.now) below.new.items) }
{
    if ends_with_index(below, index, shared_len) {
        if let Some(last) = below.last_mut() {
            return mark(alloc, &mut last.1, rest, shared_len.saturating_sub(1));
        }
    }
    let rises = index_rises(below, index);
    let mut marks = LocationTrie::new(alloc);
    mark(alloc, &mut marks, rest, 0)?;
    make_room(below)?;
    below.push((index, marks))?;
    Ok(rises)
}

/// Makes room for one entry if there is none, and for no more, because most levels have only one.
fn make_room<K>(below: &mut Vec<(K, LocationTrie)>) -> Result<(), AllocError>
    ensures { below.new.items ≡ below.old.items }
{
    if below.is_empty() {
        below.reserve_exact(1)?;
    }
    Ok(())
}

/// Returns whether the last entry is of this name. A shared step is not compared.
#[inline(always)]
fn ends_with_name(below: &[(String, LocationTrie)], name: &str, shared_len: usize) -> bool
    ensures { (e : String Global × LocationTrie) → IsTrue result → shared_len ≡ 0 → string_bytes (slice_index_or below.now (length below.now - 1) e).0 ≡ name.now }
{
    if shared_len > 0 {
        return true;
    }
    match below.last() {
        Some(last) => last.0.as_str() == name,
        None => false,
    }
}

/// Returns whether the last entry is of this index. A shared step is not compared.
#[inline(always)]
fn ends_with_index(below: &[(usize, LocationTrie)], index: usize, shared_len: usize) -> bool
    ensures { (e : ℕ × LocationTrie) → IsTrue result → shared_len ≡ 0 → (slice_index_or below.now (length below.now - 1) e).0 ≡ index }
{
    if shared_len > 0 {
        return true;
    }
    match below.last() {
        Some(last) => last.0 == index,
        None => false,
    }
}

/// Returns whether this name is greater than that of the last entry; true if there is none.
#[inline(always)]
fn name_rises(below: &[(String, LocationTrie)], name: &str) -> bool {
    match below.last() {
        Some(last) => last.0.as_str() < name,
        None => true,
    }
}

/// Returns whether this index is greater than that of the last entry; true if there is none.
#[inline(always)]
fn index_rises(below: &[(usize, LocationTrie)], index: usize) -> bool {
    match below.last() {
        Some(last) => last.0 < index,
        None => true,
    }
}
