//! Sorts a trie of locations: at each level the steps ascend, and each is there once.
ghost use Rattle.std.specs.Prelude.{◌≡◌, ◌≤◌, ◌+◌, ◌++◌, true, if◌then◌else◌, IfOk, OnOk, IsTrue, string_cmp};
ghost use Rattle.jsonpath_base.specs.Prelude.{distinct_count, in_order, IsJoined, IsSameSet, IsStrictlySortedBy, keys_of, level_in_order, listed, listed_in, marked, marked_in, marks_count, marks_total, nat_cmp, to_member};
ghost use Rattle.jsonpath_parser.specs.Location as location;
ghost use Rattle.jsonpath_base.specs.inner.LocationTries.{HoldsSame};

use crate::location_trie::LocationTrie;
use std::alloc::{AllocError, Global};
use std::mem;

/// Sorts a trie. Returns the number of locations in it.
#[cycle(order)]
pub fn put_in_order(alloc: Global, marks: &mut LocationTrie) -> Result<usize, AllocError>
    ensures same { OnOk result (IsSameSet (marked marks.old) (marked marks.new)) }
    ensures ordered { OnOk result (IsTrue (in_order marks.new)) }
    ensures count { IfOk result (λ n. n ≡ distinct_count (listed marks.new)) }
{
    let names = order_members(alloc, &mut marks.names)?;
    let indexes = order_elements(alloc, &mut marks.indexes)?;
    sum(ones(marks.is_marked), sum(names, indexes)?)
}

/// Sorts the tries below members. Returns the number of locations in them.
#[cycle(order)]
fn order_members(
    alloc: Global,
    below: &mut Vec<(String, LocationTrie)>,
) -> Result<usize, AllocError>
    ensures same { OnOk result (IsSameSet (marked_in to_member below.old.items) (marked_in to_member below.new.items)) }
    ensures ordered { OnOk result (IsTrue (level_in_order string_cmp below.new.items)) }
    ensures count { IfOk result (λ n. n ≡ distinct_count (listed_in to_member below.new.items)) }
{
    order_keys(alloc, below)?;
    let mut count = 0;
    for i in 0..below.len() {
        let held = put_in_order(alloc, &mut below[i].1)?;
        count = sum(count, held)?;
    }
    Ok(count)
}

/// Sorts the tries below elements. Returns the number of locations in them.
#[cycle(order)]
fn order_elements(
    alloc: Global,
    below: &mut Vec<(usize, LocationTrie)>,
) -> Result<usize, AllocError>
    ensures same { OnOk result (IsSameSet (marked_in location.index below.old.items) (marked_in location.index below.new.items)) }
    ensures ordered { OnOk result (IsTrue (level_in_order nat_cmp below.new.items)) }
    ensures count { IfOk result (λ n. n ≡ distinct_count (listed_in location.index below.new.items)) }
{
    order_keys(alloc, below)?;
    let mut count = 0;
    for i in 0..below.len() {
        let held = put_in_order(alloc, &mut below[i].1)?;
        count = sum(count, held)?;
    }
    Ok(count)
}

/// Returns one if the location with no step is marked, else 0.
fn ones(is_marked: bool) -> usize
    ensures { result ≡ (if is_marked then 1 else 0) }
{
    if is_marked { 1 } else { 0 }
}

/// Returns the sum of two counts. It is never refused in practice, because no memory holds so many locations.
pub fn sum(left: usize, right: usize) -> Result<usize, AllocError>
    ensures { IfOk result (λ n. n ≡ left + right) }
{
    match left.checked_add(right) {
        Some(both) => Ok(both),
        None => Err(AllocError),
    }
}

/// Sorts entries by their keys, and joins those with one key, in place. Where they are sorted already, it takes linear
/// time. Runs of ascending keys are merged, such as the two of `..*`.
fn order_keys<K: Ord + Drop>(
    alloc: Global,
    entries: &mut Vec<(K, LocationTrie)>,
) -> Result<(), AllocError>
    ensures sorted { OnOk result (IsStrictlySortedBy K.cmp (keys_of entries.new.items)) }
    ensures same { OnOk result (HoldsSame K.cmp entries.old.items entries.new.items) }
    ensures fewer { OnOk result (marks_total entries.new.items ≤ marks_total entries.old.items) }
{
    if keys_rise(entries) {
        return Ok(());
    }
    entries.sort_by(|left, right| left.0.cmp(&right.0))?;
    let mut unique = 0;
    for next in 1..entries.len() {
        if entries[next].0.cmp(&entries[unique].0).is_eq() {
            let marks = mem::replace(&mut entries[next].1, LocationTrie::new(alloc));
            join(&mut entries[unique].1, marks)?;
            continue;
        }
        unique += 1;
        entries.swap(next, unique);
    }
    entries.truncate(unique + 1);
    Ok(())
}

/// Returns whether each key is less than the next.
fn keys_rise<K: Ord>(entries: &[(K, LocationTrie)]) -> bool
    ensures { result ≡ true → IsStrictlySortedBy K.cmp (keys_of entries.now) }
{
    for i in 1..entries.len() {
        if !entries[i - 1].0.cmp(&entries[i].0).is_lt() {
            return false;
        }
    }
    true
}

/// Adds the locations of another trie to a trie.
fn join(marks: &mut LocationTrie, others: LocationTrie) -> Result<(), AllocError>
    ensures joined { OnOk result (IsJoined (marked marks.old) (marked others) (marked marks.new)) }
    ensures fewer { OnOk result (marks_count marks.new + 1 ≤ marks_count marks.old + marks_count others) }
{
    let LocationTrie {
        is_marked,
        mut names,
        mut indexes,
    } = others;
    marks.is_marked |= is_marked;
    append(&mut marks.names, &mut names)?;
    append(&mut marks.indexes, &mut indexes)?;
    Ok(())
}

/// Moves other entries to the end. Where they are at least as many as those before them, it makes exactly the room they
/// need.
fn append<K>(
    below: &mut Vec<(K, LocationTrie)>,
    others: &mut Vec<(K, LocationTrie)>,
) -> Result<(), AllocError>
    ensures { OnOk result (below.new.items ≡ below.old.items ++ others.old.items) }
{
    if below.len() <= others.len() {
        below.reserve_exact(others.len())?;
    }
    below.append(others)
}
