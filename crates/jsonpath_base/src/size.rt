//! The size of steps and of tries, which says how much memory they take: one for each step, and one for every 16 bytes
//! of its name.
use crate::location_trie::LocationTrie;
use crate::step::StepRef;

/// The number of bytes of a name that count as much as a step.
const BYTES: usize = 16;

/// Returns the size of these steps, without the first `shared_len`.
pub fn steps_size(steps: &[StepRef<'_>], shared_len: usize) -> usize {
    let mut size: usize = 0;
    for step in steps.iter().skip(shared_len) {
        size = size.saturating_add(step_size(*step));
    }
    size
}

/// Returns the size of a step.
fn step_size(step: StepRef<'_>) -> usize {
    match step {
        StepRef::Name(name) => (name.len() / BYTES).saturating_add(1),
        StepRef::Index(_) => 1,
    }
}

/// Returns the size of the steps in a trie, plus one.
#[cycle(size)]
pub fn marks_size(marks: &LocationTrie) -> usize {
    let below = members_size(&marks.names).saturating_add(elements_size(&marks.indexes));
    below.saturating_add(1)
}

/// Returns the size of these names and of all below them.
#[cycle(size)]
fn members_size(below: &[(String, LocationTrie)]) -> usize {
    let mut size: usize = 0;
    for (name, marks) in below {
        size = size.saturating_add(name.len() / BYTES);
        size = size.saturating_add(marks_size(marks));
    }
    size
}

/// Returns the size of these indexes and of all below them.
#[cycle(size)]
fn elements_size(below: &[(usize, LocationTrie)]) -> usize {
    let mut size: usize = 0;
    for (_, marks) in below {
        size = size.saturating_add(marks_size(marks));
    }
    size
}
