//! The current path: the steps from the root to the current node, and the text of its Normalized Path (RFC 9535, 2.7).
ghost use Rattle.std.specs.Prelude.{◌≡◌, ◌≤◌, List, [], ◌∷◌, ◌++◌, length, IfOk, OnOk, OnErr, string_bytes};
ghost use Rattle.jsonpath_parser.specs.Normal.{normal, step_text};
ghost use Rattle.jsonpath_base.specs.Steps.{location_view, lent_step, lent_location};
ghost use Rattle.jsonpath_base.specs.inner.CurrentPath.{spelled, IsSpelled};
ghost use Rattle.jsonpath_base.specs.declared.step.StepRef.{StepRef};

use crate::size::steps_size;
use crate::step::{Step, StepRef, add_index, add_name};
use std::alloc::{AllocError, Global};

/// The steps from the root to the current node.
///
/// A step is shared once a path with it was written, or a location with it was marked. It is shared until it is popped,
/// and is neither written nor compared again.
#[derive(Drop)]
pub struct CurrentPath<'s> {
    pub steps: Vec<StepRef<'s>>,
    /// The text of the first steps, as in a Normalized Path.
    text: String,
    /// The place in the text where each of these steps begins.
    starts: Vec<usize>,
    /// The number of first steps that are shared. The text has no more steps than these.
    pub shared_len: usize,
    ghost spelled: { IsSpelled steps.items starts.items (string_bytes text) },
    ghost spells: { length starts.items ≤ shared_len },
    ghost within: { shared_len ≤ length steps.items },
}

impl<'s> CurrentPath<'s> {
    /// Returns the path of the root.
    pub fn new(alloc: Global) -> Self
        ensures { result.steps.items ≡ [] }
    {
        CurrentPath {
            steps: Vec::new(alloc),
            text: String::new(alloc),
            starts: Vec::new(alloc),
            shared_len: 0,
        }
    }

    /// Adds a step.
    #[inline(always)]
    pub fn push(&mut self, step: StepRef<'s>) -> Result<(), AllocError>
        ensures steps { OnOk result (self.new.steps.items ≡ self.old.steps.items ++ step.entry ∷ []) }
        ensures shared_len { self.new.shared_len ≡ self.old.shared_len }
    {
        Ok(self.steps.push(step)?)
    }

    /// Removes the last step.
    #[inline(always)]
    pub fn pop(&mut self)
        ensures steps { (steps : List StepRef) (step : StepRef) → self.old.steps.items ≡ steps ++ step ∷ [] → self.new.steps.items ≡ steps }
        ensures shared_len { self.new.shared_len ≤ self.old.shared_len }
    {
        let _ = self.steps.pop();
        let remaining = self.steps.len();
        if remaining < self.shared_len {
            self.shared_len = remaining;
            if remaining < self.starts.len() {
                if let Some(start) = self.starts.pop() {
                    self.text.truncate(start);
                }
            }
        }
    }

    /// Makes all steps shared.
    #[inline(always)]
    pub fn mark_shared(&mut self)
        ensures steps { self.new.steps.items ≡ self.old.steps.items }
        ensures shared_len { self.new.shared_len ≡ length self.new.steps.items }
    {
        self.shared_len = self.steps.len();
    }

    /// Leaves at most the first `count` steps shared. Where more were shared, the text is cleared.
    #[inline(always)]
    pub fn limit_shared(&mut self, count: usize)
        ensures steps { self.new.steps.items ≡ self.old.steps.items }
        ensures shared_len { self.new.shared_len ≤ count }
    {
        if count < self.shared_len {
            self.shared_len = count;
            self.starts.clear();
            self.text.clear();
        }
    }

    /// Returns the size of the steps that are not shared: one for each, and one for every 16 bytes of its name.
    pub fn unshared_size(&self) -> usize {
        steps_size(&self.steps, self.shared_len)
    }

    /// Returns the Normalized Path. It makes all steps shared.
    pub fn path(&mut self, alloc: Global) -> Result<String, AllocError>
        ensures value { IfOk result (λ path. string_bytes path ≡ normal (lent_location self.old.steps.items)) }
        ensures same { self.new.steps.items ≡ self.old.steps.items }
    {
        self.mark_shared();
        spell(alloc, &self.steps, &mut self.text, &mut self.starts)?;
        let mut path = String::with_capacity(alloc, self.text.len().saturating_add(1))?;
        path.push('$')?;
        path.push_str(&self.text)?;
        Ok(path)
    }

    /// Returns the location, with names of its own.
    pub fn location(&self, alloc: Global) -> Result<Vec<Step>, AllocError>
        ensures value { IfOk result (λ steps. location_view steps.items ≡ lent_location self.now.steps.items) }
    {
        let mut steps = Vec::with_capacity(alloc, self.steps.len())?;
        for step in &self.steps {
            steps.push(step.owned(alloc)?)?;
        }
        Ok(steps)
    }
}

/// Writes the steps that the text does not have yet.
fn spell(
    alloc: Global,
    steps: &Vec<StepRef<'_>>,
    text: &mut String,
    starts: &mut Vec<usize>,
) -> Result<(), AllocError>
    requires { IsSpelled steps.now.items starts.old.items (string_bytes text.old) }
    ensures right { IsSpelled steps.now.items starts.new.items (string_bytes text.new) }
    ensures all { OnOk result (string_bytes text.new ≡ spelled steps.now.items) }
{
    while starts.len() < steps.len() {
        let step = steps[starts.len()];
        spell_next(alloc, step, text, starts)?;
    }
    Ok(())
}

/// Writes a step at the end of the text. Where memory is refused, nothing changes.
fn spell_next(
    alloc: Global,
    step: StepRef<'_>,
    text: &mut String,
    starts: &mut Vec<usize>,
) -> Result<(), AllocError>
    ensures text { OnOk result (string_bytes text.new ≡ string_bytes text.old ++ step_text (lent_step step.entry)) }
    ensures starts { OnOk result (starts.new.items ≡ starts.old.items ++ length (string_bytes text.old) ∷ []) }
    ensures same_text { OnErr result (string_bytes text.new ≡ string_bytes text.old) }
    ensures same_starts { OnErr result (starts.new.items ≡ starts.old.items) }
{
    starts.push(text.len())?;
    match add_step(alloc, text, step) {
        Ok(()) => Ok(()),
        Err(error) => {
            let _ = starts.pop();
            Err(error)
        }
    }
}

/// Appends a step to a text. Where memory is refused, the text does not change.
#[inline(always)]
fn add_step(alloc: Global, text: &mut String, step: StepRef<'_>) -> Result<(), AllocError>
    ensures value { OnOk result (string_bytes text.new ≡ string_bytes text.old ++ step_text (lent_step step.entry)) }
    ensures same { OnErr result (string_bytes text.new ≡ string_bytes text.old) }
{
    let added = match step {
        StepRef::Name(name) => add_name(alloc, text, name),
        StepRef::Index(index) => add_index(alloc, text, index),
    };
    match added {
        Ok(()) => Ok(()),
        Err(_) => Err(AllocError),
    }
}
