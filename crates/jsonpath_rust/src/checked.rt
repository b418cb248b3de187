//! Documents that were checked once. The check makes a [`Whole`] or a [`WholeRef`]. After that nothing about the
//! document has to be checked or proved: its queries require nothing.
ghost use Rattle.std.specs.Prelude.{◌≡◌, IfErr, IfOk, IsFalse, IsTrue};

use crate::documents::queryable::Queryable;
use crate::documents::whole::{Whole, WholeRef};

mod changes;
mod edits;
mod read;
mod whole_ref;

pub use crate::checked::read::ReadError;

impl<T: Queryable> Whole<T> {
    /// Returns the value as a whole one, or returns it as it is if it is not whole. The check visits the whole value.
    pub fn new(value: T) -> Result<Self, T>
        ensures same { IfOk result (λ w. w.value ≡ value) }
        ensures not_whole { IfErr result (λ v. (v ≡ value) × IsFalse (T.is_whole value)) }
    {
        if value.is_whole() {
            Ok(Whole { value })
        } else {
            Err(value)
        }
    }

    /// Returns a value that is known to be whole, without a check.
    pub fn of(value: T) -> Self
        requires { IsTrue (T.is_whole value) }
        ensures { result.value ≡ value }
    {
        Whole { value }
    }

    /// Borrows the value.
    pub fn get(&self) -> &T
        ensures same { result.now ≡ self.now.value }
        ensures whole { IsTrue (T.is_whole result.now) }
    {
        &self.value
    }

    /// Returns the value.
    pub fn into_inner(self) -> T
        ensures same { result ≡ self.value }
        ensures whole { IsTrue (T.is_whole result) }
    {
        self.value
    }

    /// Borrows the value as one that is whole.
    #[inline(always)]
    pub fn as_ref(&self) -> WholeRef<'_, T>
        ensures { result.value.now ≡ self.now.value }
    {
        WholeRef { value: &self.value }
    }
}
