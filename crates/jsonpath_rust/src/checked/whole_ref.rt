//! Borrowed documents that were checked once.
ghost use Rattle.std.specs.Prelude.{◌≡◌, IfNone, IfSome, IsFalse, IsTrue};

use crate::documents::queryable::Queryable;
use crate::documents::whole::WholeRef;

impl<'a, T: Queryable> WholeRef<'a, T> {
    /// Returns the value as a whole one, or None if it is not whole. The check visits the whole value.
    pub fn new(value: &'a T) -> Option<Self>
        ensures same { IfSome result (λ w. w.value.now ≡ value.now) }
        ensures not_whole { IfNone result (IsFalse (T.is_whole value.now)) }
    {
        if value.is_whole() {
            Some(WholeRef { value })
        } else {
            None
        }
    }

    /// Returns a value that is known to be whole, without a check.
    pub fn of(value: &'a T) -> Self
        requires { IsTrue (T.is_whole value.now) }
        ensures { result.value.now ≡ value.now }
    {
        WholeRef { value }
    }

    /// Returns the value.
    pub fn get(self) -> &'a T
        ensures same { result.now ≡ self.entry.value.now }
        ensures whole { IsTrue (T.is_whole result.now) }
    {
        self.value
    }
}
