//! Values that are whole. Their type says so, so no function that takes one has to require it.
ghost use Rattle.std.specs.Prelude.{◌≡◌, IsTrue};

use crate::documents::queryable::Queryable;
use std::alloc::AllocError;
use std::ops::Deref;

mod reading;

/// An owned value that is whole.
#[derive(Debug, Drop)]
pub struct Whole<T: Queryable> {
    pub(crate) value: T,
    ghost whole: { IsTrue (T.is_whole value) },
}

/// A borrowed value that is whole. It is as large as a reference.
#[derive(Debug)]
pub struct WholeRef<'a, T: Queryable> {
    pub(crate) value: &'a T,
    ghost whole: { IsTrue (T.is_whole value.now) },
}

impl<'a, T: Queryable> Clone for WholeRef<'a, T> {
    fn clone(&self) -> Result<Self, AllocError> {
        Ok(*self)
    }
}

impl<'a, T: Queryable> Copy for WholeRef<'a, T> {}

/// Calls the methods of the value, which is whole.
impl<T: Queryable> Deref for Whole<T> {
    type Target = T;

    ghost deref_gives = { λ w x. (x ≡ w.value) × IsTrue (T.is_whole x) };

    fn deref(&self) -> &T {
        &self.value
    }
}

/// Calls the methods of the value. What a call borrows lives no longer than this wrapper; what [`WholeRef::get`]
/// returns lives as long as the value.
impl<'a, T: Queryable> Deref for WholeRef<'a, T> {
    type Target = T;

    ghost deref_gives = { λ w x. (x ≡ w.value.now) × IsTrue (T.is_whole x) };

    fn deref(&self) -> &T {
        self.value
    }
}
