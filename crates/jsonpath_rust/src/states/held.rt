//! Data and pointers whose values are whole. Their type says so, so no part of the evaluator has to require it.
ghost use Rattle.std.specs.Prelude.{IsTrue};
ghost use Rattle.std.proofs.Props.{props};
ghost use Rattle.jsonpath_base.specs.documents.State.{PointersAreWhole, DataIsWhole};
ghost use Rattle.jsonpath_base.specs.documents.inner.WholeData.{DataIsWhole-prop};

use crate::documents::queryable::Queryable;
use crate::states::state::{Data, Pointer};
use std::alloc::AllocError;

mod making;

/// Data whose values are whole.
#[derive(Drop)]
pub struct WholeData<'a, T: Queryable> {
    pub content: Data<'a, T>,
    ghost whole: { DataIsWhole T.is_whole content } by { DataIsWhole-prop T.is_whole content },
}

/// A pointer whose value is whole.
#[derive(Drop)]
pub struct WholePointer<'a, T: Queryable> {
    pub pointer: Pointer<'a, T>,
    ghost whole: { IsTrue (T.is_whole pointer.inner.now) },
}

/// A borrowed pointer whose value is whole.
pub struct WholePointerRef<'p, 'a, T: Queryable> {
    pub pointer: &'p Pointer<'a, T>,
    ghost whole: { IsTrue (T.is_whole pointer.now.inner.now) },
}

impl<'p, 'a, T: Queryable> Clone for WholePointerRef<'p, 'a, T> {
    fn clone(&self) -> Result<Self, AllocError> {
        Ok(*self)
    }
}

impl<'p, 'a, T: Queryable> Copy for WholePointerRef<'p, 'a, T> {}

/// Pointers whose values are whole.
#[derive(Drop)]
pub struct WholePointers<'a, T: Queryable> {
    pub list: Vec<Pointer<'a, T>>,
    ghost whole: { PointersAreWhole T.is_whole list.items } by { Prim.hlevel props },
}
