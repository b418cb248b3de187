//! A borrowed value, with the text of a path.
ghost use Rattle.std.specs.Prelude.{◌++◌, ◌↔◌, ◌≡◌, [], IfErr, IfOk, IsTrue, string_bytes};
ghost use Rattle.jsonpath_base.specs.Prelude.Documents.{index, name, OutOfMemory, step_text};
ghost use Rattle.jsonpath_base.specs.Prelude.States.{contents_same, ref, target_of};

use crate::documents::queryable::Queryable;
use crate::documents::{Queried, QueryPath, QueryRef};
use crate::{add_index, add_name};
use std::alloc::Global;
use std::fmt::{self, Debug, Display, Formatter, Write};

/// A value in a document, and the text of its path. From [`State::root`](super::State::root) on it is the Normalized
/// Path; a pointer made by hand may have any text.
#[derive(Debug, Drop)]
pub struct Pointer<'a, T> {
    pub inner: &'a T,
    pub path: QueryPath,
}

impl<'a, T: Queryable> Pointer<'a, T> {
    /// Returns the pointer to a value at that path.
    pub fn new(inner: &'a T, path: QueryPath) -> Self
        ensures inner { result.inner.now ≡ inner.now }
        ensures path { result.path ≡ path }
    {
        Pointer { inner, path }
    }

    /// Returns the pointer to a value at the path and a step to a member after it (RFC 9535, 2.7). It fails with
    /// `OutOfMemory` only.
    pub fn key(alloc: Global, inner: &'a T, mut path: QueryPath, key: &str) -> Queried<Self>
        ensures inner { IfOk result (λ p. p.inner.now ≡ inner.now) }
        ensures path { IfOk result (λ p. string_bytes p.path ≡ string_bytes path ++ step_text (name key.now)) }
        ensures memory { IfErr result (λ e. e ≡ OutOfMemory) }
    {
        add_name(alloc, &mut path, key)?;
        Ok(Pointer { inner, path })
    }

    /// Returns the pointer to a value at the path and a step to an element after it (RFC 9535, 2.7). It fails with
    /// `OutOfMemory` only.
    pub fn idx(alloc: Global, inner: &'a T, mut path: QueryPath, position: usize) -> Queried<Self>
        ensures inner { IfOk result (λ p. p.inner.now ≡ inner.now) }
        ensures path { IfOk result (λ p. string_bytes p.path ≡ string_bytes path ++ step_text (index position)) }
        ensures memory { IfErr result (λ e. e ≡ OutOfMemory) }
    {
        add_index(alloc, &mut path, position)?;
        Ok(Pointer { inner, path })
    }

    /// Returns the pointer to a value with the empty path. It takes no memory.
    pub fn empty(alloc: Global, inner: &'a T) -> Self
        ensures inner { result.inner.now ≡ inner.now }
        ensures path { string_bytes result.path ≡ [] }
        ensures seen { target_of T.tree result ≡ record { path = []; tree = T.tree inner.now } }
    {
        Pointer {
            inner,
            path: String::new(alloc),
        }
    }

    /// Returns whether the path is empty.
    pub fn is_internal(&self) -> bool
        ensures { IsTrue result ↔ (string_bytes self.now.path ≡ []) }
    {
        self.path.is_empty()
    }

    /// Returns the pointer to the same value, with a copy of its path. It fails with `OutOfMemory` only.
    pub fn try_clone(&self, alloc: Global) -> Queried<Self>
        ensures inner { IfOk result (λ p. p.inner.now ≡ self.now.inner.now) }
        ensures path { IfOk result (λ p. string_bytes p.path ≡ string_bytes self.now.path) }
        ensures seen { IfOk result (λ p. target_of T.tree p ≡ target_of T.tree self.now) }
        ensures memory { IfErr result (λ e. e ≡ OutOfMemory) }
    {
        Ok(Pointer {
            inner: self.inner,
            path: String::from_str(alloc, &self.path)?,
        })
    }

    /// Returns whether the values are the same ([`Queryable::equal`]) and the paths have the same text. It takes no
    /// memory of its own.
    pub fn equal(&self, other: &Self) -> bool
        requires left { IsTrue (T.is_whole self.now.inner.now) }
        requires right { IsTrue (T.is_whole other.now.inner.now) }
        ensures { result ≡ contents_same (ref (target_of T.tree self.now)) (ref (target_of T.tree other.now)) }
    {
        self.inner.equal(other.inner) && self.path == other.path
    }
}

/// Shows the `Debug` text of the value, `='`, the path, and `'`.
impl<'a, T: Debug> Display for Pointer<'a, T> {
    fn fmt<W: Write>(&self, f: &mut Formatter<W>) -> fmt::Result {
        write!(f, "{:?}='{}'", self.inner, self.path)
    }
}

/// Makes a node of the value and the path of a pointer, whatever text that is.
impl<'a, T: Queryable> From<Pointer<'a, T>> for QueryRef<'a, T> {
    ghost from_gives = { λ pointer r. (r.val ≡ pointer.inner) × (r.path ≡ pointer.path) };

    fn from(pointer: Pointer<'a, T>) -> Self {
        QueryRef {
            val: pointer.inner,
            path: pointer.path,
        }
    }
}
