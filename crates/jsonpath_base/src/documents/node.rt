//! The nodes that a query selects.
ghost use Rattle.std.specs.Prelude.{◌&&◌, ◌≡◌, bytes_eq, IfErr, IfOk, IsTrue, string_bytes};
ghost use Rattle.jsonpath_base.specs.Prelude.Documents.{OutOfMemory, same};

use crate::documents::Queried;
use crate::documents::queryable::Queryable;
use std::alloc::Global;

/// The text of a Normalized Path (RFC 9535, 2.7).
pub type QueryPath = String;

/// A node that a query selects: the value in the document, and its Normalized Path.
#[derive(Debug, Drop)]
pub struct QueryRef<'a, T> {
    pub val: &'a T,
    pub path: QueryPath,
}

impl<'a, T: Queryable> QueryRef<'a, T> {
    /// Returns the value.
    pub fn val(self) -> &'a T
        ensures { result.now ≡ self.entry.val.now }
    {
        self.val
    }

    /// Returns the Normalized Path.
    pub fn path(self) -> QueryPath
        ensures { result ≡ self.entry.path }
    {
        self.path
    }

    /// Returns the node of this value and a copy of this path, whatever text that is. It fails with `OutOfMemory` only.
    pub fn from_str_path(alloc: Global, val: &'a T, path: &str) -> Queried<Self>
        ensures val { IfOk result (λ r. r.val.now ≡ val.now) }
        ensures path { IfOk result (λ r. string_bytes r.path ≡ path.now) }
        ensures memory { IfErr result (λ e. e ≡ OutOfMemory) }
    {
        let path = String::from_str(alloc, path)?;
        Ok(QueryRef { val, path })
    }

    /// Returns whether two nodes have paths of the same text and values that are the same ([`Queryable::equal`]). It
    /// takes no memory of its own.
    pub fn equal(&self, other: &Self) -> bool
        requires left { IsTrue (T.is_whole self.now.val.now) }
        requires right { IsTrue (T.is_whole other.now.val.now) }
        ensures { result ≡ bytes_eq (string_bytes self.now.path) (string_bytes other.now.path)
            && same (T.tree self.now.val.now) (T.tree other.now.val.now) }
    {
        self.path == other.path && self.val.equal(other.val)
    }

    /// Returns the node with the same borrowed value, and a copy of its path. It fails with `OutOfMemory` only.
    pub fn try_clone(&self, alloc: Global) -> Queried<Self>
        ensures val { IfOk result (λ r. r.val.now ≡ self.now.val.now) }
        ensures path { IfOk result (λ r. string_bytes r.path ≡ string_bytes self.now.path) }
        ensures memory { IfErr result (λ e. e ≡ OutOfMemory) }
    {
        QueryRef::from_str_path(alloc, self.val, self.path.as_str())
    }
}

impl<'a, T: Queryable> From<(&'a T, QueryPath)> for QueryRef<'a, T> {
    ghost from_gives = { λ pair r. (r.val ≡ pair.0) × (r.path ≡ pair.1) };

    fn from((val, path): (&'a T, QueryPath)) -> Self {
        QueryRef { val, path }
    }
}
