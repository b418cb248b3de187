//! Makes whole data and pointers of one another.
ghost use Rattle.std.specs.Prelude.{◌++◌, ◌∷◌, ◌≡◌, [], IfOk, OnOk};
ghost use Rattle.jsonpath_base.specs.Prelude.Documents.{MemoryAlone};
ghost use Rattle.jsonpath_rust.specs.Prelude.Documents.{document_at, own_tree, tree_of};
ghost use Rattle.jsonpath_rust.specs.Prelude.States.{content_at, nothing, own_target, reduced, ref, refs, root_content, target_at, targets, targets_at, value};

use crate::documents::Queried;
use crate::documents::queryable::Queryable;
use crate::documents::whole::{Whole, WholeRef};
use crate::states::held::{WholeData, WholePointer, WholePointerRef, WholePointers};
use jsonpath_base::documents::state::{Data, root_of};
use std::alloc::{AllocError, Global};

impl<'a, T: Queryable> WholeData<'a, T> {
    /// Returns nothing.
    pub fn nothing() -> Self
        ensures { content_at result ≡ nothing }
    {
        let content = Data::Nothing;
        WholeData { content }
    }

    /// Returns the data of one node.
    pub fn node(one: WholePointer<'a, T>) -> Self
        ensures { content_at result ≡ ref (own_target one.entry) }
    {
        let content = Data::Ref(one.pointer);
        WholeData { content }
    }

    /// Returns the data of an owned value.
    pub fn own(one: Whole<T>) -> Self
        ensures { content_at result ≡ value (own_tree one) }
    {
        let content = Data::Value(one.value);
        WholeData { content }
    }

    /// Returns the data of these nodes, in this order.
    pub fn nodes(all: WholePointers<'a, T>) -> Self
        ensures { content_at result ≡ refs (targets_at all.entry) }
    {
        let content = Data::Refs(all.list);
        WholeData { content }
    }

    /// Returns the document itself, at `$`. It fails with `OutOfMemory` only.
    pub fn root(alloc: Global, root: WholeRef<'a, T>) -> Queried<Self>
        ensures value { IfOk result (λ d. content_at d ≡ root_content (document_at root.entry)) }
        ensures memory { MemoryAlone result }
    {
        let content = root_of(alloc, root.value)?;
        Ok(WholeData { content })
    }

    /// Returns a copy, as [`Data::try_clone`].
    pub fn try_clone(&self, alloc: Global) -> Queried<Self>
        ensures value { IfOk result (λ d. content_at d ≡ content_at self.now) }
        ensures memory { MemoryAlone result }
    {
        let content = self.content.try_clone(alloc)?;
        Ok(WholeData { content })
    }

    /// Joins both, as [`Data::reduce`].
    pub fn reduce(self, alloc: Global, other: WholeData<'a, T>) -> Queried<Self>
        ensures value { IfOk result (λ d. content_at d ≡ reduced (content_at self.entry) (content_at other.entry)) }
        ensures memory { MemoryAlone result }
    {
        let content = self.content.reduce(alloc, other.content)?;
        Ok(WholeData { content })
    }
}

impl<'p, 'a, T: Queryable> WholePointerRef<'p, 'a, T> {
    /// Returns the value.
    pub fn value(self) -> WholeRef<'a, T>
        ensures { tree_of result ≡ (target_at self.entry).tree }
    {
        let value = self.pointer.inner;
        WholeRef { value }
    }

    /// Returns a copy, as [`Pointer::try_clone`](crate::states::state::Pointer::try_clone).
    pub fn try_clone(self, alloc: Global) -> Queried<WholePointer<'a, T>>
        ensures value { IfOk result (λ p. own_target p ≡ target_at self.entry) }
        ensures memory { MemoryAlone result }
    {
        let pointer = self.pointer.try_clone(alloc)?;
        Ok(WholePointer { pointer })
    }
}

impl<'a, T: Queryable> WholePointers<'a, T> {
    /// Returns an empty list of pointers.
    pub fn new(alloc: Global) -> Self
        ensures { result.list.items ≡ [] }
    {
        WholePointers {
            list: Vec::new(alloc),
        }
    }

    /// Adds a pointer.
    pub fn push(&mut self, one: WholePointer<'a, T>) -> Result<(), AllocError>
        ensures { OnOk result (targets_at self.new ≡ targets_at self.old ++ own_target one.entry ∷ []) }
    {
        self.list.push(one.pointer)?;
        Ok(())
    }

    /// Adds the nodes of a result.
    pub fn append(&mut self, found: WholeData<'a, T>) -> Result<(), AllocError>
        ensures { OnOk result (targets_at self.new ≡ targets_at self.old ++ targets (content_at found.entry)) }
    {
        let content = found.content;
        match content {
            Data::Ref(pointer) => Ok(self.list.push(pointer)?),
            Data::Refs(mut list) => Ok(self.list.append(&mut list)?),
            Data::Value(_value) => Ok(()),
            Data::Nothing => Ok(()),
        }
    }
}
