//! The nodes below the value of a pointer, each with the pointer's path and the steps to it.
ghost use Rattle.std.specs.Prelude.{◌++◌, ◌≡◌, [], All, IfOk, IsTrue, map, OnOk, option_map};
ghost use Rattle.jsonpath_base.specs.Prelude.Documents.{below, element_nodes, member_nodes, MemoryAlone};
ghost use Rattle.jsonpath_rust.specs.Prelude.Documents.{tree_of};
ghost use Rattle.jsonpath_rust.specs.Prelude.States.{children_from, content_at, indexed_from, named_from, own_target, parents_from, parents_in, parts_from, sliced_from, target_at, targets_at, under};
ghost use Rattle.jsonpath_parser.specs.Location as location;

use crate::documents::Queried;
use crate::documents::queryable::Queryable;
use crate::documents::whole::WholeRef;
use crate::states::held::{WholeData, WholePointer, WholePointerRef, WholePointers};
use crate::states::state::Pointer;
use jsonpath_base::picked;
use std::alloc::Global;

impl<'p, 'a, T: Queryable> WholePointerRef<'p, 'a, T> {
    /// Returns the member of that name.
    pub fn named(self, alloc: Global, key: &str) -> Queried<WholeData<'a, T>>
        ensures value { IfOk result (λ d. content_at d ≡ named_from key.now (target_at self.entry)) }
        ensures memory { MemoryAlone result }
    {
        match self.value().member(key) {
            Some(child) => Ok(WholeData::node(self.below_name(alloc, key, child)?)),
            None => Ok(WholeData::nothing()),
        }
    }

    /// Returns the element of that index.
    pub fn indexed(self, alloc: Global, index: i64) -> Queried<WholeData<'a, T>>
        ensures value { IfOk result (λ d. content_at d ≡ indexed_from index (target_at self.entry)) }
        ensures memory { MemoryAlone result }
    {
        match self.value().element(index) {
            Some((at, child)) => Ok(WholeData::node(self.below_index(alloc, at, child)?)),
            None => Ok(WholeData::nothing()),
        }
    }

    /// Returns all children.
    pub fn wildcard(self, alloc: Global) -> Queried<WholeData<'a, T>>
        ensures value { IfOk result (λ d. content_at d ≡ children_from (target_at self.entry)) }
        ensures memory { MemoryAlone result }
    {
        match self.parts(alloc)? {
            Some(found) => {
                if found.list.is_empty() {
                    Ok(WholeData::nothing())
                } else {
                    Ok(WholeData::nodes(found))
                }
            }
            None => Ok(WholeData::nothing()),
        }
    }

    /// Returns the elements that a slice picks (RFC 9535, 2.3.4).
    pub fn sliced(
        self,
        alloc: Global,
        start: Option<i64>,
        end: Option<i64>,
        step: Option<i64>,
    ) -> Queried<WholeData<'a, T>>
        ensures value { IfOk result (λ d. content_at d ≡ sliced_from start end step (target_at self.entry)) }
        ensures memory { MemoryAlone result }
    {
        match self.value().elements() {
            Some(items) => {
                let picked = picked(alloc, start, end, step, items.len())?;
                let mut found = WholePointers::new(alloc);
                for at in &picked {
                    let value = &items[*at];
                    found.push(self.below_index(alloc, *at, WholeRef { value })?)?;
                }
                Ok(WholeData::nodes(found))
            }
            None => Ok(WholeData::nothing()),
        }
    }

    /// Returns the value and all values below it that are lists or objects.
    pub fn parents(self, alloc: Global) -> Queried<WholeData<'a, T>>
        ensures value { IfOk result (λ d. content_at d ≡ parents_from (target_at self.entry)) }
        ensures memory { MemoryAlone result }
    {
        let mut found = WholePointers::new(alloc);
        self.push_parents(alloc, &mut found)?;
        if found.list.is_empty() {
            Ok(WholeData::nothing())
        } else {
            Ok(WholeData::nodes(found))
        }
    }

    fn push_parents(self, alloc: Global, found: &mut WholePointers<'a, T>) -> Queried<()>
        ensures value { OnOk result (targets_at found.new ≡ targets_at found.old ++ parents_in (target_at self.entry)) }
        ensures memory { MemoryAlone result }
    {
        let Some(children) = self.parts(alloc)? else {
            return Ok(());
        };
        found.push(self.try_clone(alloc)?)?;
        for pointer in &children.list {
            let child = WholePointerRef { pointer };
            child.push_parents(alloc, found)?;
        }
        Ok(())
    }

    /// Returns the children of a list or an object, in walk order; None for any other value.
    pub fn parts(self, alloc: Global) -> Queried<Option<WholePointers<'a, T>>>
        ensures value { IfOk result (λ o. option_map targets_at o ≡ parts_from (target_at self.entry)) }
        ensures memory { MemoryAlone result }
    {
        let value = self.value();
        if let Some(items) = value.elements() {
            Ok(Some(self.elements(alloc, items)?))
        } else if let Some(pairs) = value.members(alloc)? {
            Ok(Some(self.members(alloc, &pairs)?))
        } else {
            Ok(None)
        }
    }

    fn elements(self, alloc: Global, items: &'a [T]) -> Queried<WholePointers<'a, T>>
        requires { All (λ x. IsTrue (T.is_whole x)) items.now }
        ensures value { IfOk result (λ v. targets_at v
            ≡ map (under (target_at self.entry).path) (element_nodes [] 0 (map T.tree items.now))) }
        ensures memory { MemoryAlone result }
    {
        let mut found = WholePointers::new(alloc);
        for (i, value) in items.iter().enumerate() {
            found.push(self.below_index(alloc, i, WholeRef { value })?)?;
        }
        Ok(found)
    }

    fn members(self, alloc: Global, pairs: &[(&'a str, &'a T)]) -> Queried<WholePointers<'a, T>>
        requires { All (λ m. IsTrue (T.is_whole m.1.now)) pairs.now }
        ensures value { IfOk result (λ v. targets_at v
            ≡ map (under (target_at self.entry).path) (member_nodes [] (map
            (λ m. (m.0.now, T.tree m.1.now)) pairs.now))) }
        ensures memory { MemoryAlone result }
    {
        let mut found = WholePointers::new(alloc);
        for pair in pairs {
            let value = pair.1;
            found.push(self.below_name(alloc, pair.0, WholeRef { value })?)?;
        }
        Ok(found)
    }

    /// Returns the pointer to a member.
    fn below_name(
        self,
        alloc: Global,
        key: &str,
        child: WholeRef<'a, T>,
    ) -> Queried<WholePointer<'a, T>>
        ensures value { IfOk result (λ p. own_target p
            ≡ under (target_at self.entry).path (below [] (location.name key.now)
            (tree_of child.entry))) }
        ensures memory { MemoryAlone result }
    {
        let path = String::from_str(alloc, &self.pointer.path)?;
        let pointer = Pointer::key(alloc, child.value, path, key)?;
        Ok(WholePointer { pointer })
    }

    /// Returns the pointer to an element.
    fn below_index(
        self,
        alloc: Global,
        index: usize,
        child: WholeRef<'a, T>,
    ) -> Queried<WholePointer<'a, T>>
        ensures value { IfOk result (λ p. own_target p
            ≡ under (target_at self.entry).path (below [] (location.index index)
            (tree_of child.entry))) }
        ensures memory { MemoryAlone result }
    {
        let path = String::from_str(alloc, &self.pointer.path)?;
        let pointer = Pointer::idx(alloc, child.value, path, index)?;
        Ok(WholePointer { pointer })
    }
}
