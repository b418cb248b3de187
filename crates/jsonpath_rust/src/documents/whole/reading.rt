//! The methods that read a whole value: each call of [`Queryable`] agrees with its tree.
ghost use Rattle.std.specs.Prelude.{◌<◌, ◌≡◌, All, IfErr, IfOk, IfSome, IsTrue, length, map, None, option_map, option_to_list};
ghost use Rattle.jsonpath_base.specs.Prelude.Documents.{as_bool, as_int, as_list, as_members, as_text, below, get, indexed, Location, MemoryAlone, OutOfMemory, same, size};
ghost use Rattle.jsonpath_rust.specs.Prelude.Documents.{own_tree, tree_of};
ghost use Rattle.jsonpath_parser.specs.Location as location;

use crate::documents::Queried;
use crate::documents::queryable::Queryable;
use crate::documents::queryable::children::{element, is_leaf};
use crate::documents::whole::{Whole, WholeRef};
use std::alloc::Global;

impl<T: Queryable> Whole<T> {
    /// Returns a value of the same tree, which is whole too. It fails with `OutOfMemory` only.
    pub fn try_clone(&self, alloc: Global) -> Queried<Self>
        ensures value { IfOk result (λ v. T.tree v.value ≡ T.tree self.now.value) }
        ensures memory { IfErr result (λ e. e ≡ OutOfMemory) }
    {
        let value = self.value.try_clone(alloc)?;
        Ok(Whole { value })
    }
}

impl<'a, T: Queryable> WholeRef<'a, T> {
    /// Returns the member of that name.
    #[inline(always)]
    pub(crate) fn member(self, name: &str) -> Option<Self>
        ensures { option_map tree_of result ≡ get name.now (tree_of self.entry) }
    {
        match self.value.get(name) {
            Some(value) => Some(WholeRef { value }),
            None => None,
        }
    }

    /// Returns the element that an index means in a list, with its position, counted from 0 (RFC 9535, 2.3.3).
    #[inline(always)]
    pub(crate) fn element(self, index: i64) -> Option<(usize, Self)>
        ensures value { (l : Location) → map (λ p. below l (location.index p.0) (tree_of p.1)) (option_to_list result)
            ≡ indexed index (record { location = l; tree = tree_of self.entry }) }
        ensures smaller { IfSome result (λ p. size (tree_of p.1) < size (tree_of self.entry)) }
    {
        match element(self.value, index) {
            Some((position, value)) => Some((position, WholeRef { value })),
            None => None,
        }
    }

    /// Returns the elements of a list.
    #[inline(always)]
    pub(crate) fn elements(self) -> Option<&'a Vec<T>>
        ensures value { option_map (λ v. map T.tree v.now.items) result ≡ as_list (tree_of self.entry) }
        ensures whole { IfSome result (λ v. All (λ x. IsTrue (T.is_whole x)) v.now.items) }
    {
        self.value.as_array()
    }

    /// Returns the members of an object, in walk order. It fails with `OutOfMemory` only.
    #[inline(always)]
    pub(crate) fn members(self, alloc: Global) -> Queried<Option<Vec<(&'a str, &'a T)>>>
        ensures value { IfOk result (λ o. option_map
            (λ v. map (λ m. (m.0.now, T.tree m.1.now)) v.items) o
            ≡ as_members (tree_of self.entry)) }
        ensures whole { IfOk result (λ o. IfSome o (λ v. All (λ m. IsTrue (T.is_whole m.1.now)) v.items)) }
        ensures memory { MemoryAlone result }
    {
        self.value.as_object(alloc)
    }

    /// Returns the number of members of an object. It fails with `OutOfMemory` only.
    #[inline(always)]
    pub(crate) fn member_count(self, alloc: Global) -> Queried<Option<usize>>
        ensures value { IfOk result (λ o. o ≡ option_map (λ ms. length ms) (as_members (tree_of self.entry))) }
        ensures memory { MemoryAlone result }
    {
        self.value.member_count(alloc)
    }

    /// Returns the text, if it is one.
    #[inline(always)]
    pub(crate) fn as_str(self) -> Option<&'a str>
        ensures { option_map (λ s. s.now) result ≡ as_text (tree_of self.entry) }
    {
        self.value.as_str()
    }

    /// Returns the number, if it is one.
    #[inline(always)]
    pub(crate) fn as_i64(self) -> Option<i64>
        ensures { result ≡ as_int (tree_of self.entry) }
    {
        self.value.as_i64()
    }

    /// Returns `true` or `false`, if it is one of these.
    #[inline(always)]
    pub(crate) fn as_bool(self) -> Option<bool>
        ensures { result ≡ as_bool (tree_of self.entry) }
    {
        self.value.as_bool()
    }

    /// Returns whether it certainly has no children.
    #[inline(always)]
    pub(crate) fn is_leaf(self) -> bool
        ensures list { IsTrue result → None ≡ as_list (tree_of self.entry) }
        ensures object { IsTrue result → None ≡ as_members (tree_of self.entry) }
    {
        is_leaf(self.value)
    }

    /// Returns whether two values are the same (RFC 9535, 2.3.5.2.2).
    #[inline(always)]
    pub(crate) fn equal(self, other: WholeRef<'_, T>) -> bool
        ensures { result ≡ same (tree_of self.entry) (tree_of other.entry) }
    {
        self.value.equal(other.value)
    }
}
