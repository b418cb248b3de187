//! Lists of whole values and of their nodes, and the only value of a query. They are passed to callers without a copy.
ghost use Rattle.std.proofs.Props.{props};
ghost use Rattle.std.specs.Prelude.{◌≡◌, ◌++◌, [], ◌∷◌, map, All, IsTrue, OnOk, string_bytes};
ghost use Rattle.jsonpath_base.specs.documents.Answer.{shown};
ghost use Rattle.jsonpath_rust.specs.documents.Whole.{tree_of};

use crate::documents::queryable::Queryable;
use crate::documents::whole::WholeRef;
use crate::documents::{QueryPath, QueryRef};
use std::alloc::{AllocError, Global};

/// What a walk found where one node is demanded: none, one with this value, or several.
#[derive(Clone, Copy)]
pub enum WholeSingle<'a, T: Queryable> {
    Nothing,
    One(WholeRef<'a, T>),
    Several,
}

/// The elements of a list, each whole.
#[derive(Drop)]
pub struct WholeElements<'l, T: Queryable> {
    pub list: &'l [T],
    ghost whole: { All (λ x. IsTrue (T.is_whole x)) list.now } by { Prim.hlevel props },
}

/// The members of an object, each whole, in walk order.
#[derive(Drop)]
pub struct WholeMembers<'l, 'a, T: Queryable> {
    pub list: &'l [(&'a str, &'a T)],
    ghost whole: { All (λ m. IsTrue (T.is_whole m.1.now)) list.now } by { Prim.hlevel props },
}

/// Nodes whose values are whole.
#[derive(Drop)]
pub struct WholeNodes<'a, T: Queryable> {
    pub list: Vec<QueryRef<'a, T>>,
    ghost whole: { All (λ r. IsTrue (T.is_whole r.val.now)) list.items } by { Prim.hlevel props },
}

impl<'a, T: Queryable> WholeNodes<'a, T> {
    /// Returns an empty list.
    #[inline(always)]
    pub fn new(alloc: Global) -> Self
        ensures { result.list.items ≡ [] }
    {
        WholeNodes {
            list: Vec::new(alloc),
        }
    }

    /// Adds the node of this value at this path.
    #[inline(always)]
    pub fn push(&mut self, value: WholeRef<'a, T>, path: QueryPath) -> Result<(), AllocError>
        ensures { OnOk result (shown T.tree self.new.list.items ≡ shown T.tree self.old.list.items
            ++ (string_bytes path, tree_of value.entry) ∷ []) }
    {
        self.list.push(QueryRef {
            val: value.value,
            path,
        })?;
        Ok(())
    }
}

/// A list of whole values.
#[derive(Drop)]
pub struct WholeValues<'a, T: Queryable> {
    pub list: Vec<&'a T>,
    ghost whole: { All (λ v. IsTrue (T.is_whole v.now)) list.items } by { Prim.hlevel props },
}

impl<'a, T: Queryable> WholeValues<'a, T> {
    /// Returns an empty list.
    #[inline(always)]
    pub fn new(alloc: Global) -> Self
        ensures { result.list.items ≡ [] }
    {
        WholeValues {
            list: Vec::new(alloc),
        }
    }

    /// Adds a value.
    #[inline(always)]
    pub fn push(&mut self, value: WholeRef<'a, T>) -> Result<(), AllocError>
        ensures { OnOk result (map (λ v. T.tree v.now) self.new.list.items
            ≡ map (λ v. T.tree v.now) self.old.list.items ++ tree_of value.entry ∷ []) }
    {
        self.list.push(value.value)?;
        Ok(())
    }
}
