//! The data of a state.
ghost use Rattle.std.specs.Prelude.{◌++◌, ◌∷◌, ◌≡◌, ◌⊎◌, [], Err, IfErr, IfOk, IsTrue, Ok, OnOk, option_map};
ghost use Rattle.jsonpath_base.specs.Prelude.Documents.{AllByRecursion, OutOfMemory};
ghost use Rattle.jsonpath_base.specs.Prelude.States.{content_of, contents_same, DataIsWhole, GivesWhole, Made, nothing, ok_refs, ok_value, pointers, PointersAreWhole, reduced, ref, refs, SomeHas, target_of, targets_of, targets_same};

use crate::documents::Queried;
use crate::documents::queryable::Queryable;
use crate::documents::state::pointer::Pointer;
use std::alloc::Global;
use std::fmt::{self, Debug, Display, Formatter, Write};

/// The data of a state.
#[derive(Debug, Drop)]
pub enum Data<'a, T> {
    /// One node.
    Ref(Pointer<'a, T>),
    /// Nodes, in order; there may be none.
    Refs(Vec<Pointer<'a, T>>),
    /// An owned value, as a literal or a function returns.
    Value(T),
    Nothing,
}

impl<'a, T: Queryable> Data<'a, T> {
    /// Returns the data of one node.
    pub fn new_ref(pointer: Pointer<'a, T>) -> Self
        ensures content { content_of T.tree result ≡ ref (target_of T.tree pointer.entry) }
        ensures whole { IsTrue (T.is_whole pointer.entry.inner.now) → DataIsWhole T.is_whole result }
    {
        Data::Ref(pointer)
    }

    /// Returns the data of these nodes, in this order.
    pub fn new_refs(pointers: Vec<Pointer<'a, T>>) -> Self
        ensures content { content_of T.tree result ≡ refs (targets_of T.tree pointers.entry.items) }
        ensures whole { PointersAreWhole T.is_whole pointers.entry.items → DataIsWhole T.is_whole result }
    {
        Data::Refs(pointers)
    }

    /// Joins two data. If both have nodes, it returns the nodes of both, these first. If one has nodes and the other is
    /// nothing, it returns those nodes. Else it returns nothing. It fails with `OutOfMemory` only.
    pub fn reduce(self, alloc: Global, other: Data<'a, T>) -> Queried<Data<'a, T>>
        ensures value { IfOk result (λ d. content_of T.tree d ≡ reduced (content_of T.tree self.entry) (content_of T.tree other.entry)) }
        ensures whole { DataIsWhole T.is_whole self.entry → DataIsWhole T.is_whole other.entry →
            IfOk result (λ d. DataIsWhole T.is_whole d) }
        ensures memory { IfErr result (λ e. e ≡ OutOfMemory) }
    {
        match self {
            Data::Ref(p) => match other {
                Data::Ref(q) => behind(one_pointer(alloc, p)?, Data::Ref(q)),
                Data::Refs(qs) => behind(one_pointer(alloc, p)?, Data::Refs(qs)),
                Data::Value(_value) => Ok(Data::Nothing),
                Data::Nothing => Ok(Data::Ref(p)),
            },
            Data::Refs(ps) => behind(ps, other),
            Data::Value(_value) => {
                drop(other);
                Ok(Data::Nothing)
            }
            Data::Nothing => match other {
                Data::Value(_value) => Ok(Data::Nothing),
                nodes => Ok(nodes),
            },
        }
    }

    /// Returns the nodes as a list, if it is a node or nodes. It fails with `OutOfMemory` only.
    pub fn ok_ref(self, alloc: Global) -> Queried<Option<Vec<Pointer<'a, T>>>>
        ensures value { IfOk result (λ o. option_map (λ v. v.items) o ≡ ok_refs self.entry) }
        ensures memory { IfErr result (λ e. e ≡ OutOfMemory) }
    {
        match self {
            Data::Ref(p) => {
                let mut all = Vec::new(alloc);
                all.push(p)?;
                Ok(Some(all))
            }
            Data::Refs(ps) => Ok(Some(ps)),
            Data::Value(_value) => Ok(None),
            Data::Nothing => Ok(None),
        }
    }

    /// Returns the owned value, if it has one. It takes no memory.
    pub fn ok_val(self) -> Option<T>
        ensures { result ≡ ok_value self.entry }
    {
        match self {
            Data::Ref(_p) => None,
            Data::Refs(_ps) => None,
            Data::Value(value) => Some(value),
            Data::Nothing => None,
        }
    }

    /// Returns what the closure returns for the node. For several nodes it returns the nodes of what the closure
    /// returns for each, in order. Else it returns nothing. It returns an error of the closure as it is; its own errors
    /// are `OutOfMemory` only.
    pub fn flat_map<F: Fn(Pointer<'a, T>) -> Queried<Data<'a, T>> + Drop>(
        self,
        alloc: Global,
        f: F,
    ) -> Queried<Data<'a, T>>
        requires { AllByRecursion (F.pre f) (pointers self) }
        ensures made { IfOk result (λ d. Made (λ p r. F.post f p (Ok r)) self.entry d) }

        // From whole values it makes whole ones, if the closure does.
        ensures whole { GivesWhole T.is_whole (λ p r. F.post f p (Ok r)) →
            DataIsWhole T.is_whole self.entry → IfOk result (λ d. DataIsWhole T.is_whole d) }
        ensures refused { IfErr result (λ e. (e ≡ OutOfMemory) ⊎ SomeHas (λ p. F.post f p (Err e)) (pointers self.entry)) }
    {
        match self {
            Data::Ref(p) => f(p),
            Data::Refs(ps) => {
                let mut all = Vec::new(alloc);
                for p in ps {
                    let found = f(p)?;
                    push_nodes(&mut all, found)?;
                }
                Ok(Data::Refs(all))
            }
            Data::Value(_value) => Ok(Data::Nothing),
            Data::Nothing => Ok(Data::Nothing),
        }
    }

    /// Returns whether both are of one kind, with values that are the same ([`Queryable::equal`]) and paths of the same
    /// text, in the same order. It takes no memory of its own.
    pub fn equal(&self, other: &Self) -> bool
        requires left { DataIsWhole T.is_whole self.now }
        requires right { DataIsWhole T.is_whole other.now }
        ensures { result ≡ contents_same (content_of T.tree self.now) (content_of T.tree other.now) }
    {
        match self {
            Data::Ref(p) => match other {
                Data::Ref(q) => p.equal(q),
                _ => false,
            },
            Data::Refs(ps) => match other {
                Data::Refs(qs) => are_same(ps, qs),
                _ => false,
            },
            Data::Value(value) => match other {
                Data::Value(of_other) => value.equal(of_other),
                _ => false,
            },
            Data::Nothing => match other {
                Data::Nothing => true,
                _ => false,
            },
        }
    }

    /// Returns the same nodes, borrowed, with copies of their paths, or a copy of the value. It fails with
    /// `OutOfMemory` only.
    pub fn try_clone(&self, alloc: Global) -> Queried<Self>
        ensures value { DataIsWhole T.is_whole self.now → IfOk result (λ d. content_of T.tree d ≡ content_of T.tree self.now) }
        ensures whole { DataIsWhole T.is_whole self.now → IfOk result (λ d. DataIsWhole T.is_whole d) }
        ensures memory { IfErr result (λ e. e ≡ OutOfMemory) }
    {
        match self {
            Data::Ref(p) => Ok(Data::Ref(p.try_clone(alloc)?)),
            Data::Refs(ps) => Ok(Data::Refs(copied(alloc, ps)?)),
            Data::Value(value) => Ok(Data::Value(value.try_clone(alloc)?)),
            Data::Nothing => Ok(Data::Nothing),
        }
    }
}

/// Returns nothing.
impl<'a, T: Queryable> Default for Data<'a, T> {
    fn default() -> Self
        ensures { content_of T.tree result ≡ nothing }
    {
        Self::Nothing
    }
}

/// Shows a node as `&` and the node, nodes joined by `; `, a value by its `Debug` text, and nothing as `Nothing`.
impl<'a, T: Debug> Display for Data<'a, T> {
    fn fmt<W: Write>(&self, f: &mut Formatter<W>) -> fmt::Result {
        match self {
            Data::Ref(pointer) => write!(f, "&{pointer}"),
            Data::Refs(pointers) => write_joined(f, pointers),
            Data::Value(value) => write!(f, "{value:?}"),
            Data::Nothing => f.write_str("Nothing"),
        }
    }
}

fn write_joined<'a, T: Debug, W: Write>(
    f: &mut Formatter<W>,
    pointers: &[Pointer<'a, T>],
) -> fmt::Result {
    let mut between = "";
    for pointer in pointers {
        write!(f, "{between}{pointer}")?;
        between = "; ";
    }
    Ok(())
}

/// Adds the nodes of a result.
fn push_nodes<'a, T: Queryable>(all: &mut Vec<Pointer<'a, T>>, found: Data<'a, T>) -> Queried<()>
    ensures ok { OnOk result (all.new.items ≡ all.old.items ++ pointers found.entry) }
    ensures err { IfErr result (λ e. e ≡ OutOfMemory) }
{
    match found {
        Data::Ref(p) => Ok(all.push(p)?),
        Data::Refs(mut ps) => Ok(all.append(&mut ps)?),
        Data::Value(_value) => Ok(()),
        Data::Nothing => Ok(()),
    }
}

/// Returns a list of one node.
fn one_pointer<'a, T: Queryable>(
    alloc: Global,
    pointer: Pointer<'a, T>,
) -> Queried<Vec<Pointer<'a, T>>>
    ensures value { IfOk result (λ v. targets_of T.tree v.items ≡ target_of T.tree pointer.entry ∷ []) }
    ensures whole { IsTrue (T.is_whole pointer.entry.inner.now) → IfOk result (λ v. PointersAreWhole T.is_whole v.items) }
    ensures memory { IfErr result (λ e. e ≡ OutOfMemory) }
{
    let mut all = Vec::new(alloc);
    all.push(pointer)?;
    Ok(all)
}

/// Returns these nodes, and after them those of the other if it has nodes or is nothing; else nothing.
fn behind<'a, T: Queryable>(nodes: Vec<Pointer<'a, T>>, other: Data<'a, T>) -> Queried<Data<'a, T>>
    ensures value { IfOk result (λ d. content_of T.tree d
        ≡ reduced (refs (targets_of T.tree nodes.entry.items)) (content_of T.tree other.entry)) }
    ensures whole { PointersAreWhole T.is_whole nodes.entry.items →
        DataIsWhole T.is_whole other.entry → IfOk result (λ d. DataIsWhole T.is_whole d) }
    ensures memory { IfErr result (λ e. e ≡ OutOfMemory) }
{
    let mut all = nodes;
    match other {
        Data::Ref(q) => {
            all.push(q)?;
            Ok(Data::Refs(all))
        }
        Data::Refs(mut qs) => {
            all.append(&mut qs)?;
            Ok(Data::Refs(all))
        }
        Data::Value(_value) => Ok(Data::Nothing),
        Data::Nothing => Ok(Data::Refs(all)),
    }
}

/// Returns copies of the pointers.
fn copied<'a, T: Queryable>(
    alloc: Global,
    pointers: &[Pointer<'a, T>],
) -> Queried<Vec<Pointer<'a, T>>>
    ensures value { IfOk result (λ v. targets_of T.tree v.items ≡ targets_of T.tree pointers.now) }
    ensures whole { PointersAreWhole T.is_whole pointers.now → IfOk result (λ v. PointersAreWhole T.is_whole v.items) }
    ensures memory { IfErr result (λ e. e ≡ OutOfMemory) }
{
    let mut all = Vec::new(alloc);
    for pointer in pointers {
        all.push(pointer.try_clone(alloc)?)?;
    }
    Ok(all)
}

/// Returns whether the pointers are equal, one by one.
pub fn are_same<'a, T: Queryable>(left: &[Pointer<'a, T>], right: &[Pointer<'a, T>]) -> bool
    requires left { PointersAreWhole T.is_whole left.now }
    requires right { PointersAreWhole T.is_whole right.now }
    ensures { result ≡ targets_same (targets_of T.tree left.now) (targets_of T.tree right.now) }
{
    if left.len() != right.len() {
        return false;
    }
    for (i, pointer) in left.iter().enumerate() {
        if !pointer.equal(&right[i]) {
            return false;
        }
    }
    true
}
