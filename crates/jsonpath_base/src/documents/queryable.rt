//! The types that are documents.
ghost use Rattle.std.specs.Prelude.{◌≡◌, ℕ, Bool, false, List, map, length, Option, Some};
ghost use Rattle.std.specs.Prelude.{None, option_map, All, IsTrue, IfOk, IfErr, IfSome};
ghost use Rattle.jsonpath_base.specs.Tree.{Tree, null, truth, number, text, get, as_list, as_members};
ghost use Rattle.jsonpath_base.specs.Tree.{as_text, as_int, as_bool, has_distinct_names};
ghost use Rattle.jsonpath_base.specs.Same.{same};
ghost use Rattle.jsonpath_parser.specs.declared.errors.JsonPathError.TheVariants.{OutOfMemory};
ghost use Rattle.jsonpath_base.specs.documents.Args.{arg_value};
ghost use Rattle.jsonpath_base.specs.documents.Document.{document_of};
ghost use Rattle.jsonpath_base.specs.documents.Referring.{IsReferred};

use crate::documents::Queried;
use std::alloc::Global;
use std::fmt::Debug;

pub mod children;
pub mod value;

/// An argument of a custom function: an owned value, as of a literal, or a value in the document.
#[derive(Debug, Drop)]
pub enum Arg<'a, T> {
    Owned(T),
    Borrowed(&'a T),
}

impl<'a, T> Arg<'a, T> {
    /// Returns the value.
    pub fn get(&self) -> &T
        ensures { result.now ≡ arg_value self.now }
    {
        match self {
            Arg::Owned(value) => value,
            Arg::Borrowed(value) => *value,
        }
    }
}

/// A document. A value that passes `is_whole` has one tree, and each call agrees with it; what the calls return for any
/// other value is not specified. All calls fail with `OutOfMemory` only.
pub trait Queryable: Sized + Debug + Drop {
    /// The tree of a value.
    ghost tree: { Self → Tree };

    /// Whether every number in it is an integer of 64 bits.
    ghost is_whole: { Self → Bool };

    /// What a custom function of that name returns for the arguments' trees (RFC 9535, 2.4).
    ghost custom: { List ℕ → List Tree → Tree };

    /// Whether `reference` looks for a location, and `reference_mut` may. If not, they return None.
    ghost refers: { Bool } = { false };

    /// Returns the member of that name.
    fn get(&self, key: &str) -> Option<&Self>
        ensures value { IsTrue (is_whole self.now) → option_map (λ v. tree v.now) result ≡ get key.now (tree self.now) }
        ensures whole { IsTrue (is_whole self.now) → IfSome result (λ v. IsTrue (is_whole v.now)) };

    /// Returns the elements of a list.
    fn as_array(&self) -> Option<&Vec<Self>>
        ensures value { IsTrue (is_whole self.now) → option_map (λ v. map tree v.now.items) result ≡ as_list (tree self.now) }
        ensures whole { IsTrue (is_whole self.now) → IfSome result (λ v. All (λ x. IsTrue (is_whole x)) v.now.items) };

    /// Returns the members of an object, in walk order. It fails with `OutOfMemory` only.
    fn as_object(&self, alloc: Global) -> Queried<Option<Vec<(&str, &Self)>>>
        ensures value { IsTrue (is_whole self.now) →
            IfOk result (λ o. option_map (λ v. map (λ m. (m.0.now, tree m.1.now)) v.items) o
            ≡ as_members (tree self.now)) }
        ensures whole { IsTrue (is_whole self.now) → IfOk result (λ o. IfSome o (λ v. All (λ m. IsTrue (is_whole m.1.now)) v.items)) }
        ensures memory { IfErr result (λ e. e ≡ OutOfMemory) };

    /// Returns the number of members of an object. By default it lists them. It fails with `OutOfMemory` only.
    fn member_count(&self, alloc: Global) -> Queried<Option<usize>>
        ensures value { IsTrue (is_whole self.now) → IfOk result (λ o. o ≡ option_map (λ ms. length ms) (as_members (tree self.now))) }
        ensures memory { IfErr result (λ e. e ≡ OutOfMemory) }
    {
        match self.as_object(alloc)? {
            Some(members) => Ok(Some(members.len())),
            None => Ok(None),
        }
    }

    /// Returns the text, if it is one.
    fn as_str(&self) -> Option<&str>
        ensures { IsTrue (is_whole self.now) → option_map (λ s. s.now) result ≡ as_text (tree self.now) };

    /// Returns the number, if it is one.
    fn as_i64(&self) -> Option<i64>
        ensures { IsTrue (is_whole self.now) → result ≡ as_int (tree self.now) };

    /// Returns `true` or `false`, if it is one of these.
    fn as_bool(&self) -> Option<bool>
        ensures { IsTrue (is_whole self.now) → result ≡ as_bool (tree self.now) };

    /// Returns whether every number in it is an integer of 64 bits.
    fn is_whole(&self) -> bool
        ensures { result ≡ is_whole self.now };

    /// Returns null.
    fn null() -> Self
        ensures value { tree result ≡ null }
        ensures whole { IsTrue (is_whole result) };

    /// Returns the value of a text. It fails with `OutOfMemory` only.
    fn from_text(alloc: Global, value: &str) -> Queried<Self>
        ensures value { IfOk result (λ v. tree v ≡ text value.now) }
        ensures whole { IfOk result (λ v. IsTrue (is_whole v)) }
        ensures memory { IfErr result (λ e. e ≡ OutOfMemory) };

    /// Returns the value `true` or `false`. It fails with `OutOfMemory` only.
    fn from_bool(alloc: Global, value: bool) -> Queried<Self>
        ensures value { IfOk result (λ v. tree v ≡ truth value) }
        ensures whole { IfOk result (λ v. IsTrue (is_whole v)) }
        ensures memory { IfErr result (λ e. e ≡ OutOfMemory) };

    /// Returns the value of a number. It fails with `OutOfMemory` only.
    fn from_i64(alloc: Global, value: i64) -> Queried<Self>
        ensures value { IfOk result (λ v. tree v ≡ number value) }
        ensures whole { IfOk result (λ v. IsTrue (is_whole v)) }
        ensures memory { IfErr result (λ e. e ≡ OutOfMemory) };

    /// Returns the list of these elements. It fails with `OutOfMemory` only.
    fn from_list(alloc: Global, values: Vec<Self>) -> Queried<Self>
        requires { All (λ x. IsTrue (is_whole x)) values.items }
        ensures value { IfOk result (λ v. as_list (tree v) ≡ Some (map tree values.items)) }
        ensures whole { IfOk result (λ v. IsTrue (is_whole v)) }
        ensures memory { IfErr result (λ e. e ≡ OutOfMemory) };

    /// Returns a value of the same tree. It fails with `OutOfMemory` only.
    fn try_clone(&self, alloc: Global) -> Queried<Self>
        ensures value { IsTrue (is_whole self.now) → IfOk result (λ v. tree v ≡ tree self.now) }
        ensures whole { IsTrue (is_whole self.now) → IfOk result (λ v. IsTrue (is_whole v)) }
        ensures memory { IfErr result (λ e. e ≡ OutOfMemory) };

    /// Returns whether two values are the same: equal scalars of one kind, lists of one length with the same elements
    /// in order, or objects with the same names and the same value for each, in any order (RFC 9535, 2.3.5.2.2).
    fn equal(&self, other: &Self) -> bool
        requires left { IsTrue (is_whole self.now) }
        requires right { IsTrue (is_whole other.now) }
        ensures { result ≡ same (tree self.now) (tree other.now) };

    /// Returns what a custom function of that name returns. It fails with `OutOfMemory` only.
    fn extension_custom(alloc: Global, name: &str, args: &[Arg<'_, Self>]) -> Queried<Self>
        requires { All (λ a. IsTrue (is_whole (arg_value a))) args.now }
        ensures value { IfOk result (λ v. tree v ≡ custom name.now (map (λ a. tree (arg_value a)) args.now)) }
        ensures whole { IfOk result (λ v. IsTrue (is_whole v)) }
        ensures memory { IfErr result (λ e. e ≡ OutOfMemory) };

    /// Returns the value at the one location that a path means, such as a Normalized Path; by default None. It fails
    /// with `OutOfMemory` only.
    fn reference(&self, _alloc: Global, _path: &str) -> Queried<Option<&Self>>
        ensures means { IfOk result (λ o. IfSome o (λ v. IsReferred _path.now (document_of tree custom self.now) (Some (tree v.now)))) }
        ensures whole { IsTrue (is_whole self.now) → IfOk result (λ o. IfSome o (λ v. IsTrue (is_whole v.now))) }
        ensures nowhere { refers ≡ false → IfOk result (λ o. o ≡ None) }
        ensures memory { IfErr result (λ e. e ≡ OutOfMemory) }
    {
        Ok(None)
    }

    /// Borrows the value at the one location that a path means, as [`Queryable::reference`], for writing; by default
    /// None. It fails with `OutOfMemory` only.
    fn reference_mut(&mut self, _alloc: Global, _path: &str) -> Queried<Option<&mut Self>>
        ensures means { IfOk result (λ o. IfSome o (λ v. IsReferred _path.now (document_of tree custom self.old) (Some (tree v.now)))) }
        ensures whole { IsTrue (is_whole self.old) → IfOk result (λ o. IfSome o (λ v. IsTrue (is_whole v.now))) }
        ensures nowhere { refers ≡ false → IfOk result (λ o. o ≡ None) }
        ensures memory { IfErr result (λ e. e ≡ OutOfMemory) }
    {
        Ok(None)
    }

    /// No object of a whole value has a name twice.
    ghost distinct: { (x : Self) → IsTrue (is_whole x) → IsTrue (has_distinct_names (tree x)) };
}
