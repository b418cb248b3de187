//! States: what a part of a query is evaluated on, and what it returns.
ghost use Rattle.std.specs.Prelude.{◌&&◌, ◌↔◌, ◌≡◌, ◌⊎◌, codes, Err, IfErr, IfOk, IsTrue, Ok, option_map};
ghost use Rattle.jsonpath_base.specs.Prelude.Documents.{AllByRecursion, number, OutOfMemory, same, text, truth};
ghost use Rattle.jsonpath_base.specs.Prelude.States.{content_of, contents_same, DataIsWhole, GivesWhole, Made, nothing, ok_refs, ok_value, pointers, reduced, ref, SomeHas, value};

mod data;
mod pointer;

use crate::documents::Queried;
use crate::documents::queryable::Queryable;
pub use crate::documents::state::data::{Data, are_same};
pub use crate::documents::state::pointer::Pointer;
use std::alloc::Global;
use std::fmt::{self, Debug, Display, Formatter, Write};

/// The current data, and the document that `$` means.
#[derive(Debug, Drop)]
pub struct State<'a, T> {
    pub content: Data<'a, T>,
    pub root: &'a T,
}

impl<'a, T: Queryable> State<'a, T> {
    /// Returns the state with this data, in that document.
    pub fn data(root: &'a T, given: Data<'a, T>) -> Self
        ensures content { result.content ≡ given.entry }
        ensures root { result.root.now ≡ root.now }
    {
        State {
            content: given,
            root,
        }
    }

    /// Returns the state with nothing, in that document.
    pub fn nothing(root: &'a T) -> Self
        ensures content { content_of T.tree result.content ≡ nothing }
        ensures root { result.root.now ≡ root.now }
    {
        State {
            content: Data::Nothing,
            root,
        }
    }

    /// Returns the state with `true` or `false` as an owned value. It fails with `OutOfMemory` only.
    pub fn bool(alloc: Global, b: bool, root: &'a T) -> Queried<Self>
        ensures content { IfOk result (λ s. content_of T.tree s.content ≡ value (truth b)) }
        ensures whole { IfOk result (λ s. DataIsWhole T.is_whole s.content) }
        ensures root { IfOk result (λ s. s.root.now ≡ root.now) }
        ensures memory { IfErr result (λ e. e ≡ OutOfMemory) }
    {
        Ok(State {
            content: Data::Value(T::from_bool(alloc, b)?),
            root,
        })
    }

    /// Returns the state with that number as an owned value. It fails with `OutOfMemory` only.
    pub fn i64(alloc: Global, n: i64, root: &'a T) -> Queried<Self>
        ensures content { IfOk result (λ s. content_of T.tree s.content ≡ value (number n)) }
        ensures whole { IfOk result (λ s. DataIsWhole T.is_whole s.content) }
        ensures root { IfOk result (λ s. s.root.now ≡ root.now) }
        ensures memory { IfErr result (λ e. e ≡ OutOfMemory) }
    {
        Ok(State {
            content: Data::Value(T::from_i64(alloc, n)?),
            root,
        })
    }

    /// Returns the state with that text as an owned value. It fails with `OutOfMemory` only.
    pub fn str(alloc: Global, s: &str, root: &'a T) -> Queried<Self>
        ensures content { IfOk result (λ r. content_of T.tree r.content ≡ value (text s.now)) }
        ensures whole { IfOk result (λ r. DataIsWhole T.is_whole r.content) }
        ensures root { IfOk result (λ r. r.root.now ≡ root.now) }
        ensures memory { IfErr result (λ e. e ≡ OutOfMemory) }
    {
        Ok(State {
            content: Data::Value(T::from_text(alloc, s)?),
            root,
        })
    }

    /// Returns the state with the document itself, at `$`. It fails with `OutOfMemory` only.
    pub fn root(alloc: Global, root: &'a T) -> Queried<Self>
        ensures content { IfOk result (λ s. content_of T.tree s.content ≡ ref (record { path = codes "$"; tree = T.tree root.now })) }
        ensures whole { IsTrue (T.is_whole root.now) → IfOk result (λ s. DataIsWhole T.is_whole s.content) }
        ensures root { IfOk result (λ s. s.root.now ≡ root.now) }
        ensures memory { IfErr result (λ e. e ≡ OutOfMemory) }
    {
        Ok(State {
            content: root_of(alloc, root)?,
            root,
        })
    }

    /// Returns the state of its document itself, as [`State::root`]. It fails with `OutOfMemory` only.
    pub fn shift_to_root(self, alloc: Global) -> Queried<Self>
        ensures content { IfOk result (λ s. content_of T.tree s.content
            ≡ ref (record { path = codes "$"; tree = T.tree self.entry.root.now })) }
        ensures whole { IsTrue (T.is_whole self.entry.root.now) → IfOk result (λ s. DataIsWhole T.is_whole s.content) }
        ensures root { IfOk result (λ s. s.root.now ≡ self.entry.root.now) }
        ensures memory { IfErr result (λ e. e ≡ OutOfMemory) }
    {
        State::root(alloc, self.root)
    }

    /// Returns the nodes as a list, as [`Data::ok_ref`].
    pub fn ok_ref(self, alloc: Global) -> Queried<Option<Vec<Pointer<'a, T>>>>
        ensures value { IfOk result (λ o. option_map (λ v. v.items) o ≡ ok_refs self.entry.content) }
        ensures memory { IfErr result (λ e. e ≡ OutOfMemory) }
    {
        self.content.ok_ref(alloc)
    }

    /// Returns the owned value, as [`Data::ok_val`].
    pub fn ok_val(self) -> Option<T>
        ensures { result ≡ ok_value self.entry.content }
    {
        self.content.ok_val()
    }

    /// Returns whether it holds nothing. A list without nodes is not nothing.
    pub fn is_nothing(&self) -> bool
        ensures { IsTrue result ↔ (content_of T.tree self.now.content ≡ nothing) }
    {
        matches!(&self.content, Data::Nothing)
    }

    /// Joins the data of both as [`Data::reduce`], in the document of this one.
    pub fn reduce(self, alloc: Global, other: State<'a, T>) -> Queried<Self>
        ensures content { IfOk result (λ s. content_of T.tree s.content
            ≡ reduced (content_of T.tree self.entry.content)
            (content_of T.tree other.entry.content)) }
        ensures whole { DataIsWhole T.is_whole self.entry.content →
            DataIsWhole T.is_whole other.entry.content →
            IfOk result (λ s. DataIsWhole T.is_whole s.content) }
        ensures root { IfOk result (λ s. s.root.now ≡ self.entry.root.now) }
        ensures memory { IfErr result (λ e. e ≡ OutOfMemory) }
    {
        let State { content, root } = self;
        let State {
            content: of_other,
            root: _,
        } = other;
        Ok(State {
            content: content.reduce(alloc, of_other)?,
            root,
        })
    }

    /// Maps the data as [`Data::flat_map`], in the same document.
    pub fn flat_map<F: Fn(Pointer<'a, T>) -> Queried<Data<'a, T>> + Drop>(
        self,
        alloc: Global,
        f: F,
    ) -> Queried<Self>
        requires { AllByRecursion (F.pre f) (pointers self.content) }
        ensures made { IfOk result (λ s. Made (λ p r. F.post f p (Ok r)) self.entry.content s.content) }

        // From whole values it makes whole ones, if the closure does.
        ensures whole { GivesWhole T.is_whole (λ p r. F.post f p (Ok r)) →
            DataIsWhole T.is_whole self.entry.content →
            IfOk result (λ s. DataIsWhole T.is_whole s.content) }
        ensures root { IfOk result (λ s. s.root.now ≡ self.entry.root.now) }
        ensures refused { IfErr result (λ e. (e ≡ OutOfMemory) ⊎ SomeHas (λ p. F.post f p (Err e)) (pointers self.entry.content)) }
    {
        let State { content, root } = self;
        Ok(State {
            content: content.flat_map(alloc, f)?,
            root,
        })
    }

    /// Returns whether the data is equal ([`Data::equal`]) and the documents are the same ([`Queryable::equal`]).
    pub fn equal(&self, other: &Self) -> bool
        requires left { DataIsWhole T.is_whole self.now.content }
        requires right { DataIsWhole T.is_whole other.now.content }
        requires left_root { IsTrue (T.is_whole self.now.root.now) }
        requires right_root { IsTrue (T.is_whole other.now.root.now) }
        ensures { result ≡ (contents_same (content_of T.tree self.now.content)
            (content_of T.tree other.now.content)
            && same (T.tree self.now.root.now) (T.tree other.now.root.now)) }
    {
        self.content.equal(&other.content) && self.root.equal(other.root)
    }

    /// Returns a copy of the data, as [`Data::try_clone`], in the same document. It fails with `OutOfMemory` only.
    pub fn try_clone(&self, alloc: Global) -> Queried<Self>
        ensures content { DataIsWhole T.is_whole self.now.content →
            IfOk result (λ s. content_of T.tree s.content ≡ content_of T.tree self.now.content) }
        ensures whole { DataIsWhole T.is_whole self.now.content → IfOk result (λ s. DataIsWhole T.is_whole s.content) }
        ensures root { IfOk result (λ s. s.root.now ≡ self.now.root.now) }
        ensures memory { IfErr result (λ e. e ≡ OutOfMemory) }
    {
        Ok(State {
            content: self.content.try_clone(alloc)?,
            root: self.root,
        })
    }
}

/// Shows the data.
impl<'a, T: Debug> Display for State<'a, T> {
    fn fmt<W: Write>(&self, f: &mut Formatter<W>) -> fmt::Result {
        write!(f, "{}", self.content)
    }
}

/// Returns the document itself, at `$`.
pub fn root_of<'a, T: Queryable>(alloc: Global, root: &'a T) -> Queried<Data<'a, T>>
    ensures value { IfOk result (λ d. content_of T.tree d ≡ ref (record { path = codes "$"; tree = T.tree root.now })) }
    ensures whole { IsTrue (T.is_whole root.now) → IfOk result (λ d. DataIsWhole T.is_whole d) }
    ensures memory { IfErr result (λ e. e ≡ OutOfMemory) }
{
    Ok(Data::Ref(Pointer {
        inner: root,
        path: String::from_str(alloc, "$")?,
    }))
}
