//! The arguments of a custom function (RFC 9535, 2.4). Each is whole.
ghost use Rattle.std.proofs.Props.{props};
ghost use Rattle.std.specs.Prelude.{◌≡◌, ◌++◌, [], ◌∷◌, map, All, IsTrue, OnOk};
ghost use Rattle.jsonpath_base.specs.documents.Args.{arg_value};
ghost use Rattle.jsonpath_rust.specs.documents.Whole.{tree_of, own_tree};

use crate::documents::queryable::{Arg, Queryable};
use crate::documents::whole::{Whole, WholeRef};
use std::alloc::{AllocError, Global};

/// The arguments of a custom function.
#[derive(Drop)]
pub struct Args<'a, T: Queryable> {
    pub list: Vec<Arg<'a, T>>,
    ghost whole: { All (λ a. IsTrue (T.is_whole (arg_value a))) list.items } by { Prim.hlevel props },
}

impl<'a, T: Queryable> Args<'a, T> {
    /// Returns an empty list of arguments.
    pub fn new(alloc: Global) -> Self
        ensures { result.list.items ≡ [] }
    {
        Args {
            list: Vec::new(alloc),
        }
    }

    /// Adds a value of the document.
    pub fn push_lent(&mut self, value: WholeRef<'a, T>) -> Result<(), AllocError>
        ensures { OnOk result (map (λ a. T.tree (arg_value a)) self.new.list.items
            ≡ map (λ a. T.tree (arg_value a)) self.old.list.items ++ tree_of value.entry ∷ []) }
    {
        self.list.push(Arg::Borrowed(value.value))?;
        Ok(())
    }

    /// Adds an owned value.
    pub fn push_made(&mut self, value: Whole<T>) -> Result<(), AllocError>
        ensures { OnOk result (map (λ a. T.tree (arg_value a)) self.new.list.items
            ≡ map (λ a. T.tree (arg_value a)) self.old.list.items ++ own_tree value ∷ []) }
    {
        self.list.push(Arg::Owned(value.value))?;
        Ok(())
    }
}
