//! Evaluates the parts of a query on any state, for [`Query`](crate::states::process::Query). It recurses over the
//! query, and makes each nodelist as a whole; the walk of `selection` is faster.
//!
//! A part that reads a state as a whole, such as `count` or a comparison, has a result here on every state. The walk,
//! which knows one node at a time, cannot return that. The recursion is in `segments` and `filters`.

pub mod calls;
pub mod compare;
pub mod filters;
pub mod found;
pub mod segments;
pub mod single;
pub mod singular;
pub mod test;

use crate::documents::queryable::Queryable;
use crate::documents::walk_error::WalkResult;
use crate::documents::whole::WholeRef;
use crate::states::held::WholeData;
use std::alloc::Global;

/// What a part of a query returns, or the error with which it ends.
pub type Returned<'a, T> = WalkResult<WholeData<'a, T>>;

/// Evaluates the parts of a query. It holds the root of the document, and the allocator.
#[derive(Drop)]
pub struct Evaluation<'a, T: Queryable> {
    pub alloc: Global,
    pub root: WholeRef<'a, T>,
}
