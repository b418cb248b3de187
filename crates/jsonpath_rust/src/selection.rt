//! The evaluator: it walks a document depth-first, and meets the nodes of a query in the order of the nodelist (RFC
//! 9535, 2.1.2). The meaning of a query is defined in `documents`.
//!
//! The modules, in the order in which data flows:
//!
//! - `prepared` holds a query with its plan and its patterns, to be run on many documents.
//! - `plan` says what a walk does at a node. A query is compiled to it once.
//! - `runner` runs a prepared query on one document after another, and `condition` evaluates a filter at the root.
//! - `limits` says how much work a call may take, and counts what is left. `cost` says what values cost.
//! - `walk` goes through the document by the plan, and holds the current path.
//! - `filter` evaluates the filters that the walk meets, and `call` their function calls and expressions.
//! - `constants` evaluates the parts of filters that do not depend on the current node, and caches their results for
//!   one call.
//! - `sink` takes the nodes that the walk selects.
mod call;
mod condition;
mod constants;
mod cost;
mod filter;
mod limits;
mod plan;
mod prepared;
mod runner;
mod sink;
mod walk;

pub use crate::selection::condition::{Condition, ConditionRunner};
pub use crate::selection::limits::{Limit, LimitError, Units, Unlimited};
pub use crate::selection::prepared::{Prepared, PreparedRef};
pub use crate::selection::runner::Runner;
pub use crate::selection::sink::Only;
