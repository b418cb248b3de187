//! The evaluator of states: it evaluates each part of a query on any state, and uses nothing of the walk.
mod evaluate;
mod held;
mod process;
mod processed;
pub mod selector;

pub use crate::states::process::{Query, apply};
pub use crate::states::processed::{processed_nodes, processed_values};

/// The state of an evaluation, and its data.
pub mod state {
    pub use jsonpath_base::documents::state::{Data, Pointer, State};
}
