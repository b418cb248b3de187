//! Query trees (RFC 9535, 2.1 to 2.5): their types, makers and copies, how they are shown and written, their typing, what
//! they can reach, and `==`.
mod asking;
mod equality;
pub mod model;
mod reach;
mod release;
pub mod typing;
pub mod written;

pub use equality::equal_parts_are_one_tree;
pub use model::call::{are_steps, call_of};
pub use reach::{first_unknown_function, is_local, is_singular};
pub use release::drop_query;
pub use typing::is_typed;
