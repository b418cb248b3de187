//! The basis of evaluation.
//!
//! - `documents` says what a document is, and what a query means for one.
//! - `step`, `location`, `current_path` and `location_trie` hold steps, locations, and sets of locations; `pointer`
//!   writes and reads locations as JSON Pointers.
//! - `pattern` builds and caches the patterns of `match` and `search`.
//! - `value`, `equality` and `set_functions` classify and compare values of `serde_json`.
//! - `place`, `lending` and `adding` read and change such values at one location. `removal` removes or replaces them at
//!   many, with `ordering`, `masking` and `size`.
//! - `engine` exports what only the evaluator of `jsonpath_rust` needs, and `laws` states laws of the changes.
#![tactic(auto)]

mod adding;
mod current_path;
pub mod documents;
pub mod engine;
mod equality;
pub mod laws;
mod lending;
mod location;
mod location_trie;
mod masking;
mod ordering;
mod pattern;
mod place;
mod pointer;
mod removal;
mod set_functions;
mod size;
mod step;
mod value;

pub use adding::add_at;
pub use equality::same;
pub use jsonpath_parser::{SlicePlaces, picked, slice_places, text_length, text_less};
pub use lending::at_mut;
pub use location::{constant_prefix, path_of, starts_with};
pub use pattern::{Finder, MatchKind, Pattern, found};
pub use place::{at, put_at, take_at};
pub use pointer::{location_by_pointer, pointer_of, step_by_token};
pub use removal::{remove_all, replace_all};
pub use set_functions::{SetValue, set_function, set_truth};
pub use step::{Step, add_index, add_name};
pub use value::whole;
