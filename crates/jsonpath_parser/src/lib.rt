//! JSONPath query texts (RFC 9535): the query tree, and its reading, or that of a part of one, from a text.
//!
//! A text is read by its words (`words`), along the grammar (`grammar`), into a tree (`tree`); `parse` reads a whole query, and
//! `cursor` a part of one. Where that fails, `errors` has why. `query_text` is a tree as a text that reads back.
//! `slice` and `text` have what slices, `length` and `<` mean of lengths and texts alone.
#![tactic(auto)]

mod cursor;
mod error_equality;
pub mod errors;
mod grammar;
mod one_tree;
mod parse;
mod query_text;
mod slice;
mod text;
mod tree;
mod words;

pub use crate::cursor::{
    Cursor, child_segment, comp_expr, comparable, filter_atom, function_expr, jp_query, literal,
    logical_expr, logical_expr_and, rel_query, segment, segments, selector, singular_query,
    singular_query_segments, slice_selector, test,
};
pub use crate::error_equality::equal_errors_hold_the_same;
pub use crate::errors::Parsed;
pub use crate::one_tree::{no_text_derives_two_trees, no_text_spells_two_trees};
pub use crate::parse::{MAX_NESTING_DEPTH, parse_json_path, parse_json_path_within};
pub use crate::query_text::to_query_text;
pub use crate::slice::{SlicePlaces, picked, slice_places};
pub use crate::text::{text_length, text_less};
pub use crate::tree::{
    are_steps, drop_query, equal_parts_are_one_tree, first_unknown_function, is_local, is_singular,
    is_typed, model,
};
pub use crate::words::depth::nests_deeper;
pub use crate::words::quoting;
