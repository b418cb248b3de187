//! Query trees made by hand, part by part: a function where `jsonpath-rust` has the arm of a macro.
//!
//! A part is made of its parts, so a tree is made from its leaves up. This is the tree of `$['a'][0]`:
//!
//!     let name = selector_name(alloc, "a")?;
//!     let query = jq(vec![in alloc; segment_one(name), segment_one(selector_index(0))]?);
//!
//! What takes memory takes `alloc` first and returns a `Parsed`. The parts are moved into what is made, and a tree need not be
//! one that a text spells.
#![tactic(auto)]

mod calls;
mod comparisons;
mod filters;
mod literals;
mod segments;
mod singular_queries;
mod slices;

pub use calls::{arg_filter, arg_lit, arg_test, test_fn1, test_fn2};
pub use comparisons::{cmp, comparable_fn, comparable_lit, comparable_query};
pub use filters::{
    and, atom, atom_cmp, atom_not, atom_test, atom_test_not, filter, or, test_abs, test_function,
    test_rel,
};
pub use literals::{lit_bool, lit_int, lit_null, lit_str};
pub use segments::{
    jq, segment_descendant, segment_many, segment_one, selector_filter, selector_index,
    selector_name, selector_slice, selector_wildcard,
};
pub use singular_queries::{
    q_index, q_name, q_segments, q_segments_one, singular_current, singular_root,
};
pub use slices::{
    slice_all, slice_end, slice_end_step, slice_full, slice_start, slice_start_end,
    slice_start_step, slice_step,
};
