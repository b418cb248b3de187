//! A place in a text, and the grammar functions that read one kind of tree there (RFC 9535, 2.1 to 2.5).
ghost use Rattle.std.specs.Prelude.{◌≡◌, ◌-◌, length, drop};

mod filters;
mod part;
mod place;
mod queries;

pub use self::filters::{
    comp_expr, comparable, filter_atom, function_expr, literal, logical_expr, logical_expr_and,
    test,
};
pub use self::queries::{
    child_segment, jp_query, rel_query, segment, segments, selector, singular_query,
    singular_query_segments, slice_selector,
};

/// A place in a text, between two characters, at its start or at its end.
///
/// The grammar functions read forward from there, each one kind of tree. Where the whole rest of the text spells such a
/// tree, that is returned and the cursor stands at the end. Where it does not, a beginning of the rest may be read, or
/// the text is refused. At a refusal the cursor stays where it was.
///
/// They know no limit of depth, and the stack that they take grows with the depth of the text: for a stranger's text ask
/// [`nests_deeper`](crate::nests_deeper) first.
///
/// # Errors
///
/// Of each of these functions:
///
/// - `InvalidNumber(literal)` where the rest would spell such a tree if each number literal in it had a value. No number
///   literal stands in a slice or a singular query, so these are never refused so.
/// - `PestError(place)` where the rest spells no such tree for another cause. The place is where reading stopped, a count of
///   bytes from the start of the text: it is at most the text's length and stands between two characters.
/// - `OutOfMemory` where memory ran out.
///
/// The time is linear in the length of the rest. Only a text that is refused is read twice.
// Its methods stand in place.rt: the words of their contracts rest on this struct, and a struct with a ghost field
// imports all that its file does.
#[derive(Clone, Copy, Debug)]
pub struct Cursor<'t> {
    text: &'t str,
    rest: &'t str,
    ghost behind: { drop (length text.now - length rest.now) text.now ≡ rest.now },
}
