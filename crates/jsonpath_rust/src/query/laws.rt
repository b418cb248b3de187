//! Laws that proofs of callers cite: of query texts and trees, of locations, of what a query can reach, of both
//! evaluators, of deletion and masking, and of writing. Each function states laws and does nothing.
ghost use Rattle.std.specs.Prelude.{IfSome, map};
ghost use Rattle.std.specs.List.Sorted.{IsStrictlySortedBy};
ghost use Rattle.std.specs.Ordering.{nat_cmp};
ghost use Rattle.jsonpath_base.specs.Prelude.Documents.{as_members, AsManyAreListed, LocalIsConfined, MaskingAllTellsNothing, MaskingTellsNothing, NamedBelow, NamedIsMasked, NormalizedPathDerivesItsSteps, SelectedBeginsWithFixedPart, SelectedIsThere, SingularSelectsOneAtMost, slice_cmp, StepsSelectTheirLocation, value_tree};
ghost use Rattle.jsonpath_rust.specs.Prelude.States.{ProcessGivesTheNodelist};
ghost use Rattle.jsonpath_rust.specs.Prelude.Calls.{NothingSelectedDeletesNothing};

use crate::documents::queryable::Queryable;
pub use jsonpath_base::laws::{
    added_is_there, added_leaves_the_rest, among_is_listed, equal_steps_are_one_step,
    overwritten_at_one_is_put, overwritten_forgets, overwritten_is_seen, pointer_finds_its_place,
    pointer_leads_as_found, pointer_reads_back, put_is_there, put_leaves_the_rest, put_nowhere,
    removal_leaves_the_rest, removed_member_is_gone, same_is_an_equivalence, without_nowhere,
};
pub use jsonpath_parser::{
    equal_errors_hold_the_same, equal_parts_are_one_tree, no_text_derives_two_trees,
    no_text_spells_two_trees,
};
use serde_json::Value;

/// The Normalized Path of a location derives the query of its steps, if each index is below 2^53, as in a query (RFC
/// 9535, 2.1 and 2.7).
pub fn normalized_path_derives_its_steps()
    ensures { NormalizedPathDerivesItsSteps }
{}

/// The query of a location's steps selects that location alone if there is a value, and else nothing.
pub fn steps_select_their_location()
    ensures { StepsSelectTheirLocation }
{}

/// There is a value at each location that a query selects. It holds for documents whose objects have distinct names,
/// such as whole values.
pub fn selected_is_there()
    ensures { SelectedIsThere }
{}

/// A list of nodes, of values or of paths that a call returns for a query has as many items as the query selects
/// locations. It is cited for the document's type: `as_many_are_listed::<Value>()`.
pub fn as_many_are_listed<T: Queryable>()
    ensures { AsManyAreListed T.tree }
{}

/// The members of an object are in the order of their names' bytes, each name once. It is cited for a given `Value`.
pub fn members_are_ordered(value: &Value)
    ensures { IfSome (as_members (value_tree value.now)) (λ ms. IsStrictlySortedBy (slice_cmp nat_cmp) (map (λ m. m.0) ms)) }
{
    if let Some(members) = value.as_object() {
        let _members = members.iter();
    }
}

/// A singular query, as [`is_singular`] recognizes it, selects nothing or one location (RFC 9535, 2.3.5.1).
///
/// [`is_singular`]: jsonpath_parser::is_singular
pub fn singular_selects_one_at_most()
    ensures { SingularSelectsOneAtMost }
{}

/// Each location that a query selects begins with the query's constant prefix, whose steps [`constant_prefix`] returns.
///
/// [`constant_prefix`]: jsonpath_base::constant_prefix
pub fn selected_begins_with_fixed_part()
    ensures { SelectedBeginsWithFixedPart }
{}

/// A local query, as [`is_local`] recognizes it, is confined to each part of a document with whose location its
/// constant prefix begins. What it selects is in that part. In documents that agree there it selects the same locations
/// with the same values, whatever else is in them.
///
/// [`is_local`]: jsonpath_parser::is_local
pub fn local_is_confined()
    ensures { LocalIsConfined }
{}

/// Masking reveals nothing of what it masks: for a query without a filter, two documents that differ only in what it
/// selects in one of them are the same once that is masked in each. The same holds for several queries at once. The
/// number of masked locations may differ, if some are inside others.
pub fn masking_tells_nothing()
    ensures one { MaskingTellsNothing }
    ensures all { MaskingAllTellsNothing }
{}

/// The query `$..name` selects exactly the locations with a value whose last step is that name. So if all of them are
/// masked by a text, the only value of that name is the mask. It holds for documents whose objects have distinct names,
/// such as whole values.
pub fn named_below()
    ensures selected { NamedBelow }
    ensures masked { NamedIsMasked }
{}

/// A deletion by a query that selects nothing leaves the document's tree as it was, and returns 0.
pub fn nothing_selected_deletes_nothing()
    ensures { NothingSelectedDeletesNothing }
{}

/// [`Query::process`] of a well-typed query (RFC 9535, 2.4.3) returns from the root the nodes that the query selects,
/// in order, with their Normalized Paths (2.1.2, 2.7).
///
/// [`Query::process`]: crate::query::Query::process
pub fn process_gives_the_nodelist()
    ensures { ProcessGivesTheNodelist }
{}
