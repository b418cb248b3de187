//! Redaction: what queries select in a document is masked.
ghost use Rattle.std.specs.Prelude.{◌≡◌, ℕ, List, IfOk, IfErr, IfSome, IsSome, IsTrue, OnOk, OnErr, map};
ghost use Rattle.jsonpath_rust.specs.Document.{Document, value_document};
ghost use Rattle.jsonpath_rust.specs.Location.{Location};
ghost use Rattle.jsonpath_rust.specs.Masking.{AgreeBut, ends_in, named_anywhere};
ghost use Rattle.jsonpath_rust.specs.Overwritten.{overwritten};
ghost use Rattle.jsonpath_rust.specs.Places.{at};
ghost use Rattle.jsonpath_rust.specs.Tree.{Tree, as_text};
ghost use Rattle.jsonpath_rust.specs.JpQuery.{JpQuery};
ghost use Rattle.jsonpath_rust.specs.View.{query_view};
ghost use Rattle.std.specs.List.{Contains};
ghost use Rattle.jsonpath_rust.specs.Without.{is_among, distinct_count};
ghost use Rattle.jsonpath_rust.specs.base.Steps.{location_view};
ghost use Rattle.jsonpath_rust.specs.base.Values.{value_tree};
ghost use Rattle.examples.specs.Redaction.{all_selected, have_no_filter, IsApart, IsRefusalOf, IsStopAmong};

use jsonpath_rust::parser::model::JpQuery;
use jsonpath_rust::query::laws::{
    masking_tells_nothing, named_below, overwritten_forgets, overwritten_is_seen,
};
use jsonpath_rust::query::{Queried, Step};
use jsonpath_rust::{Prepared, Whole};
use serde_json::Value;
use std::alloc::Global;

/// Puts a copy of the mask at all that the queries select in a document, as it was given, and returns how many locations that
/// are. Of those that lie inside one another the outermost is masked.
///
/// All that is selected is found before anything is written, so no query sees a mask that another one left.
///
/// # Errors
///
/// Those of a runner, for any of the queries. The document is as it was then.
///
/// The cost is that of each query, and of [`Whole::replace_all`].
pub fn redact(
    alloc: Global,
    rules: &[JpQuery],
    document: &mut Whole<Value>,
    mask: &Whole<Value>,
) -> Queried<usize>
    ensures redacted { OnOk result (value_tree document.new.value ≡ overwritten (is_among (all_selected rules.now (value_document document.old.value))) (value_tree mask.now.value) (value_tree document.old.value)) }
    ensures count { IfOk result (λ n. n ≡ distinct_count (all_selected rules.now (value_document document.old.value))) }

    // What stood at these locations is forgotten: every document that differs from this one there alone is left as the same one, once that
    // is masked there.
    ensures forgotten { OnOk result ((other : Tree) → AgreeBut (all_selected rules.now (value_document document.old.value)) (value_tree document.old.value) other
        → value_tree document.new.value ≡ overwritten (is_among (all_selected rules.now (value_document document.old.value))) (value_tree mask.now.value) other) }

    // Where no query has a filter, the result tells nothing of what was masked: every document that differs from this one there alone is
    // redacted to the same one.
    ensures hidden { OnOk result (IsTrue (have_no_filter rules.now) → (other : Document) → AgreeBut (all_selected rules.now (value_document document.old.value)) (value_tree document.old.value) other.root
        → value_tree document.new.value ≡ overwritten (is_among (all_selected rules.now other)) (value_tree mask.now.value) other.root) }

    // Where a query is `$..name` and the mask a text, nothing of that name is then anything but the mask.
    ensures named { OnOk result ((q : JpQuery) (k : List ℕ) → Contains rules.now q → query_view q ≡ named_anywhere k → IsSome (as_text (value_tree mask.now.value)) → (l : Location) → IsTrue (ends_in k l)
        → IfSome (at l (value_tree document.new.value)) (λ t. t ≡ value_tree mask.now.value)) }

    // What lies neither inside nor above a location that was selected is as it was.
    ensures rest { OnOk result ((m : Location) → IsApart (all_selected rules.now (value_document document.old.value)) m → at m (value_tree document.new.value) ≡ at m (value_tree document.old.value)) }
    ensures unchanged_on_error { OnErr result (document.new.value ≡ document.old.value) }
    ensures refused { IfErr result (IsRefusalOf rules.now (value_document document.old.value)) }
{
    let places = all_places(alloc, rules, document)?;
    let count = document.replace_all(alloc, &places, mask)?;

    // The laws of a replacement and of masking, which the proof cites.
    overwritten_is_seen();
    overwritten_forgets();
    masking_tells_nothing();
    named_below();
    Ok(count)
}

/// The places that the queries select in a document.
fn all_places(alloc: Global, rules: &[JpQuery], document: &Whole<Value>) -> Queried<Vec<Vec<Step>>>
    ensures places { IfOk result (λ v. map (λ p. location_view p.items) v.items ≡ all_selected rules.now (value_document document.now.value)) }
    ensures refused { IfErr result (IsStopAmong rules.now (value_document document.now.value)) }
{
    let mut places = Vec::new(alloc);
    for query in rules {
        let prepared = Prepared::of(alloc, query)?;
        let mut found = prepared.runner(alloc).locations(alloc, document.as_ref())?;
        places.append(&mut found)?;
    }
    Ok(places)
}
