//! Reads and writes at the one location that a singular query means (RFC 9535, 2.3.5.1): each of its segments is one
//! name or one index. The steps are followed down from the root; the value is not walked.
ghost use Rattle.std.specs.Prelude.{◌≡◌, [], IfErr, IfOk, IfSome, IsSome, IsTrue, OnErr, option_map, Some};
ghost use Rattle.jsonpath_base.specs.Prelude.Documents.{reached_view, followed, HasIndexesInRange, IsNormal, IsPut, IsReference, IsReferred, IsReplaced, Location, location_view, OutOfMemory, referent_view, segment_view, segments_in, selector_view, step_to, value_document, value_is_whole, value_tree};
ghost use Rattle.jsonpath_parser.specs.Location as location;
ghost use Rattle.jsonpath_base.specs.Places as places;
ghost use Rattle.jsonpath_base.specs.documents.inner.Following as following;

use crate::documents::Queried;
use crate::documents::queryable::children::element_of;
use crate::{Step, put_at};
use jsonpath_parser::errors::JsonPathError;
use jsonpath_parser::model::{Segment, Selector};
use jsonpath_parser::{drop_query, parse_json_path};
use serde_json::Value;
use std::alloc::Global;

/// A child of a value, and the step to it.
#[derive(Drop)]
struct Reached<'v> {
    step: Step,
    value: &'v Value,
}

/// A value in a document, and the steps to it from the root.
#[derive(Drop)]
struct Referent<'v> {
    steps: Vec<Step>,
    value: &'v Value,
}

/// Replaces the value at one location, not at all locations that a query selects, and returns true. The path, such as a
/// Normalized Path, consists of names and indexes only. Returns false, and changes nothing, where the text means no
/// location, as any other text. It fails with `OutOfMemory` only, and then nothing is changed.
///
/// It takes time linear in the length of the path, with a search by name in each object on the path.
pub fn replace_by_path(alloc: Global, value: &mut Value, path: &str, new: Value) -> Queried<bool>
    ensures replaced { IfOk result (λ found. IsReplaced path.now (value_document value.old) (value_tree new) found (value_tree value.new)) }

    // The Normalized Path of a location means that location, wherever there is a value.
    ensures normal { (l : Location) → IsNormal l path.now → HasIndexesInRange l →
        IfOk result (λ found. IsPut l (value_tree value.old) (value_tree new) found
        (value_tree value.new)) }
    ensures whole { IsTrue (value_is_whole value.old) → IsTrue (value_is_whole new) → IsTrue (value_is_whole value.new) }
    ensures unchanged_on_error { OnErr result (value.new ≡ value.old) }
    ensures memory { IfErr result (λ e. e ≡ OutOfMemory) }
{
    match referred_location(alloc, value, path)? {
        Some(steps) => Ok(put_at(value, &steps, new)),
        None => Ok(false),
    }
}

/// Returns the value at the one location that a path of names and indexes means, or None. It fails with `OutOfMemory`
/// only.
pub fn referred<'v>(alloc: Global, value: &'v Value, path: &str) -> Queried<Option<&'v Value>>
    ensures value { IfOk result (λ o. IsReferred path.now (value_document value.now) (option_map (λ v. value_tree v.now) o)) }
    ensures whole { IsTrue (value_is_whole value.now) → IfOk result (λ o. IfSome o (λ v. IsTrue (value_is_whole v.now))) }
    ensures memory { IfErr result (λ e. e ≡ OutOfMemory) }
{
    match referent_of(alloc, value, path)? {
        Some(referent) => Ok(Some(referent.value)),
        None => Ok(None),
    }
}

/// Returns the one location that a path of names and indexes means in a value, if there is a value at it: the steps to
/// it from the root, with a negative index counted from the end of its list. Else it returns None. It fails with
/// `OutOfMemory` only.
///
/// It takes time linear in the length of the path, with a search by name in each object on the path.
pub fn referred_location(alloc: Global, value: &Value, path: &str) -> Queried<Option<Vec<Step>>>
    ensures means { IfOk result (λ o. IsReference path.now (value_document value.now) (option_map (λ v. location_view v.items) o)) }
    ensures there { IfOk result (λ o. IfSome o (λ v. IsSome (places.at (location_view v.items) (value_tree value.now)))) }

    // The Normalized Path of a location means that location, wherever there is a value.
    ensures normal { (l : Location) → IsNormal l path.now → HasIndexesInRange l →
        IfOk result (λ o. option_map (λ v. location_view v.items) o
        ≡ option_map (λ t. l) (places.at l (value_tree value.now))) }
    ensures memory { IfErr result (λ e. e ≡ OutOfMemory) }
{
    match referent_of(alloc, value, path)? {
        Some(referent) => Ok(Some(referent.steps)),
        None => Ok(None),
    }
}

/// Returns the value that a path means, and the steps to it.
fn referent_of<'v>(alloc: Global, value: &'v Value, path: &str) -> Queried<Option<Referent<'v>>>
    ensures means { IfOk result (λ o. IsReference path.now (value_document value.now) (option_map (λ p. location_view p.steps.items) o)) }
    ensures there { IfOk result (λ o. IfSome o (λ p. places.at (location_view p.steps.items)
        (value_tree value.now) ≡ Some (value_tree p.value.now))) }
    ensures whole { IsTrue (value_is_whole value.now) → IfOk result (λ o. IfSome o (λ p. IsTrue (value_is_whole p.value.now))) }
    ensures memory { IfErr result (λ e. e ≡ OutOfMemory) }
{
    match parse_json_path(alloc, path) {
        Ok(query) => {
            let referent = follow(alloc, &query.segments, value);
            drop_query(query);
            referent
        }
        Err(JsonPathError::OutOfMemory) => Err(JsonPathError::OutOfMemory),
        Err(_) => Ok(None),
    }
}

/// Returns the value that the segments lead to, and the steps to it, if each segment leads to one child.
fn follow<'v>(alloc: Global, segments: &[Segment], root: &'v Value) -> Queried<Option<Referent<'v>>>
    ensures value { IfOk result (λ o. option_map referent_view o ≡ followed (segments_in segments.now) [] (value_tree root.now)) }
    ensures whole { IsTrue (value_is_whole root.now) → IfOk result (λ o. IfSome o (λ p. IsTrue (value_is_whole p.value.now))) }
    ensures memory { IfErr result (λ e. e ≡ OutOfMemory) }
{
    let mut steps = Vec::new(alloc);
    let mut value = root;
    for segment in segments {
        let child = match segment_child(alloc, segment, value)? {
            Some(child) => child,
            None => return Ok(None),
        };
        steps.push(child.step)?;
        value = child.value;
    }
    Ok(Some(Referent { steps, value }))
}

/// Returns the child that a segment of one name or one index leads to.
fn segment_child<'v>(
    alloc: Global,
    segment: &Segment,
    value: &'v Value,
) -> Queried<Option<Reached<'v>>>
    ensures value { IfOk result (λ o. option_map reached_view o ≡ following.segment_child (segment_view segment.now) (value_tree value.now)) }
    ensures whole { IsTrue (value_is_whole value.now) → IfOk result (λ o. IfSome o (λ c. IsTrue (value_is_whole c.value.now))) }
    ensures memory { IfErr result (λ e. e ≡ OutOfMemory) }
{
    match segment {
        Segment::Selector(selector) => selector_child(alloc, selector, value),
        Segment::Selectors(_) | Segment::Descendant(_) => Ok(None),
    }
}

/// Returns the child that a selector of one name or one index picks.
fn selector_child<'v>(
    alloc: Global,
    selector: &Selector,
    value: &'v Value,
) -> Queried<Option<Reached<'v>>>
    ensures value { IfOk result (λ o. option_map reached_view o
        ≡ following.selector_child (selector_view selector.now) (value_tree value.now)) }
    ensures whole { IsTrue (value_is_whole value.now) → IfOk result (λ o. IfSome o (λ c. IsTrue (value_is_whole c.value.now))) }
    ensures memory { IfErr result (λ e. e ≡ OutOfMemory) }
{
    match selector {
        Selector::Name(name) => member(alloc, name, value),
        Selector::Index(index) => Ok(element(*index, value)),
        Selector::Wildcard | Selector::Slice(_, _, _) | Selector::Filter(_) => Ok(None),
    }
}

/// Returns the member of that name.
fn member<'v>(alloc: Global, name: &str, value: &'v Value) -> Queried<Option<Reached<'v>>>
    ensures value { IfOk result (λ o. option_map reached_view o ≡ step_to (location.name name.now) (value_tree value.now)) }
    ensures whole { IsTrue (value_is_whole value.now) → IfOk result (λ o. IfSome o (λ c. IsTrue (value_is_whole c.value.now))) }
    ensures memory { IfErr result (λ e. e ≡ OutOfMemory) }
{
    match value.get(name) {
        Some(member) => Ok(Some(Reached {
            step: Step::Name(String::from_str(alloc, name)?),
            value: member,
        })),
        None => Ok(None),
    }
}

/// Returns the element of that index; a negative index counts from the end.
fn element(index: i64, value: &Value) -> Option<Reached<'_>>
    ensures value { option_map reached_view result ≡ following.element_step index (value_tree value.now) }
    ensures whole { IsTrue (value_is_whole value.now) → IfSome result (λ c. IsTrue (value_is_whole c.value.now)) }
{
    let items = value.as_array()?;
    let position = element_of(index, items.len())?;
    let item = items.get(position)?;
    Some(Reached {
        step: Step::Index(position),
        value: item,
    })
}
