//! Locations, and their queries: each segment is one name, or one index from 0 on (RFC 9535, 2.7).
ghost use Rattle.std.specs.Prelude.{◌≡◌, IfErr, IfOk, MatchResult, option_map, Some};
ghost use Rattle.jsonpath_base.specs.Prelude.Documents.{Derives, HasIndexesInRange, IsLocationByPath, IsLocationOf, IsNormal, IsRefusal, Location, location_view, OutOfMemory, Query, query_view};

use crate::documents::Queried;
use jsonpath_base::{Step, constant_prefix};
use jsonpath_parser::model::JpQuery;
use jsonpath_parser::{MAX_NESTING_DEPTH, drop_query, parse_json_path};
use std::alloc::Global;

/// Returns the location that a query means in every document, or None: each of its segments is one name, or one index
/// from 0 on. It fails with `OutOfMemory` only.
///
/// It takes time linear in the query.
pub fn location_of(alloc: Global, query: &JpQuery) -> Queried<Option<Vec<Step>>>
    ensures location { IfOk result (λ o. IsLocationOf (query_view query.now) (option_map (λ v. location_view v.items) o)) }
    ensures memory { IfErr result (λ e. e ≡ OutOfMemory) }
{
    let steps = constant_prefix(alloc, query)?;
    if steps.len() == query.segments.len() {
        Ok(Some(steps))
    } else {
        Ok(None)
    }
}

/// Returns the location that a query text means in every document, as [`location_of`]. For a Normalized Path with
/// indexes below 2^53 it is the location of the path. It needs no document, so it turns the paths that queries return
/// into steps.
///
/// # Errors
///
/// Those of `parse_json_path`.
pub fn location_by_path(alloc: Global, path: &str) -> Queried<Option<Vec<Step>>>
    ensures location { IfOk result (λ o. IsLocationByPath path.now (option_map (λ v. location_view v.items) o)) }

    // Whatever query the text derives, its location is returned, unless memory ran out.
    ensures complete { (q : Query) → Derives MAX_NESTING_DEPTH path.now q → MatchResult result
        (λ o. IsLocationOf q (option_map (λ v. location_view v.items) o))
        (λ e. e ≡ OutOfMemory) }

    // For a Normalized Path it fails with `OutOfMemory` only.
    ensures normal { (l : Location) → IsNormal l path.now → HasIndexesInRange l → MatchResult result
        (λ o. option_map (λ v. location_view v.items) o ≡ Some l)
        (λ e. e ≡ OutOfMemory) }
    ensures refused { IfErr result (IsRefusal MAX_NESTING_DEPTH path.now) }
{
    let query = parse_json_path(alloc, path)?;
    let location = location_of(alloc, &query);
    drop_query(query);
    location
}
