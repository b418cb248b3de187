//! A gateway: which queries a tenant may ask of documents that hold the parts of many.
ghost use Rattle.std.specs.Prelude.{◌≡◌, ◌↔◌, Some, IsTrue, IsSome, IfOk, IfErr, IfSome, MatchResult};
ghost use Rattle.jsonpath_rust.specs.Confining.{IsConfinedTo};
ghost use Rattle.jsonpath_rust.specs.Derives.{Derives, IsRefusal};
ghost use Rattle.jsonpath_rust.specs.JsonPathError.TheVariants.{OutOfMemory};
ghost use Rattle.jsonpath_rust.specs.Prepared.{prepared_view};
ghost use Rattle.jsonpath_rust.specs.Syntax.{Query};
ghost use Rattle.jsonpath_rust.specs.View.{query_view};
ghost use Rattle.jsonpath_rust.specs.base.Steps.{location_view};
ghost use Rattle.examples.specs.Gateway.{IsAdmissible};

use jsonpath_rust::parser::model::JpQuery;
use jsonpath_rust::parser::{MAX_NESTING_DEPTH, first_unknown_function, is_local};
use jsonpath_rust::query::laws::local_is_confined;
use jsonpath_rust::query::{Prepared, Queried, Step, constant_prefix, starts_with};
use std::alloc::Global;

/// The query of a text, prepared, if a tenant may ask it; None if not. The names and indexes at its front lead into the
/// tenant's part, no filter in it has a `$`, and each function in it but the RFC's is one of these.
///
/// What it selects then lies in the tenant's part, and is the same whatever else a document holds. This is known before any
/// document.
///
/// # Errors
///
/// Those of `parse_json_path`.
///
/// The cost is linear in the text, times the functions for each call of one.
pub fn admit(
    alloc: Global,
    text: &str,
    part: &[Step],
    functions: &[&str],
) -> Queried<Option<Prepared>>
    ensures admitted { IfOk result (λ o. IfSome o (λ p. Derives MAX_NESTING_DEPTH text.now (prepared_view p) × IsAdmissible (location_view part.now) functions.now (prepared_view p))) }

    // What it selects lies in the tenant's part, and depends on that alone.
    ensures confined { IfOk result (λ o. IfSome o (λ p. IsConfinedTo (location_view part.now) (prepared_view p))) }

    // Whatever query the text derives is admitted where it is admissible, unless memory ran out.
    ensures complete { (q : Query) → Derives MAX_NESTING_DEPTH text.now q → IsAdmissible (location_view part.now) functions.now q → MatchResult result
        (λ o. IsSome o)
        (λ e. e ≡ OutOfMemory) }
    ensures refused { IfErr result (IsRefusal MAX_NESTING_DEPTH text.now) }
{
    let query = Prepared::read(alloc, text)?;

    // The law of local queries, which the proof cites.
    local_is_confined();
    if is_admissible(alloc, query.query(), part, functions)? {
        Ok(Some(query))
    } else {
        Ok(None)
    }
}

/// Whether a tenant may ask a query.
fn is_admissible(alloc: Global, query: &JpQuery, part: &[Step], functions: &[&str]) -> Queried<bool>
    ensures admissible { IfOk result (λ b. IsTrue b ↔ IsAdmissible (location_view part.now) functions.now (query_view query.now)) }
    ensures memory { IfErr result (λ e. e ≡ OutOfMemory) }
{
    let front = constant_prefix(alloc, query)?;
    Ok(
        starts_with(&front, part)
            && is_local(query)
            && first_unknown_function(query, functions).is_none(),
    )
}
