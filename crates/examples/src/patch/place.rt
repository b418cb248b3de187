//! Where a path leads in a document (RFC 6901), and where it adds a value (RFC 6902, 4.1).
ghost use Rattle.std.specs.Prelude.{◌≡◌, IfErr, IfOk, IfSome, IsTrue, option_map};
ghost use Rattle.jsonpath_rust.specs.JsonPathError.TheVariants.{OutOfMemory};
ghost use Rattle.jsonpath_rust.specs.base.Steps.{location_view, owned_step};
ghost use Rattle.jsonpath_rust.specs.base.Values.{value_tree, value_is_whole};
ghost use Rattle.examples.specs.Patch.{is_inside, new_step, target_in, value_in};

use jsonpath_rust::Step;
use jsonpath_rust::query::{Queried, at, location_by_pointer, step_by_token};
use serde_json::Value;
use std::alloc::Global;

/// What is at the location that a path means, or None.
pub fn value_of<'v>(alloc: Global, document: &'v Value, path: &str) -> Queried<Option<&'v Value>>
    requires { IsTrue (value_is_whole document.now) }
    ensures value { IfOk result (λ o. option_map (λ v. value_tree v.now) o ≡ value_in path.now (value_tree document.now)) }
    ensures whole { IfOk result (λ o. IfSome o (λ v. IsTrue (value_is_whole v.now))) }
    ensures memory { IfErr result (λ e. e ≡ OutOfMemory) }
{
    match location_by_pointer(alloc, document, path)? {
        Some(place) => Ok(at(document, &place)),
        None => Ok(None),
    }
}

/// The object or the list to which a path adds a value, and the step of the value in it; None where neither is there.
pub fn target_of(alloc: Global, document: &Value, path: &str) -> Queried<Option<(Vec<Step>, Step)>>
    ensures target { IfOk result (λ o. option_map (λ p. (location_view p.0.items, owned_step p.1)) o ≡ target_in path.now (value_tree document.now)) }
    ensures memory { IfErr result (λ e. e ≡ OutOfMemory) }
{
    let Some((parent, token)) = path.rsplit_once('/') else {
        return Ok(None);
    };
    let Some(place) = location_by_pointer(alloc, document, parent)? else {
        return Ok(None);
    };
    let Some(target) = at(document, &place) else {
        return Ok(None);
    };
    match new_step(alloc, target, token)? {
        Some(step) => Ok(Some((place, step))),
        None => Ok(None),
    }
}

/// What a token means where a value is added.
fn new_step(alloc: Global, target: &Value, token: &str) -> Queried<Option<Step>>
    ensures step { IfOk result (λ o. option_map owned_step o ≡ new_step token.now (value_tree target.now)) }
    ensures memory { IfErr result (λ e. e ≡ OutOfMemory) }
{
    match target {
        Value::Array(items) if token == "-" => Ok(Some(Step::Index(items.len()))),
        _ => step_by_token(alloc, target, token),
    }
}

/// Whether a path leads inside what `from` leads to.
pub fn is_inside(path: &str, from: &str) -> bool
    ensures { result ≡ is_inside path.now from.now }
{
    match path.strip_prefix(from) {
        Some(rest) => rest.starts_with('/'),
        None => false,
    }
}
