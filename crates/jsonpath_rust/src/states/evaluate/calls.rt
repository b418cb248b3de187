//! The functions, on the data of their arguments (RFC 9535, 2.4.4 to 2.4.8).
ghost use Rattle.std.specs.Prelude.{◌++◌, ◌≡◌, IfErr, IfOk, OnOk, option_map, Some, string_bytes};
ghost use Rattle.jsonpath_base.specs.Prelude.Documents.{is_entire, IsPattern, truth};
ghost use Rattle.jsonpath_rust.specs.Prelude.Documents.{arg_trees, Memory, tree_of};
ghost use Rattle.jsonpath_rust.specs.Prelude.States.{content_at, content_trees, count_content, length_content, optional, plain, value, value_content};
ghost use Rattle.jsonpath_base.specs.documents.Functions as functions;

use crate::documents::args::Args;
use crate::documents::filter_value::length_of;
use crate::documents::queryable::Queryable;
use crate::documents::walk_error::WalkResult;
use crate::documents::whole::{Whole, WholeRef};
use crate::states::evaluate::Returned;
use crate::states::evaluate::single::{count_data, plain_value, truth_data};
use crate::states::held::{WholeData, WholePointer};
use crate::states::state::Data;
use jsonpath_base::MatchKind;
use jsonpath_base::engine::PatternKey;
use std::alloc::Global;

/// Returns what `length` returns.
pub fn length_data<'a, T: Queryable>(alloc: Global, given: WholeData<'a, T>) -> Returned<'a, T>
    ensures value { IfOk result (λ d. content_at d ≡ length_content (content_at given.entry)) }
    ensures memory { IfErr result (λ h. h ≡ Memory) }
{
    let content = given.content;
    match content {
        Data::Ref(from) => value_length(alloc, WholeRef { value: from.inner }),
        Data::Refs(all) => count_data(alloc, all.len()),
        Data::Value(own) => value_length(alloc, WholeRef { value: &own }),
        Data::Nothing => Ok(WholeData::nothing()),
    }
}

/// Returns the length of a value; nothing where it has none.
fn value_length<'a, T: Queryable>(alloc: Global, of: WholeRef<'_, T>) -> Returned<'a, T>
    ensures value { IfOk result (λ d. content_at d ≡ optional (functions.length_of (Some (tree_of of.entry)))) }
    ensures memory { IfErr result (λ h. h ≡ Memory) }
{
    match length_of(alloc, of)? {
        Some(length) => count_data(alloc, length),
        None => Ok(WholeData::nothing()),
    }
}

/// Returns what `count` returns.
pub fn node_count<'a, T: Queryable>(alloc: Global, given: WholeData<'a, T>) -> Returned<'a, T>
    ensures value { IfOk result (λ d. content_at d ≡ count_content (content_at given.entry)) }
    ensures memory { IfErr result (λ h. h ≡ Memory) }
{
    let content = given.content;
    match content {
        Data::Ref(_from) => count_data(alloc, 1),
        Data::Refs(all) => count_data(alloc, all.len()),
        Data::Value(_own) => count_data(alloc, 1),
        Data::Nothing => count_data(alloc, 0),
    }
}

/// Returns what `value` returns.
pub fn only_value<'a, T: Queryable>(given: WholeData<'a, T>) -> WholeData<'a, T>
    ensures { content_at result ≡ value_content (content_at given.entry) }
{
    let content = given.content;
    match content {
        Data::Ref(pointer) => WholeData::node(WholePointer { pointer }),
        Data::Refs(mut all) => {
            if all.len() == 1 {
                match all.pop() {
                    Some(pointer) => WholeData::node(WholePointer { pointer }),
                    None => WholeData::nothing(),
                }
            } else {
                WholeData::nothing()
            }
        }
        Data::Value(value) => WholeData::own(Whole { value }),
        Data::Nothing => WholeData::nothing(),
    }
}

/// Returns whether a pattern matches: the entire text for `match`, a substring for `search`.
pub fn found_data<'a, T: Queryable>(
    alloc: Global,
    text: &WholeData<'a, T>,
    pattern: &WholeData<'a, T>,
    extent: MatchKind,
) -> Returned<'a, T>
    ensures value { IfOk result (λ d. content_at d
        ≡ value (truth (functions.is_matched (is_entire extent) (plain (content_at text.now)) (plain
        (content_at pattern.now))))) }
    ensures refused { IfErr result (λ h. (h ≡ Memory → ⊥) → IsPattern (is_entire extent) (plain (content_at pattern.now))) }
{
    let found = is_matched(alloc, plain_value(text), plain_value(pattern), extent)?;
    truth_data(alloc, found)
}

fn is_matched<T: Queryable>(
    alloc: Global,
    text: Option<WholeRef<'_, T>>,
    pattern: Option<WholeRef<'_, T>>,
    extent: MatchKind,
) -> WalkResult<bool>
    ensures value { IfOk result (λ b. b
        ≡ functions.is_matched (is_entire extent) (option_map tree_of text.entry)
        (option_map tree_of pattern.entry)) }
    ensures refused { IfErr result (λ h. (h ≡ Memory → ⊥) → IsPattern (is_entire extent) (option_map tree_of pattern.entry)) }
{
    match (text, pattern) {
        (Some(text), Some(pattern)) => match (text.as_str(), pattern.as_str()) {
            (Some(text), Some(pattern)) => {
                let asked = PatternKey { pattern, extent };
                Ok(asked.is_found(alloc, text)?)
            }
            _ => Ok(false),
        },
        _ => Ok(false),
    }
}

/// Returns what a custom function returns.
pub fn custom_data<'a, T: Queryable>(
    alloc: Global,
    name: &String,
    args: &Args<'a, T>,
) -> Returned<'a, T>
    ensures value { IfOk result (λ d. content_at d ≡ value (T.custom (string_bytes name.now) (arg_trees args.now))) }
    ensures memory { IfErr result (λ h. h ≡ Memory) }
{
    let content = Data::Value(T::extension_custom(alloc, name, &args.list)?);
    Ok(WholeData { content })
}

/// Adds the value of a result, or the values of its nodes, to the arguments of a custom function.
pub fn push_values<'a, T: Queryable>(
    values: &mut Args<'a, T>,
    answer: WholeData<'a, T>,
) -> WalkResult<()>
    ensures value { OnOk result (arg_trees values.new ≡ arg_trees values.old ++ content_trees (content_at answer.entry)) }
    ensures memory { IfErr result (λ h. h ≡ Memory) }
{
    let content = answer.content;
    match content {
        Data::Ref(from) => Ok(values.push_lent(WholeRef { value: from.inner })?),
        Data::Refs(all) => {
            for from in &all {
                values.push_lent(WholeRef { value: from.inner })?;
            }
            Ok(())
        }
        Data::Value(own) => Ok(values.push_made(Whole { value: own })?),
        Data::Nothing => Ok(()),
    }
}
