//! Data of one value: truths, counts, literals, and the value of data.
ghost use Rattle.std.specs.Prelude.{◌≡◌, IfErr, IfOk, IfSome, IsTrue, option_map};
ghost use Rattle.jsonpath_base.specs.Prelude.Documents.{count_value, literal_tree, literal_view, truth};
ghost use Rattle.jsonpath_rust.specs.Prelude.Documents.{Memory, tree_of};
ghost use Rattle.jsonpath_rust.specs.Prelude.States.{content_at, plain, value};

use crate::documents::filter_value::{count_scalar, made, scalar_of};
use crate::documents::queryable::Queryable;
use crate::documents::whole::WholeRef;
use crate::states::evaluate::Returned;
use crate::states::held::WholeData;
use crate::states::state::Data;
use jsonpath_parser::model::Literal;
use std::alloc::Global;

/// Returns `true` or `false` as data.
pub fn truth_data<'a, T: Queryable>(alloc: Global, b: bool) -> Returned<'a, T>
    ensures value { IfOk result (λ d. content_at d ≡ value (truth b)) }
    ensures memory { IfErr result (λ h. h ≡ Memory) }
{
    let content = Data::Value(T::from_bool(alloc, b)?);
    Ok(WholeData { content })
}

/// Returns a count as data.
pub fn count_data<'a, T: Queryable>(alloc: Global, count: usize) -> Returned<'a, T>
    ensures value { IfOk result (λ d. content_at d ≡ value (count_value count)) }
    ensures memory { IfErr result (λ h. h ≡ Memory) }
{
    let content = Data::Value(made(alloc, count_scalar(count))?.value);
    Ok(WholeData { content })
}

/// Returns a literal as data.
pub fn literal_data<'a, T: Queryable>(alloc: Global, literal: &Literal) -> Returned<'a, T>
    ensures value { IfOk result (λ d. content_at d ≡ value (literal_tree (literal_view literal.now))) }
    ensures memory { IfErr result (λ h. h ≡ Memory) }
{
    let content = Data::Value(made(alloc, scalar_of(literal))?.value);
    Ok(WholeData { content })
}

/// Returns the value that the data is, or points to.
pub fn plain_value<'d, 'a, T: Queryable>(given: &'d WholeData<'a, T>) -> Option<WholeRef<'d, T>>
    ensures { option_map tree_of result ≡ plain (content_at given.now) }
{
    match cached_ref(given) {
        Some(value) => Some(WholeRef { value }),
        None => None,
    }
}

/// Borrows that value, as a plain reference.
fn cached_ref<'d, 'a, T: Queryable>(given: &'d WholeData<'a, T>) -> Option<&'d T>
    ensures value { option_map (λ v. T.tree v.now) result ≡ plain (content_at given.now) }
    ensures whole { IfSome result (λ v. IsTrue (T.is_whole v.now)) }
{
    match &given.content {
        Data::Ref(from) => Some(from.inner),
        Data::Value(own) => Some(own),
        _ => None,
    }
}
