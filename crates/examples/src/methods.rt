//! The methods of a document that take a query, which all three are asked.
ghost use Rattle.std.specs.Prelude.{◌≡◌, map, IsTrue, IfOk};
ghost use Rattle.jsonpath_rust.specs.documents.Answer.{shown, paths_of};

use jsonpath_rust::JsonPath;
use jsonpath_rust::query::{Queried, QueryPath, QueryRef};
use std::alloc::Global;

/// What the three methods of a document answer to a query.
#[derive(Drop)]
pub struct Answers<'d, T> {
    pub nodes: Vec<QueryRef<'d, T>>,
    pub paths: Vec<QueryPath>,
    pub values: Vec<&'d T>,
}

/// Asks the three methods of a document. Where none refuses, the three lists agree place by place; the contracts of the
/// methods say so, and nothing else is known of them here.
pub fn methods_answers<'d, T: JsonPath>(
    alloc: Global,
    query: &str,
    document: &'d T,
) -> Queried<Answers<'d, T>>
    requires { IsTrue (T.is_whole document.now) }
    ensures paths { IfOk result (λ a. paths_of a.paths.items ≡ map (λ n. n.0) (shown T.tree a.nodes.items)) }
    ensures values { IfOk result (λ a. map (λ v. T.tree v.now) a.values.items ≡ map (λ n. n.1) (shown T.tree a.nodes.items)) }
{
    let nodes = document.query_with_path(alloc, query)?;
    let paths = document.query_only_path(alloc, query)?;
    let values = document.query(alloc, query)?;
    Ok(Answers {
        nodes,
        paths,
        values,
    })
}
