//! Queries as methods of a document.
ghost use Rattle.std.specs.Prelude.{IsTrue};
ghost use Rattle.jsonpath_base.specs.Prelude.Documents.{AreNodes, ArePaths, AreValues, document_of, IsNodeThere, IsPathThere, IsValueThere};
ghost use Rattle.jsonpath_rust.specs.Prelude.Calls.{ByText};

use crate::documents::queryable::Queryable;
use crate::documents::{Queried, QueryPath, QueryRef};
use crate::query::{js_path, js_path_path, js_path_vals};
use jsonpath_parser::MAX_NESTING_DEPTH;
use serde_json::Value;
use std::alloc::Global;

/// A document with methods for queries.
///
/// Each call selects the nodes of a query text, in order (RFC 9535, 2.1.2), and fails as [`js_path`] does.
pub trait JsonPath: Queryable {
    /// Returns the nodes that a query text selects: their values and their Normalized Paths.
    fn query_with_path(&self, alloc: Global, path: &str) -> Queried<Vec<QueryRef<'_, Self>>>
        requires { IsTrue (Self.is_whole self.now) }
        ensures { ByText MAX_NESTING_DEPTH path.now (document_of Self.tree Self.custom self.now) (AreNodes Self.Queryable.own) (IsNodeThere Self.Queryable.own) result }
    {
        js_path(alloc, path, self)
    }

    /// Returns the Normalized Paths of the nodes that a query text selects.
    fn query_only_path(&self, alloc: Global, path: &str) -> Queried<Vec<QueryPath>>
        requires { IsTrue (Self.is_whole self.now) }
        ensures { ByText MAX_NESTING_DEPTH path.now (document_of Self.tree Self.custom self.now) ArePaths IsPathThere result }
    {
        js_path_path(alloc, path, self)
    }

    /// Returns the values of the nodes that a query text selects. It makes no paths.
    fn query(&self, alloc: Global, path: &str) -> Queried<Vec<&Self>>
        requires { IsTrue (Self.is_whole self.now) }
        ensures { ByText MAX_NESTING_DEPTH path.now (document_of Self.tree Self.custom self.now) (AreValues Self.Queryable.own) (IsValueThere Self.Queryable.own) result }
    {
        js_path_vals(alloc, path, self)
    }
}

impl JsonPath for Value {}
