//! Where a query tree is handed back.
use crate::tree::model::JpQuery;

/// Gives back the memory of the query's whole tree. A caller in another crate that hands its tree back here need not
/// drop it itself.
pub fn drop_query(_query: JpQuery) {}
