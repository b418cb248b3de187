//! The text of what a command prints: of what a query selects, or of what a deletion leaves.
ghost use Rattle.std.specs.Prelude.{◌≡◌, ◌++◌, map, codes, All, IsTrue, IfOk, IfErr, OnOk, string_bytes};
ghost use Rattle.std.specs.List.{flat_map};
ghost use Rattle.jsonpath_parser.specs.tree.View.{query_view};
ghost use Rattle.jsonpath_rust.specs.documents.Answer.{shown};
ghost use Rattle.jpath.specs.Document.{json_document, json_is_whole, json_tree};
ghost use Rattle.jpath.specs.Json.{json_text};
ghost use Rattle.jpath.specs.Output.{line, listed};
ghost use Rattle.jpath.specs.Printed.{IsNoAnswer, IsNoOutput, IsPrinted};

use crate::deletion::deletion;
use crate::document::printing::push_json;
use crate::document::{Json, document_of};
use crate::fault::Fault;
use crate::words::{Command, Listing};
use json::Scratch;
use jsonpath_parser::model::JpQuery;
use jsonpath_rust::WholeRef;
use jsonpath_rust::query::{Prepared, QueryRef};
use std::alloc::{AllocError, Global};
use std::mem;

/// What the command prints of what the query selects in the document of these bytes.
pub fn printed(
    alloc: Global,
    command: Command,
    query: &JpQuery,
    bytes: Vec<u8>,
) -> Result<String, Fault>
    ensures text { IfOk result (λ text. IsPrinted command (query_view query.now) bytes.items (string_bytes text)) }
    ensures refused { IfErr result (IsNoOutput (query_view query.now) bytes.items) }
{
    match command {
        Command::Print(listing) => listing_of(alloc, listing, query, bytes.as_slice()),
        Command::Delete => deletion(alloc, query, bytes),
    }
}

/// The lines of what the query selects in the document of these bytes.
fn listing_of(
    alloc: Global,
    listing: Listing,
    query: &JpQuery,
    bytes: &[u8],
) -> Result<String, Fault>
    ensures text { IfOk result (λ text. IsPrinted (Command.Print listing) (query_view query.now) bytes.now (string_bytes text)) }
    ensures refused { IfErr result (IsNoOutput (query_view query.now) bytes.now) }
{
    let mut scratch = Scratch::new(alloc);
    let document = document_of(alloc, bytes, &mut scratch)?;
    let text = lines_of(alloc, listing, query, document.as_ref());
    // The process ends after a run, and its memory goes with it: no value is freed by itself.
    mem::forget(document);
    text
}

/// The lines of what the query selects in a document.
fn lines_of(
    alloc: Global,
    listing: Listing,
    query: &JpQuery,
    document: WholeRef<'_, Json<'_>>,
) -> Result<String, Fault>
    ensures text { IfOk result (λ text. string_bytes text ≡ listed listing (query_view query.now) (json_document document.entry.value.now)) }
    ensures refused { IfErr result (IsNoAnswer (query_view query.now) (json_document document.entry.value.now)) }
{
    match listing {
        Listing::Values => values_printed(alloc, query, document),
        listing => nodes_printed(alloc, listing, query, document),
    }
}

/// The lines of nodes, or of their paths.
fn nodes_printed(
    alloc: Global,
    listing: Listing,
    query: &JpQuery,
    document: WholeRef<'_, Json<'_>>,
) -> Result<String, Fault>
    ensures text { IfOk result (λ text. string_bytes text ≡ listed listing (query_view query.now) (json_document document.entry.value.now)) }
    ensures refused { IfErr result (IsNoAnswer (query_view query.now) (json_document document.entry.value.now)) }
{
    let prepared = Prepared::of(alloc, query)?;
    let nodes = prepared.runner(alloc).nodes(alloc, document)?;
    Ok(nodes_text(alloc, listing, nodes.as_slice())?)
}

/// The values alone, for which no path is made.
fn values_printed(
    alloc: Global,
    query: &JpQuery,
    document: WholeRef<'_, Json<'_>>,
) -> Result<String, Fault>
    ensures text { IfOk result (λ text. string_bytes text ≡ listed Listing.Values (query_view query.now) (json_document document.entry.value.now)) }
    ensures refused { IfErr result (IsNoAnswer (query_view query.now) (json_document document.entry.value.now)) }
{
    let prepared = Prepared::of(alloc, query)?;
    let values = prepared.runner(alloc).values(alloc, document)?;
    Ok(values_text(alloc, values)?)
}

/// A line for each node.
fn nodes_text(
    alloc: Global,
    listing: Listing,
    nodes: &[QueryRef<'_, Json<'_>>],
) -> Result<String, AllocError>
    requires { All (λ r. IsTrue (json_is_whole r.val.now)) nodes.now }
    ensures { IfOk result (λ text. string_bytes text ≡ flat_map (λ p. line listing p.0 (json_text p.1)) (shown json_tree nodes.now)) }
{
    let mut text = String::new(alloc);
    for node in nodes {
        push_node(alloc, listing, &mut text, node)?;
    }
    Ok(text)
}

/// A line for each value.
fn values_text(alloc: Global, values: Vec<&Json<'_>>) -> Result<String, AllocError>
    requires { All (λ v. IsTrue (json_is_whole v.now)) values.items }
    ensures { IfOk result (λ text. string_bytes text ≡ flat_map (λ t. json_text t ++ codes "\n") (map (λ v. json_tree v.now) values.entry.items)) }
{
    let mut text = String::new(alloc);
    for value in values {
        push_json(alloc, &mut text, value)?;
        text.push('\n')?;
    }
    Ok(text)
}

/// Appends the line of one node.
fn push_node(
    alloc: Global,
    listing: Listing,
    text: &mut String,
    node: &QueryRef<'_, Json<'_>>,
) -> Result<(), AllocError>
    requires { IsTrue (json_is_whole node.now.val.now) }
    ensures { OnOk result (string_bytes text.new ≡ string_bytes text.old
        ++ line listing (string_bytes node.now.path) (json_text (json_tree node.now.val.now))) }
{
    match listing {
        Listing::Nodes => {
            text.push_str(node.path.as_str())?;
            text.push('\t')?;
            push_json(alloc, text, node.val)?;
        }
        Listing::Values => push_json(alloc, text, node.val)?,
        Listing::Paths => text.push_str(node.path.as_str())?,
    }
    text.push('\n')
}
