//! Literals (RFC 9535, 2.3.5.1).
ghost use Rattle.std.specs.Prelude.{◌≡◌, Some, IfOk, IfErr};
ghost use Rattle.jsonpath_parser.specs.tree.Syntax as tree;
ghost use Rattle.jsonpath_parser.specs.tree.View.{literal_view};
ghost use Rattle.jsonpath_parser.specs.declared.errors.JsonPathError.TheVariants.{OutOfMemory};

use jsonpath_parser::errors::Parsed;
use jsonpath_parser::model::Literal;
use std::alloc::Global;

/// The literal `null`.
pub fn lit_null() -> Literal
    ensures { literal_view result ≡ tree.null }
{
    Literal::Null
}

/// The literal `true` or `false`.
pub fn lit_bool(truth: bool) -> Literal
    ensures { literal_view result ≡ tree.bool truth }
{
    Literal::Bool(truth)
}

/// The string literal of this text.
///
/// # Errors
///
/// `OutOfMemory` where memory ran out.
pub fn lit_str(alloc: Global, text: &str) -> Parsed<Literal>
    ensures made { IfOk result (λ l. literal_view l ≡ tree.string text.now) }
    ensures memory { IfErr result (λ e. e ≡ OutOfMemory) }
{
    Ok(Literal::String(String::from_str(alloc, text)?))
}

/// The literal of this whole number.
pub fn lit_int(number: i64) -> Literal
    ensures { literal_view result ≡ tree.number (Some number) }
{
    Literal::Int(number)
}
