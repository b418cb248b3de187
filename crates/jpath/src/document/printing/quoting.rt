//! A text as a JSON string.
ghost use Rattle.std.specs.Prelude.{◌≡◌, ◌++◌, OnOk, string_bytes};
ghost use Rattle.std.specs.Bool.{OnTrue};
ghost use Rattle.json.specs.Print.{quoted, escape};

mod plain;

use crate::document::printing::quoting::plain::is_plain;
use serde_json::Value;
use std::alloc::{AllocError, Global};

/// Appends a text in quotes. Most texts have nothing to escape, and are copied.
pub fn push_quoted(alloc: Global, text: &mut String, content: &str) -> Result<(), AllocError>
    ensures { OnOk result (string_bytes text.new ≡ string_bytes text.old ++ quoted content.now) }
{
    if has_no_escape(content) {
        push_copied(text, content)
    } else {
        push_escaped(alloc, text, content)
    }
}

/// Whether a text stands in quotes as it is.
#[inline(always)]
fn has_no_escape(content: &str) -> bool
    ensures { OnTrue result (escape content.now ≡ content.now) }
{
    is_plain(content.as_bytes())
}

/// Appends a text with nothing to escape, in quotes.
#[inline(always)]
fn push_copied(text: &mut String, plain: &str) -> Result<(), AllocError>
    requires { escape plain.now ≡ plain.now }
    ensures { OnOk result (string_bytes text.new ≡ string_bytes text.old ++ quoted plain.now) }
{
    text.push('"')?;
    text.push_str(plain)?;
    text.push('"')
}

/// Appends a text in quotes, with its escapes, as `serde_json` prints it.
fn push_escaped(alloc: Global, text: &mut String, content: &str) -> Result<(), AllocError>
    ensures { OnOk result (string_bytes text.new ≡ string_bytes text.old ++ quoted content.now) }
{
    let json = Value::try_from_str(alloc, content)?.to_string(alloc)?;
    text.push_str(json.as_str())
}
