//! Locations as JSON Pointers (RFC 6901).
ghost use Rattle.std.specs.Prelude.{◌≡◌, ◌≤◌, ◌∷◌, ◌++◌, IfErr, IfOk, MatchOption, None, OnOk, flat_map, length, option_and_then, option_map, string_bytes};
ghost use Rattle.jsonpath_base.specs.Prelude.{escaped, GoesDown, index_digits, index_of, location_in, location_view, owned_step, pointer, step_in, tilde_escaped, unescape, value_tree};
ghost use Rattle.jsonpath_base.specs.Places as places;
ghost use Rattle.jsonpath_base.specs.Pointer as pointers;

use crate::place::child;
use crate::step::Step;
use fast_float::Numeral;
use itoa::Buffer;
use jsonpath_parser::errors::{JsonPathError, Parsed};
use serde_json::Value;
use std::alloc::{AllocError, Global};

/// Returns the JSON Pointer of the location of these steps (RFC 6901): for each step `/` and either the name, with `~0`
/// for `~` and `~1` for `/`, or the digits of the index. A name of digits looks the same as an index; only the document
/// tells them apart. It takes time linear in the steps and their names.
///
/// # Errors
///
/// `OutOfMemory` where memory ran out.
pub fn pointer_of(alloc: Global, place: &[Step]) -> Parsed<String>
    ensures value { IfOk result (λ text. string_bytes text ≡ pointer (location_view place.now)) }
    ensures memory { IfErr result (λ e. e ≡ JsonPathError.OutOfMemory) }
{
    let mut text = String::new(alloc);
    for step in place {
        push_step(&mut text, step)?;
    }
    Ok(text)
}

/// Appends a step.
fn push_step(text: &mut String, step: &Step) -> Result<(), AllocError>
    ensures { OnOk result (string_bytes text.new ≡ string_bytes text.old ++ (47 ∷ pointers.token (owned_step step.now))) }
{
    text.push('/')?;
    match step {
        Step::Name(name) => push_name(text, name.as_str()),
        Step::Index(index) => push_index(text, *index),
    }
}

/// Appends the digits of an index.
fn push_index(text: &mut String, index: usize) -> Result<(), AllocError>
    ensures { OnOk result (string_bytes text.new ≡ string_bytes text.old ++ index_digits index) }
{
    let mut digits = Buffer::new();
    text.push_str(digits.format(index))?;
    Ok(())
}

/// Appends the characters of a name, each `~` and each `/` escaped.
fn push_name(text: &mut String, name: &str) -> Result<(), AllocError>
    ensures { OnOk result (string_bytes text.new ≡ string_bytes text.old ++ flat_map escaped name.now) }
{
    let mut rest = name;
    while let Some((part, more)) = rest.split_once('/') {
        push_part(text, part)?;
        text.push_str("~1")?;
        rest = more;
    }
    push_part(text, rest)?;
    Ok(())
}

/// Appends characters, each `~` escaped.
fn push_part(text: &mut String, part: &str) -> Result<(), AllocError>
    ensures { OnOk result (string_bytes text.new ≡ string_bytes text.old ++ flat_map tilde_escaped part.now) }
{
    let mut rest = part;
    while let Some((plain, more)) = rest.split_once('~') {
        text.push_str(plain)?;
        text.push_str("~0")?;
        rest = more;
    }
    text.push_str(rest)?;
    Ok(())
}

/// Returns the location in this document that a JSON Pointer means (RFC 6901, 4). A part of the text is a name in an
/// object, and an index in a list: digits without a leading zero. A `~` that is before neither `0` nor `1` means
/// itself. Returns None where the text is no pointer, or leads to no value, as `-` does in a list. It takes the time of
/// `at`, and time linear in the text.
///
/// # Errors
///
/// `OutOfMemory` where memory ran out.
pub fn location_by_pointer(alloc: Global, value: &Value, text: &str) -> Parsed<Option<Vec<Step>>>
    ensures place { IfOk result (λ o. option_map (λ l. location_view l.items) o ≡ location_in text.now (value_tree value.now)) }
    ensures memory { IfErr result (λ e. e ≡ JsonPathError.OutOfMemory) }
{
    let mut steps = Vec::new(alloc);
    if text.is_empty() {
        return Ok(Some(steps));
    }
    let Some(mut rest) = text.strip_prefix('/') else {
        return Ok(None);
    };
    let mut target = value;
    while let Some((part, more)) = rest.split_once('/') {
        let Some(below) = go_down(alloc, &mut steps, target, part)? else {
            return Ok(None);
        };
        target = below;
        rest = more;
    }
    match go_down(alloc, &mut steps, target, rest)? {
        Some(_) => Ok(Some(steps)),
        None => Ok(None),
    }
}

/// Returns the child that a reference token means, and adds its step to the others; or returns None.
fn go_down<'v>(
    alloc: Global,
    steps: &mut Vec<Step>,
    target: &'v Value,
    token: &str,
) -> Parsed<Option<&'v Value>>
    ensures down { IfOk result (λ o. MatchOption o (option_and_then (λ s. places.child s (value_tree target.now)) (step_in token.now (value_tree target.now)) ≡ None) (λ v. GoesDown token.now target.now steps.old.items steps.new.items v.now)) }
    ensures memory { IfErr result (λ e. e ≡ JsonPathError.OutOfMemory) }
{
    let Some(step) = step_by_token(alloc, target, token)? else {
        return Ok(None);
    };
    let Some(below) = child(target, &step) else {
        return Ok(None);
    };
    steps.push(step)?;
    Ok(Some(below))
}

/// Returns the step that a reference token of a JSON Pointer means in a value (RFC 6901, 4). In an object it is a name,
/// with `/` for `~1` and `~` for `~0`. In a list it is an index: digits without a leading zero. Returns None for any
/// other token in a list, such as `-`, and in any other value. It does not check that there is a value at the step, so
/// the last token of a pointer says where a value can be added. It takes time linear in the token.
///
/// # Errors
///
/// `OutOfMemory` where memory ran out.
pub fn step_by_token(alloc: Global, value: &Value, token: &str) -> Parsed<Option<Step>>
    ensures step { IfOk result (λ o. option_map owned_step o ≡ step_in token.now (value_tree value.now)) }
    ensures memory { IfErr result (λ e. e ≡ JsonPathError.OutOfMemory) }
{
    match value {
        Value::Object(_) => Ok(Some(Step::Name(unescaped(alloc, token)?))),
        Value::Array(_) => match index_by(token) {
            Some(index) => Ok(Some(Step::Index(index))),
            None => Ok(None),
        },
        _ => Ok(None),
    }
}

/// Returns the index that these digits write, or None.
fn index_by(part: &str) -> Option<usize>
    ensures { result ≡ index_of part.now }
{
    let bytes = part.as_bytes();
    let numeral = Numeral::scan(bytes);
    let index = numeral.to_u64()?;
    if numeral.len() == bytes.len() && (bytes.len() == 1 || bytes[0] != b'0') {
        Some(index as usize)
    } else {
        None
    }
}

/// Returns a part of a pointer with `/` for `~1`, and `~` for `~0`.
fn unescaped(alloc: Global, part: &str) -> Result<String, AllocError>
    ensures { IfOk result (λ name. string_bytes name ≡ unescape part.now) }
{
    let mut name = String::with_capacity(alloc, part.len())?;
    let mut rest = part;
    while let Some((plain, behind)) = rest.split_once('~') {
        let (mark, more) = mark_at(behind);
        name.push_str(plain)?;
        name.push_str(mark)?;
        rest = more;
    }
    name.push_str(rest)?;
    Ok(name)
}

/// Returns what a `~` before these characters means, and the characters after it.
fn mark_at(behind: &str) -> (&'static str, &str)
    ensures value { unescape (126 ∷ behind.now) ≡ result.0.now ++ unescape result.1.now }
    ensures shorter { length result.1.now ≤ length behind.now }
{
    if let Some(more) = behind.strip_prefix('1') {
        ("/", more)
    } else if let Some(more) = behind.strip_prefix('0') {
        ("~", more)
    } else {
        ("~", behind)
    }
}
