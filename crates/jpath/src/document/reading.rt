//! Reads a document from a text, in one pass over its tokens.
ghost use Rattle.std.specs.Prelude.{◌≡◌, ◌<◌, ◌⊎◌, ◌==◌, [], ◌∷◌, length, slice_index, IsTrue, true, false, Some, None, option_map, IfOk, IfErr, OnOk, IsErrOf, MatchResult};
ghost use Rattle.json.specs.Json.{value, items, members, read_key};
ghost use Rattle.json.specs.Reads.{token_of};
ghost use Rattle.serde_json.specs.Data.{no_members};
ghost use Rattle.serde_json.specs.Read.{number_of, number_from, float_of, of_json, of_items, of_members, converted, read as read_text};
ghost use Rattle.serde_json.specs.View.{number_view};
ghost use Rattle.jpath.specs.Document.{json_data, items_data, members_data};

use crate::document::Json;
use crate::fault::Fault;
use fast_float::Numeral;
use json::{Reader, Scratch, Token};
use serde_json::{Map, Number};
use std::alloc::Global;

/// How deep arrays and objects may nest.
const MAX_DEPTH: usize = 127;

/// The document of a text. Its texts and names stand in the text or, where they are escaped there, in `scratch`.
/// `NotJson` where the text is no JSON, nests deeper than 127 or has a number too large for a float; `Memory` where
/// memory runs out.
pub fn read_json<'t>(
    alloc: Global,
    text: &'t str,
    scratch: &'t mut Scratch,
) -> Result<Json<'t>, Fault>
    ensures ok { IfOk result (λ v. read_text text.now ≡ Some (json_data v)) }
    ensures err { IfErr result (λ e. e ≡ Fault.NotJson → read_text text.now ≡ None) }
    ensures kind { IfErr result (λ e. (e ≡ Fault.NotJson) ⊎ (e ≡ Fault.Memory)) }
{
    let mut reader = Reader::new(text, scratch)?;
    let document = read(alloc, &mut reader, MAX_DEPTH)?;
    if reader.next().is_some() {
        return Err(Fault::NotJson);
    }
    Ok(document)
}

/// The value that comes next, with arrays and objects no deeper than `depth`.
#[cycle(read)]
#[inline(always)]
fn read<'t>(alloc: Global, reader: &mut Reader<'t>, depth: usize) -> Result<Json<'t>, Fault>
    ensures ok { IfOk result
        (λ v. converted of_json (value depth reader.old) ≡ Some (json_data v, reader.new)) }
    ensures shorter { OnOk result (length reader.new < length reader.old) }
    ensures err { IsErrOf result Fault.NotJson
        → converted of_json (value depth reader.old) ≡ None }
    ensures kind { IfErr result (λ e. (e ≡ Fault.NotJson) ⊎ (e ≡ Fault.Memory)) }
{
    let token = next_token(reader)?;
    match token {
        Token::String(text) => Ok(Json::String(text)),
        Token::Number(text) => match number(text) {
            Some(number) => Ok(Json::Number(number)),
            None => Err(Fault::NotJson),
        },
        Token::Bool(b) => Ok(Json::Bool(b)),
        Token::Null => Ok(Json::Null),
        Token::EndObject | Token::EndArray | Token::Key(_) | Token::Bad => Err(Fault::NotJson),
        Token::BeginArray => {
            if depth == 0 {
                return Err(Fault::NotJson);
            }
            Ok(Json::Array(read_items(alloc, reader, depth - 1)?))
        }
        Token::BeginObject => {
            if depth == 0 {
                return Err(Fault::NotJson);
            }
            Ok(Json::Object(read_members(alloc, reader, depth - 1)?))
        }
    }
}

/// The elements of an array behind its bracket.
#[cycle(read)]
#[inline(never)]
fn read_items<'t>(
    alloc: Global,
    reader: &mut Reader<'t>,
    depth: usize,
) -> Result<Vec<Json<'t>>, Fault>
    ensures ok { IfOk result
        (λ v. converted of_items (items (value depth) (length reader.old) reader.old)
        ≡ Some (items_data v.items, reader.new)) }
    ensures shorter { OnOk result (length reader.new < length reader.old) }
    ensures err { IsErrOf result Fault.NotJson
        → converted of_items (items (value depth) (length reader.old) reader.old) ≡ None }
    ensures kind { IfErr result (λ e. (e ≡ Fault.NotJson) ⊎ (e ≡ Fault.Memory)) }
{
    let mut found = Vec::new(alloc);
    'items: while !reader.take_end_array() {
        let item = read(alloc, reader, depth)?;
        found.push(item)?;
    }
    Ok(found)
}

/// The members of an object behind its brace. Of members of one name the last stays.
#[cycle(read)]
#[inline(never)]
fn read_members<'t>(
    alloc: Global,
    reader: &mut Reader<'t>,
    depth: usize,
) -> Result<Map<&'t str, Json<'t>>, Fault>
    ensures ok { IfOk result
        (λ m. converted (λ ms. of_members ms no_members)
        (members (value depth) (length reader.old) reader.old)
        ≡ Some (members_data m.entries, reader.new)) }
    ensures shorter { OnOk result (length reader.new < length reader.old) }
    ensures err { IsErrOf result Fault.NotJson
        → converted (λ ms. of_members ms no_members)
        (members (value depth) (length reader.old) reader.old) ≡ None }
    ensures kind { IfErr result (λ e. (e ≡ Fault.NotJson) ⊎ (e ≡ Fault.Memory)) }
{
    let mut found = Map::new(alloc);
    'members: while let Some(name) = next_name(reader)? {
        let member = read(alloc, reader, depth)?;
        drop(found.insert(name, member)?);
    }
    Ok(found)
}

/// The token that comes next.
#[inline(always)]
fn next_token<'t>(reader: &mut Reader<'t>) -> Result<Token<'t>, Fault>
    ensures { MatchResult result (λ k. reader.old ≡ token_of k ∷ reader.new)
        (λ e. (e ≡ Fault.NotJson) × (reader.old ≡ [])) }
{
    match reader.next() {
        Some(token) => Ok(token),
        None => Err(Fault::NotJson),
    }
}

/// The name that comes next, or `None` at the brace that closes the object.
#[inline(always)]
fn next_name<'t>(reader: &mut Reader<'t>) -> Result<Option<&'t str>, Fault>
    ensures { MatchResult result
        (λ k. read_key reader.old ≡ Some (option_map (λ s. s.now) k, reader.new))
        (λ e. (e ≡ Fault.NotJson) × (read_key reader.old ≡ None)) }
{
    match reader.next_key() {
        Ok(name) => Ok(name),
        Err(_) => Err(Fault::NotJson),
    }
}

/// The number that a token's text writes, where it is in range.
#[inline(always)]
fn number(text: &str) -> Option<Number>
    ensures { option_map number_view result ≡ number_of text.now }
{
    let bytes = text.as_bytes();
    if has_minus(bytes) {
        below_zero(&Numeral::scan(&bytes[1..]))
    } else {
        not_below_zero(&Numeral::scan(bytes))
    }
}

#[inline(always)]
fn has_minus(bytes: &[u8]) -> bool
    ensures sign { result ≡ (slice_index bytes.now 0 == 45) }
    ensures some { IsTrue result → 0 < length bytes.now }
{
    !bytes.is_empty() && bytes[0] == b'-'
}

#[inline(always)]
fn not_below_zero(numeral: &Numeral<'_>) -> Option<Number>
    ensures { option_map number_view result ≡ number_from false numeral.now }
{
    match numeral.to_u64() {
        Some(n) => Some(Number::from(n)),
        None => nearest(false, numeral),
    }
}

/// The number of a numeral behind a minus. `-0` is a float.
#[inline(always)]
fn below_zero(numeral: &Numeral<'_>) -> Option<Number>
    ensures { option_map number_view result ≡ number_from true numeral.now }
{
    if let Some(n) = numeral.to_i64(true) {
        if n < 0 {
            return Some(Number::from(n));
        }
    }
    nearest(true, numeral)
}

#[inline(always)]
fn nearest(negative: bool, numeral: &Numeral<'_>) -> Option<Number>
    ensures { option_map number_view result ≡ float_of negative numeral.now }
{
    Number::from_f64(numeral.to_float::<f64>(negative))
}
