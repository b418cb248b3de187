//! How a Normalized Path writes the characters of a name (RFC 9535, 2.7).
ghost use Rattle.std.specs.Prelude.{◌≡◌, ◌≢◌, ◌↔◌, ◌<◌, ◌≤◌, ◌++◌, OnOk, OnErr, IsTrue, length, take, slice_index, string_bytes};
ghost use Rattle.jsonpath_parser.specs.Prelude.{Begins, digit_char, name_char, name_chars};

use std::alloc::AllocError;

/// Appends the characters of a name, those that need it escaped. Where memory runs out, a part of them may stand there.
pub fn push_name_chars(path: &mut String, name: &str) -> Result<(), AllocError>
    ensures value { OnOk result (string_bytes path.new ≡ string_bytes path.old ++ name_chars name.now) }
    ensures begun { OnErr result (Begins (string_bytes path.old) (string_bytes path.new)) }
{
    let mut rest = name;
    loop {
        let bytes = rest.as_bytes();
        let run = plain_len(bytes);
        path.push_str(&rest[..run])?;
        if run == bytes.len() {
            return Ok(());
        }
        push_escape(path, bytes[run])?;
        rest = &rest[run + 1..];
    }
}

/// How many bytes at the front stand for themselves.
#[tactic(auto, using(crate::proofs::laws::words::Quoting::plain_more), unfolding(crate::specs::Normal::name_chars))]
fn plain_len(bytes: &[u8]) -> usize
    ensures within { result ≤ length bytes.now }
    ensures plain { name_chars (take result bytes.now) ≡ take result bytes.now }
    ensures stop { result < length bytes.now → slice_index bytes.now result < 128 }
{
    for (i, byte) in bytes.iter().enumerate() {
        if !is_plain(*byte) {
            return i;
        }
    }
    bytes.len()
}

/// Whether a byte of a name stands for itself.
#[inline(always)]
fn is_plain(byte: u8) -> bool
    ensures { IsTrue result ↔ (32 ≤ byte) × (byte ≢ 39) × (byte ≢ 92) }
{
    byte >= b' ' && byte != b'\'' && byte != b'\\'
}

/// Appends the spelling of an ASCII character.
fn push_escape(path: &mut String, byte: u8) -> Result<(), AllocError>
    requires { byte < 128 }
    ensures value { OnOk result (string_bytes path.new ≡ string_bytes path.old ++ name_char byte) }
    ensures begun { OnErr result (Begins (string_bytes path.old) (string_bytes path.new)) }
{
    match byte {
        b'\x08' => path.push_str("\\b")?,
        b'\t' => path.push_str("\\t")?,
        b'\n' => path.push_str("\\n")?,
        b'\x0c' => path.push_str("\\f")?,
        b'\r' => path.push_str("\\r")?,
        b'\'' => path.push_str("\\'")?,
        b'\\' => path.push_str("\\\\")?,
        0..=15 => {
            path.push_str("\\u000")?;
            path.push(hex_digit(byte))?;
        }
        16..=31 => {
            path.push_str("\\u001")?;
            path.push(hex_digit(byte - 16))?;
        }
        _ => path.push(byte as char)?,
    }
    Ok(())
}

/// A hex digit in lower case.
fn hex_digit(digit: u8) -> char
    requires { digit < 16 }
    ensures value { result ≡ digit_char digit }
    ensures ascii { result < 128 }
{
    if digit < 10 {
        (b'0' + digit) as char
    } else {
        (b'a' + (digit - 10)) as char
    }
}
