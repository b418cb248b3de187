//! Steps over a text that allocate nothing. A text is seen as its bytes; each delimiter of the grammar is ASCII.
ghost use Rattle.std.specs.Prelude.{◌≡◌, ◌-◌, ◌<◌, ◌≤◌, length, drop, slice_index};
ghost use Rattle.jsonpath_parser.specs.Prelude.{is_ascii_digit, prefix_len, split_while};
ghost use Rattle.jsonpath_parser.specs.words.Lexical as spec;
ghost use Rattle.jsonpath_parser.specs.words.inner.Reading as reading;

/// The byte at `index`, or 0 past the end.
#[inline]
pub fn byte_at(s: &str, index: usize) -> u8
    ensures { result ≡ slice_index s.now index }
{
    s.as_bytes().get(index).copied().unwrap_or(0)
}

/// The first byte, or 0.
#[inline]
pub fn first(s: &str) -> u8
    ensures { result ≡ slice_index s.now 0 }
{
    byte_at(s, 0)
}

/// What follows the first `n` bytes, of which the last is ASCII.
#[inline]
pub fn skip(s: &str, n: usize) -> &str
    requires some { 0 < n }
    requires there { 0 < slice_index s.now (n - 1) }
    requires ascii { slice_index s.now (n - 1) < 128 }
    ensures rest { result.now ≡ drop n s.now }
    ensures shorter { length result.now < length s.now }
{
    &s[n..]
}

/// Whether the byte is a blank.
#[inline]
fn is_blank(byte: u8) -> bool
    ensures { result ≡ spec.is_blank byte }
{
    byte == b' ' || byte == b'\t' || byte == b'\n' || byte == b'\r'
}

/// Whether the byte may begin a shorthand name.
#[inline]
pub fn is_name_first(byte: u8) -> bool
    ensures { result ≡ spec.is_name_first byte }
{
    byte >= 128 || byte == b'_' || byte.is_ascii_lowercase() || byte.is_ascii_uppercase()
}

/// Whether the byte may stand in a shorthand name.
#[inline]
fn is_name_byte(byte: u8) -> bool
    ensures { result ≡ spec.is_name_byte byte }
{
    is_name_first(byte) || byte.is_ascii_digit()
}

/// Whether the byte may begin the name of a function.
#[inline]
pub fn is_function_first(byte: u8) -> bool
    ensures { result ≡ spec.is_function_first byte }
{
    byte.is_ascii_lowercase()
}

/// Whether the byte may stand in the name of a function.
#[inline]
pub fn is_function_byte(byte: u8) -> bool
    ensures { result ≡ spec.is_function_byte byte }
{
    is_function_first(byte) || byte == b'_' || byte.is_ascii_digit()
}

fn blank_len(bytes: &[u8]) -> usize
    ensures len { result ≡ prefix_len spec.is_blank bytes.now }
    ensures within { result ≤ length bytes.now }
{
    bytes.iter().take_while(|b| is_blank(**b)).count()
}

fn name_len(bytes: &[u8]) -> usize
    ensures len { result ≡ prefix_len spec.is_name_byte bytes.now }
    ensures within { result ≤ length bytes.now }
{
    bytes.iter().take_while(|b| is_name_byte(**b)).count()
}

fn digit_len(bytes: &[u8]) -> usize
    ensures len { result ≡ prefix_len is_ascii_digit bytes.now }
    ensures within { result ≤ length bytes.now }
{
    bytes.iter().take_while(|b| b.is_ascii_digit()).count()
}

fn function_len(bytes: &[u8]) -> usize
    ensures len { result ≡ prefix_len spec.is_function_byte bytes.now }
    ensures within { result ≤ length bytes.now }
{
    bytes.iter().take_while(|b| is_function_byte(**b)).count()
}

/// After the blanks.
#[tactic(auto, using(crate::proofs::laws::words::Runs::blank_boundary), unfolding(crate::specs::words::inner::Reading::skip_blank))]
pub fn skip_blank(s: &str) -> &str
    ensures rest { result.now ≡ reading.skip_blank s.now }
    ensures within { length result.now ≤ length s.now }
{
    &s[blank_len(s.as_bytes())..]
}

/// The longest front of name bytes, and the rest.
#[tactic(auto, using(crate::proofs::laws::words::Runs::name_boundary))]
pub fn name_run(s: &str) -> (&str, &str)
    ensures parts { (result.0.now, result.1.now) ≡ split_while spec.is_name_byte s.now }
    ensures within { length result.1.now ≤ length s.now }
{
    s.split_at(name_len(s.as_bytes()))
}

/// The longest front of digits, and the rest.
#[tactic(auto, using(crate::proofs::laws::words::Runs::digit_boundary))]
pub(crate) fn digit_run(s: &str) -> (&str, &str)
    ensures parts { (result.0.now, result.1.now) ≡ split_while is_ascii_digit s.now }
    ensures within { length result.1.now ≤ length s.now }
{
    s.split_at(digit_len(s.as_bytes()))
}

/// The longest front of bytes of a function's name, and the rest.
#[tactic(auto, using(crate::proofs::laws::words::Runs::function_boundary))]
pub fn function_run(s: &str) -> (&str, &str)
    ensures parts { (result.0.now, result.1.now) ≡ split_while spec.is_function_byte s.now }
    ensures within { length result.1.now ≤ length s.now }
{
    s.split_at(function_len(s.as_bytes()))
}
