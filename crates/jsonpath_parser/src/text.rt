//! Texts by their scalar values: their length, and their order (RFC 9535, 2.4.4 and 2.3.5.2.2).
ghost use Rattle.std.specs.Prelude.{◌≡◌, length};
ghost use Rattle.std.specs.Str.{chars};
ghost use Rattle.jsonpath_parser.specs.Prelude.{is_less};

/// How many scalar values a text has, as the function `length` counts them (RFC 9535, 2.4.4). Linear in the bytes.
pub fn text_length(text: &str) -> usize
    ensures { result ≡ length (chars text.now) }
{
    if text.is_ascii() {
        return text.len();
    }
    text.chars().count()
}

/// Whether the left text is less than the right one: at the first scalar value that differs its own is lower, or it is a proper
/// beginning of the right one (RFC 9535, 2.3.5.2.2).
pub fn text_less(left: &str, right: &str) -> bool
    ensures { result ≡ is_less (chars left.now) (chars right.now) }
{
    left < right
}
