//! The place of a cursor.
ghost use Rattle.std.specs.Prelude.{◌≡◌, ◌-◌, ◌==◌, length, drop};
ghost use Rattle.jsonpath_parser.specs.Prelude.{IsCharBoundary, rest_of, text_of};
ghost use Rattle.jsonpath_parser.specs.Parts.{place_of};

use super::Cursor;

/// Where in the text its end stands.
#[tactic(auto, using(crate::proofs::PartLaws::place_boundary))]
fn place(text: &str, end: &str) -> usize
    requires { drop (length text.now - length end.now) text.now ≡ end.now }
    ensures place { result ≡ length text.now - length end.now }
    ensures boundary { IsCharBoundary text.now result }
{
    text.len().saturating_sub(end.len())
}

impl<'t> Cursor<'t> {
    /// The start of the text.
    pub fn new(text: &'t str) -> Self
        ensures text { text_of result ≡ text.now }
        ensures rest { rest_of result ≡ text.now }
    {
        Cursor { text, rest: text }
    }

    /// The whole text.
    pub fn text(&self) -> &'t str
        ensures { result.now ≡ text_of self.now }
    {
        self.text
    }

    /// The place, as a count of bytes from the start. It stands between two characters, or at an end of the text.
    pub fn at(&self) -> usize
        ensures place { result ≡ place_of self.now }
        ensures boundary { IsCharBoundary (text_of self.now) result }
        ensures behind { drop result (text_of self.now) ≡ rest_of self.now }
    {
        place(self.text, self.rest)
    }

    /// Whether no text is left.
    pub fn at_end(&self) -> bool
        ensures { result ≡ (length (rest_of self.now) == 0) }
    {
        self.rest.is_empty()
    }
}
