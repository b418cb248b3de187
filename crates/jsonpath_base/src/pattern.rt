//! The patterns of `match` and `search` (RFC 9535, 2.4.6 and 2.4.7).
//!
//! A `Pattern` is read once, and a `Finder` searches many texts for it. `cache` holds the patterns of one call with
//! their finders, and `slots` the places where patterns are built. `groupless` builds a pattern without its groups,
//! `weight` estimates what a pattern costs, and `build_error` says why one cannot be built.
ghost use Rattle.std.specs.Prelude.{◌≡◌, ◌↔◌, ◌++◌, ◌==◌, IsTrue, false, is_some, chars, IfOk, IfErr, OnOk, string_bytes, encode_utf8_all};
ghost use Rattle.jsonpath_base.specs.Pattern.{translated, reading, wrapped, is_entire, pattern_sought, found, IsPatternRefusal, IsPatternBuildError};
ghost use Rattle.jsonpath_base.specs.inner.PatternParts.{written, inside_after, escaped_after, FindsSame, MatchesSame};

pub mod build_error;
pub mod cache;
pub mod groupless;
pub mod slots;
pub mod weight;

use crate::pattern::build_error::Built;
use crate::pattern::groupless::{Matcher, Regex};
use crate::pattern::weight::byte_cost;
use jsonpath_parser::errors::Parsed;
use regex_syntax::{Config, ErrorKind, parse};
use std::alloc::{AllocError, Global};

/// Says what has to match a pattern.
#[derive(Clone, Copy)]
pub enum MatchKind {
    /// The entire text, as for `match`.
    Full,
    /// Some substring, as for `search`.
    Partial,
}

impl MatchKind {
    /// Returns whether it is the entire text.
    #[inline(always)]
    pub fn is_entire(self) -> bool
        ensures { result ≡ is_entire self }
    {
        match self {
            MatchKind::Full => true,
            MatchKind::Partial => false,
        }
    }
}

/// A pattern that is read once, to search many texts for.
#[derive(Drop)]
pub struct Pattern {
    source: String,
    extent: MatchKind,
    byte_cost: usize,
    // None where no text can match
    regex: Option<Regex>,
    ghost same: { FindsSame (pattern_sought (is_entire extent) (string_bytes source)) regex },
}

impl Pattern {
    ghost use Rattle.jsonpath_base.specs.PatternViews.{source_of, is_for_match, pattern_of};

    /// Reads a pattern, for `match` or for `search`. A pattern that `regex` cannot read matches no text. Counted
    /// repetitions are built as if they were written out, so `(a{1000}){1000}` costs as much as a million characters.
    ///
    /// # Errors
    ///
    /// `InvalidJsonPath` where `regex` can read it and refuses it for its size; `OutOfMemory` where memory ran out.
    pub fn new(alloc: Global, pattern: &str, extent: MatchKind) -> Parsed<Pattern>
        ensures source { IfOk result (λ p. source_of p ≡ pattern.now) }
        ensures extent { IfOk result (λ p. is_for_match p ≡ is_entire extent) }
        ensures refused { IfErr result (IsPatternRefusal (pattern_sought (is_entire extent) pattern.now)) }
    {
        match Pattern::build(alloc, pattern, extent) {
            Ok(read) => Ok(read),
            Err(unbuilt) => Err(unbuilt.into_error(alloc)),
        }
    }

    /// Reads a pattern as [`Pattern::new`] does, with an error that has no text.
    pub(crate) fn build(alloc: Global, pattern: &str, extent: MatchKind) -> Built<Pattern>
        ensures source { IfOk result (λ p. source_of p ≡ pattern.now) }
        ensures extent { IfOk result (λ p. is_for_match p ≡ is_entire extent) }
        ensures refused { IfErr result (IsPatternBuildError (pattern_sought (is_entire extent) pattern.now)) }
    {
        let byte_cost = byte_cost(alloc, pattern)?;
        let regex = built_for(alloc, pattern, extent)?;
        let source = String::from_str(alloc, pattern)?;
        Ok(Pattern {
            source,
            extent,
            byte_cost,
            regex,
        })
    }

    /// Returns the text of the pattern.
    pub fn source(&self) -> &str
        ensures { result.now ≡ source_of self.now }
    {
        self.source.as_str()
    }

    /// Returns what has to match the pattern.
    pub fn extent(&self) -> MatchKind
        ensures { is_entire result ≡ is_for_match self.now }
    {
        self.extent
    }

    /// Returns whether it was read from this text, and for this kind of match.
    pub fn is_of(&self, pattern: &str, extent: MatchKind) -> bool
        ensures { IsTrue result ↔ (source_of self.now ≡ pattern.now) × (is_for_match self.now ≡ is_entire extent) }
    {
        extent.is_entire() == self.extent.is_entire() && self.source.as_str() == pattern
    }

    /// Returns a finder, which caches what one search has computed for the next.
    pub fn finder(&self, alloc: Global) -> Result<Finder<'_>, AllocError>
        ensures pattern { IfOk result (λ f. pattern_of f ≡ self.now) }
    {
        let matcher = match &self.regex {
            Some(regex) => Some(regex.matcher(alloc)?),
            None => None,
        };
        Ok(Finder {
            pattern: self,
            matcher,
        })
    }

    /// Returns what `match` or `search` returns for a text. For many texts a [`Finder`] is faster.
    pub fn is_found(&self, alloc: Global, text: &str) -> Result<bool, AllocError>
        ensures value { IfOk result (λ b. b ≡ found (is_for_match self.now) (source_of self.now) text.now) }
    {
        let mut finder = self.finder(alloc)?;
        Ok(finder.is_found(text))
    }
}

/// Searches many texts for one pattern.
#[derive(Drop)]
pub struct Finder<'p> {
    pattern: &'p Pattern,
    // None where no text can match
    matcher: Option<Matcher<'p>>,
    ghost same: { MatchesSame (pattern_sought (is_entire pattern.now.extent) (string_bytes pattern.now.source)) matcher },
}

impl<'p> Finder<'p> {
    ghost use Rattle.jsonpath_base.specs.PatternViews.{source_of, is_for_match, pattern_of};

    /// Returns whether its pattern was read from this text, and for this kind of match.
    pub fn is_of(&self, pattern: &str, extent: MatchKind) -> bool
        ensures { IsTrue result ↔ (source_of (pattern_of self.now) ≡ pattern.now) × (is_for_match (pattern_of self.now) ≡ is_entire extent) }
    {
        self.pattern.is_of(pattern, extent)
    }

    /// Returns the units of work that each byte of a searched text costs, in addition to one.
    pub(crate) fn byte_cost(&self) -> usize {
        self.pattern.byte_cost
    }

    /// Returns what `match` or `search` returns for a text. It never fails: where memory runs out, it searches more
    /// slowly.
    pub fn is_found(&mut self, text: &str) -> bool
        ensures value { result ≡ found (is_for_match (pattern_of self.old)) (source_of (pattern_of self.old)) text.now }
        ensures same { pattern_of self.new ≡ pattern_of self.old }
    {
        match &mut self.matcher {
            Some(matcher) => matcher.is_match(text),
            None => false,
        }
    }
}

/// Returns what `match` returns for a text and a pattern if `whole`, else what `search` returns. It reads the pattern
/// anew each time; see [`Pattern`].
///
/// # Errors
///
/// Those of [`Pattern::new`].
pub fn found(alloc: Global, text: &str, pattern: &str, whole: bool) -> Parsed<bool>
    ensures value { IfOk result (λ b. b ≡ found whole pattern.now text.now) }
    ensures refused { IfErr result (IsPatternRefusal (pattern_sought whole pattern.now)) }
{
    let read = Pattern::new(alloc, pattern, extent_of(whole))?;
    Ok(read.is_found(alloc, text)?)
}

/// Returns `Full` if `whole`, else `Partial`.
fn extent_of(whole: bool) -> MatchKind
    ensures { is_entire result ≡ whole }
{
    if whole {
        MatchKind::Full
    } else {
        MatchKind::Partial
    }
}

/// Returns the regex of a pattern, or None where no text can match.
fn built_for(alloc: Global, pattern: &str, extent: MatchKind) -> Built<Option<Regex>>
    ensures same { IfOk result (FindsSame (pattern_sought (is_entire extent) pattern.now)) }
    ensures refused { IfErr result (IsPatternBuildError (pattern_sought (is_entire extent) pattern.now)) }
{
    let text = translate(alloc, pattern)?;
    if !extent.is_entire() {
        return Regex::new(alloc, text.as_str());
    }
    if !is_read(alloc, text.as_str())? {
        return Ok(None);
    }
    let text = wrap(alloc, text.as_str())?;
    Regex::new(alloc, text.as_str())
}

/// Returns whether `regex` can read a text.
fn is_read(alloc: Global, text: &str) -> Result<bool, AllocError>
    ensures { IfOk result (λ b. b ≡ is_some (reading (chars text.now))) }
{
    let Err(error) = parse(alloc, text, &Config::default()) else {
        return Ok(true);
    };
    match error.kind {
        ErrorKind::OutOfMemory => Err(AllocError),
        _ => Ok(false),
    }
}

/// Returns the pattern that matches a text only as a whole.
fn wrap(alloc: Global, text: &str) -> Result<String, AllocError>
    ensures spelled { IfOk result (λ w. chars (string_bytes w) ≡ wrapped (chars text.now)) }
{
    let mut anchored = String::from_str(alloc, "^(?:")?;
    anchored.push_str(text)?;
    anchored.push_str(")$")?;
    Ok(anchored)
}

/// Returns the pattern with `[^\n\r]` for each `.` that is outside a class and not after a backslash.
fn translate(alloc: Global, pattern: &str) -> Result<String, AllocError>
    ensures value { IfOk result (λ t. string_bytes t ≡ encode_utf8_all (translated false (chars pattern.now))) }
    ensures spelled { IfOk result (λ t. chars (string_bytes t) ≡ translated false (chars pattern.now)) }
{
    let mut text = String::new(alloc);
    let mut inside = false;
    let mut escaped = false;
    for c in pattern.chars() {
        push_written(&mut text, inside, escaped, c)?;
        inside = is_inside_after(inside, escaped, c);
        escaped = is_escaped_after(escaped, c);
    }
    Ok(text)
}

/// Appends what one character of a pattern becomes.
fn push_written(text: &mut String, inside: bool, escaped: bool, c: char) -> Result<(), AllocError>
    ensures value { OnOk result (string_bytes text.new ≡ string_bytes text.old ++ encode_utf8_all (written inside escaped c)) }
{
    if !escaped && !inside && c == '.' {
        text.push_str("[^\\n\\r]")?;
    } else {
        text.push(c)?;
    }
    Ok(())
}

/// Returns whether the next character is inside a class.
fn is_inside_after(inside: bool, escaped: bool, c: char) -> bool
    ensures { result ≡ inside_after inside escaped c }
{
    if escaped || c == '\\' {
        inside
    } else if inside {
        c != ']'
    } else {
        c == '['
    }
}

/// Returns whether the next character is after a backslash that counts.
fn is_escaped_after(escaped: bool, c: char) -> bool
    ensures { result ≡ escaped_after escaped c }
{
    !escaped && c == '\\'
}
