//! Builds regexes without the groups of their patterns. Groups make no difference to whether there is a match, but the
//! tables of `regex` have room for each group at each place of a pattern.
ghost use Rattle.std.specs.Prelude.{◌≡◌, map, is_some, chars, IfOk, IfErr};
ghost use Rattle.regex.specs.Patterns.{find_str};
ghost use Rattle.regex.specs.Utf8.{MatchesText};
ghost use Rattle.regex_hir.specs.Meaning.{meaning};
ghost use Rattle.regex_meta.specs.Programs.{pattern_of};
ghost use Rattle.jsonpath_base.specs.Pattern.{reading, IsPatternBuildError};
ghost use Rattle.jsonpath_base.specs.inner.Groups.{without_groups, IsTreeOf};

use crate::pattern::build_error::{Built, PatternBuildError};
use regex_compile::Error;
use regex_hir::Hir;
use regex_meta::{Program, Searcher};
use regex_syntax::{Config, ErrorKind, Parsed, parse};
use std::alloc::{AllocError, Global};

/// The number of bytes, about, that the tables of one regex may take. `regex` has the same limit.
const MOST_BYTES: usize = 10 << 20;

/// A pattern that was read and built.
#[derive(Drop)]
pub struct Regex {
    program: Program,
    ghost whole_characters: { MatchesText (pattern_of program) },
}

impl Regex {
    ghost use Rattle.jsonpath_base.specs.inner.PatternParts.{FindsSame, regex_pattern, matcher_pattern};

    /// Returns the regex of a text, or None where `regex` cannot read it.
    pub fn new(alloc: Global, text: &str) -> Built<Option<Regex>>
        ensures same { IfOk result (FindsSame (reading (chars text.now))) }
        ensures refused { IfErr result (IsPatternBuildError (reading (chars text.now))) }
    {
        let Some(tree) = tree_of(alloc, text)? else {
            return Ok(None);
        };
        match Program::new(alloc, tree, 1, MOST_BYTES) {
            Ok(program) => Ok(Some(Regex { program })),
            Err(Error::OutOfMemory) => Err(PatternBuildError::Memory),
            Err(Error::TooBig) => Err(PatternBuildError::TooLarge),
            Err(Error::Malformed) => Err(PatternBuildError::TooLarge),
        }
    }

    /// Returns a matcher, which searches for the pattern.
    pub fn matcher(&self, alloc: Global) -> Result<Matcher<'_>, AllocError>
        ensures pattern { IfOk result (λ m. matcher_pattern m ≡ regex_pattern self.now) }
    {
        let searcher = Searcher::new(alloc, &self.program)?;
        Ok(Matcher { searcher })
    }
}

/// Searches for a pattern.
#[derive(Drop)]
pub struct Matcher<'r> {
    searcher: Searcher<'r>,
    ghost whole_characters: { MatchesText (pattern_of searcher.program.now) },
}

impl<'r> Matcher<'r> {
    ghost use Rattle.jsonpath_base.specs.inner.PatternParts.{matcher_pattern};

    /// Returns whether the pattern matches somewhere in the text.
    pub fn is_match(&mut self, text: &str) -> bool
        ensures found { result ≡ is_some (find_str (matcher_pattern self.old) text.now 0) }
        ensures same { matcher_pattern self.new ≡ matcher_pattern self.old }
    {
        // A match that is not empty starts at the start of a character.
        if self.searcher.program.min_len > 0 {
            self.searcher.is_match(text.as_bytes(), 0)
        } else {
            self.is_match_between_characters(text)
        }
    }

    /// Returns whether the pattern matches, where an empty match may be inside a character.
    fn is_match_between_characters(&mut self, text: &str) -> bool
        ensures found { result ≡ is_some (find_str (matcher_pattern self.old) text.now 0) }
        ensures same { matcher_pattern self.new ≡ matcher_pattern self.old }
    {
        let bytes = text.as_bytes();
        let mut at = 0;
        'places: loop {
            let Some((from, _)) = self.searcher.find(bytes, at) else {
                return false;
            };
            if text.is_char_boundary(from) {
                return true;
            }
            at = from + 1;
        }
    }
}

/// Returns the tree of a text without its groups, or None where `regex` cannot read it.
fn tree_of(alloc: Global, text: &str) -> Built<Option<Hir>>
    ensures same { IfOk result (IsTreeOf (reading (chars text.now))) }
    ensures refused { IfErr result (IsPatternBuildError (reading (chars text.now))) }
{
    let Parsed { hir, names } = match parse(alloc, text, &Config::default()) {
        Ok(parsed) => parsed,
        Err(error) => match error.kind {
            ErrorKind::OutOfMemory => return Err(PatternBuildError::Memory),
            _ => return Ok(None),
        },
    };
    if names.len() < 2 {
        return Ok(Some(hir));
    }
    Ok(Some(copy_without_groups(alloc, &hir)?))
}

#[cycle(copy)]
fn copy_without_groups(alloc: Global, hir: &Hir) -> Result<Hir, AllocError>
    ensures { IfOk result (λ new. meaning new ≡ without_groups (meaning hir.now)) }
{
    match hir {
        Hir::Empty => Ok(Hir::Empty),
        Hir::Literal(bytes) => Ok(Hir::Literal(Vec::from_slice(alloc, bytes)?)),
        Hir::Bytes(class) => Ok(Hir::Bytes(class.clone()?)),
        Hir::Chars(class) => Ok(Hir::Chars(class.clone()?)),
        Hir::Look(look) => Ok(Hir::Look(*look)),
        Hir::Repetition {
            min,
            max,
            greedy,
            sub,
        } => Ok(Hir::Repetition {
            min: *min,
            max: *max,
            greedy: *greedy,
            sub: Box::new(alloc, copy_without_groups(alloc, sub)?)?,
        }),
        Hir::Capture { sub, .. } => copy_without_groups(alloc, sub),
        Hir::Concat(subs) => Ok(Hir::Concat(copies_without_groups(alloc, subs)?)),
        Hir::Alternation(subs) => Ok(Hir::Alternation(copies_without_groups(alloc, subs)?)),
    }
}

#[cycle(copy)]
fn copies_without_groups(alloc: Global, subs: &[Hir]) -> Result<Vec<Hir>, AllocError>
    ensures { IfOk result (λ new. map meaning new.items ≡ map without_groups (map meaning subs.now)) }
{
    let mut all = Vec::with_capacity(alloc, subs.len())?;
    for i in 0..subs.len() {
        all.push(copy_without_groups(alloc, &subs[i])?)?;
    }
    Ok(all)
}
