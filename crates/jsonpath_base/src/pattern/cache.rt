//! The cache of patterns of one call (RFC 9535, 2.4.6 and 2.4.7).
//!
//! A pattern is built when it is first needed, unless an earlier call has built it. It is then cached with its finder.
//! Patterns of the query are cached by their numbers, those of the document in the order in which they come.
ghost use Rattle.std.specs.Prelude.{◌≡◌, IfOk, IfErr, IfSome};
ghost use Rattle.jsonpath_base.specs.Prelude.{IsPatternBuildError};
ghost use Rattle.jsonpath_base.specs.Pattern.{is_entire, pattern_sought, found};

use crate::pattern::build_error::Built;
use crate::pattern::slots::{DocumentPatternSlots, Origin, PatternSlots};
use crate::pattern::weight::{MOST_WEIGHT, building_cost, byte_cost, weight_of};
use crate::pattern::{Finder, MatchKind, Pattern};
use std::alloc::{AllocError, Global};

/// A pattern, and what has to match it.
#[derive(Clone, Copy)]
pub struct PatternKey<'p> {
    pub pattern: &'p str,
    pub extent: MatchKind,
}

impl<'p> PatternKey<'p> {
    /// Returns its weight for `regex`.
    pub fn weight(self, alloc: Global) -> Result<usize, AllocError> {
        weight_of(alloc, self.pattern)
    }

    /// Returns what `match` or `search` returns for a text. It builds the pattern anew each time.
    pub fn is_found(self, alloc: Global, text: &str) -> Built<bool>
        ensures value { IfOk result (λ b. b ≡ found (is_entire self.entry.extent) self.entry.pattern.now text.now) }
        ensures refused { IfErr result (IsPatternBuildError (pattern_sought (is_entire self.entry.extent) self.entry.pattern.now)) }
    {
        let pattern = Pattern::build(alloc, self.pattern, self.extent)?;
        Ok(pattern.is_found(alloc, text)?)
    }
}

/// The number of finders that are cached for the patterns of a query, and for those of a document in one call. The
/// tables of one finder grow to some 10 MB.
const MOST_FINDERS: usize = 32;

/// Slots for patterns, with the finders of these patterns.
#[derive(Drop)]
pub struct QueryMatchers<'p> {
    cells: &'p PatternSlots,
    /// The finders, by the numbers of the slots. A slot has none if its pattern was not needed yet, or if its finder
    /// was dropped for a later one.
    finders: Vec<Option<Box<Finder<'p>>>>,
    /// The number of finders, and the number of the slot whose finder was made last.
    count: usize,
    last: usize,
}

impl<'p> QueryMatchers<'p> {
    ghost use Rattle.jsonpath_base.specs.Engine.{cells_of, finder_count};

    /// Returns the matchers for these slots, with no finder yet. It allocates nothing.
    #[inline(always)]
    pub fn new(alloc: Global, cells: &'p PatternSlots) -> Self
        ensures cells { cells_of result ≡ cells.entry }
        ensures none { finder_count result ≡ 0 }
    {
        QueryMatchers {
            cells,
            finders: Vec::new(alloc),
            count: 0,
            last: 0,
        }
    }

    /// Returns what the finder of this number returns for a text, if it searches for this pattern.
    #[inline(always)]
    fn ask(&mut self, number: usize, text: &str, asked: PatternKey<'_>) -> Option<bool>
        ensures { IfSome result (λ b. b ≡ found (is_entire asked.entry.extent) asked.entry.pattern.now text.now) }
    {
        let finder = self.finders.get_mut(number)?.as_mut()?;
        if !finder.is_of(asked.pattern, asked.extent) {
            return None;
        }
        Some(finder.is_found(text))
    }

    /// Returns what each byte of a searched text costs, if the finder of this number searches for this pattern.
    fn byte_cost(&self, number: usize, asked: PatternKey<'_>) -> Option<usize> {
        let finder = self.finders.get(number)?.as_ref()?;
        if finder.is_of(asked.pattern, asked.extent) {
            return Some(finder.byte_cost());
        }
        None
    }

    /// Returns the first number whose finder searches for this pattern, or else the number after the last.
    fn number(&self, asked: PatternKey<'_>) -> usize {
        let count = self.finders.len();
        for number in 0..count {
            if self.byte_cost(number, asked).is_some() {
                return number;
            }
        }
        count
    }

    /// Makes room for one more finder. Where there are too many, it drops the one that was made last, so that of
    /// patterns that are needed in turn most keep theirs.
    fn make_room(&mut self) {
        if self.count < MOST_FINDERS {
            self.count += 1;
        } else if let Some(finder) = self.finders.get_mut(self.last) {
            *finder = None;
        }
    }

    /// Makes the finder of this number for the pattern, if its slot holds this pattern or is empty.
    fn make(&mut self, alloc: Global, number: usize, asked: PatternKey<'_>) -> Built<()>
        ensures { IfErr result (IsPatternBuildError (pattern_sought (is_entire asked.entry.extent) asked.entry.pattern.now)) }
    {
        let cells = self.cells;
        let Some(cell) = cells.cell(number) else {
            return Ok(());
        };
        if cell.get().is_none() {
            let pattern = Pattern::build(alloc, asked.pattern, asked.extent)?;
            let _ = cell.set(Box::new(alloc, pattern)?);
        }
        match cell.get() {
            Some(pattern) if pattern.is_of(asked.pattern, asked.extent) => {
                Ok(self.store(alloc, number, pattern)?)
            }
            _ => Ok(()),
        }
    }

    /// Stores a finder for this pattern at this number.
    fn store(
        &mut self,
        alloc: Global,
        number: usize,
        pattern: &'p Pattern,
    ) -> Result<(), AllocError> {
        let finder = Box::new(alloc, pattern.finder(alloc)?)?;
        for _ in self.finders.len()..number.saturating_add(1) {
            self.finders.push(None)?;
        }
        self.make_room();
        self.last = number;
        if let Some(place) = self.finders.get_mut(number) {
            *place = Some(finder);
        }
        Ok(())
    }
}

/// The patterns of a call, with their finders.
#[derive(Drop)]
pub struct PatternCache<'s, 'p> {
    /// The patterns of the query. Their finders can outlast the call.
    pub query: QueryMatchers<'p>,
    /// The slots of the patterns that come from the document, and their finders, once there is one.
    cells: &'s DocumentPatternSlots,
    document_matchers: Option<QueryMatchers<'s>>,
    /// The number of the document's pattern that was needed last.
    last: usize,
    /// The sum of the weights of the document's patterns.
    weight: usize,
}

impl<'s, 'p> PatternCache<'s, 'p> {
    /// Returns the cache with the matchers of the query, and these slots for patterns that come from the document. It
    /// allocates nothing.
    #[inline(always)]
    pub fn new(query: QueryMatchers<'p>, cells: &'s DocumentPatternSlots) -> Self
        ensures { result.query ≡ query.entry }
    {
        PatternCache {
            query,
            cells,
            document_matchers: None,
            last: 0,
            weight: 0,
        }
    }

    /// Returns what `match` or `search` returns for a text and a pattern. It fails where [`Pattern::new`] does. A
    /// number only says where to look: where it has no slot, or the slot holds another pattern, the pattern is treated
    /// as one that comes from the document. Of these the first 32 are cached, except those that bring the sum of the
    /// weights above [`MOST_WEIGHT`]. A pattern that is not cached is built at each use.
    pub fn is_found(
        &mut self,
        alloc: Global,
        text: &str,
        asked: PatternKey<'_>,
        origin: Origin,
    ) -> Built<bool>
        ensures value { IfOk result (λ b. b ≡ found (is_entire asked.entry.extent) asked.entry.pattern.now text.now) }
        ensures refused { IfErr result (IsPatternBuildError (pattern_sought (is_entire asked.entry.extent) asked.entry.pattern.now)) }
    {
        if let Origin::Query(number) = origin {
            if let Some(found) = self.query.ask(number, text, asked) {
                return Ok(found);
            }
            self.query.make(alloc, number, asked)?;
            if let Some(found) = self.query.ask(number, text, asked) {
                return Ok(found);
            }
        }
        if let Some(found) = self.ask_document(self.last, text, asked) {
            return Ok(found);
        }
        let number = self.document_number(alloc, asked)?;
        match self.ask_document(number, text, asked) {
            Some(found) => Ok(found),
            None => asked.is_found(alloc, text),
        }
    }

    /// Returns what such a search costs, in units of work beside one for each byte: what the search takes, and what
    /// building the pattern takes if it is not cached.
    pub fn cost(
        &self,
        alloc: Global,
        text: &str,
        asked: PatternKey<'_>,
        origin: Origin,
    ) -> Result<usize, AllocError> {
        if let Some(each) = self.cached_byte_cost(asked, origin) {
            return Ok(each.saturating_mul(text.len()));
        }
        let search = byte_cost(alloc, asked.pattern)?.saturating_mul(text.len());
        Ok(search.saturating_add(building_cost(alloc, asked.pattern)?))
    }

    /// Returns what each byte of a searched text costs, if the finder of this pattern is cached.
    fn cached_byte_cost(&self, asked: PatternKey<'_>, origin: Origin) -> Option<usize> {
        if let Origin::Query(number) = origin {
            if let Some(each) = self.query.byte_cost(number, asked) {
                return Some(each);
            }
        }
        let matchers = self.document_matchers.as_ref()?;
        match matchers.byte_cost(self.last, asked) {
            Some(each) => Some(each),
            None => matchers.byte_cost(matchers.number(asked), asked),
        }
    }

    /// Returns what the finder of this number returns for a text, among those of the document, if it searches for this
    /// pattern.
    #[inline(always)]
    fn ask_document(&mut self, number: usize, text: &str, asked: PatternKey<'_>) -> Option<bool>
        ensures { IfSome result (λ b. b ≡ found (is_entire asked.entry.extent) asked.entry.pattern.now text.now) }
    {
        let found = self.document_matchers.as_mut()?.ask(number, text, asked)?;
        self.last = number;
        Some(found)
    }

    /// Returns the number of a pattern among those of the document. A new pattern is cached there, if it can be.
    fn document_number(&mut self, alloc: Global, asked: PatternKey<'_>) -> Built<usize>
        ensures { IfErr result (IsPatternBuildError (pattern_sought (is_entire asked.entry.extent) asked.entry.pattern.now)) }
    {
        if self.document_matchers.is_none() {
            let cells = self.cells.made(alloc)?;
            self.document_matchers = cells.map(|cells| QueryMatchers::new(alloc, cells));
        }
        let Some(matchers) = &mut self.document_matchers else {
            return Ok(0);
        };
        let number = matchers.number(asked);
        if number < matchers.finders.len() {
            return Ok(number);
        }
        let weight = asked.weight(alloc)?.saturating_add(self.weight);
        if weight <= MOST_WEIGHT {
            matchers.make(alloc, number, asked)?;
            self.weight = weight;
        }
        Ok(number)
    }
}
