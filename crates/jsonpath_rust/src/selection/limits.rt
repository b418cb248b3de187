//! Limits of work: what a caller may set (`Unlimited` or `Units`), why a limited call fails (`LimitError`), and the
//! budget that a walk spends.
ghost use Rattle.jsonpath_base.specs.documents.Document.{Document};
ghost use Rattle.jsonpath_base.specs.documents.Patterns.{IsStop, segments_patterns};
ghost use Rattle.jsonpath_parser.specs.tree.Syntax.{Query};
ghost use Rattle.jsonpath_parser.specs.tree.Typing.{is_singular};
ghost use Rattle.jsonpath_parser.specs.tree.View.{query_view};
ghost use Rattle.jsonpath_rust.specs.Prelude.Selection.{IsSpent, Limited, Unlimited};
ghost use Rattle.jsonpath_rust.specs.selection.Condition.{expression_of, tests_singular};
ghost use Rattle.jsonpath_rust.specs.selection.LimitError.{StopsUnits};
ghost use Rattle.jsonpath_rust.specs.selection.inner.Halting.{IsWalkError, limit_of};
ghost use Rattle.std.specs.Prelude.{Bool, IfErr, IsTrue, OnErr, OnOk, [], false, is_some, true, ◌+◌, ◌<◌, ◌≡◌};

use crate::documents::walk_error::{WalkError, WalkResult};
use crate::selection::condition::is_one_singular_test;
use jsonpath_parser::errors::JsonPathError;
use jsonpath_parser::is_singular;
use jsonpath_parser::model::JpQuery;
use std::alloc::Global;
use thiserror::Error;

/// Says how much work each call of a runner may take: [`Unlimited`] or [`Units`].
pub trait Limit: Drop {
    /// The reason why a call has no result.
    type Error: Drop;

    /// Whether units are counted.
    ghost counts: { Bool };

    /// What an error means for a query and a document, of a call that is free or not.
    ghost stops: { Bool → Query → Document → Self.Error → Type 0 };

    /// Returns the units of a call that is not free, if they are counted.
    fn units(&self) -> Option<usize>
        ensures { is_some result ≡ counts };

    /// Returns the error of a call whose walk ended with an error. A call is free only where its query asks no pattern.
    fn error(alloc: Global, halt: WalkError) -> Self::Error
        ensures { (free : Bool) (q : Query) (doc : Document) → (IsTrue free → segments_patterns q ≡ []) →
            IsWalkError (limit_of counts free) (segments_patterns q) doc halt → stops free q doc result };
}

/// No limit of work.
#[derive(Debug, Drop)]
pub struct Unlimited;

/// A number of units of work for each call, for untrusted queries. Where they are not enough, a call returns
/// [`LimitError::Exhausted`].
///
/// A singular query, such as `$.a[0]` (RFC 9535, 2.3.5.1), looks up no more than the names and indexes that it has. It
/// is free, and no call of it returns [`LimitError::Exhausted`]. A condition that tests one singular query, such as
/// `!@.error[0]`, is free too. Any other query spends these units:
///
/// - One for each child that a `*`, a slice or `..` visits, and two for each child that a filter is evaluated on. These
///   are all members of an object and all elements of a list, except the elements that `first`, `only`, `has_node` and
///   existence tests do not visit.
/// - One for each selector where a segment has several, and one for each operand of `&&` and `||`.
/// - One for every 16 names and indexes of a look-up in a filter, such as `@.a.b`.
/// - One for each value in the smaller side of a comparison, and one for every 16 bytes of its texts and names.
/// - For `length`, one for each byte of a text, or for each member of an object.
/// - For `match` and `search`, one for each byte of the text that is searched, and one for each byte of a pattern in
///   the document or for every 16 bytes of a pattern in the query.
/// - For a pattern that is not cached, 256, and one for each of its characters where counted repetitions are written
///   out, but 2^20 at most, because `regex` refuses what is larger. A class such as `\w` or `\p{L}` counts as 700, one
///   such as `\d` as 71, a test for the end of a word such as `\b` as 8, and a pattern with the flag `x` as the
///   largest. In addition 100 for each group, 700 for each range after the flag `i`, and one for each literal that
///   `regex` copies to write out a choice of few, or to look for a run of them.
/// - For each byte of a text that is searched, one for every eight of these characters, where a class such as `\w` has
///   eight.
/// - One for each value that is passed to a custom function, spent before the call, and the product of the sizes of
///   these values. A size is the number of values in a value, and one for every 16 bytes of its texts and names.
///   `count` and `value` spend what their walks spend.
/// - One for every 64 bytes of the names in a path or a location that is returned. In addition one for every 16 steps
///   of a path and for every 4 steps of a location.
/// - One for each step of a location that is deleted or replaced, and one for every 16 bytes of that step's name. The
///   first steps that are the same as in the location before it are free. In addition, for each location that is
///   replaced, one for each value in what is put there and one for every 16 bytes of its texts and names.
/// - One for each value of the document that is visited to measure its depth. The depth is measured only where at least
///   three deep queries from the root are in one another, or more than ten shallow ones. A query is deep if its walk
///   can reach any level of the document: it has a `..`, more than eight segments, or a filter with a query from `@`
///   that takes a walk. Any other query is shallow.
///
/// The names and indexes of a walk cost nothing, and neither do parentheses, so a unit takes longer where the query is
/// longer. The time of a unit is measured; no clause states it. What is spent at once is counted first, as far as units
/// are left. So a call that returns [`LimitError::Exhausted`] may have listed the members of one object, and may have
/// counted a few times as many values as it had units. A type with the default `member_count` also lists an object each
/// time that a comparison needs its size, for one unit.
///
/// A unit takes about a kilobyte of memory in the worst case that was tried. Patterns take up to a gigabyte in
/// addition. The text of a query takes memory by its length, and no unit pays for that, so limit the length too. Where
/// the system refuses memory, as under `ulimit -v`, a call returns `OutOfMemory`.
#[derive(Debug, Drop)]
pub struct Units {
    count: usize,
}

impl Units {
    pub(crate) fn new(count: usize) -> Self {
        Units { count }
    }
}

impl Limit for Unlimited {
    type Error = JsonPathError;

    ghost counts = { false };

    ghost stops = { λ free q doc e. IsStop q doc e };

    fn units(&self) -> Option<usize> {
        None
    }

    fn error(alloc: Global, halt: WalkError) -> JsonPathError {
        halt.into_error(alloc)
    }
}

impl Limit for Units {
    type Error = LimitError;

    ghost counts = { true };

    ghost stops = { StopsUnits };

    fn units(&self) -> Option<usize> {
        Some(self.count)
    }

    fn error(alloc: Global, halt: WalkError) -> LimitError {
        match halt {
            WalkError::Spent => LimitError::Exhausted,
            halt => LimitError::Query(halt.into_error(alloc)),
        }
    }
}

/// Returns the budget of a query. A singular query is free.
pub fn query_budget<L: Limit>(limits: &L, query: &JpQuery) -> Budget
    ensures { result.limit ≡ limit_of L.counts (is_singular (query_view query.now)) }
{
    match limits.units() {
        None => Budget::unlimited(),
        Some(units) => {
            if is_singular(query) {
                Budget::unlimited()
            } else {
                Budget::of(units)
            }
        }
    }
}

/// Returns the budget of a condition, from its query `$[?..]`. A test of a singular query is free.
pub fn condition_budget<L: Limit>(limits: &L, query: &JpQuery) -> Budget
    ensures { result.limit ≡ limit_of L.counts (tests_singular (expression_of (query_view query.now))) }
{
    match limits.units() {
        None => Budget::unlimited(),
        Some(units) => {
            if is_one_singular_test(query) {
                Budget::unlimited()
            } else {
                Budget::of(units)
            }
        }
    }
}

/// The reason why a call with a limit of work has no result.
#[derive(Debug, Drop, PartialEq, Error)]
pub enum LimitError {
    /// The units were not enough.
    #[error("the units of work were not enough")]
    Exhausted,
    /// The call fails for a reason that has nothing to do with the limit.
    #[error("{0}")]
    Query(JsonPathError),
}

impl From<JsonPathError> for LimitError {
    ghost use Rattle.jsonpath_rust.specs.declared.selection.limits.LimitError.TheVariants as limit_error;

    ghost from_gives = { λ e s. s ≡ limit_error.Query e };

    fn from(error: JsonPathError) -> LimitError {
        LimitError::Query(error)
    }
}

/// Whether the work of a walk is limited.
#[derive(Clone, Copy, Debug)]
pub enum WorkLimit {
    Unlimited,
    Limited,
}

/// The units of work that are left to a walk, and whether they are limited.
#[derive(Clone, Copy, Debug)]
pub struct Budget {
    pub limit: WorkLimit,
    remaining: usize,
}

impl Budget {
    /// Returns a budget without a limit.
    pub fn unlimited() -> Self
        ensures { result.limit ≡ WorkLimit.Unlimited }
    {
        Budget {
            limit: WorkLimit::Unlimited,
            remaining: usize::MAX,
        }
    }

    /// Returns a budget of `units` units.
    pub fn of(units: usize) -> Self
        ensures limit { result.limit ≡ Limited }
        ensures remaining { result.remaining ≡ units }
    {
        Budget {
            limit: WorkLimit::Limited,
            remaining: units,
        }
    }

    /// Returns how many units are left.
    pub fn remaining(&self) -> usize {
        self.remaining
    }

    /// Spends units. Where fewer are left, a limited walk ends with an error and nothing is left, and a walk without a
    /// limit starts again with the greatest number.
    #[inline(always)]
    pub fn spend(&mut self, limit: WorkLimit, units: usize) -> WalkResult<()>
        ensures paid { OnOk result (limit ≡ Limited → self.new.remaining + units ≡ self.old.remaining) }
        ensures short { OnErr result (self.old.remaining < units) }
        ensures refused { IfErr result (IsSpent limit) }
    {
        if units <= self.remaining {
            self.remaining -= units;
            return Ok(());
        }
        match limit {
            WorkLimit::Unlimited => {
                self.remaining = usize::MAX;
                Ok(())
            }
            WorkLimit::Limited => {
                self.remaining = 0;
                Err(WalkError::Spent)
            }
        }
    }

    /// Spends units, faster than `spend` where that is often 0.
    #[inline(always)]
    pub fn spend_some(&mut self, limit: WorkLimit, units: usize) -> WalkResult<()>
        ensures paid { OnOk result (limit ≡ Limited → self.new.remaining + units ≡ self.old.remaining) }
        ensures refused { IfErr result (IsSpent limit) }
    {
        if units == 0 {
            return Ok(());
        }
        self.spend(limit, units)
    }
}
