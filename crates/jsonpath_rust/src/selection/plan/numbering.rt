//! Numbers the constants and the patterns of a query, and decides when each query from the root is evaluated.
ghost use Rattle.jsonpath_base.specs.Prelude.Documents.{MemoryAlone};
ghost use Rattle.jsonpath_parser.specs.tree.Syntax as syntax;
ghost use Rattle.jsonpath_parser.specs.tree.View as tree;
ghost use Rattle.jsonpath_rust.specs.Prelude.Selection.{IsBeside, IsCompared, IsNumbered, Made, Single, argument_is_rooted};
ghost use Rattle.jsonpath_rust.specs.declared.selection.plan.Constant.TheVariants.{Comparison};
ghost use Rattle.jsonpath_rust.specs.selection.inner.PlanViews as plan;
ghost use Rattle.std.specs.Prelude.{IfOk, OnOk, false, ◌&&◌, ◌≡◌};

use super::make::Maker;
use super::{Constant, Expr, Filter};
use jsonpath_base::MatchKind;
use jsonpath_base::engine::{MOST_WEIGHT, PatternKey};
use jsonpath_parser::errors::Parsed;
use jsonpath_parser::model as tree;
use jsonpath_parser::model::Operator;
use std::alloc::{AllocError, Global};
use std::collections::BTreeMap;
use std::mem;

/// The number of levels of a document that all walks on the stack may take together. A level of an object was measured
/// to take 1.9 KB of stack, so together they take about 0.95 MB.
const MOST_LEVELS: usize = 500;

/// What a walk takes on the stack beside the document, in levels.
const LEVELS_BESIDE: usize = 3;

/// The number of levels that a walk may take in any case. On so few levels, walks take no more stack than reading the
/// query's text does.
const LEAST_LEVELS: usize = 1;

/// The levels of the deepest document that `serde_json` reads.
pub const DOCUMENT_LEVELS: usize = 127;

/// What the walk of a deep query takes on the stack in such a document, in levels.
const DEEP: usize = DOCUMENT_LEVELS + LEVELS_BESIDE;

/// A query with more segments than this is deep.
const FEW_SEGMENTS: usize = 8;

/// How deep queries from the root are nested in one another, at most.
///
/// A query is deep if its walk can reach any level of the document: it has a `..`, many segments, or a filter with a
/// relative query that takes a walk. Any other query is shallow, and its walk goes down one level for each segment.
#[derive(Clone, Copy)]
pub struct RootNesting {
    /// The number of deep queries.
    deep: usize,
    /// The levels of the shallow queries together, with what each takes beside the document.
    shallow: usize,
    /// The levels of the queries that are on the stack together if some queries are evaluated before the walk.
    pending: usize,
}

impl RootNesting {
    /// The nesting of no query.
    pub const NONE: RootNesting = RootNesting {
        deep: 0,
        shallow: 0,
        pending: 0,
    };

    /// Returns the greater of each of the numbers.
    fn max(self, other: RootNesting) -> RootNesting {
        RootNesting {
            deep: self.deep.max(other.deep),
            shallow: self.shallow.max(other.shallow),
            pending: self.pending.max(other.pending),
        }
    }

    /// Returns the number of levels that a document may have so that all of these queries, and the query around them,
    /// fit on the stack together.
    pub fn levels(self) -> usize {
        let share = MOST_LEVELS.saturating_sub(self.shallow) / self.deep.saturating_add(1);
        share.saturating_sub(LEVELS_BESIDE).max(LEAST_LEVELS)
    }

    /// Returns the nesting with a deep query around it.
    fn in_deep(self) -> RootNesting {
        RootNesting {
            deep: self.deep.saturating_add(1),
            shallow: self.shallow,
            pending: self.pending.saturating_add(DEEP),
        }
    }

    /// Returns the nesting with a shallow query around it, of `segments` segments.
    fn in_shallow(self, segments: usize) -> RootNesting {
        let levels = segments.saturating_add(LEVELS_BESIDE);
        RootNesting {
            deep: self.deep,
            shallow: self.shallow.saturating_add(levels),
            pending: self.pending.saturating_add(levels),
        }
    }

    /// Returns when the outermost query is evaluated. It is evaluated before the walk if it leaves no room on the stack
    /// for one more deep query around it. The count then starts again for the queries around it.
    fn outermost(&mut self) -> When {
        if self.pending.saturating_add(DEEP) <= MOST_LEVELS {
            return When::OnDemand;
        }
        self.pending = 0;
        When::BeforeWalk
    }
}

/// When a query from the root is evaluated.
#[derive(Clone, Copy)]
pub enum When {
    /// When it is first needed.
    OnDemand,
    /// Before the walk, if the document is deep.
    BeforeWalk,
}

/// Returns whether a query of these segments is deep, apart from its filters.
fn is_deep(segments: &[tree::Segment]) -> bool {
    if segments.len() > FEW_SEGMENTS {
        return true;
    }
    for segment in segments {
        if let tree::Segment::Descendant(_) = segment {
            return true;
        }
    }
    false
}

/// What was met in a part of a query.
#[derive(Clone, Copy)]
pub struct Scope {
    /// The greatest nesting of its constants.
    pub nesting: RootNesting,
    /// Whether no `@` of the filter around was met. An `@` in a filter of a query from the root inside it does not
    /// count.
    pub rooted: bool,
    /// Whether a relative query was met that takes a walk.
    pub walks: bool,
}

impl Scope {
    /// Nothing was met.
    pub const NOTHING: Scope = Scope {
        nesting: RootNesting::NONE,
        rooted: true,
        walks: false,
    };
}

impl<'q> Maker<'q> {
    /// Begins an expression, which collects what is met from now on. Returns what was met around it.
    pub fn begin(&mut self) -> Scope
        ensures { IsBeside self.new self.old result.rooted }
    {
        mem::replace(&mut self.scope, Scope::NOTHING)
    }

    /// Records an `@`.
    pub fn meet_current(&mut self)
        ensures { IsBeside self.old self.new false }
    {
        self.scope.rooted = false;
    }

    /// Records a relative query that takes a walk.
    pub fn meet_walk(&mut self)
        ensures { IsBeside self.old self.new self.old.scope.rooted }
    {
        self.scope.walks = true;
    }

    /// Ends an expression that is not a query. Returns whether it has no `@`.
    pub fn end(&mut self, around: Scope) -> bool
        ensures beside { IsBeside self.old self.new (around.rooted && self.old.scope.rooted) }
        ensures rooted { result ≡ self.old.scope.rooted }
    {
        let part = self.scope;
        self.scope = Scope {
            nesting: around.nesting.max(part.nesting),
            rooted: around.rooted && part.rooted,
            walks: around.walks || part.walks,
        };
        part.rooted
    }

    /// Ends a query from the root. Each `@` in it belongs to a filter of its own. Returns when it is evaluated.
    pub fn end_query(&mut self, around: Scope, segments: &[tree::Segment]) -> When
        ensures { IsBeside self.old self.new around.rooted }
    {
        let inner = self.scope;
        let mut nesting = if inner.walks || is_deep(segments) {
            inner.nesting.in_deep()
        } else {
            inner.nesting.in_shallow(segments.len())
        };
        let when = nesting.outermost();
        self.scope = Scope {
            nesting: around.nesting.max(nesting),
            rooted: around.rooted,
            walks: around.walks,
        };
        when
    }

    /// Adds a constant, and returns its number.
    pub fn number(&mut self, constant: Constant) -> Parsed<usize>
        ensures numbered { IfOk result (IsNumbered self.old self.new constant) }
        ensures memory { MemoryAlone result }
    {
        let number = self.constants.len();
        self.constants.push(constant)?;
        Ok(number)
    }

    /// Ends a comparison. If it has no `@`, it becomes a constant, and the filter is its number.
    pub fn compare(
        &mut self,
        operator: Operator,
        sides: (Expr, Expr),
        around: Scope,
    ) -> Parsed<Filter>
        ensures made { IfOk result (IsCompared around self.old self.new (Comparison operator sides.0 sides.1)) }
        ensures memory { MemoryAlone result }
    {
        let (left, right) = sides;
        if self.end(around) {
            let number = self.number(Constant::Comparison(operator, left, right))?;
            return Ok(Filter::Constant(number));
        }
        Ok(Filter::Comparison(operator, left, right))
    }
}

/// The patterns of a query that have a number. Equal patterns have the same number.
#[derive(Drop)]
pub struct PatternTable<'q> {
    /// The numbers, by whether the entire text has to match, and by the pattern.
    known: BTreeMap<(bool, &'q str), usize>,
    /// The sum of the weights of these patterns.
    weight: usize,
}

impl<'q> PatternTable<'q> {
    /// Returns an empty table.
    pub fn new(alloc: Global) -> Self {
        PatternTable {
            known: BTreeMap::new(alloc),
            weight: 0,
        }
    }

    /// Returns the number of patterns in the table.
    pub fn count(&self) -> usize {
        self.known.len()
    }

    /// Returns the number of a pattern. A pattern gets no number if the sum of the weights would be above
    /// [`MOST_WEIGHT`].
    fn number(
        &mut self,
        alloc: Global,
        asked: PatternKey<'q>,
    ) -> Result<Option<usize>, AllocError> {
        let key = (asked.extent.is_entire(), asked.pattern);
        if let Some(number) = self.known.get(&key) {
            return Ok(Some(*number));
        }
        let weight = asked.weight(alloc)?.saturating_add(self.weight);
        if weight > MOST_WEIGHT {
            return Ok(None);
        }
        let number = self.count();
        self.known.insert(key, number)?;
        self.weight = weight;
        Ok(Some(number))
    }
}

impl<'q> Maker<'q> {
    /// Makes a literal that is used as a pattern.
    pub fn literal_pattern(&mut self, literal: &'q tree::Literal, extent: MatchKind) -> Parsed<Expr>
        ensures made { IfOk result (λ p. Made argument_is_rooted self.old self.new (λ constants. plan.expr_view constants p Single)
            (syntax.literal_argument (tree.literal_view literal.now))) }
        ensures memory { MemoryAlone result }
    {
        match literal {
            tree::Literal::String(text) => match self.pattern_number(text, extent)? {
                Some(number) => Ok(Expr::Pattern(String::from_str(self.alloc, text)?, number)),
                None => Ok(Expr::Literal(literal.try_clone(self.alloc)?)),
            },
            _ => Ok(Expr::Literal(literal.try_clone(self.alloc)?)),
        }
    }

    /// Returns the number of a pattern, if it has one.
    fn pattern_number(&mut self, pattern: &'q str, extent: MatchKind) -> Parsed<Option<usize>>
        ensures beside { OnOk result (IsBeside self.old self.new self.old.scope.rooted) }
        ensures memory { MemoryAlone result }
    {
        let asked = PatternKey { pattern, extent };
        Ok(self.patterns.number(self.alloc, asked)?)
    }
}
