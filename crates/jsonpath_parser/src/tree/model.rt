//! The query tree (RFC 9535, 2.1 to 2.5).
ghost use Rattle.std.specs.Prelude.{◌≡◌, Some, IfOk, IfErr, IsOk, IsSome};
ghost use Rattle.jsonpath_parser.specs.Prelude.{atom_view, comparable_view, comparison_view, filter_view, Makes, operator_of, operator_view, OutOfMemory, query_view, segment_view, segments_view, selector_view, test_view};
ghost use Rattle.jsonpath_parser.specs.tree.Making.{comparison_of, sides};
ghost use Rattle.jsonpath_parser.specs.tree.Syntax as tree;

pub(crate) mod call;
mod clone;
pub(crate) mod display;
mod operator;
mod refusal;

pub use self::operator::Operator;
use self::refusal::invalid;
use crate::errors::{JsonPathError, Parsed};
use std::alloc::Global;

/// A query: its segments, in order.
#[derive(Debug, Drop, PartialEq)]
#[cycle(tree)]
pub struct JpQuery {
    pub segments: Vec<Segment>,
}

/// A segment, which replaces each node by nodes below it (2.5).
#[derive(Debug, Drop, PartialEq)]
#[cycle(tree)]
pub enum Segment {
    /// `..`: the segment at each node and at all nodes below it.
    Descendant(Box<Segment>),
    /// One selector.
    Selector(Selector),
    /// Several selectors, node by node and in their order.
    Selectors(Vec<Selector>),
}

/// What a segment picks among the children of a node (2.3).
#[derive(Debug, Drop, PartialEq)]
#[cycle(tree)]
pub enum Selector {
    /// The member of this name.
    Name(String),
    /// All children.
    Wildcard,
    /// The element of this index, counted from the end where it is negative.
    Index(i64),
    /// The elements from a start to before an end, by a step.
    Slice(Option<i64>, Option<i64>, Option<i64>),
    /// The children at which the filter holds.
    Filter(Filter),
}

/// A logical expression (2.3.5).
#[derive(Debug, Drop, PartialEq)]
#[cycle(tree)]
pub enum Filter {
    /// Some part holds.
    Or(Vec<Filter>),
    /// Every part holds.
    And(Vec<Filter>),
    /// One basic expression.
    Atom(FilterAtom),
}

/// A basic expression of a filter (2.3.5.1).
#[derive(Debug, Drop, PartialEq)]
#[cycle(tree)]
pub enum FilterAtom {
    /// A filter in parentheses, turned round where `not`.
    Filter { expr: Box<Filter>, not: bool },
    /// A test, turned round where `not`.
    Test { expr: Box<Test>, not: bool },
    /// A comparison of two values.
    Comparison(Box<Comparison>),
}

/// A comparison of its left and its right (2.3.5.2.2).
#[derive(Debug, Drop, PartialEq)]
#[cycle(tree)]
pub enum Comparison {
    /// `==`
    Eq(Comparable, Comparable),
    /// `!=`
    Ne(Comparable, Comparable),
    /// `>`
    Gt(Comparable, Comparable),
    /// `>=`
    Gte(Comparable, Comparable),
    /// `<`
    Lt(Comparable, Comparable),
    /// `<=`
    Lte(Comparable, Comparable),
}

/// A side of a comparison.
#[derive(Debug, Drop, PartialEq)]
#[cycle(tree)]
pub enum Comparable {
    /// A literal.
    Literal(Literal),
    /// What a function returns.
    Function(TestFunction),
    /// The value of the one node of a query, if it has one.
    SingularQuery(SingularQuery),
}

/// A query of at most one node (2.3.5.1).
#[derive(Debug, Drop, PartialEq)]
pub enum SingularQuery {
    /// `@`: from the current node.
    Current(Vec<SingularQuerySegment>),
    /// `$`: from the root.
    Root(Vec<SingularQuerySegment>),
}

/// A step of a singular query.
#[derive(Debug, Drop, PartialEq)]
pub enum SingularQuerySegment {
    /// To the element of this index, counted from the end where it is negative.
    Index(i64),
    /// To the member of this name.
    Name(String),
}

/// What is asked for existence or truth (2.3.5.2.1).
#[derive(Debug, Drop, PartialEq)]
#[cycle(tree)]
pub enum Test {
    /// `@` and segments: a query from the current node.
    RelQuery(Vec<Segment>),
    /// A query from the root.
    AbsQuery(JpQuery),
    /// A call of a function.
    Function(Box<TestFunction>),
}

/// A call of a function (2.4).
#[derive(Debug, Drop, PartialEq)]
#[cycle(tree)]
pub enum TestFunction {
    /// A function of any name.
    Custom(String, Vec<FnArg>),
    /// `length`
    Length(Box<FnArg>),
    /// `value`
    Value(FnArg),
    /// `count`
    Count(FnArg),
    /// `search`
    Search(FnArg, FnArg),
    /// `match`
    Match(FnArg, FnArg),
}

/// An argument of a call.
#[derive(Debug, Drop, PartialEq)]
#[cycle(tree)]
pub enum FnArg {
    /// A literal.
    Literal(Literal),
    /// A query or a call.
    Test(Box<Test>),
    /// A logical expression.
    Filter(Filter),
}

/// A literal (2.3.5.1).
#[derive(Debug, Drop, PartialEq)]
pub enum Literal {
    /// A whole number.
    Int(i64),
    String(String),
    Bool(bool),
    Null,
}

impl JpQuery {
    /// The query of these segments.
    pub fn new(segments: Vec<Segment>) -> Self
        ensures made { query_view result ≡ segments_view segments }
        ensures segments { result.segments ≡ segments }
    {
        JpQuery { segments }
    }
}

impl Segment {
    /// The segment of one name.
    ///
    /// # Errors
    ///
    /// `OutOfMemory` where memory ran out.
    pub fn name(alloc: Global, name: &str) -> Parsed<Self>
        ensures made { IfOk result (λ g. segment_view g ≡ tree.one (tree.name name.now)) }
        ensures memory { IfErr result (λ e. e ≡ OutOfMemory) }
    {
        Ok(Segment::Selector(Selector::Name(String::from_str(alloc, name)?)))
    }
}

/// The start, the end and the step of a slice; a part that is left out is `None` (2.3.4).
pub type SliceParts = (Option<i64>, Option<i64>, Option<i64>);

/// The slice of this start, end and step (2.3.4).
pub fn slice_from(parts: SliceParts) -> Selector
    ensures { selector_view result ≡ tree.slice parts.0 parts.1 parts.2 }
{
    let (start, end, step) = parts;
    Selector::Slice(start, end, step)
}

impl FilterAtom {
    /// The filter in parentheses, behind `!` where `not`.
    ///
    /// # Errors
    ///
    /// `OutOfMemory` where memory ran out.
    pub fn filter(alloc: Global, expr: Filter, not: bool) -> Parsed<Self>
        ensures made { IfOk result (λ a. atom_view a ≡ tree.group not (filter_view expr)) }
        ensures memory { IfErr result (λ e. e ≡ OutOfMemory) }
    {
        Ok(FilterAtom::Filter {
            expr: Box::new(alloc, expr)?,
            not,
        })
    }

    /// The test, behind `!` where `not`.
    ///
    /// # Errors
    ///
    /// `OutOfMemory` where memory ran out.
    pub fn test(alloc: Global, expr: Test, not: bool) -> Parsed<Self>
        ensures made { IfOk result (λ a. atom_view a ≡ tree.Filter.test not (test_view expr)) }
        ensures memory { IfErr result (λ e. e ≡ OutOfMemory) }
    {
        Ok(FilterAtom::Test {
            expr: Box::new(alloc, expr)?,
            not,
        })
    }

    /// The comparison.
    pub fn cmp(comparison: Box<Comparison>) -> Self
        ensures { atom_view result ≡ comparison_view comparison.value }
    {
        FilterAtom::Comparison(comparison)
    }
}

impl Comparison {
    /// The comparison by this operator: `==`, `!=`, `>`, `>=`, `<` or `<=` (2.3.5.1).
    ///
    /// # Errors
    ///
    /// - `InvalidJsonPath` for any other text.
    /// - `OutOfMemory` where the message of that refusal could not grow.
    pub fn try_new(alloc: Global, op: &str, left: Comparable, right: Comparable) -> Parsed<Self>
        ensures made { Makes comparison_view result (comparison_of op.now (comparable_view left) (comparable_view right)) }

        // With one of the six it takes no memory.
        ensures succeeds { IsSome (operator_of op.now) → IsOk result }
    {
        let Some(operator) = Operator::of(op) else {
            // A call of `drop` is proved at once; where a scope ends, each variant is a case.
            drop(left);
            drop(right);
            return Err(invalid(alloc, "no comparison operator: ", op));
        };
        Ok(operator.compare(left, right))
    }

    /// The operator, left and right.
    #[inline(always)]
    pub fn parts(&self) -> (Operator, &Comparable, &Comparable)
        ensures { comparison_view self.now ≡ tree.compare (operator_view result.0) (comparable_view result.1.now) (comparable_view result.2.now) }
    {
        match self {
            Comparison::Eq(left, right) => (Operator::Equal, left, right),
            Comparison::Ne(left, right) => (Operator::NotEqual, left, right),
            Comparison::Gt(left, right) => (Operator::Greater, left, right),
            Comparison::Gte(left, right) => (Operator::GreaterOrEqual, left, right),
            Comparison::Lt(left, right) => (Operator::Less, left, right),
            Comparison::Lte(left, right) => (Operator::LessOrEqual, left, right),
        }
    }

    /// Left and right.
    pub fn vals(&self) -> (&Comparable, &Comparable)
        ensures { Some (comparable_view result.0.now, comparable_view result.1.now) ≡ sides (comparison_view self.now) }
    {
        let (_, left, right) = self.parts();
        (left, right)
    }
}
