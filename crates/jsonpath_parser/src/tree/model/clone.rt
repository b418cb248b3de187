//! Copies of the query tree and of its parts.
ghost use Rattle.std.specs.Prelude.{◌≡◌, IfOk, IfErr, map};
ghost use Rattle.jsonpath_parser.specs.Prelude.{argument_view, atom_view, call_view, comparable_view, comparison_view, filter_view, literal_view, OutOfMemory, query_view, segment_view, selector_view, singular_view, step_view, test_view};

use super::{
    Comparable, Comparison, Filter, FilterAtom, FnArg, JpQuery, Literal, Operator, Segment,
    Selector, SingularQuery, SingularQuerySegment, Test, TestFunction,
};
use crate::errors::Parsed;
use std::alloc::Global;

impl JpQuery {
    /// A query of the same tree, in time linear in it.
    ///
    /// # Errors
    ///
    /// `OutOfMemory` where memory ran out.
    #[cycle(clones)]
    pub fn try_clone(&self, alloc: Global) -> Parsed<Self>
        ensures same { IfOk result (λ q. query_view q ≡ query_view self.now) }
        ensures memory { IfErr result (λ e. e ≡ OutOfMemory) }
    {
        Ok(JpQuery::new(segments(alloc, &self.segments)?))
    }
}

#[cycle(clones)]
fn segments(alloc: Global, segments: &[Segment]) -> Parsed<Vec<Segment>>
    ensures same { IfOk result (λ v. map segment_view v.items ≡ map segment_view segments.now) }
    ensures memory { IfErr result (λ e. e ≡ OutOfMemory) }
{
    let mut copies = Vec::with_capacity(alloc, segments.len())?;
    'segments: for segment in segments {
        copies.push(segment.try_clone(alloc)?)?;
    }
    Ok(copies)
}

impl Segment {
    /// A segment of the same tree, in time linear in it.
    ///
    /// # Errors
    ///
    /// `OutOfMemory` where memory ran out.
    #[cycle(clones)]
    pub fn try_clone(&self, alloc: Global) -> Parsed<Self>
        ensures same { IfOk result (λ g. segment_view g ≡ segment_view self.now) }
        ensures memory { IfErr result (λ e. e ≡ OutOfMemory) }
    {
        match self {
            Segment::Descendant(segment) => {
                let segment = Box::new(alloc, segment.try_clone(alloc)?)?;
                Ok(Segment::Descendant(segment))
            }
            Segment::Selector(selector) => Ok(Segment::Selector(selector.try_clone(alloc)?)),
            Segment::Selectors(several) => Ok(Segment::Selectors(selectors(alloc, several)?)),
        }
    }
}

#[cycle(clones)]
fn selectors(alloc: Global, selectors: &[Selector]) -> Parsed<Vec<Selector>>
    ensures same { IfOk result (λ v. map selector_view v.items ≡ map selector_view selectors.now) }
    ensures memory { IfErr result (λ e. e ≡ OutOfMemory) }
{
    let mut copies = Vec::with_capacity(alloc, selectors.len())?;
    'selectors: for selector in selectors {
        copies.push(selector.try_clone(alloc)?)?;
    }
    Ok(copies)
}

impl Selector {
    /// A selector of the same tree, in time linear in it.
    ///
    /// # Errors
    ///
    /// `OutOfMemory` where memory ran out.
    #[cycle(clones)]
    pub fn try_clone(&self, alloc: Global) -> Parsed<Self>
        ensures same { IfOk result (λ s. selector_view s ≡ selector_view self.now) }
        ensures memory { IfErr result (λ e. e ≡ OutOfMemory) }
    {
        match self {
            Selector::Name(name) => Ok(Selector::Name(String::from_str(alloc, name)?)),
            Selector::Wildcard => Ok(Selector::Wildcard),
            Selector::Index(index) => Ok(Selector::Index(*index)),
            Selector::Slice(start, end, step) => Ok(Selector::Slice(*start, *end, *step)),
            Selector::Filter(filter) => Ok(Selector::Filter(filter.try_clone(alloc)?)),
        }
    }
}

#[cycle(clones)]
fn filters(alloc: Global, filters: &[Filter]) -> Parsed<Vec<Filter>>
    ensures same { IfOk result (λ v. map filter_view v.items ≡ map filter_view filters.now) }
    ensures memory { IfErr result (λ e. e ≡ OutOfMemory) }
{
    let mut copies = Vec::with_capacity(alloc, filters.len())?;
    'filters: for filter in filters {
        copies.push(filter.try_clone(alloc)?)?;
    }
    Ok(copies)
}

impl Filter {
    /// A filter of the same tree, in time linear in it.
    ///
    /// # Errors
    ///
    /// `OutOfMemory` where memory ran out.
    #[cycle(clones)]
    pub fn try_clone(&self, alloc: Global) -> Parsed<Self>
        ensures same { IfOk result (λ f. filter_view f ≡ filter_view self.now) }
        ensures memory { IfErr result (λ e. e ≡ OutOfMemory) }
    {
        match self {
            Filter::Or(parts) => Ok(Filter::Or(filters(alloc, parts)?)),
            Filter::And(parts) => Ok(Filter::And(filters(alloc, parts)?)),
            Filter::Atom(atom) => Ok(Filter::Atom(atom.try_clone(alloc)?)),
        }
    }
}

impl FilterAtom {
    /// An atom of the same tree, in time linear in it.
    ///
    /// # Errors
    ///
    /// `OutOfMemory` where memory ran out.
    #[cycle(clones)]
    pub fn try_clone(&self, alloc: Global) -> Parsed<Self>
        ensures same { IfOk result (λ a. atom_view a ≡ atom_view self.now) }
        ensures memory { IfErr result (λ e. e ≡ OutOfMemory) }
    {
        match self {
            FilterAtom::Filter { expr, not } => {
                FilterAtom::filter(alloc, expr.try_clone(alloc)?, *not)
            }
            FilterAtom::Test { expr, not } => {
                FilterAtom::test(alloc, expr.try_clone(alloc)?, *not)
            }
            FilterAtom::Comparison(comparison) => {
                let comparison = Box::new(alloc, comparison.try_clone(alloc)?)?;
                Ok(FilterAtom::cmp(comparison))
            }
        }
    }
}

impl Comparison {
    /// A comparison of the same tree, in time linear in it.
    ///
    /// # Errors
    ///
    /// `OutOfMemory` where memory ran out.
    #[cycle(clones)]
    pub fn try_clone(&self, alloc: Global) -> Parsed<Self>
        ensures same { IfOk result (λ c. comparison_view c ≡ comparison_view self.now) }
        ensures memory { IfErr result (λ e. e ≡ OutOfMemory) }
    {
        let (operator, left, right) = match self {
            Comparison::Eq(left, right) => (Operator::Equal, left, right),
            Comparison::Ne(left, right) => (Operator::NotEqual, left, right),
            Comparison::Gt(left, right) => (Operator::Greater, left, right),
            Comparison::Gte(left, right) => (Operator::GreaterOrEqual, left, right),
            Comparison::Lt(left, right) => (Operator::Less, left, right),
            Comparison::Lte(left, right) => (Operator::LessOrEqual, left, right),
        };
        let left = left.try_clone(alloc)?;
        let right = right.try_clone(alloc)?;
        Ok(operator.compare(left, right))
    }
}

impl Comparable {
    /// A side of the same tree, in time linear in it.
    ///
    /// # Errors
    ///
    /// `OutOfMemory` where memory ran out.
    #[cycle(clones)]
    pub fn try_clone(&self, alloc: Global) -> Parsed<Self>
        ensures same { IfOk result (λ c. comparable_view c ≡ comparable_view self.now) }
        ensures memory { IfErr result (λ e. e ≡ OutOfMemory) }
    {
        match self {
            Comparable::Literal(literal) => Ok(Comparable::Literal(literal.try_clone(alloc)?)),
            Comparable::Function(function) => Ok(Comparable::Function(function.try_clone(alloc)?)),
            Comparable::SingularQuery(query) => {
                Ok(Comparable::SingularQuery(query.try_clone(alloc)?))
            }
        }
    }
}

impl SingularQuery {
    /// A query of the same tree, in time linear in it.
    ///
    /// # Errors
    ///
    /// `OutOfMemory` where memory ran out.
    pub fn try_clone(&self, alloc: Global) -> Parsed<Self>
        ensures same { IfOk result (λ q. singular_view q ≡ singular_view self.now) }
        ensures memory { IfErr result (λ e. e ≡ OutOfMemory) }
    {
        match self {
            SingularQuery::Current(segments) => Ok(SingularQuery::Current(steps(alloc, segments)?)),
            SingularQuery::Root(segments) => Ok(SingularQuery::Root(steps(alloc, segments)?)),
        }
    }
}

fn steps(alloc: Global, steps: &[SingularQuerySegment]) -> Parsed<Vec<SingularQuerySegment>>
    ensures same { IfOk result (λ v. map step_view v.items ≡ map step_view steps.now) }
    ensures memory { IfErr result (λ e. e ≡ OutOfMemory) }
{
    let mut copies = Vec::with_capacity(alloc, steps.len())?;
    'steps: for step in steps {
        copies.push(step.try_clone(alloc)?)?;
    }
    Ok(copies)
}

impl SingularQuerySegment {
    /// The same step, in time linear in its name.
    ///
    /// # Errors
    ///
    /// `OutOfMemory` where memory ran out.
    pub fn try_clone(&self, alloc: Global) -> Parsed<Self>
        ensures same { IfOk result (λ s. step_view s ≡ step_view self.now) }
        ensures memory { IfErr result (λ e. e ≡ OutOfMemory) }
    {
        match self {
            SingularQuerySegment::Index(index) => Ok(SingularQuerySegment::Index(*index)),
            SingularQuerySegment::Name(name) => {
                Ok(SingularQuerySegment::Name(String::from_str(alloc, name)?))
            }
        }
    }
}

impl Test {
    /// A test of the same tree, in time linear in it.
    ///
    /// # Errors
    ///
    /// `OutOfMemory` where memory ran out.
    #[cycle(clones)]
    pub fn try_clone(&self, alloc: Global) -> Parsed<Self>
        ensures same { IfOk result (λ t. test_view t ≡ test_view self.now) }
        ensures memory { IfErr result (λ e. e ≡ OutOfMemory) }
    {
        match self {
            Test::RelQuery(query) => Ok(Test::RelQuery(segments(alloc, query)?)),
            Test::AbsQuery(query) => Ok(Test::AbsQuery(query.try_clone(alloc)?)),
            Test::Function(function) => {
                let function = Box::new(alloc, function.try_clone(alloc)?)?;
                Ok(Test::Function(function))
            }
        }
    }
}

impl TestFunction {
    /// A call of the same tree, in time linear in it.
    ///
    /// # Errors
    ///
    /// `OutOfMemory` where memory ran out.
    #[cycle(clones)]
    pub fn try_clone(&self, alloc: Global) -> Parsed<Self>
        ensures same { IfOk result (λ c. call_view c ≡ call_view self.now) }
        ensures memory { IfErr result (λ e. e ≡ OutOfMemory) }
    {
        match self {
            TestFunction::Custom(name, args) => {
                let name = String::from_str(alloc, name)?;
                Ok(TestFunction::Custom(name, arguments(alloc, args)?))
            }
            TestFunction::Length(arg) => {
                let arg = Box::new(alloc, arg.try_clone(alloc)?)?;
                Ok(TestFunction::Length(arg))
            }
            TestFunction::Value(arg) => Ok(TestFunction::Value(arg.try_clone(alloc)?)),
            TestFunction::Count(arg) => Ok(TestFunction::Count(arg.try_clone(alloc)?)),
            TestFunction::Search(text, pattern) => {
                Ok(TestFunction::Search(text.try_clone(alloc)?, pattern.try_clone(alloc)?))
            }
            TestFunction::Match(text, pattern) => {
                Ok(TestFunction::Match(text.try_clone(alloc)?, pattern.try_clone(alloc)?))
            }
        }
    }
}

#[cycle(clones)]
fn arguments(alloc: Global, arguments: &[FnArg]) -> Parsed<Vec<FnArg>>
    ensures same { IfOk result (λ v. map argument_view v.items ≡ map argument_view arguments.now) }
    ensures memory { IfErr result (λ e. e ≡ OutOfMemory) }
{
    let mut copies = Vec::with_capacity(alloc, arguments.len())?;
    'arguments: for argument in arguments {
        copies.push(argument.try_clone(alloc)?)?;
    }
    Ok(copies)
}

impl FnArg {
    /// An argument of the same tree, in time linear in it.
    ///
    /// # Errors
    ///
    /// `OutOfMemory` where memory ran out.
    #[cycle(clones)]
    pub fn try_clone(&self, alloc: Global) -> Parsed<Self>
        ensures same { IfOk result (λ a. argument_view a ≡ argument_view self.now) }
        ensures memory { IfErr result (λ e. e ≡ OutOfMemory) }
    {
        match self {
            FnArg::Literal(literal) => Ok(FnArg::Literal(literal.try_clone(alloc)?)),
            FnArg::Test(test) => Ok(FnArg::Test(Box::new(alloc, test.try_clone(alloc)?)?)),
            FnArg::Filter(filter) => Ok(FnArg::Filter(filter.try_clone(alloc)?)),
        }
    }
}

impl Literal {
    /// The same literal, in time linear in its text.
    ///
    /// # Errors
    ///
    /// `OutOfMemory` where memory ran out.
    pub fn try_clone(&self, alloc: Global) -> Parsed<Self>
        ensures same { IfOk result (λ l. literal_view l ≡ literal_view self.now) }
        ensures memory { IfErr result (λ e. e ≡ OutOfMemory) }
    {
        match self {
            Literal::Int(number) => Ok(Literal::Int(*number)),
            Literal::String(text) => Ok(Literal::String(String::from_str(alloc, text)?)),
            Literal::Bool(truth) => Ok(Literal::Bool(*truth)),
            Literal::Null => Ok(Literal::Null),
        }
    }
}
