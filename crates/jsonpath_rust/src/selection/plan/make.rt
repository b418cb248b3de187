//! Makes a plan in one pass over the query.
ghost use Rattle.std.specs.Prelude.{◌≡◌, IfOk, map};
ghost use Rattle.jsonpath_base.specs.Prelude.Documents.{list_all, MemoryAlone};
ghost use Rattle.jsonpath_rust.specs.Prelude.Selection.{argument_is_rooted, call_is_rooted, every, filter_is_rooted, Made, Single, plan_view, Values, Demand};
ghost use Rattle.jsonpath_parser.specs.tree.Syntax as syntax;
ghost use Rattle.jsonpath_parser.specs.tree.View as tree;
ghost use Rattle.jsonpath_rust.specs.selection.inner.PlanViews as plan;

use super::numbering::{PatternTable, Scope, When};
use super::steps::{looked_up, segments_of_steps, steps_again};
use super::{Call, Constant, Expr, Filter, Plan, Segment, Selector};
use crate::selection::sink::Demand;
use jsonpath_base::MatchKind;
use jsonpath_parser::errors::Parsed;
use jsonpath_parser::model as tree;
use jsonpath_parser::model::{JpQuery, Operator, SingularQuery};
use std::alloc::Global;

/// Returns the plan of a query. It takes time linear in the query.
pub fn plan_of(alloc: Global, query: &JpQuery) -> Parsed<Plan>
    ensures same { IfOk result (λ p. plan_view p ≡ tree.query_view query.now) }
    ensures memory { MemoryAlone result }
{
    let mut maker = Maker {
        alloc,
        constants: Vec::new(alloc),
        scope: Scope::NOTHING,
        patterns: PatternTable::new(alloc),
    };
    let segments = maker.segments(&query.segments)?;
    let pattern_count = maker.patterns.count();
    Ok(Plan {
        segments,
        constants: maker.constants,
        nesting: maker.scope.nesting,
        pattern_count,
    })
}

/// Makes the parts of a plan, and collects its constants and patterns.
#[derive(Drop)]
pub struct Maker<'q> {
    pub alloc: Global,
    /// The constants that have a number.
    pub constants: Vec<Constant>,
    /// What was met since the current expression began.
    pub scope: Scope,
    /// The patterns that have a number.
    pub patterns: PatternTable<'q>,
}

impl<'q> Maker<'q> {
    #[cycle(make)]
    fn segments(&mut self, segments: &'q [tree::Segment]) -> Parsed<Vec<Segment>>
        ensures made { IfOk result (λ v. Made (list_all every) self.old self.new (λ constants. map (plan.segment_view constants) v.items)
            (map tree.segment_view segments.now)) }
        ensures memory { MemoryAlone result }
    {
        let mut parts = Vec::with_capacity(self.alloc, segments.len())?;
        'segments: for segment in segments {
            parts.push(self.segment(segment)?)?;
        }
        Ok(parts)
    }

    #[cycle(make)]
    fn segment(&mut self, segment: &'q tree::Segment) -> Parsed<Segment>
        ensures made { IfOk result (λ g. Made every self.old self.new (λ constants. plan.segment_view constants g)
            (tree.segment_view segment.now)) }
        ensures memory { MemoryAlone result }
    {
        match segment {
            tree::Segment::Descendant(inner) => {
                let inner = self.segment(inner)?;
                Ok(Segment::Descendant(Box::new(self.alloc, inner)?))
            }
            tree::Segment::Selector(selector) => Ok(Segment::Selector(self.selector(selector)?)),
            tree::Segment::Selectors(several) => Ok(Segment::Selectors(self.selectors(several)?)),
        }
    }

    #[cycle(make)]
    fn selectors(&mut self, selectors: &'q [tree::Selector]) -> Parsed<Vec<Selector>>
        ensures made { IfOk result (λ v. Made (list_all every) self.old self.new (λ constants. map (plan.selector_view constants) v.items)
            (map tree.selector_view selectors.now)) }
        ensures memory { MemoryAlone result }
    {
        let mut parts = Vec::with_capacity(self.alloc, selectors.len())?;
        'selectors: for selector in selectors {
            parts.push(self.selector(selector)?)?;
        }
        Ok(parts)
    }

    #[cycle(make)]
    fn selector(&mut self, selector: &'q tree::Selector) -> Parsed<Selector>
        ensures made { IfOk result (λ s. Made every self.old self.new (λ constants. plan.selector_view constants s)
            (tree.selector_view selector.now)) }
        ensures memory { MemoryAlone result }
    {
        match selector {
            tree::Selector::Name(name) => Ok(Selector::Name(String::from_str(self.alloc, name)?)),
            tree::Selector::Wildcard => Ok(Selector::Wildcard),
            tree::Selector::Index(index) => Ok(Selector::Index(*index)),
            tree::Selector::Slice(start, end, step) => Ok(Selector::Slice(*start, *end, *step)),
            tree::Selector::Filter(filter) => Ok(Selector::Filter(self.filter(filter)?)),
        }
    }

    #[cycle(make)]
    fn filters(&mut self, filters: &'q [tree::Filter]) -> Parsed<Vec<Filter>>
        ensures made { IfOk result (λ v. Made (list_all filter_is_rooted) self.old self.new (λ constants. map (plan.filter_view constants) v.items)
            (map tree.filter_view filters.now)) }
        ensures memory { MemoryAlone result }
    {
        let mut parts = Vec::with_capacity(self.alloc, filters.len())?;
        'filters: for filter in filters {
            parts.push(self.filter(filter)?)?;
        }
        Ok(parts)
    }

    #[cycle(make)]
    fn filter(&mut self, filter: &'q tree::Filter) -> Parsed<Filter>
        ensures made { IfOk result (λ f. Made filter_is_rooted self.old self.new (λ constants. plan.filter_view constants f)
            (tree.filter_view filter.now)) }
        ensures memory { MemoryAlone result }
    {
        match filter {
            tree::Filter::Or(parts) => Ok(Filter::Or(self.filters(parts)?)),
            tree::Filter::And(parts) => Ok(Filter::And(self.filters(parts)?)),
            tree::Filter::Atom(atom) => self.atom(atom),
        }
    }

    #[cycle(make)]
    fn atom(&mut self, atom: &'q tree::FilterAtom) -> Parsed<Filter>
        ensures made { IfOk result (λ f. Made filter_is_rooted self.old self.new (λ constants. plan.filter_view constants f)
            (tree.atom_view atom.now)) }
        ensures memory { MemoryAlone result }
    {
        match atom {
            tree::FilterAtom::Filter { expr, not } => {
                let inner = self.filter(expr)?;
                Ok(Filter::Group {
                    expr: Box::new(self.alloc, inner)?,
                    not: *not,
                })
            }
            tree::FilterAtom::Test { expr, not } => self.test(expr, *not),
            tree::FilterAtom::Comparison(comparison) => self.comparison(comparison),
        }
    }

    /// Makes a test, negated if `not`.
    #[cycle(make)]
    fn test(&mut self, test: &'q tree::Test, not: bool) -> Parsed<Filter>
        ensures made { IfOk result (λ f. Made filter_is_rooted self.old self.new (λ constants. plan.filter_view constants f)
            (syntax.Filter.test not (tree.test_view test.now))) }
        ensures memory { MemoryAlone result }
    {
        let part = self.test_part(test, Demand::Exists)?;
        Ok(Filter::Test { part, not })
    }

    #[cycle(make)]
    fn comparison(&mut self, comparison: &'q tree::Comparison) -> Parsed<Filter>
        ensures made { IfOk result (λ f. Made filter_is_rooted self.old self.new (λ constants. plan.filter_view constants f)
            (tree.comparison_view comparison.now)) }
        ensures memory { MemoryAlone result }
    {
        let around = self.begin();
        let (operator, left, right) = match comparison {
            tree::Comparison::Eq(left, right) => (Operator::Equal, left, right),
            tree::Comparison::Ne(left, right) => (Operator::NotEqual, left, right),
            tree::Comparison::Gt(left, right) => (Operator::Greater, left, right),
            tree::Comparison::Gte(left, right) => (Operator::GreaterOrEqual, left, right),
            tree::Comparison::Lt(left, right) => (Operator::Less, left, right),
            tree::Comparison::Lte(left, right) => (Operator::LessOrEqual, left, right),
        };
        let sides = (self.side(left)?, self.side(right)?);
        self.compare(operator, sides, around)
    }

    #[cycle(make)]
    fn side(&mut self, side: &'q tree::Comparable) -> Parsed<Expr>
        ensures made { IfOk result (λ p. Made argument_is_rooted self.old self.new (λ constants. plan.expr_view constants p Single)
            (tree.comparable_view side.now)) }
        ensures memory { MemoryAlone result }
    {
        match side {
            tree::Comparable::Literal(literal) => Ok(Expr::Literal(literal.try_clone(self.alloc)?)),
            tree::Comparable::SingularQuery(query) => self.singular(query),
            tree::Comparable::Function(function) => self.called(function),
        }
    }

    /// Makes a query of at most one node, as a side of a comparison.
    fn singular(&mut self, query: &'q SingularQuery) -> Parsed<Expr>
        ensures made { IfOk result (λ p. Made argument_is_rooted self.old self.new (λ constants. plan.expr_view constants p Single)
            (syntax.test_argument (tree.singular_view query.now))) }
        ensures memory { MemoryAlone result }
    {
        match query {
            SingularQuery::Current(steps) => {
                self.meet_current();
                Ok(Expr::Lookup(steps_again(self.alloc, steps)?))
            }
            SingularQuery::Root(steps) => {
                let segments = segments_of_steps(self.alloc, steps)?;
                let number = self.number(Constant::Nodes {
                    segments,
                    demand: Demand::Single,
                    when: When::OnDemand,
                })?;
                Ok(Expr::Constant(number))
            }
        }
    }

    /// Makes a query from the current node.
    #[cycle(make)]
    fn relative(&mut self, segments: &'q [tree::Segment], demand: Demand) -> Parsed<Expr>
        ensures made { IfOk result (λ p. Made argument_is_rooted self.old self.new (λ constants. plan.expr_view constants p demand)
            (syntax.test_argument (syntax.relative (tree.segments_of (map tree.segment_view segments.now))))) }
        ensures memory { MemoryAlone result }
    {
        self.meet_current();
        if let Some(part) = looked_up(self.alloc, segments, demand)? {
            return Ok(part);
        }
        self.meet_walk();
        Ok(Expr::Walk(self.segments(segments)?))
    }

    /// Makes a query from the root, which is a constant.
    #[cycle(make)]
    fn absolute(&mut self, query: &'q JpQuery, demand: Demand) -> Parsed<Expr>
        ensures made { IfOk result (λ p. Made argument_is_rooted self.old self.new (λ constants. plan.expr_view constants p demand)
            (syntax.test_argument (syntax.absolute (tree.query_view query.now)))) }
        ensures memory { MemoryAlone result }
    {
        let around = self.begin();
        let segments = self.segments(&query.segments)?;
        let when = self.end_query(around, &query.segments);
        let number = self.number(Constant::Nodes {
            segments,
            demand,
            when,
        })?;
        Ok(Expr::Constant(number))
    }

    /// Makes a call. If it has no `@`, it is a constant.
    #[cycle(make)]
    fn called(&mut self, call: &'q tree::TestFunction) -> Parsed<Expr>
        ensures made { (demand : Demand) → IfOk result (λ p. Made argument_is_rooted self.old self.new
            (λ constants. plan.expr_view constants p demand) (syntax.test_argument (syntax.call (tree.call_view call.now)))) }
        ensures memory { MemoryAlone result }
    {
        let around = self.begin();
        let made = self.call(call)?;
        if self.end(around) {
            let number = self.number(Constant::Answer(made))?;
            return Ok(Expr::Constant(number));
        }
        Ok(Expr::Call(Box::new(self.alloc, made)?))
    }

    #[cycle(make)]
    fn call(&mut self, call: &'q tree::TestFunction) -> Parsed<Call>
        ensures made { IfOk result (λ c. Made call_is_rooted self.old self.new (λ constants. plan.call_view constants c) (tree.call_view call.now)) }
        ensures memory { MemoryAlone result }
    {
        match call {
            tree::TestFunction::Custom(name, args) => {
                let name = String::from_str(self.alloc, name)?;
                Ok(Call::Custom(name, self.arguments(args)?))
            }
            tree::TestFunction::Length(arg) => Ok(Call::Length(self.argument(
                arg,
                Demand::Single,
            )?)),
            tree::TestFunction::Value(arg) => Ok(Call::Value(self.argument(arg, Demand::Single)?)),
            tree::TestFunction::Count(arg) => Ok(Call::Count(self.argument(arg, Demand::Count)?)),
            tree::TestFunction::Search(text, pattern) => {
                let text = self.argument(text, Demand::Single)?;
                let pattern = self.pattern(pattern, MatchKind::Partial)?;
                Ok(Call::Search(text, pattern))
            }
            tree::TestFunction::Match(text, pattern) => {
                let text = self.argument(text, Demand::Single)?;
                let pattern = self.pattern(pattern, MatchKind::Full)?;
                Ok(Call::Match(text, pattern))
            }
        }
    }

    /// Makes the arguments of a custom function.
    #[cycle(make)]
    fn arguments(&mut self, arguments: &'q [tree::FnArg]) -> Parsed<Vec<Expr>>
        ensures made { IfOk result (λ v. Made (list_all argument_is_rooted) self.old self.new
            (λ constants. map (λ a. plan.expr_view constants a Values) v.items)
            (map tree.argument_view arguments.now)) }
        ensures memory { MemoryAlone result }
    {
        let mut parts = Vec::with_capacity(self.alloc, arguments.len())?;
        'arguments: for argument in arguments {
            parts.push(self.argument(argument, Demand::Values)?)?;
        }
        Ok(parts)
    }

    /// Makes the second argument of `match` or `search`.
    #[cycle(make)]
    fn pattern(&mut self, argument: &'q tree::FnArg, extent: MatchKind) -> Parsed<Expr>
        ensures made { IfOk result (λ p. Made argument_is_rooted self.old self.new (λ constants. plan.expr_view constants p Single)
            (tree.argument_view argument.now)) }
        ensures memory { MemoryAlone result }
    {
        match argument {
            tree::FnArg::Literal(literal) => self.literal_pattern(literal, extent),
            _ => self.argument(argument, Demand::Single),
        }
    }

    #[cycle(make)]
    fn argument(&mut self, argument: &'q tree::FnArg, demand: Demand) -> Parsed<Expr>
        ensures made { IfOk result (λ p. Made argument_is_rooted self.old self.new (λ constants. plan.expr_view constants p demand)
            (tree.argument_view argument.now)) }
        ensures memory { MemoryAlone result }
    {
        match argument {
            tree::FnArg::Literal(literal) => Ok(Expr::Literal(literal.try_clone(self.alloc)?)),
            tree::FnArg::Filter(filter) => {
                let inner = self.filter(filter)?;
                Ok(Expr::Filter(Box::new(self.alloc, inner)?))
            }
            tree::FnArg::Test(test) => self.test_part(test, demand),
        }
    }

    /// Makes a test expression: a query or a call.
    #[cycle(make)]
    fn test_part(&mut self, test: &'q tree::Test, demand: Demand) -> Parsed<Expr>
        ensures made { IfOk result (λ p. Made argument_is_rooted self.old self.new (λ constants. plan.expr_view constants p demand)
            (syntax.test_argument (tree.test_view test.now))) }
        ensures memory { MemoryAlone result }
    {
        match test {
            tree::Test::RelQuery(segments) => self.relative(segments, demand),
            tree::Test::AbsQuery(query) => self.absolute(query, demand),
            tree::Test::Function(function) => self.called(function),
        }
    }
}
