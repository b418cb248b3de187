//! Evaluates filters, comparisons, functions and their arguments, on any state.
ghost use Rattle.std.specs.Prelude.{◌≡◌, IfErr, IfOk};
ghost use Rattle.jsonpath_base.specs.Prelude.Documents.{argument_patterns, argument_view, arguments_in, arguments_patterns, atom_view, call_patterns, call_view, comparable_view, comparison_view, filter_patterns, filter_view, filters_in, filters_patterns, test_patterns, test_view, truth};
ghost use Rattle.jsonpath_rust.specs.Prelude.Documents.{arg_trees};
ghost use Rattle.jsonpath_rust.specs.Prelude.States.{argument_content, arguments_trees, basic_content, call_content, content_at, document, each_holds_at, HaltsAt, holds_at, some_holds_at, test_content, value};

use crate::documents::args::Args;
use crate::documents::queryable::Queryable;
use crate::documents::walk_error::WalkResult;
use crate::states::evaluate::calls::{
    custom_data, found_data, length_data, node_count, only_value, push_values,
};
use crate::states::evaluate::compare::compares;
use crate::states::evaluate::single::{literal_data, truth_data};
use crate::states::evaluate::test::{is_true, test_answer};
use crate::states::evaluate::{Evaluation, Returned};
use crate::states::held::WholeData;
use jsonpath_base::MatchKind;
use jsonpath_parser::model::{
    Comparable, Comparison, Filter, FilterAtom, FnArg, Test, TestFunction,
};

impl<'a, T: Queryable> Evaluation<'a, T> {
    /// Returns whether a logical expression holds at a state.
    #[cycle(evaluate)]
    pub fn holds(&self, filter: &Filter, given: &WholeData<'a, T>) -> WalkResult<bool>
        ensures value { IfOk result (λ b. b ≡ holds_at (filter_view filter.now) (document self.now) (content_at given.now)) }
        ensures refused { IfErr result (HaltsAt (filter_patterns (filter_view filter.now)) (document self.now) (content_at given.now)) }
    {
        match filter {
            Filter::Or(parts) => self.some_holds(parts, given),
            Filter::And(parts) => self.each_holds(parts, given),
            Filter::Atom(atom) => Ok(is_true(&self.atom_data(atom, given)?)),
        }
    }

    /// Returns whether some operand of `||` holds.
    #[cycle(evaluate)]
    fn some_holds(&self, parts: &[Filter], given: &WholeData<'a, T>) -> WalkResult<bool>
        ensures value { IfOk result (λ b. b ≡ some_holds_at (filters_in parts.now) (document self.now) (content_at given.now)) }
        ensures refused { IfErr result (HaltsAt (filters_patterns (filters_in parts.now)) (document self.now) (content_at given.now)) }
    {
        for part in parts {
            if self.holds(part, given)? {
                return Ok(true);
            }
        }
        Ok(false)
    }

    /// Returns whether every operand of `&&` holds.
    #[cycle(evaluate)]
    fn each_holds(&self, parts: &[Filter], given: &WholeData<'a, T>) -> WalkResult<bool>
        ensures value { IfOk result (λ b. b ≡ each_holds_at (filters_in parts.now) (document self.now) (content_at given.now)) }
        ensures refused { IfErr result (HaltsAt (filters_patterns (filters_in parts.now)) (document self.now) (content_at given.now)) }
    {
        for part in parts {
            if !self.holds(part, given)? {
                return Ok(false);
            }
        }
        Ok(true)
    }

    /// Returns what a basic expression returns.
    #[cycle(evaluate)]
    pub fn atom_data(&self, atom: &FilterAtom, given: &WholeData<'a, T>) -> Returned<'a, T>
        ensures value { IfOk result (λ d. content_at d ≡ basic_content (atom_view atom.now) (document self.now) (content_at given.now)) }
        ensures refused { IfErr result (HaltsAt (filter_patterns (atom_view atom.now)) (document self.now) (content_at given.now)) }
    {
        match atom {
            FilterAtom::Filter { expr, not } => {
                let truth = self.holds(expr, given)?;
                truth_data(self.alloc, truth != *not)
            }
            FilterAtom::Test { expr, not } => {
                let answer = self.test_data(expr, given)?;
                test_answer(self.alloc, *not, expr, answer)
            }
            FilterAtom::Comparison(comparison) => {
                let truth = self.comparison_holds(comparison, given)?;
                truth_data(self.alloc, truth)
            }
        }
    }

    /// Returns whether a comparison holds.
    #[cycle(evaluate)]
    pub fn comparison_holds(
        &self,
        comparison: &Comparison,
        given: &WholeData<'a, T>,
    ) -> WalkResult<bool>
        ensures value { IfOk result (λ b. b ≡ holds_at (comparison_view comparison.now) (document self.now) (content_at given.now)) }
        ensures refused { IfErr result (HaltsAt
            (filter_patterns (comparison_view comparison.now)) (document self.now)
            (content_at given.now)) }
    {
        let (operator, left, right) = comparison.parts();
        let left = self.comparable_data(left, given)?;
        let right = self.comparable_data(right, given)?;
        Ok(compares(operator, &left, &right))
    }

    /// Returns whether a comparison holds, as data.
    pub fn comparison_data(
        &self,
        comparison: &Comparison,
        given: &WholeData<'a, T>,
    ) -> Returned<'a, T>
        ensures value { IfOk result (λ d. content_at d
            ≡ value (truth (holds_at (comparison_view comparison.now) (document self.now) (content_at given.now)))) }
        ensures refused { IfErr result (HaltsAt
            (filter_patterns (comparison_view comparison.now)) (document self.now)
            (content_at given.now)) }
    {
        let truth = self.comparison_holds(comparison, given)?;
        truth_data(self.alloc, truth)
    }

    /// Returns the side of a comparison.
    #[cycle(evaluate)]
    pub fn comparable_data(
        &self,
        comparable: &Comparable,
        given: &WholeData<'a, T>,
    ) -> Returned<'a, T>
        ensures value { IfOk result (λ d. content_at d
            ≡ argument_content (comparable_view comparable.now) (document self.now)
            (content_at given.now)) }
        ensures refused { IfErr result (HaltsAt
            (argument_patterns (comparable_view comparable.now)) (document self.now)
            (content_at given.now)) }
    {
        match comparable {
            Comparable::Literal(literal) => literal_data(self.alloc, literal),
            Comparable::Function(function) => self.call_data(function, given),
            Comparable::SingularQuery(query) => self.singular_data(query, given),
        }
    }

    /// Returns what a test returns.
    #[cycle(evaluate)]
    pub fn test_data(&self, test: &Test, given: &WholeData<'a, T>) -> Returned<'a, T>
        ensures value { IfOk result (λ d. content_at d ≡ test_content (test_view test.now) (document self.now) (content_at given.now)) }
        ensures refused { IfErr result (HaltsAt (test_patterns (test_view test.now)) (document self.now) (content_at given.now)) }
    {
        match test {
            Test::RelQuery(segments) => {
                let here = given.try_clone(self.alloc)?;
                self.segments_data(segments, here)
            }
            Test::AbsQuery(query) => {
                let here = WholeData::root(self.alloc, self.root)?;
                self.segments_data(&query.segments, here)
            }
            Test::Function(function) => self.call_data(function, given),
        }
    }

    /// Returns what a function returns.
    #[cycle(evaluate)]
    pub fn call_data(&self, function: &TestFunction, given: &WholeData<'a, T>) -> Returned<'a, T>
        ensures value { IfOk result (λ d. content_at d ≡ call_content (call_view function.now) (document self.now) (content_at given.now)) }
        ensures refused { IfErr result (HaltsAt (call_patterns (call_view function.now)) (document self.now) (content_at given.now)) }
    {
        match function {
            TestFunction::Custom(name, args) => {
                let values = self.arguments(args, given)?;
                custom_data(self.alloc, name, &values)
            }
            TestFunction::Length(arg) => length_data(self.alloc, self.argument_data(arg, given)?),
            TestFunction::Value(arg) => Ok(only_value(self.argument_data(arg, given)?)),
            TestFunction::Count(arg) => node_count(self.alloc, self.argument_data(arg, given)?),
            TestFunction::Search(text, pattern) => {
                let text = self.argument_data(text, given)?;
                let pattern = self.argument_data(pattern, given)?;
                found_data(self.alloc, &text, &pattern, MatchKind::Partial)
            }
            TestFunction::Match(text, pattern) => {
                let text = self.argument_data(text, given)?;
                let pattern = self.argument_data(pattern, given)?;
                found_data(self.alloc, &text, &pattern, MatchKind::Full)
            }
        }
    }

    /// Returns the values of the arguments of a custom function.
    #[cycle(evaluate)]
    fn arguments(&self, args: &[FnArg], given: &WholeData<'a, T>) -> WalkResult<Args<'a, T>>
        ensures value { IfOk result (λ v. arg_trees v
            ≡ arguments_trees (arguments_in args.now) (document self.now) (content_at given.now)) }
        ensures refused { IfErr result (HaltsAt (arguments_patterns (arguments_in args.now)) (document self.now) (content_at given.now)) }
    {
        let mut values = Args::new(self.alloc);
        for arg in args {
            let answer = self.argument_data(arg, given)?;
            push_values(&mut values, answer)?;
        }
        Ok(values)
    }

    /// Returns what an argument returns.
    #[cycle(evaluate)]
    pub fn argument_data(&self, arg: &FnArg, given: &WholeData<'a, T>) -> Returned<'a, T>
        ensures value { IfOk result (λ d. content_at d
            ≡ argument_content (argument_view arg.now) (document self.now) (content_at given.now)) }
        ensures refused { IfErr result (HaltsAt (argument_patterns (argument_view arg.now)) (document self.now) (content_at given.now)) }
    {
        match arg {
            FnArg::Literal(literal) => literal_data(self.alloc, literal),
            FnArg::Test(test) => self.test_data(test, given),
            FnArg::Filter(filter) => {
                let truth = self.holds(filter, given)?;
                truth_data(self.alloc, truth)
            }
        }
    }
}
