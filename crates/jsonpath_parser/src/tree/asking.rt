//! What is asked of a query tree, in one walk over it (RFC 9535, 2.3.5 and 2.4).
ghost use Rattle.std.specs.Prelude.{◌≡◌, map, option_map, Some, None, if◌then◌else◌};
ghost use Rattle.jsonpath_parser.specs.inner.Faults as spec;
ghost use Rattle.jsonpath_parser.specs.tree.Reach.{is_one_of};
ghost use Rattle.jsonpath_parser.specs.tree.Syntax as tree;
ghost use Rattle.jsonpath_parser.specs.tree.Typing.{over_argument, over_arguments, over_call, over_filter, over_filters, over_segment, over_segments, over_selector, over_selectors, over_side, over_test};
ghost use Rattle.jsonpath_parser.specs.Prelude.{argument_view, arguments_of, atom_view, call_view, comparable_view, comparison_view, filter_view, filters_of, segment_view, segments_of, selector_view, selectors_of, singular_view, test_argument, test_view};

use crate::tree::model::{
    Comparable, Comparison, Filter, FilterAtom, FnArg, Segment, Selector, SingularQuery, Test,
    TestFunction,
};

/// A question to a tree. Each method returns the first fault of a part, in the order in which the tree is written: the name
/// of a function that is not known, and no text for the other questions.
#[derive(Clone, Copy)]
pub enum Question<'n> {
    /// Whether it is well-typed (2.4.3).
    Typed,
    /// Whether no filter has a query from the root (2.3.5).
    Local,
    /// Whether each custom function has one of these names.
    Known(&'n [&'n str]),
}

/// A fault without a name, unless all is well.
fn unless(good: bool) -> Option<&'static str>
    ensures { option_map (λ s. s.now) result ≡ spec.unless good }
{
    if good { None } else { Some("") }
}

impl<'n> Question<'n> {
    #[cycle(asking)]
    pub fn segments<'t>(self, segments: &'t [Segment]) -> Option<&'t str>
        ensures { option_map (λ s. s.now) result ≡ over_segments (spec.faults self.entry) (segments_of (map segment_view segments.now)) }
    {
        'segments: for one in segments {
            if let Some(fault) = self.segment(one) {
                return Some(fault);
            }
        }
        None
    }

    #[cycle(asking)]
    pub fn segment<'t>(self, segment: &'t Segment) -> Option<&'t str>
        ensures { option_map (λ s. s.now) result ≡ over_segment (spec.faults self.entry) (segment_view segment.now) }
    {
        match segment {
            Segment::Descendant(inner) => self.segment(inner),
            Segment::Selector(one) => self.selector(one),
            Segment::Selectors(several) => self.selectors(several),
        }
    }

    #[cycle(asking)]
    fn selectors<'t>(self, selectors: &'t [Selector]) -> Option<&'t str>
        ensures { option_map (λ s. s.now) result ≡ over_selectors (spec.faults self.entry) (selectors_of (map selector_view selectors.now)) }
    {
        'selectors: for one in selectors {
            if let Some(fault) = self.selector(one) {
                return Some(fault);
            }
        }
        None
    }

    #[cycle(asking)]
    pub fn selector<'t>(self, selector: &'t Selector) -> Option<&'t str>
        ensures { option_map (λ s. s.now) result ≡ over_selector (spec.faults self.entry) (selector_view selector.now) }
    {
        match selector {
            Selector::Filter(inner) => self.filter(inner),
            Selector::Name(_) | Selector::Wildcard => None,
            Selector::Index(_) | Selector::Slice(_, _, _) => None,
        }
    }

    #[cycle(asking)]
    fn filters<'t>(self, filters: &'t [Filter]) -> Option<&'t str>
        ensures { option_map (λ s. s.now) result ≡ over_filters (spec.faults self.entry) (filters_of (map filter_view filters.now)) }
    {
        'filters: for one in filters {
            if let Some(fault) = self.filter(one) {
                return Some(fault);
            }
        }
        None
    }

    #[cycle(asking)]
    pub fn filter<'t>(self, filter: &'t Filter) -> Option<&'t str>
        ensures { option_map (λ s. s.now) result ≡ over_filter (spec.faults self.entry) (filter_view filter.now) }
    {
        match filter {
            Filter::Or(parts) | Filter::And(parts) => self.filters(parts),
            Filter::Atom(one) => self.atom(one),
        }
    }

    #[cycle(asking)]
    pub fn atom<'t>(self, atom: &'t FilterAtom) -> Option<&'t str>
        ensures { option_map (λ s. s.now) result ≡ over_filter (spec.faults self.entry) (atom_view atom.now) }
    {
        match atom {
            FilterAtom::Filter { expr, .. } => self.filter(expr),
            FilterAtom::Test { expr, .. } => match self.of_test(expr) {
                None => self.test(expr),
                fault => fault,
            },
            FilterAtom::Comparison(sides) => self.comparison(sides),
        }
    }

    #[cycle(asking)]
    pub fn comparison<'t>(self, comparison: &'t Comparison) -> Option<&'t str>
        ensures { option_map (λ s. s.now) result ≡ over_filter (spec.faults self.entry) (comparison_view comparison.now) }
    {
        match comparison {
            Comparison::Eq(left, right)
            | Comparison::Ne(left, right)
            | Comparison::Gt(left, right)
            | Comparison::Gte(left, right)
            | Comparison::Lt(left, right)
            | Comparison::Lte(left, right) => match self.side(left) {
                None => self.side(right),
                fault => fault,
            },
        }
    }

    /// A side of a comparison.
    #[cycle(asking)]
    pub fn side<'t>(self, side: &'t Comparable) -> Option<&'t str>
        ensures { option_map (λ s. s.now) result ≡ over_side (spec.faults self.entry) (comparable_view side.now) }
    {
        match side {
            Comparable::Literal(_) => None,
            Comparable::SingularQuery(query) => self.of_singular(query),
            Comparable::Function(function) => match self.of_side(function) {
                None => self.call(function),
                fault => fault,
            },
        }
    }

    #[cycle(asking)]
    pub fn test<'t>(self, test: &'t Test) -> Option<&'t str>
        ensures { option_map (λ s. s.now) result ≡ over_test (spec.faults self.entry) (test_view test.now) }
    {
        match test {
            Test::RelQuery(inner) => self.segments(inner),
            Test::AbsQuery(query) => match self.of_root() {
                None => self.segments(&query.segments),
                fault => fault,
            },
            Test::Function(function) => self.call(function),
        }
    }

    #[cycle(asking)]
    pub fn call<'t>(self, call: &'t TestFunction) -> Option<&'t str>
        ensures { option_map (λ s. s.now) result ≡ over_call (spec.faults self.entry) (call_view call.now) }
    {
        if let Some(fault) = self.of_call(call) {
            return Some(fault);
        }
        match call {
            TestFunction::Custom(_, args) => self.arguments(args),
            TestFunction::Length(arg) => self.argument(arg),
            TestFunction::Value(arg) | TestFunction::Count(arg) => self.argument(arg),
            TestFunction::Search(left, right) | TestFunction::Match(left, right) => {
                match self.argument(left) {
                    None => self.argument(right),
                    fault => fault,
                }
            }
        }
    }

    #[cycle(asking)]
    fn arguments<'t>(self, arguments: &'t [FnArg]) -> Option<&'t str>
        ensures { option_map (λ s. s.now) result ≡ over_arguments (spec.faults self.entry) (arguments_of (map argument_view arguments.now)) }
    {
        'arguments: for one in arguments {
            if let Some(fault) = self.argument(one) {
                return Some(fault);
            }
        }
        None
    }

    #[cycle(asking)]
    fn argument<'t>(self, argument: &'t FnArg) -> Option<&'t str>
        ensures { option_map (λ s. s.now) result ≡ over_argument (spec.faults self.entry) (argument_view argument.now) }
    {
        match argument {
            FnArg::Literal(_) => None,
            FnArg::Test(inner) => self.test(inner),
            FnArg::Filter(inner) => self.filter(inner),
        }
    }

    /// The fault of a test itself: a call that gives a value.
    pub fn of_test(self, test: &Test) -> Option<&'static str>
        ensures { option_map (λ s. s.now) result ≡ spec.test_fault self.entry (test_view test.now) }
    {
        match (self, test) {
            (Question::Typed, Test::Function(call)) => unless(!call.is_comparable()),
            _ => None,
        }
    }

    /// The fault of a call as a side of a comparison: it gives a truth.
    fn of_side(self, call: &TestFunction) -> Option<&'static str>
        ensures { option_map (λ s. s.now) result ≡ spec.side_fault self.entry (test_argument (tree.call (call_view call.now))) }
    {
        match self {
            Question::Typed => unless(call.is_comparable()),
            Question::Local | Question::Known(_) => None,
        }
    }

    /// The fault of a singular query as a side of a comparison.
    #[tactic(auto, using(crate::proofs::laws::tree::Asking::current_fault, crate::proofs::laws::tree::Asking::rooted_fault))]
    fn of_singular(self, query: &SingularQuery) -> Option<&'static str>
        ensures { option_map (λ s. s.now) result ≡ over_side (spec.faults self.entry) (test_argument (singular_view query.now)) }
    {
        match query {
            SingularQuery::Current(_) => None,
            SingularQuery::Root(_) => self.of_root(),
        }
    }

    /// The fault of a query from the root.
    fn of_root(self) -> Option<&'static str>
        ensures { option_map (λ s. s.now) result ≡ spec.root_fault self.entry }
    {
        match self {
            Question::Local => unless(false),
            Question::Typed | Question::Known(_) => None,
        }
    }

    /// The fault of a call itself: it does not take its arguments, or its function is not known.
    fn of_call<'t>(self, call: &'t TestFunction) -> Option<&'t str>
        ensures { option_map (λ s. s.now) result ≡ spec.call_fault self.entry (call_view call.now) }
    {
        match (self, call) {
            (Question::Typed, _) => unless(call.takes()),
            (Question::Known(names), TestFunction::Custom(name, _)) => {
                other_name(names, name.as_str())
            }
            _ => None,
        }
    }
}

/// The name, where none of the names is this one.
fn other_name<'t>(names: &[&str], name: &'t str) -> Option<&'t str>
    ensures { option_map (λ s. s.now) result ≡ (if is_one_of names.now name.now then None else Some name.now) }
{
    if names.contains(&name) {
        None
    } else {
        Some(name)
    }
}
