//! How trees are shown: in a short form to be looked at, in general no query text. Names stand without quotes and
//! brackets, strings without escapes, and filters without parentheses.
ghost use Rattle.std.specs.Prelude.{◌≡◌, ℕ, List, Some, map};
ghost use Rattle.std.specs.Fmt.{WritesOnOk};
ghost use Rattle.jsonpath_parser.specs.Prelude.{argument_shown, argument_view, atom_view, call_view, comparable_view, comparison_view, filter_shown, filter_view, joined, literal_view, not_shown, query_view, segment_shown, segment_view, selector_shown, selector_view, singular_view, step_view, test_view};
ghost use Rattle.jsonpath_parser.specs.tree.Shown.{query_shown, comparable_shown, singular_shown, test_shown, call_shown, literal_shown};

use super::{
    Comparable, Comparison, Filter, FilterAtom, FnArg, JpQuery, Literal, Segment, Selector,
    SingularQuery, SingularQuerySegment, Test, TestFunction,
};
use std::fmt;
use std::fmt::{Display, Formatter, Write};

/// Writes the parts, with this text between each two.
// The parts come as the trees hold them: over a slice of them the recursion through this function is not proved.
fn write_joined<W: Write, T: Display>(
    f: &mut Formatter<W>,
    parts: &Vec<T>,
    between: &str,
) -> fmt::Result
    ensures { (shown : T → List ℕ) → ((x : T) → T.output x ≡ Some (shown x)) → WritesOnOk W.write_str_gives f.old result (joined between.now (map shown parts.now.items)) f.new }
{
    let Some((first, rest)) = parts.split_first() else {
        return Ok(());
    };
    write!(f, "{first}")?;
    for part in rest {
        write!(f, "{between}{part}")?;
    }
    Ok(())
}

/// `$` and the segments one after another.
impl Display for JpQuery {
    ghost output = { λ q. Some (query_shown (query_view q)) };

    #[cycle(display)]
    #[tactic(auto, using(crate::proofs::laws::tree::ViewEquations::view_equations))]
    fn fmt<W: Write>(&self, f: &mut Formatter<W>) -> fmt::Result {
        f.write_str("$")?;
        write_joined(f, &self.segments, "")
    }
}

/// `..` and the segment, the selector, or the selectors one after another.
impl Display for Segment {
    ghost output = { λ g. Some (segment_shown (segment_view g)) };

    #[cycle(display)]
    #[tactic(auto, using(crate::proofs::laws::tree::ViewEquations::view_equations))]
    fn fmt<W: Write>(&self, f: &mut Formatter<W>) -> fmt::Result {
        match self {
            Segment::Descendant(inner) => write!(f, "..{inner}"),
            Segment::Selector(selector) => write!(f, "{selector}"),
            Segment::Selectors(selectors) => write_joined(f, selectors, ""),
        }
    }
}

/// The bare name, `*`, the number, the slice as `0:0:1`, or the filter between `[?` and `]`.
impl Display for Selector {
    ghost output = { λ s. Some (selector_shown (selector_view s)) };

    #[cycle(display)]
    #[tactic(auto, using(crate::proofs::laws::tree::ViewEquations::view_equations))]
    fn fmt<W: Write>(&self, f: &mut Formatter<W>) -> fmt::Result {
        match self {
            Selector::Name(name) => write!(f, "{name}"),
            Selector::Wildcard => f.write_str("*"),
            Selector::Index(index) => write!(f, "{index}"),
            Selector::Slice(start, end, step) => {
                let start = start.unwrap_or(0);
                let end = end.unwrap_or(0);
                let step = step.unwrap_or(1);
                write!(f, "{start}:{end}:{step}")
            }
            Selector::Filter(filter) => write!(f, "[?{filter}]"),
        }
    }
}

/// The parts joined by ` || `, those joined by ` && `, or the basic expression.
impl Display for Filter {
    ghost output = { λ e. Some (filter_shown (filter_view e)) };

    #[cycle(display)]
    #[tactic(auto, using(crate::proofs::laws::tree::ViewEquations::view_equations))]
    fn fmt<W: Write>(&self, f: &mut Formatter<W>) -> fmt::Result {
        match self {
            Filter::Or(parts) => write_joined(f, parts, " || "),
            Filter::And(parts) => write_joined(f, parts, " && "),
            Filter::Atom(atom) => write!(f, "{atom}"),
        }
    }
}

/// `!` where `not`.
pub(crate) fn not_sign(not: bool) -> &'static str
    ensures { result.now ≡ not_shown not }
{
    if not { "!" } else { "" }
}

/// The filter or the test, behind `!` where `not`, or the comparison.
impl Display for FilterAtom {
    ghost output = { λ a. Some (filter_shown (atom_view a)) };

    #[cycle(display)]
    #[tactic(auto, using(crate::proofs::laws::tree::ViewEquations::view_equations))]
    fn fmt<W: Write>(&self, f: &mut Formatter<W>) -> fmt::Result {
        match self {
            FilterAtom::Filter { expr, not } => write!(f, "{}{expr}", not_sign(*not)),
            FilterAtom::Test { expr, not } => write!(f, "{}{expr}", not_sign(*not)),
            FilterAtom::Comparison(comparison) => write!(f, "{comparison}"),
        }
    }
}

/// Left, the operator and right, with a blank between each two.
impl Display for Comparison {
    ghost output = { λ c. Some (filter_shown (comparison_view c)) };

    #[cycle(display)]
    #[tactic(auto, using(crate::proofs::laws::tree::ViewEquations::view_equations))]
    fn fmt<W: Write>(&self, f: &mut Formatter<W>) -> fmt::Result {
        match self {
            Comparison::Eq(left, right) => write!(f, "{left} == {right}"),
            Comparison::Ne(left, right) => write!(f, "{left} != {right}"),
            Comparison::Gt(left, right) => write!(f, "{left} > {right}"),
            Comparison::Gte(left, right) => write!(f, "{left} >= {right}"),
            Comparison::Lt(left, right) => write!(f, "{left} < {right}"),
            Comparison::Lte(left, right) => write!(f, "{left} <= {right}"),
        }
    }
}

/// The literal, the call or the query.
impl Display for Comparable {
    ghost output = { λ x. Some (comparable_shown (comparable_view x)) };

    #[cycle(display)]
    #[tactic(auto, using(crate::proofs::laws::tree::ViewEquations::view_equations))]
    fn fmt<W: Write>(&self, f: &mut Formatter<W>) -> fmt::Result {
        match self {
            Comparable::Literal(literal) => write!(f, "{literal}"),
            Comparable::Function(function) => write!(f, "{function}"),
            Comparable::SingularQuery(query) => write!(f, "{query}"),
        }
    }
}

/// `@.` or `$.`, and the steps one after another.
impl Display for SingularQuery {
    ghost output = { λ q. Some (singular_shown (singular_view q)) };

    fn fmt<W: Write>(&self, f: &mut Formatter<W>) -> fmt::Result {
        match self {
            SingularQuery::Current(steps) => {
                f.write_str("@.")?;
                write_joined(f, steps, "")
            }
            SingularQuery::Root(steps) => {
                f.write_str("$.")?;
                write_joined(f, steps, "")
            }
        }
    }
}

/// The number or the bare name.
impl Display for SingularQuerySegment {
    ghost output = { λ p. Some (segment_shown (step_view p)) };

    fn fmt<W: Write>(&self, f: &mut Formatter<W>) -> fmt::Result {
        match self {
            SingularQuerySegment::Index(index) => write!(f, "{index}"),
            SingularQuerySegment::Name(name) => write!(f, "{name}"),
        }
    }
}

/// The segments one after another, the query or the call.
impl Display for Test {
    ghost output = { λ t. Some (test_shown (test_view t)) };

    #[cycle(display)]
    #[tactic(auto, using(crate::proofs::laws::tree::ViewEquations::view_equations))]
    fn fmt<W: Write>(&self, f: &mut Formatter<W>) -> fmt::Result {
        match self {
            Test::RelQuery(segments) => write_joined(f, segments, ""),
            Test::AbsQuery(query) => write!(f, "{query}"),
            Test::Function(function) => write!(f, "{function}"),
        }
    }
}

/// The name, and the arguments between `(` and `)`: the two of `search` and `match` with `, ` between, those of a
/// custom function one after another.
impl Display for TestFunction {
    ghost output = { λ c. Some (call_shown (call_view c)) };

    #[cycle(display)]
    #[tactic(auto, using(crate::proofs::laws::tree::ViewEquations::view_equations))]
    fn fmt<W: Write>(&self, f: &mut Formatter<W>) -> fmt::Result {
        match self {
            TestFunction::Custom(name, args) => {
                write!(f, "{name}(")?;
                write_joined(f, args, "")?;
                f.write_str(")")
            }
            TestFunction::Length(arg) => write!(f, "length({arg})"),
            TestFunction::Value(arg) => write!(f, "value({arg})"),
            TestFunction::Count(arg) => write!(f, "count({arg})"),
            TestFunction::Search(text, pattern) => write!(f, "search({text}, {pattern})"),
            TestFunction::Match(text, pattern) => write!(f, "match({text}, {pattern})"),
        }
    }
}

/// The literal, the test or the logical expression.
impl Display for FnArg {
    ghost output = { λ x. Some (argument_shown (argument_view x)) };

    #[cycle(display)]
    #[tactic(auto, using(crate::proofs::laws::tree::ViewEquations::view_equations))]
    fn fmt<W: Write>(&self, f: &mut Formatter<W>) -> fmt::Result {
        match self {
            FnArg::Literal(literal) => write!(f, "{literal}"),
            FnArg::Test(test) => write!(f, "{test}"),
            FnArg::Filter(filter) => write!(f, "{filter}"),
        }
    }
}

/// The number, the text between `"` as it is, `true` or `false`, or `null`.
impl Display for Literal {
    ghost output = { λ l. Some (literal_shown (literal_view l)) };

    fn fmt<W: Write>(&self, f: &mut Formatter<W>) -> fmt::Result {
        match self {
            Literal::Int(number) => write!(f, "{number}"),
            Literal::String(text) => write!(f, "\"{text}\""),
            Literal::Bool(truth) => write!(f, "{truth}"),
            Literal::Null => f.write_str("null"),
        }
    }
}
