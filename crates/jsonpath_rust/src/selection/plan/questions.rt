//! The answers that a plan has for a walk: the constant of a number, whether an expression is a query, and the filter
//! of a query `$[?..]`.
ghost use Rattle.std.specs.Prelude.{◌<◌, ◌≡◌, IfNone, IfSome, IsFalse, IsTrue, length, option_map};
ghost use Rattle.jsonpath_base.specs.Prelude.Documents.{absolute, no_segments, test_argument};
ghost use Rattle.jsonpath_rust.specs.Prelude.Selection.{Constants, IsQuery, IsValue, argument_at, constant_view, constants_view, filter_of, filter_view, fits, is_query_part, is_same_demand, part_at, segment_filter, segment_view, segments_meant};

use super::{Constant, Expr, Filter, Plan, Segment, Selector};
use crate::selection::sink::Demand;

impl Plan {
    /// Returns the constant of this number, if it fits the demand.
    #[inline(always)]
    pub fn constant(&self, number: usize, demand: Demand) -> Option<&Constant>
        ensures part { IfSome result (λ c. part_at (constants_view self.now.constants.items) number
            ≡ constant_view (constants_view self.now.constants.items) c.now) }
        ensures fits { IfSome result (λ c. IsTrue (fits demand (part_at (constants_view self.now.constants.items) number))) }
        ensures within { IfSome result (λ c. number < length (constants_view self.now.constants.items)) }
        ensures none { IfNone result (argument_at (constants_view self.now.constants.items) demand number
            ≡ test_argument (absolute no_segments)) }
    {
        let constant = self.constants.get(number)?;
        if constant.fits(demand) {
            Some(constant)
        } else {
            None
        }
    }

    /// Returns whether an expression is a query for this demand, or else a value.
    pub fn is_query(&self, part: &Expr, demand: Demand) -> bool
        ensures query { IsTrue result → IsQuery (constants_view self.now.constants.items) part.now demand }
        ensures value { IsFalse result → IsValue (constants_view self.now.constants.items) part.now demand }
    {
        match part {
            Expr::Literal(_literal) => false,
            Expr::Pattern(_text, _number) => false,
            Expr::Lookup(_steps) => true,
            Expr::Children(_steps) => demand.is_counted(),
            Expr::Walk(_segments) => true,
            Expr::Call(_call) => false,
            Expr::Filter(_filter) => false,
            Expr::Constant(number) => match self.constants.get(*number) {
                Some(constant) => constant.is_query(),
                None => true,
            },
        }
    }
}

impl Constant {
    /// Returns whether the constant fits the demand: it is no query, or a query with the same demand.
    #[inline(always)]
    fn fits(&self, demand: Demand) -> bool
        ensures { (constants : Constants) → result ≡ fits demand (constant_view constants self.now) }
    {
        match self {
            Constant::Nodes {
                demand: made_for,
                ..
            } => is_same_demand(demand, *made_for),
            Constant::Answer(_call) => true,
            Constant::Comparison(_operator, _left, _right) => true,
        }
    }

    /// Returns whether the constant is a query.
    fn is_query(&self) -> bool
        ensures { (constants : Constants) → result ≡ is_query_part (constant_view constants self.now) }
    {
        match self {
            Constant::Nodes { .. } => true,
            Constant::Answer(_call) => false,
            Constant::Comparison(_operator, _left, _right) => false,
        }
    }
}

/// Returns whether two demands are the same.
#[inline(always)]
fn is_same_demand(left: Demand, right: Demand) -> bool
    ensures { result ≡ is_same_demand left right }
{
    match (left, right) {
        (Demand::Exists, Demand::Exists) => true,
        (Demand::Count, Demand::Count) => true,
        (Demand::Single, Demand::Single) => true,
        (Demand::Values, Demand::Values) => true,
        _ => false,
    }
}

/// Returns the filter, if these segments are one filter alone.
pub fn only_filter(segments: &[Segment]) -> Option<&Filter>
    ensures { (constants : Constants) → option_map (λ f. filter_view constants f.now) result ≡ filter_of (segments_meant constants segments.now) }
{
    match segments.split_first() {
        None => None,
        Some((first, rest)) => {
            if rest.is_empty() {
                segment_filter(first)
            } else {
                None
            }
        }
    }
}

/// Returns the filter, if the segment is one filter alone.
fn segment_filter(segment: &Segment) -> Option<&Filter>
    ensures { (constants : Constants) → option_map (λ f. filter_view constants f.now) result ≡ segment_filter (segment_view constants segment.now) }
{
    match segment {
        Segment::Selector(selector) => match selector {
            Selector::Filter(filter) => Some(filter),
            Selector::Name(_) => None,
            Selector::Wildcard => None,
            Selector::Index(_) => None,
            Selector::Slice(_, _, _) => None,
        },
        Segment::Selectors(_) => None,
        Segment::Descendant(_) => None,
    }
}
