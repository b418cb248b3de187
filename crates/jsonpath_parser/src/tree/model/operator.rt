//! The operators of comparisons (RFC 9535, 2.3.5.1).
ghost use Rattle.std.specs.Prelude.{◌≡◌, option_map};
ghost use Rattle.jsonpath_parser.specs.Prelude.{comparable_view, compare, comparison_view, operator_of, operator_view};

use super::{Comparable, Comparison};

/// How two values are compared (2.3.5.2.2).
#[derive(Clone, Copy, Debug, PartialEq)]
pub enum Operator {
    /// `==`
    Equal,
    /// `!=`
    NotEqual,
    /// `>`
    Greater,
    /// `>=`
    GreaterOrEqual,
    /// `<`
    Less,
    /// `<=`
    LessOrEqual,
}

impl Operator {
    /// The operator that the text is.
    pub(super) fn of(text: &str) -> Option<Self>
        ensures { option_map operator_view result ≡ operator_of text.now }
    {
        match text {
            "==" => Some(Operator::Equal),
            "!=" => Some(Operator::NotEqual),
            ">" => Some(Operator::Greater),
            ">=" => Some(Operator::GreaterOrEqual),
            "<" => Some(Operator::Less),
            "<=" => Some(Operator::LessOrEqual),
            _ => None,
        }
    }

    /// The comparison of left and right by this operator.
    pub fn compare(self, left: Comparable, right: Comparable) -> Comparison
        ensures { comparison_view result ≡ compare (operator_view self) (comparable_view left) (comparable_view right) }
    {
        match self {
            Operator::Equal => Comparison::Eq(left, right),
            Operator::NotEqual => Comparison::Ne(left, right),
            Operator::Greater => Comparison::Gt(left, right),
            Operator::GreaterOrEqual => Comparison::Gte(left, right),
            Operator::Less => Comparison::Lt(left, right),
            Operator::LessOrEqual => Comparison::Lte(left, right),
        }
    }
}
