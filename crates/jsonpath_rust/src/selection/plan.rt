//! The plan of a query: what a walk does at a node, decided once and not at each node.
//!
//! It says which queries inside filters are looked up and which are walked, which expressions are constants, and which
//! patterns are equal. `make` makes it in one pass over the query, `numbering` numbers its constants and patterns,
//! `steps` recognizes the queries that are looked up, and `questions` has what a walk asks of it.
ghost use Rattle.jsonpath_rust.specs.selection.inner.PlanViews.{IsRooted, IsRooted-prop, IsStable, IsStable-prop};

mod make;
mod numbering;
mod questions;
mod steps;

pub use self::make::plan_of;
pub use self::numbering::{DOCUMENT_LEVELS, RootNesting, When};
pub use self::questions::only_filter;
use crate::selection::sink::Demand;
use jsonpath_parser::model::{Literal, Operator, SingularQuerySegment};

/// Frees a plan.
pub fn release(plan: Plan) {
    drop(plan);
}

/// The plan of a query.
#[derive(Drop)]
pub struct Plan {
    pub segments: Vec<Segment>,
    /// The constants of the query, by number. A constant that is in the filters of another has the smaller number.
    pub constants: Vec<Constant>,
    /// How deep queries from the root are nested in one another inside filters. The query itself does not count.
    pub nesting: RootNesting,
    /// The number of patterns that have a number. Each of these numbers is smaller.
    pub pattern_count: usize,
    ghost stable: { IsStable constants.items } by { IsStable-prop constants.items },
    ghost rooted: { IsRooted constants.items } by { IsRooted-prop constants.items },
}

/// A part of a filter that does not depend on the node under test: each `@` in it belongs to a filter of a query from
/// the root inside it. It is evaluated once in a call.
#[derive(Drop)]
pub enum Constant {
    /// What is demanded of the nodes of a query from the root.
    Nodes {
        segments: Vec<Segment>,
        demand: Demand,
        when: When,
    },
    /// What a call returns.
    Answer(Call),
    /// Whether the operator holds between the two sides.
    Comparison(Operator, Expr, Expr),
}

/// A comparison in a plan.
#[derive(Clone, Copy)]
pub struct Comparison<'s> {
    pub operator: Operator,
    pub left: &'s Expr,
    pub right: &'s Expr,
}

/// A segment, which replaces each node by nodes below it (RFC 9535, 2.5).
#[derive(Drop)]
#[cycle(plan)]
pub enum Segment {
    /// `..`: the segment at each node and at all nodes below it.
    Descendant(Box<Segment>),
    /// One selector.
    Selector(Selector),
    /// Several selectors, node by node and in their order.
    Selectors(Vec<Selector>),
}

/// Where a segment goes from a node (RFC 9535, 2.3).
#[derive(Drop)]
#[cycle(plan)]
pub enum Selector {
    /// To the member of this name.
    Name(String),
    /// To each child.
    Wildcard,
    /// To the element of this index, counted from the end where it is negative.
    Index(i64),
    /// To the elements from a start to before an end, by a step.
    Slice(Option<i64>, Option<i64>, Option<i64>),
    /// To the children at which the filter holds.
    Filter(Filter),
}

/// A logical expression (RFC 9535, 2.3.5).
#[derive(Drop)]
#[cycle(plan)]
pub enum Filter {
    /// Holds if some operand holds.
    Or(Vec<Filter>),
    /// Holds if every operand holds.
    And(Vec<Filter>),
    /// Holds if the filter holds; negated if `not`.
    Group { expr: Box<Filter>, not: bool },
    /// Holds if the expression is a query with a node, or a call that returns true; negated if `not`.
    Test { part: Expr, not: bool },
    /// Holds if the operator holds between the two sides.
    Comparison(Operator, Expr, Expr),
    /// Holds if the constant of this number, which is a comparison, holds.
    Constant(usize),
}

/// An expression by how it is evaluated: a test, a side of a comparison (RFC 9535, 2.3.5.1), or an argument of a call.
/// Its place in the filter says what is demanded of the nodes of a query.
#[derive(Drop)]
#[cycle(plan)]
pub enum Expr {
    /// A literal.
    Literal(Literal),
    /// A text that is used as a pattern, and its number. Equal texts have one number for `match`, and another for
    /// `search`.
    Pattern(String, usize),
    /// The node that these steps from the current node lead to.
    Lookup(Vec<SingularQuerySegment>),
    /// All children of the node that these steps from the current node lead to. If the demand is neither `Exists` nor
    /// `Count`, this is their count as a value.
    Children(Vec<SingularQuerySegment>),
    /// The nodes that a walk of these segments from the current node selects.
    Walk(Vec<Segment>),
    /// What a call returns that is evaluated at each node.
    Call(Box<Call>),
    /// Whether a filter holds.
    Filter(Box<Filter>),
    /// The constant of this number.
    Constant(usize),
}

/// A call of a function (RFC 9535, 2.4).
#[derive(Drop)]
#[cycle(plan)]
pub enum Call {
    /// A function of any name. It takes all values of its arguments.
    Custom(String, Vec<Expr>),
    /// `length`
    Length(Expr),
    /// `value`
    Value(Expr),
    /// `count`
    Count(Expr),
    /// `search`
    Search(Expr, Expr),
    /// `match`
    Match(Expr, Expr),
}
