//! The sinks of a walk: they take its nodes, and make of them what a caller or a filter needs.
//!
//! This file also holds the demand of a filter, which says what it needs of the nodes, and `Only`, which says whether
//! there is one node.
ghost use Rattle.jsonpath_base.specs.Prelude.Documents.{Node, location_count, location_set, location_view, of_nodes, paths_of, root_node, shown};
ghost use Rattle.jsonpath_rust.specs.Prelude.Documents.{Memory, filter_value_tree, tree_of};
ghost use Rattle.jsonpath_rust.specs.Prelude.Selection.{Fed, FeedsInSync, IsOnlyOf, count_in, counted, demand_of, few, finished, is_counted, location_set_in, locations_in, node_of, nodes_in, paths_in, result_view, seen, seen_few, seen_sole, sole_node, start, told_of, values_in};
ghost use Rattle.std.specs.Prelude.{IfErr, IfOk, IfSome, IsTrue, Some, [], map, option_map, option_to_list, ℕ, ◌∷◌, ◌≡◌};

use crate::documents::filter_value::{
    FilterValue, FilterValueRef, GREATEST_COUNT, Scalar, count_scalar,
};
use crate::documents::nodes::{WholeNodes, WholeSingle, WholeValues};
use crate::documents::queryable::Queryable;
use crate::documents::walk_error::WalkResult;
use crate::documents::whole::WholeRef;
use crate::documents::{QueryPath, QueryRef};
use crate::selection::constants::CachedResult;
use jsonpath_base::Step;
use jsonpath_base::engine::{CurrentPath, LocationSet};
use std::alloc::Global;

/// What a filter needs of the nodes of a query.
#[derive(Clone, Copy, Debug, PartialEq)]
pub enum Demand {
    /// Whether there is one.
    Exists,
    /// How many there are.
    Count,
    /// The value of the only one.
    Single,
    /// All their values.
    Values,
}

impl Demand {
    /// Returns what is demanded of one node, which has this value, or of none. For `Values`, which is no single value,
    /// that is absent.
    #[inline(always)]
    pub fn of<'a, 's, T: Queryable>(self, value: Option<WholeRef<'a, T>>) -> FilterValue<'a, 's, T>
        ensures { filter_value_tree result ≡ demand_of self (of_nodes (map root_node (option_to_list (option_map tree_of value.entry)))) }
    {
        match self {
            Demand::Exists => FilterValue::Ref(FilterValueRef::Plain(Scalar::Truth(
                value.is_some(),
            ))),
            Demand::Count => match value {
                Some(_value) => FilterValue::Ref(FilterValueRef::Plain(count_scalar(1))),
                None => FilterValue::Ref(FilterValueRef::Plain(count_scalar(0))),
            },
            Demand::Single => FilterValue::from_ref(value),
            Demand::Values => FilterValue::Ref(FilterValueRef::Absent),
        }
    }

    /// Returns whether the number of nodes is enough for the demand.
    pub fn is_counted(self) -> bool
        ensures { result ≡ is_counted self }
    {
        match self {
            Demand::Exists | Demand::Count => true,
            Demand::Single | Demand::Values => false,
        }
    }

    /// Returns what is demanded of `count` nodes: their number, or whether there is one.
    #[inline(always)]
    pub fn of_count<'a, 's, T: Queryable>(self, count: usize) -> FilterValue<'a, 's, T>
        ensures { filter_value_tree result ≡ Some (told_of self count) }
    {
        match self {
            Demand::Exists => FilterValue::Ref(FilterValueRef::Plain(Scalar::Truth(count > 0))),
            _ => FilterValue::Ref(FilterValueRef::Plain(count_scalar(count))),
        }
    }
}

/// Takes the nodes of a walk, in order.
#[derive(Drop)]
pub enum Sink<'a, T: Queryable> {
    /// Collects the value and the Normalized Path of each node.
    Nodes(WholeNodes<'a, T>),
    /// Collects the Normalized Path of each node.
    Paths(Vec<QueryPath>),
    /// Collects the value of each node, and makes no path.
    Values(WholeValues<'a, T>),
    /// Collects the location of each node, with names of its own.
    Locations(Vec<Vec<Step>>),
    /// Marks the location of each node, to be removed or replaced. The number is what a copy of the value that is put
    /// there costs. The set is in a box, so that the other sinks stay small.
    LocationSet(Box<LocationSet>, usize),
    /// Counts the nodes, and stops at `most`; `room` more may come.
    Count { room: usize, most: usize },
    /// Takes the only node, and stops at the second.
    Single(WholeSingle<'a, T>),
    /// Collects the values and Normalized Paths of the first nodes, and stops at the last of these.
    Few(FirstNodes<'a, T>),
}

impl<'a, T: Queryable> Sink<'a, T> {
    /// Returns a sink for a demand, with no node yet.
    #[inline(always)]
    pub fn start(alloc: Global, demand: Demand) -> Self
        ensures { seen result ≡ start demand }
    {
        match demand {
            Demand::Exists => Sink::Count { room: 1, most: 1 },
            Demand::Count => Sink::Count {
                room: GREATEST_COUNT,
                most: GREATEST_COUNT,
            },
            Demand::Single => Sink::Single(WholeSingle::Nothing),
            Demand::Values => Sink::Values(WholeValues::new(alloc)),
        }
    }

    /// Returns a sink for the first nodes, at most `most`.
    pub fn first(alloc: Global, most: usize) -> Self
        ensures { seen result ≡ few most [] }
    {
        Sink::Few(FirstNodes {
            nodes: WholeNodes::new(alloc),
            room: most,
        })
    }

    /// Takes the current node, which has this value. Returns whether the walk goes on.
    #[inline(always)]
    pub fn take(
        &mut self,
        alloc: Global,
        value: WholeRef<'a, T>,
        current_path: &mut CurrentPath<'_>,
    ) -> WalkResult<bool>
        ensures outcome { FeedsInSync (self.old, current_path.old) (self.new, current_path.new) (node_of current_path.old.steps.items value.entry ∷ []) result }
        ensures same { current_path.new.steps.items ≡ current_path.old.steps.items }
        ensures memory { IfErr result (λ h. h ≡ Memory) }
    {
        match self {
            Sink::Nodes(nodes) => {
                nodes.push(value, current_path.path(alloc)?)?;
                Ok(true)
            }
            Sink::Paths(paths) => {
                paths.push(current_path.path(alloc)?)?;
                Ok(true)
            }
            Sink::Values(values) => {
                values.push(value)?;
                Ok(true)
            }
            Sink::Locations(locations) => {
                locations.push(current_path.location(alloc)?)?;
                Ok(true)
            }
            Sink::LocationSet(removal, _copy) => {
                removal.add_behind(alloc, &current_path.steps, current_path.shared_len)?;
                current_path.mark_shared();
                Ok(true)
            }
            Sink::Count { room, .. } => Ok(take_count(room)),
            Sink::Single(only) => Ok(take_sole(only, value)),
            Sink::Few(first) => first.take(alloc, value, current_path),
        }
    }

    /// Returns whether the walk may end before its last node.
    #[inline(always)]
    pub fn may_end(&self) -> bool {
        match self {
            Sink::Count { most, .. } => *most == 1,
            Sink::Single(_) | Sink::Few(_) => true,
            _ => false,
        }
    }

    /// Returns what was demanded of the nodes that the sink took.
    #[inline(always)]
    pub fn finish<'s>(self, demand: Demand) -> CachedResult<'a, 's, T>
        ensures { result_view result ≡ finished demand (seen self.entry) }
    {
        match self {
            Sink::Count { room, most } => CachedResult::Value(demand.of_count(most.saturating_sub(
                room,
            ))),
            Sink::Single(WholeSingle::One(value)) => CachedResult::Value(FilterValue::Ref(
                FilterValueRef::Borrowed(value),
            )),
            Sink::Values(values) => CachedResult::Values(values),
            other => {
                drop(other);
                CachedResult::Value(FilterValue::Ref(FilterValueRef::Absent))
            }
        }
    }

    /// Returns how many nodes a `Count` took.
    pub fn into_count(self) -> usize
        ensures { result ≡ count_in (seen self.entry) }
    {
        match self {
            Sink::Count { room, most } => most.saturating_sub(room),
            other => {
                drop(other);
                0
            }
        }
    }

    /// Returns the nodes that a `Nodes` or a `Few` took.
    pub fn into_nodes(self, alloc: Global) -> WholeNodes<'a, T>
        ensures { shown T.tree result.list.items ≡ nodes_in (seen self.entry) }
    {
        match self {
            Sink::Nodes(nodes) => nodes,
            Sink::Few(first) => first.nodes,
            other => {
                drop(other);
                WholeNodes::new(alloc)
            }
        }
    }

    /// Returns the paths of the nodes that a `Paths` took.
    pub fn into_paths(self, alloc: Global) -> Vec<QueryPath>
        ensures { paths_of result.items ≡ paths_in (seen self.entry) }
    {
        match self {
            Sink::Paths(paths) => paths,
            other => {
                drop(other);
                Vec::new(alloc)
            }
        }
    }

    /// Returns the locations of the nodes that a `Locations` took.
    pub fn into_locations(self, alloc: Global) -> Vec<Vec<Step>>
        ensures { map (λ l. location_view l.items) result.items ≡ locations_in (seen self.entry) }
    {
        match self {
            Sink::Locations(locations) => locations,
            other => {
                drop(other);
                Vec::new(alloc)
            }
        }
    }

    /// Returns the locations that a `LocationSet` marked.
    pub fn into_removal(self) -> Option<Box<LocationSet>>
        ensures { option_map (λ r. (location_set r.value, location_count r.value)) result ≡ location_set_in (seen self.entry) }
    {
        match self {
            Sink::LocationSet(removal, _copy) => Some(removal),
            other => {
                drop(other);
                None
            }
        }
    }

    /// Returns the values of the nodes that a `Values` took.
    pub fn into_values(self, alloc: Global) -> WholeValues<'a, T>
        ensures { map (λ v. T.tree v.now) result.list.items ≡ values_in (seen self.entry) }
    {
        match self {
            Sink::Values(values) => values,
            other => {
                drop(other);
                WholeValues::new(alloc)
            }
        }
    }
}

/// Counts a node. Returns whether there is room for another.
#[inline(always)]
fn take_count(room: &mut usize) -> bool
    ensures { (n : Node) (most : ℕ) → Fed (counted room.old most) (n ∷ []) (counted room.new most) result }
{
    *room = room.saturating_sub(1);
    *room > 0
}

/// Takes a node. Returns true if it is the first, so that the walk goes on.
#[inline(always)]
fn take_sole<'a, T: Queryable>(only: &mut WholeSingle<'a, T>, value: WholeRef<'a, T>) -> bool
    ensures { (n : Node) → n.tree ≡ tree_of value.entry → Fed (seen_sole only.old) (n ∷ []) (seen_sole only.new) result }
{
    match only {
        WholeSingle::Nothing => {
            *only = WholeSingle::One(value);
            true
        }
        _ => {
            *only = WholeSingle::Several;
            false
        }
    }
}

/// The first nodes of a walk, as many as there is room for.
#[derive(Drop)]
pub struct FirstNodes<'a, T: Queryable> {
    pub nodes: WholeNodes<'a, T>,
    /// The number of nodes that it still takes.
    pub room: usize,
}

impl<'a, T: Queryable> FirstNodes<'a, T> {
    /// Takes a node if there is room. Returns whether there is room for another.
    fn take(
        &mut self,
        alloc: Global,
        value: WholeRef<'a, T>,
        current_path: &mut CurrentPath<'_>,
    ) -> WalkResult<bool>
        ensures outcome { IfOk result (λ b. Fed (seen_few self.old)
            (node_of current_path.old.steps.items value.entry ∷ []) (seen_few self.new) b) }
        ensures same { current_path.new.steps.items ≡ current_path.old.steps.items }
        ensures memory { IfErr result (λ h. h ≡ Memory) }
    {
        if self.room == 0 {
            return Ok(false);
        }
        self.nodes.push(value, current_path.path(alloc)?)?;
        self.room -= 1;
        Ok(self.room > 0)
    }
}

/// Whether a query selects no node, one node, or several.
///
/// It counts nodes and not values, so a node that is selected twice counts twice: `$['a','a']` selects several nodes if
/// there is an `a`.
#[derive(Debug, Drop)]
pub enum Only<'a, T> {
    /// The query selects nothing.
    Nothing,
    /// It selects this node alone.
    One(QueryRef<'a, T>),
    /// It selects more than one.
    Several,
}

impl<'a, T: Queryable> Only<'a, T> {
    /// Returns the node, if it is the only one.
    pub fn one(self) -> Option<QueryRef<'a, T>>
        ensures { result ≡ sole_node self.entry }
    {
        match self {
            Only::Nothing => None,
            Only::One(node) => Some(node),
            Only::Several => None,
        }
    }
}

impl<'a, T: Queryable> WholeNodes<'a, T> {
    /// Returns whether these are no node, one node, or several.
    pub fn into_only(self) -> Only<'a, T>
        ensures complete { IsOnlyOf T.tree (shown T.tree self.entry.list.items) result }
        ensures whole { IfSome (sole_node result) (λ n. IsTrue (T.is_whole n.val.now)) }
    {
        let mut list = self.list;
        let last = list.pop();
        match (list.pop(), last) {
            (None, None) => Only::Nothing,
            (None, Some(node)) => Only::One(node),
            (Some(_node), _) => Only::Several,
        }
    }
}
