//! Evaluates segments and selectors on any state: each on the result before, node by node.
ghost use Rattle.std.specs.Prelude.{◌≡◌, IfErr, IfOk};
ghost use Rattle.jsonpath_base.specs.Prelude.Documents.{filter_patterns, filter_view, segment_patterns, segment_view, segments_in, segments_patterns, selector_patterns, selector_view, selectors_in, selectors_patterns};
ghost use Rattle.jsonpath_rust.specs.Prelude.States.{content_at, document, HaltsBelow, holds_at, joined_from, kept_from, mapped, nothing, part_content, part_patterns, ref, segment_content, segments_content, selector_content, several_content, target_at};

use crate::documents::queryable::Queryable;
use crate::states::evaluate::test::keep_if;
use crate::states::evaluate::{Evaluation, Returned};
use crate::states::held::{WholeData, WholePointerRef, WholePointers};
use crate::states::state::{Data, Pointer};
use jsonpath_parser::model::{Filter, Segment, Selector};

/// What is done at each node.
#[derive(Clone, Copy)]
pub enum NodeOperation<'s> {
    Name(&'s String),
    Wildcard,
    Index(i64),
    Slice(Option<i64>, Option<i64>, Option<i64>),
    /// Returns the node and all nodes below it that are lists or objects.
    Parents,
    /// Returns the children at which the filter holds.
    Kept(&'s Filter),
    /// Returns what each of the selectors picks.
    Joined(&'s [Selector]),
}

impl<'a, T: Queryable> Evaluation<'a, T> {
    /// Applies the segments, each to the result before.
    #[cycle(evaluate)]
    pub fn segments_data(&self, segments: &[Segment], given: WholeData<'a, T>) -> Returned<'a, T>
        ensures value { IfOk result (λ d. content_at d
            ≡ segments_content (segments_in segments.now) (document self.now)
            (content_at given.entry)) }
        ensures refused { IfErr result (HaltsBelow (segments_patterns (segments_in segments.now))
            (document self.now) (content_at given.entry)) }
    {
        let mut answer = given;
        for segment in segments {
            answer = self.segment_data(segment, answer)?;
        }
        Ok(answer)
    }

    /// Applies a segment.
    #[cycle(evaluate)]
    pub fn segment_data(&self, segment: &Segment, given: WholeData<'a, T>) -> Returned<'a, T>
        ensures value { IfOk result (λ d. content_at d
            ≡ segment_content (segment_view segment.now) (document self.now)
            (content_at given.entry)) }
        ensures refused { IfErr result (HaltsBelow (segment_patterns (segment_view segment.now))
            (document self.now) (content_at given.entry)) }
    {
        match segment {
            Segment::Selector(one) => self.selector_data(one, given),
            Segment::Selectors(several) => self.several_data(several, given),
            Segment::Descendant(inner) => {
                let below = self.each_target(NodeOperation::Parents, given)?;
                self.segment_data(inner, below)
            }
        }
    }

    /// Applies several selectors, node by node. No selector at all returns nothing on every state.
    #[cycle(evaluate)]
    fn several_data(&self, selectors: &[Selector], given: WholeData<'a, T>) -> Returned<'a, T>
        ensures value { IfOk result (λ d. content_at d
            ≡ several_content (selectors_in selectors.now) (document self.now)
            (content_at given.entry)) }
        ensures refused { IfErr result (HaltsBelow (selectors_patterns (selectors_in selectors.now))
            (document self.now) (content_at given.entry)) }
    {
        match selectors.split_first() {
            None => Ok(WholeData::nothing()),
            Some((_first, _rest)) => self.each_target(NodeOperation::Joined(selectors), given),
        }
    }

    /// Applies a selector.
    #[cycle(evaluate)]
    pub fn selector_data(&self, selector: &Selector, given: WholeData<'a, T>) -> Returned<'a, T>
        ensures value { IfOk result (λ d. content_at d
            ≡ selector_content (selector_view selector.now) (document self.now)
            (content_at given.entry)) }
        ensures refused { IfErr result (HaltsBelow (selector_patterns (selector_view selector.now))
            (document self.now) (content_at given.entry)) }
    {
        match selector {
            Selector::Name(name) => self.each_target(NodeOperation::Name(name), given),
            Selector::Wildcard => self.each_target(NodeOperation::Wildcard, given),
            Selector::Index(index) => self.each_target(NodeOperation::Index(*index), given),
            Selector::Slice(start, end, step) => {
                self.each_target(NodeOperation::Slice(*start, *end, *step), given)
            }
            Selector::Filter(filter) => self.each_target(NodeOperation::Kept(filter), given),
        }
    }

    /// Applies the operation at each node, and joins the results as `flat_map` does.
    #[cycle(evaluate)]
    pub fn each_target(&self, part: NodeOperation<'_>, given: WholeData<'a, T>) -> Returned<'a, T>
        ensures value { IfOk result (λ d. content_at d ≡ mapped (part_content part.entry (document self.now)) (content_at given.entry)) }
        ensures refused { IfErr result (HaltsBelow (part_patterns part.entry) (document self.now) (content_at given.entry)) }
    {
        let content = given.content;
        match content {
            Data::Ref(from) => self.at_target(part, WholePointerRef { pointer: &from }),
            Data::Refs(targets) => {
                let mut all = WholePointers::new(self.alloc);
                for from in &targets {
                    let found = self.at_target(part, WholePointerRef { pointer: from })?;
                    all.append(found)?;
                }
                Ok(WholeData::nodes(all))
            }
            Data::Value(_value) => Ok(WholeData::nothing()),
            Data::Nothing => Ok(WholeData::nothing()),
        }
    }

    /// Applies the operation at a node.
    #[cycle(evaluate)]
    fn at_target(
        &self,
        part: NodeOperation<'_>,
        from: WholePointerRef<'_, 'a, T>,
    ) -> Returned<'a, T>
        ensures value { IfOk result (λ d. content_at d ≡ part_content part.entry (document self.now) (target_at from.entry)) }
        ensures refused { IfErr result (HaltsBelow (part_patterns part.entry) (document self.now) (ref (target_at from.entry))) }
    {
        match part {
            NodeOperation::Name(name) => Ok(from.named(self.alloc, name)?),
            NodeOperation::Wildcard => Ok(from.wildcard(self.alloc)?),
            NodeOperation::Index(index) => Ok(from.indexed(self.alloc, index)?),
            NodeOperation::Slice(start, end, step) => Ok(from.sliced(
                self.alloc, start, end, step,
            )?),
            NodeOperation::Parents => Ok(from.parents(self.alloc)?),
            NodeOperation::Kept(filter) => self.matching_children(filter, from),
            NodeOperation::Joined(selectors) => self.joined(selectors, from),
        }
    }

    /// Returns the children at which the filter holds.
    #[cycle(evaluate)]
    fn matching_children(
        &self,
        filter: &Filter,
        from: WholePointerRef<'_, 'a, T>,
    ) -> Returned<'a, T>
        ensures value { IfOk result (λ d. content_at d
            ≡ kept_from (holds_at (filter_view filter.now) (document self.now))
            (target_at from.entry)) }
        ensures refused { IfErr result (HaltsBelow (filter_patterns (filter_view filter.now))
            (document self.now) (ref (target_at from.entry))) }
    {
        match from.parts(self.alloc)? {
            Some(children) => {
                let mut found = WholePointers::new(self.alloc);
                for child in &children.list {
                    let content = Data::Ref(Pointer::empty(self.alloc, child.inner));
                    let inside = WholeData { content };
                    let is_kept = self.holds(filter, &inside)?;
                    keep_if(
                        self.alloc,
                        is_kept,
                        WholePointerRef { pointer: child },
                        &mut found,
                    )?;
                }
                Ok(WholeData::nodes(found))
            }
            None => Ok(WholeData::nothing()),
        }
    }

    /// Returns what each of the selectors picks at a node, one after the other.
    #[cycle(evaluate)]
    fn joined(&self, selectors: &[Selector], from: WholePointerRef<'_, 'a, T>) -> Returned<'a, T>
        ensures value { IfOk result (λ d. content_at d
            ≡ joined_from (selectors_in selectors.now) (document self.now) nothing
            (target_at from.entry)) }
        ensures refused { IfErr result (HaltsBelow (selectors_patterns (selectors_in selectors.now))
            (document self.now) (ref (target_at from.entry))) }
    {
        let mut all = WholeData::nothing();
        for selector in selectors {
            let here = WholeData::node(from.try_clone(self.alloc)?);
            let found = self.selector_data(selector, here)?;
            all = all.reduce(self.alloc, found)?;
        }
        Ok(all)
    }
}
