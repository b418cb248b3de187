//! Evaluates singular queries, from each node of a state or from the root (RFC 9535, 2.3.5.1). They have no pattern, so
//! they fail only where memory runs out.
ghost use Rattle.std.specs.Prelude.{◌≡◌, IfErr, IfOk, map};
ghost use Rattle.jsonpath_base.specs.Prelude.Documents.{segments_of, singular_view, step_view};
ghost use Rattle.jsonpath_rust.specs.Prelude.Documents.{Memory};
ghost use Rattle.jsonpath_rust.specs.Prelude.States.{content_at, document, segment_content, segments_content, test_content};

use crate::documents::queryable::Queryable;
use crate::states::evaluate::segments::NodeOperation;
use crate::states::evaluate::{Evaluation, Returned};
use crate::states::held::WholeData;
use jsonpath_parser::model::{SingularQuery, SingularQuerySegment};

impl<'a, T: Queryable> Evaluation<'a, T> {
    /// Returns what a query of at most one node selects, from each node or from the root.
    #[cycle(evaluate)]
    pub fn singular_data(&self, query: &SingularQuery, given: &WholeData<'a, T>) -> Returned<'a, T>
        ensures value { IfOk result (λ d. content_at d ≡ test_content (singular_view query.now) (document self.now) (content_at given.now)) }
        ensures memory { IfErr result (λ h. h ≡ Memory) }
    {
        match query {
            SingularQuery::Current(steps) => {
                let here = given.try_clone(self.alloc)?;
                self.steps_data(steps, here)
            }
            SingularQuery::Root(steps) => {
                let here = WholeData::root(self.alloc, self.root)?;
                self.steps_data(steps, here)
            }
        }
    }

    /// Applies the steps, each to the result before.
    #[cycle(evaluate)]
    pub fn steps_data(
        &self,
        steps: &[SingularQuerySegment],
        given: WholeData<'a, T>,
    ) -> Returned<'a, T>
        ensures value { IfOk result (λ d. content_at d
            ≡ segments_content (segments_of (map step_view steps.now)) (document self.now)
            (content_at given.entry)) }
        ensures memory { IfErr result (λ h. h ≡ Memory) }
    {
        let mut answer = given;
        for step in steps {
            answer = self.step_data(step, answer)?;
        }
        Ok(answer)
    }

    /// Applies a step.
    #[cycle(evaluate)]
    pub fn step_data(&self, step: &SingularQuerySegment, given: WholeData<'a, T>) -> Returned<'a, T>
        ensures value { IfOk result (λ d. content_at d ≡ segment_content (step_view step.now) (document self.now) (content_at given.entry)) }
        ensures memory { IfErr result (λ h. h ≡ Memory) }
    {
        match step {
            SingularQuerySegment::Name(name) => self.each_target(NodeOperation::Name(name), given),
            SingularQuerySegment::Index(index) => self.each_target(
                NodeOperation::Index(*index),
                given,
            ),
        }
    }
}
