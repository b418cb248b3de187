//! The parts that only the evaluator of `jsonpath_rust` needs: the current path of a walk, the set of locations to be
//! removed or replaced, and the cache of patterns of a call.
pub use crate::current_path::CurrentPath;
pub use crate::pattern::build_error::{Built, PatternBuildError};
pub use crate::pattern::cache::{PatternCache, PatternKey, QueryMatchers};
pub use crate::pattern::slots::{DocumentPatternSlots, Origin, PatternSlots};
pub use crate::pattern::weight::MOST_WEIGHT;
pub use crate::removal::{LocationSet, SortedLocations};
pub use crate::step::StepRef;
