//! Proved callers of `jsonpath_rust`: each has a contract of its own, which follows from the contracts of what it calls.
//!
//! The README's first steps are `first_steps`. One document is asked by `first`, `again` and `methods`, several by `inbox`; what two
//! queries answer is compared by `difference` and `same`. Conditions choose and judge in `routing`, `assertion` and `policy`; `gateway`
//! tells which queries a tenant may ask. Documents are changed by `changing`, `redaction`, `script` and `patch`.
#![tactic(auto)]

pub mod again;
pub mod assertion;
pub mod changing;
pub mod difference;
pub mod first;
pub mod first_steps;
pub mod gateway;
pub mod inbox;
pub mod methods;
pub mod patch;
pub mod policy;
pub mod redaction;
pub mod routing;
pub mod same;
pub mod script;
