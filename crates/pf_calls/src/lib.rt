//! The graph of the calls of anchor rules (pf.conf(5), ANCHORS). It stands on pf_base (paths, lists), pf_parts (calls and
//! their targets) and the definition of child names in pf_tree. The layers above refuse maps whose calls go in a circle or
//! too deep, and walk a tree by the ranks of its paths.
#![tactic(auto)]

pub mod calls;
mod links;
mod ranks;
pub mod row;
mod search;

pub use calls::{MOST_CALLS, acyclic_calls_have_ranks, call_fault};
pub use row::{CallFault, CallRow, paths_ascend};
