//! What the rules of a statement test (pf.conf(5), lists and "antispoof"): the criteria of the combinations of its lists, and
//! those of an antispoof.
//! It stands on pf_rule (criteria and tests of addresses) and pf_host (the facts of the host). Expansion above makes rules of
//! the criteria.
#![tactic(auto)]

pub mod antispoof;
pub mod combine;
pub mod member;

pub use antispoof::antispoof_criteria;
pub use combine::combinations;
pub use member::Member;
