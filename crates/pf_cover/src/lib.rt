//! Which rules of a block are covered by others of it, so that they can go (pf.conf(5), "set ruleset-optimization").
//! It stands on the rules of pf_rule and compares the criteria of two rules one by one. Which two, it finds by how far they
//! reach on one axis: that of source, target, ports, owners or all other criteria on which the rules of the block differ
//! most. The layer above drops what isn't kept, and uses the laws that a covering rule matches all that the covered one
//! does, and that the kept rules of a block match together what all of them match.
#![tactic(auto)]

mod corner;
mod cover;
mod digest;
mod kept;
pub mod laws;
mod search;

pub use cover::covers;
pub use kept::{Kept, keep, keep_weighed};
pub use laws::{
    covering_rules_match_more, kept_rules_are_of_the_block, kept_rules_match_together,
    weights_go_to_kept_rules,
};
