//! Groups of rules that differ in one address, combined into one rule with a table (pf.conf(5), "set ruleset-optimization").
//! It stands on the rules of pf_rule and the tables of pf_table, and finds the groups by a map from what a rule is beside
//! its address. The layer above uses that the combined rules match, where each automatic table answers by its entries, what
//! the rules match, and that effects and weights stay.
#![tactic(auto)]

mod beside;
mod gather;
mod group;
pub mod laws;
mod merging;
mod place;

pub use laws::{
    combined_rules_keep_what_others_had, combined_rules_match_together, tables_are_numbered_on,
};
pub use merging::{AutoTable, Merged, merge};
pub use place::End;
