//! Rulesets beside their optimised forms (pf.conf(5), "set ruleset-optimization"), and profiles.
//! It stands on pf_cover, pf_auto and pf_order, one for each thing that the optimiser does within a block. The layer above
//! walks through the optimised rules, whose walks are those through the written ones, and passes rules over by their skips.
#![tactic(auto)]

mod fault;
mod form;
mod key;
pub mod laws;
mod node;
mod profile;
mod reading;
mod rows;
mod ruleset;
mod skip;

pub use fault::ProfileFault;
pub use laws::{
    blocks_act_once, optimised_rules_mean_the_same, optimised_rules_name_their_tables,
    optimised_rules_walk_alike, profiles_have_one_meaning,
};
pub use node::Node;
pub use pf_base::Level;
pub use profile::Profile;
pub use reading::read_profile;
pub use rows::Row;
pub use ruleset::{Ruleset, optimise};
