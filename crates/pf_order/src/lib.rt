//! The blocks of a ruleset, and the order of the rules of a block (pf.conf(5), "set ruleset-optimization").
//! It stands on the rules of pf_rule. The layer above takes a ruleset apart into blocks, within which the order plays no
//! part for what the rules do, and uses that each order holds the same rules.
#![tactic(auto)]

mod agreement;
mod block;
mod column;
pub mod laws;
mod profile;
mod rank;

pub use agreement::gain;
pub use block::{Span, blocks};
pub use laws::{orders_hold_the_same_rules, runs_are_the_longest, the_most_used_first_cost_least};
pub use profile::order_profile;
pub use rank::order_gain;
