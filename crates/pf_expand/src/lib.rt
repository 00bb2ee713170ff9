//! Expansion of statements (pf.conf(5), lists, "antispoof" and PACKET FILTERING): the rules that a form comes to, or its first
//! fault.
//! It stands on pf_form (what a statement says), pf_word (what its words mean), pf_combine (combinations and antispoof), pf_host
//! (the facts of the host) and pf_rule (the rules). The load above adds the rules to its rulesets and answers the faults.
#![tactic(auto)]

pub mod faults;
mod laws;
mod lists;
pub mod order;
pub mod readings;
mod rules;
pub mod statement;

pub use laws::{
    a_statement_comes_to_one_thing, a_statement_comes_to_something, expanded_rules_are_written,
};
pub use order::{Defaults, Order};
pub use statement::expand;
