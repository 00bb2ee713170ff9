//! What is true of every machine that a script reaches (pfctl(8), SCRIPT LINES): each ruleset that stands says something, and what
//! stands and what waits is within the limits on sessions, rules, rulesets and entries, and no ticket is 0. And, from any machine, a
//! plan that is accepted appears whole.
//! There is no code here: its functions are laws, which a caller has by their clauses. It stands on pf_engine (what each line does)
//! and pf_state (the machine, and what may become of it). Nothing stands above it.
#![tactic(auto)]

pub mod laws;

pub use laws::{
    an_accepted_plan_appears_whole, tickets_are_numbers, what_stands_is_within_the_limits,
    what_stands_says_something,
};
