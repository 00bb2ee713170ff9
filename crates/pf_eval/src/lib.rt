//! What the rulesets of a tree answer to a packet (pf.conf(5), PACKET FILTERING and ANCHORS): the walk through the main
//! ruleset and all that its anchor rules call, through optimised rules and by skip steps.
//! It stands on pf_rule (rules, walks and probes), pf_host (the interfaces), pf_shelf and pf_table (tables), pf_tree and
//! pf_optim (the tree of rulesets beside their optimised forms) and pf_calls (which rulesets call which). The layer above
//! keeps the tree, of whose calls it knows that they go in no circle and not too deep, and asks for answers.
#![tactic(auto)]

mod evaluator;
mod laws;
mod longest;
mod tables;
mod walk;

pub use evaluator::eval;
pub use laws::{
    fewer_calls_stay_shallow, optimised_rulesets_stand_for_written_ones,
    rules_up_to_a_skip_are_passed_over, tests_need_no_bound, walks_need_no_bound,
};
pub use pf_calls::{CallFault, CallRow, call_fault};
pub use pf_optim::Node;
