//! One step of the machine for each script line (pfctl(8)): what a line says is done, or refused for the first of the refusals
//! in their order, and the reply is told whole or not at all.
//! It stands on pf_state (the machine and what may become of it), pf_script (what lines say), pf_load (loads), pf_eval (answers
//! to packets), pf_print (the lines of lists), pf_reply (replies and refusals) and pf_runs (what a run over lines is). The
//! layer above feeds it lines and files, and writes what it tells.
#![tactic(auto)]

mod bounded;
mod engine;
mod hosts;
mod laws;
mod loads;
mod outcome;
mod packets;
mod sessions;
mod shows;
mod tables;
mod telling;
mod within;

pub use engine::Engine;
pub use laws::{
    a_commit_is_stale_where_a_ruleset_was_begun_anew, a_line_does_one_thing, a_line_does_something,
    a_refusal_changes_nothing, answers_are_those_of_the_walk, judged_rulesets_answer_packets,
    plans_wait_for_their_commit, rulesets_are_begun_with_the_next_ticket,
    the_calls_of_rulesets_stay_shallow, tickets_stay_drawn,
};
pub use outcome::Outcome;
