//! That a generated configuration loads, and that generated records are packets, each of which passes or is blocked (pfctl(8), -g).
//! There is no code here: its functions are laws, which a caller has by their clauses. It stands on pf_gen (what is generated),
//! pf_lexer, pf_grammar and pf_expand (what its lines say), pf_record (what its records say), pf_load and pf_plan (what their load
//! comes to), pf_state (what may be put in place) and pf_eval (what it answers). The layer above has by these laws that its generated
//! run isn't refused, and that it answers each record.
#![tactic(auto)]

pub mod laws;

pub use laws::{
    a_generated_configuration_loads, a_plan_of_one_ruleset_answers_alike,
    a_plan_of_one_ruleset_stands, a_walk_passes_or_blocks, generated_records_are_packets,
};
