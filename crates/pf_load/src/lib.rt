//! Loads a file of rules, pf.conf(5): the statements that the lexer hands out, each laid on the draft of a plan by the grammar, by
//! expansion or by the declaration of a table with its files, or refused with its first fault.
//! It stands on pf_lexer (statements, and what was read), pf_grammar, pf_decl and pf_expand (what statements say and mean), pf_entries
//! (tables with their files), pf_fault (what stops a load) and pf_plan (plans and drafts). The layer above loads by [`load`].
#![tactic(auto)]

pub mod laws;
pub mod loading;
mod reach;
mod statement;
mod way;

pub use laws::{
    a_load_comes_to_one_thing, a_load_comes_to_something, a_load_fills_each_ruleset_once,
    an_absent_file_is_no_outage, no_load_comes_to_want_of_memory,
};
pub use loading::{LoadFault, LoadOptions, load};
pub use pf_plan::{Part, Plan, Whole};
