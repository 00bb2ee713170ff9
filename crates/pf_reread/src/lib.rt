//! The law that printed rules read back: the text of each rule that a statement comes to, read as a statement, comes to that one
//! rule again, whatever macros are given and whatever the host is.
//! It stands on pf_print (the text), pf_token (its tokens), pf_grammar (their form) and pf_expand (what a form comes to).
#![tactic(auto)]

mod law;

pub use law::{
    printed_sets_read_back, rules_of_statements_are_written, rules_of_statements_read_back,
    tokens_are_as_in_a_text, written_rules_read_back,
};
