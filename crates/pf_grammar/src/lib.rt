//! The grammar of rules, antispoof and load anchor, pf.conf(5), GRAMMAR: each production in specs/ beside the function that
//! takes it from the tokens of a statement, and the faults of a form that count behind those of its words.
//! It stands on pf_base, pf_token, pf_ops, pf_parts, pf_syntax and pf_form, whose types it hands on. A load reads a form by
//! `read_draft`, and other callers by `read_form` and `parse_rule`.
#![tactic(auto)]

pub mod forms;
pub mod head;
pub mod keyword;
pub mod late;
pub mod option;
pub mod statement;
mod words;

pub use forms::{FormRead, parse_rule, read_draft, read_form, tokens_have_one_form};
pub use late::late_of;
pub use pf_form::{Draft, FlagsForm, Head, RuleForm};
pub use pf_syntax::{FormFault, form_fault};
pub use words::forms_have_words;
