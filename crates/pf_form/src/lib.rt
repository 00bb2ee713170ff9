//! The forms of rules, antispoof and load anchor, pf.conf(5), GRAMMAR: what such a statement says before its words are given a
//! meaning, and the productions of its parts: direction, log, interfaces, family, protocols and hosts; flags, `tos`, `prio`,
//! states, `set` and `scrub`. Each production stands in specs/, beside the function that takes it from the tokens.
//! It stands on pf_base, pf_token, pf_ops, pf_parts, pf_syntax, and on the parameters of pf_rule. The grammar of statements is
//! made of these parts, and expansion makes rules of the forms.
#![tactic(auto)]

pub mod blank;
pub mod flags;
pub mod form;
pub mod hosts;
pub mod keyword;
pub mod kind;
pub mod log;
pub mod setting;
pub mod state;

pub use form::{Draft, FlagsForm, Head, RuleForm};
