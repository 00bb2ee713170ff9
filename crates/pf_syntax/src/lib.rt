//! What the statements of a configuration share of the grammar, pf.conf(5), GRAMMAR: productions with their readings,
//! names, numbers, lists, hosts, operators, and what a statement outside the grammar is refused as.
//! It stands on pf_base, pf_token, pf_ops and pf_parts. The grammars of rules and of declarations are made of it.
#![tactic(auto)]

pub mod cursor;
pub mod fault;
pub mod form;
pub mod host;
pub mod keyword;
pub mod list;
pub mod listed;
pub mod operator;
pub mod refusal;
pub mod row;
mod texts;

pub use cursor::Cursor;
pub use fault::{FormFault, Stop};
pub use form::{HostForm, HostItem, IcmpItem, OpItem, TargetWords};
pub use refusal::form_fault;
