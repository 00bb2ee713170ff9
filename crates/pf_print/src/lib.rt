//! The canonical text of rules, tables, queues and settings, one spelling for each (pf.conf(5), GRAMMAR).
//! It stands on pf_base, pf_addr, pf_ops, pf_parts, pf_record, which print the parts of a rule that answers have too, pf_rule,
//! pf_table, pf_shelf and pf_decl, whose values it prints. The layers above append these texts to a reply: without memory the
//! buffer stays as it was.
#![tactic(auto)]

mod criteria;
mod effect;
mod host;
mod option;
mod queue;
mod rule;
mod set;
mod table;

pub use option::put_option;
pub use queue::put_queue;
pub use rule::put_rule;
pub use table::{put_entry, put_table};
