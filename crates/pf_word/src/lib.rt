//! What the words of statements mean (pf.conf(5), PARAMETERS): hosts and ranges, ports, protocols, ICMP types, users
//! and groups, targets of translations, and which names tables may have. Of each list of words it gives the values that
//! they stand for and the faults of those that mean nothing.
//! It stands on pf_addr and pf_ops (texts of addresses and tables of names), pf_host (the facts of the host), pf_syntax
//! (the words as a statement has them) and pf_rule (tests of addresses). Expansion makes rules of the values, and the
//! load takes the entries of tables by [`host_prefixes`].
#![tactic(auto)]

pub mod fault;
pub mod host;
pub mod item;
pub mod kind;
pub mod laws;
pub mod number;
pub mod suffix;
pub mod table;
pub mod target;
pub mod words;

pub use fault::ExpandFault;
pub use host::{host_prefixes, mask_fault};
pub use item::read_hosts;
pub use kind::{read_icmp, read_protos};
pub use laws::{each_word_means_something, words_have_one_meaning};
pub use number::{IdKind, read_ids, read_ports};
pub use table::is_table_name;
pub use target::read_target;
pub use words::Words;
