//! Host facts: the interfaces of a host with their groups and addresses, its names of hosts, users, groups
//! and services, read from a facts file. It stands on pf_base (names, lines, fields, numbers) and on pf_addr
//! (addresses and prefixes). The layers above use that [`read_facts`] takes exactly the facts files and gives
//! what their lines say, and that each question is answered by those lists (`specs/Queries.antt`).
#![tactic(auto)]

mod addresses;
mod entry;
pub mod facts;
pub mod fault;
mod index;
mod kind;
pub mod laws;
mod lists;
mod names;
pub mod read;
mod row;
mod statement;

pub use facts::Facts;
pub use fault::{FactsCause, FactsFault};
pub use laws::{facts_and_one_fault_exclude_each_other, facts_have_one_meaning};
pub use read::read_facts;
