//! Tables of addresses and prefixes (pf.conf(5), TABLES). It stands on pf_base (want of memory) and pf_addr.
//! A table is kept as two binary tries, one a family; the layers above see the finite map from its prefixes
//! to their signs, and use that a look-up is decided by the longest entry that contains the address.
#![tactic(auto)]

mod bits;
pub mod entry;
mod node;
pub mod table;
mod trie;

pub use entry::Entry;
pub use table::{Table, the_longest_decides};
