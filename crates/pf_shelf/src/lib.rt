//! The declared tables of a ruleset (pf.conf(5), TABLES; pfctl(8), Tables). It stands on pf_base (names, ordered
//! maps), pf_addr and pf_table. The layers above see the finite map from names to tables with their flags, change one
//! table by name, and make the shelf that a load leaves.
#![tactic(auto)]

mod alter;
mod change;
mod decl;
pub mod shelf;
mod words;

pub use change::{ChangeKind, Counts, TableFault};
pub use decl::{Shelved, TableDecl, TableFlags};
pub use shelf::Shelf;
