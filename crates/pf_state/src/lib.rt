//! The machine of script lines: the rulesets of the tree with their tables, the settings of the whole, the facts of the host,
//! open sessions and tickets; what a load, a session's commit, a flush and a change of a table make of it, all at once or not
//! at all; and why each is refused (pf(4), DIOCXBEGIN and DIOCXCOMMIT; pfctl(8), SCRIPT LINES).
//! It stands on pf_optim and pf_shelf (rulesets and tables), pf_tree, pf_calls (chains of calls), pf_plan (what a load comes
//! to), pf_host and pf_reply (refusals). The layer above reads script lines and files, and tells the replies.
#![tactic(auto)]

mod at_paths;
mod by_name;
mod cleared;
mod commit;
mod flush;
mod judge;
mod laws;
mod machine;
mod outline;
mod ready;
mod session;
mod staging;
mod tables;
mod ticket;
mod words;

pub use at_paths::AtPaths;
pub use by_name::ByName;
pub use commit::Verdict;
pub use laws::a_load_is_one_replacement;
pub use machine::Machine;
pub use pf_optim::Node;
pub use ready::{Opened, Ready, Staged};
pub use staging::stage;
pub use tables::Changed;
pub use ticket::Ticket;
pub use words::{addr_of, entry_of};
