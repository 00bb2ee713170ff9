//! The lines that show what stands in a machine: rules, tables, skip steps, queues, settings and names, each in a line of its own.
//! It stands on pf_print (the text of rules, tables, queues and settings), pf_optim (skip steps and the tables that the optimiser
//! made) and pf_shelf (declared tables). The layer above appends these lines to the first line of a reply.
#![tactic(auto)]

mod automatic;
pub mod line;
mod lines;
mod shelves;
mod skips;

pub use line::Line;
pub use lines::put_lines;
pub use shelves::put_declared;
pub use skips::put_skips;
