//! The lines of a script (pfctl(8)): what a line says, as a command, or that it says none. It stands on pf_base (paths, names, levels,
//! how a text is cut into words) and pf_token (macros and the bytes of their names). The layer above reads each line by
//! `read_command`, does what the command says, and refuses a line without one.
#![tactic(auto)]

mod action;
pub mod command;
mod define;
mod given;
mod keyword;
mod laws;
mod line;
mod loading;
mod reading;
mod single;
pub mod words;

pub use command::{Command, LoadLine, Show, TableAction};
pub use laws::{a_line_says_what_it_spells, a_line_spells_one_command};
pub use reading::read_command;
pub use words::{Record, Words};
