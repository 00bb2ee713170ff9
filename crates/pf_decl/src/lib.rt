//! The forms of settings, tables and queues, pf.conf(5), GRAMMAR: each production in specs/ beside the function that takes
//! it from the tokens of a statement; the line of each setting as it is shown; and the checks of a load's queues.
//! It stands on pf_base, pf_token, pf_parts and pf_syntax. The layer above fills tables, keeps option lines and queues, and
//! prints them.
#![tactic(auto)]

pub mod bandwidth;
pub mod check;
pub mod decl;
pub mod form;
pub mod keyword;
pub mod line;
pub mod queue;
pub mod read_back;
pub mod setting;
pub mod table;
mod words;

pub use check::{QueueFault, UsedQueue, check_queues, queues_are_judged, queues_are_judged_once};
pub use decl::{parse_decl, tokens_declare_or_are_refused, tokens_have_one_declaration};
pub use form::{Bandwidth, Burst, Decl, OptionLine, Queue, SetForm, Setting, TableForm, TableItem};
pub use read_back::shown_lines_read_back;
pub use words::tables_have_words;
