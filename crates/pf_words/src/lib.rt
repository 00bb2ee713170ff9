//! The words of the program (pfctl(8), SYNOPSIS), read by clap as one simple command: -f with its options, -S, or -g.
//! It stands on pf_base and clap. pfctl does what they say.
#![tactic(auto)]

mod command;
pub mod reading;
pub mod said;

pub use reading::read_words;
pub use said::{LoadWords, Said, WordsFault};
