//! The declarations of tables with their files (pf.conf(5), TABLES): the files are read, and what stands in them is judged together
//! with the words in braces.
//! It stands on pf_source and pf_lexer (what a load has read), pf_decl (the forms of declarations), pf_word and pf_host (what the
//! words of tables mean), pf_table and pf_shelf (entries and declared tables) and pf_fault (what stops a load). The load above reads
//! a declaration by [`read_table`], and has laws of what a declaration comes to.
#![tactic(auto)]

mod file_words;
pub mod gathered;
pub mod laws;
mod settle;
pub mod table;
pub mod table_files;

pub use laws::{
    declarations_come_to_one_thing, declarations_come_to_something, declarations_stay_within,
    declarations_without_a_file,
};
pub use table::{has_words, read_table};
