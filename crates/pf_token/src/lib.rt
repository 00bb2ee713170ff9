//! The bytes, macros and tokens of a configuration, pf.conf(5). It stands on pf_base.
//! The layer above reads tokens one by one from a reader over a file, with the macros that are defined so far.
#![tactic(auto)]

pub mod byte;
pub mod cell;
mod cells;
pub mod lexemes;
pub mod macros;
pub mod pieces;
pub mod reader;
pub mod strings;
pub mod token;
pub mod uses;

pub use cell::Cell;
pub use lexemes::tokens_of;
pub use macros::{Define, Macros};
pub use pieces::{
    a_text_has_tokens, descents_end, next_is_one, next_lexeme, next_stays_in, something_comes_next,
};
pub use reader::Reader;
pub use token::{Cause, Fault, Lexeme, Token, TokenKind};
