//! The statements of a unit of configuration files, pf.conf(5), and what a load has read. It stands on pf_base, pf_source and
//! pf_token. The layer above lends the files and what was read so far, begins a lexer for each unit, and takes its statements one
//! by one: their tokens with places, whether a body follows, and the first fault.
#![tactic(auto)]

pub mod deed;
mod definition;
mod failure;
pub mod fault;
pub mod laws;
pub mod lexer;
pub mod reads;
mod statement;
pub mod unit;

pub use deed::Statement;
pub use fault::LexFault;
pub use lexer::{Lexer, UnitStatements, read_unit};
pub use pf_token::{Cause, Define, Fault, Macros, Token, TokenKind};
pub use reads::{ReadFile, Reads, ReadsFault};
