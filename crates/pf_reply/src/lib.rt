//! What a script line is told: the refusals of lines, each with its number and its text, and the replies of one line to
//! lines that were done (pfctl(8), DIAGNOSTICS and SCRIPT LINES).
//! It stands on pf_base, pf_parts (texts of numbers and paths) and pf_record (the fields of records). The layers above say
//! when each refusal and each reply comes, and append their texts to a buffer: without memory a front may be appended.
#![tactic(auto)]

mod kind;
mod refusal;
mod reply;
mod text;

pub use kind::put_kind;
pub use refusal::{Overfull, Refusal, put_refusal};
pub use reply::{Filled, Listing, Reply, put_reply};
pub use text::{put_count, put_path};
