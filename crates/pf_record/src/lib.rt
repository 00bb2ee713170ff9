//! The record of a packet, read from its text, and the answer to a packet, printed as text.
//! It stands on pf_base, pf_addr, pf_ops, pf_parts, which prints the parts of an answer, and pf_rule. The layers above
//! read records and append answers.
#![tactic(auto)]

mod answer;
mod field;
mod head;
mod record;
mod said;
mod translation;
mod values;
mod words;

pub use answer::put_answer;
pub use field::{Field, PacketFault};
pub use record::{a_record_is_read_one_way, read_packet};
pub use translation::{put_nat, put_rdr};
