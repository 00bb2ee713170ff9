//! Operators on numbers as sets, and the numbers that words of pf.conf(5) stand for: protocols,
//! ICMP types and TCP flags. It stands on pf_base (names and address families).
//! The layers above use that an operator is a set of numbers (`in_numbers`, `in_op`), that `covers`
//! is the subset relation, and the tables of words (`number_of`, `word_of`).
#![tactic(auto)]

pub mod flags;
pub mod laws;
pub mod numbers;
pub mod operator;
pub mod words;

pub use flags::{IcmpType, TcpFlags};
pub use laws::{equal_sets_are_one_value, letters_of_flags_read_back};
pub use numbers::{Interval, Numbers};
pub use operator::{Op16, Op32, OpKind};
pub use words::{
    flag_bit, flag_bits, flags_of, icmp_number, icmp_of, proto_name, proto_number, proto_of,
    put_flags,
};
