//! Addresses, prefixes and ranges of IPv4 and IPv6, and their texts. It stands on pf_base (names, want of
//! memory) and on std's readers of addresses; it prints by itself, since std's printer writes the end of some
//! addresses of IPv6 with dots. The layers above use that a prefix or a range is a set of addresses, that each
//! text writes at most one address or prefix and exactly the texts of the form are read, and that what is
//! printed reads back as itself.
#![tactic(auto)]

pub mod addr;
pub mod ifaces;
pub mod laws;
mod line;
pub mod parse;
pub mod prefix;
pub mod print;
pub mod range;
pub mod stretch;

pub use addr::Addr;
pub use ifaces::{DynIf, Ifaces};
pub use laws::{
    equal_values_are_one, printed_texts_are_one_word, printed_texts_read_back,
    stretches_have_the_addresses, texts_are_read_in_one_way,
};
pub use parse::{AddrFault, Masked, parse_addr, parse_masked, parse_prefix, parse_prefix_parts};
pub use prefix::Prefix;
pub use print::{put_addr, put_prefix};
pub use range::{Range, RangeFault};
pub use stretch::Stretch;
