//! The generator: from a number a configuration of 2,001 lines and 5,000 packet records, always the same ones, to try
//! the program with. It stands on pf_base and on pf_parts, which prints numbers. pfctl loads
//! the one and asks the others (pfctl(8), -g).
#![tactic(auto)]

pub mod content;
mod draws;
pub mod making;
mod texts;

pub use content::Generated;
pub use making::generated;
