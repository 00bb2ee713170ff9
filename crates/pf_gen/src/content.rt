//! What is generated.
use pf_base::{List, Text};

/// A configuration (pf.conf(5)) and packet records, as they are generated from a number.
#[derive(Debug, Drop)]
pub struct Generated {
    /// `block all` and 2,000 rules, a line each.
    pub config: Text,
    /// 5,000 records, without line ends.
    pub records: List<Text>,
}
