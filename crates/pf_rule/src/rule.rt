//! A rule: the packets that it matches, and what it does with them.
use crate::criteria::Criteria;
use crate::effect::Effect;

/// A filter rule of pf.conf(5).
#[derive(Clone, Copy, Debug, PartialEq, Eq)]
pub struct Rule {
    /// The packets that it matches.
    pub criteria: Criteria,
    /// What it does with them.
    pub effect: Effect,
}
