//! The rows of a profile.
use pf_base::Path;

/// How often the rule at a place was used.
#[derive(Clone, Copy, Debug)]
pub struct Row {
    /// The ruleset.
    pub path: Path,
    /// The place in its written list, from 1.
    pub place: u32,
    pub count: u32,
}
