//! Plans that are ready to be put in place.
use pf_base::{List, Path};
use pf_optim::Ruleset;
use pf_plan::Whole;
use pf_shelf::TableDecl;

/// A ruleset that a load fills: its path, its rules beside their optimised form, and the tables that it declares.
#[derive(Drop)]
pub struct Staged {
    pub path: Path,
    pub rules: Ruleset,
    pub tables: List<TableDecl>,
}

/// A plan whose rulesets are optimised.
#[derive(Drop)]
pub struct Ready {
    /// In the order in which their rulesets were begun.
    pub parts: List<Staged>,
    /// None where the load isn't into the main ruleset.
    pub whole: Option<Whole>,
}

/// An open session: a plan, and the ticket that its rulesets were given.
#[derive(Drop)]
pub struct Opened {
    pub ready: Ready,
    pub ticket: u64,
}
