//! What a load comes to.
use pf_base::{Level, List, Name, Path};
use pf_decl::{OptionLine, Queue};
use pf_rule::Rule;
use pf_shelf::TableDecl;

/// A plan: the rulesets that a load fills, and what it sets as a whole (pfctl(8), -f).
#[derive(Debug, Drop)]
pub struct Plan {
    /// In the order in which their rulesets were begun.
    pub parts: List<Part>,
    /// None where the load isn't into the main ruleset.
    pub whole: Option<Whole>,
    /// How far the rulesets are optimised.
    pub level: Level,
}

/// A ruleset as it is written.
#[derive(Debug, Drop)]
pub struct Part {
    pub path: Path,
    pub rules: List<Rule>,
    pub tables: List<TableDecl>,
}

/// What a load into the main ruleset sets beside its rules.
#[derive(Debug, Drop)]
pub struct Whole {
    /// The lines of all settings, in order.
    pub options: List<OptionLine>,
    /// The interfaces and groups of `set skip on`, in order.
    pub skip: List<Name>,
    pub queues: List<Queue>,
}
