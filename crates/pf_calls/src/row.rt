//! The calls at the paths of a map.
ghost use Rattle.std.specs.Bool.{Decides};
ghost use Rattle.std.specs.List.Sorted.{IsStrictlySortedBy};
ghost use Rattle.pf_tree.specs.Order.{path_cmp};
ghost use Rattle.pf_calls.specs.Calls.{paths_of};

use pf_base::{List, Path};
use pf_parts::Call;

/// The path of a ruleset, and the calls of its written anchor rules.
#[derive(Debug, Drop)]
pub struct CallRow {
    pub path: Path,
    pub calls: List<Call>,
}

/// Why calls are refused.
#[derive(Clone, Copy, Debug, PartialEq, Eq)]
pub enum CallFault {
    /// Calls lead from this path back to it.
    Cycle(Path),
    /// So many rulesets call one another in a chain, which is over 64.
    Deep(u64),
}

/// Do the paths of rows ascend in path order, each once? It takes no memory.
pub fn paths_ascend(rows: &[CallRow]) -> bool
    ensures { Decides result (IsStrictlySortedBy path_cmp (paths_of rows.now)) }
{
    for place in 1..rows.len() {
        if !rows[place - 1].path.cmp(&rows[place].path).is_lt() {
            return false;
        }
    }
    true
}
