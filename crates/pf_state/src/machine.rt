//! The machine.
ghost use Rattle.std.specs.Prelude.{◌≡◌};
ghost use Rattle.pf_state.specs.Machine.{empty_machine};

use crate::at_paths::AtPaths;
use crate::by_name::ByName;
use crate::ready::Opened;
use crate::ticket::Ticket;
use pf_base::List;
use pf_host::Facts;
use pf_optim::Node;
use pf_plan::Whole;
use std::alloc::Global;

/// What stands between two script lines.
#[derive(Drop)]
pub struct Machine {
    /// The rulesets of the tree, each with its declared tables (pf.conf(5), ANCHORS and TABLES).
    pub rulesets: AtPaths<Node>,
    /// The settings of the whole: those of the last load into the main ruleset.
    pub whole: Whole,
    /// What is known of the host.
    pub facts: Facts,
    /// The open sessions.
    pub sessions: ByName<Opened>,
    /// By which number each path was begun last.
    pub tickets: AtPaths<Ticket>,
    /// The next of these numbers, from 1.
    pub next: u64,
}

impl Machine {
    /// The empty machine. Takes no memory.
    pub fn new(alloc: Global) -> Machine
        ensures { result ≡ empty_machine }
    {
        let whole = Whole {
            options: List::new(alloc),
            skip: List::new(alloc),
            queues: List::new(alloc),
        };
        Machine {
            rulesets: AtPaths::new(alloc),
            whole,
            facts: Facts::none(alloc),
            sessions: ByName::new(alloc),
            tickets: AtPaths::new(alloc),
            next: 1,
        }
    }
}
