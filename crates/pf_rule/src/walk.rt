//! A packet's way through a list of rules.
ghost use Rattle.std.specs.Prelude.{◌≡◌};
ghost use Rattle.pf_rule.specs.Opening.{opening_walk};

use crate::effect::Action;
use crate::packet::Packet;
use crate::params::Params;
use pf_base::Name;
use pf_parts::{StateKind, StateOptions};

/// A packet on its way through the rules.
#[derive(Clone, Copy, Debug, PartialEq, Eq)]
pub struct Walk {
    /// As `match` rules have translated it so far.
    pub packet: Packet,
    /// The tag that it has at the moment.
    pub tag: Option<Name>,
    /// What `match` rules have set so far.
    pub params: Params,
    /// What the last `pass` or `block` rule that matched decided.
    pub last: Decision,
    /// A `pass` or `block` rule has matched.
    pub matched: bool,
    /// A `quick` rule has matched: no other rule is evaluated.
    pub stop: bool,
}

/// What is decided of a packet.
#[derive(Clone, Copy, Debug, PartialEq, Eq)]
pub struct Decision {
    pub action: Action,
    pub state: StateKind,
    pub options: StateOptions,
    pub params: Params,
    pub label: Option<Name>,
}

/// What a packet is answered: on a skipped interface `skip`, else its tag and the decision.
#[derive(Clone, Copy, Debug, PartialEq, Eq)]
pub struct Answer {
    pub skip: bool,
    pub tag: Option<Name>,
    pub decision: Decision,
}

/// The two marks of a walk.
#[derive(Clone, Copy, Debug, PartialEq, Eq)]
pub struct Marks {
    pub matched: bool,
    pub stop: bool,
}

impl Walk {
    /// The walk before the first rule: the packet passes and makes no state, has the tag of its record
    /// and no parameters, and no rule has matched.
    pub fn begin(packet: &Packet) -> Walk
        ensures { result ≡ opening_walk packet.now }
    {
        Walk {
            packet: *packet,
            tag: packet.tag,
            params: Params::NONE,
            last: Decision {
                action: Action::Pass,
                state: StateKind::None,
                options: StateOptions::NONE,
                params: Params::NONE,
                label: None,
            },
            matched: false,
            stop: false,
        }
    }
}
