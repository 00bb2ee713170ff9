//! What a rule does with a packet that it matches (pf.conf(5), "pass", "block", "match" and ANCHORS).
ghost use Rattle.std.specs.Prelude.{◌≡◌};
ghost use Rattle.pf_rule.specs.Effect.{is_anchor};

use crate::params::Params;
use pf_base::Name;
use pf_parts::{BlockKind, Call, StateKind, StateOptions};

/// The effect of a rule, which is a value of the rule alone.
#[derive(Clone, Copy, Debug, PartialEq, Eq)]
pub struct Effect {
    pub action: Action,
    /// `quick`: no later rule is evaluated.
    pub quick: bool,
    /// `tag`: the tag that the packet gets.
    pub tag: Option<Name>,
    /// The state that a packet which passes would make.
    pub state: StateKind,
    pub options: StateOptions,
    pub params: Params,
    pub label: Option<Name>,
}

/// What becomes of a packet.
#[derive(Clone, Copy, Debug, PartialEq, Eq)]
pub enum Action {
    /// It passes.
    Pass,
    /// It is blocked.
    Block(BlockKind),
    /// The parameters of the rule are set, and nothing is decided.
    Match,
    /// The rules of an anchor are evaluated.
    Anchor(Call),
}

impl Action {
    /// Whether it calls the rules of an anchor.
    pub fn is_anchor(&self) -> bool
        ensures { result ≡ is_anchor self.now }
    {
        matches!(self, Action::Anchor(_))
    }
}
