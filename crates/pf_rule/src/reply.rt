//! The answer that a walk has come to.
ghost use Rattle.std.specs.Prelude.{◌≡◌};
ghost use Rattle.pf_rule.specs.Answer.{answer_of_walk};

use crate::walk::{Answer, Decision, Walk};

/// What the walk answers where no other rule follows: its tag, and its last decision with the
/// parameters laid over those that `match` rules have set.
pub fn answer(walk: &Walk) -> Answer
    ensures { result ≡ answer_of_walk walk.now }
{
    Answer {
        skip: false,
        tag: walk.tag,
        decision: Decision {
            params: walk.last.params.over(&walk.params),
            ..walk.last
        },
    }
}
