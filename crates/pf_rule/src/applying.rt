//! What one rule does to a walk.
ghost use Rattle.std.specs.Prelude.{◌≡◌, IsFalse};
ghost use Rattle.pf_rule.specs.declared.effect.Effect.{Effect as RuleEffect};
ghost use Rattle.pf_rule.specs.declared.walk.Walk.{Walk as PacketWalk};
ghost use Rattle.pf_rule.specs.Effect.{decision_of, effect_on, is_anchor};

use crate::effect::{Action, Effect};
use crate::rule::Rule;
use crate::translation::translate;
use crate::walk::{Decision, Walk};

/// Does what a rule that matches does: a `pass` or `block` rule decides until a later one does, a
/// `match` rule lays its parameters over the walk's and translates the packet, and any of them may set
/// the tag and, by `quick`, end the walk. The rule is no anchor.
#[tactic(auto, unfolding(crate::specs::Effect::effect_on))]
pub fn apply(walk: &mut Walk, rule: &Rule)
    requires { IsFalse (is_anchor rule.now.effect.action) }
    ensures { walk.new ≡ effect_on rule.now.effect walk.old }
{
    let effect = &rule.effect;
    match effect.action {
        Action::Pass | Action::Block(_) => {
            walk.last = decision(effect);
            walk.matched = true;
        }
        Action::Match => {
            walk.params = effect.params.over(&walk.params);
            translate(&mut walk.packet, &effect.params.nat, &effect.params.rdr);
        }
        Action::Anchor(_) => unreachable!(),
    }
    walk.tag = effect.tag.or(walk.tag);
    walk.stop |= effect.quick;
}

fn decision(effect: &Effect) -> Decision
    ensures { result ≡ decision_of effect.now }
{
    Decision {
        action: effect.action,
        state: effect.state,
        options: effect.options,
        params: effect.params,
        label: effect.label,
    }
}

/// A law: on every walk, a rule's effect twice is its effect once.
pub fn effect_twice_is_once()
    ensures { (effect : RuleEffect) (walk : PacketWalk) → effect_on effect (effect_on effect walk) ≡ effect_on effect walk }
{}
