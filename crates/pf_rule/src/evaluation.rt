//! The evaluation of a packet by a list of rules.
ghost use Rattle.std.specs.Prelude.{◌≡◌, ◌+◌, ◌≤◌, List, ◌∷◌, ◌++◌, [], true, IsTrue, length};
ghost use Rattle.pf_rule.specs.Answer.{answer_of, decision_over};
ghost use Rattle.pf_rule.specs.Around.{Around as Outside, around_by};
ghost use Rattle.pf_rule.specs.Deciding.{Decides, NoneDecides};
ghost use Rattle.pf_rule.specs.Effect.{decision_of, is_deciding};
ghost use Rattle.pf_rule.specs.Opening.{opening_walk, pass_no_state};
ghost use Rattle.pf_rule.specs.Walk.{reached, walked, walked_one};
ghost use Rattle.pf_rule.specs.declared.packet.Packet.{Packet as AnyPacket};
ghost use Rattle.pf_rule.specs.declared.rule.Rule.{Rule as FilterRule};

use crate::applying::apply;
use crate::members::Members;
use crate::packet::Packet;
use crate::reply::answer;
use crate::rule::Rule;
use crate::testing::{Tested, hit};
use crate::walk::{Answer, Walk};
use pf_addr::Ifaces;
use pf_base::{Ledger, Steps};

/// The answer that the rules give a packet, where no anchor has rules: the last `pass` or `block` rule
/// that matches decides, a `quick` rule that matches ends the walk, and without a match the packet
/// passes without state (pf.conf(5)). Each rule that is reached is tested once, which is counted.
#[tactic(auto, using(crate::proofs::Walks::walked_stopped, crate::proofs::Walks::walked_all, crate::proofs::Walks::reached_stopped, crate::proofs::Walks::reached_all, crate::proofs::Walks::reached_few, crate::proofs::Decided::answer_decided), unfolding(crate::specs::Answer::answer_of))]
pub fn evaluate<M: Members, I: Ifaces, L: Ledger>(
    rules: &[Rule],
    packet: &Packet,
    members: &M,
    ifaces: &I,
    steps: &mut Steps<L>,
) -> Answer
    ensures answer { let around = around_by (M.member members.now) (I.in_group ifaces.now) (I.dynamic ifaces.now) in
        result ≡ answer_of around rules.now packet.now }
    ensures counted { let around = around_by (M.member members.now) (I.in_group ifaces.now) (I.dynamic ifaces.now) in
        steps.new ≡ steps.old + reached around rules.now (opening_walk packet.now) }
    ensures once { steps.new ≤ steps.old + length rules.now }
    ensures decided { IsTrue (is_deciding result.decision.action) }
{
    let mut walk = Walk::begin(packet);
    for rule in rules {
        if walk.stop {
            break;
        }
        take(rule, &mut walk, members, ifaces, steps);
    }
    answer(&walk)
}

// Tests a rule, and does what it does where it hits.
#[tactic(auto, using(crate::proofs::Effects::anchor_rests))]
fn take<M: Members, I: Ifaces, L: Ledger>(
    rule: &Rule,
    walk: &mut Walk,
    members: &M,
    ifaces: &I,
    steps: &mut Steps<L>,
)
    ensures walk { let around = around_by (M.member members.now) (I.in_group ifaces.now) (I.dynamic ifaces.now) in
        walk.new ≡ walked_one around rule.now walk.old }
    ensures counted { steps.new ≡ steps.old + 1 }
{
    if let Tested::Hit = hit(rule, walk, members, ifaces, steps)
        && !rule.effect.action.is_anchor()
    {
        apply(walk, rule);
    }
}

/// A law: the answer of the rules as written, in the words of pf.conf(5).
pub fn last_matching_rule_decides()
    // A pass or block rule that hits and is quick decides.
    ensures quick { (around : Outside) (packet : AnyPacket) (front back : List FilterRule) (rule : FilterRule) →
        Decides around front rule (opening_walk packet) → rule.effect.quick ≡ true →
        let walk = walked around (front ++ rule ∷ []) (opening_walk packet) in
        let answer = answer_of around (front ++ rule ∷ back) packet in
        answer.decision ≡ decision_over (decision_of rule.effect) walk.params }
    // One that hits decides where no pass or block rule behind it hits.
    ensures last { (around : Outside) (packet : AnyPacket) (front back : List FilterRule) (rule : FilterRule) →
        let walk = walked around (front ++ rule ∷ []) (opening_walk packet) in
        let end = walked around back walk in
        let answer = answer_of around (front ++ rule ∷ back) packet in
        Decides around front rule (opening_walk packet) → NoneDecides around back walk →
        answer.decision ≡ decision_over (decision_of rule.effect) end.params }
    // Where none hits, the packet passes without state.
    ensures none { (around : Outside) (packet : AnyPacket) (rules : List FilterRule) →
        let end = walked around rules (opening_walk packet) in
        let answer = answer_of around rules packet in
        NoneDecides around rules (opening_walk packet) →
        answer.decision ≡ decision_over pass_no_state end.params }
{}
