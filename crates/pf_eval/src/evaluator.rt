//! The answer to a packet.
ghost use Rattle.std.specs.Prelude.{◌≡◌, ℕ, ◌+◌, List, [], true, if◌then◌else◌};
ghost use Rattle.pf_calls.specs.Graph.{IsShallow};
ghost use Rattle.pf_eval.specs.Answers.{answer_from, answer_of, is_skipped, walked_from_main, written_world};
ghost use Rattle.pf_eval.specs.Chain.{tests_of};
ghost use Rattle.pf_eval.specs.Rulesets.{graph_in};
ghost use Rattle.pf_eval.specs.World.{IsWalk, packet_walker};
ghost use Rattle.pf_rule.specs.Opening.{opening_walk};
ghost use Rattle.pf_rule.specs.declared.packet.Packet.{Packet as AnyPacket};
ghost use Rattle.pf_rule.specs.declared.walk.Walk.{Walk as PacketWalk};

use crate::laws::walks_need_no_bound;
use crate::walk::{Site, walk_ruleset};
use pf_base::{Ledger, Name, Path, Steps};
use pf_calls::MOST_CALLS;
use pf_host::Facts;
use pf_optim::Node;
use pf_rule::{Answer, Probe, Walk};
use pf_tree::Tree;

/// What the rulesets of a tree, as they are written, answer to the packet of the probe, which is left at the end of its walk
/// (pf.conf(5), ANCHORS); where `skip` names the packet's interface, the answer is `skip` and no rule is tested ("set skip").
/// The walk goes through optimised rules by skip steps, and each that it reaches is counted. Takes no memory.
pub fn eval<P: Probe<L>, L: Ledger>(
    tree: &Tree<Node>,
    facts: &Facts,
    skip: &[Name],
    probe: &mut P,
    steps: &mut Steps<L>,
) -> Answer
    ensures answer { result ≡ answer_from tree.now.payloads facts.now skip.now (P.walk probe.old) }
    ensures packet { (packet : AnyPacket) → P.walk probe.old ≡ opening_walk packet →
        result ≡ answer_of tree.now.payloads facts.now skip.now packet }
    ensures counted { steps.new ≡ steps.old + tests_of tree.now.payloads facts.now skip.now (P.walk probe.old) }
    ensures walk { P.walk probe.new ≡ (if is_skipped facts.now skip.now (P.walk probe.old) then P.walk probe.old
        else walked_from_main tree.now.payloads facts.now (P.walk probe.old)) }
    // Where no more than 64 rulesets call one another in a chain, this is the walk from the main ruleset by any function that
    // goes through the rules at a path and from each path that they call.
    ensures whole { let world = written_world tree.now.payloads facts.now in
        IsShallow (graph_in tree.now.payloads) 64 →
        (walk_from : List (List ℕ) → PacketWalk → PacketWalk) → IsWalk packet_walker world walk_from →
        walked_from_main tree.now.payloads facts.now (P.walk probe.old) ≡ walk_from [] (P.walk probe.old) }
{
    walks_need_no_bound::<Walk>();
    if probe.skips(skip, facts) {
        return skipped(&probe.answer());
    }
    let site = Site { tree, facts };
    walk_ruleset(&site, &Path::main(), MOST_CALLS, probe, steps);
    probe.answer()
}

// The same answer to a packet on a skipped interface.
fn skipped(answer: &Answer) -> Answer
    ensures { result ≡ record answer.now { skip = true } }
{
    Answer {
        skip: true,
        ..*answer
    }
}
