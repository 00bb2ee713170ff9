//! Laws of generated configurations, without code.
ghost use Rattle.std.specs.Prelude.{◌≡◌, ◌<◌, ◌≤◌, ℕ, List, [], None, Option, false, length, true};
ghost use Rattle.std.specs.List.{list_all};
ghost use Rattle.pf_base.specs.declared.kind.Level.{Level as AnyLevel};
ghost use Rattle.pf_eval.specs.Answers.{answer_of};
ghost use Rattle.pf_eval.specs.Rulesets.{Rulesets};
ghost use Rattle.pf_gen.specs.Texts.{records_of};
ghost use Rattle.pf_host.specs.Facts.{HostFacts};
ghost use Rattle.pf_reply.specs.declared.refusal.Refusal.{Refusal as AnyRefusal};
ghost use Rattle.pf_rule.specs.Effect.{is_deciding};
ghost use Rattle.pf_rule.specs.declared.packet.Packet.{Packet as AnyPacket};
ghost use Rattle.pf_rule.specs.declared.rule.Rule.{Rule as AnyRule};
ghost use Rattle.pf_state.specs.Commits.{committed, ready_of};
ghost use Rattle.pf_state.specs.Judging.{LoadJudged};
ghost use Rattle.pf_state.specs.Rulesets.{count_rules};
ghost use Rattle.pf_state.specs.Machine.{empty_machine};
ghost use Rattle.pf_genload.specs.Generated.{LoadsWhole, calls_no_ruleset, plan_with};
ghost use Rattle.pf_genload.specs.Records.{ArePackets};

use pf_addr::printed_texts_read_back;
use pf_load::a_load_comes_to_one_thing;

/// A law: a generated configuration loads, where no facts of the host are known. At any level it comes to one plan and to nothing
/// else: the main ruleset alone, with one rule for each of its 2,001 lines, the same at each level (pfctl(8), -g, -f).
pub fn a_generated_configuration_loads()
    ensures { (number : ℕ) → LoadsWhole number }
{
    printed_texts_read_back();
    a_load_comes_to_one_thing();
}

/// A law: a plan of the main ruleset alone has no refusal where nothing stands, if it has some rules, no more than a tree may have,
/// and none that calls a ruleset; and where it has some, as many stand when it is put in place (pf(4), DIOCXCOMMIT).
pub fn a_plan_of_one_ruleset_stands()
    ensures accepted { (rules : List AnyRule) (level : Option AnyLevel) (refusal : Option AnyRefusal) → 0 < length rules → length rules ≤ 131072
        → list_all calls_no_ruleset rules ≡ true → LoadJudged empty_machine (ready_of [] (plan_with rules level)) refusal → refusal ≡ None }
    ensures counted { (rules : List AnyRule) (level : Option AnyLevel) → 0 < length rules
        → count_rules (committed (ready_of [] (plan_with rules level)).parts empty_machine.rulesets) ≡ length rules }
{}

/// A law: a plan of the main ruleset alone, with some rules, answers each packet alike at every level, where nothing stood
/// (pfctl(8), -o).
pub fn a_plan_of_one_ruleset_answers_alike()
    ensures { (rules : List AnyRule) (a b : Option AnyLevel) (facts : HostFacts) (skip : List (List ℕ)) (packet : AnyPacket) → 0 < length rules
        → answer_of (committed (ready_of [] (plan_with rules a)).parts empty_machine.rulesets) facts skip packet
        ≡ answer_of (committed (ready_of [] (plan_with rules b)).parts empty_machine.rulesets) facts skip packet }
{}

/// A law: the 5,000 records of a number are packets: each is the record of one (pfctl(8), -g).
pub fn generated_records_are_packets()
    ensures { (number : ℕ) → ArePackets (records_of number) 5000 }
{
    printed_texts_read_back();
}

/// A law: whatever the rulesets, the facts and the packet, the answer is to pass or to block it. Where `set skip` names no interface,
/// the packet isn't one of a skipped interface (pf.conf(5), PACKET FILTERING and "set skip").
pub fn a_walk_passes_or_blocks()
    ensures decided { (rulesets : Rulesets) (facts : HostFacts) (skip : List (List ℕ)) (packet : AnyPacket)
        → is_deciding (answer_of rulesets facts skip packet).decision.action ≡ true }
    ensures unskipped { (rulesets : Rulesets) (facts : HostFacts) (packet : AnyPacket) → (answer_of rulesets facts [] packet).skip ≡ false }
{}
