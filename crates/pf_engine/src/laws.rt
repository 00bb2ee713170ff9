//! Laws of steps, without code.
ghost use Rattle.std.specs.Prelude.{◌≡◌, ◌⊎◌, ◌↔◌, ℕ, ◌≤◌, List, [], ◌∷◌, ◌++◌, Option, Some, true, false};
ghost use Rattle.std.specs.FinMap as finite;
ghost use Rattle.pf_calls.specs.Graph.{IsShallow};
ghost use Rattle.pf_runs.specs.Runs.{DoesOneThing, DoesSome, Event, Follow, Stepped, machine_after};
ghost use Rattle.pf_source.specs.Disk.{Disk};
ghost use Rattle.pf_engine.specs.Anew.{Begins, BeginsItsPlan, IsBegunAnew, IsNew, IsStaleSince, OpensAnew, RefusesStale, TellsStale, TicketsAreDrawn};
ghost use Rattle.pf_engine.specs.Answering.{loads};
ghost use Rattle.pf_engine.specs.Laws.{ChangesNothing};
ghost use Rattle.pf_script.specs.Command.{command_of};
ghost use Rattle.pf_script.specs.declared.command.Command.TheVariants.{Commit, Flush, Load, Open};
ghost use Rattle.pf_script.specs.declared.command.LoadLine.{LoadLine};
ghost use Rattle.pf_state.specs.Commits.{stands_at};
ghost use Rattle.pf_state.specs.declared.ready.Opened.{Opened as AnyOpened};
ghost use Rattle.pf_engine.specs.Step.{step};
ghost use Rattle.pf_state.specs.Machine.{empty_machine};
ghost use Rattle.pf_state.specs.Tickets.{ticket_at};
ghost use Rattle.pf_engine.specs.Reached.{IsReached, answer_by};
ghost use Rattle.pf_engine.specs.TestLines.{asked};
ghost use Rattle.pf_engine.specs.Waiting.{IsStale, OnlyCloses, StandsAsBefore, changes_rulesets};
ghost use Rattle.pf_eval.specs.Answers.{written_world};
ghost use Rattle.pf_eval.specs.Rulesets as evaluated;
ghost use Rattle.pf_eval.specs.World.{IsWalk, packet_walker, walk_at};
ghost use Rattle.pf_optim.specs.declared.node.Node.{Node};
ghost use Rattle.pf_rule.specs.declared.packet.Packet.{Packet as AnyPacket};
ghost use Rattle.pf_rule.specs.declared.walk.Walk.{Walk as PacketWalk};
ghost use Rattle.pf_state.specs.Rulesets.{Rulesets, graph_in, tables_in, written_in};
ghost use Rattle.pf_state.specs.declared.machine.Machine.{Machine};

use pf_addr::texts_are_read_in_one_way;
use pf_eval::{fewer_calls_stay_shallow, walks_need_no_bound};
use pf_host::{facts_and_one_fault_exclude_each_other, facts_have_one_meaning};
use pf_load::{
    a_load_comes_to_one_thing, a_load_comes_to_something, no_load_comes_to_want_of_memory,
};
use pf_optim::profiles_have_one_meaning;
use pf_record::a_record_is_read_one_way;
use pf_rule::Walk;
use pf_state::a_load_is_one_replacement;

/// Over the same files a line does one thing alone.
pub fn a_line_does_one_thing()
    ensures { (disk : Disk) → DoesOneThing step disk }
{
    a_load_comes_to_one_thing();
    a_record_is_read_one_way();
    profiles_have_one_meaning();
    facts_have_one_meaning();
    facts_and_one_fault_exclude_each_other();
    texts_are_read_in_one_way();
}

/// Over any files and from any machine each line does something. Of a line that loads a file of rules this says that it can't be
/// that it does nothing.
pub fn a_line_does_something()
    ensures some { (disk : Disk) (machine : Machine) (line : List ℕ) → loads (command_of line) ≡ false → DoesSome step disk machine line }
    ensures no_less { (disk : Disk) (machine : Machine) (line : List ℕ) → (DoesSome step disk machine line → ⊥) → ⊥ }
{
    a_load_comes_to_something();
    no_load_comes_to_want_of_memory();
}

/// A line that is refused changes nothing, but that a refused commit of an open session closes it.
pub fn a_refusal_changes_nothing()
    ensures { (disk : Disk) (machine : Machine) (line : List ℕ) (does : Stepped Machine) → step disk machine line does → does.refused ≡ true → ChangesNothing machine line does.machine }
{}

/// From the empty machine on no ruleset calls itself, and no more than 64 call one another in a chain.
pub fn the_calls_of_rulesets_stay_shallow()
    ensures first { IsShallow (graph_in empty_machine.rulesets) 64 }
    ensures on { (disk : Disk) (machine : Machine) (line : List ℕ) (does : Stepped Machine) → IsShallow (graph_in machine.rulesets) 64 → step disk machine line does → IsShallow (graph_in does.machine.rulesets) 64 }
{
    fewer_calls_stay_shallow();
}

/// Behind each run of lines, with outages or without, the answer to a packet is that of the walk through the rules as they are
/// written: of whatever function goes from each path through the rules there, and at each anchor rule from the paths that it
/// calls (pf.conf(5), ANCHORS). There is such a function, since no more than 64 rulesets call one another in a chain.
pub fn answers_are_those_of_the_walk()
    ensures shallow { (machine : Machine) → IsReached machine → IsShallow (graph_in machine.rulesets) 64 }
    ensures walk { (machine : Machine) → IsReached machine →
        IsWalk packet_walker (written_world machine.rulesets machine.facts) (walk_at packet_walker (written_world machine.rulesets machine.facts)) }
    ensures answer { (machine : Machine) (walk_from : List (List ℕ) → PacketWalk → PacketWalk) (packet : AnyPacket) → IsReached machine →
        IsWalk packet_walker (written_world machine.rulesets machine.facts) walk_from → asked machine packet ≡ answer_by walk_from machine packet }
{
    the_calls_of_rulesets_stay_shallow();
    walks_need_no_bound::<Walk>();
}

/// The plan of a session changes no ruleset and no setting before its commit: only loads, commits, flushes and changes of tables
/// do. Where another load, session or flush has begun one of its rulesets anew, the commit is refused and only closes the
/// session. Where it is accepted, the whole plan stands at once: at each path what the load puts there.
pub fn plans_wait_for_their_commit()
    ensures waits { (disk : Disk) (machine : Machine) (line : List ℕ) (does : Stepped Machine) →
        changes_rulesets (command_of line) ≡ false → step disk machine line does → StandsAsBefore machine does.machine }
    ensures stale { (disk : Disk) (machine : Machine) (line name : List ℕ) (session : AnyOpened) (does : Stepped Machine) →
        command_of line ≡ Some (Commit name) → finite.get machine.sessions name ≡ Some session → IsStale machine session →
        step disk machine line does → OnlyCloses name machine does }
    ensures at_once { (disk : Disk) (machine : Machine) (line name : List ℕ) (session : AnyOpened) (does : Stepped Machine) →
        command_of line ≡ Some (Commit name) → finite.get machine.sessions name ≡ Some session → step disk machine line does →
        does.refused ≡ false → (path : List (List ℕ)) → finite.get does.machine.rulesets path ≡ stands_at session.ready.parts machine.rulesets path }
{
    a_load_is_one_replacement();
}

/// Tickets are drawn one after another (pf(4), DIOCXBEGIN): those of all paths and of all open sessions are below the next one, and
/// no ruleset of an open session's plan has an older one than the session. It is so at first, each line keeps it, and so it is behind
/// each run of lines. So no path and no open session has the ticket that is next.
pub fn tickets_stay_drawn()
    ensures first { TicketsAreDrawn empty_machine }
    ensures on { (disk : Disk) (machine : Machine) (line : List ℕ) (does : Stepped Machine) → TicketsAreDrawn machine → step disk machine line does → TicketsAreDrawn does.machine }
    ensures reached { (machine : Machine) → IsReached machine → TicketsAreDrawn machine }
    ensures new { (machine : Machine) → TicketsAreDrawn machine → IsNew machine machine.next }
{}

/// A `load` or an `open` that is done begins the rulesets of its plan, and a flush the one that it flushes; no other line and no
/// refused one begins any. A ruleset that a line begins has the ticket that was next, and each other one the ticket that it had. The
/// next ticket never falls.
pub fn rulesets_are_begun_with_the_next_ticket()
    ensures load { (disk : Disk) (machine : Machine) (line : List ℕ) (options : LoadLine) (does : Stepped Machine) →
        command_of line ≡ Some (Load options) → step disk machine line does → does.refused ≡ false → BeginsItsPlan disk machine options line does }
    ensures opened { (disk : Disk) (machine : Machine) (line name : List ℕ) (options : LoadLine) (does : Stepped Machine) →
        command_of line ≡ Some (Open name options) → step disk machine line does → does.refused ≡ false → BeginsItsPlan disk machine options line does }
    ensures flush { (disk : Disk) (machine : Machine) (line : List ℕ) (path : List (List ℕ)) (does : Stepped Machine) →
        command_of line ≡ Some (Flush path) → step disk machine line does → (other : List (List ℕ)) → Begins disk machine line does other ↔ (other ≡ path) }
    ensures begun { (disk : Disk) (machine : Machine) (line : List ℕ) (does : Stepped Machine) (path : List (List ℕ)) →
        step disk machine line does → Begins disk machine line does path → ticket_at does.machine.tickets path ≡ machine.next }
    ensures others { (disk : Disk) (machine : Machine) (line : List ℕ) (does : Stepped Machine) (path : List (List ℕ)) →
        step disk machine line does → (Begins disk machine line does path → ⊥) → ticket_at does.machine.tickets path ≡ ticket_at machine.tickets path }
    ensures rises { (disk : Disk) (machine : Machine) (line : List ℕ) (does : Stepped Machine) → step disk machine line does → machine.next ≤ does.machine.next }
{
    a_load_comes_to_one_thing();
    a_record_is_read_one_way();
    profiles_have_one_meaning();
    facts_have_one_meaning();
    facts_and_one_fault_exclude_each_other();
    texts_are_read_in_one_way();
}

/// A commit is refused as stale exactly where another load, session or flush has begun one of its session's rulesets since the
/// `open` (pf(4), DIOCXCOMMIT): right behind its `open` a session isn't stale, and behind further lines it is stale exactly where it
/// was before or one of them began a ruleset of its plan. This refusal comes before all others, and tells the first such ruleset.
pub fn a_commit_is_stale_where_a_ruleset_was_begun_anew()
    ensures opened { (disk : Disk) (machine : Machine) (line name : List ℕ) (options : LoadLine) (does : Stepped Machine) →
        command_of line ≡ Some (Open name options) → step disk machine line does → does.refused ≡ false → OpensAnew machine name does.machine }
    ensures later { (disk : Disk) (machine : Machine) (name : List ℕ) (session : AnyOpened) (events : List (Event Machine)) →
        TicketsAreDrawn machine → finite.get machine.sessions name ≡ Some session → Follow step disk machine events →
        IsStale (machine_after machine events) session ↔ (IsStale machine session ⊎ IsBegunAnew disk machine events session) }
    ensures tells { (disk : Disk) (machine : Machine) (line name : List ℕ) (session : AnyOpened) (does : Stepped Machine) →
        command_of line ≡ Some (Commit name) → finite.get machine.sessions name ≡ Some session → step disk machine line does →
        TellsStale does ↔ IsStale machine session }
    ensures first { (disk : Disk) (machine : Machine) (line name : List ℕ) (session : AnyOpened) (does : Stepped Machine) →
        command_of line ≡ Some (Commit name) → finite.get machine.sessions name ≡ Some session → step disk machine line does →
        IsStale machine session → RefusesStale machine name session does }
    ensures exactly { (disk : Disk) (events : List (Event Machine)) (commit : Event Machine) (name : List ℕ) (session : AnyOpened) →
        Follow step disk empty_machine (events ++ commit ∷ []) → command_of commit.line ≡ Some (Commit name) →
        finite.get (machine_after empty_machine events).sessions name ≡ Some session → IsStaleSince disk events name session commit.does }
{
    rulesets_are_begun_with_the_next_ticket();
}

/// The rulesets whose calls are judged and those that answer packets are one thing: the same rules, tables and calls.
pub fn judged_rulesets_answer_packets()
    ensures rules { (node : Option Node) → written_in node ≡ evaluated.written_in node }
    ensures tables { (node : Option Node) → tables_in node ≡ evaluated.tables_in node }
    ensures calls { (rulesets : Rulesets) → graph_in rulesets ≡ evaluated.graph_in rulesets }
{}
