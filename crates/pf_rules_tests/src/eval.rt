//! Walks through trees of rulesets.
ghost use Rattle.std.specs.Prelude.{◌≡◌, ◌<◌, ◌^◌, true, length};
ghost use Rattle.std.specs.List.{sum};
ghost use Rattle.pf_auto.specs.Standing.{names_none};
ghost use Rattle.pf_optim.specs.Meaning.{are_written};

use pf_addr::{Addr, Ifaces, Prefix};
use pf_base::{Family, Level, List, Name, NoMemory, Path, Steps, Uncounted};
use pf_eval::{Node, eval};
use pf_host::Facts;
use pf_ops::{Op16, OpKind};
use pf_optim::optimise;
use pf_rule::{
    Action, AddrSet, AddrTest, Answer, Base, BlockKind, Call, Criteria, Direction, Effect, IfTest,
    Marks, Members, Packet, Params, Probe, Rule, StateKind, StateOptions, TagTest, Tested, Walk,
    hit,
};
use pf_tree::{Blank, Tree};
use std::alloc::Global;
use std::process::Abort;
use std::test::Fail;

const PASS: Rule = Rule {
    criteria: Criteria {
        iface: IfTest::Any,
        direction: None,
        family: None,
        proto: None,
        source: AddrTest::Any,
        source_port: None,
        target: AddrTest::Any,
        target_port: None,
        user: None,
        group: None,
        flags: None,
        icmp: None,
        tos: None,
        prio: None,
        tagged: TagTest::Any,
    },
    effect: Effect {
        action: Action::Pass,
        quick: false,
        tag: None,
        state: StateKind::Keep,
        options: StateOptions::NONE,
        params: Params::NONE,
        label: None,
    },
};

// A walk that counts its tests.
#[derive(Drop)]
struct Counted {
    walk: Walk,
    tests: u32,
}

impl Probe<Uncounted> for Counted {
    ghost walk = { λ counted. counted.walk };

    fn test<M: Members, I: Ifaces>(
        &mut self,
        rule: &Rule,
        members: &M,
        ifaces: &I,
        steps: &mut Steps<Uncounted>,
    ) -> Tested {
        self.tests = self.tests.saturating_add(1);
        hit(rule, &self.walk, members, ifaces, steps)
    }

    fn apply(&mut self, rule: &Rule) {
        pf_rule::apply(&mut self.walk, rule);
    }

    fn marks(&self) -> Marks {
        Marks {
            matched: self.walk.matched,
            stop: self.walk.stop,
        }
    }

    fn set_marks(&mut self, marks: Marks) {
        self.walk.matched = marks.matched;
        self.walk.stop = marks.stop;
    }

    fn skips<I: Ifaces>(&self, skip: &[Name], ifaces: &I) -> bool {
        skip.iter()
            .any(|name| ifaces.in_group(name, &self.walk.packet.iface))
    }

    fn answer(&self) -> Answer {
        pf_rule::answer(&self.walk)
    }
}

fn name(rt: &impl Abort, text: &str) -> Name {
    Name::new(text.as_bytes()).expect(rt, "a name")
}

fn path(rt: &impl Abort, text: &str) -> Path {
    Path::parse_any(text.as_bytes()).ok().expect(rt, "a path")
}

// What an anchor rule calls; a word that begins with `_` is that of an anchor without a name.
fn call(rt: &impl Abort, word: &str) -> Call {
    if word.starts_with("_") {
        return Call {
            base: Base::Below,
            path: path(rt, word),
            children: false,
        };
    }
    Call::parse(word.as_bytes()).ok().expect(rt, "a call")
}

fn action(rt: &impl Abort, word: &str) -> Action {
    match word {
        "pass" => Action::Pass,
        "block" => Action::Block(BlockKind::Drop),
        "match" => Action::Match,
        _ => Action::Anchor(call(rt, word)),
    }
}

// `pass`, `block drop`, `match` or `anchor "CALL"`, with `quick` behind a `!`, and `tag NAME` behind an `=`.
fn rule(rt: &impl Abort, text: &str) -> Rule
    ensures { names_none result ≡ true }
{
    let (text, tag) = match text.split_once('=') {
        Some((text, tag)) => (text, Some(name(rt, tag))),
        None => (text, None),
    };
    let (word, quick) = match text.strip_suffix("!") {
        Some(word) => (word, true),
        None => (text, false),
    };
    Rule {
        effect: Effect {
            action: action(rt, word),
            quick,
            tag,
            ..PASS.effect
        },
        ..PASS
    }
}

// What stands at a path with these rules.
fn node_of(alloc: Global, level: Level, rules: &[Rule], weights: &[u64]) -> Result<Node, NoMemory>
    requires written { are_written rules.now ≡ true }
    requires weighed { length rules.now ≡ length weights.now }
    requires few { length rules.now < 2 ^ 30 }
    requires light { sum weights.now < 2 ^ 60 }
{
    let mut list = List::new(alloc);
    list.append_copy(rules)?;
    let mut node = Node::fresh(alloc);
    node.rules = optimise(alloc, list, level, weights)?;
    Ok(node)
}

fn plant(alloc: Global, tree: &mut Tree<Node>, at: &Path, mut node: Node) -> Result<(), NoMemory> {
    tree.prepare(alloc, &[*at])?;
    tree.install(at, &mut node);
    Ok(())
}

// `in em0 udp 10.0.0.1 192.0.2.10 sport=1024 dport=53`
fn query(rt: &impl Abort) -> Packet {
    Packet {
        direction: Direction::In,
        iface: name(rt, "em0"),
        proto: 17,
        source: addr(rt, "10.0.0.1"),
        target: addr(rt, "192.0.2.10"),
        source_port: Some(1024),
        target_port: Some(53),
        flags: 0,
        icmp_type: None,
        icmp_code: None,
        tos: 0,
        prio: 3,
        user: None,
        group: None,
        tag: None,
    }
}

fn addr(rt: &impl Abort, text: &str) -> Addr {
    pf_addr::parse_addr(text.as_bytes())
        .ok()
        .expect(rt, "an address")
}

// The answer to a packet, and how many rules were tested.
fn answer(alloc: Global, tree: &Tree<Node>, skip: &[Name], packet: &Packet) -> (Answer, u32) {
    let mut counted = Counted {
        walk: Walk::begin(packet),
        tests: 0,
    };
    let answer = eval(
        tree,
        &Facts::none(alloc),
        skip,
        &mut counted,
        &mut Steps::start(),
    );
    (answer, counted.tests)
}

// The rulesets of a text, each a path and one or two rules.
fn tree_of(rt: &impl Abort, alloc: Global, text: &str) -> Result<Tree<Node>, NoMemory> {
    let mut tree = Tree::new(alloc);
    for line in text.split(';') {
        let mut words = line.split_whitespace();
        let at = path(rt, words.next().unwrap_or("/"));
        let first = rule(rt, words.next().unwrap_or("match"));
        let second = rule(rt, words.next().unwrap_or("match"));
        let node = node_of(alloc, Level::Basic, &[first, second], &[0, 0])?;
        plant(alloc, &mut tree, &at, node)?;
    }
    Ok(tree)
}

// The rulesets of the text answer with this action and tag.
fn answers(rt: &impl Abort, alloc: Global, text: &str, word: &str, tag: &str) -> Result<(), Fail> {
    let tree = tree_of(rt, alloc, text)?;
    let (answer, _) = answer(alloc, &tree, &[], &query(rt));
    assert_eq!(rt; answer.decision.action, action(rt, word), "{text}");
    assert_eq!(rt; answer.tag, Name::new(tag.as_bytes()), "{text}");
    Ok(())
}

#[test]
fn anchors_in_trees(rt: HostRuntime) -> Result<(), Fail> {
    let alloc = rt.alloc();
    answers(&rt, alloc, "/ a! block; a match=seen", "block", "seen")?;
    answers(&rt, alloc, "/ a! block; a pass=seen", "pass", "seen")?;
    answers(&rt, alloc, "/ a pass; a block!", "block", "")?;
    answers(&rt, alloc, "/ a! pass; a match!=seen", "pass", "seen")?;
    answers(
        &rt,
        alloc,
        "/ x/*; x/b pass=b; x/a block=a; x/a/c pass!=c; x _1; x/_1 pass!=anon",
        "pass",
        "b",
    )?;
    answers(&rt, alloc, "/ block x; x ../y; y pass=y", "pass", "y")?;
    answers(&rt, alloc, "/ block x; x ../../y; y pass=y", "block", "")?;
    answers(&rt, alloc, "/ a! block; a /b; b c; b/c pass=c", "pass", "c")?;
    answers(
        &rt,
        alloc,
        "/ a pass!=out; a b! block=a; a/b match=b",
        "pass",
        "out",
    )?;
    answers(&rt, alloc, "/ *; a block!=a; b pass=b", "block", "a")?;
    Ok(())
}

// A pass rule that fails at the packet in this skip field first.
fn failing(rt: &impl Abort, field: u8, quick: bool) -> Rule
    ensures { names_none result ≡ true }
{
    let elsewhere = AddrTest::Test {
        negated: false,
        what: AddrSet::Prefix(Prefix::of(&addr(rt, "198.51.100.1"))),
    };
    let other = Op16::make(OpKind::Equal, 80, 0);
    let em1 = IfTest::On {
        name: name(rt, "em1"),
        negated: false,
    };
    Rule {
        criteria: Criteria {
            iface: if field == 0 { em1 } else { IfTest::Any },
            direction: (field == 1).then_some(Direction::Out),
            family: (field == 2).then_some(Family::Inet6),
            proto: (field == 3).then_some(6),
            source: if field == 4 { elsewhere } else { AddrTest::Any },
            source_port: (field == 5).then_some(other),
            target: if field == 6 { elsewhere } else { AddrTest::Any },
            target_port: (field == 7).then_some(other),
            ..PASS.criteria
        },
        effect: Effect {
            quick,
            ..PASS.effect
        },
    }
}

// How many rules are tested of three that fail in this field first, and two that match.
fn tests_past(rt: &impl Abort, alloc: Global, field: u8) -> Result<u32, Fail> {
    let rules = [
        failing(rt, field, false),
        failing(rt, field, true),
        failing(rt, field, false),
        PASS,
        PASS,
    ];
    let mut tree = Tree::new(alloc);
    let node = node_of(alloc, Level::None, &rules, &[0, 0, 0, 0, 0])?;
    plant(alloc, &mut tree, &Path::main(), node)?;
    let (answer, tests) = answer(alloc, &tree, &[], &query(rt));
    assert_eq!(rt; answer.decision.state, StateKind::Keep);
    Ok(tests)
}

#[test]
fn rules_equal_in_a_failing_field_are_passed_over(rt: HostRuntime) -> Result<(), Fail> {
    let alloc = rt.alloc();
    for field in 0..8 {
        let tests = tests_past(&rt, alloc, field)?;
        assert_eq!(rt; tests, 3, "{field}");
    }
    Ok(())
}

// `pass quick inet from HOST`
fn host(rt: &impl Abort, host: &str) -> Rule
    ensures { names_none result ≡ true }
{
    Rule {
        criteria: Criteria {
            family: Some(Family::Inet),
            source: AddrTest::Test {
                negated: false,
                what: AddrSet::Prefix(Prefix::of(&addr(rt, host))),
            },
            ..PASS.criteria
        },
        effect: Effect {
            quick: true,
            ..PASS.effect
        },
    }
}

#[test]
fn one_test_for_a_packet_from_elsewhere(rt: HostRuntime) -> Result<(), Fail> {
    let rules = [
        host(&rt, "10.0.0.1"),
        host(&rt, "10.0.0.2"),
        host(&rt, "10.0.0.3"),
        host(&rt, "10.0.0.4"),
        host(&rt, "10.0.0.5"),
        host(&rt, "10.0.0.6"),
    ];
    let mut tree = Tree::new(rt.alloc());
    let node = node_of(rt.alloc(), Level::Basic, &rules, &[0, 0, 0, 0, 0, 0])?;
    plant(rt.alloc(), &mut tree, &Path::main(), node)?;
    let mut packet = query(&rt);
    let (inside, tests) = answer(rt.alloc(), &tree, &[], &packet);
    assert_eq!(rt; (inside.decision.state, tests), (StateKind::Keep, 1));
    packet.source = addr(&rt, "11.0.0.1");
    let (outside, tests) = answer(rt.alloc(), &tree, &[], &packet);
    assert_eq!(rt; (outside.decision.state, tests), (StateKind::None, 1));
    let (skipped, tests) = answer(rt.alloc(), &tree, &[name(&rt, "em")], &query(&rt));
    assert!(rt; skipped.skip);
    assert_eq!(rt; (skipped.decision.action, tests), (Action::Pass, 0));
    Ok(())
}
