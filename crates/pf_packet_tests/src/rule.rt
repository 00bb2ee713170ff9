ghost use Rattle.std.specs.Prelude.{◌<◌};

use pf_addr::{Addr, DynIf, Ifaces, Prefix, Range, parse_addr, parse_prefix};
use pf_base::{Family, Name, Path, Same, Steps, Uncounted};
use pf_ops::{IcmpType, Op16, Op32, OpKind, TcpFlags};
use pf_rule::{
    Action, AddrSet, AddrTest, Answer, Base, BlockKind, Call, Criteria, Direction, Effect,
    FieldValue, IfTest, Marks, Members, NoTables, Packet, Params, Probe, Queues, Rule, StateKind,
    StateOptions, TagTest, Target, Tested, Walk, answer, apply, evaluate, hit,
};
use std::alloc::Global;
use std::collections::HashMap;
use std::test::Fail;

// A host whose interfaces are all in one group and have the addresses of one network.
#[derive(Drop)]
struct Host {
    group: Name,
    network: Prefix,
}

impl Ifaces for Host {
    ghost use Rattle.std.specs.Prelude.{◌||◌};
    ghost use Rattle.std.specs.Str.{bytes_eq};
    ghost use Rattle.pf_addr.specs.Prefix.{contains};

    ghost in_group = { λ host name iface. bytes_eq name iface || bytes_eq name host.group };

    ghost dynamic = { λ host what addr. contains host.network addr };

    fn in_group(&self, name: &Name, iface: &Name) -> bool {
        name == iface || *name == self.group
    }

    fn dynamic(&self, _what: &DynIf, addr: &Addr) -> bool {
        self.network.contains(addr)
    }
}

// Each table has the addresses of one prefix.
#[derive(Drop)]
struct Tables(Prefix);

impl Members for Tables {
    ghost use Rattle.pf_addr.specs.Prefix.{contains};

    ghost member = { λ tables what addr. contains tables.0 addr };

    fn member(&self, _what: &AddrSet, addr: &Addr) -> bool {
        self.0.contains(addr)
    }
}

fn name(text: &str) -> Result<Name, Fail> {
    Ok(Name::new(text.as_bytes()).ok_or("no name")?)
}

fn addr(text: &str) -> Result<Addr, Fail> {
    Ok(parse_addr(text.as_bytes())?)
}

fn prefix(text: &str) -> Result<AddrSet, Fail> {
    Ok(AddrSet::Prefix(parse_prefix(text.as_bytes())?))
}

fn make_host() -> Result<Host, Fail> {
    Ok(Host {
        group: name("egress")?,
        network: parse_prefix(b"192.0.2.0/24")?,
    })
}

fn make_tables() -> Result<Tables, Fail> {
    Ok(Tables(parse_prefix(b"203.0.113.0/24")?))
}

const ANY: Criteria = Criteria {
    iface: IfTest::Any,
    direction: None,
    family: None,
    proto: None,
    source: AddrTest::Any,
    source_port: None,
    target: AddrTest::Any,
    target_port: None,
    user: None,
    group: None,
    flags: None,
    icmp: None,
    tos: None,
    prio: None,
    tagged: TagTest::Any,
};

const BLOCK: Effect = Effect {
    action: Action::Block(BlockKind::Return),
    quick: false,
    tag: None,
    state: StateKind::None,
    options: StateOptions::NONE,
    params: Params::NONE,
    label: None,
};

// The first packet of a TCP connection that comes in by em0.
fn syn(source: &str, target: &str, port: u16) -> Result<Packet, Fail> {
    Ok(Packet {
        direction: Direction::In,
        iface: name("em0")?,
        proto: 6,
        source: addr(source)?,
        target: addr(target)?,
        source_port: Some(1024),
        target_port: Some(port),
        flags: 2,
        icmp_type: None,
        icmp_code: None,
        tos: 0,
        prio: 3,
        user: None,
        group: None,
        tag: None,
    })
}

// What the test of a rule with these criteria finds at a packet.
fn found(criteria: &Criteria, packet: &Packet) -> Result<Tested, Fail> {
    let rule = Rule {
        criteria: *criteria,
        effect: BLOCK,
    };
    let mut steps = Steps::start();
    Ok(hit(
        &rule,
        &Walk::begin(packet),
        &make_tables()?,
        &make_host()?,
        &mut steps,
    ))
}

// What is found, at a first packet for port 22, of criteria whose skip fields fail from this one on: from
// 8 on only the type of service fails, and from 9 on nothing.
fn found_from(field: u8) -> Result<Tested, Fail> {
    let elsewhere = AddrTest::Test {
        negated: false,
        what: prefix("198.51.100/24")?,
    };
    let beyond = AddrTest::Test {
        negated: false,
        what: prefix("198.51.100/24")?,
    };
    let not_em0 = IfTest::On {
        name: name("em0")?,
        negated: true,
    };
    let www = Op16::make(OpKind::Equal, 80, 0);
    let criteria = Criteria {
        iface: if field == 0 { not_em0 } else { IfTest::Any },
        direction: (field <= 1).then_some(Direction::Out),
        family: (field <= 2).then_some(Family::Inet6),
        proto: (field <= 3).then_some(17),
        source: if field <= 4 { elsewhere } else { AddrTest::Any },
        source_port: (field <= 5).then_some(www),
        target: if field <= 6 { beyond } else { AddrTest::Any },
        target_port: (field <= 7).then_some(www),
        tos: (field <= 8).then_some(4),
        ..ANY
    };
    let packet = syn("10.0.0.1", "192.0.2.10", 22)?;
    Ok(found(&criteria, &packet)?)
}

#[test]
fn the_first_failing_field_is_told(rt: HostRuntime) -> Result<(), Fail> {
    for field in 0..8 {
        let tested = found_from(field)?;
        assert_eq!(rt; tested, Tested::Field(field));
    }
    let other = found_from(8)?;
    assert_eq!(rt; other, Tested::Other);
    let hit = found_from(9)?;
    assert_eq!(rt; hit, Tested::Hit);
    Ok(())
}

// Whether a test of the source with this set, and one with `!`, hit.
fn from_set(what: AddrSet, source: &str) -> Result<(bool, bool), Fail> {
    let packet = syn(source, source, 22)?;
    let criteria = Criteria {
        source: AddrTest::Test {
            negated: false,
            what,
        },
        ..ANY
    };
    let turned = Criteria {
        source: AddrTest::Test {
            negated: true,
            what,
        },
        ..ANY
    };
    Ok((
        found(&criteria, &packet)? == Tested::Hit,
        found(&turned, &packet)? == Tested::Hit,
    ))
}

#[test]
fn addresses_are_sought_in_their_sets(rt: HostRuntime) -> Result<(), Fail> {
    let range = AddrSet::Range(Range {
        low: Addr::V4(0xcb00_7101),
        high: Addr::V4(0xcb00_7109),
    });
    let em0 = AddrSet::Dynamic(DynIf {
        name: name("em0")?,
        network: false,
        first: false,
    });
    let all = prefix("0/0")?;
    let cases = [
        (range, "203.0.113.9", true),
        (range, "203.0.113.10", false),
        (range, "2001:db8::1", false),
        (all, "203.0.113.9", true),
        (all, "2001:db8::1", false),
        (AddrSet::Auto(0), "203.0.113.9", true),
        (AddrSet::Auto(0), "192.0.2.10", false),
        (em0, "192.0.2.10", true),
        (em0, "203.0.113.9", false),
    ];
    for (what, source, inside) in cases {
        assert_eq!(rt;
            from_set(what, source)?,
            (inside, !inside),
            "{source} {what:?}"
        );
    }
    Ok(())
}

#[test]
fn users_are_known_of_tcp_and_udp_alone(rt: HostRuntime) -> Result<(), Fail> {
    let packet = syn("10.0.0.1", "192.0.2.10", 22)?;
    let criteria = Criteria {
        user: Some(Op32::make(OpKind::Other, 0, 0)),
        ..ANY
    };
    for (proto, user, want) in [
        (6, Some(55), Tested::Hit),
        (17, Some(55), Tested::Hit),
        (1, Some(55), Tested::Other),
        (6, Some(0), Tested::Other),
        (6, None, Tested::Other),
    ] {
        let packet = Packet {
            proto,
            user,
            ..packet
        };
        assert_eq!(rt; found(&criteria, &packet)?, want, "{proto} {user:?}");
    }
    Ok(())
}

#[test]
fn flags_are_tested_of_tcp_alone(rt: HostRuntime) -> Result<(), Fail> {
    let packet = syn("10.0.0.1", "192.0.2.10", 22)?;
    let criteria = Criteria {
        flags: Some(TcpFlags { set: 2, mask: 18 }),
        ..ANY
    };
    for (proto, flags, want) in [
        (6, 2, Tested::Hit),
        (6, 66, Tested::Hit),
        (6, 18, Tested::Other),
        (6, 0, Tested::Other),
        (17, 0, Tested::Hit),
    ] {
        let packet = Packet {
            proto,
            flags,
            ..packet
        };
        assert_eq!(rt; found(&criteria, &packet)?, want, "{proto} {flags}");
    }
    Ok(())
}

#[test]
fn types_are_tested_of_icmp_alone(rt: HostRuntime) -> Result<(), Fail> {
    let packet = syn("10.0.0.1", "192.0.2.10", 22)?;
    for (proto, code, icmp_code, want) in [
        (1, None, Some(0), Tested::Hit),
        (58, None, None, Tested::Hit),
        (6, None, Some(0), Tested::Other),
        (1, Some(1), Some(1), Tested::Hit),
        (1, Some(1), Some(0), Tested::Other),
        (1, Some(1), None, Tested::Other),
    ] {
        let echo = IcmpType {
            family: Family::Inet,
            kind: 8,
            code,
        };
        let criteria = Criteria {
            icmp: Some(echo),
            ..ANY
        };
        let packet = Packet {
            proto,
            icmp_type: Some(8),
            icmp_code,
            ..packet
        };
        assert_eq!(rt;
            found(&criteria, &packet)?,
            want,
            "{proto} {code:?} {icmp_code:?}"
        );
    }
    Ok(())
}

// `block return`, `pass`, `block return in on ! lo0 proto tcp to port 6000:6010` and
// `block return out log proto tcp user 55`.
fn default_rules() -> Result<[Rule; 4], Fail> {
    let x11 = Criteria {
        direction: Some(Direction::In),
        iface: IfTest::On {
            name: name("lo0")?,
            negated: true,
        },
        proto: Some(6),
        target_port: Some(Op16::make(OpKind::Within, 6000, 6010)),
        ..ANY
    };
    let build = Criteria {
        direction: Some(Direction::Out),
        proto: Some(6),
        user: Some(Op32::make(OpKind::Equal, 55, 0)),
        ..ANY
    };
    let first_syn = Criteria {
        flags: Some(TcpFlags { set: 2, mask: 18 }),
        ..ANY
    };
    let pass = Effect {
        action: Action::Pass,
        state: StateKind::Keep,
        ..BLOCK
    };
    let mut logged = BLOCK;
    logged.params.log.on = true;
    Ok([
        Rule {
            criteria: ANY,
            effect: BLOCK,
        },
        Rule {
            criteria: first_syn,
            effect: pass,
        },
        Rule {
            criteria: x11,
            effect: BLOCK,
        },
        Rule {
            criteria: build,
            effect: logged,
        },
    ])
}

// Whether the default rules pass a TCP packet, and whether they log it.
fn default_passes(
    direction: Direction,
    iface: &str,
    port: u16,
    flags: u8,
    user: Option<u32>,
) -> Result<(bool, bool), Fail> {
    let iface = name(iface)?;
    let packet = syn("198.51.100.7", "192.0.2.10", port)?;
    let packet = Packet {
        direction,
        iface,
        flags,
        user,
        ..packet
    };
    let rules = default_rules()?;
    let host = make_host()?;
    let mut steps = Steps::start();
    let decision = evaluate(&rules, &packet, &NoTables, &host, &mut steps).decision;
    Ok((decision.action == Action::Pass, decision.params.log.on))
}

#[test]
fn the_default_rules_decide(rt: HostRuntime) -> Result<(), Fail> {
    for (direction, iface, port, flags, user, passes, logged) in [
        (Direction::In, "em0", 22, 2, None, true, false),
        (Direction::In, "em0", 6000, 2, None, false, false),
        (Direction::In, "lo0", 6000, 2, None, true, false),
        (Direction::In, "em0", 22, 18, None, false, false),
        (Direction::Out, "em0", 80, 2, Some(55), false, true),
        (Direction::Out, "em0", 80, 2, Some(1000), true, false),
    ] {
        let decided = default_passes(direction, iface, port, flags, user)?;
        assert_eq!(rt;
            decided,
            (passes, logged),
            "{iface} {port} {flags} {user:?}"
        );
    }
    Ok(())
}

// Tests a rule at a probe of any type, and does what it does where it hits.
fn probed<P: Probe<Uncounted>>(probe: &mut P, rule: &Rule) -> Result<Tested, Fail> {
    let mut steps = Steps::start();
    let host = make_host()?;
    let found = probe.test(rule, &NoTables, &host, &mut steps);
    if let Tested::Hit = found
        && !rule.effect.action.is_anchor()
    {
        probe.apply(rule);
    }
    Ok(found)
}

#[test]
fn match_rules_set_tags_and_parameters(rt: HostRuntime) -> Result<(), Fail> {
    let packet = Packet {
        tag: Some(name("old")?),
        ..syn("10.0.0.1", "192.0.2.10", 22)?
    };
    let mut walk = Walk::begin(&packet);
    let mut effect = Effect {
        action: Action::Match,
        tag: Some(name("new")?),
        ..BLOCK
    };
    effect.params.queue = Some(Queues {
        first: name("bulk")?,
        second: None,
    });
    effect.params.log.to = Some(name("pflog1")?);
    let mut rule = Rule {
        criteria: Criteria {
            tagged: TagTest::Is {
                name: name("old")?,
                negated: false,
            },
            ..ANY
        },
        effect,
    };
    assert_eq!(rt; probed(&mut walk, &rule)?, Tested::Hit);
    assert_eq!(rt; probed(&mut walk, &rule)?, Tested::Other);
    rule.criteria.tagged = TagTest::Is {
        name: name("old")?,
        negated: true,
    };
    rule.effect = Effect {
        action: Action::Block(BlockKind::Drop),
        quick: true,
        tag: None,
        label: Some(name("spam")?),
        ..BLOCK
    };
    assert_eq!(rt; probed(&mut walk, &rule)?, Tested::Hit);
    let reply = answer(&walk);
    assert_eq!(rt; reply.tag, Some(name("new")?));
    assert_eq!(rt; reply.decision.action, Action::Block(BlockKind::Drop));
    assert_eq!(rt; reply.decision.label, Some(name("spam")?));
    assert_eq!(rt; reply.decision.params, effect.params);
    Ok(())
}

// The marks of a probe, before and after one is set.
fn marked<P: Probe<Uncounted>>(probe: &mut P) -> (Marks, Marks) {
    let first = probe.marks();
    probe.set_marks(Marks {
        matched: true,
        stop: first.stop,
    });
    (first, probe.marks())
}

// Whether a probe is on the interface tun0 or on this one.
fn skipped<P: Probe<Uncounted>>(probe: &P, iface: &str) -> Result<bool, Fail> {
    let names = [name("tun0")?, name(iface)?];
    let host = make_host()?;
    Ok(probe.skips(&names, &host))
}

// The marks of the walk of a packet on em0, and whether the packet is skipped.
fn opened(skip: &str) -> Result<(Marks, Marks, bool), Fail> {
    let iface = name("em0")?;
    let packet = syn("10.0.0.1", "192.0.2.10", 22)?;
    let packet = Packet {
        direction: Direction::Out,
        iface,
        flags: 0,
        user: None,
        ..packet
    };
    let mut walk = Walk::begin(&packet);
    let (first, second) = marked(&mut walk);
    let skips = skipped(&walk, skip)?;
    Ok((first, second, skips))
}

#[test]
fn marks_and_skipped_interfaces(rt: HostRuntime) -> Result<(), Fail> {
    for (skip, skips) in [("em0", true), ("egress", true), ("lo0", false)] {
        let (first, second, found) = opened(skip)?;
        assert!(rt; !first.matched && !first.stop);
        assert!(rt; second.matched && !second.stop);
        assert_eq!(rt; found, skips, "{skip}");
    }
    Ok(())
}

#[test]
fn groups_and_priorities_are_tested(rt: HostRuntime) -> Result<(), Fail> {
    let packet = syn("10.0.0.1", "192.0.2.10", 22)?;
    let wheel = Criteria {
        group: Some(Op32::make(OpKind::Equal, 10, 0)),
        ..ANY
    };
    let urgent = Criteria {
        prio: Some(6),
        ..ANY
    };
    for (criteria, group, prio, want) in [
        (wheel, Some(10), 3, Tested::Hit),
        (wheel, Some(11), 3, Tested::Other),
        (wheel, None, 3, Tested::Other),
        (urgent, None, 6, Tested::Hit),
        (urgent, None, 3, Tested::Other),
    ] {
        let packet = Packet {
            group,
            prio,
            ..packet
        };
        assert_eq!(rt; found(&criteria, &packet)?, want, "{group:?} {prio}");
    }
    Ok(())
}

// `pass`, which makes a state.
const PASS: Effect = Effect {
    action: Action::Pass,
    state: StateKind::Keep,
    ..BLOCK
};

// `match`.
const MATCH: Effect = Effect {
    action: Action::Match,
    ..BLOCK
};

#[test]
fn rules_mark_the_walk(rt: HostRuntime) -> Result<(), Fail> {
    let packet = syn("10.0.0.1", "192.0.2.10", 22)?;
    for (effect, quick, matched) in [
        (PASS, true, true),
        (PASS, false, true),
        (BLOCK, true, true),
        (MATCH, true, false),
        (MATCH, false, false),
    ] {
        let rule = Rule {
            criteria: ANY,
            effect: Effect { quick, ..effect },
        };
        let mut walk = Walk::begin(&packet);
        if rule.effect.action.is_anchor() {
            continue;
        }
        apply(&mut walk, &rule);
        assert_eq!(rt; walk.stop, quick);
        assert_eq!(rt; walk.matched, matched);
    }
    Ok(())
}

// The answer of rules to a packet, on the host of the tests and without tables.
fn evaluated(rules: &[Rule], packet: &Packet) -> Result<Answer, Fail> {
    let mut steps = Steps::start();
    let host = make_host()?;
    Ok(evaluate(rules, packet, &NoTables, &host, &mut steps))
}

#[test]
fn no_rule_behind_a_quick_one_is_evaluated(rt: HostRuntime) -> Result<(), Fail> {
    let packet = syn("10.0.0.1", "192.0.2.10", 22)?;
    let quick = Rule {
        criteria: ANY,
        effect: Effect {
            quick: true,
            ..BLOCK
        },
    };
    let tagging = Rule {
        criteria: ANY,
        effect: Effect {
            tag: Some(name("late")?),
            ..PASS
        },
    };
    let answer = evaluated(&[quick, tagging], &packet)?;
    assert_eq!(rt; answer.decision.action, Action::Block(BlockKind::Return));
    assert_eq!(rt; answer.tag, None);
    let answer = evaluated(&[tagging, quick], &packet)?;
    assert_eq!(rt; answer.decision.action, Action::Block(BlockKind::Return));
    assert_eq!(rt; answer.tag, Some(name("late")?));
    Ok(())
}

// What a probe of any type answers, and what it answers once a rule has matched.
fn answers<P: Probe<Uncounted>>(probe: &mut P, rule: &Rule) -> Result<(Answer, Answer), Fail> {
    let first = probe.answer();
    probed(probe, rule)?;
    Ok((first, probe.answer()))
}

#[test]
fn a_probe_answers(rt: HostRuntime) -> Result<(), Fail> {
    let packet = syn("10.0.0.1", "192.0.2.10", 22)?;
    let mut walk = Walk::begin(&packet);
    let rule = Rule {
        criteria: ANY,
        effect: Effect {
            label: Some(name("spam")?),
            ..BLOCK
        },
    };
    let (first, second) = answers(&mut walk, &rule)?;
    assert_eq!(rt; first.decision.action, Action::Pass);
    assert_eq!(rt; first.decision.state, StateKind::None);
    assert_eq!(rt; second.decision.action, Action::Block(BlockKind::Return));
    assert_eq!(rt; second.decision.label, Some(name("spam")?));
    Ok(())
}

fn target(addr_text: &str, port: Option<u16>) -> Result<Option<Target>, Fail> {
    Ok(Some(Target {
        addr: addr(addr_text)?,
        port,
    }))
}

// A packet behind match rules with these translations of the source, and the one that is answered.
fn translated(packet: &Packet, nat: &[Option<Target>]) -> Result<(Packet, Option<Target>), Fail> {
    let mut walk = Walk::begin(packet);
    for new in nat {
        let mut effect = MATCH;
        effect.params.nat = *new;
        let rule = Rule {
            criteria: ANY,
            effect,
        };
        probed(&mut walk, &rule)?;
    }
    Ok((walk.packet, answer(&walk).decision.params.nat))
}

#[test]
fn match_rules_translate(rt: HostRuntime) -> Result<(), Fail> {
    let ported = target("192.0.2.10", Some(5000))?;
    let plain = target("192.0.2.11", None)?;
    let joined = target("192.0.2.11", Some(5000))?;
    let inet6 = target("2001:db8::1", Some(5000))?;
    for (proto, nat, source, port, answered) in [
        (6, [ported, None], "192.0.2.10", 5000, ported),
        (17, [ported, plain], "192.0.2.11", 5000, joined),
        (6, [plain, None], "192.0.2.11", 1024, plain),
        (1, [ported, None], "192.0.2.10", 1024, ported),
        (6, [inet6, None], "10.0.0.1", 1024, inet6),
    ] {
        let packet = Packet {
            proto,
            ..syn("10.0.0.1", "198.51.100.7", 80)?
        };
        let want = Packet {
            source: addr(source)?,
            source_port: Some(port),
            ..packet
        };
        assert_eq!(rt;
            translated(&packet, &nat)?,
            (want, answered),
            "{proto} {nat:?}"
        );
    }
    Ok(())
}

// `block drop all`, `match out on em0 inet from 10.0.0.0/8 nat-to 192.0.2.10` and
// `pass out on em0 from 192.0.2.10`.
fn source_rules() -> Result<[Rule; 3], Fail> {
    let out = Criteria {
        direction: Some(Direction::Out),
        iface: IfTest::On {
            name: name("em0")?,
            negated: false,
        },
        ..ANY
    };
    let inner = Criteria {
        family: Some(Family::Inet),
        source: AddrTest::Test {
            negated: false,
            what: prefix("10.0.0.0/8")?,
        },
        ..out
    };
    let outer = Criteria {
        source: AddrTest::Test {
            negated: false,
            what: prefix("192.0.2.10")?,
        },
        ..out
    };
    let mut nat = MATCH;
    nat.params.nat = target("192.0.2.10", None)?;
    Ok([
        Rule {
            criteria: ANY,
            effect: Effect {
                action: Action::Block(BlockKind::Drop),
                ..BLOCK
            },
        },
        Rule {
            criteria: inner,
            effect: nat,
        },
        Rule {
            criteria: outer,
            effect: PASS,
        },
    ])
}

#[test]
fn later_rules_test_the_new_source(rt: HostRuntime) -> Result<(), Fail> {
    let rules = source_rules()?;
    let new = target("192.0.2.10", None)?;
    for (source, passes, nat) in [
        ("10.0.0.1", true, new),
        ("192.168.0.1", false, None),
        ("192.0.2.10", true, None),
    ] {
        let packet = Packet {
            direction: Direction::Out,
            proto: 17,
            flags: 0,
            ..syn(source, "198.51.100.7", 53)?
        };
        let decision = evaluated(&rules, &packet)?.decision;
        assert_eq!(rt; decision.action == Action::Pass, passes, "{source}");
        assert_eq!(rt; decision.params.nat, nat, "{source}");
        assert_eq!(rt; decision.params.rdr, None, "{source}");
    }
    Ok(())
}

// A rule with this action: `in on em0 proto tcp to 192.0.2.10 port 80 rdr-to 10.0.0.5 port 8080`, and
// then `pass in proto tcp to 10.0.0.5 port 8080 tag seen`.
fn target_rules(first: Effect) -> Result<[Rule; 2], Fail> {
    let tcp_in = Criteria {
        direction: Some(Direction::In),
        proto: Some(6),
        ..ANY
    };
    let outer = Criteria {
        iface: IfTest::On {
            name: name("em0")?,
            negated: false,
        },
        target: AddrTest::Test {
            negated: false,
            what: prefix("192.0.2.10")?,
        },
        target_port: Some(Op16::make(OpKind::Equal, 80, 0)),
        ..tcp_in
    };
    let inner = Criteria {
        target: AddrTest::Test {
            negated: false,
            what: prefix("10.0.0.5")?,
        },
        target_port: Some(Op16::make(OpKind::Equal, 8080, 0)),
        ..tcp_in
    };
    let mut rdr = first;
    rdr.params.rdr = target("10.0.0.5", Some(8080))?;
    Ok([
        Rule {
            criteria: outer,
            effect: rdr,
        },
        Rule {
            criteria: inner,
            effect: Effect {
                tag: Some(name("seen")?),
                ..PASS
            },
        },
    ])
}

#[test]
fn a_pass_rule_translates_no_packet_for_later_rules(rt: HostRuntime) -> Result<(), Fail> {
    let packet = syn("198.51.100.7", "192.0.2.10", 80)?;
    let new = target("10.0.0.5", Some(8080))?;
    for (first, tag) in [(PASS, None), (MATCH, Some(name("seen")?))] {
        let answer = evaluated(&target_rules(first)?, &packet)?;
        assert_eq!(rt; answer.decision.action, Action::Pass);
        assert_eq!(rt; answer.decision.state, StateKind::Keep);
        assert_eq!(rt; answer.decision.params.rdr, new);
        assert_eq!(rt; answer.decision.params.nat, None);
        assert_eq!(rt; answer.tag, tag);
    }
    Ok(())
}

#[test]
fn skip_fields_have_values(rt: HostRuntime) -> Result<(), Fail> {
    let criteria = Criteria {
        proto: Some(6),
        target_port: Some(Op16::make(OpKind::Equal, 80, 0)),
        ..ANY
    };
    for field in 0..8 {
        let given = match criteria.field_value(field) {
            FieldValue::Protocol(proto) => proto == Some(6),
            FieldValue::Port(Some(set)) => set.holds(80),
            _ => false,
        };
        assert_eq!(rt; given, field == 3 || field == 7, "{field}");
    }
    Ok(())
}

#[test]
fn rules_are_one_where_all_is_equal(rt: HostRuntime) -> Result<(), Fail> {
    let rules = default_rules()?;
    for (i, one) in rules.iter().enumerate() {
        for (j, other) in rules.iter().enumerate() {
            assert_eq!(rt; one.is_one_with(other), i == j, "{i} {j}");
        }
    }
    let mut effect = PASS;
    effect.params.log.to = Some(name("pflog1")?);
    assert!(rt; !effect.is_one_with(&PASS));
    let call = Call {
        base: Base::Below,
        path: Path::main(),
        children: false,
    };
    let anchor = Action::Anchor(call);
    assert!(rt; anchor.is_one_with(&anchor));
    assert!(rt; !anchor.is_one_with(&Action::Match));
    Ok(())
}

// How many distinct values of a skip field the default rules have.
fn distinct(alloc: Global, field: u8) -> Result<usize, Fail>
    requires { field < 8 }
{
    let rules = default_rules()?;
    let mut seen = HashMap::new(alloc);
    for rule in &rules {
        seen.insert(rule.criteria.field_value(field), field)?;
    }
    Ok(seen.len())
}

#[test]
fn equal_values_are_found_in_a_map(rt: HostRuntime) -> Result<(), Fail> {
    for (field, count) in [(0, 2), (1, 3), (2, 1), (3, 2), (4, 1), (7, 2)] {
        assert_eq!(rt; distinct(rt.alloc(), field)?, count, "{field}");
    }
    Ok(())
}
