use pf_addr::{Addr, DynIf, Range, parse_prefix};
use pf_base::{Family, List, Name, Place};
use pf_decl::{Bandwidth, Burst, OptionLine, Queue, Setting};
use pf_ops::{IcmpType, Op16, Op32, OpKind, TcpFlags};
use pf_parts::{
    BlockKind, Call, Direction, IfTest, Log, Prios, Queues, Scrub, StateKind, StateOptions, TagTest,
};
use pf_print::{put_option, put_queue, put_rule, put_table};
use pf_rule::{Action, AddrSet, AddrTest, Criteria, Effect, Params, Rule, Target};
use pf_shelf::TableFlags;
use pf_table::Entry;
use std::test::Fail;

fn name(text: &str) -> Result<Name, Fail> {
    Ok(Name::new(text.as_bytes()).ok_or("no name")?)
}

fn pass() -> Rule {
    Rule {
        criteria: Criteria {
            iface: IfTest::Any,
            direction: None,
            family: None,
            proto: None,
            source: AddrTest::Any,
            source_port: None,
            target: AddrTest::Any,
            target_port: None,
            user: None,
            group: None,
            flags: None,
            icmp: None,
            tos: None,
            prio: None,
            tagged: TagTest::Any,
        },
        effect: Effect {
            action: Action::Pass,
            quick: false,
            tag: None,
            state: StateKind::Keep,
            options: StateOptions::NONE,
            params: Params::NONE,
            label: None,
        },
    }
}

#[test]
fn sets_are_printed(rt: HostRuntime) -> Result<(), Fail> {
    let most = u16::MAX;
    for (set, text) in [
        (Op16::make(OpKind::Between, 5, 6), "0<>65535"),
        (Op16::make(OpKind::Equal, 80, 0), "= 80"),
        (Op16::make(OpKind::UpTo, 0, 0), "= 0"),
        (Op16::make(OpKind::Within, 80, 90), "80:90"),
        (Op16::make(OpKind::Within, 0, most), "0:65535"),
        (Op16::make(OpKind::Other, 0, 0), "1:65535"),
        (Op16::make(OpKind::Other, most, 0), "0:65534"),
        (Op16::make(OpKind::Below, 1024, 0), "0:1023"),
        (Op16::make(OpKind::Above, 1023, 0), "1024:65535"),
        (Op16::make(OpKind::Between, 80, 90), "81:89"),
        (Op16::make(OpKind::Other, 80, 0), "!= 80"),
        (Op16::make(OpKind::Outside, 80, 80), "!= 80"),
        (Op16::make(OpKind::Outside, 80, 90), "80<>90"),
    ] {
        let mut rule = pass();
        rule.criteria.proto = Some(17);
        rule.criteria.target_port = Some(set);
        let mut out = Vec::new(rt.alloc());
        put_rule(&mut out, &rule)?;
        let mut line = b"pass proto udp from any to any port ".to_vec(rt.alloc())?;
        line.extend_from_slice(text.as_bytes())?;
        line.extend_from_slice(b" keep state")?;
        assert_eq!(rt; out.as_slice(), line.as_slice());
    }
    Ok(())
}

fn network(text: &str) -> Result<AddrTest, Fail> {
    let prefix = parse_prefix(text.as_bytes()).ok().ok_or("no prefix")?;
    Ok(AddrTest::Test {
        negated: false,
        what: AddrSet::Prefix(prefix),
    })
}

fn fill_hosts(criteria: &mut Criteria) -> Result<(), Fail> {
    criteria.iface = IfTest::On {
        name: name("em0")?,
        negated: true,
    };
    criteria.direction = Some(Direction::In);
    criteria.family = Some(Family::Inet);
    criteria.proto = Some(6);
    criteria.source = network("10/8")?;
    criteria.target = AddrTest::Test {
        negated: true,
        what: AddrSet::Dynamic(DynIf {
            name: name("em0")?,
            network: true,
            first: true,
        }),
    };
    criteria.target_port = Some(Op16::make(OpKind::Equal, 22, 0));
    Ok(())
}

fn fill_tests(criteria: &mut Criteria) -> Result<(), Fail> {
    criteria.user = Some(Op32::make(OpKind::Between, 7, 7));
    criteria.group = Some(Op32::make(OpKind::Other, 5, 0));
    criteria.flags = Some(TcpFlags { set: 2, mask: 18 });
    criteria.tos = Some(16);
    criteria.prio = Some(3);
    criteria.tagged = TagTest::Is {
        name: name("any")?,
        negated: true,
    };
    Ok(())
}

fn fill_params(params: &mut Params) -> Result<(), Fail> {
    params.queue = Some(Queues {
        first: name("std")?,
        second: Some(name("pri/1")?),
    });
    params.prio = Some(Prios {
        first: 5,
        second: Some(6),
    });
    params.tos = Some(8);
    params.scrub = Scrub {
        no_df: true,
        max_mss: Some(1440),
        ..Scrub::NONE
    };
    params.log = Log {
        on: true,
        all: true,
        to: Some(name("pflog1")?),
        ..Log::NONE
    };
    params.allow_opts = true;
    params.rdr = Some(Target {
        addr: Addr::V4(0x0a00_0005),
        port: Some(8080),
    });
    Ok(())
}

fn fill_effect(effect: &mut Effect) -> Result<(), Fail> {
    effect.quick = true;
    effect.tag = Some(name("web")?);
    effect.state = StateKind::Modulate;
    effect.options = StateOptions {
        max: Some(100),
        if_bound: true,
        floating: true,
        ..StateOptions::NONE
    };
    effect.label = Some(name("a b")?);
    Ok(())
}

#[test]
fn every_part_is_printed(rt: HostRuntime) -> Result<(), Fail> {
    let mut rule = pass();
    fill_hosts(&mut rule.criteria)?;
    fill_tests(&mut rule.criteria)?;
    fill_effect(&mut rule.effect)?;
    fill_params(&mut rule.effect.params)?;
    let mut out = Vec::new(rt.alloc());
    put_rule(&mut out, &rule)?;
    assert_eq!(rt;
        out.as_slice(),
        b"pass in log (all, to pflog1) quick on ! em0 inet proto tcp from 10.0.0.0/8 to ! (em0:network:0) port = 22 user 0<>4294967295 group != 5 flags S/SA tos 16 prio 3 ! tagged \"any\" tag web modulate state (max 100, if-bound) set queue (std, \"pri/1\") set prio (5, 6) set tos 8 scrub (no-df, max-mss 1440) rdr-to 10.0.0.5 port 8080 allow-opts label \"a b\"".as_slice()
    );
    Ok(())
}

#[test]
fn other_rules_are_printed(rt: HostRuntime) -> Result<(), Fail> {
    let mut out = Vec::new(rt.alloc());
    let mut block = pass();
    block.effect.action = Action::Block(BlockKind::Icmp { code: 3, code6: 4 });
    block.effect.state = StateKind::None;
    put_rule(&mut out, &block)?;
    let mut range = block;
    range.effect.action = Action::Match;
    range.criteria.source = AddrTest::Test {
        negated: false,
        what: AddrSet::Range(
            Range::between(&Addr::V4(0x0a00_0001), &Addr::V4(0x0a00_0009))
                .ok()
                .ok_or("no range")?,
        ),
    };
    range.criteria.target = AddrTest::Test {
        negated: false,
        what: AddrSet::Auto(3),
    };
    out.extend_from_slice(b"\n")?;
    put_rule(&mut out, &range)?;
    let mut anchor = block;
    anchor.effect.action = Action::Anchor(Call::parse(b"../x/*").ok().ok_or("no call")?);
    anchor.criteria.source = AddrTest::Test {
        negated: false,
        what: AddrSet::Table(name("t")?),
    };
    out.extend_from_slice(b"\n")?;
    put_rule(&mut out, &anchor)?;
    let mut ping = pass();
    ping.criteria.proto = Some(58);
    ping.criteria.icmp = Some(IcmpType {
        family: Family::Inet6,
        kind: 128,
        code: Some(0),
    });
    out.extend_from_slice(b"\n")?;
    put_rule(&mut out, &ping)?;
    out.extend_from_slice(b"\n")?;
    put_rule(&mut out, &pass())?;
    assert_eq!(rt;
        out.as_slice(),
        b"block return-icmp (3, 4) all
match from 10.0.0.1 - 10.0.0.9 to <__automatic_3>
anchor \"../x/*\" from <t> to any
pass proto icmp6 all icmp6-type 128 code 0 keep state
pass all flags any keep state"
            .as_slice()
    );
    Ok(())
}

#[test]
fn declarations_are_printed(rt: HostRuntime) -> Result<(), Fail> {
    let mut out = Vec::new(rt.alloc());
    let mut entries = Vec::new(rt.alloc());
    for (text, negated) in [
        ("10/8", false),
        ("10.1.2.3", true),
        ("2001:db8::/32", false),
    ] {
        let prefix = parse_prefix(text.as_bytes()).ok().ok_or("no prefix")?;
        entries.push(Entry { prefix, negated })?;
    }
    let flags = TableFlags {
        persist: true,
        constant: false,
        counters: true,
    };
    put_table(&mut out, &name("t")?, &flags, entries.as_slice())?;
    out.extend_from_slice(b"\n")?;
    put_table(&mut out, &name("t")?, &flags, &[])?;
    let queue = Queue {
        name: name("std")?,
        iface: None,
        parent: Some(name("root")?),
        bandwidth: Some(Bandwidth {
            rate: 10_000_000_000,
            burst: Some(Burst {
                rate: 90_000_000,
                ms: 100,
            }),
        }),
        min: None,
        max: Some(Bandwidth {
            rate: 1,
            burst: None,
        }),
        default_queue: true,
        qlimit: Some(50),
        place: Place { file: 0, line: 1 },
    };
    out.extend_from_slice(b"\n")?;
    put_queue(&mut out, &queue)?;
    let line = OptionLine {
        setting: Setting::Other,
        text: List::of(b"set limit states 10".to_vec(rt.alloc())?),
    };
    out.extend_from_slice(b"\n")?;
    put_option(&mut out, &line)?;
    assert_eq!(rt;
        out.as_slice(),
        b"table <t> persist counters { 10.0.0.0/8, ! 10.1.2.3, 2001:db8::/32 }
table <t> persist counters { }
queue std parent root bandwidth 10000000000 burst 90000000 for 100ms max 1 default qlimit 50
set limit states 10"
            .as_slice()
    );
    Ok(())
}
