use pf_addr::Addr;
use pf_base::Name;
use pf_record::{Field, PacketFault, put_answer, read_packet};
use pf_rule::{
    Action, Answer, BlockKind, Decision, Direction, Flush, Log, Overload, Packet, Params, Prios,
    Queues, Rate, Scrub, StateKind, StateOptions, Target, Track,
};
use std::test::Fail;

fn name(text: &str) -> Result<Name, Fail> {
    Ok(Name::new(text.as_bytes()).ok_or("no name")?)
}

fn udp() -> Result<Packet, Fail> {
    Ok(Packet {
        direction: Direction::In,
        iface: name("em0")?,
        proto: 17,
        source: Addr::V4(0x0a00_0001),
        target: Addr::V4(0xc000_020a),
        source_port: Some(1024),
        target_port: Some(53),
        flags: 0,
        icmp_type: None,
        icmp_code: None,
        tos: 0,
        prio: 3,
        user: None,
        group: None,
        tag: None,
    })
}

#[test]
fn records_are_read(rt: HostRuntime) -> Result<(), Fail> {
    let tcp = Packet {
        direction: Direction::Out,
        iface: name("a.b-c_d:e+f@9")?,
        proto: 6,
        source_port: Some(0),
        target_port: Some(65535),
        flags: 18,
        tos: 255,
        prio: 7,
        user: Some(4294967295),
        group: Some(0),
        tag: Some(name("web-in")?),
        ..udp()?
    };
    let icmp6 = Packet {
        proto: 58,
        source: Addr::V6(1),
        target: Addr::V6(0xfe80 << 112),
        source_port: None,
        target_port: None,
        icmp_type: Some(128),
        icmp_code: Some(0),
        ..udp()?
    };
    for (record, packet) in [
        ("in em0 udp 10.0.0.1 192.0.2.10 sport=1024 dport=53", udp()?),
        (
            "out a.b-c_d:e+f@9 006 10.0.0.1 192.0.2.10 sport=00 dport=65535 flags=SAS tos=255 prio=7 user=4294967295 group=0 tag=web-in",
            tcp,
        ),
        ("in em0 ipv6-icmp ::1 fe80:: icmptype=128 code=0", icmp6),
    ] {
        assert_eq!(rt; read_packet(record.as_bytes()), Ok(packet), "{record}");
    }
    Ok(())
}

#[test]
fn the_first_fault_is_told(rt: HostRuntime) {
    for (record, fault, told) in [
        ("", Field::Direction, "direction"),
        ("in  em0 tcp", Field::Interface, "interface"),
        ("in em0", Field::Protocol, "protocol"),
        ("in em0 256 x", Field::Protocol, "protocol"),
        ("in em0 tcp 10.0.0 ::1", Field::Source, "source"),
        (
            "in em0 tcp ::1 10.0.0.1 x",
            Field::Destination,
            "destination",
        ),
        ("in em0 tcp ::1 ::2 sport=65536 x", Field::Sport, "sport"),
        ("in em0 tcp ::1 ::2 sport=1", Field::Dport, "dport"),
        ("in em0 tcp ::1 ::2 dport=x sport=1", Field::Dport, "dport"),
        ("in em0 tcp ::1 ::2 dport=1", Field::Sport, "sport"),
        ("in em0 udp ::1 ::2 flags=S", Field::Flags, "flags"),
        ("in em0 tcp ::1 ::2 flags=", Field::Flags, "flags"),
        ("in em0 icmp ::1 ::2", Field::Icmptype, "icmptype"),
        ("in em0 icmp ::1 ::2 icmptype=1", Field::Code, "code"),
        ("in em0 47 ::1 ::2 tos=256", Field::Tos, "tos"),
        ("in em0 47 ::1 ::2 prio=8", Field::Prio, "prio"),
        ("in em0 icmp ::1 ::2 user=0", Field::User, "user"),
        ("in em0 tcp ::1 ::2 group=4294967296", Field::Group, "group"),
        ("in em0 47 ::1 ::2 tag=a/b", Field::Tag, "tag"),
        ("in em0 47 ::1 ::2 prio=1 tos=x", Field::Extra, "extra"),
        ("in em0 47 ::1 ::2 tos=1 tos=1", Field::Extra, "extra"),
        ("in em0 tcp ::1 ::2 sport=1 ", Field::Extra, "extra"),
    ] {
        assert_eq!(rt;
            read_packet(record.as_bytes()),
            Err(PacketFault(fault)),
            "{record}"
        );
        assert_eq!(rt; fault.name(), told.as_bytes(), "{record}");
    }
}

// Another target, as `rdr-to` gives it.
const WEB: Target = Target {
    addr: Addr::V4(0x0a00_0005),
    port: Some(8080),
};

// The options and parameters with each part.
fn full() -> Result<Decision, Fail> {
    Ok(Decision {
        action: Action::Pass,
        state: StateKind::Synproxy,
        options: StateOptions {
            max: Some(1),
            source_track: Some(Track::Rule),
            max_src_nodes: Some(2),
            max_src_states: Some(3),
            max_src_conn: Some(4294967295),
            max_src_conn_rate: Some(Rate {
                count: 8,
                seconds: 9,
            }),
            overload: Some(Overload {
                table: name("bad")?,
                flush: Flush::Global,
            }),
            sloppy: true,
            no_sync: true,
            pflow: true,
            if_bound: true,
            floating: true,
        },
        params: Params {
            queue: Some(Queues {
                first: name("$a")?,
                second: Some(name("b")?),
            }),
            prio: Some(Prios {
                first: 3,
                second: Some(6),
            }),
            tos: Some(16),
            scrub: Scrub {
                no_df: true,
                random_id: true,
                reassemble_tcp: true,
                min_ttl: Some(255),
                max_mss: Some(0),
            },
            log: Log {
                on: true,
                all: true,
                matches: true,
                user: true,
                to: Some(name("pflog0")?),
            },
            allow_opts: true,
            nat: Some(Target {
                addr: Addr::V4(0xc000_020a),
                port: None,
            }),
            rdr: Some(WEB),
        },
        label: Some(name("hello there")?),
    })
}

// The options and parameters without a part.
fn plain(action: Action, state: StateKind) -> Decision {
    Decision {
        action,
        state,
        options: StateOptions {
            max: None,
            source_track: None,
            max_src_nodes: None,
            max_src_states: None,
            max_src_conn: None,
            max_src_conn_rate: None,
            overload: None,
            sloppy: false,
            no_sync: false,
            pflow: false,
            if_bound: false,
            floating: true,
        },
        params: Params {
            queue: None,
            prio: None,
            tos: None,
            scrub: Scrub {
                no_df: false,
                random_id: false,
                reassemble_tcp: false,
                min_ttl: None,
                max_mss: None,
            },
            log: Log {
                on: false,
                all: true,
                matches: false,
                user: false,
                to: None,
            },
            allow_opts: false,
            nat: None,
            rdr: None,
        },
        label: None,
    }
}

// Each answer of the table is decided.
fn print(out: &mut Vec<u8>, answer: &Answer) -> Result<(), Fail> {
    match answer.decision.action {
        Action::Pass | Action::Block(_) => put_answer(out, answer)?,
        _ => return Err(Fail::from("not decided")),
    }
    Ok(())
}

#[test]
fn answers_are_printed(rt: HostRuntime) -> Result<(), Fail> {
    let full = full()?;
    let any = Some(name("any")?);
    let tag = Some(name("a.b")?);
    let blocked = Decision {
        action: Action::Block(BlockKind::Icmp { code: 3, code6: 4 }),
        ..full
    };
    let plain_pass = plain(Action::Pass, StateKind::Keep);
    let translated = Decision {
        params: Params {
            rdr: Some(WEB),
            ..plain_pass.params
        },
        ..plain_pass
    };
    let seen = Some(name("seen")?);
    let reset = Action::Block(BlockKind::Rst { ttl: 0 });
    let ttl = Action::Block(BlockKind::Rst { ttl: 255 });
    for (skip, tag, decision, text) in [
        (true, tag, full, "skip"),
        (
            false,
            any,
            full,
            "pass synproxy state (max 1, source-track rule, max-src-nodes 2, max-src-states 3, max-src-conn 4294967295, max-src-conn-rate 8/9, overload <bad> flush global, sloppy, no-sync, pflow, if-bound) log (all, matches, user, to pflog0) tag \"any\" queue (\"$a\", b) prio (3, 6) tos 16 scrub (no-df, random-id, reassemble tcp, min-ttl 255, max-mss 0) nat-to 192.0.2.10 rdr-to 10.0.0.5 port 8080 allow-opts label \"hello there\"",
        ),
        (
            false,
            tag,
            blocked,
            "block return-icmp (3, 4) log (all, matches, user, to pflog0) tag a.b label \"hello there\"",
        ),
        (
            false,
            None,
            plain(Action::Pass, StateKind::None),
            "pass no state",
        ),
        (
            false,
            seen,
            translated,
            "pass keep state tag seen rdr-to 10.0.0.5 port 8080",
        ),
        (
            false,
            None,
            plain(reset, StateKind::Keep),
            "block return-rst",
        ),
        (
            false,
            None,
            plain(ttl, StateKind::Keep),
            "block return-rst (ttl 255)",
        ),
    ] {
        let mut out = Vec::new(rt.alloc());
        out.extend_from_slice(b"> ")?;
        let answer = Answer {
            skip,
            tag,
            decision,
        };
        print(&mut out, &answer)?;
        assert_eq!(rt;
            out.as_slice().strip_prefix(b"> "),
            Some(text.as_bytes()),
            "{text}"
        );
    }
    Ok(())
}
