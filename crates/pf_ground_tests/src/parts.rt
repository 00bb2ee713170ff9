use pf_base::{Name, Path, PathFault, Same};
use pf_parts::{
    Base, BlockKind, Call, Log, Prios, Queues, Scrub, StateKind, StateOptions, Track, put,
    put_allow_opts, put_block_kind, put_call, put_label, put_log, put_prio, put_queue, put_scrub,
    put_state, put_tag, put_tos,
};
use std::test::Fail;

fn name(text: &str) -> Result<Name, Fail> {
    Ok(Name::new(text.as_bytes()).ok_or("no name")?)
}

fn path(text: &str) -> Result<Path, Fail> {
    Ok(Path::parse(text.as_bytes()).map_err(|_| "no path")?)
}

#[test]
fn calls_are_read_and_printed(rt: HostRuntime) -> Result<(), Fail> {
    for (text, base, names, children, printed) in [
        ("a/b", Base::Below, "a/b", false, "a/b"),
        ("*", Base::Below, "/", true, "*"),
        ("../x/*", Base::Up(1), "x", true, "../x/*"),
        ("../..", Base::Up(2), "/", false, "../.."),
        ("/", Base::Root, "/", false, "/"),
        ("//*", Base::Root, "/", true, "/*"),
        ("/x/y.z", Base::Root, "x/y.z", false, "/x/y.z"),
    ] {
        let call = Call {
            base,
            path: path(names)?,
            children,
        };
        assert_eq!(rt; Call::parse(text.as_bytes()), Ok(call), "{text}");
        let mut out = Vec::new(rt.alloc());
        put_call(&mut out, &call)?;
        assert_eq!(rt; out.as_slice(), printed.as_bytes(), "{text}");
    }
    Ok(())
}

const LONG: &str = "/aaaaaaaaaaaaaaaaaaaaaaaaaaaaaaaaaaaaaaaaaaaaaaaaaaaaaaaaaaaaaaaa";

#[test]
fn faults_of_calls_are_told(rt: HostRuntime) {
    for (text, fault) in [
        ("", PathFault::Empty),
        ("../", PathFault::Empty),
        ("//", PathFault::Empty),
        ("a/..", PathFault::BadByte(2)),
        ("../../a*", PathFault::BadByte(7)),
        ("/_a/b!", PathFault::Reserved),
        (LONG, PathFault::TooLong(64)),
        ("a/a/a/a/a/a/a/a/a/*", PathFault::TooDeep(9)),
        ("../../../../../../../../..", PathFault::TooDeep(9)),
    ] {
        assert_eq!(rt; Call::parse(text.as_bytes()), Err(fault), "{text}");
    }
}

#[test]
fn calls_lead_to_rulesets(rt: HostRuntime) -> Result<(), Fail> {
    for (text, at, target) in [
        ("x", "a/b", Some("a/b/x")),
        ("../x/*", "a/b", Some("a/x")),
        ("../..", "a/b", Some("/")),
        ("../../..", "a/b", None),
        ("/x", "a/b", Some("x")),
        ("i", "a/b/c/d/e/f/g/h", None),
    ] {
        let call = Call::parse(text.as_bytes()).map_err(|_| "no call")?;
        let wanted = match target {
            Some(text) => Some(path(text)?),
            None => None,
        };
        assert_eq!(rt; call.target(&path(at)?), wanted, "{text}");
    }
    Ok(())
}

// The parts of a rule, one behind the other.
fn put_parts(out: &mut Vec<u8>) -> Result<(), Fail> {
    let options = StateOptions {
        max: Some(5),
        source_track: Some(Track::Global),
        ..StateOptions::NONE
    };
    let old = Scrub {
        min_ttl: Some(9),
        ..Scrub::NONE
    };
    let scrub = Scrub {
        no_df: true,
        ..Scrub::NONE
    };
    let log = Log {
        on: true,
        to: Some(name("pflog1")?),
        ..Log::NONE
    };
    let queues = Queues {
        first: name("a")?,
        second: Some(name("any")?),
    };
    let prios = Prios {
        first: 7,
        second: None,
    };
    put_state(out, StateKind::Modulate, &options)?;
    put(out, b" ")?;
    put_state(out, StateKind::None, &options)?;
    put_log(out, &log.over(&Log::NONE))?;
    put_tag(out, &Some(name("x y")?))?;
    put_queue(out, &Some(queues))?;
    put_prio(out, Some(prios))?;
    put_tos(out, Some(16))?;
    put_scrub(out, &scrub.over(&old))?;
    put_allow_opts(out, true)?;
    put_label(out, &Some(name("l")?))?;
    put(out, b" ")?;
    put_block_kind(out, BlockKind::Icmp { code: 3, code6: 4 })?;
    Ok(())
}

#[test]
fn parts_are_printed(rt: HostRuntime) -> Result<(), Fail> {
    let mut out = Vec::new(rt.alloc());
    put_parts(&mut out)?;
    let text =
        "modulate state (max 5, source-track global) no state log (to pflog1) tag \"x y\" queue (a, \"any\") prio 7 tos 16 scrub (no-df, min-ttl 9) allow-opts label \"l\" return-icmp (3, 4)";
    assert_eq!(rt; out.as_slice(), text.as_bytes());
    assert!(rt; Base::Up(2).same(&Base::Up(2)));
    assert!(rt;
        !StateOptions::NONE.same(&StateOptions {
            sloppy: true,
            ..StateOptions::NONE
        })
    );
    Ok(())
}
