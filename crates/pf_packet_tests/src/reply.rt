//! The texts of refusals and replies.
use pf_base::{FaultKind, List, Name, Path, Text};
use pf_record::Field;
use pf_reply::{Filled, Listing, Overfull, Refusal, Reply, put_refusal, put_reply};
use std::alloc::Global;
use std::test::Fail;

fn name(text: &str) -> Result<Name, Fail> {
    Ok(Name::new(text.as_bytes()).ok_or("no name")?)
}

fn path(text: &str) -> Result<Path, Fail> {
    Ok(Path::parse_any(text.as_bytes()).ok().ok_or("no path")?)
}

fn text(alloc: Global, bytes: &str) -> Result<Text, Fail> {
    Ok(List::of(Vec::from_slice(alloc, bytes.as_bytes())?))
}

#[test]
fn refusals_have_their_texts(rt: HostRuntime) -> Result<(), Fail> {
    let alloc = rt.alloc();
    let stale = Refusal::Stale {
        path: path("a/b")?,
        held: 2,
        now: 18446744073709551615,
    };
    let fault = Refusal::LoadFault {
        kind: FaultKind::MacroUndefined(name("nope")?),
        file: text(alloc, "x.inc")?,
        line: 2,
    };
    let full = Refusal::TreeFull {
        what: Overfull::Rulesets,
        count: 4097,
    };
    for (refusal, told) in [
        (&Refusal::BadCommand, "refused 1 BadCommand"),
        (&fault, "refused 2 LoadFault MacroUndefined(nope) x.inc:2"),
        (&stale, "refused 4 Stale a/b 2 18446744073709551615"),
        (&Refusal::CallCycle(Path::main()), "refused 16 CallCycle /"),
        (&full, "refused 12 TreeFull rulesets 4097"),
        (
            &Refusal::BadPacket(Field::Dport),
            "refused 11 BadPacket dport",
        ),
    ] {
        let mut out = Vec::new(alloc);
        put_refusal(&mut out, refusal)?;
        assert_eq!(rt; out.as_slice(), told.as_bytes());
    }
    Ok(())
}

#[test]
fn replies_have_their_texts(rt: HostRuntime) -> Result<(), Fail> {
    let alloc = rt.alloc();
    let filled = Filled {
        rulesets: 1,
        rules: 16384,
        tables: 0,
    };
    let opened = Reply::Opened {
        session: name("s1")?,
        ticket: 2,
    };
    let listed = Reply::Listed {
        listing: Listing::Written,
        count: 0,
    };
    for (reply, told) in [
        (
            Reply::Loaded(filled),
            "ok load rulesets=1 rules=16384 tables=0",
        ),
        (opened, "ok open s1 ticket=2"),
        (Reply::Flushed(Path::main()), "ok flush /"),
        (
            Reply::Matched { count: 1, words: 3 },
            "1/3 addresses match.",
        ),
        (
            Reply::Replaced {
                added: 2,
                deleted: 0,
            },
            "2 addresses added. 0 addresses deleted.",
        ),
        (listed, "ok written 0"),
    ] {
        let mut out = Vec::new(alloc);
        put_reply(&mut out, &reply)?;
        assert_eq!(rt; out.as_slice(), told.as_bytes());
    }
    Ok(())
}
