//! Tables by calls.
use pf_addr::{Addr, Prefix, parse_prefix};
use pf_table::{Entry, Table};
use std::process::Abort;
use std::test::Fail;

// The entry of a word, as pf.conf(5) writes it.
fn entry(rt: &impl Abort, word: &str) -> Entry {
    let (text, negated) = match word.strip_prefix("!") {
        Some(rest) => (rest, true),
        None => (word, false),
    };
    let prefix = parse_prefix(text.as_bytes()).ok().expect(rt, "a prefix");
    Entry { prefix, negated }
}

fn addr(rt: &impl Abort, word: &str) -> Addr {
    entry(rt, word).prefix.addr
}

#[test]
fn narrowest_decides(rt: HostRuntime) -> Result<(), Fail> {
    let mut table = Table::new(rt.alloc());
    for word in [
        "10/8",
        "!10.1/16",
        "10.1.2/24",
        "::/0",
        "!2001:db8::/32",
        "0/0",
        "!1.2.3.4",
        "255.255.255.255",
        "!ffff::ffff",
    ] {
        assert!(rt;
            table.add(entry(&rt, word)).ok().expect(&rt, "memory"),
            "{word}"
        );
    }
    assert!(rt; !table.add(entry(&rt, "!10/8")).ok().expect(&rt, "memory"));
    assert_eq!(rt; table.len(), 9);
    for (word, is_in) in [
        ("10.1.2.3", true),
        ("10.1.3.1", false),
        ("11.0.0.1", true),
        ("1.2.3.4", false),
        ("::1", true),
        ("2001:db8::1", false),
        ("255.255.255.255", true),
        ("ffff::ffff", false),
    ] {
        assert_eq!(rt; table.lookup(&addr(&rt, word)), is_in, "{word}");
    }
    Ok(())
}

#[test]
fn removed_entries_are_gone(rt: HostRuntime) -> Result<(), Fail> {
    let mut table = Table::new(rt.alloc());
    for word in ["10/8", "::1", "!10.1/16", "10/16"] {
        assert!(rt;
            table.add(entry(&rt, word)).ok().expect(&rt, "memory"),
            "{word}"
        );
    }
    let list = table.entries().ok().expect(&rt, "memory");
    let wanted = ["10/8", "10/16", "!10.1/16", "::1"].map(|word| entry(&rt, word));
    assert_eq!(rt; list.as_slice(), wanted.as_slice());
    assert!(rt; !table.remove(&entry(&rt, "10.1/16")));
    assert!(rt; table.remove(&entry(&rt, "!10.1/16")));
    assert!(rt; !table.remove(&entry(&rt, "!10.1/16")));
    assert!(rt; table.lookup(&addr(&rt, "10.1.3.1")));
    assert_eq!(rt; table.len(), 3);
    Ok(())
}

#[test]
fn room_is_given_back(rt: HostRuntime) -> Result<(), Fail> {
    let list = ["10/8", "!10.1/16", "10/8", "!10/8", "::1"].map(|word| entry(&rt, word));
    let table = Table::of(rt.alloc(), &list).ok().expect(&rt, "memory");
    assert_eq!(rt; table.len(), 3);
    assert_eq!(rt; table.sign_of(&list[1].prefix), Some(true));
    let mut copy = table.copy().ok().expect(&rt, "memory");
    for number in 0..80u32 {
        let prefix = Prefix::of(&Addr::V4(number));
        let more = Entry {
            prefix,
            negated: false,
        };
        assert!(rt; copy.add(more).ok().expect(&rt, "memory"));
        assert!(rt; copy.remove(&more));
    }
    assert_eq!(rt; copy.sign_of(&Prefix::of(&Addr::V4(7))), None);
    copy.thin();
    let left = copy.entries().ok().expect(&rt, "memory");
    let wanted = ["10/8", "!10.1/16", "::1"].map(|word| entry(&rt, word));
    assert_eq!(rt; left.as_slice(), wanted.as_slice());
    assert!(rt; !copy.lookup(&addr(&rt, "10.1.3.1")));
    Ok(())
}
