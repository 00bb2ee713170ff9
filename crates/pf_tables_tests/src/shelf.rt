//! Shelves by calls.
use pf_addr::parse_prefix;
use pf_base::{List, Name};
use pf_shelf::{ChangeKind, Counts, Shelf, TableDecl, TableFault, TableFlags};
use pf_table::Entry;
use std::alloc::Global;
use std::process::Abort;
use std::test::Fail;

// The entry of a word, as pf.conf(5) writes it.
fn entry(rt: &impl Abort, word: &str) -> Entry {
    let (text, negated) = match word.strip_prefix("!") {
        Some(rest) => (rest, true),
        None => (word, false),
    };
    let prefix = parse_prefix(text.as_bytes()).ok().expect(rt, "a prefix");
    Entry { prefix, negated }
}

fn entries(rt: &impl Abort, alloc: Global, words: &str) -> Result<Vec<Entry>, Fail> {
    let mut list = Vec::new(alloc);
    for word in words.split_whitespace() {
        list.push(entry(rt, word))?;
    }
    Ok(list)
}

fn name(text: &str) -> Result<Name, Fail> {
    Ok(Name::new(text.as_bytes()).ok_or("a name")?)
}

// A table `t` with these entries; constant or not.
fn declared(
    rt: &impl Abort,
    alloc: Global,
    text: &str,
    words: Option<&str>,
    persist: bool,
    constant: bool,
) -> Result<TableDecl, Fail> {
    Ok(TableDecl {
        name: name(text)?,
        persist,
        constant,
        counters: false,
        filled: words.is_some(),
        entries: List::of(entries(rt, alloc, words.unwrap_or(""))?),
    })
}

// The entries of a table of the shelf are those of these words.
fn has(
    rt: &impl Abort,
    alloc: Global,
    shelf: &Shelf,
    text: &str,
    words: &str,
) -> Result<bool, Fail> {
    let table = shelf.find(&name(text)?).ok_or("no table")?;
    let list = table.entries().ok().ok_or("no memory")?;
    Ok(list.as_slice() == entries(rt, alloc, words)?.as_slice())
}

#[test]
fn changes_are_counted(rt: HostRuntime) -> Result<(), Fail> {
    let alloc = rt.alloc();
    let t = name("t")?;
    let mut shelf = Shelf::new(alloc);
    let one = entries(&rt, alloc, "10/8")?;
    let missing = shelf.change(alloc, &t, ChangeKind::Add, &one, 9);
    assert_eq!(rt; missing, Err(TableFault::Missing));
    let decl = declared(&rt, alloc, "t", Some("10/8 10/8"), false, false)?;
    let mut shelf = shelf.renew(alloc, &[decl]).ok().ok_or("no memory")?;
    for (kind, words, room, answer, after) in [
        (
            ChangeKind::Add,
            "10.1/16",
            1,
            Err(TableFault::Full(2)),
            "10/8",
        ),
        (
            ChangeKind::Add,
            "!10/8 10.1/16 ::/0 !10.1/16",
            3,
            Ok((2, 0)),
            "10/8 10.1/16 ::/0",
        ),
        (
            ChangeKind::Delete,
            "10/8 !10.1/16 10/8 1.2.3.4",
            3,
            Ok((0, 1)),
            "10.1/16 ::/0",
        ),
        (
            ChangeKind::Delete,
            "::1",
            1,
            Err(TableFault::Full(2)),
            "10.1/16 ::/0",
        ),
        (
            ChangeKind::Replace,
            "!10.1/16 1.2.3.4 !1.2.3.4 ::/0",
            2,
            Err(TableFault::Full(3)),
            "10.1/16 ::/0",
        ),
        (
            ChangeKind::Replace,
            "!10.1/16 1.2.3.4 !1.2.3.4 ::/0",
            3,
            Ok((2, 1)),
            "1.2.3.4 !10.1/16 ::/0",
        ),
        (ChangeKind::Flush, "1.2.3.4", 0, Ok((0, 3)), ""),
    ] {
        let list = entries(&rt, alloc, words)?;
        let counted = answer.map(|(added, deleted)| Counts { added, deleted });
        assert_eq!(rt;
            shelf.change(alloc, &t, kind, &list, room),
            counted,
            "{words}"
        );
        assert!(rt; has(&rt, alloc, &shelf, "t", after)?, "{words}");
    }
    assert_eq!(rt; shelf.total(), 0);
    Ok(())
}

#[test]
fn a_load_renews_tables(rt: HostRuntime) -> Result<(), Fail> {
    let alloc = rt.alloc();
    let shelf = Shelf::new(alloc);
    let first = [
        declared(&rt, alloc, "kept", Some("10/8 !10.1/16"), false, true)?,
        declared(&rt, alloc, "filled", Some("1.2.3.4"), false, false)?,
        declared(&rt, alloc, "emptied", Some("1.2.3.4"), true, false)?,
        declared(&rt, alloc, "stays", Some("::1"), true, false)?,
        declared(&rt, alloc, "goes", Some("::1 ::2"), false, false)?,
    ];
    let shelf = shelf.renew(alloc, &first).ok().ok_or("no memory")?;
    assert_eq!(rt; shelf.total(), 7);
    let second = [
        declared(&rt, alloc, "kept", None, false, true)?,
        declared(&rt, alloc, "filled", Some("4.3.2.1"), false, false)?,
        declared(&rt, alloc, "emptied", Some(""), false, false)?,
        declared(&rt, alloc, "new", None, false, false)?,
    ];
    let mut shelf = shelf.renew(alloc, &second).ok().ok_or("no memory")?;
    for (text, words) in [
        ("kept", "10/8 !10.1/16"),
        ("filled", "4.3.2.1"),
        ("emptied", ""),
        ("stays", "::1"),
        ("new", ""),
    ] {
        assert!(rt; has(&rt, alloc, &shelf, text, words)?, "{text}");
    }
    assert!(rt; shelf.find(&name("goes")?).is_none());
    let names = shelf.names(alloc).ok().ok_or("no memory")?;
    let wanted = [
        name("emptied")?,
        name("filled")?,
        name("kept")?,
        name("new")?,
        name("stays")?,
    ];
    assert_eq!(rt; names.as_slice(), wanted.as_slice());
    let flags = TableFlags {
        persist: false,
        constant: true,
        counters: false,
    };
    assert_eq!(rt; shelf.flags(&name("kept")?), Some(flags));
    let flushed = shelf.change(alloc, &name("kept")?, ChangeKind::Flush, &[], 9);
    assert_eq!(rt; flushed, Err(TableFault::Const));
    assert_eq!(rt; shelf.total(), 4);
    Ok(())
}
