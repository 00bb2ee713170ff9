//! Declarations, over the tokens of short texts.
use crate::tokens::tokens;
use pf_base::{FaultKind, Name, Place};
use pf_decl::{Decl, Queue, QueueFault, UsedQueue, check_queues, parse_decl};
use pf_syntax::FormFault;
use pf_token::Token;
use std::alloc::Global;
use std::process::Abort;
use std::test::Fail;

// A setting, and its lines as they are shown.
const SHOWN: [(&str, &str); 10] = [
    (
        "set limit { states 10, frags 0020 }",
        "set limit states 10\nset limit frags 20\n",
    ),
    (
        "set skip on { lo \"any\" 'a b' }",
        "set skip on lo\nset skip on \"any\"\nset skip on \"a b\"\n",
    ),
    (
        "set timeout { tcp.first 120 interval 10, }",
        "set timeout tcp.first 120\nset timeout interval 10\n",
    ),
    ("set block-policy return", "set block-policy return\n"),
    ("set state-policy if-bound", "set state-policy if-bound\n"),
    (
        "set ruleset-optimization none",
        "set ruleset-optimization none\n",
    ),
    ("set optimization satellite", "set optimization satellite\n"),
    ("set debug err", "set debug err\n"),
    ("set reassemble yes no-df", "set reassemble yes no-df\n"),
    (
        "set fingerprints \"/etc/pf.os\"",
        "set fingerprints \"/etc/pf.os\"\n",
    ),
];

// A table, and how many entries and files it has; no number where no braces stand.
const TABLES: [(&str, Option<usize>, usize); 4] = [
    ("table <t>", None, 0),
    ("table <t> { }", Some(0), 0),
    ("table <t> persist { 10/8, ! a } counters { b }", Some(3), 0),
    ("table <t> file x const file \"y z\"", None, 2),
];

// A text that declares nothing, and the word that isn't supported in it, or none.
const REFUSED: [(&str, &str); 6] = [
    ("set limit states 10 20", ""),
    ("set timeout interval x", "interval"),
    ("set hostid 1", "hostid"),
    ("table <t> const const", ""),
    ("queue q qlimit 0", ""),
    ("queue q bandwidth 10m", ""),
];

fn name(text: &str) -> Result<Name, Fail> {
    Ok(Name::new(text.as_bytes()).ok_or("a name")?)
}

// The lines of a setting as they are shown, or nothing.
fn shown(alloc: Global, tokens: &[Token]) -> Result<Vec<u8>, Fail> {
    let mut out = Vec::new(alloc);
    if let Ok(Decl::Set(lines)) = parse_decl(alloc, tokens, false) {
        for line in lines.items() {
            out.extend_from_slice(line.text.items())?;
            out.push(b'\n')?;
        }
    }
    Ok(out)
}

#[test]
fn settings_are_shown(rt: HostRuntime) -> Result<(), Fail> {
    let alloc = rt.alloc();
    for (text, lines) in SHOWN {
        let tokens = tokens(&rt, alloc, text)?;
        assert_eq!(rt;
            shown(alloc, &tokens)?.as_slice(),
            lines.as_bytes(),
            "{text}"
        );
    }
    Ok(())
}

#[test]
fn tables_have_entries(rt: HostRuntime) -> Result<(), Fail> {
    let alloc = rt.alloc();
    for (text, entries, files) in TABLES {
        let tokens = tokens(&rt, alloc, text)?;
        let Decl::Table(table) = parse_decl(alloc, &tokens, false)? else {
            return Err(Fail::from("no table"));
        };
        let found = table.items.as_ref().map(|items| items.items().len());
        assert_eq!(rt; found, entries, "{text}");
        assert_eq!(rt; table.files.items().len(), files, "{text}");
    }
    Ok(())
}

#[test]
fn statements_are_refused(rt: HostRuntime) -> Result<(), Fail> {
    let alloc = rt.alloc();
    for (text, word) in REFUSED {
        let tokens = tokens(&rt, alloc, text)?;
        let fault = match Name::new(word.as_bytes()) {
            None => FormFault::Syntax,
            Some(word) => FormFault::Unsupported(word),
        };
        let refused = parse_decl(alloc, &tokens, false).err();
        assert_eq!(rt; refused, Some(fault), "{text}");
    }
    Ok(())
}

// The queues that these lines declare.
fn queues(rt: &impl Abort, alloc: Global, lines: &[&str]) -> Result<Vec<Queue>, Fail> {
    let mut found = Vec::new(alloc);
    for line in lines {
        let tokens = tokens(rt, alloc, line)?;
        if let Decl::Queue(queue) = parse_decl(alloc, &tokens, false)? {
            found.push(queue)?;
        }
    }
    Ok(found)
}

// What is wrong with queues and the use of a queue in line 9.
fn judged(
    rt: &impl Abort,
    alloc: Global,
    lines: &[&str],
    used: &str,
) -> Result<Option<QueueFault>, Fail> {
    let place = Place { file: 1, line: 9 };
    let used = UsedQueue {
        name: name(used)?,
        place,
    };
    let queues = queues(rt, alloc, lines)?;
    Ok(check_queues(&queues, &[used]).err())
}

#[test]
fn queues_are_judged(rt: HostRuntime) -> Result<(), Fail> {
    let alloc = rt.alloc();
    let root = "queue main on em0 bandwidth 10M";
    let child = "queue std parent main bandwidth 8M default";
    let at = |kind, line| Some(QueueFault {
        kind,
        place: Place { file: 1, line },
    });
    let none = judged(&rt, alloc, &[root, child], "std")?;
    assert_eq!(rt; none, None);
    let twice = judged(
        &rt,
        alloc,
        &[root, "queue main on em1", "queue main on em0"],
        "x",
    )?;
    assert_eq!(rt; twice, at(FaultKind::QueueTwice, 1));
    let parent = judged(&rt, alloc, &[child, root], "x")?;
    assert_eq!(rt; parent, at(FaultKind::QueueParent, 1));
    let unknown = judged(&rt, alloc, &[root, child], "x")?;
    assert_eq!(rt; unknown, at(FaultKind::QueueUnknown(name("x")?), 9));
    Ok(())
}
