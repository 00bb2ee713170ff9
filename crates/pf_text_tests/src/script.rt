//! Lines of a script, and what they say.
use pf_base::{Level, NoMemory, Text};
use pf_script::{Command, LoadLine, Show, TableAction, Words, read_command};
use pf_token::Define;
use std::alloc::Global;
use std::test::Fail;

// A line, and the command that it says.
const COMMANDS: [(&str, &str); 22] = [
    ("load f.conf", "load"),
    ("\tload  f.conf ", "load"),
    ("check -o profile f.conf", "check"),
    ("open s f.conf", "open"),
    ("commit s_1-a", "commit"),
    ("rollback -", "rollback"),
    ("flush rules /", "flush"),
    ("flush rules a/b", "flush"),
    ("table / t add 10/8 !10.1/16", "add"),
    ("table a/b <t> delete x", "delete"),
    ("table / t replace 10.0.0.1", "replace"),
    ("table / t flush", "empty"),
    ("table / t show", "entries"),
    ("table / t test 10.0.0.1", "match"),
    ("show rules /", "rules"),
    ("show written _1", "written"),
    ("show tables a", "tables"),
    ("show anchors /", "anchors"),
    ("show skips /", "skips"),
    ("show queues", "queues"),
    ("show options", "options"),
    ("hosts f1", "hosts"),
];

// Lines that say no command.
const OTHERS: [&str; 24] = [
    "",
    " \t",
    "load",
    "load -o f.conf",
    "load -o none -o basic f.conf",
    "load -a _x f.conf",
    "load -D 9=1 -D 9=2 f.conf",
    "load f.conf -o none",
    "load f.conf\r",
    "load \"f.conf\" x",
    "open s.1 f.conf",
    "commit s s",
    "flush rules _1",
    "table / t add",
    "table / t flush 10/8",
    "table _1 t show",
    "show rules",
    "show queues /",
    "show cert /",
    "verify / c",
    "lint /",
    "compact / t",
    "hosts -f",
    "test ",
];

fn shown(show: &Show) -> &'static str {
    match show {
        Show::Rules(_) => "rules",
        Show::Written(_) => "written",
        Show::Tables(_) => "tables",
        Show::Anchors(_) => "anchors",
        Show::Skips(_) => "skips",
        Show::Queues => "queues",
        Show::Options => "options",
    }
}

fn acted(act: &TableAction) -> &'static str {
    match act {
        TableAction::Add(_) => "add",
        TableAction::Delete(_) => "delete",
        TableAction::Replace(_) => "replace",
        TableAction::Flush => "empty",
        TableAction::Show => "entries",
        TableAction::Test(_) => "match",
    }
}

fn said(command: &Command) -> &'static str {
    match command {
        Command::Load(_) => "load",
        Command::Check(_) => "check",
        Command::Open(_, _) => "open",
        Command::Commit(_) => "commit",
        Command::Rollback(_) => "rollback",
        Command::Flush(_) => "flush",
        Command::Table(_, _, act) => acted(act),
        Command::Show(show) => shown(show),
        Command::Hosts(_) => "hosts",
        Command::Test(_) => "test",
    }
}

#[test]
fn lines_say_commands(rt: HostRuntime) -> Result<(), Fail> {
    for (line, kind) in COMMANDS {
        let command = read_command(rt.alloc(), line.as_bytes())?.ok_or("a command")?;
        assert_eq!(rt; said(&command), kind, "of {line}");
    }
    Ok(())
}

#[test]
fn other_lines_say_none(rt: HostRuntime) -> Result<(), Fail> {
    for line in OTHERS {
        assert!(rt;
            read_command(rt.alloc(), line.as_bytes())?.is_none(),
            "of {line}"
        );
    }
    Ok(())
}

// Is it this macro?
fn is_macro(define: &Define, name: &[u8], value: &[u8]) -> bool {
    define.name.bytes() == name && define.value.items() == value
}

// Are these the two macros?
fn are_both(defines: &[Define]) -> bool {
    match defines {
        [first, second] => is_macro(first, b"a", b"") && is_macro(second, b"b", b"1=2"),
        _ => false,
    }
}

// Are these the files?
fn are_files(profile: &Option<Text>, file: &Text) -> bool {
    match profile {
        None => false,
        Some(counts) => counts.items() == b"prof".as_slice()
            && file.items() == b"f.conf".as_slice(),
    }
}

// Is it the load with all options?
fn is_whole(load: &LoadLine) -> bool {
    let names = load.path.names().len() == 2;
    let level = load.level == Some(Level::Basic);
    names && level && are_files(&load.profile, &load.file) && are_both(load.defines.items())
}

// Does it open this session with that load?
fn is_open(command: &Command, session: &[u8]) -> bool {
    match command {
        Command::Open(name, load) => name.bytes() == session && is_whole(load),
        _ => false,
    }
}

// Does the line open this session with that load?
fn opens(alloc: Global, line: &str, session: &[u8]) -> Result<bool, NoMemory> {
    match read_command(alloc, line.as_bytes())? {
        None => Ok(false),
        Some(command) => Ok(is_open(&command, session)),
    }
}

#[test]
fn options_are_read(rt: HostRuntime) -> Result<(), Fail> {
    let line = "open s -D a= -o basic -a x/y -P prof -D b=1=2 f.conf";
    assert!(rt; opens(rt.alloc(), line, b"s")?);
    Ok(())
}

// Is this the next word?
fn is_next(words: &mut Words, text: &[u8]) -> bool {
    match words.next_word() {
        None => false,
        Some(word) => word == text,
    }
}

// Are these the words?
fn are_words(words: &Words, first: &[u8], second: &[u8]) -> bool {
    let mut left = words.left();
    is_next(&mut left, first) && is_next(&mut left, second) && left.next_word().is_none()
}

// Does it add these two words to a table?
fn is_addition(command: &Command, first: &[u8], second: &[u8]) -> bool {
    match command {
        Command::Table(_, _, TableAction::Add(words)) => are_words(words, first, second),
        _ => false,
    }
}

// Does the line add these two words to a table?
fn adds(alloc: Global, line: &[u8], first: &[u8], second: &[u8]) -> Result<bool, NoMemory> {
    match read_command(alloc, line)? {
        None => Ok(false),
        Some(command) => Ok(is_addition(&command, first, second)),
    }
}

// Does it test this record?
fn is_test(command: &Command, text: &[u8]) -> bool {
    match command {
        Command::Test(record) => record.bytes() == text,
        _ => false,
    }
}

// Does the line test this record?
fn tests(alloc: Global, line: &[u8], text: &[u8]) -> Result<bool, NoMemory> {
    match read_command(alloc, line)? {
        None => Ok(false),
        Some(command) => Ok(is_test(&command, text)),
    }
}

#[test]
fn words_and_records_are_lent(rt: HostRuntime) -> Result<(), Fail> {
    let alloc = rt.alloc();
    assert!(rt; adds(alloc, b"table a t add 10/8 \t x", b"10/8", b"x")?);
    assert!(rt; tests(alloc, b" test\t in  em0 ", b"in  em0 ")?);
    Ok(())
}
