//! Runs of the program over objects in memory. The expected replies were worked out by hand.
use super::program::{Status, run, run_surely};
use pf_base::{List, Text};
use pf_source::{
    Failed, FailedWrite, HeldFile, MemoryFiles, MemorySink, MemorySource, Source, SureFiles,
    SureSink, SureSource,
};
use std::alloc::{AllocError, Global};
use std::process::Abort;
use std::test::Fail;

const CONF: &str = "block\npass in quick proto 17\nblock in\n";

fn text(alloc: Global, bytes: &str) -> Result<Text, AllocError> {
    Ok(List::of(Vec::from_slice(alloc, bytes.as_bytes())?))
}

fn words(alloc: Global, given: &[&str]) -> Result<Vec<String>, AllocError> {
    let mut words = Vec::new(alloc);
    for word in given {
        words.push(String::from_str(alloc, word)?)?;
    }
    Ok(words)
}

fn held(alloc: Global, name: &str, bytes: &str) -> Result<Vec<HeldFile>, AllocError> {
    let mut files = Vec::new(alloc);
    files.push(HeldFile {
        name: text(alloc, name)?,
        bytes: text(alloc, bytes)?,
    })?;
    Ok(files)
}

// What `x.inc` holds beside `f.conf`: its second line has a string without an end.
const INCLUDED: &str = "pass\npass label \"abc";

// The facts of a host with one interface.
const FACTS: &str = "interface em0 egress\naddress em0 192.0.2.10/24\n";

// A run of these words over sure objects: the files, the input, the output and the status.
fn check_over(
    rt: &impl Abort,
    alloc: Global,
    given: &[&str],
    content: Vec<HeldFile>,
    input: &str,
    want: &str,
    status: Status,
) -> Result<(), AllocError> {
    let words = words(alloc, given)?;
    let mut files = SureFiles::new(content);
    let mut source = SureSource::new(text(alloc, input)?);
    let mut sink = SureSink::new(alloc);
    let got = run_surely(alloc, words.as_slice(), &mut files, &mut source, &mut sink);
    assert_eq!(rt; sink.written(), want.as_bytes(), "{input} {want}");
    assert_eq!(rt; got, status, "{input} {want}");
    Ok(())
}

// Such a run over the file `f.conf` and three others.
fn check(
    rt: &impl Abort,
    alloc: Global,
    given: &[&str],
    conf: &str,
    input: &str,
    want: &str,
    status: Status,
) -> Result<(), AllocError> {
    let mut content = held(alloc, "f.conf", conf)?;
    for (name, bytes) in [
        ("x.inc", INCLUDED),
        ("facts", FACTS),
        ("profile", "/ 1 5\n"),
    ] {
        content.push(HeldFile {
            name: text(alloc, name)?,
            bytes: text(alloc, bytes)?,
        })?;
    }
    check_over(rt, alloc, given, content, input, want, status)
}

// The words of a load of `f.conf`.
const LOAD: &[&str] = &["-f", "f.conf"];

// `front`, so many times `piece`, and `behind`.
fn repeated_text(
    alloc: Global,
    front: &str,
    piece: &str,
    count: usize,
    behind: &str,
) -> Result<String, AllocError> {
    let mut text = String::from_str(alloc, front)?;
    for _ in 0..count {
        text.push_str(piece)?;
    }
    text.push_str(behind)?;
    Ok(text)
}

#[test]
fn answers(rt: HostRuntime) -> Result<(), Fail> {
    let alloc = rt.alloc();
    let rows = [
        // The last matching rule decides, and quick ends the walk.
        (
            CONF,
            "in em0 17 10.0.0.1 192.0.2.10 sport=1024 dport=53\nout em0 17 10.0.0.1 192.0.2.10 sport=1024 dport=53\nup em0 17\n",
            "ok load rulesets=1 rules=3 tables=0\npass keep state\nblock drop\nrefused 11 BadPacket direction\n",
            Status::Refused,
        ),
        (
            "",
            "in em0 udp 10.0.0.1 192.0.2.10 sport=1024 dport=53",
            "ok load rulesets=1 rules=0 tables=0\npass no state\n",
            Status::Done,
        ),
        (
            "",
            "in em0 tcp 10.0.0.1 10.0.0.2 sport=1\n",
            "ok load rulesets=1 rules=0 tables=0\nrefused 11 BadPacket dport\n",
            Status::Refused,
        ),
        // The first fault is told with its file, and the records are answered by the empty machine.
        (
            "include \"x.inc\"\n",
            "in em0 udp 10.0.0.1 192.0.2.10 sport=1024 dport=53\n",
            "refused 2 LoadFault Unterminated x.inc:2\npass no state\n",
            Status::Refused,
        ),
        (
            "include \"f.conf\"\n",
            "",
            "refused 2 LoadFault IncludeDepth f.conf:1\n",
            Status::Refused,
        ),
        (
            "pass proto $nope\n",
            "",
            "refused 2 LoadFault MacroUndefined(nope) f.conf:1\n",
            Status::Refused,
        ),
        (
            "pass\npass sideways\n",
            "in em0 17 10.0.0.1 192.0.2.10 sport=1024 dport=53\n",
            "refused 2 LoadFault Syntax f.conf:2\npass no state\n",
            Status::Refused,
        ),
        // Empty lines and lines that begin with # have no reply, and what follows them is read.
        (
            "block",
            "\n# in em0\nin em0 tcp 10.0.0.1 192.0.2.10 sport=1024 dport=80\n\nout em0 47 fe80::1 fe80::2",
            "ok load rulesets=1 rules=1 tables=0\nblock drop\nblock drop\n",
            Status::Done,
        ),
        // A line that is no command, and a record's first fault.
        (
            "block",
            " \n\t\nin em0 47 10.0.0.1 192.0.2.10\r\n",
            "ok load rulesets=1 rules=1 tables=0\nrefused 1 BadCommand\nrefused 1 BadCommand\nrefused 1 BadCommand\n",
            Status::Refused,
        ),
        (
            "block",
            "up em0 47 10.0.0.1 192.0.2.10\nin\n in em0\nout em0 256\n",
            "ok load rulesets=1 rules=1 tables=0\nrefused 11 BadPacket direction\nrefused 11 BadPacket interface\nrefused 11 BadPacket protocol\nrefused 11 BadPacket protocol\n",
            Status::Refused,
        ),
        (
            "block",
            "in em0 47 10.0.0.1 fe80::1\nin em0 17 10.0.0.1 192.0.2.10 dport=53\nin em0 47 10.0.0.1 192.0.2.10 x=1\n",
            "ok load rulesets=1 rules=1 tables=0\nrefused 11 BadPacket destination\nrefused 11 BadPacket sport\nrefused 11 BadPacket extra\n",
            Status::Refused,
        ),
    ];
    for (conf, input, want, status) in rows {
        check(&rt, alloc, LOAD, conf, input, want, status)?;
    }
    Ok(())
}

#[test]
fn definitions(rt: HostRuntime) -> Result<(), Fail> {
    let alloc = rt.alloc();
    let conf = "p = 17\nblock\npass proto $p\n";
    let input = "in em0 17 10.0.0.1 192.0.2.10 sport=1024 dport=53\n";
    let loaded = "ok load rulesets=1 rules=2 tables=0\npass keep state\n";
    let blocked = "ok load rulesets=1 rules=2 tables=0\nblock drop\n";
    let no_command = "refused 1 BadCommand\npass no state\n";
    let rows: [(&[&str], &str, Status); 8] = [
        (&["-f", "f.conf"], loaded, Status::Done),
        // What is given holds, whatever the file defines.
        (&["-f", "f.conf", "-D", "p=6"], blocked, Status::Done),
        (&["-D", "p=6", "-f", "f.conf"], blocked, Status::Done),
        (&["-D", "q=6", "-f", "f.conf"], loaded, Status::Done),
        (
            &["-D", "p=", "-f", "f.conf"],
            "refused 2 LoadFault Syntax f.conf:3\npass no state\n",
            Status::Refused,
        ),
        (&["-D", "p", "-f", "f.conf"], no_command, Status::Refused),
        (&["-D", "=6", "-f", "f.conf"], no_command, Status::Refused),
        (
            &["-D", "p-q=6", "-f", "f.conf"],
            no_command,
            Status::Refused,
        ),
    ];
    for (given, want, status) in rows {
        check(&rt, alloc, given, conf, input, want, status)?;
    }
    Ok(())
}

// A macro's value has at most 8,192 bytes.
#[test]
fn long_definitions(rt: HostRuntime) -> Result<(), Fail> {
    let alloc = rt.alloc();
    let rows = [
        (8_192, "ok load rulesets=1 rules=1 tables=0\n", Status::Done),
        (8_193, "refused 1 BadCommand\n", Status::Refused),
    ];
    for (count, want, status) in rows {
        let word = repeated_text(alloc, "p=", "x", count, "")?;
        let given = ["-D", word.as_str(), "-f", "f.conf"];
        check(&rt, alloc, &given, "block\n", "", want, status)?;
    }
    Ok(())
}

// A record of the first rows: UDP from 10.0.0.1 to 192.0.2.10.
const UDP: &str = "in em0 udp 10.0.0.1 192.0.2.10 sport=1024 dport=53\n";

// The options of a load, beside a file of rules that asks for the host's addresses.
#[test]
fn options(rt: HostRuntime) -> Result<(), Fail> {
    let alloc = rt.alloc();
    let conf = "block\npass to (egress)\n";
    let rows: [(&[&str], &str, Status); 6] = [
        // The facts are known to the load and to the records.
        (
            &["-f", "f.conf", "-H", "facts"],
            "ok hosts 1\nok load rulesets=1 rules=2 tables=0\npass keep state\n",
            Status::Done,
        ),
        (
            &["-f", "f.conf", "-o", "none", "-P", "profile"],
            "ok load rulesets=1 rules=2 tables=0\nblock drop\n",
            Status::Done,
        ),
        // The main ruleset stays empty.
        (
            &["-ax", "-f", "f.conf"],
            "ok load rulesets=1 rules=2 tables=0\npass no state\n",
            Status::Done,
        ),
        (
            &["-P", "facts", "-f", "f.conf"],
            "refused 14 ProfileFault 1\npass no state\n",
            Status::Refused,
        ),
        // Words that are read, and a line that is no command.
        (
            &["-o", "bad", "-f", "f.conf"],
            "refused 1 BadCommand\npass no state\n",
            Status::Refused,
        ),
        (
            &["-f-x"],
            "refused 1 BadCommand\npass no state\n",
            Status::Refused,
        ),
    ];
    for (given, want, status) in rows {
        check(&rt, alloc, given, conf, UDP, want, status)?;
    }
    Ok(())
}

// Script lines: two sessions over one ruleset, of which the one that began first has lost its ticket.
#[test]
fn scripts(rt: HostRuntime) -> Result<(), Fail> {
    let script =
        "open s1 f.conf\n# s2 begins later\n\nopen s2 f.conf\nopen s1 f.conf\ntest in em0 udp 10.0.0.1 192.0.2.10 sport=1024 dport=53\ncommit s1\ncommit s2\ncommit s1\nshow written /\ntable / t show\nreload f.conf\ntest in em0 udp 10.0.0.1 192.0.2.10 sport=1024 dport=53";
    let want =
        "ok open s1 ticket=1\nok open s2 ticket=2\nrefused 5 SessionOpen s1\npass no state\nrefused 4 Stale / 1 2\nok commit s2\nrefused 6 NoSession s1\nok written 1\nblock drop from <t> to any tag b\nok table 1\n10.0.0.0/8\nrefused 1 BadCommand\nblock drop tag b\n";
    check(
        &rt,
        rt.alloc(),
        &["-S"],
        "table <t> { 10/8 }\nblock from <t> tag b\n",
        script,
        want,
        Status::Refused,
    )?;
    Ok(())
}

// A generated run, of which one record meets a rule that lets it pass; nothing is read.
#[test]
fn a_generated_run(rt: HostRuntime) -> Result<(), Fail> {
    check(
        &rt,
        rt.alloc(),
        &["-g", "135"],
        "x",
        "load f.conf\n",
        "gen 135 rules=2001 pass=1 block=4999\n",
        Status::Done,
    )?;
    Ok(())
}

#[test]
fn other_words(rt: HostRuntime) -> Result<(), Fail> {
    let alloc = rt.alloc();
    let rows: [&[&str]; 14] = [
        &[],
        &["-f"],
        &["f.conf"],
        &["-f", ""],
        &["-f", "-x"],
        &["-f", "f g"],
        &["-f", "f.conf", "x"],
        &["-g", "01"],
        &["-D", "p=1"],
        &["-f", "f.conf", "-S"],
        &["-S", "-o", "none"],
        &["-f", "f.conf", "-D", "p q"],
        &["-f", "f.conf", "-f", "f.conf"],
        &["-D", "p=1", "-D", "q=1", "-f", "f.conf"],
    ];
    for row in rows {
        let words = words(alloc, row)?;
        let mut files = SureFiles::new(Vec::new(alloc));
        let mut source = SureSource::new(text(alloc, "in em0 47 10.0.0.1 192.0.2.10\n")?);
        let mut sink = SureSink::new(alloc);
        let got = run(alloc, words.as_slice(), &mut files, &mut source, &mut sink);
        assert_eq!(rt; got, Status::Words);
        assert!(rt; sink.written().is_empty());
    }
    Ok(())
}

const NEVER: FailedWrite = FailedWrite { call: 0, taken: 0 };

// What is written, and the status, where this read of a file, read of the input and write fail.
fn check_failing(
    rt: &impl Abort,
    alloc: Global,
    name: &str,
    (fail_file, fail_read, fail_write): (u64, u64, FailedWrite),
    want: &str,
    status: Status,
) -> Result<(), AllocError> {
    let words = words(alloc, LOAD)?;
    let mut files = MemoryFiles::new(alloc, held(alloc, name, CONF)?, vec![in alloc; fail_file]?);
    let mut source = MemorySource::new(text(alloc, UDP)?, vec![in alloc; fail_read]?);
    let mut sink = MemorySink::new(alloc, vec![in alloc; fail_write]?);
    let got = run(alloc, words.as_slice(), &mut files, &mut source, &mut sink);
    assert_eq!(rt; got, status, "{name} {fail_file} {fail_read}");
    assert_eq!(rt;
        sink.written(),
        want.as_bytes(),
        "{name} {fail_file} {fail_read}"
    );
    Ok(())
}

// An absent file, a held one whose read fails, a read of the input that fails behind a line, and writes that fail.
#[test]
fn failing_calls(rt: HostRuntime) -> Result<(), Fail> {
    let alloc = rt.alloc();
    let all = "ok load rulesets=1 rules=3 tables=0\npass keep state\n";
    let absent = "refused 3 CannotRead f.conf\npass no state\n";
    let none = FailedWrite { call: 1, taken: 0 };
    let whole = FailedWrite { call: 2, taken: 99 };
    for (name, fails, want, status) in [
        ("f.conf", (0, 0, NEVER), all, Status::Done),
        ("gone", (0, 0, NEVER), absent, Status::Refused),
        ("f.conf", (1, 0, NEVER), absent, Status::Refused),
        ("f.conf", (0, 2, NEVER), all, Status::ReadFault),
        ("f.conf", (0, 0, none), "", Status::WriteFault),
        ("f.conf", (0, 0, whole), all, Status::WriteFault),
    ] {
        check_failing(&rt, alloc, name, fails, want, status)?;
    }
    Ok(())
}

// A run over an empty file and an input that is this byte so many times.
fn repeated(alloc: Global, byte: u8, count: usize) -> Result<Status, AllocError> {
    let words = words(alloc, LOAD)?;
    let mut files = SureFiles::new(Vec::new(alloc));
    let mut source = SureSource::new(List::of(vec![in alloc; byte; count]?));
    let mut sink = SureSink::new(alloc);
    Ok(run(alloc, words.as_slice(), &mut files, &mut source, &mut sink))
}

#[test]
fn much_input(rt: HostRuntime) -> Result<(), Fail> {
    assert_eq!(rt; repeated(rt.alloc(), b'#', 67_108_864)?, Status::Done);
    assert_eq!(rt;
        repeated(rt.alloc(), b'\n', 67_108_865)?,
        Status::TooMuchInput
    );
    Ok(())
}

// An anchor whose body has one rule.
const BODY: &str = "anchor {\npass\n}\n";

// What a file may hold at most, and how many rulesets there may be.
#[test]
fn loads_at_limits(rt: HostRuntime) -> Result<(), Fail> {
    let alloc = rt.alloc();
    let nothing = "ok load rulesets=1 rules=0 tables=0\n";
    let table = "ok load rulesets=1 rules=0 tables=1\n";
    let full = "ok load rulesets=4096 rules=8190 tables=0\n";
    for (front, piece, count, behind, want) in [
        ("#", "a", 4_194_303, "", nothing),
        ("m = \"", "a", 8_192, "\"\n", nothing),
        ("", "m", 63, " = 1\n", nothing),
        ("table <", "t", 31, "> persist\n", table),
        ("#", "\0", 1, "\n", nothing),
        ("", BODY, 4_095, "", full),
    ] {
        let conf = repeated_text(alloc, front, piece, count, behind)?;
        check(&rt, alloc, LOAD, &conf, "", want, Status::Done)?;
    }
    Ok(())
}

// One more than each of these limits, names in one another past the eighth, and a byte that stands in no statement.
#[test]
fn loads_past_limits(rt: HostRuntime) -> Result<(), Fail> {
    let alloc = rt.alloc();
    let large = "2 LoadFault TooLarge f.conf:1";
    let deep = "2 LoadFault AnchorName f.conf:9";
    let table = "2 LoadFault TableName f.conf:1";
    for (front, piece, count, behind, fault) in [
        ("#", "a", 4_194_304, "", "2 LoadFault TooLarge f.conf:0"),
        ("m = \"", "a", 8_193, "\"\n", large),
        ("pass proto {", " 17", 19_996, " }\n", large),
        ("", "anchor \"a\" {\n", 9, "", deep),
        ("", "m", 64, " = 1\n", "2 LoadFault MacroName f.conf:1"),
        ("table <", "t", 32, "> persist\n", table),
        ("", "\0", 1, "\n", "2 LoadFault BadByte f.conf:1"),
        ("", BODY, 4_096, "", "12 TreeFull rulesets 4097"),
    ] {
        let conf = repeated_text(alloc, front, piece, count, behind)?;
        let want = repeated_text(alloc, "refused ", fault, 1, "\n")?;
        check(&rt, alloc, LOAD, &conf, "", &want, Status::Refused)?;
    }
    Ok(())
}

// Script lines past a limit: a name of 64 letters, 33 macros given, and one rule more than 131,072.
#[test]
fn limits_of_lines(rt: HostRuntime) -> Result<(), Fail> {
    let alloc = rt.alloc();
    let ports = repeated_text(alloc, " port {", " 1", 128, " }")?;
    let mut conf = repeated_text(alloc, "pass proto tcp from", &ports, 1, " to")?;
    conf.push_str(&ports)?;
    let mut given = String::from_str(alloc, "load")?;
    for letters in 1..34 {
        given.push_str(&repeated_text(alloc, " -D ", "m", letters, "=1")?)?;
    }
    given.push_str(" f.conf\n")?;
    let mut loads = String::from_str(alloc, "")?;
    for name in ["a", "b", "c", "d", "e", "f", "g", "h"] {
        loads.push_str(&repeated_text(alloc, "load -o none -a ", name, 1, " f.conf\n")?)?;
    }
    loads.push_str("load x\n")?;
    let loaded = "ok load rulesets=1 rules=16384 tables=0\n";
    let full = repeated_text(alloc, "", loaded, 8, "refused 12 TreeFull rules 131073\n")?;
    let name = repeated_text(alloc, "show written ", "a", 64, "\n")?;
    for (script, want) in [
        (&name, "refused 1 BadCommand\n"),
        (&given, "refused 1 BadCommand\n"),
        (&loads, full.as_str()),
    ] {
        let mut content = held(alloc, "f.conf", &conf)?;
        content.extend(held(alloc, "x", "pass\n")?)?;
        check_over(&rt, alloc, &["-S"], content, script, want, Status::Refused)?;
    }
    Ok(())
}

// Files that include one another in a chain; the last stands in so many includes.
fn chained(alloc: Global, count: usize) -> Result<Vec<HeldFile>, AllocError> {
    let mut content = held(alloc, "f.conf", "include \"x\"\n")?;
    for letters in 1..count {
        let name = repeated_text(alloc, "", "x", letters, "")?;
        let line = repeated_text(alloc, "include \"x", "x", letters, "\"\n")?;
        content.extend(held(alloc, &name, &line)?)?;
    }
    let last = repeated_text(alloc, "", "x", count, "")?;
    content.extend(held(alloc, &last, "pass\n")?)?;
    Ok(content)
}

// A file in 16 includes is read, and one in 17 isn't; four readings of the longest file are past the bytes of a load.
#[test]
fn limits_of_includes(rt: HostRuntime) -> Result<(), Fail> {
    let alloc = rt.alloc();
    let loaded = "ok load rulesets=1 rules=1 tables=0\n";
    let deep = "refused 2 LoadFault IncludeDepth xxxxxxxxxxxxxxxx:1\n";
    let large = "refused 2 LoadFault TooLarge a.inc:0\n";
    let long = repeated_text(alloc, "#", "a", 4_194_303, "")?;
    let four = repeated_text(alloc, "", "include \"a.inc\"\n", 4, "")?;
    let mut included = held(alloc, "f.conf", &four)?;
    included.extend(held(alloc, "a.inc", &long)?)?;
    for (content, want, status) in [
        (chained(alloc, 16)?, loaded, Status::Done),
        (chained(alloc, 17)?, deep, Status::Refused),
        (included, large, Status::Refused),
    ] {
        check_over(&rt, alloc, LOAD, content, "", want, status)?;
    }
    Ok(())
}

// A source that gives a few bytes at a time, and counts its reads.
#[derive(Drop)]
struct Dribble {
    inner: MemorySource,
    most: usize,
    reads: u64,
}

impl Source for Dribble {
    ghost tells = { λ source. ⟦<MemorySource as Source>⟧.tells source.inner };

    fn read(&mut self, buf: &mut [u8]) -> Result<usize, Failed> {
        self.reads = self.reads.saturating_add(1);
        let most = self.most.max(1).min(buf.len());
        self.inner.read(&mut buf[..most])
    }
}

// The replies to four records of one byte each, of which the last has no newline, and to the load before them.
const REPLIES: [&str; 5] = [
    "ok load rulesets=1 rules=3 tables=0\n",
    "refused 11 BadPacket direction\n",
    "refused 11 BadPacket direction\n",
    "refused 11 BadPacket direction\n",
    "refused 11 BadPacket direction\n",
];

// What that run writes, its status and the number of its reads, where each read gives at most so many bytes, and one
// read and one write fail.
fn write_of(
    alloc: Global,
    most: usize,
    fail_read: u64,
    fail_write: FailedWrite,
) -> Result<(Vec<u8>, Status, u64), AllocError> {
    let words = words(alloc, LOAD)?;
    let mut files = SureFiles::new(held(alloc, "f.conf", CONF)?);
    let mut source = Dribble {
        inner: MemorySource::new(text(alloc, "x\ny\nz\nw")?, vec![in alloc; fail_read]?),
        most,
        reads: 0,
    };
    let mut sink = MemorySink::new(alloc, vec![in alloc; fail_write]?);
    let status = run(alloc, words.as_slice(), &mut files, &mut source, &mut sink);
    Ok((
        Vec::from_slice(alloc, sink.written())?,
        status,
        source.reads,
    ))
}

// The first replies, and so many bytes of the next one at most.
fn front(alloc: Global, whole: usize, taken: usize) -> Result<Vec<u8>, AllocError> {
    let mut front = Vec::new(alloc);
    for (i, reply) in REPLIES.iter().enumerate() {
        let bytes = reply.as_bytes();
        if i < whole {
            front.extend_from_slice(bytes)?;
        } else if i == whole {
            front.extend_from_slice(&bytes[..taken.min(bytes.len())])?;
        }
    }
    Ok(front)
}

// Each read fails in turn, and is the last one: what is written is the output of the lines that were whole before.
#[test]
fn each_read_fails(rt: HostRuntime) -> Result<(), Fail> {
    let alloc = rt.alloc();
    for (read, reads, replies, status) in [
        (0u64, 8u64, 5usize, Status::Refused),
        (1, 1, 1, Status::ReadFault),
        (2, 2, 1, Status::ReadFault),
        (3, 3, 2, Status::ReadFault),
        (4, 4, 2, Status::ReadFault),
        (5, 5, 3, Status::ReadFault),
        (6, 6, 3, Status::ReadFault),
        (7, 7, 4, Status::ReadFault),
        (8, 8, 4, Status::ReadFault),
    ] {
        let (written, got, made) = write_of(alloc, 1, read, NEVER)?;
        assert_eq!(rt; got, status, "{read}");
        assert_eq!(rt; made, reads, "{read}");
        let wanted = front(alloc, replies, 0)?;
        assert_eq!(rt; written.as_slice(), wanted.as_slice(), "{read}");
    }
    Ok(())
}

// Each write fails in turn, and takes some bytes: the replies before stand whole, and nothing is read after it. The
// reads give one byte, or four, and so two whole lines and then one and a half.
#[test]
fn each_write_fails(rt: HostRuntime) -> Result<(), Fail> {
    let alloc = rt.alloc();
    for (before, singly, by_four) in [
        (0usize, 0u64, 0u64),
        (1, 2, 1),
        (2, 4, 1),
        (3, 6, 2),
        (4, 8, 3),
    ] {
        for (most, reads) in [(1usize, singly), (4, by_four)] {
            for taken in [0usize, 3, 99] {
                let fail = FailedWrite {
                    call: before as u64 + 1,
                    taken: taken as u64,
                };
                let (written, status, made) = write_of(alloc, most, 0, fail)?;
                assert_eq!(rt; status, Status::WriteFault, "{before} {taken}");
                assert_eq!(rt; made, reads, "{before} {taken}");
                let wanted = front(alloc, before, taken)?;
                assert_eq!(rt; written.as_slice(), wanted.as_slice(), "{before} {taken}");
            }
        }
    }
    Ok(())
}

// A first load whose read fails, and a second over the same files that is read.
#[test]
fn a_file_that_comes_back(rt: HostRuntime) -> Result<(), Fail> {
    let alloc = rt.alloc();
    let words = words(alloc, &["-S"])?;
    let mut files = MemoryFiles::new(alloc, held(alloc, "f.conf", "pass\n")?, vec![in alloc; 1]?);
    let mut source = SureSource::new(text(alloc, "load f.conf\nload f.conf\n")?);
    let mut sink = SureSink::new(alloc);
    let got = run(alloc, words.as_slice(), &mut files, &mut source, &mut sink);
    assert_eq!(rt; got, Status::Refused);
    assert_eq!(rt;
        sink.written(),
        b"refused 3 CannotRead f.conf\nok load rulesets=1 rules=1 tables=0\n".as_slice()
    );
    assert_eq!(rt; files.failed().len(), 1);
    Ok(())
}

// An included file is read in the third call, which fails or doesn't.
#[test]
fn an_include_that_fails(rt: HostRuntime) -> Result<(), Fail> {
    let alloc = rt.alloc();
    for (fail, want, status) in [
        (0, "ok load rulesets=1 rules=3 tables=0\n", Status::Done),
        (3, "refused 3 CannotRead b.conf\n", Status::Refused),
    ] {
        let words = words(alloc, LOAD)?;
        let mut content = held(
            alloc,
            "f.conf",
            "block\ninclude \"a.conf\"\ninclude \"b.conf\"\n",
        )?;
        for name in ["a.conf", "b.conf"] {
            content.push(HeldFile {
                name: text(alloc, name)?,
                bytes: text(alloc, "pass in\n")?,
            })?;
        }
        let mut files = MemoryFiles::new(alloc, content, vec![in alloc; fail]?);
        let mut source = SureSource::new(text(alloc, "")?);
        let mut sink = SureSink::new(alloc);
        let got = run(alloc, words.as_slice(), &mut files, &mut source, &mut sink);
        assert_eq!(rt; got, status);
        assert_eq!(rt; sink.written(), want.as_bytes());
    }
    Ok(())
}
