//! Loads the small files that its input gives, and writes what each load comes to. What it has to write was worked out by hand.
//! It stands on pf_load, and on the crates that print rules, tables, queues and faults. No crate stands on it.
//!
//! The input has blocks, each behind an `@`. `facts` and, behind its line, the facts of the host; `file`, a name and the text of a
//! file; `load`, a title, the path of a ruleset, the number of the read that fails (0: none), and the text of the file that is loaded.
#![tactic(auto)]

mod writing;

use pf_base::text::split_line;
use pf_base::{List, Name, NoMemory, Path, Text};
use pf_host::{Facts, read_facts};
use pf_lexer::Define;
use pf_load::{LoadOptions, load};
use pf_parts::put;
use pf_source::{HeldFile, MemoryFiles};
use std::alloc::Global;
use std::io::{self, BufRead, Write};
use std::process::ExitCode;
use writing::{put_failed, put_found};

/// What the blocks so far gave to loads.
#[derive(Drop)]
struct Given {
    facts: Facts,
    files: Vec<HeldFile>,
}

fn text_of(alloc: Global, bytes: &[u8]) -> Result<Text, NoMemory> {
    Ok(List::of(Vec::from_slice(alloc, bytes)?))
}

fn held(alloc: Global, name: &[u8], bytes: &[u8]) -> Result<HeldFile, NoMemory> {
    Ok(HeldFile {
        name: text_of(alloc, name)?,
        bytes: text_of(alloc, bytes)?,
    })
}

// The file `f` of this text, and copies of the others.
fn files_of(
    alloc: Global,
    others: &[HeldFile],
    text: &[u8],
    fail: u64,
) -> Result<MemoryFiles, NoMemory> {
    let mut content = Vec::new(alloc);
    content.push(held(alloc, b"f", text)?)?;
    for file in others {
        content.push(held(alloc, file.name.items(), file.bytes.items())?)?;
    }
    let mut failing = Vec::new(alloc);
    failing.push(fail)?;
    Ok(MemoryFiles::new(alloc, content, failing))
}

// Options in which the macro `given` stands for 17.
fn options_of(alloc: Global, path: Path) -> Result<LoadOptions, NoMemory> {
    let mut defines = List::new(alloc);
    if let Some(name) = Name::new(b"given") {
        let value = text_of(alloc, b"17")?;
        defines.push(Define { name, value })?;
    }
    Ok(LoadOptions {
        level: None,
        path,
        defines,
    })
}

// The first line, and what stands behind it.
fn next_line(text: &[u8]) -> (&[u8], &[u8]) {
    match split_line(text) {
        Some((line, behind)) => (line, behind),
        None => (text, &[]),
    }
}

// The number of a digit, else 0.
fn number_of(line: &[u8]) -> u64 {
    match line {
        [digit @ b'0'..=b'9'] => u64::from(*digit - b'0'),
        _ => 0,
    }
}

// Writes what the load of a text comes to.
fn take_text(
    out: &mut Vec<u8>,
    alloc: Global,
    given: &Given,
    path: Path,
    fail: u64,
    text: &[u8],
) -> Result<(), NoMemory> {
    let options = options_of(alloc, path)?;
    let file = text_of(alloc, b"f")?;
    let mut files = files_of(alloc, &given.files, text, fail)?;
    let found = load(alloc, &mut files, &given.facts, &options, &file);
    put_found(out, &found)?;
    put_failed(out, files.failed().len())
}

fn take_load(
    out: &mut Vec<u8>,
    alloc: Global,
    given: &Given,
    block: &[u8],
) -> Result<(), NoMemory> {
    let (title, behind) = next_line(block);
    let (path, behind) = next_line(behind);
    let (fail, text) = next_line(behind);
    put(out, b"@")?;
    put(out, title)?;
    put(out, b"\n")?;
    match Path::parse(path) {
        Ok(path) => take_text(out, alloc, given, path, number_of(fail), text),
        Err(_) => put(out, b"no path\n"),
    }
}

fn take_block(
    out: &mut Vec<u8>,
    alloc: Global,
    given: &mut Given,
    block: &[u8],
) -> Result<(), NoMemory> {
    let (kind, rest) = next_line(block);
    if kind == b"load".as_slice() {
        return take_load(out, alloc, given, rest);
    }
    if kind == b"file".as_slice() {
        let (name, text) = next_line(rest);
        given.files.push(held(alloc, name, text)?)?;
    }
    if kind == b"facts".as_slice()
        && let Ok(facts) = read_facts(alloc, rest)
    {
        given.facts = facts;
    }
    Ok(())
}

// What is written for the whole input; None where it can't be read.
fn answers(rt: &HostRuntime) -> Option<Vec<u8>> {
    let alloc = rt.alloc();
    let mut out = Vec::new(alloc);
    let mut given = Given {
        facts: Facts::none(alloc),
        files: Vec::new(alloc),
    };
    for block in rt.reader().split(alloc, b'@') {
        let Ok(block) = block else {
            return None;
        };
        if take_block(&mut out, alloc, &mut given, &block).is_err() {
            return None;
        }
    }
    Some(out)
}

fn main(rt: HostRuntime) -> ExitCode {
    match answers(&rt) {
        Some(out) if io::writer(&rt).write_all(&out).is_ok() => ExitCode::SUCCESS,
        _ => ExitCode::FAILURE,
    }
}
