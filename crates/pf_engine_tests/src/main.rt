//! Executes scripts over files in memory, and writes each line with what it is told. What it has to write was worked
//! out by hand. It stands on pf_engine (a step for each line), pf_source (files in memory) and pf_addr (the text of
//! addresses). No crate stands on it.
//!
//! The input has blocks, each behind an `@` and with a title in its first line. A block begins with an empty machine,
//! and has files and then a script, whose lines are these:
//!
//! - `= NAME` begins a file. The lines behind it are its text, which has no newline at its end.
//! - `* N TEXT` in a file: TEXT stands N times right behind what stands so far; a `|` in it is a newline.
//! - `.. LOW HIGH` in a file: the IPv4 addresses from LOW to HIGH, a line each.
//! - `! N`: the Nth read of a file fails, from 1.
//! - `> LINE`: the line is executed.
#![tactic(auto)]

ghost use Rattle.std.specs.Prelude.{◌≤◌, ◌+◌};

use pf_addr::{Addr, parse_addr, put_addr};
use pf_base::text::{decimal, split_field, split_line};
use pf_base::{List, NoMemory, Text};
use pf_engine::Engine;
use pf_source::{HeldFile, MemoryFiles};
use std::alloc::Global;
use std::io::{self, BufRead, Write};
use std::process::ExitCode;

/// An engine, and how often it was asked to execute a line.
#[derive(Drop)]
struct Bench {
    engine: Engine,
    asked: u32,
    ghost draws_few: { engine.next ≤ 1 + asked },
}

/// What stands before a script.
#[derive(Drop)]
struct Given {
    files: Vec<HeldFile>,
    failing: Vec<u64>,
}

impl Bench {
    // Executes a line; what it is told is appended.
    fn execute(
        &mut self,
        alloc: Global,
        files: &mut MemoryFiles,
        line: &[u8],
        out: &mut Vec<u8>,
    ) -> Result<(), NoMemory> {
        let Some(asked) = self.asked.checked_add(1) else {
            return Err(NoMemory);
        };
        self.asked = asked;
        self.engine.step(alloc, files, line, out)?;
        Ok(())
    }
}

// Adds a text this many times, as `N TEXT` says.
fn add_repeated(alloc: Global, bytes: &mut Text, repeated: &[u8]) -> Result<(), NoMemory> {
    let (count, Some(text)) = split_field(repeated) else {
        return Ok(());
    };
    let Some(count) = decimal(count, u32::MAX) else {
        return Ok(());
    };
    let mut piece = Vec::from_slice(alloc, text)?;
    for byte in piece.iter_mut() {
        if *byte == b'|' {
            *byte = b'\n';
        }
    }
    let all = piece.as_slice().repeat(alloc, count as usize)?;
    bytes.append_copy(all.as_slice())
}

// Adds the addresses from the first to the last, as `LOW HIGH` says.
fn add_addresses(alloc: Global, bytes: &mut Text, ends: &[u8]) -> Result<(), NoMemory> {
    let (low, Some(high)) = split_field(ends) else {
        return Ok(());
    };
    let (Ok(Addr::V4(low)), Ok(Addr::V4(high))) = (parse_addr(low), parse_addr(high)) else {
        return Ok(());
    };
    let mut lines = Vec::new(alloc);
    for addr in low..=high {
        put_addr(&mut lines, &Addr::V4(addr))?;
        lines.push(b'\n')?;
    }
    bytes.append_copy(lines.as_slice())
}

// Adds a line to the text of a file.
fn add_text(alloc: Global, bytes: &mut Text, line: &[u8]) -> Result<(), NoMemory> {
    if let Some(repeated) = line.strip_prefix(b"* ") {
        return add_repeated(alloc, bytes, repeated);
    }
    if let Some(ends) = line.strip_prefix(b".. ") {
        return add_addresses(alloc, bytes, ends);
    }
    if !bytes.items().is_empty() {
        bytes.push(b'\n')?;
    }
    bytes.append_copy(line)
}

impl Given {
    fn add_line(&mut self, alloc: Global, line: &[u8]) -> Result<(), NoMemory> {
        if let Some(name) = line.strip_prefix(b"= ") {
            let name = List::of(Vec::from_slice(alloc, name)?);
            let bytes = List::new(alloc);
            self.files.push(HeldFile { name, bytes })?;
            return Ok(());
        }
        if let Some(number) = line.strip_prefix(b"! ") {
            let number = decimal(number, u32::MAX).unwrap_or(0);
            self.failing.push(u64::from(number))?;
            return Ok(());
        }
        let Some(mut file) = self.files.pop() else {
            return Ok(());
        };
        add_text(alloc, &mut file.bytes, line)?;
        self.files.push(file)?;
        Ok(())
    }
}

// The files before the script of a block.
fn files_of(alloc: Global, block: &[u8]) -> Result<MemoryFiles, NoMemory> {
    let mut given = Given {
        files: Vec::new(alloc),
        failing: Vec::new(alloc),
    };
    for line in block.split(|byte| *byte == b'\n') {
        if line.starts_with(b"> ") {
            break;
        }
        given.add_line(alloc, line)?;
    }
    Ok(MemoryFiles::new(alloc, given.files, given.failing))
}

// Writes a line and what it is told; where there is no memory for it, it is executed once more.
fn put_told(
    out: &mut Vec<u8>,
    alloc: Global,
    bench: &mut Bench,
    files: &mut MemoryFiles,
    line: &[u8],
) -> Result<(), NoMemory> {
    let Some(words) = line.strip_prefix(b"> ") else {
        return Ok(());
    };
    out.extend_from_slice(line)?;
    out.push(b'\n')?;
    if bench.execute(alloc, files, words, out).is_err() {
        bench.execute(alloc, files, words, out)?;
    }
    Ok(())
}

// Writes a block's title, and its lines with what they are told.
fn put_block(out: &mut Vec<u8>, alloc: Global, block: &[u8]) -> Result<(), NoMemory> {
    let Some((title, script)) = split_line(block) else {
        return Ok(());
    };
    out.push(b'@')?;
    out.extend_from_slice(title)?;
    out.push(b'\n')?;
    let mut files = files_of(alloc, script)?;
    let mut bench = Bench {
        engine: Engine::new(alloc),
        asked: 0,
    };
    for line in script.split(|byte| *byte == b'\n') {
        put_told(out, alloc, &mut bench, &mut files, line)?;
    }
    Ok(())
}

// What is written for the whole input; None where it can't be read.
fn transcripts(rt: &HostRuntime) -> Option<Vec<u8>> {
    let alloc = rt.alloc();
    let mut out = Vec::new(alloc);
    for block in rt.reader().split(alloc, b'@') {
        let Ok(block) = block else {
            return None;
        };
        if put_block(&mut out, alloc, &block).is_err() {
            return None;
        }
    }
    Some(out)
}

fn main(rt: HostRuntime) -> ExitCode {
    match transcripts(&rt) {
        Some(out) if io::writer(&rt).write_all(&out).is_ok() => ExitCode::SUCCESS,
        _ => ExitCode::FAILURE,
    }
}
