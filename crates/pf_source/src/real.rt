//! The real files, input and output. They count their faults. Of content the output tells what its writer tells, which
//! for the standard output is nothing; the others tell none.
ghost use Rattle.std.specs.Prelude.{◌≡◌, ◌≤◌, ◌<◌, ◌+◌, ◌^◌, None, false, length, IfOk, IfErr, OnOk, SomeIff};
ghost use Rattle.std.specs.Io.KnownBytes.{Consumes, IsAtEnd};
ghost use Rattle.pf_source.specs.Causes.{Rose};
ghost use Rattle.pf_source.specs.Real.{IfLarger, WritesWhole};
ghost use Rattle.pf_source.specs.Streams.{no_read};

use crate::fault::{Failed, FilesFault, SinkFault};
use crate::files::Files;
use crate::sink::Sink;
use crate::source::{LastRead, Source};
use pf_base::{List, Text};
use std::alloc::Global;
use std::io::{Read, Write};
use std::{fs, rt, str};

/// How many bytes are asked of a file at a time.
const CHUNK: usize = 65_536;

/// The files that the runtime reaches.
#[derive(Drop)]
pub struct RealFiles<R> {
    rt: R,
    faults: u64,
}

impl<R: rt::Files> RealFiles<R> {
    /// No read was made.
    pub fn new(rt: R) -> RealFiles<R>
        ensures { ⟦<RealFiles<R> as Files>⟧.tells result ≡ record { held = None; steady = false; faults = 0; failed = None } }
    {
        RealFiles { rt, faults: 0 }
    }

    // One fault more, and the fault to answer.
    fn fail(&mut self) -> FilesFault
        ensures fault { result ≡ FilesFault.Failed }
        ensures faults { Rose self.old.faults self.new.faults }
    {
        self.faults = self.faults.saturating_add(1);
        FilesFault::Failed
    }
}

/// Why a real file wasn't read.
#[derive(Clone, Copy)]
enum Unread {
    Failed,
    TooLarge,
    NoMemory,
}

// The rest of an open file, at most `limit` bytes.
fn read_rest<F: Read>(alloc: Global, file: &mut F, limit: u64) -> Result<Vec<u8>, Unread>
    ensures within { IfOk result (λ bytes. length bytes.items ≤ limit) }
    ensures bytes { IfOk result (λ bytes. Consumes (F.remaining file.old) (F.remaining file.new) bytes.items) }
    ensures end { OnOk result (IsAtEnd (F.remaining file.new)) }
    ensures too_large { IfErr result (λ fault. IfLarger (F.remaining file.old) limit fault) }
{
    let mut chunk = [0u8; CHUNK];
    let mut bytes = Vec::new(alloc);
    for _ in 0..u64::MAX {
        let Ok(count) = file.read(&mut chunk) else {
            return Err(Unread::Failed);
        };
        if count == 0 {
            return Ok(bytes);
        }
        if bytes.len() as u64 + count as u64 > limit {
            return Err(Unread::TooLarge);
        }
        if bytes.extend_from_slice(&chunk[..count]).is_err() {
            return Err(Unread::NoMemory);
        }
    }
    Err(Unread::Failed)
}

// A real file of this name, whole.
fn read_named<R: rt::Files>(
    rt: &R,
    alloc: Global,
    name: &[u8],
    limit: u64,
) -> Result<Vec<u8>, Unread>
    ensures { IfOk result (λ bytes. length bytes.items ≤ limit) }
{
    let Ok(path) = str::from_utf8(name) else {
        return Err(Unread::Failed);
    };
    match fs::open(rt, path) {
        Ok(mut file) => read_rest(alloc, &mut file, limit),
        Err(_) => Err(Unread::Failed),
    }
}

impl<R: rt::Files> Files for RealFiles<R> {
    ghost tells = { λ files. record { held = None; steady = false; faults = files.faults; failed = None } };

    fn read(&mut self, alloc: Global, name: &Text, limit: u64) -> Result<Text, FilesFault> {
        match read_named(&self.rt, alloc, name.items(), limit) {
            Ok(bytes) => Ok(List::of(bytes)),
            Err(Unread::TooLarge) if limit < u64::MAX => Err(FilesFault::TooLarge {
                seen: limit + 1,
            }),
            Err(Unread::NoMemory) => Err(FilesFault::NoMemory),
            Err(_) => Err(self.fail()),
        }
    }
}

/// The real input.
#[derive(Drop)]
pub struct RealSource<R> {
    input: R,
    given: u64,
    faults: u64,
    last: LastRead,
}

impl<R: Read> RealSource<R> {
    /// No read was made.
    pub fn new(input: R) -> RealSource<R>
        ensures { ⟦<RealSource<R> as Source>⟧.tells result ≡ record { left = None; given = 0; faults = 0; last = no_read } }
    {
        RealSource {
            input,
            given: 0,
            faults: 0,
            last: LastRead::none(),
        }
    }

    // How many bytes were given with these too; None past the greatest number.
    fn given_with(&self, count: usize) -> Option<u64>
        ensures { SomeIff result (self.now.given + count < 2 ^ 64) (self.now.given + count) }
    {
        self.given.checked_add(count as u64)
    }
}

impl<R: Read> Source for RealSource<R> {
    ghost tells = { λ source. record { left = None; given = source.given; faults = source.faults; last = source.last } };

    /// A read that would give more than 2^64 - 1 bytes in all fails too.
    fn read(&mut self, buf: &mut [u8]) -> Result<usize, Failed> {
        if let Ok(count) = self.input.read(buf)
            && let Some(given) = self.given_with(count)
        {
            self.given = given;
            self.last = self.last.after(count);
            return Ok(count);
        }
        self.faults = self.faults.saturating_add(1);
        self.last = self.last.after(0);
        Err(Failed)
    }
}

/// The real output.
#[derive(Drop)]
pub struct RealSink<W> {
    output: W,
    calls: u64,
    faults: u64,
}

impl<W: Write> RealSink<W> {
    /// No write was made: what stands written is what the writer holds.
    pub fn new(output: W) -> RealSink<W>
        ensures { ⟦<RealSink<W> as Sink>⟧.tells result ≡ record { written = W.contents output; calls = 0; faults = 0 } }
    {
        RealSink {
            output,
            calls: 0,
            faults: 0,
        }
    }
}

// Writes the whole piece. A write that takes nothing of it, or fails, ends it.
fn write_whole<W: Write>(output: &mut W, piece: &[u8]) -> Result<(), Failed>
    ensures { WritesWhole (W.contents output.old) (W.contents output.new) piece.now result }
{
    let mut rest = piece;
    while !rest.is_empty() {
        match output.write(rest) {
            Ok(count) if count > 0 => rest = &rest[count..],
            _ => return Err(Failed),
        }
    }
    Ok(())
}

impl<W: Write> Sink for RealSink<W> {
    ghost tells = { λ sink. record { written = W.contents sink.output; calls = sink.calls; faults = sink.faults } };

    fn write(&mut self, piece: &[u8]) -> Result<(), SinkFault> {
        self.calls = self.calls.saturating_add(1);
        if write_whole(&mut self.output, piece).is_ok() {
            return Ok(());
        }
        self.faults = self.faults.saturating_add(1);
        Err(SinkFault::Failed)
    }
}
