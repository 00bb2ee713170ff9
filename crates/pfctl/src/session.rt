//! A run: the machine, the lines that it has executed, and what it has written.
ghost use Rattle.std.specs.Prelude.{◌≡◌, ◌+◌, ◌-◌, ◌^◌, ◌<◌, ◌≤◌, ◌∷◌, ◌++◌, [], true, false, OnOk, OnErr, length};
ghost use Rattle.pf_base.specs.Text.{IsOneLine, whole_lines, unfinished};
ghost use Rattle.pf_source.specs.Causes.{CountsOn};
ghost use Rattle.pf_state.specs.Machine.{empty_machine};
ghost use Rattle.pf_words.specs.Said.{load_of, text_if};
ghost use Rattle.pfctl.specs.declared.session.Stop.TheVariants.{NoMemory as stop_no_memory};
ghost use Rattle.pfctl.specs.Doing.{EndsInput, FailsByCount, Performs, Sends, count_pieces, world};
ghost use Rattle.pfctl.specs.Lines.{first_lines, hosts_lines, load_line, said_lines, says_something};

use crate::opening::{put_hosts_line, put_load_line};
use pf_base::NoMemory;
use pf_base::text::{lines_go_on, split_line};
use pf_engine::Engine;
use pf_source::{Files, Sink, SinkFault, Source};
use pf_words::LoadWords;
use std::alloc::{AllocError, Global};

/// Why a run stops before its end.
#[derive(Clone, Copy, Debug, PartialEq, Eq)]
pub enum Stop {
    /// A write failed.
    WriteFault,
    /// No memory was found.
    NoMemory,
}

impl From<NoMemory> for Stop {
    ghost from_gives = { λ _ stop. stop ≡ stop_no_memory };

    fn from(_error: NoMemory) -> Stop {
        Stop::NoMemory
    }
}

impl From<AllocError> for Stop {
    ghost from_gives = { λ _ stop. stop ≡ stop_no_memory };

    fn from(_error: AllocError) -> Stop {
        Stop::NoMemory
    }
}

/// How the reading of the input ends.
#[derive(Clone, Copy, Debug, PartialEq, Eq)]
pub enum Ending {
    /// At the input's end.
    AtEnd,
    /// At a read that failed.
    ReadFault,
    /// Past the limit of what is read.
    TooMuch,
}

/// The input may have this many bytes.
const MOST_INPUT: usize = 67_108_864;

/// How many bytes of the input are asked for at a time.
const CHUNK: usize = 65_536;

/// The machine, whether some line was refused so far, and the line in hand with its reply.
#[derive(Drop)]
pub struct Session {
    engine: Engine,
    refused: bool,
    line: Vec<u8>,
    reply: Vec<u8>,
}

// Writes a reply, in one write; a line without a reply makes none.
pub(crate) fn send<W: Sink>(out: &mut W, reply: &[u8]) -> Result<(), Stop>
    ensures sends { Sends (W.tells out.old) (W.tells out.new) reply.now result }
    ensures sent { OnOk result (CountsOn (count_pieces reply.now) (W.tells out.old).calls (W.tells out.new).calls) }
    ensures tried { OnErr result (CountsOn 1 (W.tells out.old).calls (W.tells out.new).calls) }
    ensures causes { FailsByCount (W.tells out.old) (W.tells out.new) result }
{
    if reply.is_empty() {
        return Ok(());
    }
    match out.write(reply) {
        Ok(()) => Ok(()),
        Err(SinkFault::Failed) => Err(Stop::WriteFault),
        Err(SinkFault::NoMemory) => Err(Stop::NoMemory),
    }
}

// Does the line say something? An empty one and one that begins with `#` don't.
fn says(line: &[u8]) -> bool
    ensures { result ≡ says_something line.now }
{
    match line {
        [] => false,
        [first, ..] => *first != b'#',
    }
}

impl Session {
    /// The empty machine, before any line.
    pub fn new(alloc: Global) -> Session
        ensures machine { result.engine ≡ empty_machine }
        ensures refused { result.refused ≡ false }
    {
        Session {
            engine: Engine::new(alloc),
            refused: false,
            line: Vec::new(alloc),
            reply: Vec::new(alloc),
        }
    }

    /// Was some line refused?
    pub fn is_refused(&self) -> bool
        ensures { result ≡ self.now.refused }
    {
        self.refused
    }

    // Executes the line in hand, and writes its reply.
    fn execute<F: Files, W: Sink>(
        &mut self,
        alloc: Global,
        files: &mut F,
        out: &mut W,
    ) -> Result<(), Stop>
        requires next { self.old.engine.next < 2 ^ 64 - 1 }
        ensures runs { Performs (self.old.line.items ∷ [])
            (world self.old (F.tells files.old) (W.tells out.old)) (world self.new (F.tells files.new) (W.tells out.new)) result }
        ensures drawn { self.new.engine.next ≤ self.old.engine.next + 1 }
        ensures causes { FailsByCount (W.tells out.old) (W.tells out.new) result }
    {
        self.reply.clear();
        let outcome = self
            .engine
            .step(alloc, files, self.line.as_slice(), &mut self.reply)?;
        send(out, self.reply.as_slice())?;
        self.refused |= outcome.is_refused();
        Ok(())
    }

    // Executes the line `hosts FACTS`, where a file of facts is given.
    fn hosts<F: Files, W: Sink>(
        &mut self,
        alloc: Global,
        files: &mut F,
        out: &mut W,
        facts: Option<&str>,
    ) -> Result<(), Stop>
        requires next { self.old.engine.next < 2 ^ 64 - 1 }
        ensures runs { Performs (hosts_lines (text_if facts.entry))
            (world self.old (F.tells files.old) (W.tells out.old)) (world self.new (F.tells files.new) (W.tells out.new)) result }
        ensures drawn { self.new.engine.next ≤ self.old.engine.next + 1 }
        ensures causes { FailsByCount (W.tells out.old) (W.tells out.new) result }
    {
        let Some(facts) = facts else {
            return Ok(());
        };
        put_hosts_line(&mut self.line, facts)?;
        self.execute(alloc, files, out)
    }

    // Executes the line `load OPTS FILE`.
    fn load<F: Files, W: Sink>(
        &mut self,
        alloc: Global,
        files: &mut F,
        out: &mut W,
        words: LoadWords<'_>,
    ) -> Result<(), Stop>
        requires next { self.old.engine.next < 2 ^ 64 - 1 }
        ensures runs { Performs (load_line (load_of words.entry) ∷ [])
            (world self.old (F.tells files.old) (W.tells out.old)) (world self.new (F.tells files.new) (W.tells out.new)) result }
        ensures drawn { self.new.engine.next ≤ self.old.engine.next + 1 }
        ensures causes { FailsByCount (W.tells out.old) (W.tells out.new) result }
    {
        put_load_line(&mut self.line, words)?;
        self.execute(alloc, files, out)
    }

    /// Executes the lines that the words of a load give: `hosts FACTS`, where facts are given, and `load OPTS FILE`.
    pub fn begin<F: Files, W: Sink>(
        &mut self,
        alloc: Global,
        files: &mut F,
        out: &mut W,
        words: LoadWords<'_>,
    ) -> Result<(), Stop>
        requires next { self.old.engine.next < 2 ^ 63 }
        ensures runs { Performs (first_lines (load_of words.entry))
            (world self.old (F.tells files.old) (W.tells out.old)) (world self.new (F.tells files.new) (W.tells out.new)) result }
        ensures drawn { self.new.engine.next ≤ self.old.engine.next + 2 }
        ensures causes { FailsByCount (W.tells out.old) (W.tells out.new) result }
    {
        self.hosts(alloc, files, out, words.hosts)?;
        self.load(alloc, files, out, words)
    }

    // Executes a line of the input behind `lead`, where it says something.
    fn execute_said<F: Files, W: Sink>(
        &mut self,
        alloc: Global,
        files: &mut F,
        out: &mut W,
        lead: &[u8],
        line: &[u8],
    ) -> Result<(), Stop>
        requires next { self.old.engine.next < 2 ^ 64 - 1 }
        ensures runs { Performs (said_lines lead.now (line.now ∷ []))
            (world self.old (F.tells files.old) (W.tells out.old)) (world self.new (F.tells files.new) (W.tells out.new)) result }
        ensures drawn { self.new.engine.next ≤ self.old.engine.next + 1 }
        ensures causes { FailsByCount (W.tells out.old) (W.tells out.new) result }
    {
        if !says(line) {
            return Ok(());
        }
        self.line.clear();
        self.line.extend_from_slice(lead)?;
        self.line.extend_from_slice(line)?;
        self.execute(alloc, files, out)
    }

    // Executes the lines that end in a piece of the input. `kept` is what stands behind the last newline.
    fn feed<F: Files, W: Sink>(
        &mut self,
        alloc: Global,
        files: &mut F,
        out: &mut W,
        lead: &[u8],
        kept: &mut Vec<u8>,
        piece: &[u8],
    ) -> Result<(), Stop>
        requires one { IsOneLine kept.old.items }
        requires next { self.old.engine.next + length piece.now < 2 ^ 64 - 1 }
        ensures runs { Performs (said_lines lead.now (whole_lines (kept.old.items ++ piece.now)))
            (world self.old (F.tells files.old) (W.tells out.old)) (world self.new (F.tells files.new) (W.tells out.new)) result }
        ensures kept { OnOk result (kept.new.items ≡ unfinished (kept.old.items ++ piece.now)) }
        ensures drawn { OnOk result (self.new.engine.next ≤ self.old.engine.next + length piece.now) }
        ensures causes { FailsByCount (W.tells out.old) (W.tells out.new) result }
    {
        let mut rest = piece;
        while let Some((line, behind)) = split_line(rest) {
            kept.extend_from_slice(line)?;
            self.execute_said(alloc, files, out, lead, kept.as_slice())?;
            kept.clear();
            rest = behind;
        }
        kept.extend_from_slice(rest)?;
        Ok(())
    }

    /// Executes the lines of the input, each behind `lead`, as they become whole, up to the input's end or its limit.
    pub fn read_input<F: Files, S: Source, W: Sink>(
        &mut self,
        alloc: Global,
        files: &mut F,
        input: &mut S,
        out: &mut W,
        lead: &[u8],
    ) -> Result<Ending, Stop>
        requires next { self.old.engine.next < 2 ^ 63 }
        ensures ends { EndsInput lead.now (S.tells input.old) (S.tells input.new)
            (world self.old (F.tells files.old) (W.tells out.old)) (world self.new (F.tells files.new) (W.tells out.new)) result }
        ensures causes { FailsByCount (W.tells out.old) (W.tells out.new) result }
    {
        lines_go_on();
        let mut chunk = [0u8; CHUNK];
        let mut kept = Vec::new(alloc);
        let mut allowed = MOST_INPUT;
        loop {
            let Ok(count) = input.read(&mut chunk) else {
                return Ok(Ending::ReadFault);
            };
            if count == 0 {
                self.execute_said(alloc, files, out, lead, kept.as_slice())?;
                return Ok(Ending::AtEnd);
            }
            if count > allowed {
                self.feed(alloc, files, out, lead, &mut kept, &chunk[..allowed])?;
                return Ok(Ending::TooMuch);
            }
            self.feed(alloc, files, out, lead, &mut kept, &chunk[..count])?;
            allowed -= count;
        }
    }
}
