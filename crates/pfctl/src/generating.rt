//! The generated run: a configuration of 2,001 rules is loaded, and 5,000 records are answered (pfctl(8), -g).
ghost use Rattle.std.specs.Prelude.{◌≡◌, ◌<◌, ◌≤◌, ◌^◌, ◌++◌, ◌∷◌, [], Some, IfOk, OnOk, codes, length, true};
ghost use Rattle.pf_runs.specs.Runs.{reply_text};
ghost use Rattle.pf_source.specs.Told.{FilesTold, SourceTold};
ghost use Rattle.pfctl.specs.Doing.{status_by};
ghost use Rattle.pfctl.specs.Generating.{Counted, IsJudged, Summed, load_line, one_if, says, summary_line};
ghost use Rattle.pfctl.specs.Program.{HasWriteCause, MeansGenerated, outside};

use crate::laws::a_generated_load_is_done;
use crate::program::Status;
use crate::session::{Stop, send};
use pf_base::{Level, List, NoMemory, Text};
use pf_engine::Engine;
use pf_gen::generated;
use pf_record::read_packet;
use pf_reply::put_count;
use pf_rule::{Action, Answer};
use pf_source::{Files, HeldFile, Sink, SureFiles};
use std::alloc::Global;

/// What is counted.
#[derive(Clone, Copy, Debug, PartialEq, Eq)]
enum Verdict {
    Passed,
    Blocked,
}

/// How many rules a generated configuration has.
const RULES: u32 = 2001;

/// What a generated run comes to (pfctl(8), -g).
#[derive(Clone, Copy, Debug, PartialEq, Eq)]
pub struct Summary {
    /// How many rules the machine has, as they are written.
    pub rules: u32,
    /// How many of the records it lets pass.
    pub pass: u32,
    /// How many of them it blocks.
    pub block: u32,
}

// Files that hold the configuration alone, under the name `generated`.
fn files_of(alloc: Global, config: Text) -> Result<SureFiles, NoMemory>
    ensures { IfOk result (λ files. ⟦<SureFiles as Files>⟧.tells files ≡ record {
      held = Some (record { files = record { name = codes "generated"; bytes = config } ∷ []; sure = true });
      steady = true;
      faults = 0;
      failed = Some [];
    }) }
{
    let mut content = Vec::new(alloc);
    let name = List::of(Vec::from_slice(alloc, b"generated")?);
    content.push(HeldFile {
        name,
        bytes: config,
    })?;
    Ok(SureFiles::new(content))
}

// Is this the verdict of an answer? On a skipped interface there is none.
fn is_said(verdict: Verdict, answer: &Answer) -> bool
    ensures { result ≡ says verdict answer.now }
{
    let said = match answer.decision.action {
        Action::Pass => verdict == Verdict::Passed,
        Action::Block(_) => verdict == Verdict::Blocked,
        _ => false,
    };
    !answer.skip && said
}

// Is this the verdict on a record? One that is no packet has none.
fn is_judged(engine: &Engine, text: &[u8], verdict: Verdict) -> bool
    ensures { IsJudged (says verdict) engine.now text.now result }
{
    match read_packet(text) {
        Ok(packet) => is_said(verdict, &engine.ask(&packet)),
        Err(_) => false,
    }
}

// One where it is so, else none.
fn one_if(is: bool) -> u32
    ensures value { result ≡ one_if is }
    ensures few { result ≤ 1 }
{
    if is { 1 } else { 0 }
}

// How many of the records have this verdict.
fn count(engine: &Engine, records: &[Text], verdict: Verdict) -> u32
    requires { length records.now < 2 ^ 32 }
    ensures { Counted (says verdict) engine.now records.now result }
{
    let mut count = 0;
    let mut left = records;
    while let Some((first, behind)) = left.split_first() {
        count += one_if(is_judged(engine, first.items(), verdict));
        left = behind;
    }
    count
}

// The line that loads the configuration at a level.
fn load_line(level: Level) -> &'static [u8]
    ensures { result.now ≡ load_line level }
{
    match level {
        Level::None => b"load -o none generated".as_slice(),
        Level::Basic => b"load -o basic generated".as_slice(),
        Level::Profile => b"load -o profile generated".as_slice(),
    }
}

/// What the run of a number comes to at a level: the configuration is loaded into the empty machine, which is never refused, and
/// the machine answers each of the records (pfctl(8), -g, -o).
pub fn summary_at(alloc: Global, number: u32, level: Level) -> Result<Summary, NoMemory>
    ensures { IfOk result (λ summary. Summed number level summary) }
{
    a_generated_load_is_done();
    let made = generated(alloc, number)?;
    let mut files = files_of(alloc, made.config)?;
    let mut engine = Engine::new(alloc);
    let mut reply = Vec::new(alloc);
    engine.step(alloc, &mut files, load_line(level), &mut reply)?;
    let records = made.records.items();
    let pass = count(&engine, records, Verdict::Passed);
    let block = count(&engine, records, Verdict::Blocked);
    Ok(Summary {
        rules: RULES,
        pass,
        block,
    })
}

// Appends the summary of a run, with its newline.
fn put_summary(out: &mut Vec<u8>, number: u32, summary: &Summary) -> Result<(), NoMemory>
    ensures { OnOk result (out.new.items ≡ out.old.items ++ reply_text (summary_line number summary.now ∷ [])) }
{
    out.extend_from_slice(b"gen ")?;
    put_count(out, number as u64)?;
    out.extend_from_slice(b" rules=")?;
    put_count(out, summary.rules as u64)?;
    out.extend_from_slice(b" pass=")?;
    put_count(out, summary.pass as u64)?;
    out.extend_from_slice(b" block=")?;
    put_count(out, summary.block as u64)?;
    out.extend_from_slice(b"\n")?;
    Ok(())
}

/// Writes what the run of a number comes to, in one write. No file is read, and nothing of the input.
pub fn summarise<W: Sink>(alloc: Global, number: u32, out: &mut W) -> Result<Status, Stop>
    ensures means { (files : FilesTold) (source : SourceTold) → MeansGenerated number
        (outside files source (W.tells out.old)) (outside files source (W.tells out.new)) (status_by result) }
    ensures cause { (files : FilesTold) (source : SourceTold) → HasWriteCause
        (outside files source (W.tells out.old)) (outside files source (W.tells out.new)) (status_by result) }
{
    let summary = summary_at(alloc, number, Level::Basic)?;
    let mut reply = Vec::new(alloc);
    put_summary(&mut reply, number, &summary)?;
    send(out, reply.as_slice())?;
    Ok(Status::Done)
}
