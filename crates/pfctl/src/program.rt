//! The top call: the words, the run and its status.
ghost use Rattle.std.specs.Prelude.{◌≡◌, ◌≢◌, map, string_bytes, IsNone, Some, None};
ghost use Rattle.pf_source.specs.Told.{Told, file_of};
ghost use Rattle.pf_words.specs.Said.{load_of, task_of, words_read};
ghost use Rattle.pfctl.specs.Doing.{status_at, status_by};
ghost use Rattle.pfctl.specs.Lines.{load_and_test, script};
ghost use Rattle.pfctl.specs.Program.{HasCause, HasReadCause, Means, MeansRead, outside};

use crate::generating::summarise;
use crate::session::{Ending, Session, Stop};
use pf_source::{Files, Sink, Source, SureFiles, SureSink, SureSource};
use pf_words::{LoadWords, Said, WordsFault, read_words};
use std::alloc::Global;

/// How the program ends. The exit status is 0 to 6 in this order.
#[derive(Clone, Copy, Debug, PartialEq, Eq)]
pub enum Status {
    /// Every line was done.
    Done,
    /// The input was read to its end, and some line was refused.
    Refused,
    /// The words aren't those of the program; nothing was read or written.
    Words,
    /// A read of the input failed.
    ReadFault,
    /// A write failed.
    WriteFault,
    /// No memory was found.
    NoMemory,
    /// The input has more than 67,108,864 bytes.
    TooMuchInput,
}

impl Status {
    ghost use Rattle.pfctl.specs.Program.{exit_number};

    /// The exit status of the process, 0 to 6 (see `man/pfctl.8`).
    pub fn exit_status(self) -> u8
        ensures { result ≡ exit_number self }
    {
        self as u8
    }
}

/// Does all that the program does (pfctl(8)): reads its words; with -f loads a file and answers each line of the input as
/// the record of a packet, with -S executes each line of the input, and with -g runs what is generated. What it writes is
/// the output of the plain machine over those lines, by its status.
pub fn run<F: Files, S: Source, W: Sink>(
    alloc: Global,
    words: &[String],
    files: &mut F,
    input: &mut S,
    out: &mut W,
) -> Status
    // What each status means, where the files tell what they hold.
    ensures means { Told (F.tells files.old).held (λ held. Means (words_read (map string_bytes words.now)) (file_of held)
        (outside (F.tells files.old) (S.tells input.old) (W.tells out.old))
        (outside (F.tells files.new) (S.tells input.new) (W.tells out.new)) result) }
    // Where the words aren't read, nothing is read or written, and that is told, unless memory is wanting.
    ensures words { result ≡ Status.Words → IsNone (words_read (map string_bytes words.now)) }
    // Why a status comes, whatever the files tell: what was read of the input, and which count rose.
    ensures cause { HasCause (words_read (map string_bytes words.now))
        (outside (F.tells files.old) (S.tells input.old) (W.tells out.old))
        (outside (F.tells files.new) (S.tells input.new) (W.tells out.new)) result }
{
    let said = match read_words(alloc, words) {
        Ok(said) => said,
        Err(WordsFault::Words) => return Status::Words,
        Err(WordsFault::NoMemory) => return Status::NoMemory,
    };
    ended(perform(alloc, said, files, input, out))
}

/// The same over objects that never fail: it ends with the plain machine's whole output, or past the input's limit, or
/// for want of memory.
pub fn run_surely(
    alloc: Global,
    words: &[String],
    files: &mut SureFiles,
    input: &mut SureSource,
    out: &mut SureSink,
) -> Status
    ensures means { Told (⟦<SureFiles as Files>⟧.tells files.old).held (λ held. Means (words_read (map string_bytes words.now)) (file_of held)
        (outside (⟦<SureFiles as Files>⟧.tells files.old) (⟦<SureSource as Source>⟧.tells input.old) (⟦<SureSink as Sink>⟧.tells out.old))
        (outside (⟦<SureFiles as Files>⟧.tells files.new) (⟦<SureSource as Source>⟧.tells input.new) (⟦<SureSink as Sink>⟧.tells out.new)) result) }
    ensures words { result ≡ Status.Words → IsNone (words_read (map string_bytes words.now)) }
    ensures cause { HasCause (words_read (map string_bytes words.now))
        (outside (⟦<SureFiles as Files>⟧.tells files.old) (⟦<SureSource as Source>⟧.tells input.old) (⟦<SureSink as Sink>⟧.tells out.old))
        (outside (⟦<SureFiles as Files>⟧.tells files.new) (⟦<SureSource as Source>⟧.tells input.new) (⟦<SureSink as Sink>⟧.tells out.new)) result }
    ensures reads { result ≢ Status.ReadFault }
    ensures writes { result ≢ Status.WriteFault }
{
    run(alloc, words, files, input, out)
}

// Does what the words say.
fn perform<F: Files, S: Source, W: Sink>(
    alloc: Global,
    said: Said<'_>,
    files: &mut F,
    input: &mut S,
    out: &mut W,
) -> Result<Status, Stop>
    ensures means { Told (F.tells files.old).held (λ held. Means (Some (task_of said.entry)) (file_of held)
        (outside (F.tells files.old) (S.tells input.old) (W.tells out.old))
        (outside (F.tells files.new) (S.tells input.new) (W.tells out.new)) (status_by result)) }
    ensures cause { HasCause (Some (task_of said.entry))
        (outside (F.tells files.old) (S.tells input.old) (W.tells out.old))
        (outside (F.tells files.new) (S.tells input.new) (W.tells out.new)) (status_by result) }
{
    match said {
        Said::Load(load) => answer_records(alloc, load, files, input, out),
        Said::Script => run_script(alloc, files, input, out),
        Said::Generate(number) => summarise(alloc, number, out),
    }
}

// -f: the load, and then the input.
fn answer_records<F: Files, S: Source, W: Sink>(
    alloc: Global,
    words: LoadWords<'_>,
    files: &mut F,
    input: &mut S,
    out: &mut W,
) -> Result<Status, Stop>
    ensures means { Told (F.tells files.old).held (λ held. MeansRead (load_and_test (load_of words.entry)) (file_of held)
        (outside (F.tells files.old) (S.tells input.old) (W.tells out.old))
        (outside (F.tells files.new) (S.tells input.new) (W.tells out.new)) (status_by result)) }
    ensures cause { HasReadCause
        (outside (F.tells files.old) (S.tells input.old) (W.tells out.old))
        (outside (F.tells files.new) (S.tells input.new) (W.tells out.new)) (status_by result) }
{
    let mut session = Session::new(alloc);
    session.begin(alloc, files, out, words)?;
    let ending = session.read_input(alloc, files, input, out, b"test ")?;
    Ok(status_of(ending, session.is_refused()))
}

// -S: the input alone.
fn run_script<F: Files, S: Source, W: Sink>(
    alloc: Global,
    files: &mut F,
    input: &mut S,
    out: &mut W,
) -> Result<Status, Stop>
    ensures means { Told (F.tells files.old).held (λ held. MeansRead script (file_of held)
        (outside (F.tells files.old) (S.tells input.old) (W.tells out.old))
        (outside (F.tells files.new) (S.tells input.new) (W.tells out.new)) (status_by result)) }
    ensures cause { HasReadCause
        (outside (F.tells files.old) (S.tells input.old) (W.tells out.old))
        (outside (F.tells files.new) (S.tells input.new) (W.tells out.new)) (status_by result) }
{
    let mut session = Session::new(alloc);
    let ending = session.read_input(alloc, files, input, out, b"")?;
    Ok(status_of(ending, session.is_refused()))
}

// The status of a run that came to its end.
fn status_of(ending: Ending, refused: bool) -> Status
    ensures { result ≡ status_at ending refused }
{
    match ending {
        Ending::AtEnd if refused => Status::Refused,
        Ending::AtEnd => Status::Done,
        Ending::ReadFault => Status::ReadFault,
        Ending::TooMuch => Status::TooMuchInput,
    }
}

// The status of a run, which may have stopped before its end.
fn ended(run: Result<Status, Stop>) -> Status
    ensures { result ≡ status_by run }
{
    match run {
        Ok(status) => status,
        Err(Stop::WriteFault) => Status::WriteFault,
        Err(Stop::NoMemory) => Status::NoMemory,
    }
}
