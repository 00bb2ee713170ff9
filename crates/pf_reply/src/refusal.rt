//! Why a line is refused.
ghost use Rattle.std.specs.Prelude.{◌≡◌, ◌++◌, OnOk, codes};
ghost use Rattle.pf_base.specs.Path.{path_text};
ghost use Rattle.pf_parts.specs.Appending.{Extends};
ghost use Rattle.pf_reply.specs.Refusals.{load_fault_text, overfull_word, refusal_text, stale_text, tree_full_text};

use crate::kind::put_kind;
use crate::text::{put_both, put_numbered, put_path};
use pf_base::{FaultKind, Name, NoMemory, Path, Text};
use pf_parts::put;
use pf_record::Field;

/// What a tree, or the open sessions together, have too many of.
#[derive(Clone, Copy, Debug, PartialEq, Eq)]
pub enum Overfull {
    /// Rules as they are written.
    Rules,
    /// Rulesets with a rule or a table.
    Rulesets,
}

/// Why a line is refused. The machine is then as before; only a refused commit of an open session closes that session.
#[derive(Debug, Drop)]
pub enum Refusal {
    /// The line is no command.
    BadCommand,
    /// The first fault of a load, with the name of the file, and the line there or 0 for the whole file.
    LoadFault {
        kind: FaultKind,
        file: Text,
        line: u32,
    },
    /// A read of this file failed.
    CannotRead(Text),
    /// The first ruleset of a session that another load, session or flush has begun since: its path, the ticket that the
    /// session has and the one that the path has now.
    Stale {
        path: Path,
        held: u64,
        now: u64,
    },
    /// A session of this name is open.
    SessionOpen(Name),
    /// No session of this name is open.
    NoSession(Name),
    /// As many sessions are open as may be.
    SessionsFull,
    /// The ruleset has no table of this name.
    TableMissing(Name),
    /// The table is constant.
    TableConst(Name),
    /// The first word that is no address, or no entry of a table, where one should stand.
    BadAddress(Text),
    /// The first field of a packet's record that is missing or outside its form.
    BadPacket(Field),
    /// So many rules or rulesets are more than may stand.
    TreeFull {
        what: Overfull,
        count: u64,
    },
    /// So many entries of declared tables are more than may stand.
    TablesFull(u64),
    /// The first line of a profile that is outside its form, or 0 where the file is too large.
    ProfileFault(u64),
    /// The first line of a facts file that is outside its form, or 0 where the file is too large.
    FactsFault(u64),
    /// The first ruleset, in path order, that calls itself, over others or at once.
    CallCycle(Path),
    /// In the longest chain of calls so many rulesets call one another, which is more than may.
    CallDepth(u64),
}

// The word for what there is too much of.
fn overfull_word(what: Overfull) -> &'static [u8]
    ensures { result.now ≡ overfull_word what }
{
    match what {
        Overfull::Rules => b"rules",
        Overfull::Rulesets => b"rulesets",
    }
}

// Appends the fault of a load.
fn put_load_fault(
    out: &mut Vec<u8>,
    kind: &FaultKind,
    file: &[u8],
    line: u32,
) -> Result<(), NoMemory>
    ensures ok { OnOk result (out.new.items ≡ out.old.items ++ load_fault_text kind.now file.now line) }
    ensures kept { Extends out.old.items out.new.items }
{
    put(out, b"refused 2 LoadFault ")?;
    put_kind(out, kind)?;
    put_both(out, b" ", file)?;
    put_numbered(out, b":", u64::from(line))?;
    Ok(())
}

// Appends that a ruleset has another ticket than the session.
fn put_stale(out: &mut Vec<u8>, path: &Path, held: u64, now: u64) -> Result<(), NoMemory>
    ensures ok { OnOk result (out.new.items ≡ out.old.items ++ stale_text path.now held now) }
    ensures kept { Extends out.old.items out.new.items }
{
    put(out, b"refused 4 Stale ")?;
    put_path(out, path)?;
    put_numbered(out, b" ", held)?;
    put_numbered(out, b" ", now)?;
    Ok(())
}

// Appends that there are too many rules or rulesets.
fn put_tree_full(out: &mut Vec<u8>, what: Overfull, count: u64) -> Result<(), NoMemory>
    ensures ok { OnOk result (out.new.items ≡ out.old.items ++ tree_full_text what count) }
    ensures kept { Extends out.old.items out.new.items }
{
    put(out, b"refused 12 TreeFull ")?;
    put(out, overfull_word(what))?;
    put_numbered(out, b" ", count)?;
    Ok(())
}

// Appends that a ruleset calls itself.
fn put_cycle(out: &mut Vec<u8>, path: &Path) -> Result<(), NoMemory>
    ensures ok { OnOk result (out.new.items ≡ out.old.items ++ (codes "refused 16 CallCycle " ++ path_text path.now)) }
    ensures kept { Extends out.old.items out.new.items }
{
    put(out, b"refused 16 CallCycle ")?;
    put_path(out, path)?;
    Ok(())
}

/// Appends the text of a refusal. What stood in the buffer before still stands in front, also without memory.
pub fn put_refusal(out: &mut Vec<u8>, refusal: &Refusal) -> Result<(), NoMemory>
    ensures ok { OnOk result (out.new.items ≡ out.old.items ++ refusal_text refusal.now) }
    ensures kept { Extends out.old.items out.new.items }
{
    match refusal {
        Refusal::BadCommand => put(out, b"refused 1 BadCommand"),
        Refusal::LoadFault { kind, file, line } => {
            put_load_fault(out, kind, file.items(), *line)
        }
        Refusal::CannotRead(name) => put_both(out, b"refused 3 CannotRead ", name.items()),
        Refusal::Stale { path, held, now } => put_stale(out, path, *held, *now),
        Refusal::SessionOpen(name) => put_both(out, b"refused 5 SessionOpen ", name.bytes()),
        Refusal::NoSession(name) => put_both(out, b"refused 6 NoSession ", name.bytes()),
        Refusal::SessionsFull => put(out, b"refused 7 SessionsFull 64"),
        Refusal::TableMissing(name) => put_both(out, b"refused 8 TableMissing ", name.bytes()),
        Refusal::TableConst(name) => put_both(out, b"refused 9 TableConst ", name.bytes()),
        Refusal::BadAddress(word) => put_both(out, b"refused 10 BadAddress ", word.items()),
        Refusal::BadPacket(field) => put_both(out, b"refused 11 BadPacket ", field.name()),
        Refusal::TreeFull { what, count } => put_tree_full(out, *what, *count),
        Refusal::TablesFull(count) => put_numbered(out, b"refused 13 TablesFull ", *count),
        Refusal::ProfileFault(line) => put_numbered(out, b"refused 14 ProfileFault ", *line),
        Refusal::FactsFault(line) => put_numbered(out, b"refused 15 FactsFault ", *line),
        Refusal::CallCycle(path) => put_cycle(out, path),
        Refusal::CallDepth(depth) => put_numbered(out, b"refused 17 CallDepth ", *depth),
    }
}
