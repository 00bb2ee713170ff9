//! The text of a table (pf.conf(5), TABLES).
ghost use Rattle.std.specs.Prelude.{◌≡◌, ◌∷◌, ◌++◌, OnErr, OnOk, codes};
ghost use Rattle.std.specs.List.{join_by};
ghost use Rattle.pf_parts.specs.Appending.{Extends};
ghost use Rattle.pf_parts.specs.Parts.{spaced, word_if};
ghost use Rattle.pf_print.specs.TableText.{entries_text, entry_text, table_text};

use crate::host::{put_if, put_network, put_table_name};
use pf_base::{Name, NoMemory};
use pf_parts::put;
use pf_shelf::TableFlags;
use pf_table::Entry;

fn append_entry(out: &mut Vec<u8>, entry: &Entry) -> Result<(), NoMemory>
    ensures ok { OnOk result (out.new.items ≡ out.old.items ++ entry_text entry.now) }
    ensures kept { Extends out.old.items out.new.items }
{
    put_if(out, entry.negated, b"! ")?;
    put_network(out, &entry.prefix)?;
    Ok(())
}

/// Appends the text of an entry of a table, with a `!` before it where it is negated. Without memory `out` is as before
/// (pf.conf(5), TABLES).
pub fn put_entry(out: &mut Vec<u8>, entry: &Entry) -> Result<(), NoMemory>
    ensures ok { OnOk result (out.new.items ≡ out.old.items ++ entry_text entry.now) }
    ensures err { OnErr result (out.new.items ≡ out.old.items) }
{
    let before = out.len();
    let appended = append_entry(out, entry);
    if appended.is_err() {
        out.truncate(before);
    }
    appended
}

// An entry behind a comma.
fn put_next(out: &mut Vec<u8>, entry: &Entry) -> Result<(), NoMemory>
    ensures ok { OnOk result (out.new.items ≡ out.old.items ++ (codes ", " ++ entry_text entry.now)) }
    ensures kept { Extends out.old.items out.new.items }
{
    put(out, b", ")?;
    append_entry(out, entry)?;
    Ok(())
}

// One entry or more, with commas between them.
fn put_list(out: &mut Vec<u8>, first: &Entry, more: &[Entry]) -> Result<(), NoMemory>
    ensures ok { OnOk result (out.new.items ≡ out.old.items ++ join_by entry_text (codes ", ") (first.now ∷ more.now)) }
    ensures kept { Extends out.old.items out.new.items }
{
    append_entry(out, first)?;
    for entry in more {
        put_next(out, entry)?;
    }
    Ok(())
}

// In braces.
#[tactic(auto, unfolding(crate::specs::TableText::entries_text))]
fn put_entries(out: &mut Vec<u8>, entries: &[Entry]) -> Result<(), NoMemory>
    ensures ok { OnOk result (out.new.items ≡ out.old.items ++ entries_text entries.now) }
    ensures kept { Extends out.old.items out.new.items }
{
    match entries {
        [] => put(out, b"{ }")?,
        [first, more @ ..] => {
            put(out, b"{ ")?;
            put_list(out, first, more)?;
            put(out, b" }")?;
        }
    }
    Ok(())
}

// The flags that are set.
fn put_table_flags(out: &mut Vec<u8>, flags: &TableFlags) -> Result<(), NoMemory>
    ensures ok { OnOk result (out.new.items ≡ out.old.items ++ (spaced (word_if flags.now.persist (codes "persist"))
        ++ spaced (word_if flags.now.constant (codes "const")) ++ spaced (word_if flags.now.counters (codes "counters")))) }
    ensures kept { Extends out.old.items out.new.items }
{
    put_if(out, flags.persist, b" persist")?;
    put_if(out, flags.constant, b" const")?;
    put_if(out, flags.counters, b" counters")?;
    Ok(())
}

// The name.
fn put_head(out: &mut Vec<u8>, name: &Name) -> Result<(), NoMemory>
    ensures ok { OnOk result (out.new.items ≡ out.old.items ++ (codes "table <" ++ name.now ++ codes ">")) }
    ensures kept { Extends out.old.items out.new.items }
{
    put(out, b"table ")?;
    put_table_name(out, name.bytes())?;
    Ok(())
}

// The entries in braces, with a space before these.
fn put_braces(out: &mut Vec<u8>, entries: &[Entry]) -> Result<(), NoMemory>
    ensures ok { OnOk result (out.new.items ≡ out.old.items ++ (codes " " ++ entries_text entries.now)) }
    ensures kept { Extends out.old.items out.new.items }
{
    put(out, b" ")?;
    put_entries(out, entries)?;
    Ok(())
}

#[tactic(auto, unfolding(crate::specs::TableText::table_text))]
fn append_table(
    out: &mut Vec<u8>,
    name: &Name,
    flags: &TableFlags,
    entries: &[Entry],
) -> Result<(), NoMemory>
    ensures ok { OnOk result (out.new.items ≡ out.old.items ++ table_text name.now flags.now entries.now) }
    ensures kept { Extends out.old.items out.new.items }
{
    put_head(out, name)?;
    put_table_flags(out, flags)?;
    put_braces(out, entries)?;
    Ok(())
}

/// Appends the text of a table: its name, the flags that are set, and the entries in their order, in braces with commas between
/// them. Without memory `out` is as before (pf.conf(5), TABLES).
pub fn put_table(
    out: &mut Vec<u8>,
    name: &Name,
    flags: &TableFlags,
    entries: &[Entry],
) -> Result<(), NoMemory>
    ensures ok { OnOk result (out.new.items ≡ out.old.items ++ table_text name.now flags.now entries.now) }
    ensures err { OnErr result (out.new.items ≡ out.old.items) }
{
    let before = out.len();
    let appended = append_table(out, name, flags, entries);
    if appended.is_err() {
        out.truncate(before);
    }
    appended
}
