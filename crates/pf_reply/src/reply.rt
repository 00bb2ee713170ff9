//! What a line is told that was done.
ghost use Rattle.std.specs.Prelude.{◌≡◌, ◌++◌, OnOk, codes, decimal};
ghost use Rattle.pf_base.specs.Path.{path_text};
ghost use Rattle.pf_parts.specs.Appending.{Extends};
ghost use Rattle.pf_reply.specs.Replies.{counted_text, filled_text, listing_word, of_text, opened_text, replaced_text, reply_text};

use crate::text::{put_both, put_count, put_numbered, put_path};
use pf_base::{Name, NoMemory, Path};
use pf_parts::put;

/// How much a load fills: rulesets, rules as they are written, and declared tables.
#[derive(Clone, Copy, Debug, PartialEq, Eq)]
pub struct Filled {
    pub rulesets: u64,
    pub rules: u64,
    pub tables: u64,
}

/// What a line shows a list of.
#[derive(Clone, Copy, Debug, PartialEq, Eq)]
pub enum Listing {
    /// The rules of a ruleset as they were optimised, and as they are written.
    Rules,
    Written,
    /// The tables of a ruleset, and the entries of one table.
    Tables,
    Table,
    /// The names of the rulesets right below.
    Anchors,
    /// The skip steps of a ruleset.
    Skips,
    Queues,
    Options,
}

/// The reply of a line that was done; of a list it is the first line.
#[derive(Clone, Copy, Debug)]
pub enum Reply {
    Loaded(Filled),
    Checked(Filled),
    /// A session was opened, with this ticket.
    Opened { session: Name, ticket: u64 },
    Committed(Name),
    RolledBack(Name),
    Flushed(Path),
    /// So many entries were added for so many words.
    Added { count: u64, words: u64 },
    Deleted { count: u64, words: u64 },
    Replaced { added: u64, deleted: u64 },
    /// So many entries were deleted, which were all.
    Emptied(u64),
    /// So many of so many addresses are in the table.
    Matched { count: u64, words: u64 },
    /// The facts tell of so many interfaces.
    Hosts(u64),
    /// So many lines of a list follow.
    Listed { listing: Listing, count: u64 },
}

// The word for what is listed.
fn listing_word(listing: Listing) -> &'static [u8]
    ensures { result.now ≡ listing_word listing }
{
    match listing {
        Listing::Rules => b"rules",
        Listing::Written => b"written",
        Listing::Tables => b"tables",
        Listing::Table => b"table",
        Listing::Anchors => b"anchors",
        Listing::Skips => b"skips",
        Listing::Queues => b"queues",
        Listing::Options => b"options",
    }
}

// Appends what a load fills, behind a word.
fn put_filled(out: &mut Vec<u8>, word: &[u8], filled: Filled) -> Result<(), NoMemory>
    ensures ok { OnOk result (out.new.items ≡ out.old.items ++ filled_text word.now filled) }
    ensures kept { Extends out.old.items out.new.items }
{
    put_both(out, b"ok ", word)?;
    put_numbered(out, b" rulesets=", filled.rulesets)?;
    put_numbered(out, b" rules=", filled.rules)?;
    put_numbered(out, b" tables=", filled.tables)?;
    Ok(())
}

// Appends that a session was opened.
fn put_opened(out: &mut Vec<u8>, session: &Name, ticket: u64) -> Result<(), NoMemory>
    ensures ok { OnOk result (out.new.items ≡ out.old.items ++ opened_text session.now ticket) }
    ensures kept { Extends out.old.items out.new.items }
{
    put(out, b"ok open ")?;
    put(out, session.bytes())?;
    put_numbered(out, b" ticket=", ticket)?;
    Ok(())
}

// Appends that a ruleset was flushed.
fn put_flushed(out: &mut Vec<u8>, path: &Path) -> Result<(), NoMemory>
    ensures ok { OnOk result (out.new.items ≡ out.old.items ++ (codes "ok flush " ++ path_text path.now)) }
    ensures kept { Extends out.old.items out.new.items }
{
    put(out, b"ok flush ")?;
    put_path(out, path)?;
    Ok(())
}

// Appends how many of how many, and a word.
fn put_of(out: &mut Vec<u8>, count: u64, words: u64, what: &[u8]) -> Result<(), NoMemory>
    ensures ok { OnOk result (out.new.items ≡ out.old.items ++ of_text count words what.now) }
    ensures kept { Extends out.old.items out.new.items }
{
    put_count(out, count)?;
    put_numbered(out, b"/", words)?;
    put_both(out, b" addresses ", what)?;
    put(out, b".")?;
    Ok(())
}

// Appends how many entries were added and how many deleted.
fn put_replaced(out: &mut Vec<u8>, added: u64, deleted: u64) -> Result<(), NoMemory>
    ensures ok { OnOk result (out.new.items ≡ out.old.items ++ replaced_text added deleted) }
    ensures kept { Extends out.old.items out.new.items }
{
    put_count(out, added)?;
    put(out, b" addresses added. ")?;
    put_count(out, deleted)?;
    put(out, b" addresses deleted.")?;
    Ok(())
}

// Appends that so many entries were deleted.
fn put_emptied(out: &mut Vec<u8>, count: u64) -> Result<(), NoMemory>
    ensures ok { OnOk result (out.new.items ≡ out.old.items ++ (decimal count ++ codes " addresses deleted.")) }
    ensures kept { Extends out.old.items out.new.items }
{
    put_count(out, count)?;
    put(out, b" addresses deleted.")?;
    Ok(())
}

// Appends `ok`, a word and a number.
fn put_counted(out: &mut Vec<u8>, word: &[u8], count: u64) -> Result<(), NoMemory>
    ensures ok { OnOk result (out.new.items ≡ out.old.items ++ counted_text word.now count) }
    ensures kept { Extends out.old.items out.new.items }
{
    put(out, b"ok ")?;
    put(out, word)?;
    put_numbered(out, b" ", count)?;
    Ok(())
}

/// Appends the text of a reply. What stood in the buffer before still stands in front, also without memory.
pub fn put_reply(out: &mut Vec<u8>, reply: &Reply) -> Result<(), NoMemory>
    ensures ok { OnOk result (out.new.items ≡ out.old.items ++ reply_text reply.now) }
    ensures kept { Extends out.old.items out.new.items }
{
    match reply {
        Reply::Loaded(filled) => put_filled(out, b"load", *filled),
        Reply::Checked(filled) => put_filled(out, b"check", *filled),
        Reply::Opened { session, ticket } => put_opened(out, session, *ticket),
        Reply::Committed(name) => put_both(out, b"ok commit ", name.bytes()),
        Reply::RolledBack(name) => put_both(out, b"ok rollback ", name.bytes()),
        Reply::Flushed(path) => put_flushed(out, path),
        Reply::Added { count, words } => put_of(out, *count, *words, b"added"),
        Reply::Deleted { count, words } => put_of(out, *count, *words, b"deleted"),
        Reply::Replaced { added, deleted } => put_replaced(out, *added, *deleted),
        Reply::Emptied(count) => put_emptied(out, *count),
        Reply::Matched { count, words } => put_of(out, *count, *words, b"match"),
        Reply::Hosts(count) => put_counted(out, b"hosts", *count),
        Reply::Listed { listing, count } => put_counted(out, listing_word(*listing), *count),
    }
}
