//! Lists in brackets, of items that may be left out.
ghost use Rattle.std.specs.Prelude.{◌≡◌, ◌++◌, OnOk, map, codes, if◌then◌else◌};
ghost use Rattle.pf_parts.specs.Appending.{Extends};
ghost use Rattle.pf_parts.specs.Items.{item_text, part_of};
ghost use Rattle.pf_parts.specs.Parts.{in_brackets, spaced, with_number, word_if};
ghost use Rattle.pf_parts.specs.StateText.{flush_text, overload_text, rate_text};

use crate::state::{Flush, Overload, Rate};
use crate::text::{put, put_named, put_numbered};
use pf_base::{Name, NoMemory};

/// What stands between brackets.
#[derive(Clone, Copy)]
pub(crate) enum Item {
    Word(&'static [u8]),
    /// A word and a number.
    Number(&'static [u8], u32),
    /// A word and a name.
    Named(&'static [u8], Name),
    /// `max-src-conn-rate`
    PerSeconds(Rate),
    /// `overload`
    Table(Overload),
}

/// A word that stands where the test holds.
pub(crate) fn word_item(stands: bool, word: &'static [u8]) -> Option<Item>
    ensures { part_of result ≡ word_if stands word.now }
{
    if stands { Some(Item::Word(word)) } else { None }
}

/// A word with a number, where there is one.
pub(crate) fn number_item(word: &'static [u8], number: Option<u32>) -> Option<Item>
    ensures { part_of result ≡ with_number word.now number }
{
    Some(Item::Number(word, number?))
}

fn put_rate(out: &mut Vec<u8>, rate: &Rate) -> Result<(), NoMemory>
    ensures ok { OnOk result (out.new.items ≡ out.old.items ++ rate_text rate.now) }
    ensures kept { Extends out.old.items out.new.items }
{
    put_numbered(out, b"max-src-conn-rate ", rate.count)?;
    put_numbered(out, b"/", rate.seconds)?;
    Ok(())
}

fn flush_words(flush: Flush) -> &'static [u8]
    ensures { result.now ≡ flush_text flush }
{
    match flush {
        Flush::No => b"",
        Flush::Flush => b" flush",
        Flush::Global => b" flush global",
    }
}

fn put_overload(out: &mut Vec<u8>, overload: &Overload) -> Result<(), NoMemory>
    ensures ok { OnOk result (out.new.items ≡ out.old.items ++ overload_text overload.now) }
    ensures kept { Extends out.old.items out.new.items }
{
    put(out, b"overload <")?;
    put(out, overload.table.bytes())?;
    put(out, b">")?;
    put(out, flush_words(overload.flush))?;
    Ok(())
}

fn put_item(out: &mut Vec<u8>, item: &Item) -> Result<(), NoMemory>
    ensures ok { OnOk result (out.new.items ≡ out.old.items ++ item_text item.now) }
    ensures kept { Extends out.old.items out.new.items }
{
    match item {
        Item::Word(word) => put(out, word)?,
        Item::Number(word, number) => {
            put(out, word)?;
            put_numbered(out, b" ", *number)?;
        }
        Item::Named(word, name) => {
            put(out, word)?;
            put_named(out, b" ", name)?;
        }
        Item::PerSeconds(rate) => put_rate(out, rate)?,
        Item::Table(overload) => put_overload(out, overload)?,
    }
    Ok(())
}

// An item that stands, behind `(` or a comma.
fn put_next(out: &mut Vec<u8>, some: bool, item: &Item) -> Result<(), NoMemory>
    ensures ok { OnOk result (out.new.items ≡ out.old.items ++ (if some then codes ", " else codes " (") ++ item_text item.now) }
    ensures kept { Extends out.old.items out.new.items }
{
    put(out, if some { b", " } else { b" (" })?;
    put_item(out, item)?;
    Ok(())
}

/// Appends the items that stand, in brackets with a space before these; where none stands, nothing.
pub(crate) fn put_in_brackets(out: &mut Vec<u8>, items: &[Option<Item>]) -> Result<(), NoMemory>
    ensures ok { OnOk result (out.new.items ≡ out.old.items ++ spaced (in_brackets (map part_of items.now))) }
    ensures kept { Extends out.old.items out.new.items }
{
    let mut some = false;
    for item in items {
        if let Some(item) = item {
            put_next(out, some, item)?;
            some = true;
        }
    }
    if some {
        put(out, b")")?;
    }
    Ok(())
}
